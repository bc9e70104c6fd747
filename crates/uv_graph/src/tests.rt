//! Histories written out by hand, played through the graph's writers with deeds that have no contents.

mod plays;
mod rows;
