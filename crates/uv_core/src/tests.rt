//! Histories that actors play on a core of plain deeds.

mod are;
mod full;
mod plays;
mod rows;
