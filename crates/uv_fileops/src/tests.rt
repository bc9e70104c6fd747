//! Calls played to their ends, with deeds that have no contents.

mod plays;
mod rows;
mod scenes;
