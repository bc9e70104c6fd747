//! The contents of objects beside the object core: regions, windows, completion queues, channels, shared receive queues,
//! queue pairs and address handles, each planted, taken out and closed as the entries of the core's history say.
#![tactic(auto)]

mod acting;
mod beginning;
mod cells;
mod changing;
mod completing;
mod content;
mod contents;
mod deeds;
mod finding;
pub mod laws;
mod lending;
mod making;
mod naming;
mod poking;
mod posting;
mod sending;
mod stepping;
mod taking;
mod tearing;
#[cfg(test)]
mod tests;
mod world;

pub use acting::PacketTried;
pub use cells::Cell;
pub use content::{Addressed, Belled, Bound, Connected, Content, Shared, Windowed};
pub use contents::Contents;
pub use making::content_for;
pub use tearing::Turn;
pub use world::{Doomed, World};
