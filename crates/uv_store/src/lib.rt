//! The machine's data as a kernel keeps it: beside each object the lock word that stands for all holds on it and the count
//! of its users, for each file a table of its handles, and an object's place by a search over ids that rise.
//!
//! Contracts see a `Store` as the machine's `State`: its readers are those of the trait `Readers`, and an entry makes of
//! it what the machine's definitions say (`after`). Nothing that is read or written takes time that grows with the number
//! of objects, save the choice of a teardown, the end of a file, and a finish, which moves all objects after its own.
#![tactic(auto)]

mod counts;
mod entries;
mod holds;
mod mark;
mod places;
mod store;
mod tables;
#[cfg(test)]
mod tests;
mod turns;

pub use mark::Mark;
pub use store::Store;
