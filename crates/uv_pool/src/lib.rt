//! The cells of a kind of objects: a pool has the deed of each, which is home or out. And the keys of regions and
//! windows, which name a cell.
//!
//! What a deed tells is one value (`DeedFacts`, `specs/Deeds.antt`); a clause says `D.facts deed`. Contracts see a pool as
//! the list of the deeds by the indices of their cells, with the place at which the next choice begins (`Homes`). The
//! layer above cites `home_place`, `drawn` and `brought` (`specs/Homes.antt`), which go round as the cells of the
//! object-graph machine do (`proofs/Choosing.antt`), and what stands at each place after a change (`proofs/Places.antt`).
//! Of keys it cites `key_number` and `key_parts` (`specs/Keys.antt`), which undo each other (`specs/Laws.antt`). `plain`
//! has a deed of a cell that holds nothing, with full pools (`AreNewPools`, `specs/Filled.antt`).
#![tactic(auto)]

mod deed;
mod key;
mod laws;
pub mod plain;
mod pool;
#[cfg(test)]
mod tests;

pub use deed::{Deed, Life};
pub use key::{key_of, of_key};
pub use laws::{key_is_read_back, key_of_what_it_names, new_is_planted, planted_is_buried};
pub use pool::Pool;
