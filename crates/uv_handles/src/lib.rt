//! A file's handle table: which numbers are set aside for a call that makes an object, and which object is published
//! under a number (`rdma_core.c`, the xarray `ufile->idr`).
//!
//! Contracts see a table as the list of what stands at each number. The layer above cites `published_in`,
//! `is_taken_in` and `least_free` (`specs/Table.antt`), and what they say after a change (`proofs/Changes.antt`).
#![tactic(auto)]

mod handles;
mod slot;

pub use handles::Handles;
pub use slot::Slot;
