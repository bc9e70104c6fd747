//! Destroys: the steps of a call that takes an object away, by the plan lock, check, finish and exit
//! (`rdma_core.c`, uobj_destroy and uverbs_destroy_uobject).
//!
//! Each call of `step` makes the one entry that the machine has next, and `finish` makes the one after a retirement. The
//! layer above uses `StepGives` and `FinishesBy`.
#![tactic(auto)]

mod destroying;

pub use destroying::{finish, step};
