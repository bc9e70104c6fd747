//! Creates: the steps of a call that makes an object, by the plan reserve, look, make, commit, free and exit
//! (`rdma_core.c`, rdma_alloc_begin_uobject and rdma_alloc_commit_uobject).
//!
//! Each call of `step` makes the one entry that the machine has next. The layer above uses `StepGives` and `HasNoOut`.
#![tactic(auto)]

mod creating;

pub use creating::{planted, step};
