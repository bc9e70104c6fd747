//! Queues of works: the send, receive and shared receive queues of a device, each with the depth that it was made with.
//!
//! The layers above push what is posted and pop what is done, and look at the works between by `at`. Contracts see a
//! queue as `Queued` of `specs/Queued.antt`: the works in the order in which they came, and the depth. `specs/Order.antt`
//! has the order itself, which completion queues and channels share.
#![tactic(auto)]

mod laws;
mod queue;

pub use laws::first_in_first_out;
pub use queue::WorkQueue;
