//! Work requests, completions, and the answers of data-path calls, as values: what is posted, what is polled, and how a
//! call that may find its object taken says so.
//!
//! The layers above make works by `SendWork::new` and `RecvWork::new`, which refuse parts that are too many or too long,
//! so that no queue and no turn has to ask again. Contracts see a work as `Sending` or `Receiving` of `specs/Works.antt`.
#![tactic(auto)]

mod completion;
mod laws;
mod tried;
mod work;

pub use completion::{Completion, Status, What};
pub use laws::status_is_read_back;
pub use tried::{ArmTried, EventTried, PollTried, Tried};
pub use work::{Op, RecvWork, SendWork, Sge};
