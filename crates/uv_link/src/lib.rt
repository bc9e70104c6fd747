//! The link between the devices of a machine: the frames that were sent and that no device has taken yet, oldest first.
//!
//! The layers above push each frame that a queue pair sends and pop the one that is delivered next; a script may drop a
//! frame, double it, or put one in itself. Contracts see a link as the list of its frames, each as `PlainFrame` of
//! `specs/Frames.antt`. First in, first out is `specs/Order.antt` of `uv_queue`.
#![tactic(auto)]

mod frame;
mod laws;
mod link;

pub use frame::Frame;
pub use laws::popped_goes_back;
pub use link::{Duped, Link};
