//! The completer of a queue pair: what becomes of its works when its peer responds.
//!
//! The layer above gives each response that a queue pair lets in to `turn`. What it says is `meaning_of` of
//! `specs/Meanings.antt`, what it comes to is the table `upshot_of` of `specs/Upshots.antt`, and what that makes is
//! `reply_made` and `lent_by_reply` of `specs/Replies.antt`. What a caller of any sort relies on are the laws.
#![tactic(auto)]

mod completing;
mod filling;
mod judging;
mod laws;
mod meaning;
mod reaches;
mod touching;
mod turning;

pub use judging::Upshot;
pub use laws::{acknowledged_stays_so, replies_go_on};
pub use meaning::Meaning;
pub use reaches::WaitingRead;
pub use touching::reply_touches;
pub use turning::turn;
