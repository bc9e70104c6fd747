//! A run: a script is read, its lines are played on the world, and the report of what became of them is written.
//!
//! A program's `main` calls `start`, which has the clauses of `run`. They speak by `script_of`, the lines of a script's
//! bytes, by `FollowsScript`, what a record has to do with lines, and by `report_of`, the bytes of a report.
#![tactic(auto)]

mod asked;
mod beginning;
mod data_path;
mod flight;
mod flights;
mod heard;
pub mod laws;
mod lines;
mod marked;
mod outcome;
mod play;
mod replies;
mod reply;
mod running;
mod sayings;
mod stepping;
mod tearing;
#[cfg(test)]
mod tests;
mod texts;
mod top;
mod words;

pub use marked::{Marked, mark_steps};
pub use outcome::Done;
pub use texts::{fault_text, too_long_text, usage_text};
pub use top::{run, run_steps, start};
pub use uv_model::Left;
pub use uv_report::{Record, Said, Saying};
pub use words::{Wanted, arguments, words_wanted};
