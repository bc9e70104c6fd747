//! The object-graph machine under the name that the layers above know, and what its histories tell.
//!
//! `judge` says whether a history is legal, and else where it is bad first. `standing` tells what stands at a place of a
//! history, `gone_after` what one teardown released, `left_at_end` what was left when the end of a script began to close the
//! files, and `gone_at_end` what went as it closed them.
//! The words and definitions of `uv_machine` are passed on.
#![tactic(auto)]

mod gone;
mod judging;
mod left;
mod replays;
#[cfg(test)]
mod tests;

pub use gone::{gone_after, gone_at_end, left_at_end};
pub use judging::{Verdict, judge};
pub use left::{Left, left_in};
pub use replays::standing;
pub use uv_machine::{
    Answer, CallStep, Cell, Entry, File, FilePhase, InFlight, Object, PLAN_STEPS, Phase, Pool,
    State, Told, Word, first_bad,
};
