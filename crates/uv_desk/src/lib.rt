//! A machine that many seats use in turn: each turn is one entry, or none, of one history, of which each seat has
//! seen a beginning.
//!
//! The layer above makes a `Machine`, gives it to `Desk::new`, hands the seats to its threads, and gets the machine
//! back from `Desk::close` with the log of all turns. Contracts see a desk as the number of its table, and a seat as
//! `Placed` of `specs/Seats.antt`. What a turn tells is `Answer` of `specs/Answers.antt`, and what the end tells is
//! `Fits` of `specs/Fits.antt`.
#![tactic(auto)]

mod closing;
mod counter;
mod desk;
mod laws;
mod machine;
mod opening;
mod plays;
mod seat;
mod turning;
mod view;

pub use counter::{Added, Counter, close_counter};
pub use desk::Desk;
pub use laws::{any_order_is_all, new_are_all, places_are_all};
pub use machine::Machine;
pub use seat::DeskSeat;
pub use view::{Kept, View};

#[cfg(test)]
mod tests;
