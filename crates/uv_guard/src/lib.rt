//! Cells that hold one value each. Seats take a value in turn, and give it back; the one that has the deed of a cell
//! plants it, dooms it, and buries it once no seat refers to it. A value that was buried is never handed out again.
//!
//! Contracts see a seat and a deed as plain values (`specs/Seated.antt`), and each call is an equation on them. What all
//! seats together did with a cell is told once, where the guard is closed (`Balanced`, `specs/Closed.antt`).
#![tactic(auto)]

mod cell;
mod celled;
mod deed;
mod ends;
mod guard;
mod laws;
mod life;
mod makes;
mod place;
mod plays;
mod register;
mod seat;
mod view;

pub use cell::Entering;
pub use celled::Celled;
pub use deed::GuardDeed;
pub use guard::Guard;
pub use laws::fresh_laws;
pub use life::{Life, Planting, Stage};
pub use register::{Register, add};
pub use seat::GuardSeat;
pub use view::{Found, Held, Kept};

#[cfg(test)]
mod tests;
