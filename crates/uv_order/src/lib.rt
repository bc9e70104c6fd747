//! Lists that many seats make together: who made which entry, what a seat has seen of them, and what all seats
//! made comes to.
//!
//! Nothing here runs. The types stand in what seats are known to have seen and done, and no value of them is made; the
//! definitions are those that desks, guards and the kernel above them share; each law is a function that does nothing,
//! whose contract is the law, so that whoever needs the law calls the function.
#![tactic(auto)]

mod laws;
mod signed;
mod taken;

pub use laws::{
    first_in_first_out, log_laws, own_has_place, picked_are_own, sums_add, sums_turn, taking_laws,
    whole_is_added,
};
pub use signed::{SEATS, Signed};
pub use taken::Taken;
