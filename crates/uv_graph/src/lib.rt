//! The state of the object core, tied to its stored history: at each moment the state is the replay of the history, the
//! history is legal, and the deed of each cell is where it belongs. The crates above read it, choose the entry that the
//! machine allows now, and call the one writer that makes it; they cite `Notes` and its kin, `Allowed` and `state_of`.
#![tactic(auto)]

mod counts;
mod ends;
mod graph;
mod hands;
mod identity;
mod laws;
mod next;
mod opening;
mod out;
mod slots;
mod standing;
mod steps;
mod told;

pub use ends::SPARES;
pub use graph::Graph;
pub use identity::identity_of;
pub use laws::{names_its_actor, own_stands_apart};
pub use out::{Out, Own};
pub use told::{Progress, Swept, Torn};

#[cfg(test)]
mod tests;
