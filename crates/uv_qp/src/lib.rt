//! Queue pairs: the transport state of each, its works, and the lists of what was posted and how it ended.
//!
//! `modify` is the table of moves, and the posts refuse by the posting rules, in their order. The turns (the requester,
//! the responder, the completer) read a queue pair by its readers and change it by its writers alone. Contracts see it as
//! `Paired` of `specs/Pairs.antt`, and each writer is one definition of `specs/` on that record. What is true of every queue
//! pair is `IsPaired` there, which `Qp::keeps` tells; what its lists tell at each moment is `IsOrdered` of
//! `specs/Ledgers.antt`, and that they only grow until the next move to RESET is `PairGoesOn` of `specs/GoingOn.antt`.
#![tactic(auto)]

mod counting;
mod ending;
mod gate;
mod gathering;
mod kept;
mod laws;
mod ledger;
mod qp;
mod state;
mod turns;

pub use counting::{WORK_PACKETS, packets_in, packets_of};
pub use gate::{DEFAULT_PKEY, is_response};
pub use gathering::{PieceList, pieces};
pub use laws::{
    goes_on_from_itself, goes_on_in_turn, lists_are_ordered, moves_go_on, pieces_are_few,
    posts_go_on, reset_begins_anew, told_is_in_range, turns_go_on, turns_go_on_in_turn,
    works_were_posted,
};
pub use ledger::{Ledger, QueueList, Which};
pub use qp::{Posted, Qp};
pub use state::{Message, Names, Reading, Requester, Responder};
pub use turns::{TurnDone, TurnWord};

#[cfg(test)]
mod tests;
