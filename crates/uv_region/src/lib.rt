//! Memory regions: their bytes, the four tests of an action on them, and the journal of all that was done.
//!
//! An action that isn't allowed touches no byte and stands in no journal. What was allowed stands there in order, a
//! read with the bytes that it read, and the bytes are at each moment the journal's replay. Whoever has a region calls
//! `test`, `act` or `act_reserved`, and gets the journal by `close`. A turn of the data path is lent `Regions`, asks
//! `allows` of each piece, takes all its room by `reserve`, and then calls `act` and `read`, which can't fail.
#![tactic(auto)]

mod action;
mod bytes;
mod journal;
mod laws;
mod piece;
mod region;
mod regions;
mod rights;
mod rule;
mod several;

pub use action::{Access, Action, Why, Window};
pub use bytes::{action_bytes, blank_bytes};
pub use journal::Journal;
pub use laws::{
    access_has_rule, acted_goes_on, acted_is_kept, action_changes_no_test, allowed_may_act,
    allowed_may_read_all, allowed_may_write_all, allowed_passes_all, goes_on_from_itself,
    goes_on_in_turn, lent_regions_go_on, outside_stays, refused_in_order, replay_keeps_length,
    room_changes_no_test, room_is_not_known, tests_look_at_no_bytes, written_stands,
};
pub use piece::Piece;
pub use region::{ActTried, Acted, Region};
pub use regions::Regions;
pub use rights::Rights;
pub use rule::AccessRule;
pub use several::{PieceWrite, piece_writes};

#[cfg(test)]
mod tests;
