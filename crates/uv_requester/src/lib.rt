//! The requester of a queue pair: what it sends, and how its works end that are flushed, refused by a region or given up.
#![tactic(auto)]

mod answering;
mod ending;
mod laws;
mod packing;
mod segment;
mod send_places;
mod sending;
mod ticking;
mod touching;
mod turning;

pub use laws::{
    nothing_is_lost, segment_stands, send_turns_go_on, ticks_go_on, turns_make_packets,
};
pub use segment::{Course, Spot};
pub use sending::DATAGRAM_BYTES;
pub use ticking::tick;
pub use touching::{response_touches, send_touches};
pub use turning::turn;
