//! The responder: what comes of a request that came in, a packet of a connection or a datagram (`rxe_responder`,
//! `sw/rxe/rxe_resp.c`).
//!
//! `judge` is the table of connections, and `receive_datagram` the rule of datagrams: each tells the first row that applies, and
//! changes nothing. `turn` carries the row out. Its contract is what the layer above uses: `turn_made` says whole what a request
//! makes, and `IsUnmade` that nothing that counts has changed where memory runs out.
#![tactic(auto)]

mod answering;
mod datagram;
mod judging;
mod laws;
mod part;
mod planning;
mod rule;
mod settling;
mod touching;
mod turning;

pub use datagram::{Arrival, receive_datagram};
pub use judging::{Judgement, judge};
pub use laws::{packet_has_rule, rule_tells_syndrome};
pub use part::{Asks, Part, part_of};
pub use rule::{PacketRule, packet_rule};
pub use touching::{range_touched, receive_for, receive_touched};
pub use turning::turn;
