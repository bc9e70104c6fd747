//! One packet action on what was lent to it: a send turn or a tick of a queue pair, or the delivery of a packet.
//!
//! A site asks `wants` for the keys that an action needs, lends the regions of these as a part of `Lent`, and calls `send`, `tick` or
//! `deliver`; `turn` reads a frame and does the same. What is wanted is `keys_needed` of `specs/Wanting.antt`, what ringing leaves is
//! `all_rung` of `specs/Ringing.antt`, and what an action makes is in `specs/Acting.antt`.
#![tactic(auto)]

mod acting;
mod laws;
mod lent;
mod ringing;
mod wanted;
mod wanting;

pub use acting::{Did, Work, deliver, send, tick, turn};
pub use laws::{disarms_where_told, ringing_goes_on, wants_apart};
pub use lent::{CqLent, Lent};
pub use wanted::Wants;
pub use wanting::wants;

#[cfg(test)]
mod tests;
