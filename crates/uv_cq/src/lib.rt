//! Completion queues and completion channels: what has ended, oldest first, and who wants to be told.
//!
//! The layers above push each completion to the ring of its queue and hand the event, where one is due, to the channel.
//! Contracts see a ring as `Ringed` of `specs/Rings.antt`, and a channel as the list of its events. First in, first out is
//! `specs/Order.antt` of `uv_queue`, and `laws` says what follows over many calls.
#![tactic(auto)]

mod channel;
mod laws;
mod ring;

pub use channel::Channel;
pub use laws::{
    armed_for_all_stays, completions_in_order, each_use_in_order, few_disarms, overrun_is_for_good,
    uses_join,
};
pub use ring::{Arming, Pushed, Ring};
