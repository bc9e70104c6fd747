//! What is lent to an action.

use uv_cq::{Channel, Ring};
use uv_qp::Qp;
use uv_queue::WorkQueue;
use uv_region::Regions;
use uv_wr::RecvWork;

/// A completion queue, as it is lent to an action.
#[derive(Debug, Drop)]
pub struct CqLent {
    /// The index of its cell, which an event of it tells.
    pub cell: u32,
    /// The index of its channel's cell, where it has a channel.
    pub channel: Option<u32>,
    /// Its ring.
    pub ring: Ring,
}

/// All that is lent to an action, each thing by its owner, who has it back after the action.
#[derive(Drop)]
pub struct Lent {
    /// The queue pair.
    pub qp: Qp,
    /// The completion queue of its sends.
    pub send: CqLent,
    /// That of its receives, None exactly where both are one.
    pub receive: Option<CqLent>,
    /// The channel of `send`, if it has one.
    pub send_channel: Option<Channel>,
    /// The channel of `receive`, None where it has none, has that of `send`, or is `send`.
    pub receive_channel: Option<Channel>,
    /// The shared receive queue, Some exactly where the queue pair has one.
    pub srq: Option<WorkQueue<RecvWork>>,
    /// The regions that are live of the keys that `wants` names, each with the window that it is reached through.
    pub regions: Regions,
}
