//! What objects hold.

use uv_cq::{Channel, Ring};
use uv_qp::{Ledger, Qp};
use uv_queue::WorkQueue;
use uv_region::Region;
use uv_wr::RecvWork;

/// A completion queue, and the cell of the channel that it tells. This project's own.
#[derive(Drop)]
pub struct Belled {
    pub ring: Ring,
    pub channel: Option<u32>,
}

/// A queue pair, and the cells of the completion queues of its sends and of its receives and of its shared receive queue.
/// This project's own.
#[derive(Drop)]
pub struct Connected {
    pub qp: Qp,
    pub send: Option<u32>,
    pub receive: Option<u32>,
    pub shared: Option<u32>,
}

/// A shared receive queue: the works that wait in it, and all that were posted to it (`struct rxe_srq`, `rxe_verbs.h`).
#[derive(Drop)]
pub struct Shared {
    /// Its id.
    pub object: u32,
    /// The id of its protection domain.
    pub domain: u32,
    pub works: WorkQueue<RecvWork>,
    pub posted: Ledger,
}

/// An address handle (`struct rxe_ah`, `rxe_verbs.h`).
#[derive(Clone, Copy, Debug, PartialEq, Drop)]
pub struct Addressed {
    /// Its id.
    pub object: u32,
    /// The id of its protection domain.
    pub domain: u32,
    /// The device that it leads to, 0 or 1.
    pub device: u64,
}

/// The range of a region that a window gives to others.
#[derive(Clone, Copy, Debug, PartialEq, Drop)]
pub struct Bound {
    /// The region's id. A later region in the same cell isn't reached through the window.
    pub object: u32,
    /// The region's cell.
    pub region: u32,
    /// Where the range begins in the region, in bytes.
    pub offset: u64,
    /// How long the range is, in bytes.
    pub length: u64,
    /// The rights that it gives.
    pub access: u64,
}

/// A memory window (`struct rxe_mw`, `rxe_verbs.h`).
#[derive(Clone, Copy, Debug, PartialEq, Drop)]
pub struct Windowed {
    /// Its id.
    pub object: u32,
    /// The id of its protection domain.
    pub domain: u32,
    /// What it is bound to, if anything.
    pub bound: Option<Bound>,
}

/// What an object holds. A protection domain holds nothing.
#[derive(Drop)]
pub enum Content {
    Channel(Channel),
    Cq(Belled),
    Qp(Connected),
    Srq(Shared),
    Ah(Addressed),
    Mr(Region),
    Mw(Windowed),
}
