//! What a packet action is made on: where it lies, how it is taken, and how it comes back.

ghost use Rattle.std.specs.Prelude.{◌≡◌, Some, is_some, option_map, true};
ghost use Rattle.uv_engine.specs.Ringing.{is_shared};
ghost use Rattle.uv_world.specs.Celled.{cells_emptied, cells_emptied_if, cells_filled, cells_filled_if, value_if, value_of_cell};
ghost use Rattle.uv_world.specs.Holdings.{held_of};
ghost use Rattle.uv_world.specs.Lending.{return_all};
ghost use Rattle.uv_world.specs.Setting.{AreTaken, belled_back, connected_back, contents_given, contents_without, pair_places, queue_if, queue_left, shared_back};
ghost use Rattle.uv_world.specs.Taking.{AreReadyPlaces, cell_of_number, is_live_if, is_of_device, is_shared_live, places_of_pair, queue_at, queue_lent, queue_place, ready_at, ready_pair, ready_with, works_of};

use crate::cells::{Cell, fill, fill_if, take_if, take_live};
use crate::content::{Belled, Connected, Shared};
use crate::contents::Contents;
use crate::lending::give_back;
use uv_cq::Channel;
use uv_engine::{CqLent, Lent};
use uv_num::{FIRST_QP_NUMBER, List};
use uv_qp::{Ledger, Qp};
use uv_queue::WorkQueue;
use uv_region::Regions;
use uv_wr::RecvWork;

/// The cell of a completion queue, and that of its channel.
#[derive(Clone, Copy, Debug, PartialEq)]
pub(crate) struct QueuePlace {
    pub(crate) cell: u32,
    pub(crate) channel: Option<u32>,
}

/// The cells of a queue pair and of all that its actions need, each cell once.
#[derive(Clone, Copy, Debug, PartialEq)]
pub(crate) struct PairPlaces {
    pub(crate) pair: u32,
    pub(crate) send: u32,
    pub(crate) receive: Option<u32>,
    pub(crate) send_channel: Option<u32>,
    pub(crate) receive_channel: Option<u32>,
    pub(crate) shared: Option<u32>,
}

/// What a queue pair is linked with.
#[derive(Clone, Copy, Debug, PartialEq, Drop)]
pub(crate) struct PairLinks {
    pub(crate) send: Option<u32>,
    pub(crate) receive: Option<u32>,
    pub(crate) shared: Option<u32>,
}

/// A shared receive queue without its works.
#[derive(Drop)]
pub(crate) struct QueueLeft {
    pub(crate) object: u32,
    pub(crate) domain: u32,
    pub(crate) posted: Ledger,
}

/// What isn't lent of all that was taken.
#[derive(Drop)]
pub(crate) struct SetAside {
    pub(crate) links: PairLinks,
    pub(crate) queue: Option<QueueLeft>,
}

/// The cell of the queue pair of a number.
pub(crate) fn cell_of_number(number: u32) -> Option<u32>
    ensures { result ≡ cell_of_number number }
{
    if number < FIRST_QP_NUMBER {
        None
    } else {
        Some(number - FIRST_QP_NUMBER)
    }
}

fn is_of_device(device: Option<u32>, qp: &Qp) -> bool
    ensures { result ≡ is_of_device device qp.now }
{
    match device {
        None => true,
        Some(to) => to == qp.names().device,
    }
}

/// Whether a cell holds something.
fn is_live<T>(cells: &List<Cell<T>>, at: u32) -> bool
    ensures { result ≡ is_some (value_of_cell cells.now at) }
{
    match cells.get(at as usize) {
        None => false,
        Some(cell) => cell.value.is_some(),
    }
}

/// Whether a cell that is named holds something.
fn is_live_if<T>(cells: &List<Cell<T>>, at: Option<u32>) -> bool
    ensures { result ≡ is_live_if cells.now at }
{
    match at {
        None => true,
        Some(at) => is_live(cells, at),
    }
}

fn is_named_live<T>(cells: &List<Cell<T>>, at: Option<u32>) -> bool
    ensures { result ≡ is_some (value_if cells.now at) }
{
    match at {
        None => false,
        Some(at) => is_live(cells, at),
    }
}

/// Where a completion queue lies, if it and its channel are live.
fn queue_place(
    rings: &List<Cell<Belled>>,
    channels: &List<Cell<Channel>>,
    at: Option<u32>,
) -> Option<QueuePlace>
    ensures { result ≡ option_map queue_place (queue_at rings.now channels.now at) }
{
    let at = at?;
    let cell = rings.get(at as usize)?;
    match &cell.value {
        None => None,
        Some(q) => {
            if is_live_if(channels, q.channel) {
                Some(QueuePlace {
                    cell: at,
                    channel: q.channel,
                })
            } else {
                None
            }
        }
    }
}

fn is_shared_live(shared: &List<Cell<Shared>>, pair: &Connected) -> bool
    ensures { result ≡ is_shared_live shared.now pair.now }
{
    if pair.qp.has_srq() {
        is_named_live(shared, pair.shared)
    } else {
        true
    }
}

fn is_shared(first: Option<u32>, second: Option<u32>) -> bool
    ensures { result ≡ is_shared first second }
{
    match (first, second) {
        (Some(first), Some(second)) => first == second,
        (None, _) | (Some(_), None) => false,
    }
}

/// The cells of a queue pair with these completion queues.
fn pair_places(at: u32, pair: &Connected, send: QueuePlace, receive: QueuePlace) -> PairPlaces
    ensures { result ≡ pair_places at pair.now send receive }
{
    let is_one = send.cell == receive.cell;
    PairPlaces {
        pair: at,
        send: send.cell,
        receive: if is_one { None } else { Some(receive.cell) },
        send_channel: send.channel,
        receive_channel: if is_one || is_shared(send.channel, receive.channel) {
            None
        } else {
            receive.channel
        },
        shared: if pair.qp.has_srq() { pair.shared } else { None },
    }
}

/// Where things lie.
impl Contents {
    fn places_with(&self, at: u32, pair: &Connected) -> Option<PairPlaces>
        ensures { result ≡ option_map places_of_pair (ready_with self.now.shared at pair.now (queue_at self.now.rings self.now.channels pair.now.send) (queue_at self.now.rings self.now.channels pair.now.receive)) }
    {
        let send = queue_place(&self.rings, &self.channels, pair.send)?;
        let receive = queue_place(&self.rings, &self.channels, pair.receive)?;
        if is_shared_live(&self.shared, pair) {
            Some(pair_places(at, pair, send, receive))
        } else {
            None
        }
    }

    fn places_of(&self, at: u32, device: Option<u32>, pair: &Connected) -> Option<PairPlaces>
        ensures { result ≡ option_map places_of_pair (ready_pair (held_of self.now) at device (Some pair.now)) }
    {
        if is_of_device(device, &pair.qp) {
            self.places_with(at, pair)
        } else {
            None
        }
    }

    /// The cells of the queue pair in a cell and of all that its actions need, if it is of the device and all that is live.
    pub(crate) fn places(&self, at: u32, device: Option<u32>) -> Option<PairPlaces>
        ensures { result ≡ option_map places_of_pair (ready_at (held_of self.now) at device) }
    {
        match self.pairs.get(at as usize) {
            None => None,
            Some(cell) => match &cell.value {
                None => None,
                Some(pair) => self.places_of(at, device, pair),
            },
        }
    }
}

fn take_pair(pairs: &mut List<Cell<Connected>>, at: u32) -> (Qp, PairLinks)
    requires live { is_some (value_of_cell pairs.old at) ≡ true }
    ensures taken { Some (connected_back result.0 result.1) ≡ value_of_cell pairs.old at }
    ensures rest { pairs.new ≡ cells_emptied pairs.old at }
{
    let Connected {
        qp,
        send,
        receive,
        shared,
    } = take_live(pairs, at);
    (
        qp,
        PairLinks {
            send,
            receive,
            shared,
        },
    )
}

fn take_queue(rings: &mut List<Cell<Belled>>, at: u32) -> CqLent
    requires live { is_some (value_of_cell rings.old at) ≡ true }
    ensures taken { Some result ≡ option_map (queue_lent at) (value_of_cell rings.old at) }
    ensures rest { rings.new ≡ cells_emptied rings.old at }
{
    let Belled { ring, channel } = take_live(rings, at);
    CqLent {
        cell: at,
        channel,
        ring,
    }
}

fn take_queue_if(rings: &mut List<Cell<Belled>>, at: Option<u32>) -> Option<CqLent>
    ensures taken { result ≡ queue_if rings.old at }
    ensures rest { rings.new ≡ cells_emptied_if rings.old at }
{
    match at {
        None => None,
        Some(at) => match take_if(rings, Some(at)) {
            None => None,
            Some(q) => Some(CqLent {
                cell: at,
                channel: q.channel,
                ring: q.ring,
            }),
        },
    }
}

fn take_shared(
    shared: &mut List<Cell<Shared>>,
    at: Option<u32>,
) -> (Option<WorkQueue<RecvWork>>, Option<QueueLeft>)
    ensures works { result.0 ≡ option_map works_of (value_if shared.old at) }
    ensures left { result.1 ≡ option_map queue_left (value_if shared.old at) }
    ensures rest { shared.new ≡ cells_emptied_if shared.old at }
{
    match take_if(shared, at) {
        None => (None, None),
        Some(queue) => {
            let Shared {
                object,
                domain,
                works,
                posted,
            } = queue;
            (
                Some(works),
                Some(QueueLeft {
                    object,
                    domain,
                    posted,
                }),
            )
        }
    }
}

fn give_shared(
    shared: &mut List<Cell<Shared>>,
    at: Option<u32>,
    works: Option<WorkQueue<RecvWork>>,
    left: Option<QueueLeft>,
)
    ensures { shared.new ≡ cells_filled_if shared.old at (shared_back works left) }
{
    if let Some(works) = works {
        if let Some(left) = left {
            let QueueLeft {
                object,
                domain,
                posted,
            } = left;
            let queue = Shared {
                object,
                domain,
                works,
                posted,
            };
            fill_if(shared, at, Some(queue));
        }
    }
}

fn give_queue_if(rings: &mut List<Cell<Belled>>, at: Option<u32>, queue: Option<CqLent>)
    ensures { rings.new ≡ cells_filled_if rings.old at (option_map belled_back queue) }
{
    if let Some(queue) = queue {
        let CqLent { channel, ring, .. } = queue;
        fill_if(rings, at, Some(Belled { ring, channel }));
    }
}

/// Taking, and giving back.
impl Contents {
    /// Takes a queue pair and all that its actions need, but for regions, out of these cells.
    pub(crate) fn take_for(&mut self, x: PairPlaces) -> (Lent, SetAside)
        requires ready { AreReadyPlaces (held_of self.old) x }
        ensures contents { self.new ≡ contents_without self.old x }
        ensures taken { AreTaken (held_of self.old) x result.0 result.1 }
    {
        let (qp, links) = take_pair(&mut self.pairs, x.pair);
        let send = take_queue(&mut self.rings, x.send);
        let receive = take_queue_if(&mut self.rings, x.receive);
        let send_channel = take_if(&mut self.channels, x.send_channel);
        let receive_channel = take_if(&mut self.channels, x.receive_channel);
        let (srq, queue) = take_shared(&mut self.shared, x.shared);
        (
            Lent {
                qp,
                send,
                receive,
                send_channel,
                receive_channel,
                srq,
                regions: Regions::new(),
            },
            SetAside { links, queue },
        )
    }

    /// Puts it back there, with the regions of these keys.
    pub(crate) fn give_for(&mut self, x: PairPlaces, lent: Lent, aside: SetAside, keys: &[u32])
        ensures { self.new ≡ contents_given self.old x lent aside keys.now }
    {
        let Lent {
            qp,
            send,
            receive,
            send_channel,
            receive_channel,
            srq,
            regions,
        } = lent;
        let mut regions = regions;
        let SetAside { links, queue } = aside;
        let pair = Connected {
            qp,
            send: links.send,
            receive: links.receive,
            shared: links.shared,
        };
        fill(&mut self.pairs, x.pair, pair);
        give_queue_if(&mut self.rings, Some(x.send), Some(send));
        give_queue_if(&mut self.rings, x.receive, receive);
        fill_if(&mut self.channels, x.send_channel, send_channel);
        fill_if(&mut self.channels, x.receive_channel, receive_channel);
        give_shared(&mut self.shared, x.shared, srq, queue);
        give_back(&mut self.regions, &self.windows, &mut regions, keys);
    }
}
