//! Packet actions.

ghost use Rattle.std.specs.Prelude.{◌≡◌, ◌≤◌, [], None, Some, is_some};
ghost use Rattle.std.specs.Option.{option_copied};
ghost use Rattle.uv_engine.specs.Wanting.{keys_wanted};
ghost use Rattle.uv_engine.specs.Acting.{ActionGives};
ghost use Rattle.uv_engine.specs.GoingOn.{ActionGoesOn};
ghost use Rattle.uv_packet.specs.Reading.{content_at};
ghost use Rattle.uv_packet.specs.Refusal.{refusal_of};
ghost use Rattle.uv_world.specs.Acting.{ArrivalGives, FrameAnswers, PacketGives, ReadyGives, action_for};
ghost use Rattle.uv_world.specs.Asking.{ActsAt, AnswersAs, IsTaskReady, TakesFrame, pair_task_of};
ghost use Rattle.uv_world.specs.Holdings.{held_of};
ghost use Rattle.uv_world.specs.Lending.{AreDifferent};
ghost use Rattle.uv_world.specs.Named.{OnlyContents, SameCells, stage_holding};
ghost use Rattle.uv_world.specs.Owing.{IsHoused};
ghost use Rattle.uv_world.specs.Seating.{IsWorld, stage_of};
ghost use Rattle.uv_world.specs.Taking.{AreReadyPlaces, keys_for, ready_at};

use crate::contents::Contents;
use crate::lending::lend;
use crate::taking::{PairPlaces, cell_of_number};
use crate::world::World;
use std::alloc::Global;
use uv_engine::{Did, Lent, Wants, Work, deliver, send, tick, wants, wants_apart};
use uv_link::Frame;
use uv_num::{LENT_REGIONS, List};
use uv_packet::{Packet, PacketFault, decode, dest_at, refusal};
use uv_qp::{Qp, TurnWord};
use uv_queue::WorkQueue;
use uv_wr::RecvWork;

/// What came of a packet action. This project's own.
#[derive(Debug, Drop)]
pub enum PacketTried {
    /// It was made.
    Did {
        /// What it did.
        word: TurnWord,
        /// The frames that go out, at most one. The caller puts them on its link.
        frames: List<Frame>,
    },
    /// There was nothing to do, and nothing has changed. A delivery is never idle.
    Idle,
    /// The bytes of the frame are no packet, by the first fault that they have.
    Bad(PacketFault),
    /// No queue pair of the frame's device is live there, or its completion queues, their channels or its shared receive queue
    /// aren't.
    Dead,
    /// Out of memory. Nothing that counts has changed, and the action comes back.
    NoMemory(Work),
}

/// What a queue pair does.
#[derive(Drop)]
enum PairWork {
    /// A send turn.
    Turn,
    /// A tick.
    Tick,
    /// It takes a packet that goes from one device to another.
    Packet { from: u32, to: u32, packet: Packet },
}

/// No key.
fn no_keys() -> Wants
    ensures keys { keys_wanted result ≡ [] }
    ensures count { result.count ≡ 0 }
{
    Wants {
        count: 0,
        keys: [0; LENT_REGIONS],
    }
}

/// The keys that it wants.
fn wants_of(asked: &PairWork, qp: &Qp, srq: Option<&WorkQueue<RecvWork>>) -> Wants
    requires ready { IsTaskReady (pair_task_of asked.now) }
    ensures keys { keys_wanted result ≡ keys_for (pair_task_of asked.now) qp.now (option_copied srq.entry) }
    ensures count { result.count ≤ 5 }
    ensures different { AreDifferent (keys_wanted result) }
{
    wants_apart();
    match asked {
        PairWork::Turn => wants(qp, None, srq),
        PairWork::Tick => no_keys(),
        PairWork::Packet { packet, .. } => wants(qp, Some(packet), srq),
    }
}

/// Makes it with what is lent.
fn act(alloc: Global, asked: &PairWork, lent: &mut Lent) -> Did
    requires ready { IsTaskReady (pair_task_of asked.now) }
    requires shared { lent.old.qp.srq ≡ is_some lent.old.srq }
    ensures gives { ActionGives (action_for (pair_task_of asked.now) lent.old) lent.old result lent.new }
    ensures goes_on { ActionGoesOn lent.old lent.new }
{
    match asked {
        PairWork::Turn => send(alloc, lent),
        PairWork::Tick => tick(alloc, lent),
        PairWork::Packet { from, to, packet } => deliver(alloc, *from, *to, packet, lent),
    }
}

/// Answers as the engine did.
fn answer(did: Did, work: Work) -> PacketTried
    ensures { AnswersAs did work result }
{
    match did {
        Did::Did { word, frames } => PacketTried::Did { word, frames },
        Did::Idle => PacketTried::Idle,
        Did::NoMemory => PacketTried::NoMemory(work),
    }
}

/// Packet actions.
impl Contents {
    /// Makes an action of the queue pair whose places these are.
    fn act_at(&mut self, alloc: Global, x: PairPlaces, asked: &PairWork) -> Did
        requires places { AreReadyPlaces (held_of self.old) x }
        requires ready { IsTaskReady (pair_task_of asked.now) }
        requires housed { IsHoused self.old }
        ensures gives { ActsAt (held_of self.old) x (pair_task_of asked.now) result (held_of self.new) }
        ensures cells { SameCells (held_of self.old) (held_of self.new) }
        ensures housed { IsHoused self.new }
    {
        let (lent, aside) = self.take_for(x);
        let mut lent = lent;
        let wants = wants_of(asked, &lent.qp, lent.srq.as_ref());
        let keys = &wants.keys[..wants.count as usize];
        lent.regions = lend(&mut self.regions, &self.windows, keys);
        let did = act(alloc, asked, &mut lent);
        self.give_for(x, lent, aside, keys);
        did
    }

    /// Makes a turn or a tick of the queue pair in a cell.
    fn turn_at(&mut self, alloc: Global, at: u32, asked: PairWork, work: Work) -> PacketTried
        requires ready { IsTaskReady (pair_task_of asked) }
        requires housed { IsHoused self.old }
        ensures gives { ReadyGives (held_of self.old) work (ready_at (held_of self.old) at None) (pair_task_of asked) result (held_of self.new) }
        ensures cells { SameCells (held_of self.old) (held_of self.new) }
        ensures housed { IsHoused self.new }
    {
        match self.places(at, None) {
            None => PacketTried::Dead,
            Some(x) => {
                let did = self.act_at(alloc, x, &asked);
                answer(did, work)
            }
        }
    }

    /// Delivers a frame to the queue pair whose places these are. Its bytes are those of a packet.
    fn take_frame(&mut self, alloc: Global, x: PairPlaces, frame: Frame) -> PacketTried
        requires places { AreReadyPlaces (held_of self.old) x }
        requires reads { refusal_of frame.bytes.bytes ≡ None }
        requires housed { IsHoused self.old }
        ensures gives { TakesFrame (held_of self.old) x frame result (held_of self.new) }
        ensures cells { SameCells (held_of self.old) (held_of self.new) }
        ensures housed { IsHoused self.new }
    {
        match decode(alloc, frame.bytes.as_slice()) {
            Err(_) => PacketTried::NoMemory(Work::Deliver(frame)),
            Ok(packet) => {
                let asked = PairWork::Packet {
                    from: frame.from,
                    to: frame.to,
                    packet,
                };
                let did = self.act_at(alloc, x, &asked);
                answer(did, Work::Deliver(frame))
            }
        }
    }

    /// Delivers a frame to the queue pair in a cell. Its bytes are those of a packet.
    fn deliver_at(&mut self, alloc: Global, at: u32, frame: Frame) -> PacketTried
        requires reads { refusal_of frame.bytes.bytes ≡ None }
        requires housed { IsHoused self.old }
        ensures gives { ArrivalGives (held_of self.old) frame (Some at) (content_at frame.bytes.bytes) result (held_of self.new) }
        ensures cells { SameCells (held_of self.old) (held_of self.new) }
        ensures housed { IsHoused self.new }
    {
        match self.places(at, Some(frame.to)) {
            None => PacketTried::Dead,
            Some(x) => self.take_frame(alloc, x, frame),
        }
    }

    /// Delivers a frame.
    fn deliver(&mut self, alloc: Global, frame: Frame) -> PacketTried
        requires housed { IsHoused self.old }
        ensures gives { FrameAnswers (held_of self.old) frame (refusal_of frame.bytes.bytes) result (held_of self.new) }
        ensures cells { SameCells (held_of self.old) (held_of self.new) }
        ensures housed { IsHoused self.new }
    {
        if let Some(fault) = refusal(frame.bytes.as_slice()) {
            return PacketTried::Bad(fault);
        }
        match cell_of_number(dest_at(frame.bytes.as_slice())) {
            None => PacketTried::Dead,
            Some(at) => self.deliver_at(alloc, at, frame),
        }
    }

    /// Makes a packet action.
    pub fn packet(&mut self, alloc: Global, work: Work) -> PacketTried
        requires housed { IsHoused self.old }
        ensures gives { PacketGives (held_of self.old) work result (held_of self.new) }
        ensures cells { SameCells (held_of self.old) (held_of self.new) }
        ensures housed { IsHoused self.new }
    {
        match work {
            Work::Send(at) => self.turn_at(alloc, at, PairWork::Turn, Work::Send(at)),
            Work::Tick(at) => self.turn_at(alloc, at, PairWork::Tick, Work::Tick(at)),
            Work::Deliver(frame) => self.deliver(alloc, frame),
        }
    }
}

impl World {
    /// Makes a packet action: a send turn (`rxe_requester`, `rxe_req.c`) or a tick (`retransmit_timer`, `rxe_comp.c`) of the queue
    /// pair in a cell, or the delivery of a frame (`rxe_rcv`, `rxe_recv.c`) to the queue pair of the device and the number that its
    /// packet goes to. The frames that go out are the caller's to put on its link. `Bad`: the frame has no packet. `Dead`: no such
    /// queue pair is live, or a completion queue, a channel or a shared receive queue that it needs isn't. `Idle`: a send turn or a
    /// tick with nothing to do. Out of memory nothing that counts has changed, and the action comes back, with its frame.
    pub fn packet(&mut self, alloc: Global, work: Work) -> PacketTried
        requires world { IsWorld self.old }
        ensures gives { PacketGives (held_of self.old.contents) work result (held_of self.new.contents) }
        ensures stage { stage_of self.new ≡ stage_holding (stage_of self.old) (held_of self.new.contents) }
        ensures only { OnlyContents self.old self.new }
        ensures world { IsWorld self.new }
    {
        self.contents.packet(alloc, work)
    }
}
