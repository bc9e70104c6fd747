//! Actions: a turn, the frame that it makes, and the completions that it tells.

ghost use Rattle.std.specs.Prelude.{◌≡◌, ◌≤◌, ◌<◌, [], ◌∷◌, Some, map, true, IfOk, is_some};
ghost use Rattle.uv_num.specs.declared.limits.TheConstants.{PACKET_BYTES};
ghost use Rattle.uv_link.specs.Frames.{plain_frame};
ghost use Rattle.uv_packet.specs.Packets.{content_of, IsPacketValue};
ghost use Rattle.uv_qp.specs.Gate.{lets_in};
ghost use Rattle.uv_responder.specs.Turns.{AnswersGoOut, GoOut, RequestGoesOn};
ghost use Rattle.uv_engine.specs.GoingOn.{ActionGoesOn};
ghost use Rattle.uv_engine.specs.Acting.{all_framed, arrival_action, comes_from_peer, delivery_action, framed, is_admitted, is_here, request_action, response_action, send_action, taking_action, tick_action, ActionGives, DeliversPacket, FinishGives, FrameGives, RequestTurned, SendsNothing, TellsWord, WorkGives};

use crate::lent::Lent;
use crate::ringing::ring_all;
use crate::wanting::responds;
use std::alloc::{AllocError, Global};
use uv_completer::replies_go_on;
use uv_link::Frame;
use uv_num::{Bytes, List, PACKET_BYTES, Service, Stock};
use uv_packet::{Packet, decode, encode_into};
use uv_qp::{Qp, TurnDone, TurnWord, turns_go_on};
use uv_region::lent_regions_go_on;
use uv_requester::{send_turns_go_on, ticks_go_on, turns_make_packets};

/// An action. The number is the cell of the queue pair.
#[derive(Debug, Drop)]
pub enum Work {
    /// The send turn of a queue pair.
    Send(u32),
    /// The tick of a queue pair.
    Tick(u32),
    /// The delivery of a frame.
    Deliver(Frame),
}

/// What came of an action.
#[derive(Debug, Drop)]
pub enum Did {
    /// It was made.
    Did {
        /// What it did.
        word: TurnWord,
        /// The frames that go out, at most one.
        frames: List<Frame>,
    },
    /// There was nothing to do, and nothing has changed.
    Idle,
    /// Out of memory. Nothing that counts has changed.
    NoMemory,
}

/// Room for a frame.
#[derive(Drop)]
struct FrameRoom {
    bytes: Bytes,
    frames: Stock<Frame>,
}

fn frame_room(alloc: Global) -> Result<FrameRoom, AllocError>
    ensures empty { IfOk result (λ r. r.bytes.bytes ≡ []) }
    ensures spare { IfOk result (λ r. PACKET_BYTES ≤ r.bytes.spare) }
    ensures none { IfOk result (λ r. r.frames.items ≡ []) }
    ensures place { IfOk result (λ r. 0 < r.frames.room) }
{
    let bytes = Bytes::with_room(alloc, PACKET_BYTES)?;
    let mut frames = Stock::new(alloc);
    frames.widen(1)?;
    Ok(FrameRoom { bytes, frames })
}

fn no_frames(room: FrameRoom) -> List<Frame>
    requires { room.frames.items ≡ [] }
    ensures { result ≡ [] }
{
    let FrameRoom { bytes: _, frames } = room;
    List::from_vec(frames.into_vec())
}

/// The frame of a packet. It takes no memory.
#[tactic(auto, using(crate::proofs::Framing::one_framed))]
fn frame_one(room: FrameRoom, from: u32, to: u32, packet: &Packet) -> List<Frame>
    requires value { IsPacketValue (content_of packet.now) }
    requires empty { room.bytes.bytes ≡ [] }
    requires spare { PACKET_BYTES ≤ room.bytes.spare }
    requires none { room.frames.items ≡ [] }
    requires place { 0 < room.frames.room }
    ensures { map plain_frame result ≡ framed from to (content_of packet.now) ∷ [] }
{
    let FrameRoom { bytes, frames } = room;
    let mut bytes = bytes;
    let mut frames = frames;
    encode_into(packet, &mut bytes);
    frames.put(Frame { from, to, bytes });
    List::from_vec(frames.into_vec())
}

/// The frames of at most one packet. They take no memory.
fn frame_all(room: FrameRoom, from: u32, to: u32, packets: &List<Packet>) -> List<Frame>
    requires out { GoOut packets.now }
    requires empty { room.bytes.bytes ≡ [] }
    requires spare { PACKET_BYTES ≤ room.bytes.spare }
    requires none { room.frames.items ≡ [] }
    requires place { 0 < room.frames.room }
    ensures { map plain_frame result ≡ all_framed from to (map content_of packets.now) }
{
    match packets.get(0) {
        None => no_frames(room),
        Some(packet) => frame_one(room, from, to, packet),
    }
}

/// Ends a turn: its packet goes into a frame, and its completions into their rings.
fn finish(done: TurnDone, room: FrameRoom, from: u32, solicited: bool, lent: &mut Lent) -> Did
    requires out { AnswersGoOut done }
    requires empty { room.bytes.bytes ≡ [] }
    requires spare { PACKET_BYTES ≤ room.bytes.spare }
    requires none { room.frames.items ≡ [] }
    requires place { 0 < room.frames.room }
    ensures { FinishGives from lent.old solicited done result lent.new }
{
    match done {
        TurnDone::Idle => Did::Idle,
        TurnDone::NoMemory => Did::NoMemory,
        TurnDone::Turned {
            word,
            to,
            packets,
            completions,
        } => {
            let frames = frame_all(room, from, to, &packets);
            ring_all(lent, completions.as_slice(), solicited);
            Did::Did { word, frames }
        }
    }
}

/// Ends a turn that sends nothing.
fn finish_quietly(alloc: Global, done: TurnDone, from: u32, solicited: bool, lent: &mut Lent) -> Did
    requires { SendsNothing done }
    ensures { FinishGives from lent.old solicited done result lent.new }
{
    match done {
        TurnDone::Idle => Did::Idle,
        TurnDone::NoMemory => Did::NoMemory,
        TurnDone::Turned {
            word,
            to: _,
            packets: _,
            completions,
        } => {
            ring_all(lent, completions.as_slice(), solicited);
            Did::Did {
                word,
                frames: List::new(alloc),
            }
        }
    }
}

/// What an action that only tells a word did.
fn told(alloc: Global, word: TurnWord) -> Did
    ensures { TellsWord word result }
{
    Did::Did {
        word,
        frames: List::new(alloc),
    }
}

#[tactic(auto, using(crate::proofs::Finishing::tick_quiet, crate::proofs::Finishing::tick_gives))]
fn make_tick(alloc: Global, lent: &mut Lent) -> Did
    ensures { ActionGives (tick_action lent.old) lent.old result lent.new }
{
    let from = lent.qp.names().device;
    let done = uv_requester::tick(alloc, &mut lent.qp);
    finish_quietly(alloc, done, from, false, lent)
}

/// Makes the tick of a queue pair (`retransmit_timer`, `rxe_comp.c`): time has passed without an answer. It is idle exactly where
/// the state isn't RTS or nothing waits for an answer.
pub fn tick(alloc: Global, lent: &mut Lent) -> Did
    ensures gives { ActionGives (tick_action lent.old) lent.old result lent.new }
    ensures goes_on { ActionGoesOn lent.old lent.new }
{
    turns_go_on();
    lent_regions_go_on();
    ticks_go_on();
    make_tick(alloc, lent)
}

fn send_into(alloc: Global, room: FrameRoom, lent: &mut Lent) -> Did
    requires empty { room.bytes.bytes ≡ [] }
    requires spare { PACKET_BYTES ≤ room.bytes.spare }
    requires none { room.frames.items ≡ [] }
    requires place { 0 < room.frames.room }
    ensures { ActionGives (send_action lent.old) lent.old result lent.new }
{
    turns_make_packets();
    lent.qp.keeps();
    let from = lent.qp.names().device;
    let done = uv_requester::turn(alloc, &mut lent.qp, &mut lent.regions);
    finish(done, room, from, false, lent)
}

fn make_send(alloc: Global, lent: &mut Lent) -> Did
    ensures { ActionGives (send_action lent.old) lent.old result lent.new }
{
    match frame_room(alloc) {
        Err(AllocError) => Did::NoMemory,
        Ok(room) => send_into(alloc, room, lent),
    }
}

/// Makes the send turn of a queue pair: it answers a read, flushes a work or sends a packet. It is idle exactly where there is none
/// of these to do.
pub fn send(alloc: Global, lent: &mut Lent) -> Did
    ensures gives { ActionGives (send_action lent.old) lent.old result lent.new }
    ensures goes_on { ActionGoesOn lent.old lent.new }
{
    turns_go_on();
    lent_regions_go_on();
    send_turns_go_on();
    make_send(alloc, lent)
}

fn is_here(qp: &Qp, to: u32) -> bool
    ensures { result ≡ is_here qp.now to }
{
    to == qp.names().device
}

fn comes_from_peer(qp: &Qp, from: u32) -> bool
    ensures { result ≡ comes_from_peer qp.now qp.now.service from }
{
    match qp.service() {
        Service::Rc => from == qp.peer_device(),
        Service::Ud => true,
    }
}

fn is_admitted(qp: &Qp, from: u32, packet: &Packet) -> bool
    ensures { result ≡ is_admitted qp.now from (content_of packet.now) }
{
    qp.lets_in(packet) && comes_from_peer(qp, from)
}

#[tactic(auto, using(crate::proofs::Finishing::reply_quiet, crate::proofs::Finishing::response_gives))]
fn make_response(alloc: Global, packet: &Packet, lent: &mut Lent) -> Did
    requires let_in { lets_in lent.old.qp (content_of packet.now) ≡ true }
    ensures { ActionGives (Some (response_action lent.old (content_of packet.now))) lent.old result lent.new }
{
    let from = lent.qp.names().device;
    let done = uv_completer::turn(alloc, &mut lent.qp, &mut lent.regions, packet);
    finish_quietly(alloc, done, from, packet.solicited, lent)
}

fn take_response(alloc: Global, packet: &Packet, lent: &mut Lent) -> Did
    requires let_in { lets_in lent.old.qp (content_of packet.now) ≡ true }
    ensures gives { ActionGives (Some (response_action lent.old (content_of packet.now))) lent.old result lent.new }
    ensures goes_on { ActionGoesOn lent.old lent.new }
{
    turns_go_on();
    lent_regions_go_on();
    replies_go_on();
    make_response(alloc, packet, lent)
}

fn turn_request(alloc: Global, packet: &Packet, lent: &mut Lent) -> TurnDone
    requires value { IsPacketValue (content_of packet.now) }
    requires let_in { lets_in lent.old.qp (content_of packet.now) ≡ true }
    requires shared { lent.old.qp.srq ≡ is_some lent.old.srq }
    ensures turned { RequestTurned lent.old (content_of packet.now) result lent.new }
    ensures goes_on { RequestGoesOn result lent.old.qp lent.old.regions lent.new.qp lent.new.regions }
    ensures out { AnswersGoOut result }
{
    match lent.srq.take() {
        None => uv_responder::turn(alloc, &mut lent.qp, &mut lent.regions, packet, None),
        Some(queue) => {
            let mut queue = queue;
            let done = uv_responder::turn(
                alloc,
                &mut lent.qp,
                &mut lent.regions,
                packet,
                Some(&mut queue),
            );
            lent.srq = Some(queue);
            done
        }
    }
}

#[tactic(auto, using(crate::proofs::Finishing::request_gives, crate::proofs::GoingOn::request_goes_on))]
fn take_request_into(alloc: Global, room: FrameRoom, packet: &Packet, lent: &mut Lent) -> Did
    requires value { IsPacketValue (content_of packet.now) }
    requires let_in { lets_in lent.old.qp (content_of packet.now) ≡ true }
    requires shared { lent.old.qp.srq ≡ is_some lent.old.srq }
    requires empty { room.bytes.bytes ≡ [] }
    requires spare { PACKET_BYTES ≤ room.bytes.spare }
    requires none { room.frames.items ≡ [] }
    requires place { 0 < room.frames.room }
    ensures gives { ActionGives (Some (request_action lent.old (content_of packet.now))) lent.old result lent.new }
    ensures goes_on { ActionGoesOn lent.old lent.new }
{
    turns_go_on();
    lent_regions_go_on();
    let from = lent.qp.names().device;
    let done = turn_request(alloc, packet, lent);
    finish(done, room, from, packet.solicited, lent)
}

fn take_request(alloc: Global, packet: &Packet, lent: &mut Lent) -> Did
    requires value { IsPacketValue (content_of packet.now) }
    requires let_in { lets_in lent.old.qp (content_of packet.now) ≡ true }
    requires shared { lent.old.qp.srq ≡ is_some lent.old.srq }
    ensures gives { ActionGives (Some (request_action lent.old (content_of packet.now))) lent.old result lent.new }
    ensures goes_on { ActionGoesOn lent.old lent.new }
{
    turns_go_on();
    lent_regions_go_on();
    match frame_room(alloc) {
        Err(AllocError) => Did::NoMemory,
        Ok(room) => take_request_into(alloc, room, packet, lent),
    }
}

/// Takes a packet that the queue pair lets in.
fn take_packet(alloc: Global, packet: &Packet, lent: &mut Lent) -> Did
    requires value { IsPacketValue (content_of packet.now) }
    requires let_in { lets_in lent.old.qp (content_of packet.now) ≡ true }
    requires shared { lent.old.qp.srq ≡ is_some lent.old.srq }
    ensures gives { ActionGives (Some (taking_action lent.old (content_of packet.now))) lent.old result lent.new }
    ensures goes_on { ActionGoesOn lent.old lent.new }
{
    if responds(packet) {
        take_response(alloc, packet, lent)
    } else {
        take_request(alloc, packet, lent)
    }
}

/// Takes a packet that came to the device of the queue pair, or drops it.
fn take_or_drop(alloc: Global, from: u32, packet: &Packet, lent: &mut Lent) -> Did
    requires value { IsPacketValue (content_of packet.now) }
    requires shared { lent.old.qp.srq ≡ is_some lent.old.srq }
    ensures gives { ActionGives (Some (arrival_action lent.old from (content_of packet.now))) lent.old result lent.new }
    ensures goes_on { ActionGoesOn lent.old lent.new }
{
    turns_go_on();
    lent_regions_go_on();
    if is_admitted(&lent.qp, from, packet) {
        take_packet(alloc, packet, lent)
    } else {
        told(alloc, TurnWord::Dropped)
    }
}

/// Delivers a packet that was read from a frame (`rxe_rcv`, `rxe_recv.c`). To another device than that of the queue pair it is dead;
/// it is dropped where the queue pair doesn't let it in, or where it comes to a connection from another device than the peer's. Else
/// it is a response or a request. It is never idle.
pub fn deliver(alloc: Global, from: u32, to: u32, packet: &Packet, lent: &mut Lent) -> Did
    requires value { IsPacketValue (content_of packet.now) }
    requires shared { lent.old.qp.srq ≡ is_some lent.old.srq }
    ensures gives { ActionGives (Some (delivery_action lent.old from to (content_of packet.now))) lent.old result lent.new }
    ensures goes_on { ActionGoesOn lent.old lent.new }
{
    turns_go_on();
    lent_regions_go_on();
    if is_here(&lent.qp, to) {
        take_or_drop(alloc, from, packet, lent)
    } else {
        told(alloc, TurnWord::Dead)
    }
}

/// Reads a frame and delivers its packet.
fn deliver_frame(alloc: Global, frame: &Frame, lent: &mut Lent) -> Did
    requires shared { lent.old.qp.srq ≡ is_some lent.old.srq }
    ensures gives { FrameGives frame.now lent.old result lent.new }
    ensures goes_on { ActionGoesOn lent.old lent.new }
{
    turns_go_on();
    lent_regions_go_on();
    match decode(alloc, frame.bytes.as_slice()) {
        Ok(packet) => deliver(alloc, frame.from, frame.to, &packet, lent),
        Err(_) => Did::NoMemory,
    }
}

/// Makes an action: a delivered frame is read first. A site that has read it calls `deliver`. The frame's bytes are those of a packet
/// to the queue pair that is lent. Out of memory nothing that counts has changed.
pub fn turn(alloc: Global, work: &Work, lent: &mut Lent) -> Did
    requires shared { lent.old.qp.srq ≡ is_some lent.old.srq }
    requires reads { DeliversPacket work.now }
    ensures gives { WorkGives work.now lent.old result lent.new }
    ensures goes_on { ActionGoesOn lent.old lent.new }
{
    match work {
        Work::Send(_) => send(alloc, lent),
        Work::Tick(_) => tick(alloc, lent),
        Work::Deliver(frame) => deliver_frame(alloc, frame, lent),
    }
}
