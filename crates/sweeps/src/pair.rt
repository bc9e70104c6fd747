//! A queue pair with what it acts on, and its actions: a send turn, a tick, and the delivery of a packet.
//!
//! An action takes the room of its frame first, then makes its turn, and then puts the packet into the frame and the completions
//! into the ring, which take no memory. So where memory runs out nothing that counts has changed.

ghost use Rattle.std.specs.Prelude.{◌≡◌, ◌≤◌, ◌<◌, ◌^◌, [], IfOk, IfSome, true};
ghost use Rattle.uv_num.specs.declared.limits.TheConstants.{PACKET_BYTES};
ghost use Rattle.uv_packet.specs.Packets.{content_of, HasHeaders, IsPacketValue};

use std::alloc::{AllocError, Global};
use uv_cq::Ring;
use uv_link::{Frame, Link};
use uv_num::{Bytes, List, PACKET_BYTES, PACKET_PAYLOAD, PSNS, QP_NUMBERS, Service};
use uv_packet::{Aeth, Deth, Headers, Opcode, Packet, PacketFault};
use uv_qp::{Qp, TurnDone, TurnWord, is_response};
use uv_region::Regions;
use uv_wr::Completion;

/// A queue pair, the regions of its side, and the ring of all its completions.
#[derive(Drop)]
pub struct Side {
    pub qp: Qp,
    pub regions: Regions,
    pub ring: Ring,
}

/// What came of an action.
#[derive(Clone, Copy, Debug, PartialEq)]
pub enum Told {
    /// It was made.
    Word(TurnWord),
    /// The frame's bytes are no packet.
    Bad(PacketFault),
    /// There was nothing to do.
    Idle,
    /// Out of memory. Nothing that counts has changed.
    NoMemory,
    /// A packet went out that can't be written, or to a full link. Neither may come.
    Lost,
}

impl Told {
    /// Its word, as reports print it; that of a fault is put after `bad`.
    pub fn name(self) -> &'static str {
        match self {
            Told::Word(word) => word.name(),
            Told::Bad(fault) => fault.name(),
            Told::Idle => "idle",
            Told::NoMemory => "no memory",
            Told::Lost => "lost",
        }
    }
}

fn has_headers(packet: &Packet, headers: Headers) -> bool
    ensures { result ≡ true → HasHeaders headers (content_of packet.now) }
{
    packet.reth.is_some() == headers.reth
        && packet.aeth.is_some() == headers.aeth
        && packet.deth.is_some() == headers.deth
        && packet.imm.is_some() == headers.imm
        && packet.ieth.is_some() == headers.ieth
        && (headers.payload || packet.payload.is_empty())
}

fn msn_fits(aeth: Option<Aeth>) -> bool
    ensures { result ≡ true → IfSome aeth (λ a. a.msn < 2 ^ 24) }
{
    match aeth {
        None => true,
        Some(aeth) => u64::from(aeth.msn) < PSNS,
    }
}

fn source_fits(deth: Option<Deth>) -> bool
    ensures { result ≡ true → IfSome deth (λ d. d.source < 2 ^ 24) }
{
    match deth {
        None => true,
        Some(deth) => u64::from(deth.source) < QP_NUMBERS,
    }
}

/// Whether a packet may be written as bytes.
fn can_be_written(packet: &Packet) -> bool
    ensures { result ≡ true → IsPacketValue (content_of packet.now) }
{
    let Some(opcode) = Opcode::from_number(packet.opcode) else {
        return false;
    };
    has_headers(packet, opcode.headers())
        && u64::from(packet.dest) < QP_NUMBERS
        && u64::from(packet.psn) < PSNS
        && msn_fits(packet.aeth)
        && source_fits(packet.deth)
        && packet.payload.len() <= PACKET_PAYLOAD
}

/// Room for the frame of a packet.
fn frame_room(alloc: Global) -> Result<Bytes, AllocError>
    ensures empty { IfOk result (λ b. b.bytes ≡ []) }
    ensures spare { IfOk result (λ b. PACKET_BYTES ≤ b.spare) }
{
    Bytes::with_room(alloc, PACKET_BYTES)
}

/// Puts the packet of a turn, if it made one, on the link. Whether it is there then.
fn put_frame(packets: &List<Packet>, room: Bytes, from: u32, to: u32, link: &mut Link) -> bool
    requires empty { room.bytes ≡ [] }
    requires spare { PACKET_BYTES ≤ room.spare }
{
    match packets.get(0) {
        None => true,
        Some(packet) => {
            if !can_be_written(packet) {
                return false;
            }
            let mut bytes = room;
            uv_packet::encode_into(packet, &mut bytes);
            link.push(Frame { from, to, bytes }).is_ok()
        }
    }
}

fn ring_all(ring: &mut Ring, completions: &[Completion]) {
    for completion in completions {
        let _ = ring.push(*completion, false);
    }
}

/// Ends a turn: its packet goes out, and its completions go into the ring.
fn finish(done: TurnDone, room: Bytes, from: u32, ring: &mut Ring, link: &mut Link) -> Told
    requires empty { room.bytes ≡ [] }
    requires spare { PACKET_BYTES ≤ room.spare }
{
    match done {
        TurnDone::Idle => Told::Idle,
        TurnDone::NoMemory => Told::NoMemory,
        TurnDone::Turned {
            word,
            to,
            packets,
            completions,
        } => {
            ring_all(ring, completions.as_slice());
            if put_frame(&packets, room, from, to, link) {
                Told::Word(word)
            } else {
                Told::Lost
            }
        }
    }
}

/// Makes the send turn of a queue pair.
pub fn send(alloc: Global, side: &mut Side, link: &mut Link) -> Told {
    match frame_room(alloc) {
        Err(AllocError) => Told::NoMemory,
        Ok(room) => {
            let from = side.qp.names().device;
            let done = uv_requester::turn(alloc, &mut side.qp, &mut side.regions);
            finish(done, room, from, &mut side.ring, link)
        }
    }
}

/// Makes the tick of a queue pair, which sends nothing.
pub fn tick(alloc: Global, side: &mut Side) -> Told {
    match uv_requester::tick(alloc, &mut side.qp) {
        TurnDone::Idle => Told::Idle,
        TurnDone::NoMemory => Told::NoMemory,
        TurnDone::Turned {
            word,
            to: _,
            packets: _,
            completions,
        } => {
            ring_all(&mut side.ring, completions.as_slice());
            Told::Word(word)
        }
    }
}

fn responds(packet: &Packet) -> bool {
    match Opcode::from_number(packet.opcode) {
        None => false,
        Some(opcode) => is_response(opcode),
    }
}

/// Whether a queue pair takes packets from a device: a connection from that of its peer alone.
fn takes_from(qp: &Qp, from: u32) -> bool {
    match qp.service() {
        Service::Rc => from == qp.peer_device(),
        Service::Ud => true,
    }
}

/// Gives a packet that goes to its number to a queue pair that has its own receives.
pub fn deliver(
    alloc: Global,
    side: &mut Side,
    from: u32,
    to: u32,
    packet: &Packet,
    link: &mut Link,
) -> Told
    requires { IsPacketValue (content_of packet.now) }
{
    if to != side.qp.names().device {
        return Told::Word(TurnWord::Dead);
    }
    if !side.qp.lets_in(packet) || !takes_from(&side.qp, from) || side.qp.has_srq() {
        return Told::Word(TurnWord::Dropped);
    }
    match frame_room(alloc) {
        Err(AllocError) => Told::NoMemory,
        Ok(room) => {
            let done = if responds(packet) {
                uv_completer::turn(alloc, &mut side.qp, &mut side.regions, packet)
            } else {
                uv_responder::turn(alloc, &mut side.qp, &mut side.regions, packet, None)
            };
            finish(done, room, to, &mut side.ring, link)
        }
    }
}
