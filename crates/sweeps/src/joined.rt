//! Two connected queue pairs, and the frames between them.

ghost use Rattle.std.specs.Prelude.{◌≡◌};
ghost use Rattle.uv_packet.specs.Packets.{content_of, IsPacketValue};

use crate::making::{Terms, Which, side};
use crate::pair::{Side, Told, deliver, send};
use std::alloc::{AllocError, Global};
use uv_link::{Frame, Link};
use uv_num::LINK_FRAMES;
use uv_packet::{Packet, PacketFault, decode};
use uv_qp::TurnWord;

/// Side a, which sends, side b, which receives, and the frames of both.
#[derive(Drop)]
pub struct Joined {
    pub a: Side,
    pub b: Side,
    pub link: Link,
}

/// Two sides in RTS, whose regions begin with so many bytes of the pattern. None where what they are told is out of range.
pub fn join(alloc: Global, terms: Terms, filled: u32) -> Result<Option<Joined>, AllocError> {
    let Some(a) = side(alloc, terms, Which::A, filled)? else {
        return Ok(None);
    };
    let Some(b) = side(alloc, terms, Which::B, filled)? else {
        return Ok(None);
    };
    Ok(Some(Joined {
        a,
        b,
        link: Link::new(alloc)?,
    }))
}

/// Makes send turns of a side until it is idle. Whether it came to be so.
pub fn drain(alloc: Global, side: &mut Side, link: &mut Link) -> Result<bool, AllocError> {
    for _ in 0..LINK_FRAMES {
        match send(alloc, side, link) {
            Told::Idle => return Ok(true),
            Told::NoMemory => return Err(AllocError),
            Told::Lost | Told::Bad(_) => return Ok(false),
            Told::Word(_) => {}
        }
    }
    Ok(false)
}

/// Gives a packet to the queue pair of its number.
fn route(alloc: Global, joined: &mut Joined, from: u32, to: u32, packet: &Packet) -> Told
    requires { IsPacketValue (content_of packet.now) }
{
    if packet.dest == joined.a.qp.number() {
        deliver(alloc, &mut joined.a, from, to, packet, &mut joined.link)
    } else if packet.dest == joined.b.qp.number() {
        deliver(alloc, &mut joined.b, from, to, packet, &mut joined.link)
    } else {
        Told::Word(TurnWord::Dead)
    }
}

/// Takes a frame off the network.
pub fn arrive(alloc: Global, joined: &mut Joined, frame: &Frame) -> Told {
    match decode(alloc, frame.bytes.as_slice()) {
        Ok(packet) => route(alloc, joined, frame.from, frame.to, &packet),
        Err(PacketFault::NoMemory) => Told::NoMemory,
        Err(fault) => Told::Bad(fault),
    }
}
