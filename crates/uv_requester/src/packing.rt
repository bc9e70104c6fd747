//! The packing of a work: its packet at a place, with the bytes that its parts hold.

ghost use Rattle.std.specs.Prelude.{◌≡◌, ◌≤◌, ◌<◌, ◌∷◌, [], map, IfOk};
ghost use Rattle.uv_num.specs.declared.limits.TheConstants.{PSNS};
ghost use Rattle.uv_packet.specs.Packets.{content_of};
ghost use Rattle.uv_requester.specs.Sends.{PackGives};

use crate::ending::{listed, with_places};
use crate::segment::{Course, pieces_at, segment};
use std::alloc::{AllocError, Global};
use uv_num::{List, Stock};
use uv_packet::Packet;
use uv_qp::Names;
use uv_region::{Access, Regions};
use uv_wr::SendWork;

/// What came of the packing of a work.
#[derive(Drop)]
pub(crate) enum Packed {
    /// Its packet.
    One(List<Packet>),
    /// A region of its parts isn't there, or refuses it. Nothing was read.
    Denied,
    /// Out of memory. Nothing that counts has changed.
    Nothing,
}

/// A list of one packet, which takes no memory.
pub(crate) fn one_packet(room: Stock<Packet>, packet: Packet) -> List<Packet>
    requires empty { room.items ≡ [] }
    requires room { 0 < room.room }
    ensures { map content_of result ≡ content_of packet ∷ [] }
{
    let mut packets = room;
    packets.put(packet);
    listed(packets)
}

/// Packs the packet of a work at a place.
pub(crate) fn pack(
    alloc: Global,
    regions: &mut Regions,
    names: Names,
    course: Course,
    work: &SendWork,
    at: u32,
) -> Packed
    requires least { 256 ≤ course.mtu }
    requires most { course.mtu ≤ 4096 }
    requires psn { course.psn < PSNS }
    requires near { at < 64 }
    ensures { PackGives regions.old names course work.now at result regions.new }
{
    let found = pieces_at(course.mtu, work, at);
    if !regions.allows_all(Access::LocalRead, found.as_slice(), names.domain) {
        return Packed::Denied;
    }
    match with_places(alloc, 1) {
        Err(AllocError) => Packed::Nothing,
        Ok(room) => match regions.gather(
            alloc,
            Access::LocalRead,
            found.as_slice(),
            names.object,
            names.domain,
        ) {
            Err(AllocError) => Packed::Nothing,
            Ok(bytes) => Packed::One(one_packet(room, segment(work, course, at, bytes))),
        },
    }
}
