//! Where the bytes of a response are written. Nothing is changed here, and no memory is taken.

ghost use Rattle.std.specs.Prelude.{◌≡◌, ◌≤◌, length};
ghost use Rattle.uv_num.specs.declared.limits.TheConstants.{PACKET_PAYLOAD};
ghost use Rattle.uv_packet.specs.Packets.{content_of};
ghost use Rattle.uv_completer.specs.Touching.{reply_touches};

use crate::filling::pieces_at;
use crate::judging::{Upshot, judge};
use uv_packet::Packet;
use uv_qp::{PieceList, Qp, pieces};

/// Where the bytes of a response are written, in regions of the read's parts. There is no piece where it has none for a read.
pub fn reply_touches(packet: &Packet, qp: &Qp) -> PieceList
    ensures { result ≡ reply_touches (content_of packet.now) qp.now }
{
    match judge(packet, qp) {
        Upshot::Ignored | Upshot::Moves { .. } | Upshot::Breaks { .. } => pieces(&[], 0, 0),
        Upshot::Fills { older, from, .. } => pieces_at(
            qp,
            older,
            from,
            packet.payload.len() as u32,
        ),
    }
}
