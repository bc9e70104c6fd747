//! Which regions a request may touch. Nothing is changed here, and no memory is taken.

ghost use Rattle.std.specs.Prelude.{◌≡◌, ◌≤◌, length};
ghost use Rattle.std.specs.Option.{option_copied};
ghost use Rattle.uv_packet.specs.Packets.{content_of};
ghost use Rattle.uv_responder.specs.Judging.{received_at};
ghost use Rattle.uv_responder.specs.Turns.{receive_for};
ghost use Rattle.uv_responder.specs.Touching.{asked_range, filled_by, range_touched, receive_touched, some_with_bytes};

use crate::judging::{bytes_got, tested_range};
use crate::part::{Asks, Part};
use crate::turning::{part_in, shared_receive};
use uv_packet::Packet;
use uv_qp::{PieceList, Qp, pieces};
use uv_queue::WorkQueue;
use uv_region::Piece;
use uv_wr::RecvWork;

fn some_with_bytes(piece: Piece) -> Option<Piece>
    ensures { result ≡ some_with_bytes piece }
{
    if piece.length == 0 { None } else { Some(piece) }
}

fn asked_range(part: Part, packet: &Packet, qp: &Qp) -> Option<Piece>
    requires { length packet.now.payload.bytes ≤ 4096 }
    ensures { result ≡ asked_range part part.asks (content_of packet.now) qp.now }
{
    match part.asks {
        Asks::Writes | Asks::Reads => some_with_bytes(tested_range(part, packet, qp.responder())),
        Asks::Sends | Asks::Invalidates => None,
    }
}

/// The range of a remote key that a write or a read is tested on, if it has bytes: where the packet begins its message, the whole
/// range that it names.
pub fn range_touched(packet: &Packet, qp: &Qp) -> Option<Piece>
    requires { length packet.now.payload.bytes ≤ 4096 }
    ensures { result ≡ range_touched (content_of packet.now) qp.now }
{
    match part_in(packet.opcode) {
        None => None,
        Some(part) => asked_range(part, packet, qp),
    }
}

/// Where so many bytes from a place on lie in a receive, if there is one.
fn received_at(next: Option<&RecvWork>, got: u32, size: u32) -> PieceList
    ensures { result ≡ received_at (option_copied next.entry) got size }
{
    match next {
        None => pieces(&[], 0, 0),
        Some(work) => pieces(work.parts(), got, size),
    }
}

fn filled_by(part: Part, packet: &Packet, qp: &Qp, next: Option<&RecvWork>) -> PieceList
    requires { length packet.now.payload.bytes ≤ 4096 }
    ensures { result ≡ filled_by part part.asks (content_of packet.now) qp.now (option_copied next.entry) }
{
    match part.asks {
        Asks::Sends => received_at(
            next,
            bytes_got(qp.responder().message),
            packet.payload.len() as u32,
        ),
        Asks::Writes | Asks::Reads | Asks::Invalidates => pieces(&[], 0, 0),
    }
}

/// Where the bytes of a send or a datagram lie in the parts of its receive, `next` being the one which the message has or would
/// take.
pub fn receive_touched(packet: &Packet, qp: &Qp, next: Option<&RecvWork>) -> PieceList
    requires { length packet.now.payload.bytes ≤ 4096 }
    ensures { result ≡ receive_touched (content_of packet.now) qp.now (option_copied next.entry) }
{
    match part_in(packet.opcode) {
        None => received_at(next, 0, packet.payload.len() as u32),
        Some(part) => filled_by(part, packet, qp, next),
    }
}

/// The receive that a message has or would take: of the shared queue where one is lent, else of the queue pair's own.
pub fn receive_for<'a>(qp: &'a Qp, srq: Option<&'a WorkQueue<RecvWork>>) -> Option<&'a RecvWork>
    ensures { option_copied result ≡ receive_for qp.now (option_copied srq.entry) }
{
    match srq {
        None => qp.next_receive(),
        Some(queue) => shared_receive(qp, queue),
    }
}
