//! The turn of a response.

ghost use Rattle.std.specs.Prelude.{◌≡◌, true, false, length};
ghost use Rattle.uv_packet.specs.Packets.{content_of};
ghost use Rattle.uv_qp.specs.Gate.{lets_in};
ghost use Rattle.uv_qp.specs.Pairs.{is_broken};
ghost use Rattle.uv_completer.specs.Replies.{lent_by_reply, lent_by_upshot, reply_made, reply_made_by, FillGives, MayCarryOut, ReplyGives};

use crate::completing::{break_at, go_on, ignore};
use crate::filling::fill;
use crate::judging::{Upshot, judge};
use std::alloc::Global;
use uv_num::Bytes;
use uv_packet::Packet;
use uv_qp::{Qp, TurnDone};
use uv_region::Regions;

/// Takes a response to a request of a queue pair (`rxe_completer`, `rxe_comp.c`), by the table of responses. Works that the peer
/// acknowledged end with success, in order; a work that it refused, or that used its last resend, ends with its status, and
/// breaks the queue pair; the bytes of a read are written to its parts. What means nothing is ignored, a request too. No packet
/// goes out. Out of memory nothing that counts has changed.
#[tactic(auto, using(crate::proofs::Letting::unbroken))]
pub fn turn(alloc: Global, qp: &mut Qp, regions: &mut Regions, packet: &Packet) -> TurnDone
    requires { lets_in qp.old (content_of packet.now) ≡ true }
    ensures pair { ReplyGives qp.old (reply_made (content_of packet.now) qp.old regions.old) result qp.new }
    ensures regions { FillGives regions.old (lent_by_reply (content_of packet.now) qp.old regions.old) result regions.new }
{
    let upshot = judge(packet, qp);
    carry_out(alloc, qp, regions, &packet.payload, upshot)
}

/// Carries out what a response came to.
#[tactic(auto, using(crate::proofs::Staying::stays_so))]
fn carry_out(
    alloc: Global,
    qp: &mut Qp,
    regions: &mut Regions,
    bytes: &Bytes,
    upshot: Upshot,
) -> TurnDone
    requires unbroken { is_broken qp.old.state ≡ false }
    requires may { MayCarryOut qp.old (length bytes.now.bytes) upshot }
    ensures pair { ReplyGives qp.old (reply_made_by upshot bytes.now.bytes qp.old regions.old) result qp.new }
    ensures regions { FillGives regions.old (lent_by_upshot upshot bytes.now.bytes qp.old regions.old) result regions.new }
{
    let _ = &regions;
    match upshot {
        Upshot::Ignored => ignore(alloc, qp),
        Upshot::Moves {
            word,
            works,
            requester,
        } => go_on(alloc, qp, word, works, requester),
        Upshot::Breaks {
            word,
            works,
            requester,
            status,
        } => break_at(alloc, qp, word, works, requester, status),
        Upshot::Fills {
            at,
            older,
            from,
            last,
        } => fill(alloc, qp, regions, bytes, at, older, from, last),
    }
}
