//! How the bytes of a read come into its parts.

ghost use Rattle.std.specs.Prelude.{◌≡◌, ◌≤◌, ◌<◌, [], true, false, length, OnErr, OnOk, IfOk};
ghost use Rattle.uv_num.specs.declared.limits.TheConstants.{PACKET_PAYLOAD, WORK_PARTS};
ghost use Rattle.uv_qp.specs.declared.turns.TurnWord.TheVariants as TurnWord;
ghost use Rattle.uv_qp.specs.Pairs.{is_broken, packets_waiting, IsRequesting};
ghost use Rattle.uv_qp.specs.Pieces.{pieces};
ghost use Rattle.uv_region.specs.Lent.{StaysKnown};
ghost use Rattle.uv_region.specs.Several.{all_have_bytes, pieces_length, with_rooms_for, writes_of};
ghost use Rattle.uv_completer.specs.Replies.{ended_by_response, fill_made, lent_by_fill, lent_filled, may_fill, went_on, parts_at, FillGives, ReplyGives};

use crate::completing::{break_at, move_on, room_for};
use crate::judging::una_at;
use std::alloc::{AllocError, Global};
use uv_num::{Bytes, List, Stock};
use uv_qp::{PieceList, Qp, Requester, TurnDone, TurnWord, pieces};
use uv_region::{Access, Piece, PieceWrite, Regions, allowed_may_write_all, piece_writes};
use uv_wr::{Completion, Status};

/// Where bytes of the work at a place of the send queue lie in its parts: so many, from this one on.
pub(crate) fn pieces_at(qp: &Qp, place: u32, from: u32, count: u32) -> PieceList
    ensures pieces { result ≡ pieces (parts_at qp.now place) from count }
    ensures full { all_have_bytes result ≡ true }
    ensures most { pieces_length result ≤ count }
{
    match qp.sends().at(place) {
        None => pieces(&[], from, count),
        Some(work) => pieces(work.parts(), from, count),
    }
}

/// What is wanted of memory to write bytes and to tell of so many works.
#[derive(Drop)]
struct Means {
    writes: List<PieceWrite>,
    room: Stock<Completion>,
}

/// Takes all the memory of a response. Where there is none, nothing that counts has changed.
#[tactic(auto, using(crate::proofs::Staying::stays_so))]
fn means_for(
    alloc: Global,
    regions: &mut Regions,
    found: &[Piece],
    bytes: &[u8],
    works: u32,
) -> Result<Means, AllocError>
    requires few { length found.now ≤ WORK_PARTS }
    requires full { all_have_bytes found.now ≡ true }
    requires enough { pieces_length found.now ≤ length bytes.now }
    ensures writes { IfOk result (λ m. m.writes ≡ writes_of found.now bytes.now) }
    ensures none { IfOk result (λ m. m.room.items ≡ []) }
    ensures room { IfOk result (λ m. m.room.room ≡ works) }
    ensures ok { OnOk result (regions.new ≡ with_rooms_for regions.old found.now) }
    ensures err { OnErr result (StaysKnown regions.old regions.new) }
{
    let room = room_for(alloc, works as usize)?;
    let writes = piece_writes(alloc, found, bytes)?;
    regions.reserve_all(alloc, found, found.len() as u32)?;
    Ok(Means { writes, room })
}

/// Writes bytes to pieces that let them be written, and ends works.
fn write(
    alloc: Global,
    qp: &mut Qp,
    regions: &mut Regions,
    found: &[Piece],
    bytes: &[u8],
    works: u32,
    requester: Requester,
) -> TurnDone
    requires unbroken { is_broken qp.old.state ≡ false }
    requires some { works ≤ length qp.old.sends.works }
    requires requesting { IsRequesting requester (packets_waiting qp.old) }
    requires few { length found.now ≤ WORK_PARTS }
    requires full { all_have_bytes found.now ≡ true }
    requires enough { pieces_length found.now ≤ length bytes.now }
    requires may { may_fill qp.old regions.old found.now ≡ true }
    ensures pair { ReplyGives qp.old (went_on TurnWord.Response works requester qp.old) result qp.new }
    ensures regions { FillGives regions.old (lent_filled qp.old regions.old found.now bytes.now) result regions.new }
{
    allowed_may_write_all();
    match means_for(alloc, regions, found, bytes, works) {
        Err(AllocError) => TurnDone::NoMemory,
        Ok(Means { writes, room }) => {
            regions.write_all(Access::LocalWrite, writes, qp.names().object, qp.domain());
            move_on(alloc, qp, TurnWord::Response, works, requester, room)
        }
    }
}

/// Puts the bytes of a response into the parts of a read, and ends the works that are older, and the read where they are its
/// last (`do_read`, `rxe_comp.c`). Where a region isn't there or refuses them, nothing is written, and the read ends with
/// `LocProtErr`. Out of memory nothing that counts has changed.
#[tactic(auto, using(crate::proofs::Staying::stays_so))]
pub(crate) fn fill(
    alloc: Global,
    qp: &mut Qp,
    regions: &mut Regions,
    bytes: &Bytes,
    at: u32,
    older: u32,
    from: u32,
    last: bool,
) -> TurnDone
    requires unbroken { is_broken qp.old.state ≡ false }
    requires there { older < length qp.old.sends.works }
    requires at { at < qp.old.requester.high }
    requires short { length bytes.now.bytes ≤ PACKET_PAYLOAD }
    ensures pair { ReplyGives qp.old (fill_made qp.old regions.old at older last (pieces (parts_at qp.old older) from (length bytes.now.bytes))) result qp.new }
    ensures regions { FillGives regions.old (lent_by_fill qp.old regions.old (pieces (parts_at qp.old older) from (length bytes.now.bytes)) bytes.now.bytes) result regions.new }
{
    // The queue's length is a `u32`, so one more than a place in it is one too.
    let _most = qp.sends().len();
    let requester = qp.requester();
    let found = pieces_at(qp, older, from, bytes.len() as u32);
    if !regions.allows_all(Access::LocalWrite, found.as_slice(), qp.domain()) {
        return break_at(
            alloc,
            qp,
            TurnWord::Response,
            older,
            una_at(requester, at),
            Status::LocProtErr,
        );
    }
    write(
        alloc,
        qp,
        regions,
        found.as_slice(),
        bytes.as_slice(),
        if last { older + 1 } else { older },
        una_at(requester, at + 1),
    )
}
