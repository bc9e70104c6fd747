//! What a response comes to. Nothing is changed here.

ghost use Rattle.std.specs.Prelude.{◌≡◌, ◌≤◌, ◌<◌, ◌+◌, ℕ, true, length, Some};
ghost use Rattle.uv_num.specs.declared.limits.TheConstants.{MOST_RETRIES, PACKET_PAYLOAD, PSNS};
ghost use Rattle.uv_packet.specs.Packets.{content_of};
ghost use Rattle.uv_qp.specs.declared.counting.TheConstants.{WORK_PACKETS};
ghost use Rattle.uv_qp.specs.Pairs.{mtu_of, packets_waiting, IsRequesting};
ghost use Rattle.uv_wr.specs.Statuses.{is_failure};
ghost use Rattle.uv_completer.specs.Replies.{MayCarryOut};
ghost use Rattle.uv_completer.specs.Upshots.{acked, acked_to, agrees, ended_before, filled_from, is_due, is_in_class, is_whole_response, may_wait, out_of_sequence_at, paused_by, refused_at, returned, returned_to, sent_again, una_at, unready_at, upshot_at, upshot_of, upshot_told};

use crate::meaning::{Meaning, meaning_of};
use crate::reaches::{WaitingRead, is_unanswered, oldest_read, place_of, stopped_by, works_before};
use uv_num::MOST_RETRIES;
use uv_packet::{Packet, Syndrome};
use uv_qp::{Qp, Requester, TurnWord};
use uv_wr::Status;

/// What a response comes to.
#[derive(Clone, Copy, Debug, PartialEq, Eq)]
pub enum Upshot {
    /// It means nothing here.
    Ignored,
    /// Works succeed, and the requester goes on from elsewhere.
    Moves {
        /// What is told of the turn.
        word: TurnWord,
        /// How many of the oldest works succeed.
        works: u32,
        /// Where the requester stands, before they end.
        requester: Requester,
    },
    /// Works succeed, and then one fails, which breaks the queue pair.
    Breaks {
        /// What is told of the turn.
        word: TurnWord,
        /// How many of the oldest works succeed.
        works: u32,
        /// Where the requester stands, before they end.
        requester: Requester,
        /// How the next work ends.
        status: Status,
    },
    /// Bytes for the oldest read.
    Fills {
        /// The place of the response.
        at: u32,
        /// How many works are older than the read.
        older: u32,
        /// The place of the first byte in the read.
        from: u32,
        /// Whether the read ends with them.
        last: bool,
    },
}

/// The requester whose oldest packet without an answer is that at a place.
pub(crate) fn una_at(requester: Requester, at: u32) -> Requester
    requires { at ≤ requester.high }
    ensures una { result ≡ una_at requester at }
    ensures stays { (packets : ℕ) → IsRequesting requester packets → IsRequesting result packets }
{
    if at == requester.una {
        return requester;
    }
    Requester {
        una: at,
        next: requester.next.max(at),
        retried: 0,
        unready: 0,
        ..requester
    }
}

/// How many works end before a place.
fn ended_before(qp: &Qp, at: u32) -> u32
    ensures count { result ≡ ended_before qp.now at }
    ensures within { result ≤ length qp.now.sends.works }
    ensures there { at < packets_waiting qp.now → result < length qp.now.sends.works }
{
    works_before(qp.mtu(), qp.sends().as_slice(), at)
}

/// An acknowledge of all packets before a place (`check_psn`, `complete_ack`, `rxe_comp.c`). In Linux it ends a read too.
fn acked(qp: &Qp, to: u32) -> Upshot
    requires { to ≤ qp.now.requester.high }
    ensures upshot { result ≡ acked qp.now to }
    ensures may { (size : ℕ) → MayCarryOut qp.now size result }
{
    let read = oldest_read(qp.mtu(), qp.sends().as_slice());
    acked_to(qp, stopped_by(read, to))
}

fn acked_to(qp: &Qp, stop: u32) -> Upshot
    requires { stop ≤ qp.now.requester.high }
    ensures upshot { result ≡ acked_to qp.now stop }
    ensures may { (size : ℕ) → MayCarryOut qp.now size result }
{
    let requester = qp.requester();
    Upshot::Moves {
        word: TurnWord::Acked,
        works: ended_before(qp, stop),
        requester: una_at(requester, requester.una.max(stop)),
    }
}

fn may_wait(qp: &Qp, requester: Requester) -> bool
    ensures { result ≡ may_wait qp.now requester }
{
    u64::from(qp.rnr_retries()) == MOST_RETRIES || requester.unready < qp.rnr_retries()
}

fn paused_by(qp: &Qp, requester: Requester) -> Requester
    requires { may_wait qp.now requester ≡ true }
    ensures paused { result ≡ paused_by qp.now requester }
    ensures stays { (packets : ℕ) → IsRequesting requester packets → IsRequesting result packets }
{
    Requester {
        paused: true,
        unready: if u64::from(qp.rnr_retries()) == MOST_RETRIES {
            requester.unready
        } else {
            requester.unready + 1
        },
        ..requester
    }
}

/// No receive was there for the packet at a place (`COMPST_RNR_RETRY`, `rxe_comp.c`).
fn unready_at(qp: &Qp, at: u32) -> Upshot
    requires { at < qp.now.requester.high }
    ensures upshot { result ≡ unready_at qp.now at }
    ensures may { (size : ℕ) → MayCarryOut qp.now size result }
{
    let requester = una_at(qp.requester(), at);
    if may_wait(qp, requester) {
        return Upshot::Moves {
            word: TurnWord::Nak,
            works: ended_before(qp, at),
            requester: paused_by(qp, requester),
        };
    }
    Upshot::Breaks {
        word: TurnWord::Nak,
        works: ended_before(qp, at),
        requester,
        status: Status::RnrRetryExcErr,
    }
}

/// A packet before that at a place was lost (`COMPST_ERROR_RETRY`, `rxe_comp.c`). In Linux 7 resends are resends without end.
fn out_of_sequence_at(qp: &Qp, at: u32) -> Upshot
    requires { at < qp.now.requester.high }
    ensures upshot { result ≡ out_of_sequence_at qp.now at }
    ensures may { (size : ℕ) → MayCarryOut qp.now size result }
{
    let requester = una_at(qp.requester(), at);
    if requester.retried < qp.retries() {
        return Upshot::Moves {
            word: TurnWord::Nak,
            works: ended_before(qp, at),
            requester: Requester {
                next: requester.una,
                retried: requester.retried + 1,
                ..requester
            },
        };
    }
    Upshot::Breaks {
        word: TurnWord::Nak,
        works: ended_before(qp, at),
        requester,
        status: Status::RetryExcErr,
    }
}

/// The packet at a place was refused (`COMPST_ERROR`, `rxe_comp.c`).
fn refused_at(qp: &Qp, at: u32, status: Status) -> Upshot
    requires at { at < qp.now.requester.high }
    requires failure { is_failure status ≡ true }
    ensures upshot { result ≡ refused_at qp.now at status }
    ensures may { (size : ℕ) → MayCarryOut qp.now size result }
{
    Upshot::Breaks {
        word: TurnWord::Nak,
        works: ended_before(qp, at),
        requester: una_at(qp.requester(), at),
        status,
    }
}

/// Whether a response is the next one of a read.
fn is_due(requester: Requester, at: u32, read: WaitingRead) -> bool
    requires { read.start + read.packets ≤ 8192 }
    ensures due { result ≡ is_due requester at read }
    ensures within { result ≡ true → at < read.start + read.packets }
{
    at == requester.una.max(read.start) && at < read.start + read.packets
}

fn agrees(told: bool, is: bool) -> bool
    ensures { result ≡ agrees told is }
{
    if told { is } else { !is }
}

/// Whether the opcode of a response is that of its place.
fn is_in_class(requester: Requester, at: u32, first: bool, last: bool, read: WaitingRead) -> bool
    requires near { read.start + read.packets ≤ 8192 }
    requires within { at < read.start + read.packets }
    ensures { result ≡ is_in_class requester at first last read }
{
    agrees(first, at == requester.asked) && agrees(last, at + 1 == read.start + read.packets)
}

fn filled_from(mtu: u64, at: u32, read: WaitingRead) -> u32
    requires most { mtu ≤ 4096 }
    requires within { at < read.start + read.packets }
    requires few { read.packets ≤ WORK_PACKETS }
    ensures { result ≡ filled_from mtu at read }
{
    at.saturating_sub(read.start) * mtu as u32
}

fn is_whole_response(mtu: u64, size: usize, whole: u32, from: u32) -> bool
    requires { mtu ≤ 4096 }
    ensures whole { result ≡ is_whole_response mtu size whole from }
    ensures short { result ≡ true → size ≤ PACKET_PAYLOAD }
{
    size as u64 == mtu.min(u64::from(whole.saturating_sub(from)))
}

/// Bytes of a read came as the response to the packet at a place (`COMPST_READ`, `do_read`, `rxe_comp.c`). Linux takes another
/// length, and an only in the place of a first.
fn returned(qp: &Qp, at: u32, first: bool, last: bool, size: usize) -> Upshot
    requires { at < qp.now.requester.high }
    ensures upshot { result ≡ returned qp.now at first last size }
    ensures may { MayCarryOut qp.now size result }
{
    match oldest_read(qp.mtu(), qp.sends().as_slice()) {
        None => Upshot::Ignored,
        Some(read) => returned_to(qp, at, first, last, size, read),
    }
}

fn returned_to(qp: &Qp, at: u32, first: bool, last: bool, size: usize, read: WaitingRead) -> Upshot
    requires near { read.start + read.packets ≤ 8192 }
    requires few { read.packets ≤ WORK_PACKETS }
    requires at { at < qp.now.requester.high }
    requires there { read.older < length qp.now.sends.works }
    ensures upshot { result ≡ returned_to qp.now at first last size (Some read) }
    ensures may { MayCarryOut qp.now size result }
{
    if !is_due(qp.requester(), at, read) {
        return Upshot::Ignored;
    }
    if !is_in_class(qp.requester(), at, first, last, read) {
        return Upshot::Ignored;
    }
    let from = filled_from(qp.mtu(), at, read);
    if !is_whole_response(qp.mtu(), size, read.size, from) {
        return Upshot::Ignored;
    }
    Upshot::Fills {
        at,
        older: read.older,
        from,
        last,
    }
}

/// What an acknowledge tells of the packet at a place.
fn upshot_told(qp: &Qp, at: u32, syndrome: Syndrome) -> Upshot
    requires at { at < qp.now.requester.high }
    requires near { at < PSNS }
    ensures upshot { result ≡ upshot_told qp.now at syndrome }
    ensures may { (size : ℕ) → MayCarryOut qp.now size result }
{
    match syndrome {
        Syndrome::Acknowledged => acked(qp, at + 1),
        Syndrome::NotReady => unready_at(qp, at),
        Syndrome::Sequence => out_of_sequence_at(qp, at),
        Syndrome::Invalid => refused_at(qp, at, Status::RemInvReqErr),
        Syndrome::Access => refused_at(qp, at, Status::RemAccessErr),
        Syndrome::Operation => refused_at(qp, at, Status::RemOpErr),
        Syndrome::Unknown => Upshot::Ignored,
    }
}

/// What a packet that responds to the one at a place comes to.
fn upshot_at(qp: &Qp, at: u32, size: usize, meaning: Meaning) -> Upshot
    requires at { at < qp.now.requester.high }
    requires near { at < PSNS }
    ensures upshot { result ≡ upshot_at qp.now at size meaning }
    ensures may { MayCarryOut qp.now size result }
{
    match meaning {
        Meaning::Nothing => Upshot::Ignored,
        Meaning::Tells(syndrome) => upshot_told(qp, at, syndrome),
        Meaning::Returned { first, last } => returned(qp, at, first, last, size),
    }
}

/// What a packet comes to (`rxe_completer`, `rxe_comp.c`). One that responds to no packet that waits for an answer means
/// nothing. Linux takes one beyond the last that was sent.
pub(crate) fn judge(packet: &Packet, qp: &Qp) -> Upshot
    ensures upshot { result ≡ upshot_of (content_of packet.now) qp.now }
    ensures may { MayCarryOut qp.now (length packet.now.payload.bytes) result }
{
    let requester = qp.requester();
    let at = place_of(requester, packet.psn);
    if !is_unanswered(requester, at) {
        return Upshot::Ignored;
    }
    upshot_at(qp, at, packet.payload.len(), meaning_of(packet))
}
