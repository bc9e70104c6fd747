//! What a queue pair sends of the works that wait.

ghost use Rattle.std.specs.Prelude.{◌≡◌, ◌≤◌, ◌<◌, ◌+◌, Some, true, is_some, slice_get, map};
ghost use Rattle.uv_num.specs.declared.limits.TheConstants.{PSNS};
ghost use Rattle.uv_num.specs.declared.qp.QpState.TheVariants as QpState;
ghost use Rattle.uv_packet.specs.Packets.{content_of};
ghost use Rattle.uv_qp.specs.declared.turns.TurnDone.TheVariants as TurnDone;
ghost use Rattle.uv_qp.specs.declared.turns.TurnWord.TheVariants as TurnWord;
ghost use Rattle.uv_wr.specs.declared.completion.Status.TheVariants as Status;
ghost use Rattle.uv_qp.specs.Pairs.{is_broken, mtu_of, next_send};
ghost use Rattle.uv_requester.specs.Ends.{failed_at, LentGives, MadeGives};
ghost use Rattle.uv_requester.specs.Sends.{course_of, datagram_made, datagram_packed, device_at, is_too_long, is_waiting, lent_by_datagram, lent_by_packing, lent_by_request, lent_by_send, lent_request_at, next_request, request_at, request_made, send_made, sent_on};
ghost use Rattle.uv_requester.specs.SendPlaces.{is_read_op, located, work_places};

use crate::ending::{fail_at, listed, with_places};
use crate::packing::{Packed, pack};
use crate::segment::Course;
use crate::send_places::{has_read_before, is_read_op, locate, work_places};
use std::alloc::{AllocError, Global};
use uv_num::{List, PSNS, Service, Stock};
use uv_packet::Packet;
use uv_qp::{Qp, Requester, TurnDone, TurnWord};
use uv_region::Regions;
use uv_wr::{Completion, Op, SendWork, Status};

/// The most bytes of a datagram: this project's own, as large as the packet of a path MTU of 1,024 bytes. Linux has the
/// path MTU of the port there (`rxe_requester`, `rxe_req.c`, which drops a longer one).
pub const DATAGRAM_BYTES: u32 = 1_024;

const _: () = prove!(DATAGRAM_BYTES == 1_024);

/// Who sends to whom: the packets of a work are numbered from so many later than the oldest work is.
fn course_of(qp: &Qp, ahead: u32) -> Course
    ensures course { result ≡ course_of qp.now ahead }
    ensures psn { result.psn < PSNS }
    ensures least { 256 ≤ result.mtu }
    ensures most { result.mtu ≤ 4096 }
{
    Course {
        mtu: qp.mtu(),
        psn: ((u64::from(qp.requester().base) + u64::from(ahead)) % PSNS) as u32,
        dest: qp.peer(),
        source: qp.number(),
    }
}

/// What is told of a packet that was sent.
fn sent(to: u32, packets: List<Packet>, told: Stock<Completion>) -> TurnDone
    ensures { result ≡ TurnDone.Turned TurnWord.Sent to packets told.items }
{
    TurnDone::Turned {
        word: TurnWord::Sent,
        to,
        packets,
        completions: listed(told),
    }
}

/// The requester after the request packet of a work at a place.
fn sent_on(requester: Requester, mtu: u64, work: &SendWork, at: u32) -> Requester
    requires least { 256 ≤ mtu }
    requires most { mtu ≤ 4096 }
    requires near { requester.next < 8192 }
    ensures { result ≡ sent_on requester (work_places mtu work.now at) (is_read_op work.now.op) }
{
    let next = requester.next + work_places(mtu, work, at);
    Requester {
        next,
        high: requester.high.max(next),
        asked: if is_read_op(work.op()) {
            requester.next
        } else {
            requester.asked
        },
        ..requester
    }
}

pub(crate) fn is_waiting(qp: &Qp) -> bool
    ensures { result ≡ is_waiting qp.now }
{
    qp.requester().paused || has_read_before(qp.mtu(), qp.sends().as_slice(), qp.requester().next)
}

/// Sends the next packet of a queue pair in RTS, if there is one to be sent.
pub(crate) fn send(alloc: Global, qp: &mut Qp, regions: &mut Regions) -> TurnDone
    requires state { qp.old.state ≡ QpState.Rts }
    ensures pair { MadeGives qp.old (send_made qp.old regions.old qp.old.service) result qp.new }
    ensures lent { LentGives regions.old (lent_by_send qp.old regions.old qp.old.service) result regions.new }
{
    match qp.service() {
        Service::Rc => send_request(alloc, qp, regions),
        Service::Ud => send_datagram(alloc, qp, regions),
    }
}

fn send_request(alloc: Global, qp: &mut Qp, regions: &mut Regions) -> TurnDone
    ensures pair { MadeGives qp.old (request_at qp.old regions.old (next_request qp.old)) result qp.new }
    ensures lent { LentGives regions.old (lent_request_at qp.old regions.old (next_request qp.old)) result regions.new }
{
    if is_waiting(qp) {
        return TurnDone::Idle;
    }
    match locate(qp.mtu(), qp.sends().as_slice(), qp.requester().next) {
        None => TurnDone::Idle,
        Some((place, at)) => send_request_at(alloc, qp, regions, place, at),
    }
}

/// Sends the packet that stands at the requester's next place, or ends its work.
#[tactic(auto, using(crate::proofs::Fitting::goes_on_requesting, crate::proofs::Fitting::stays_so))]
fn send_request_at(
    alloc: Global,
    qp: &mut Qp,
    regions: &mut Regions,
    place: u32,
    at: u32,
) -> TurnDone
    requires near { qp.old.requester.next < 8192 }
    requires packet { at < 64 }
    requires located { located 0 (mtu_of qp.old) qp.old.sends.works qp.old.requester.next ≡ Some (place, at) }
    ensures pair { MadeGives qp.old (request_made qp.old regions.old place at (slice_get qp.old.sends.works place)) result qp.new }
    ensures lent { LentGives regions.old (lent_by_request qp.old regions.old at (slice_get qp.old.sends.works place)) result regions.new }
{
    let requester = qp.requester();
    let course = course_of(qp, requester.next.saturating_sub(at));
    let (packed, requester) = match qp.sends().at(place) {
        None => return TurnDone::Idle,
        Some(work) => (
            pack(alloc, regions, qp.names(), course, work, at),
            sent_on(requester, course.mtu, work, at),
        ),
    };
    match packed {
        Packed::One(packets) => {
            qp.set_requester(requester);
            sent(qp.peer_device(), packets, Stock::new(alloc))
        }
        Packed::Denied => fail_at(alloc, qp, place, Status::LocProtErr),
        Packed::Nothing => TurnDone::NoMemory,
    }
}

fn device_at(op: Op, peer: u32) -> u32
    ensures { result ≡ device_at op peer }
{
    match op {
        Op::Ud(device, _, _) | Op::UdImm(device, _, _, _) => device,
        Op::Send | Op::SendImm(_) | Op::Write(..) | Op::WriteImm(..) | Op::Read(..) => peer,
    }
}

pub(crate) fn is_too_long(work: &SendWork) -> bool
    ensures { result ≡ is_too_long work.now }
{
    work.length() > DATAGRAM_BYTES
}

/// Sends the oldest datagram, if one waits, and ends it. Its length is looked at before its parts.
fn send_datagram(alloc: Global, qp: &mut Qp, regions: &mut Regions) -> TurnDone
    requires state { qp.old.state ≡ QpState.Rts }
    ensures pair { MadeGives qp.old (datagram_made qp.old regions.old (next_send qp.old)) result qp.new }
    ensures lent { LentGives regions.old (lent_by_datagram qp.old regions.old (next_send qp.old)) result regions.new }
{
    let long = match qp.next_send() {
        None => return TurnDone::Idle,
        Some(work) => is_too_long(work),
    };
    if long {
        return refuse_long(alloc, qp, regions);
    }
    send_oldest(alloc, qp, regions)
}

/// Ends the oldest datagram, which is too long.
#[tactic(auto, using(crate::proofs::Fitting::stays_so))]
fn refuse_long(alloc: Global, qp: &mut Qp, regions: &mut Regions) -> TurnDone
    requires next { is_some (next_send qp.old) ≡ true }
    ensures pair { MadeGives qp.old (Some (failed_at qp.old 0 Status.LocLenErr)) result qp.new }
    ensures lent { LentGives regions.old regions.old result regions.new }
{
    let _ = &regions;
    fail_at(alloc, qp, 0, Status::LocLenErr)
}

#[tactic(auto, using(crate::proofs::Fitting::stays_so))]
fn send_oldest(alloc: Global, qp: &mut Qp, regions: &mut Regions) -> TurnDone
    requires state { qp.old.state ≡ QpState.Rts }
    ensures pair { MadeGives qp.old (datagram_packed qp.old regions.old (next_send qp.old)) result qp.new }
    ensures lent { LentGives regions.old (lent_by_packing qp.old regions.old (next_send qp.old)) result regions.new }
{
    let course = course_of(qp, 0);
    let (packed, to, room) = match qp.next_send() {
        None => return TurnDone::Idle,
        Some(work) => match with_places(alloc, 1) {
            Err(AllocError) => return TurnDone::NoMemory,
            Ok(room) => (
                pack(alloc, regions, qp.names(), course, work, 0),
                device_at(work.op(), qp.peer_device()),
                room,
            ),
        },
    };
    match packed {
        Packed::One(packets) => {
            let mut told = room;
            told.put(qp.complete_send(Status::Success));
            sent(to, packets, told)
        }
        Packed::Denied => fail_at(alloc, qp, 0, Status::LocProtErr),
        Packed::Nothing => TurnDone::NoMemory,
    }
}
