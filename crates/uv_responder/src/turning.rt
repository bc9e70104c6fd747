//! The turn of a responder: it judges, takes all memory, and then carries out.

ghost use Rattle.std.specs.Prelude.{◌≡◌, ◌≤◌, ◌<◌, true, false, is_some, length, [], None, Some, IfOk, OnOk, OnErr};
ghost use Rattle.std.specs.Option.{option_copied};
ghost use Rattle.uv_num.specs.declared.limits.TheConstants.{WORK_PARTS};
ghost use Rattle.uv_packet.specs.Packets.{content_of, IsPacketValue};
ghost use Rattle.uv_region.specs.Lent.{StaysKnown};
ghost use Rattle.uv_region.specs.Several.{all_have_bytes, pieces_length, with_rooms_for, MayWriteAll};
ghost use Rattle.uv_responder.specs.Plans.{written_range};
ghost use Rattle.uv_responder.specs.Datagrams.{datagram_pieces};
ghost use Rattle.uv_region.specs.Actions.{is_read};
ghost use Rattle.uv_region.specs.declared.action.Access.TheVariants as Access;
ghost use Rattle.uv_num.specs.declared.limits.TheConstants.{PSNS};
ghost use Rattle.uv_packet.specs.Opcodes.{opcode_of};
ghost use Rattle.uv_qp.specs.Gate.{lets_in};
ghost use Rattle.uv_responder.specs.Judging.{received_at};
ghost use Rattle.uv_responder.specs.Plans.{kind_of_write, piece_with_bytes, pieces_for, pieces_written};
ghost use Rattle.uv_responder.specs.Turns.{AnswersGoOut, datagram_planned, datagram_readied, carried_out, part_in, readied, receive_for, request_planned, request_readied, turn_made, Finishes, IsPrepared, MaySettle, RequestGives, RequestGoesOn, RequestLeaves};
ghost use Rattle.uv_responder.specs.Passing.{IsShort};

use crate::answering::{answer_packets, answers_to};
use crate::datagram::{datagram_plan, receive_datagram};
use crate::judging::{bytes_got, judge, next_range, reth_of};
use crate::part::{Asks, Part, part_of};
use crate::planning::{Plan, row_plan};
use crate::settling::{settle, take_own, take_shared};
use std::alloc::{AllocError, Global};
use uv_num::{List, Stock};
use uv_packet::{Opcode, Packet};
use uv_qp::{Qp, Responder, TurnDone, pieces, turns_go_on, turns_go_on_in_turn};
use uv_queue::WorkQueue;
use uv_region::{
    Access, Piece, PieceWrite, Regions, allowed_may_write_all, lent_regions_go_on, piece_writes,
    room_is_not_known,
};
use uv_wr::{Completion, RecvWork};

/// A plan, with all the memory that it takes but that of a shared receive.
#[derive(Drop)]
pub(crate) struct Prepared {
    /// The plan.
    pub plan: Plan,
    /// How the bytes are written.
    pub kind: Access,
    /// The packets that go out.
    pub packets: List<Packet>,
    /// The writes that are made.
    pub writes: List<PieceWrite>,
    /// Room for a completion.
    pub completions: Stock<Completion>,
}

/// Takes the memory of a plan that writes to these pieces.
fn prepare(
    alloc: Global,
    plan: Plan,
    kind: Access,
    packet: &Packet,
    qp: &Qp,
    regions: &mut Regions,
    found: &[Piece],
) -> Result<Prepared, AllocError>
    requires some { all_have_bytes found.now ≡ true }
    requires enough { pieces_length found.now ≤ length packet.now.payload.bytes }
    requires few { length found.now ≤ WORK_PARTS }
    ensures ok { IfOk result (λ made. IsPrepared (record { plan = plan; kind = kind; found = found.now }) (content_of packet.now) qp.now made) }
    ensures ok_regions { OnOk result (regions.new ≡ with_rooms_for regions.old found.now) }
    ensures err { OnErr result (StaysKnown regions.old regions.new) }
{
    let packets = answer_packets(alloc, qp.peer(), plan.responder.msn, plan.told)?;
    let writes = piece_writes(alloc, found, packet.payload.as_slice())?;
    let mut completions = Stock::new(alloc);
    completions.widen(1)?;
    regions.reserve_all(alloc, found, found.len() as u32)?;
    Ok(Prepared {
        plan,
        kind,
        packets,
        writes,
        completions,
    })
}

/// Takes the memory of a plan that writes to the parts of a receive.
fn prepare_receive(
    alloc: Global,
    plan: Plan,
    packet: &Packet,
    qp: &Qp,
    regions: &mut Regions,
    got: u32,
    next: Option<&RecvWork>,
) -> Result<Prepared, AllocError>
    requires { length packet.now.payload.bytes ≤ 4096 }
    ensures ok { IfOk result (λ made. IsPrepared (record { plan = plan; kind = Access.LocalWrite; found = received_at (option_copied next.entry) got (length packet.now.payload.bytes) }) (content_of packet.now) qp.now made) }
    ensures ok_regions { let found = received_at (option_copied next.entry) got (length packet.now.payload.bytes) in OnOk result (regions.new ≡ with_rooms_for regions.old found) }
    ensures err { OnErr result (StaysKnown regions.old regions.new) }
{
    match next {
        Some(work) => {
            let found = pieces(work.parts(), got, packet.payload.len() as u32);
            prepare(
                alloc,
                plan,
                Access::LocalWrite,
                packet,
                qp,
                regions,
                found.as_slice(),
            )
        }
        None => prepare(alloc, plan, Access::LocalWrite, packet, qp, regions, &[]),
    }
}

/// Where the bytes of an accepted write go.
fn written_range(part: Part, packet: &Packet, responder: Responder) -> Piece
    requires { length packet.now.payload.bytes ≤ 4096 }
    ensures range { result ≡ written_range part (content_of packet.now) responder }
    ensures within { result.length ≤ length packet.now.payload.bytes }
{
    let size = packet.payload.len() as u32;
    if part.first {
        let reth = reth_of(packet);
        Piece {
            key: reth.key,
            offset: u128::from(reth.at),
            length: size,
        }
    } else {
        next_range(responder.message, size)
    }
}

/// Takes the memory of a plan that writes to the range that a write names.
fn prepare_write(
    alloc: Global,
    plan: Plan,
    part: Part,
    packet: &Packet,
    qp: &Qp,
    regions: &mut Regions,
) -> Result<Prepared, AllocError>
    requires { length packet.now.payload.bytes ≤ 4096 }
    ensures ok { IfOk result (λ made. IsPrepared (record { plan = plan; kind = Access.RemoteWrite; found = piece_with_bytes (written_range part (content_of packet.now) qp.now.responder) }) (content_of packet.now) qp.now made) }
    ensures ok_regions { let found = piece_with_bytes (written_range part (content_of packet.now) qp.now.responder) in OnOk result (regions.new ≡ with_rooms_for regions.old found) }
    ensures err { OnErr result (StaysKnown regions.old regions.new) }
{
    let range = written_range(part, packet, qp.responder());
    if range.length == 0 {
        prepare(alloc, plan, Access::RemoteWrite, packet, qp, regions, &[])
    } else {
        prepare(
            alloc,
            plan,
            Access::RemoteWrite,
            packet,
            qp,
            regions,
            &[range],
        )
    }
}

fn kind_of_write(asks: Asks) -> Access
    ensures { result ≡ kind_of_write asks }
{
    match asks {
        Asks::Sends | Asks::Invalidates => Access::LocalWrite,
        Asks::Writes | Asks::Reads => Access::RemoteWrite,
    }
}

/// Takes the memory of a plan that writes what an accepted packet brings.
fn prepare_part(
    alloc: Global,
    plan: Plan,
    part: Part,
    packet: &Packet,
    qp: &Qp,
    regions: &mut Regions,
    next: Option<&RecvWork>,
) -> Result<Prepared, AllocError>
    requires { length packet.now.payload.bytes ≤ 4096 }
    ensures ok { IfOk result (λ made. IsPrepared (record { plan = plan; kind = kind_of_write part.asks; found = pieces_for part part.asks (content_of packet.now) qp.now (option_copied next.entry) }) (content_of packet.now) qp.now made) }
    ensures ok_regions { let found = pieces_for part part.asks (content_of packet.now) qp.now (option_copied next.entry) in OnOk result (regions.new ≡ with_rooms_for regions.old found) }
    ensures err { OnErr result (StaysKnown regions.old regions.new) }
{
    match part.asks {
        Asks::Sends => {
            let got = bytes_got(qp.responder().message);
            prepare_receive(alloc, plan, packet, qp, regions, got, next)
        }
        Asks::Writes => prepare_write(alloc, plan, part, packet, qp, regions),
        Asks::Reads => prepare(alloc, plan, Access::RemoteWrite, packet, qp, regions, &[]),
        Asks::Invalidates => prepare(alloc, plan, Access::LocalWrite, packet, qp, regions, &[]),
    }
}

/// Takes the memory of a plan for a packet of a connection.
fn prepare_plan(
    alloc: Global,
    plan: Plan,
    part: Part,
    packet: &Packet,
    qp: &Qp,
    regions: &mut Regions,
    next: Option<&RecvWork>,
) -> Result<Prepared, AllocError>
    requires { length packet.now.payload.bytes ≤ 4096 }
    ensures ok { IfOk result (λ made. IsPrepared (request_planned plan part (content_of packet.now) qp.now (option_copied next.entry)) (content_of packet.now) qp.now made) }
    ensures ok_regions { let found = pieces_written plan part (content_of packet.now) qp.now (option_copied next.entry) in OnOk result (regions.new ≡ with_rooms_for regions.old found) }
    ensures err { OnErr result (StaysKnown regions.old regions.new) }
{
    if plan.writes {
        prepare_part(alloc, plan, part, packet, qp, regions, next)
    } else {
        prepare(
            alloc,
            plan,
            kind_of_write(part.asks),
            packet,
            qp,
            regions,
            &[],
        )
    }
}

/// Judges a request of a connection, and takes the memory of what is done.
#[tactic(auto, using(crate::proofs::Planned::accepted_readable))]
fn ready_request(
    alloc: Global,
    part: Part,
    packet: &Packet,
    qp: &Qp,
    regions: &mut Regions,
    next: Option<&RecvWork>,
) -> Result<Prepared, AllocError>
    requires psn { packet.now.psn < PSNS }
    requires size { length packet.now.payload.bytes ≤ 4096 }
    ensures ok { IfOk result (λ made. IsPrepared (request_readied part (content_of packet.now) qp.now regions.old (option_copied next.entry)) (content_of packet.now) qp.now made) }
    ensures ok_regions { let r = request_readied part (content_of packet.now) qp.now regions.old (option_copied next.entry) in OnOk result (regions.new ≡ with_rooms_for regions.old r.found) }
    ensures err { OnErr result (StaysKnown regions.old regions.new) }
{
    let row = judge(part, packet, qp, regions, next);
    let plan = row_plan(row, part, packet, qp);
    prepare_plan(alloc, plan, part, packet, qp, regions, next)
}

/// Takes the memory of a plan for a datagram.
fn prepare_datagram(
    alloc: Global,
    plan: Plan,
    packet: &Packet,
    qp: &Qp,
    regions: &mut Regions,
    next: Option<&RecvWork>,
) -> Result<Prepared, AllocError>
    requires { length packet.now.payload.bytes ≤ 4096 }
    ensures ok { IfOk result (λ made. IsPrepared (datagram_planned plan (content_of packet.now) (option_copied next.entry)) (content_of packet.now) qp.now made) }
    ensures ok_regions { let found = datagram_pieces plan (content_of packet.now) (option_copied next.entry) in OnOk result (regions.new ≡ with_rooms_for regions.old found) }
    ensures err { OnErr result (StaysKnown regions.old regions.new) }
{
    if plan.writes {
        prepare_receive(alloc, plan, packet, qp, regions, 0, next)
    } else {
        prepare(alloc, plan, Access::LocalWrite, packet, qp, regions, &[])
    }
}

/// Judges a datagram, and takes the memory of what is done.
fn ready_datagram(
    alloc: Global,
    packet: &Packet,
    qp: &Qp,
    regions: &mut Regions,
    next: Option<&RecvWork>,
) -> Result<Prepared, AllocError>
    requires { length packet.now.payload.bytes ≤ 4096 }
    ensures ok { IfOk result (λ made. IsPrepared (datagram_readied (content_of packet.now) qp.now regions.old (option_copied next.entry)) (content_of packet.now) qp.now made) }
    ensures ok_regions { let r = datagram_readied (content_of packet.now) qp.now regions.old (option_copied next.entry) in OnOk result (regions.new ≡ with_rooms_for regions.old r.found) }
    ensures err { OnErr result (StaysKnown regions.old regions.new) }
{
    let row = receive_datagram(packet, qp, regions, next);
    let plan = datagram_plan(row, packet, qp);
    prepare_datagram(alloc, plan, packet, qp, regions, next)
}

/// What a request of a connection is a part of, by the number of its opcode.
pub(crate) fn part_in(number: u8) -> Option<Part>
    ensures { result ≡ part_in (opcode_of number) }
{
    match Opcode::from_number(number) {
        Some(opcode) => part_of(opcode),
        None => None,
    }
}

/// Judges a request, and takes the memory of what is done.
fn ready(
    alloc: Global,
    packet: &Packet,
    qp: &Qp,
    regions: &mut Regions,
    next: Option<&RecvWork>,
) -> Result<Prepared, AllocError>
    requires psn { packet.now.psn < PSNS }
    requires size { length packet.now.payload.bytes ≤ 4096 }
    ensures ok { IfOk result (λ made. IsPrepared (readied (content_of packet.now) qp.now regions.old (option_copied next.entry)) (content_of packet.now) qp.now made) }
    ensures ok_regions { let r = readied (content_of packet.now) qp.now regions.old (option_copied next.entry) in OnOk result (regions.new ≡ with_rooms_for regions.old r.found) }
    ensures err { OnErr result (StaysKnown regions.old regions.new) }
{
    match part_in(packet.opcode) {
        Some(part) => ready_request(alloc, part, packet, qp, regions, next),
        None => ready_datagram(alloc, packet, qp, regions, next),
    }
}

/// Carries out what was prepared. It takes no memory.
fn finish(prepared: Prepared, qp: &mut Qp, regions: &mut Regions) -> TurnDone
    requires writes { is_read prepared.kind ≡ false }
    requires may_act { MayWriteAll regions.old prepared.kind qp.old.names.object qp.old.names.domain prepared.writes }
    requires may_settle { MaySettle prepared.plan qp.old }
    requires none { prepared.completions.items ≡ [] }
    requires room { 0 < prepared.completions.room }
    ensures { Finishes (carried_out prepared qp.old regions.old) result qp.new regions.new }
{
    let Prepared {
        plan,
        kind,
        packets,
        writes,
        completions,
    } = prepared;
    let mut completions = completions;
    let to = answers_to(qp.peer_device(), plan.told);
    let names = qp.names();
    regions.write_all(kind, writes, names.object, names.domain);
    settle(plan, qp, &mut completions);
    TurnDone::Turned {
        word: plan.word,
        to,
        packets,
        completions: List::from_vec(completions.into_vec()),
    }
}

/// The parts of a receive are no longer than a work.
fn is_short(next: Option<&RecvWork>)
    ensures { IsShort (option_copied next.entry) }
{
    if let Some(work) = next {
        let _ = work.length();
    }
}

/// The receive that a message has, or would take of the shared queue.
pub(crate) fn shared_receive<'a>(qp: &'a Qp, queue: &'a WorkQueue<RecvWork>) -> Option<&'a RecvWork>
    ensures { option_copied result ≡ receive_for qp.now (Some queue.now) }
{
    match qp.held() {
        Some(work) => Some(work),
        None => queue.at(0),
    }
}

/// The turn of a queue pair that has its own receives.
fn turn_own(alloc: Global, qp: &mut Qp, regions: &mut Regions, packet: &Packet) -> TurnDone
    requires value { IsPacketValue (content_of packet.now) }
    requires let_in { lets_in qp.old (content_of packet.now) ≡ true }
    ensures turned { RequestGives (turn_made (content_of packet.now) qp.old regions.old None) qp.old regions.old None result qp.new regions.new None }
    ensures goes_on { RequestGoesOn result qp.old regions.old qp.new regions.new }
    ensures packets { AnswersGoOut result }
{
    qp.keeps();
    // The peer's number has 24 bits, as that of a packet.
    let _ = qp.peer();
    allowed_may_write_all();
    lent_regions_go_on();
    turns_go_on();
    turns_go_on_in_turn();
    let next = qp.next_receive();
    is_short(next);
    match ready(alloc, packet, qp, regions, next) {
        Err(AllocError) => TurnDone::NoMemory,
        Ok(prepared) => {
            take_own(prepared.plan.takes, qp);
            finish(prepared, qp, regions)
        }
    }
}

/// The turn of a queue pair whose receives are those of a shared queue.
fn turn_shared(
    alloc: Global,
    qp: &mut Qp,
    regions: &mut Regions,
    packet: &Packet,
    queue: &mut WorkQueue<RecvWork>,
) -> TurnDone
    requires value { IsPacketValue (content_of packet.now) }
    requires let_in { lets_in qp.old (content_of packet.now) ≡ true }
    requires shared { qp.old.srq ≡ true }
    ensures turned { RequestGives (turn_made (content_of packet.now) qp.old regions.old (Some queue.old)) qp.old regions.old (Some queue.old) result qp.new regions.new (Some queue.new) }
    ensures goes_on { RequestGoesOn result qp.old regions.old qp.new regions.new }
    ensures packets { AnswersGoOut result }
{
    qp.keeps();
    // The peer's number has 24 bits, as that of a packet.
    let _ = qp.peer();
    allowed_may_write_all();
    lent_regions_go_on();
    turns_go_on();
    turns_go_on_in_turn();
    room_is_not_known();
    let next = shared_receive(qp, queue);
    is_short(next);
    match ready(alloc, packet, qp, regions, next) {
        Err(AllocError) => TurnDone::NoMemory,
        Ok(prepared) => match take_shared(prepared.plan.takes, qp, queue) {
            Err(AllocError) => TurnDone::NoMemory,
            Ok(()) => finish(prepared, qp, regions),
        },
    }
}

/// The turn of a responder (`rxe_responder`, `rxe_resp.c`): judges a request by the first row that applies of the table of
/// connections, or of the rule of datagrams, and carries it out. `srq` is Some exactly where the queue pair has a shared
/// receive queue. The caller has asked `lets_in`, and looked at the device that the packet comes from; a response goes to the
/// requester, and is dropped here. On `NoMemory` nothing that counts has changed; `Idle` never comes.
pub fn turn(
    alloc: Global,
    qp: &mut Qp,
    regions: &mut Regions,
    packet: &Packet,
    srq: Option<&mut WorkQueue<RecvWork>>,
) -> TurnDone
    requires value { IsPacketValue (content_of packet.now) }
    requires let_in { lets_in qp.old (content_of packet.now) ≡ true }
    requires shared { qp.old.srq ≡ is_some srq }
    ensures turned { RequestLeaves (content_of packet.now) qp.old regions.old srq.entry srq.exit result qp.new regions.new }
    ensures goes_on { RequestGoesOn result qp.old regions.old qp.new regions.new }
    ensures packets { AnswersGoOut result }
{
    match srq {
        Some(queue) => turn_shared(alloc, qp, regions, packet, queue),
        None => turn_own(alloc, qp, regions, packet),
    }
}
