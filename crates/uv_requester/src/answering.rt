//! The answers of a read: a response packet at each turn.

ghost use Rattle.std.specs.Prelude.{◌≡◌, ◌≤◌, ◌∷◌, [], Some, IfSome, true};
ghost use Rattle.uv_num.specs.declared.limits.TheConstants.{PSNS, WORK_BYTES};
ghost use Rattle.uv_packet.specs.Packets.{content_of};
ghost use Rattle.uv_qp.specs.declared.turns.TurnDone.TheVariants as TurnDone;
ghost use Rattle.uv_region.specs.declared.action.Access.TheVariants as Access;
ghost use Rattle.uv_qp.specs.Pairs.{has_begun, mtu_of, IsReading};
ghost use Rattle.uv_requester.specs.Answers.{answer_made, answer_packet, answer_refused, answered_read, is_answering_state, lent_answered, lent_by_answer, read_on, refusal_content, response_aeth, response_content, response_made, response_opcode, response_pieces, response_psn, response_share, with_reading};
ghost use Rattle.uv_requester.specs.Ends.{LentGives, MadeGives};
ghost use Rattle.uv_region.specs.Several.{all_have_bytes, lent_allows_all};

use crate::ending::with_places;
use crate::packing::one_packet;
use crate::segment::{Spot, spot_of};
use std::alloc::{AllocError, Global};
use uv_num::{Bytes, List, PSNS, QpState, Stock};
use uv_packet::{ACK, Aeth, NAK_ACCESS, Opcode, Packet};
use uv_qp::{
    DEFAULT_PKEY, PieceList, Qp, Reading, Responder, TurnDone, TurnWord, packets_in, pieces,
};
use uv_region::{Access, Regions};
use uv_wr::Sge;

fn is_answering_state(state: QpState) -> bool
    ensures { result ≡ is_answering_state state }
{
    match state {
        QpState::Rtr | QpState::Rts => true,
        QpState::Reset | QpState::Init | QpState::Err => false,
    }
}

/// The read that is answered, if one is.
pub(crate) fn answered_read(qp: &Qp) -> Option<Reading>
    ensures read { result ≡ answered_read qp.now }
    ensures ranges { IfSome result IsReading }
{
    if is_answering_state(qp.state()) {
        qp.responder().reading
    } else {
        None
    }
}

fn response_opcode(spot: Spot) -> Opcode
    ensures { result ≡ response_opcode spot }
{
    match spot {
        Spot::Only => Opcode::ReadResponseOnly,
        Spot::First => Opcode::ReadResponseFirst,
        Spot::Middle => Opcode::ReadResponseMiddle,
        Spot::Last => Opcode::ReadResponseLast,
    }
}

fn response_aeth(spot: Spot, msn: u32) -> Option<Aeth>
    ensures { result ≡ response_aeth spot msn }
{
    match spot {
        Spot::Only | Spot::First | Spot::Last => Some(Aeth { syndrome: ACK, msn }),
        Spot::Middle => None,
    }
}

fn response_share(mtu: u64, reading: Reading) -> u32
    requires { mtu ≤ 4096 }
    ensures { result ≡ response_share mtu reading }
{
    let from = u64::from(reading.sent) * mtu;
    u64::from(reading.length).saturating_sub(from).min(mtu) as u32
}

/// Where the bytes of the next response lie. A read of no bytes looks at no region.
pub(crate) fn response_pieces(mtu: u64, reading: Reading) -> PieceList
    requires most { mtu ≤ 4096 }
    requires reading { IsReading reading }
    ensures pieces { result ≡ response_pieces mtu reading }
    ensures full { all_have_bytes result ≡ true }
{
    let whole = [Sge {
        key: reading.key,
        offset: reading.at,
        length: reading.length,
    }];
    pieces(
        &whole,
        (u64::from(reading.sent) * mtu) as u32,
        response_share(mtu, reading),
    )
}

fn response_psn(reading: Reading) -> u32
    ensures { result ≡ response_psn reading }
{
    ((u64::from(reading.psn) + u64::from(reading.sent)) % PSNS) as u32
}

fn read_on(mtu: u64, reading: Reading) -> Option<Reading>
    requires least { 256 ≤ mtu }
    requires most { mtu ≤ 4096 }
    requires reading { IsReading reading }
    ensures read { result ≡ read_on mtu reading }
    ensures ranges { IfSome result IsReading }
{
    if packets_in(mtu, reading.length) <= reading.sent + 1 {
        return None;
    }
    Some(Reading {
        sent: reading.sent + 1,
        ..reading
    })
}

/// A packet that answers the peer.
fn answer_packet(qp: &Qp, opcode: Opcode, psn: u32, aeth: Option<Aeth>, payload: Bytes) -> Packet
    ensures { content_of result ≡ answer_packet qp.now opcode psn aeth payload.bytes }
{
    Packet {
        opcode: opcode.number(),
        solicited: false,
        migrated: false,
        pkey: DEFAULT_PKEY,
        dest: qp.peer(),
        ack: false,
        psn,
        reth: None,
        aeth,
        imm: None,
        ieth: None,
        deth: None,
        payload,
    }
}

fn set_reading(qp: &mut Qp, reading: Option<Reading>)
    requires begun { has_begun qp.old.state ≡ true }
    requires ranges { IfSome reading IsReading }
    ensures { qp.new ≡ with_reading qp.old reading }
{
    qp.keeps();
    qp.set_responder(Responder {
        reading,
        ..qp.responder()
    });
}

/// The next response of a read, with these bytes (`read_reply`, `rxe_resp.c`).
fn response(qp: &Qp, reading: Reading, payload: Bytes) -> Packet
    requires { IsReading reading }
    ensures { content_of result ≡ response_content qp.now reading payload.bytes }
{
    let spot = spot_of(packets_in(qp.mtu(), reading.length), reading.sent);
    answer_packet(
        qp,
        response_opcode(spot),
        response_psn(reading),
        response_aeth(spot, qp.responder().msn),
        payload,
    )
}

/// The NAK for a region that refuses the next response of a read.
fn refusal(alloc: Global, qp: &Qp, reading: Reading) -> Packet
    ensures { content_of result ≡ refusal_content qp.now reading }
{
    answer_packet(
        qp,
        Opcode::Acknowledge,
        response_psn(reading),
        Some(Aeth {
            syndrome: NAK_ACCESS,
            msn: qp.responder().msn,
        }),
        Bytes::from_vec(Vec::new(alloc)),
    )
}

/// What is told of a packet that answers.
fn answered(word: TurnWord, to: u32, packets: List<Packet>, alloc: Global) -> TurnDone
    ensures { result ≡ TurnDone.Turned word to packets [] }
{
    TurnDone::Turned {
        word,
        to,
        packets,
        completions: List::new(alloc),
    }
}

/// Answers a read by its next response, or refuses it.
pub(crate) fn answer(
    alloc: Global,
    qp: &mut Qp,
    regions: &mut Regions,
    reading: Reading,
) -> TurnDone
    requires begun { has_begun qp.old.state ≡ true }
    requires ranges { IsReading reading }
    ensures pair { MadeGives qp.old (Some (answer_made qp.old regions.old reading)) result qp.new }
    ensures lent { LentGives regions.old (lent_by_answer qp.old regions.old reading) result regions.new }
{
    let found = response_pieces(qp.mtu(), reading);
    if regions.allows_all(Access::RemoteRead, found.as_slice(), qp.domain()) {
        respond(alloc, qp, regions, reading, found)
    } else {
        refuse(alloc, qp, regions, reading)
    }
}

/// Sends the next response, whose bytes lie in these pieces.
fn respond(
    alloc: Global,
    qp: &mut Qp,
    regions: &mut Regions,
    reading: Reading,
    found: PieceList,
) -> TurnDone
    requires begun { has_begun qp.old.state ≡ true }
    requires ranges { IsReading reading }
    requires found { found ≡ response_pieces (mtu_of qp.old) reading }
    requires full { all_have_bytes found ≡ true }
    requires readable { lent_allows_all regions.old Access.RemoteRead qp.old.names.domain found ≡ true }
    ensures pair { MadeGives qp.old (Some (response_made qp.old regions.old reading)) result qp.new }
    ensures lent { LentGives regions.old (lent_answered qp.old regions.old reading) result regions.new }
{
    let names = qp.names();
    match with_places(alloc, 1) {
        Err(AllocError) => TurnDone::NoMemory,
        Ok(room) => match regions.gather(
            alloc,
            Access::RemoteRead,
            found.as_slice(),
            names.object,
            names.domain,
        ) {
            Err(AllocError) => TurnDone::NoMemory,
            Ok(bytes) => {
                let packets = one_packet(room, response(qp, reading, bytes));
                set_reading(qp, read_on(qp.mtu(), reading));
                answered(TurnWord::Answered, qp.peer_device(), packets, alloc)
            }
        },
    }
}

/// Refuses the read, and breaks the queue pair.
fn refuse(alloc: Global, qp: &mut Qp, regions: &mut Regions, reading: Reading) -> TurnDone
    requires begun { has_begun qp.old.state ≡ true }
    ensures pair { MadeGives qp.old (Some (answer_refused qp.old reading)) result qp.new }
    ensures lent { LentGives regions.old regions.old result regions.new }
{
    let _ = &regions;
    match with_places(alloc, 1) {
        Err(AllocError) => TurnDone::NoMemory,
        Ok(room) => {
            let packets = one_packet(room, refusal(alloc, qp, reading));
            set_reading(qp, None);
            qp.fail();
            answered(TurnWord::Failed, qp.peer_device(), packets, alloc)
        }
    }
}
