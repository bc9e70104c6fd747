//! The rules of the table of connections, by name: the tests of `judge`, in their order.

ghost use Rattle.std.specs.Prelude.{◌≡◌, ◌<◌, ◌^◌, length};
ghost use Rattle.std.specs.Option.{option_copied};
ghost use Rattle.uv_num.specs.declared.limits.TheConstants.{PSNS};
ghost use Rattle.uv_packet.specs.Packets.{content_of};
ghost use Rattle.uv_responder.specs.Rules.{judgement_by, packet_key, packet_rule, packet_source, packet_syndrome, rule_before, rule_expected, rule_valid};

use crate::judging::{
    Judgement, bytes_got, can_reread, fits_receive, has_length, is_granted, is_in_place, is_let,
    is_sized, psn_distance, reaches, takes_receive,
};
use crate::part::{Asks, Part};
use uv_num::PSNS;
use uv_packet::{ACK, NAK_ACCESS, NAK_INVALID, NAK_OPERATION, NAK_SEQUENCE, Packet, RNR};
use uv_qp::Qp;
use uv_region::Regions;
use uv_wr::RecvWork;

/// A rule that a request of a connection must meet to be carried out. What it asks for stands beside its name. They are tried in
/// the order in which they stand here, and the first that isn't met decides what becomes of the request.
#[derive(Clone, Copy, Debug, PartialEq, Eq)]
pub enum PacketRule {
    /// A send or a write isn't one that came before.
    Duplicate,
    /// A read isn't one that came before and can be answered again. Such a one is.
    Reread,
    /// A read isn't one that came before.
    Stale,
    /// No packet is missing before it.
    Ahead,
    /// No read is still being answered.
    Busy,
    /// It invalidates no key.
    Invalidate,
    /// It begins a message where none is in progress, or goes on with the one that is.
    Place,
    /// Its payload is as long as its place in the message wants.
    Payload,
    /// The message is as long as its first packet tells, and no longer than a work.
    Length,
    /// The queue pair gives the access.
    Granted,
    /// A receive waits, where it takes one.
    Receive,
    /// The key of the range is live, and the range lets it act.
    Range,
    /// Its receive is as long as the message.
    Room,
    /// The regions of its receive are live, and let it be filled.
    Parts,
}

impl PacketRule {
    /// Its key: lower-case words and hyphens.
    pub fn key(self) -> &'static str
        ensures { result.now ≡ packet_key self }
    {
        match self {
            PacketRule::Duplicate => "psn-duplicate",
            PacketRule::Reread => "psn-reread",
            PacketRule::Stale => "psn-stale",
            PacketRule::Ahead => "psn-ahead",
            PacketRule::Busy => "read-busy",
            PacketRule::Invalidate => "opcode-invalidate",
            PacketRule::Place => "opcode-place",
            PacketRule::Payload => "payload-length",
            PacketRule::Length => "message-length",
            PacketRule::Granted => "access-granted",
            PacketRule::Receive => "receive-none",
            PacketRule::Range => "rkey-range",
            PacketRule::Room => "receive-room",
            PacketRule::Parts => "receive-parts",
        }
    }

    /// Whose rule it is: `own` for one of this project, else functions of Linux in `drivers/infiniband/sw/rxe/rxe_resp.c`.
    pub fn source(self) -> &'static str
        ensures { result.now ≡ packet_source self }
    {
        match self {
            PacketRule::Duplicate => "check_psn, duplicate_request",
            PacketRule::Reread => "check_psn, duplicate_request",
            PacketRule::Stale => "check_psn, duplicate_request",
            PacketRule::Ahead => "check_psn",
            PacketRule::Busy => "own",
            PacketRule::Invalidate => "own",
            PacketRule::Place => "check_op_seq",
            PacketRule::Payload => "rxe_resp_check_length",
            PacketRule::Length => "check_rkey",
            PacketRule::Granted => "check_op_valid",
            PacketRule::Receive => "check_resource",
            PacketRule::Range => "check_rkey",
            PacketRule::Room => "send_data_in",
            PacketRule::Parts => "send_data_in",
        }
    }

    /// The syndrome of the answer, if there is one. A duplicate is acknowledged where it asks for it, and what is missing is told
    /// once.
    pub fn syndrome(self, qp: &Qp) -> Option<u8>
        ensures { result ≡ packet_syndrome self qp.now }
    {
        match self {
            PacketRule::Duplicate => Some(ACK),
            PacketRule::Reread | PacketRule::Stale | PacketRule::Busy => None,
            PacketRule::Ahead => Some(NAK_SEQUENCE),
            PacketRule::Invalidate
            | PacketRule::Place
            | PacketRule::Payload
            | PacketRule::Length
            | PacketRule::Granted
            | PacketRule::Room => Some(NAK_INVALID),
            PacketRule::Receive => Some(RNR + qp.rnr_timer()),
            PacketRule::Range => Some(NAK_ACCESS),
            PacketRule::Parts => Some(NAK_OPERATION),
        }
    }

    /// The row of the table that a request meets which doesn't meet it.
    pub fn judgement(self) -> Judgement
        ensures { result ≡ judgement_by self }
    {
        match self {
            PacketRule::Duplicate => Judgement::Duplicate,
            PacketRule::Reread => Judgement::Reread,
            PacketRule::Stale => Judgement::Stale,
            PacketRule::Ahead => Judgement::Ahead,
            PacketRule::Busy => Judgement::Busy,
            PacketRule::Invalidate
            | PacketRule::Place
            | PacketRule::Payload
            | PacketRule::Length
            | PacketRule::Granted => Judgement::Invalid,
            PacketRule::Receive => Judgement::NotReady,
            PacketRule::Range => Judgement::Denied,
            PacketRule::Room => Judgement::TooLong,
            PacketRule::Parts => Judgement::Unplaced,
        }
    }
}

fn rule_before(part: Part, packet: &Packet, qp: &Qp, regions: &Regions) -> PacketRule
    ensures { result ≡ rule_before part (content_of packet.now) qp.now regions.now }
{
    if part.asks != Asks::Reads {
        return PacketRule::Duplicate;
    }
    if can_reread(packet, qp, regions) {
        PacketRule::Reread
    } else {
        PacketRule::Stale
    }
}

fn rule_valid(
    part: Part,
    packet: &Packet,
    qp: &Qp,
    regions: &Regions,
    next: Option<&RecvWork>,
) -> Option<PacketRule>
    requires { length packet.now.payload.bytes < 2 ^ 32 }
    ensures { result ≡ rule_valid part (content_of packet.now) qp.now regions.now (option_copied next.entry) }
{
    if takes_receive(part) && next.is_none() {
        return Some(PacketRule::Receive);
    }
    if !reaches(part, packet, qp, regions) {
        return Some(PacketRule::Range);
    }
    let got = bytes_got(qp.responder().message);
    let size = packet.payload.len() as u32;
    if part.asks == Asks::Sends && !fits_receive(got, size, next) {
        return Some(PacketRule::Room);
    }
    if part.asks == Asks::Sends && !is_let(regions, qp.domain(), got, size, next) {
        return Some(PacketRule::Parts);
    }
    None
}

fn rule_expected(
    part: Part,
    packet: &Packet,
    qp: &Qp,
    regions: &Regions,
    next: Option<&RecvWork>,
) -> Option<PacketRule>
    requires { length packet.now.payload.bytes < 2 ^ 32 }
    ensures { result ≡ rule_expected part (content_of packet.now) qp.now regions.now (option_copied next.entry) }
{
    let responder = qp.responder();
    if responder.reading.is_some() {
        return Some(PacketRule::Busy);
    }
    if part.asks == Asks::Invalidates {
        return Some(PacketRule::Invalidate);
    }
    if !is_in_place(part, responder.message) {
        return Some(PacketRule::Place);
    }
    if !is_sized(part, qp.mtu(), packet.payload.len() as u64) {
        return Some(PacketRule::Payload);
    }
    if !has_length(part, packet, qp) {
        return Some(PacketRule::Length);
    }
    if !is_granted(part.asks, qp.access()) {
        return Some(PacketRule::Granted);
    }
    rule_valid(part, packet, qp, regions, next)
}

/// The rule that a request doesn't meet first, if there is one; none exactly where it is carried out. Where it is `Range`,
/// the region that the range lies in tells more.
pub fn packet_rule(
    part: Part,
    packet: &Packet,
    qp: &Qp,
    regions: &Regions,
    next: Option<&RecvWork>,
) -> Option<PacketRule>
    requires psn { packet.now.psn < PSNS }
    requires payload { length packet.now.payload.bytes < 2 ^ 32 }
    ensures { result ≡ packet_rule part (content_of packet.now) qp.now regions.now (option_copied next.entry) }
{
    let distance = psn_distance(qp.responder().expected, packet.psn);
    if distance > (PSNS / 2) as u32 {
        return Some(rule_before(part, packet, qp, regions));
    }
    if distance != 0 {
        return Some(PacketRule::Ahead);
    }
    rule_expected(part, packet, qp, regions, next)
}
