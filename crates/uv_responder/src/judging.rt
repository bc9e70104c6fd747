//! What a request of a connection is: the first row of the table that applies. Nothing here takes memory or changes anything.

ghost use Rattle.std.specs.Prelude.{◌≡◌, ◌<◌, ◌≤◌, ◌^◌, length};
ghost use Rattle.std.specs.Option.{option_copied};
ghost use Rattle.uv_num.specs.declared.limits.TheConstants.{PSNS, WORK_BYTES};
ghost use Rattle.uv_packet.specs.Packets.{content_of};
ghost use Rattle.uv_qp.specs.declared.state.Message.TheVariants as Message;
ghost use Rattle.uv_qp.specs.Pieces.{pieces};
ghost use Rattle.uv_region.specs.declared.action.Access.TheVariants as Access;
ghost use Rattle.uv_region.specs.Lent.{lent_allows};
ghost use Rattle.uv_region.specs.Several.{lent_allows_all};
ghost use Rattle.uv_responder.specs.Judging.{bytes_got, bytes_left, can_reread, fits_receive, has_length, is_granted, is_in_place, is_sized, is_whole, judgement_of, lets_act, next_range, psn_distance, reaches, received_at, reth_of, takes_receive, tested_range, whole_range};

use crate::part::{Asks, Part};
use crate::rule::packet_rule;
use uv_num::{ACCESS_REMOTE_READ, ACCESS_REMOTE_WRITE, PSNS, WORK_BYTES};
use uv_packet::{Packet, Reth};
use uv_qp::{Message, Qp, Responder, pieces};
use uv_region::{Access, Piece, Regions};
use uv_wr::RecvWork;

/// The row of the table that a request meets (`enum resp_states`, `rxe_resp.c`).
#[derive(Clone, Copy, Debug, PartialEq, Eq)]
pub enum Judgement {
    /// A packet of a send or of a write that came before.
    Duplicate,
    /// A read that came before, and is answered again.
    Reread,
    /// A read that came before, and can't be answered again.
    Stale,
    /// A packet before it is missing.
    Ahead,
    /// A read is still being answered.
    Busy,
    /// It is none that may come there, or none that the queue pair takes.
    Invalid,
    /// It takes a receive, and none waits.
    NotReady,
    /// The region that it names isn't there, or refuses it.
    Denied,
    /// The message is longer than its receive.
    TooLong,
    /// A region of its receive isn't there, or refuses it.
    Unplaced,
    /// It is carried out.
    Accepted,
}

/// How far a PSN is ahead of another, around all PSNs (`psn_compare`, `rxe_hdr.h`, has the sign of it).
pub(crate) fn psn_distance(from: u32, to: u32) -> u32
    requires from { from < PSNS }
    requires to { to < PSNS }
    ensures { result ≡ psn_distance from to }
{
    (to + PSNS as u32 - from) % PSNS as u32
}

pub(crate) fn reth_of(packet: &Packet) -> Reth
    ensures { result ≡ reth_of (content_of packet.now) }
{
    packet.reth.unwrap_or(Reth {
        at: 0,
        key: 0,
        length: 0,
    })
}

fn whole_range(packet: &Packet) -> Piece
    ensures { result ≡ whole_range (content_of packet.now) }
{
    let reth = reth_of(packet);
    Piece {
        key: reth.key,
        offset: u128::from(reth.at),
        length: reth.length,
    }
}

fn lets_act(regions: &Regions, kind: Access, domain: u32, piece: Piece) -> bool
    ensures { result ≡ lets_act regions.now kind domain piece }
{
    piece.length == 0 || regions.allows(kind, piece, domain)
}

pub(crate) fn can_reread(packet: &Packet, qp: &Qp, regions: &Regions) -> bool
    ensures { result ≡ can_reread (content_of packet.now) qp.now regions.now }
{
    let range = whole_range(packet);
    range.length <= WORK_BYTES as u32 && lets_act(regions, Access::RemoteRead, qp.domain(), range)
}

pub(crate) fn is_in_place(part: Part, message: Option<Message>) -> bool
    ensures { result ≡ is_in_place part message }
{
    match message {
        None => part.first,
        Some(Message::Send { .. }) => !part.first && part.asks == Asks::Sends,
        Some(Message::Write { .. }) => !part.first && part.asks == Asks::Writes,
    }
}

pub(crate) fn is_sized(part: Part, mtu: u64, size: u64) -> bool
    ensures { result ≡ is_sized part mtu size }
{
    if part.last {
        size <= mtu && (part.first || 0 < size)
    } else {
        size == mtu
    }
}

fn bytes_left(message: Option<Message>) -> u32
    ensures { result ≡ bytes_left message }
{
    match message {
        Some(Message::Write { left, .. }) => left,
        Some(Message::Send { .. }) | None => 0,
    }
}

fn is_whole(part: Part, named: u64, mtu: u64, left: u64, size: u64) -> bool
    ensures { result ≡ is_whole part named mtu left size }
{
    if part.first {
        named <= WORK_BYTES as u64
            && (if part.last {
                named == size
            } else {
                mtu < named
            })
    } else if part.last {
        size == left
    } else {
        size < left
    }
}

pub(crate) fn has_length(part: Part, packet: &Packet, qp: &Qp) -> bool
    ensures { result ≡ has_length part part.asks (content_of packet.now) qp.now }
{
    match part.asks {
        Asks::Writes => is_whole(
            part,
            u64::from(reth_of(packet).length),
            qp.mtu(),
            u64::from(bytes_left(qp.responder().message)),
            packet.payload.len() as u64,
        ),
        Asks::Reads => reth_of(packet).length <= WORK_BYTES as u32,
        Asks::Sends | Asks::Invalidates => true,
    }
}

pub(crate) fn is_granted(asks: Asks, access: u64) -> bool
    ensures { result ≡ is_granted asks access }
{
    match asks {
        Asks::Sends => true,
        Asks::Writes => access & ACCESS_REMOTE_WRITE == ACCESS_REMOTE_WRITE,
        Asks::Reads => access & ACCESS_REMOTE_READ == ACCESS_REMOTE_READ,
        Asks::Invalidates => false,
    }
}

pub(crate) fn takes_receive(part: Part) -> bool
    ensures { result ≡ takes_receive part }
{
    part.asks == Asks::Sends && part.first || part.asks == Asks::Writes && part.last && part.imm
}

pub(crate) fn next_range(message: Option<Message>, size: u32) -> Piece
    ensures { result ≡ next_range message size }
{
    match message {
        Some(Message::Write { key, at, got, .. }) => Piece {
            key,
            offset: u128::from(at) + u128::from(got),
            length: size,
        },
        Some(Message::Send { .. }) | None => Piece {
            key: 0,
            offset: 0,
            length: 0,
        },
    }
}

pub(crate) fn tested_range(part: Part, packet: &Packet, responder: Responder) -> Piece
    requires { length packet.now.payload.bytes < 2 ^ 32 }
    ensures { result ≡ tested_range part (content_of packet.now) responder }
{
    if part.first {
        whole_range(packet)
    } else {
        next_range(responder.message, packet.payload.len() as u32)
    }
}

pub(crate) fn reaches(part: Part, packet: &Packet, qp: &Qp, regions: &Regions) -> bool
    requires { length packet.now.payload.bytes < 2 ^ 32 }
    ensures { result ≡ reaches part part.asks (content_of packet.now) qp.now regions.now }
{
    match part.asks {
        Asks::Writes => lets_act(
            regions,
            Access::RemoteWrite,
            qp.domain(),
            tested_range(part, packet, qp.responder()),
        ),
        Asks::Reads => lets_act(
            regions,
            Access::RemoteRead,
            qp.domain(),
            tested_range(part, packet, qp.responder()),
        ),
        Asks::Sends | Asks::Invalidates => true,
    }
}

pub(crate) fn bytes_got(message: Option<Message>) -> u32
    ensures { result ≡ bytes_got message }
{
    match message {
        Some(Message::Send { got }) => got,
        Some(Message::Write { .. }) | None => 0,
    }
}

pub(crate) fn fits_receive(got: u32, size: u32, next: Option<&RecvWork>) -> bool
    ensures { result ≡ fits_receive got size (option_copied next.entry) }
{
    match next {
        None => false,
        Some(work) => u64::from(got) + u64::from(size) <= u64::from(work.length()),
    }
}

/// Whether the regions of a receive let bytes be written there.
pub(crate) fn is_let(
    regions: &Regions,
    domain: u32,
    got: u32,
    size: u32,
    next: Option<&RecvWork>,
) -> bool
    ensures { result ≡ lent_allows_all regions.now Access.LocalWrite domain (received_at (option_copied next.entry) got size) }
{
    match next {
        None => true,
        Some(work) => {
            let found = pieces(work.parts(), got, size);
            regions.allows_all(Access::LocalWrite, found.as_slice(), domain)
        }
    }
}

/// The first row that applies: that of the rule which isn't met first. `next` is the receive that the packet's message has, or would
/// take. It takes no memory.
pub fn judge(
    part: Part,
    packet: &Packet,
    qp: &Qp,
    regions: &Regions,
    next: Option<&RecvWork>,
) -> Judgement
    requires psn { packet.now.psn < PSNS }
    requires payload { length packet.now.payload.bytes < 2 ^ 32 }
    ensures { result ≡ judgement_of part (content_of packet.now) qp.now regions.now (option_copied next.entry) }
{
    match packet_rule(part, packet, qp, regions, next) {
        None => Judgement::Accepted,
        Some(rule) => rule.judgement(),
    }
}
