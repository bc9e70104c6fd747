//! Which regions an action needs. Nothing is changed here, and no memory is taken.

ghost use Rattle.std.specs.Prelude.{◌≡◌, ◌≤◌, ◌<◌, ◌+◌, IfSome, length};
ghost use Rattle.std.specs.Option.{option_copied, option_map};
ghost use Rattle.uv_packet.specs.Packets.{content_of};
ghost use Rattle.uv_queue.specs.Order.{oldest};
ghost use Rattle.uv_engine.specs.Wanting.{and_local, and_locals, is_region, is_region_key, keys_needed, keys_wanted, remote_keys, responds, wanted_by_packet, wanted_by_request, wanted_by_response, wanted_by_send};

use crate::wanted::{Wants, and_key, none};
use uv_completer::reply_touches;
use uv_num::Kind;
use uv_packet::{Opcode, Packet};
use uv_pool::of_key;
use uv_qp::{Qp, is_response};
use uv_queue::WorkQueue;
use uv_region::Piece;
use uv_requester::{response_touches, send_touches};
use uv_responder::{range_touched, receive_for, receive_touched};
use uv_wr::RecvWork;

fn is_region(kind: Kind) -> bool
    ensures { result ≡ is_region kind }
{
    match kind {
        Kind::Mr => true,
        Kind::Pd | Kind::Channel | Kind::Cq | Kind::Qp | Kind::Srq | Kind::Ah | Kind::Mw => false,
    }
}

/// Whether a key is that of a region, and not of a window.
fn is_region_key(key: u32) -> bool
    ensures { result ≡ is_region_key key }
{
    match of_key(key) {
        None => false,
        Some((kind, _, _)) => is_region(kind),
    }
}

fn and_local(wants: Wants, key: u32) -> Wants
    requires { wants.count < 6 }
    ensures keys { keys_wanted result ≡ and_local (keys_wanted wants) key }
    ensures count { result.count ≤ wants.count + 1 }
{
    if is_region_key(key) {
        and_key(wants, key)
    } else {
        wants
    }
}

/// The keys with those of local pieces.
fn and_locals(wants: Wants, pieces: &[Piece]) -> Wants
    requires { wants.count + length pieces.now ≤ 6 }
    ensures keys { keys_wanted result ≡ and_locals (keys_wanted wants) pieces.now }
    ensures count { result.count ≤ wants.count + length pieces.now }
{
    let mut all = wants;
    for piece in pieces {
        all = and_local(all, piece.key);
    }
    all
}

/// The key of a remote range, if there is one.
fn remote_keys(range: Option<Piece>) -> Wants
    ensures keys { keys_wanted result ≡ remote_keys range }
    ensures count { result.count ≤ 1 }
{
    match range {
        None => none(),
        Some(piece) => and_key(none(), piece.key),
    }
}

fn wanted_by_send(qp: &Qp) -> Wants
    ensures keys { keys_wanted result ≡ wanted_by_send qp.now }
    ensures count { result.count ≤ 5 }
{
    let answered = response_touches(qp);
    let sent = send_touches(qp);
    let range = answered.as_slice().get(0).copied();
    and_locals(remote_keys(range), sent.as_slice())
}

fn wanted_by_request(packet: &Packet, qp: &Qp, srq: Option<&WorkQueue<RecvWork>>) -> Wants
    requires { length packet.now.payload.bytes ≤ 4096 }
    ensures keys { keys_wanted result ≡ wanted_by_request (content_of packet.now) qp.now (option_copied srq.entry) }
    ensures count { result.count ≤ 5 }
{
    let filled = receive_touched(packet, qp, receive_for(qp, srq));
    and_locals(remote_keys(range_touched(packet, qp)), filled.as_slice())
}

fn wanted_by_response(packet: &Packet, qp: &Qp) -> Wants
    ensures keys { keys_wanted result ≡ wanted_by_response (content_of packet.now) qp.now }
    ensures count { result.count ≤ 4 }
{
    let filled = reply_touches(packet, qp);
    and_locals(none(), filled.as_slice())
}

/// Whether a packet is a response.
pub(crate) fn responds(packet: &Packet) -> bool
    ensures { result ≡ responds (content_of packet.now) }
{
    match Opcode::from_number(packet.opcode) {
        None => false,
        Some(opcode) => is_response(opcode),
    }
}

fn wanted_by_packet(packet: &Packet, qp: &Qp, srq: Option<&WorkQueue<RecvWork>>) -> Wants
    requires { length packet.now.payload.bytes ≤ 4096 }
    ensures keys { keys_wanted result ≡ wanted_by_packet (content_of packet.now) qp.now (option_copied srq.entry) }
    ensures count { result.count ≤ 5 }
{
    if !qp.lets_in(packet) {
        return none();
    }
    if responds(packet) {
        wanted_by_response(packet, qp)
    } else {
        wanted_by_request(packet, qp, srq)
    }
}

/// The keys of the regions that an action needs: with None those of a send turn, else those of the delivery of this packet, which
/// is taken as one that comes to the device of the queue pair and, for a connection, from that of its peer. A tick needs none. A
/// remote key is wanted alone; of local parts only those that are touched are wanted, by keys of regions, each once, so that no
/// two wanted keys lead to one region. `srq` is Some exactly where the queue pair has a shared receive queue. A packet that
/// `decode` gave is short enough. It takes no memory.
pub fn wants(qp: &Qp, packet: Option<&Packet>, srq: Option<&WorkQueue<RecvWork>>) -> Wants
    requires { IfSome (option_copied packet) (λ p. length p.payload.bytes ≤ 4096) }
    ensures keys { keys_wanted result ≡ keys_needed qp.now (option_map content_of (option_copied packet.entry)) (option_copied srq.entry) }
    ensures count { result.count ≤ 5 }
{
    match packet {
        None => wanted_by_send(qp),
        Some(packet) => wanted_by_packet(packet, qp, srq),
    }
}
