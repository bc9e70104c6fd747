//! The five faults that bytes may have, in their order. None of them takes memory.

ghost use Rattle.std.specs.Prelude.{◌≡◌, ◌≤◌, ◌<◌, length, None};
ghost use Rattle.uv_num.specs.declared.limits.TheConstants.{QP_NUMBERS};
ghost use Rattle.uv_packet.specs.declared.packet.TheConstants.{BTH_BYTES};
ghost use Rattle.uv_packet.specs.Places.{payload_from};
ghost use Rattle.uv_packet.specs.Reading.{dest_at, headers_at, pad_at};
ghost use Rattle.uv_packet.specs.Refusal.{is_misfit, is_overpadded, is_short, is_unknown, is_versioned, refusal_of, rest_at};

use crate::bits::{PAD, PADS, UNIT};
use crate::fault::PacketFault;
use crate::fields::u24_at;
use crate::headers::{Headers, PLAIN};
use crate::opcode::Opcode;
use crate::packet::BTH_BYTES;
use uv_num::PACKET_PAYLOAD;

/// The headers of the opcode that the bytes begin with, and none where it isn't known.
pub fn headers_at(bytes: &[u8]) -> Headers
    requires { BTH_BYTES ≤ length bytes.now }
    ensures { result ≡ headers_at bytes.now }
{
    match Opcode::from_number(bytes[0]) {
        Some(opcode) => opcode.headers(),
        None => PLAIN,
    }
}

/// How many bytes of pad the BTH tells.
pub fn pad_at(bytes: &[u8]) -> usize
    requires { BTH_BYTES ≤ length bytes.now }
    ensures { result ≡ pad_at bytes.now }
{
    (bytes[1] / PAD % PADS) as usize
}

fn is_short(bytes: &[u8]) -> bool
    ensures { result ≡ is_short bytes.now }
{
    bytes.len() < BTH_BYTES || bytes.len() < headers_at(bytes).payload_from()
}

fn is_versioned(bytes: &[u8]) -> bool
    requires { BTH_BYTES ≤ length bytes.now }
    ensures { result ≡ is_versioned bytes.now }
{
    bytes[1] % PAD != 0
}

fn is_unknown(bytes: &[u8]) -> bool
    requires { BTH_BYTES ≤ length bytes.now }
    ensures { result ≡ is_unknown bytes.now }
{
    Opcode::from_number(bytes[0]).is_none()
}

/// How many bytes stand behind the headers.
fn rest_at(bytes: &[u8]) -> usize
    requires bth { BTH_BYTES ≤ length bytes.now }
    requires headers { payload_from (headers_at bytes.now) ≤ length bytes.now }
    ensures { result ≡ rest_at bytes.now }
{
    bytes.len() - headers_at(bytes).payload_from()
}

fn is_overpadded(bytes: &[u8]) -> bool
    requires bth { BTH_BYTES ≤ length bytes.now }
    requires headers { payload_from (headers_at bytes.now) ≤ length bytes.now }
    ensures { result ≡ is_overpadded bytes.now }
{
    rest_at(bytes) < pad_at(bytes)
}

fn is_misfit(bytes: &[u8]) -> bool
    requires bth { BTH_BYTES ≤ length bytes.now }
    requires headers { payload_from (headers_at bytes.now) ≤ length bytes.now }
    requires padded { pad_at bytes.now ≤ rest_at bytes.now }
    ensures { result ≡ is_misfit bytes.now }
{
    let rest = rest_at(bytes);
    rest % UNIT != 0
        || rest - pad_at(bytes) > PACKET_PAYLOAD
        || (!headers_at(bytes).payload && rest != 0)
}

/// The number of the queue pair that a packet of these bytes goes to (`DestQP` of the BTH), whether they are a packet or
/// not: it has 24 bits.
pub fn dest_at(bytes: &[u8]) -> u32
    requires { BTH_BYTES ≤ length bytes.now }
    ensures dest { result ≡ dest_at bytes.now }
    ensures most { result < QP_NUMBERS }
{
    u24_at(bytes, 5)
}

/// The first fault that the bytes have, if they have one: what `decode` refuses them with. It takes no memory, so whoever
/// only wants to know where a frame goes asks this and `dest_at`.
pub fn refusal(bytes: &[u8]) -> Option<PacketFault>
    ensures fault { result ≡ refusal_of bytes.now }
    ensures whole { result ≡ None → BTH_BYTES ≤ length bytes.now }
{
    if is_short(bytes) {
        return Some(PacketFault::Short);
    }
    if is_versioned(bytes) {
        return Some(PacketFault::Version);
    }
    if is_unknown(bytes) {
        return Some(PacketFault::Opcode);
    }
    if is_overpadded(bytes) {
        return Some(PacketFault::Pad);
    }
    if is_misfit(bytes) {
        return Some(PacketFault::Length);
    }
    None
}
