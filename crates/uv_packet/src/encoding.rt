//! From a packet to its bytes.

ghost use Rattle.std.specs.Prelude.{◌≡◌, ◌≤◌, ◌<◌, ◌+◌, ◌^◌, ◌++◌, [], length, replicate, IfOk, IfSome};
ghost use Rattle.std.specs.Option.{ForSome, option_map_or};
ghost use Rattle.uv_num.specs.declared.limits.TheConstants.{PACKET_BYTES};
ghost use Rattle.uv_packet.specs.declared.packet.TheConstants.{AETH_BYTES, BTH_BYTES, DETH_BYTES, HEADERS_BYTES, IMM_BYTES, OVERHEAD, RETH_BYTES};
ghost use Rattle.uv_packet.specs.Packets.{ack_byte, aeth_bytes, bth_bytes, bytes_of, content_of, ContentFits, deth_bytes, flags_of, headers_bytes, IsPacket, IsPacketValue, pad_of, payload_bytes, reth_bytes, RethFits, word_bytes, zeros};
ghost use Rattle.uv_packet.specs.Room.{KeepsRoom};

use crate::bits::{ACK, MIGRATED, PAD, SOLICITED, UNIT};
use crate::fields::{put_u8, put_u16, put_u24, put_u32, put_u64};
use crate::packet::{Aeth, Deth, OVERHEAD, Packet, Reth};
use std::alloc::{AllocError, Global};
use uv_num::Bytes;

/// The most bytes of pad.
const MOST_PAD: usize = UNIT - 1;

fn pad_of(count: usize) -> usize
    ensures { result ≡ pad_of count }
{
    (UNIT - count % UNIT) % UNIT
}

fn flags_of(packet: &Packet) -> u8
    ensures { result ≡ flags_of (content_of packet.now) }
{
    let solicited = if packet.solicited { SOLICITED } else { 0 };
    let migrated = if packet.migrated { MIGRATED } else { 0 };
    let pad = pad_of(packet.payload.len()) as u8;
    solicited + migrated + PAD * pad
}

fn ack_byte(packet: &Packet) -> u8
    ensures { result ≡ ack_byte (zeros (content_of packet.now)) (content_of packet.now) }
{
    if packet.ack { ACK } else { 0 }
}

fn put_bth(packet: &Packet, out: &mut Bytes)
    requires dest { packet.now.dest < 2 ^ 24 }
    requires psn { packet.now.psn < 2 ^ 24 }
    requires room { BTH_BYTES ≤ out.old.spare }
    ensures pkey { packet.now.pkey < 2 ^ 16 }
    ensures bytes { out.new.bytes ≡ out.old.bytes ++ bth_bytes (zeros (content_of packet.now)) (content_of packet.now) }
    ensures spare { out.old.spare ≤ out.new.spare + BTH_BYTES }
    ensures kept { KeepsRoom out.old out.new }
{
    put_u8(out, packet.opcode);
    put_u8(out, flags_of(packet));
    put_u16(out, packet.pkey);
    put_u8(out, 0);
    put_u24(out, packet.dest);
    put_u8(out, ack_byte(packet));
    put_u24(out, packet.psn);
}

fn put_reth(reth: Option<Reth>, out: &mut Bytes)
    requires { RETH_BYTES ≤ out.old.spare }
    ensures fits { IfSome reth RethFits }
    ensures bytes { out.new.bytes ≡ out.old.bytes ++ option_map_or reth_bytes reth [] }
    ensures spare { out.old.spare ≤ out.new.spare + RETH_BYTES }
    ensures kept { KeepsRoom out.old out.new }
{
    if let Some(reth) = reth {
        put_u64(out, reth.at);
        put_u32(out, reth.key);
        put_u32(out, reth.length);
    }
}

fn put_aeth(aeth: Option<Aeth>, out: &mut Bytes)
    requires msn { ForSome aeth (λ a. a.msn < 2 ^ 24) }
    requires room { AETH_BYTES ≤ out.old.spare }
    ensures bytes { out.new.bytes ≡ out.old.bytes ++ option_map_or aeth_bytes aeth [] }
    ensures spare { out.old.spare ≤ out.new.spare + AETH_BYTES }
    ensures kept { KeepsRoom out.old out.new }
{
    if let Some(aeth) = aeth {
        put_u8(out, aeth.syndrome);
        put_u24(out, aeth.msn);
    }
}

fn put_deth(deth: Option<Deth>, out: &mut Bytes)
    requires source { ForSome deth (λ d. d.source < 2 ^ 24) }
    requires room { DETH_BYTES ≤ out.old.spare }
    ensures qkey { IfSome deth (λ d. d.qkey < 2 ^ 32) }
    ensures bytes { out.new.bytes ≡ out.old.bytes ++ option_map_or (deth_bytes 0) deth [] }
    ensures spare { out.old.spare ≤ out.new.spare + DETH_BYTES }
    ensures kept { KeepsRoom out.old out.new }
{
    if let Some(deth) = deth {
        put_u32(out, deth.qkey);
        put_u8(out, 0);
        put_u24(out, deth.source);
    }
}

fn put_word(word: Option<u32>, out: &mut Bytes)
    requires { IMM_BYTES ≤ out.old.spare }
    ensures fits { IfSome word (λ n. n < 2 ^ 32) }
    ensures bytes { out.new.bytes ≡ out.old.bytes ++ option_map_or word_bytes word [] }
    ensures spare { out.old.spare ≤ out.new.spare + IMM_BYTES }
    ensures kept { KeepsRoom out.old out.new }
{
    if let Some(word) = word {
        put_u32(out, word);
    }
}

fn put_headers(packet: &Packet, out: &mut Bytes)
    requires msn { ForSome packet.now.aeth (λ a. a.msn < 2 ^ 24) }
    requires source { ForSome packet.now.deth (λ d. d.source < 2 ^ 24) }
    requires room { HEADERS_BYTES ≤ out.old.spare }
    ensures reth { IfSome packet.now.reth RethFits }
    ensures qkey { IfSome packet.now.deth (λ d. d.qkey < 2 ^ 32) }
    ensures imm { IfSome packet.now.imm (λ n. n < 2 ^ 32) }
    ensures ieth { IfSome packet.now.ieth (λ n. n < 2 ^ 32) }
    ensures bytes { out.new.bytes ≡ out.old.bytes ++ headers_bytes (zeros (content_of packet.now)) (content_of packet.now) }
    ensures spare { out.old.spare ≤ out.new.spare + HEADERS_BYTES }
    ensures kept { KeepsRoom out.old out.new }
{
    put_reth(packet.reth, out);
    put_aeth(packet.aeth, out);
    put_deth(packet.deth, out);
    put_word(packet.imm, out);
    put_word(packet.ieth, out);
}

fn put_pad(count: usize, out: &mut Bytes)
    requires few { count ≤ 3 }
    requires room { count ≤ out.old.spare }
    ensures bytes { out.new.bytes ≡ out.old.bytes ++ replicate count 0 }
    ensures kept { KeepsRoom out.old out.new }
{
    let zeros = [0; MOST_PAD];
    out.put_all(&zeros[..count]);
}

fn put_payload(packet: &Packet, out: &mut Bytes)
    requires { length packet.now.payload.bytes + 3 ≤ out.old.spare }
    ensures bytes { out.new.bytes ≡ out.old.bytes ++ payload_bytes (zeros (content_of packet.now)) (content_of packet.now) }
    ensures kept { KeepsRoom out.old out.new }
{
    out.put_all(packet.payload.as_slice());
    put_pad(pad_of(packet.payload.len()), out);
}

fn put_packet(packet: &Packet, out: &mut Bytes)
    requires packet { IsPacketValue (content_of packet.now) }
    requires room { length packet.now.payload.bytes + OVERHEAD ≤ out.old.spare }
    ensures fits { ContentFits (content_of packet.now) }
    ensures bytes { out.new.bytes ≡ out.old.bytes ++ bytes_of (content_of packet.now) }
    ensures kept { KeepsRoom out.old out.new }
{
    put_bth(packet, out);
    put_headers(packet, out);
    put_payload(packet, out);
}

/// The bytes of a packet whose opcode is known, which has the headers of that opcode and no others, whose numbers of
/// 24 bits are such numbers, and whose payload has at most `PACKET_PAYLOAD` bytes, and none where the opcode has no
/// payload. A packet that `decode` gave is such a packet.
///
/// The pad is the least that fills the payload up to a multiple of 4, and its bytes are 0; so are all reserved bits.
pub fn encode(alloc: Global, packet: &Packet) -> Result<Bytes, AllocError>
    requires { IsPacketValue (content_of packet.now) }
    ensures bytes { IfOk result (λ out. out.bytes ≡ bytes_of (content_of packet.now)) }
    ensures packet { IfOk result (λ out. IsPacket out.bytes (content_of packet.now)) }
{
    let mut out = Bytes::with_room(alloc, packet.payload.len() + OVERHEAD)?;
    put_packet(packet, &mut out);
    Ok(out)
}

/// The same bytes, into a buffer that is empty and has spare for any packet. It takes no memory.
pub fn encode_into(packet: &Packet, out: &mut Bytes)
    requires packet { IsPacketValue (content_of packet.now) }
    requires empty { out.old.bytes ≡ [] }
    requires room { PACKET_BYTES ≤ out.old.spare }
    ensures bytes { out.new.bytes ≡ bytes_of (content_of packet.now) }
    ensures packet { IsPacket out.new.bytes (content_of packet.now) }
    ensures spare { out.old.spare ≤ out.new.spare + length (bytes_of (content_of packet.now)) }
{
    put_packet(packet, out);
}
