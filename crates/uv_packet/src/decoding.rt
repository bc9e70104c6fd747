//! From bytes to a packet.

ghost use Rattle.std.specs.Prelude.{◌≡◌, ◌≤◌, ◌+◌, length, IfOk, IfErr, MatchResult, Some, None, Err};
ghost use Rattle.uv_packet.specs.declared.fault.PacketFault.{PacketFault};
ghost use Rattle.uv_packet.specs.declared.fault.PacketFault.TheVariants.{NoMemory};
ghost use Rattle.uv_packet.specs.declared.packet.TheConstants.{BTH_BYTES};
ghost use Rattle.uv_packet.specs.Packets.{Content, content_of, IsPacket};
ghost use Rattle.uv_packet.specs.Places.{payload_from};
ghost use Rattle.uv_packet.specs.Reading.{ack_at, aeth_in, content_in, content_at, deth_in, headers_at, ieth_in, imm_in, migrated_at, pad_at, payload_in, rest_in, reth_in, solicited_at};
ghost use Rattle.uv_packet.specs.Refusal.{packet_of, refusal_of};

use crate::bits::{ACK, MIGRATED, SOLICITED};
use crate::fault::PacketFault;
use crate::fields::{u16_at, u24_at, u32_at, u64_at};
use crate::headers::Headers;
use crate::packet::{Aeth, Deth, Packet, Reth};
use crate::refusing::{dest_at, headers_at, pad_at, refusal};
use std::alloc::{AllocError, Global};
use uv_num::Bytes;

fn solicited_at(bytes: &[u8]) -> bool
    requires { BTH_BYTES ≤ length bytes.now }
    ensures { result ≡ solicited_at bytes.now }
{
    bytes[1] / SOLICITED % 2 == 1
}

fn migrated_at(bytes: &[u8]) -> bool
    requires { BTH_BYTES ≤ length bytes.now }
    ensures { result ≡ migrated_at bytes.now }
{
    bytes[1] / MIGRATED % 2 == 1
}

fn ack_at(bytes: &[u8]) -> bool
    requires { BTH_BYTES ≤ length bytes.now }
    ensures { result ≡ ack_at bytes.now }
{
    bytes[8] / ACK % 2 == 1
}

fn reth_in(headers: Headers, bytes: &[u8]) -> Option<Reth>
    requires { payload_from headers ≤ length bytes.now }
    ensures { result ≡ reth_in headers bytes.now }
{
    if !headers.reth {
        return None;
    }
    let from = headers.reth_from();
    Some(Reth {
        at: u64_at(bytes, from),
        key: u32_at(bytes, from + 8),
        length: u32_at(bytes, from + 12),
    })
}

fn aeth_in(headers: Headers, bytes: &[u8]) -> Option<Aeth>
    requires { payload_from headers ≤ length bytes.now }
    ensures { result ≡ aeth_in headers bytes.now }
{
    if !headers.aeth {
        return None;
    }
    let from = headers.aeth_from();
    Some(Aeth {
        syndrome: bytes[from],
        msn: u24_at(bytes, from + 1),
    })
}

fn deth_in(headers: Headers, bytes: &[u8]) -> Option<Deth>
    requires { payload_from headers ≤ length bytes.now }
    ensures { result ≡ deth_in headers bytes.now }
{
    if !headers.deth {
        return None;
    }
    let from = headers.deth_from();
    Some(Deth {
        qkey: u32_at(bytes, from),
        source: u24_at(bytes, from + 5),
    })
}

fn imm_in(headers: Headers, bytes: &[u8]) -> Option<u32>
    requires { payload_from headers ≤ length bytes.now }
    ensures { result ≡ imm_in headers bytes.now }
{
    if !headers.imm {
        return None;
    }
    Some(u32_at(bytes, headers.imm_from()))
}

fn ieth_in(headers: Headers, bytes: &[u8]) -> Option<u32>
    requires { payload_from headers ≤ length bytes.now }
    ensures { result ≡ ieth_in headers bytes.now }
{
    if !headers.ieth {
        return None;
    }
    Some(u32_at(bytes, headers.ieth_from()))
}

fn payload_in(alloc: Global, headers: Headers, bytes: &[u8]) -> Result<Bytes, AllocError>
    requires bth { BTH_BYTES ≤ length bytes.now }
    requires headers { payload_from headers ≤ length bytes.now }
    requires padded { pad_at bytes.now ≤ rest_in headers bytes.now }
    ensures { IfOk result (λ payload. payload.bytes ≡ payload_in headers bytes.now) }
{
    let (_, rest) = bytes.split_at(headers.payload_from());
    let (payload, _) = rest.split_at(rest.len() - pad_at(bytes));
    Ok(Bytes::from_vec(Vec::from_slice(alloc, payload)?))
}

fn packet_in(alloc: Global, headers: Headers, bytes: &[u8]) -> Result<Packet, AllocError>
    requires bth { BTH_BYTES ≤ length bytes.now }
    requires headers { payload_from headers ≤ length bytes.now }
    requires padded { pad_at bytes.now ≤ rest_in headers bytes.now }
    ensures { IfOk result (λ packet. content_of packet ≡ content_in headers bytes.now) }
{
    let payload = payload_in(alloc, headers, bytes)?;
    Ok(Packet {
        opcode: bytes[0],
        solicited: solicited_at(bytes),
        migrated: migrated_at(bytes),
        pkey: u16_at(bytes, 2),
        dest: dest_at(bytes),
        ack: ack_at(bytes),
        psn: u24_at(bytes, 9),
        reth: reth_in(headers, bytes),
        aeth: aeth_in(headers, bytes),
        imm: imm_in(headers, bytes),
        ieth: ieth_in(headers, bytes),
        deth: deth_in(headers, bytes),
        payload,
    })
}

fn read_packet(alloc: Global, bytes: &[u8]) -> Result<Packet, PacketFault>
    ensures refused { (fault : PacketFault) → refusal_of bytes.now ≡ Some fault → result ≡ Err fault }
    ensures memory { refusal_of bytes.now ≡ None → IfErr result (λ fault. fault ≡ NoMemory) }
    ensures read { IfOk result (λ packet. packet_of bytes.now ≡ Some (content_of packet)) }
{
    if let Some(fault) = refusal(bytes) {
        return Err(fault);
    }
    packet_in(alloc, headers_at(bytes), bytes).map_err(|_| PacketFault::NoMemory)
}

/// The packet that bytes are, or the first of the five faults that they have, in the order of `PacketFault`. Bytes
/// that are refused take no memory, and else the payload alone takes some.
///
/// Reserved bits, reserved bytes and the values of the pad are not looked at, as in Linux. The fields are those of
/// IBA volume 1, 9.2 and 9.3.
pub fn decode(alloc: Global, bytes: &[u8]) -> Result<Packet, PacketFault>
    ensures refused { (fault : PacketFault) → refusal_of bytes.now ≡ Some fault → result ≡ Err fault }
    ensures memory { refusal_of bytes.now ≡ None → IfErr result (λ fault. fault ≡ NoMemory) }
    ensures read { IfOk result (λ packet. packet_of bytes.now ≡ Some (content_of packet)) }
    ensures packet { IfOk result (λ packet. IsPacket bytes.now (content_of packet)) }

    // A packet's bytes are that packet, unless memory runs out.
    ensures again { (p : Content) → IsPacket bytes.now p
        → MatchResult result (λ packet. content_of packet ≡ p) (λ fault. fault ≡ NoMemory) }
{
    read_packet(alloc, bytes)
}
