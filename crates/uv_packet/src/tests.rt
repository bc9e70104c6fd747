ghost use Rattle.std.specs.Prelude.{◌≡◌, ◌≤◌, length, IfOk};
ghost use Rattle.uv_packet.specs.Packets.{content_of, IsPacketValue};

use super::*;
use std::alloc::Global;
use std::test::Fail;
use uv_num::{Bytes, PACKET_BYTES};

/// Two zero bytes to the last address of a region, for queue pair 17.
const WRITE_ONLY: [u8; 32] = [
    0x0a, 0x20, 0xff, 0xff, 0x00, 0x00, 0x00, 0x11, 0x80, 0x00, 0x00, 0x00, 0xff, 0xff, 0xff, 0xff,
    0xff, 0xff, 0xff, 0xff, 0x00, 0x00, 0x02, 0x00, 0x00, 0x00, 0x00, 0x02, 0x00, 0x00, 0x00, 0x00,
];

/// What bytes are refused with.
fn refused(alloc: Global, bytes: &[u8]) -> Option<PacketFault> {
    decode(alloc, bytes).err()
}

/// So many bytes, of which the first are this opcode and these flags.
fn frame(alloc: Global, opcode: u8, flags: u8, len: usize) -> Result<Vec<u8>, Fail> {
    let mut bytes = Vec::new(alloc);
    bytes.extend_from_slice(&[opcode, flags, 0xff, 0xff, 0, 0, 0, 0x10, 0, 0, 0, 0])?;
    for _ in 12..len {
        bytes.push(0xa5)?;
    }
    bytes.truncate(len);
    Ok(bytes)
}

/// The bytes that the packet of these bytes is written as.
fn written(alloc: Global, bytes: &[u8]) -> Result<Bytes, Fail> {
    let packet = decode(alloc, bytes)?;
    Ok(encode(alloc, &packet)?)
}

/// The same bytes, put into a buffer.
fn put(alloc: Global, bytes: &[u8]) -> Result<Bytes, Fail> {
    let packet = decode(alloc, bytes)?;
    let mut out = Bytes::with_room(alloc, PACKET_BYTES)?;
    encode_into(&packet, &mut out);
    Ok(out)
}

/// What the packet of these bytes says.
fn text(alloc: Global, bytes: &[u8]) -> Result<String, Fail> {
    let packet = decode(alloc, bytes)?;
    Ok(format!(in alloc; "{packet:?}")?)
}

/// A send of so many bytes.
fn send_only(alloc: Global, count: usize) -> Result<Packet, Fail>
    ensures { IfOk result (λ p. length p.payload.bytes ≤ 4096 → IsPacketValue (content_of p)) }
{
    let payload = Bytes::from_vec(vec![in alloc; 0x5a; count]?);
    Ok(Packet {
        opcode: Opcode::SendOnly.number(),
        solicited: false,
        migrated: false,
        pkey: 0xffff,
        dest: 17,
        ack: false,
        psn: 0,
        reth: None,
        aeth: None,
        imm: None,
        ieth: None,
        deth: None,
        payload,
    })
}

/// A packet that was written, read again: by the contracts of the two calls alone it says what it said.
fn sent(alloc: Global, packet: &Packet) -> Result<Packet, Fail>
    requires { IsPacketValue (content_of packet.now) }
    ensures { IfOk result (λ read. content_of read ≡ content_of packet.now) }
{
    let bytes = encode(alloc, packet)?;
    Ok(decode(alloc, bytes.as_slice())?)
}

/// Bytes of packets, and what these say: an acknowledgement, a refusal for want of access, a write and a send, and
/// then packets with every other header, each field with digits of its own.
const PACKETS: [(&[u8], &str); 7] = [
    (
        &[
            0x11, 0x00, 0xff, 0xff, 0x00, 0x00, 0x00, 0x10, 0x00, 0x00, 0x00, 0x03, 0x1f, 0x00,
            0x00, 0x01,
        ],
        "Packet { opcode: 17, solicited: false, migrated: false, pkey: 65535, dest: 16, ack: false, psn: 3, \
         reth: None, aeth: Some(Aeth { syndrome: 31, msn: 1 }), imm: None, ieth: None, deth: None, \
         payload: Bytes { items: [] } }",
    ),
    (
        &[
            0x11, 0x00, 0xff, 0xff, 0x00, 0x00, 0x00, 0x10, 0x00, 0x00, 0x00, 0x04, 0x62, 0x00,
            0x00, 0x01,
        ],
        "Packet { opcode: 17, solicited: false, migrated: false, pkey: 65535, dest: 16, ack: false, psn: 4, \
         reth: None, aeth: Some(Aeth { syndrome: 98, msn: 1 }), imm: None, ieth: None, deth: None, \
         payload: Bytes { items: [] } }",
    ),
    (
        &WRITE_ONLY,
        "Packet { opcode: 10, solicited: false, migrated: false, pkey: 65535, dest: 17, ack: true, psn: 0, \
         reth: Some(Reth { at: 18446744073709551615, key: 512, length: 2 }), aeth: None, imm: None, ieth: None, \
         deth: None, payload: Bytes { items: [0, 0] } }",
    ),
    (
        &[
            0x04, 0x00, 0xff, 0xff, 0x00, 0x00, 0x00, 0x11, 0x80, 0x00, 0x00, 0x00, 0xaa, 0xbb,
            0xcc, 0xdd,
        ],
        "Packet { opcode: 4, solicited: false, migrated: false, pkey: 65535, dest: 17, ack: true, psn: 0, \
         reth: None, aeth: None, imm: None, ieth: None, deth: None, \
         payload: Bytes { items: [170, 187, 204, 221] } }",
    ),
    (
        &[
            0x0b, 0xc0, 0x12, 0x34, 0x00, 0xab, 0xcd, 0xef, 0x80, 0x65, 0x43, 0x21, 0x01, 0x02,
            0x03, 0x04, 0x05, 0x06, 0x07, 0x08, 0x11, 0x12, 0x13, 0x14, 0x21, 0x22, 0x23, 0x24,
            0x31, 0x32, 0x33, 0x34, 0x41, 0x42, 0x43, 0x44,
        ],
        "Packet { opcode: 11, solicited: true, migrated: true, pkey: 4660, dest: 11259375, ack: true, psn: 6636321, \
         reth: Some(Reth { at: 72623859790382856, key: 286397204, length: 555885348 }), aeth: None, \
         imm: Some(825373492), ieth: None, deth: None, payload: Bytes { items: [65, 66, 67, 68] } }",
    ),
    (
        &[
            0x65, 0x30, 0x00, 0x01, 0x00, 0x00, 0x00, 0x11, 0x00, 0x00, 0x00, 0x07, 0x80, 0x01,
            0x02, 0x03, 0x00, 0xfe, 0xdc, 0xba, 0x0a, 0x0b, 0x0c, 0x0d, 0x5a, 0x00, 0x00, 0x00,
        ],
        "Packet { opcode: 101, solicited: false, migrated: false, pkey: 1, dest: 17, ack: false, psn: 7, \
         reth: None, aeth: None, imm: Some(168496141), ieth: None, \
         deth: Some(Deth { qkey: 2147549699, source: 16702650 }), payload: Bytes { items: [90] } }",
    ),
    (
        &[
            0x17, 0x80, 0xff, 0xff, 0x00, 0x00, 0x00, 0x11, 0x00, 0xff, 0xff, 0xff, 0x00, 0x00,
            0x02, 0x00,
        ],
        "Packet { opcode: 23, solicited: true, migrated: false, pkey: 65535, dest: 17, ack: false, psn: 16777215, \
         reth: None, aeth: None, imm: None, ieth: Some(512), deth: None, payload: Bytes { items: [] } }",
    ),
];

#[test]
fn packets_are_read(rt: HostRuntime) -> Result<(), Fail> {
    for (bytes, said) in PACKETS.iter() {
        assert_eq!(rt; text(rt.alloc(), bytes)?.as_str(), *said);
    }
    Ok(())
}

#[test]
fn packets_are_written(rt: HostRuntime) -> Result<(), Fail> {
    for (bytes, said) in PACKETS.iter() {
        assert_eq!(rt; written(rt.alloc(), bytes)?.as_slice(), *bytes, "{said}");
        assert_eq!(rt; put(rt.alloc(), bytes)?.as_slice(), *bytes, "{said}");
    }
    Ok(())
}

#[test]
fn each_fault_refuses_alone(rt: HostRuntime) {
    let rows: [(&[u8], PacketFault); 5] = [
        (&[0x0a, 0x20, 0xff, 0xff], PacketFault::Short),
        (
            &[
                0x11, 0x01, 0xff, 0xff, 0x00, 0x00, 0x00, 0x10, 0x00, 0x00, 0x00, 0x03, 0x1f, 0x00,
                0x00, 0x01,
            ],
            PacketFault::Version,
        ),
        (
            &[0x12, 0, 0, 0, 0, 0, 0, 0, 0, 0, 0, 0],
            PacketFault::Opcode,
        ),
        (
            &[0x04, 0x30, 0, 0, 0, 0, 0, 0, 0, 0, 0, 0],
            PacketFault::Pad,
        ),
        (
            &[
                0x11, 0x00, 0xff, 0xff, 0x00, 0x00, 0x00, 0x10, 0x00, 0x00, 0x00, 0x03, 0x1f, 0x00,
                0x00, 0x01, 0x00,
            ],
            PacketFault::Length,
        ),
    ];
    for (bytes, fault) in rows.iter() {
        assert_eq!(rt; refused(rt.alloc(), bytes), Some(*fault));
    }
}

#[test]
fn the_first_fault_that_applies_answers(rt: HostRuntime) -> Result<(), Fail> {
    // Opcode, flags, and how many bytes there are.
    let rows = [
        // A known opcode without its headers, of a wrong version; an unknown one has no headers to lack.
        (0x0a, 0x01, 27, PacketFault::Short),
        (0x12, 0x01, 11, PacketFault::Short),
        (0x12, 0x01, 12, PacketFault::Version),
        (0x12, 0x0f, 12, PacketFault::Version),
        // An unknown opcode, with pad and without a byte behind.
        (0x12, 0x30, 12, PacketFault::Opcode),
        (0xff, 0x00, 13, PacketFault::Opcode),
        // More pad than bytes, which are no multiple of 4, or where the opcode has no payload.
        (0x04, 0x30, 14, PacketFault::Pad),
        (0x11, 0x10, 16, PacketFault::Pad),
        // As many bytes as pad, but no multiple of 4.
        (0x04, 0x30, 15, PacketFault::Length),
        (0x04, 0x00, 14, PacketFault::Length),
        // A payload where the opcode has none, though it is all pad but one byte.
        (0x11, 0x30, 20, PacketFault::Length),
        (0x0c, 0x00, 32, PacketFault::Length),
        // More than 4,096 bytes of payload, with pad and without.
        (0x04, 0x30, 4_112, PacketFault::Length),
        (0x04, 0x00, 8_204, PacketFault::Length),
    ];
    for (opcode, flags, len, fault) in rows.iter() {
        let bytes = frame(rt.alloc(), *opcode, *flags, *len)?;
        assert_eq!(rt;
            refused(rt.alloc(), &bytes),
            Some(*fault),
            "{opcode} {flags} {len}"
        );
    }
    Ok(())
}

#[test]
fn a_packet_cut_short_is_refused(rt: HostRuntime) {
    // The headers end at 28, and two bytes are payload and two are pad.
    for len in 0..28 {
        assert_eq!(rt;
            refused(rt.alloc(), &WRITE_ONLY[..len]),
            Some(PacketFault::Short)
        );
    }
    for len in 28..30 {
        assert_eq!(rt;
            refused(rt.alloc(), &WRITE_ONLY[..len]),
            Some(PacketFault::Pad)
        );
    }
    for len in 30..32 {
        assert_eq!(rt;
            refused(rt.alloc(), &WRITE_ONLY[..len]),
            Some(PacketFault::Length)
        );
    }
}

#[test]
fn what_is_reserved_is_ignored_and_written_as_zero(rt: HostRuntime) -> Result<(), Fail> {
    let filled = [
        0x64, 0x20, 0xff, 0xff, 0xff, 0x00, 0x00, 0x11, 0xff, 0x00, 0x00, 0x01, 0x00, 0x00, 0x00,
        0x05, 0xff, 0x00, 0x00, 0x10, 0x07, 0x08, 0xff, 0xff,
    ];
    let plain = [
        0x64, 0x20, 0xff, 0xff, 0x00, 0x00, 0x00, 0x11, 0x80, 0x00, 0x00, 0x01, 0x00, 0x00, 0x00,
        0x05, 0x00, 0x00, 0x00, 0x10, 0x07, 0x08, 0x00, 0x00,
    ];
    let said = text(rt.alloc(), &filled)?;
    assert_eq!(rt; said.as_str(), text(rt.alloc(), &plain)?.as_str());
    assert_eq!(rt; written(rt.alloc(), &filled)?.as_slice(), plain.as_slice());
    Ok(())
}

#[test]
fn a_payload_is_filled_up_by_the_least_pad(rt: HostRuntime) -> Result<(), Fail> {
    // How many bytes of payload, the flags, and how many bytes the packet has.
    let rows = [
        (0, 0x00, 12),
        (1, 0x30, 16),
        (2, 0x20, 16),
        (3, 0x10, 16),
        (4, 0x00, 16),
        (5, 0x30, 20),
        (4_093, 0x30, 4_108),
        (4_096, 0x00, 4_108),
    ];
    for (count, flags, len) in rows.iter() {
        let packet = send_only(rt.alloc(), *count)?;
        assert!(rt; packet.payload.len() <= 4_096);
        let written = encode(rt.alloc(), &packet)?;
        assert_eq!(rt; written.len(), *len, "{count}");
        assert_eq!(rt; written.as_slice().get(1), Some(flags), "{count}");
        let read = sent(rt.alloc(), &packet)?;
        assert_eq!(rt; read.payload.as_slice(), packet.payload.as_slice());
    }
    Ok(())
}

/// The headers that a row of the table says: R, A and D for an RDMA, an acknowledgement and a datagram header, I for
/// an immediate, V for an invalidate header, and P for a payload.
fn said(row: &str) -> Headers {
    Headers {
        reth: row.contains('R'),
        aeth: row.contains('A'),
        deth: row.contains('D'),
        imm: row.contains('I'),
        ieth: row.contains('V'),
        payload: row.contains('P'),
    }
}

/// Opcode, number, headers, and how many bytes stand in front of the payload.
const TABLE: [(Opcode, u8, &str, usize); 22] = [
    (Opcode::SendFirst, 0x00, "P", 12),
    (Opcode::SendMiddle, 0x01, "P", 12),
    (Opcode::SendLast, 0x02, "P", 12),
    (Opcode::SendLastWithImmediate, 0x03, "IP", 16),
    (Opcode::SendOnly, 0x04, "P", 12),
    (Opcode::SendOnlyWithImmediate, 0x05, "IP", 16),
    (Opcode::WriteFirst, 0x06, "RP", 28),
    (Opcode::WriteMiddle, 0x07, "P", 12),
    (Opcode::WriteLast, 0x08, "P", 12),
    (Opcode::WriteLastWithImmediate, 0x09, "IP", 16),
    (Opcode::WriteOnly, 0x0a, "RP", 28),
    (Opcode::WriteOnlyWithImmediate, 0x0b, "RIP", 32),
    (Opcode::ReadRequest, 0x0c, "R", 28),
    (Opcode::ReadResponseFirst, 0x0d, "AP", 16),
    (Opcode::ReadResponseMiddle, 0x0e, "P", 12),
    (Opcode::ReadResponseLast, 0x0f, "AP", 16),
    (Opcode::ReadResponseOnly, 0x10, "AP", 16),
    (Opcode::Acknowledge, 0x11, "A", 16),
    (Opcode::SendLastWithInvalidate, 0x16, "VP", 16),
    (Opcode::SendOnlyWithInvalidate, 0x17, "VP", 16),
    (Opcode::UdSendOnly, 0x64, "DP", 20),
    (Opcode::UdSendOnlyWithImmediate, 0x65, "DIP", 24),
];

#[test]
fn the_table_has_these_opcodes_and_no_others(rt: HostRuntime) -> Result<(), Fail> {
    for (opcode, number, row, _) in TABLE.iter() {
        assert_eq!(rt; opcode.number(), *number);
        assert_eq!(rt; Opcode::from_number(*number), Some(*opcode));
        assert_eq!(rt; opcode.headers(), said(row), "{number}");
    }
    let known = (0..=u8::MAX).filter(|number| Opcode::from_number(*number).is_some());
    assert_eq!(rt; known.count(), TABLE.len());
    Ok(())
}

#[test]
fn each_opcode_is_read_and_written(rt: HostRuntime) -> Result<(), Fail> {
    for (_, number, row, from) in TABLE.iter() {
        for len in 0..*from {
            let bytes = frame(rt.alloc(), *number, 0x00, len)?;
            assert_eq!(rt;
                refused(rt.alloc(), &bytes),
                Some(PacketFault::Short),
                "{number}"
            );
        }
        let bytes = frame(rt.alloc(), *number, 0x00, *from)?;
        let out = written(rt.alloc(), &bytes)?;
        assert_eq!(rt; out.len(), *from, "{number}");
        let said = text(rt.alloc(), &bytes)?;
        assert_eq!(rt; text(rt.alloc(), out.as_slice())?.as_str(), said.as_str());
        let longer = frame(rt.alloc(), *number, 0x20, *from + 4)?;
        let fault = if row.contains('P') {
            None
        } else {
            Some(PacketFault::Length)
        };
        assert_eq!(rt; refused(rt.alloc(), &longer), fault, "{number}");
    }
    Ok(())
}

#[test]
fn a_fault_has_a_word_and_a_text(rt: HostRuntime) -> Result<(), Fail> {
    let rows = [
        (PacketFault::Short, "Short"),
        (PacketFault::Version, "Version"),
        (PacketFault::Opcode, "Opcode"),
        (PacketFault::Pad, "Pad"),
        (PacketFault::Length, "Length"),
        (PacketFault::NoMemory, "NoMemory"),
    ];
    for (fault, name) in rows.iter() {
        assert_eq!(rt; fault.name(), *name);
    }
    let text = format!(in rt.alloc(); "{}", PacketFault::Version)?;
    assert_eq!(rt; text.as_str(), "the version of the headers is not 0");
    Ok(())
}

#[test]
fn a_frame_tells_where_it_goes(rt: HostRuntime) {
    assert_eq!(rt; refusal(&WRITE_ONLY), None);
    assert_eq!(rt; dest_at(&WRITE_ONLY), 17);
    assert_eq!(rt; refusal(&WRITE_ONLY[..11]), Some(PacketFault::Short));
}
