//! Packets and their headers.

use uv_num::{Bytes, PACKET_BYTES, PACKET_PAYLOAD};

/// The bytes of a base transport header, which begins every packet: IBA volume 1, 9.2. The same is `RXE_BTH_BYTES` of
/// `enum rxe_hdr_length` in Linux's `rxe_hdr.h`, which has the size of each header under such a name.
pub const BTH_BYTES: usize = 12;

/// The bytes of an RDMA header: IBA volume 1, 9.3.
pub const RETH_BYTES: usize = 16;

/// The bytes of an acknowledgement header: IBA volume 1, 9.3.
pub const AETH_BYTES: usize = 4;

/// The bytes of a datagram header: IBA volume 1, 9.3.
pub const DETH_BYTES: usize = 8;

/// The bytes of an immediate: IBA volume 1, 9.3.
pub const IMM_BYTES: usize = 4;

/// The bytes of an invalidate header: IBA volume 1, 9.3.
pub const IETH_BYTES: usize = 4;

/// The bytes of all headers that may stand between a BTH and a payload, together: no packet has more.
pub const HEADERS_BYTES: usize = RETH_BYTES + AETH_BYTES + DETH_BYTES + IMM_BYTES + IETH_BYTES;

/// The bytes that are always room enough for the headers and the pad of a packet.
pub const OVERHEAD: usize = PACKET_BYTES - PACKET_PAYLOAD;

const _: () = prove!(BTH_BYTES == 12);

const _: () = prove!(RETH_BYTES == 16);

const _: () = prove!(HEADERS_BYTES == 36);

const _: () = prove!(OVERHEAD == 64);

/// An RDMA extended transport header: what a write or a read is about.
#[derive(Clone, Copy, Debug, PartialEq, Eq)]
pub struct Reth {
    /// The place in the remote region at which it begins, `VA`.
    pub at: u64,
    /// The key of the remote region or window, `R_Key`.
    pub key: u32,
    /// How many bytes the whole message has, `DMALen`.
    pub length: u32,
}

/// An acknowledge extended transport header: what a responder answers.
#[derive(Clone, Copy, Debug, PartialEq, Eq)]
pub struct Aeth {
    /// What kind of answer it is, and its code.
    pub syndrome: u8,
    /// The message sequence number, of 24 bits.
    pub msn: u32,
}

/// A datagram extended transport header: who sends, and by which right.
#[derive(Clone, Copy, Debug, PartialEq, Eq)]
pub struct Deth {
    /// The key of the receiving queue pair, `Q_Key`.
    pub qkey: u32,
    /// The number of the sending queue pair, of 24 bits, `SrcQP`.
    pub source: u32,
}

/// A packet. Which headers stand behind the BTH is told by the opcode; that a packet has these and no others, and
/// that its numbers fit, is asked by `encode`, and so for every packet that `decode` gives.
#[derive(Debug, Drop)]
pub struct Packet {
    /// The number of the opcode: see `Opcode`.
    pub opcode: u8,
    /// Whether the receiver is to be told by an event, `SE`.
    pub solicited: bool,
    /// Whether the path has migrated, `M`.
    pub migrated: bool,
    /// The partition key, `P_Key`.
    pub pkey: u16,
    /// The number of the queue pair that it goes to, of 24 bits, `DestQP`.
    pub dest: u32,
    /// Whether an acknowledgement is asked for, `A`.
    pub ack: bool,
    /// The packet sequence number, of 24 bits, `PSN`.
    pub psn: u32,
    /// The RDMA header.
    pub reth: Option<Reth>,
    /// The acknowledgement header.
    pub aeth: Option<Aeth>,
    /// The immediate, `ImmDt`.
    pub imm: Option<u32>,
    /// The key that is invalidated, the `R_Key` of an `IETH`.
    pub ieth: Option<u32>,
    /// The datagram header.
    pub deth: Option<Deth>,
    /// The payload, without its pad.
    pub payload: Bytes,
}
