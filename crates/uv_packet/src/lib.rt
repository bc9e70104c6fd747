//! Packets: the transport headers of InfiniBand, as RoCE carries them, with their payload, as bytes and as a value.
//!
//! The layer above reads a frame by `decode`, whose clauses say which of five faults refuses the bytes and which
//! packet they are otherwise, and writes one by `encode` or, without memory, by `encode_into`. `refusal` and `dest_at`
//! say of a frame that goes to no queue pair what is wrong with it, or where it goes, without memory. `headers_of` of
//! `specs/Opcodes.antt` is the table of opcodes, `IsPacket` of `specs/Packets.antt` the grammar, `bytes_of` the one way
//! of writing in it, `refusal_of` of `specs/Refusal.antt` the order of the faults, and `laws` says that reading is the
//! grammar's inverse.
#![tactic(auto)]

mod bits;
mod decoding;
mod encoding;
mod fault;
mod fields;
mod headers;
mod laws;
mod opcode;
mod packet;
mod refusing;
mod syndrome;
#[cfg(test)]
mod tests;

pub use decoding::decode;
pub use encoding::{encode, encode_into};
pub use fault::PacketFault;
pub use headers::Headers;
pub use laws::{
    accepted_bytes_are_a_packet, dest_is_the_packets, packet_has_one_reading, packet_is_read,
    pad_is_the_least, syndromes_tell_what_they_mean, written_packet_is_read_back,
};
pub use opcode::Opcode;
pub use packet::{
    AETH_BYTES, Aeth, BTH_BYTES, DETH_BYTES, Deth, HEADERS_BYTES, IETH_BYTES, IMM_BYTES, OVERHEAD,
    Packet, RETH_BYTES, Reth,
};
pub use refusing::{dest_at, refusal};
pub use syndrome::{
    ACK, NAK_ACCESS, NAK_INVALID, NAK_OPERATION, NAK_SEQUENCE, RNR, Syndrome, told_by,
};
