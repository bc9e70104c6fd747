//! Why bytes are no packet.

ghost use Rattle.std.specs.Prelude.{◌≡◌};
ghost use Rattle.uv_packet.specs.Refusal.{fault_name};

use thiserror::Error;

/// Why bytes are not decoded. Linux drops a frame of such bytes (`rxe_recv.c`, `rxe_rcv`, and `hdr_check` for the version),
/// but for those of `Length`, which it doesn't look for: only a write that has another length than it should is refused
/// by its responder (`rxe_resp.c`, `check_rkey`). The names, their order and `Length` are this project's own.
#[derive(Clone, Copy, Debug, PartialEq, Eq, Error)]
pub enum PacketFault {
    /// There are fewer bytes than the BTH has, or than the headers of a known opcode.
    #[error("there are fewer bytes than headers")]
    Short,
    /// The version of the transport headers (TVer) is not 0.
    #[error("the version of the headers is not 0")]
    Version,
    /// The opcode is not in the table.
    #[error("the opcode is not known")]
    Opcode,
    /// There are more bytes of pad than bytes behind the headers.
    #[error("there is more pad than bytes behind the headers")]
    Pad,
    /// The bytes behind the headers are no multiple of 4, or are a payload of more than `PACKET_PAYLOAD` bytes, or
    /// stand where the opcode has no payload.
    #[error("the bytes behind the headers are no payload")]
    Length,
    /// Memory ran out. The bytes are those of a packet.
    #[error("memory ran out")]
    NoMemory,
}

impl PacketFault {
    /// The word that reports print for it. This project's own.
    pub fn name(self) -> &'static str
        ensures { result.now ≡ fault_name self }
    {
        match self {
            PacketFault::Short => "Short",
            PacketFault::Version => "Version",
            PacketFault::Opcode => "Opcode",
            PacketFault::Pad => "Pad",
            PacketFault::Length => "Length",
            PacketFault::NoMemory => "NoMemory",
        }
    }
}
