//! The table of opcodes: what each is called, and which headers stand behind its BTH.

ghost use Rattle.std.specs.Prelude.{◌≡◌, Some};
ghost use Rattle.uv_packet.specs.Opcodes.{headers_for, opcode_number, opcode_of};

use crate::headers::{Headers, PLAIN};

/// An opcode, with the name and the number of IBA volume 1, 9.2.1, and of `rdma/ib_pack.h` in Linux. Those of the
/// reliable connection have a name without a service. Atomics, flushes and atomic writes are left out, and so are
/// the other services: this project's own.
#[derive(Clone, Copy, Debug, PartialEq, Eq)]
pub enum Opcode {
    /// 0x00, `SEND First`.
    SendFirst,
    /// 0x01, `SEND Middle`.
    SendMiddle,
    /// 0x02, `SEND Last`.
    SendLast,
    /// 0x03, `SEND Last with Immediate`.
    SendLastWithImmediate,
    /// 0x04, `SEND Only`.
    SendOnly,
    /// 0x05, `SEND Only with Immediate`.
    SendOnlyWithImmediate,
    /// 0x06, `RDMA WRITE First`.
    WriteFirst,
    /// 0x07, `RDMA WRITE Middle`.
    WriteMiddle,
    /// 0x08, `RDMA WRITE Last`.
    WriteLast,
    /// 0x09, `RDMA WRITE Last with Immediate`.
    WriteLastWithImmediate,
    /// 0x0a, `RDMA WRITE Only`.
    WriteOnly,
    /// 0x0b, `RDMA WRITE Only with Immediate`.
    WriteOnlyWithImmediate,
    /// 0x0c, `RDMA READ Request`.
    ReadRequest,
    /// 0x0d, `RDMA READ response First`.
    ReadResponseFirst,
    /// 0x0e, `RDMA READ response Middle`.
    ReadResponseMiddle,
    /// 0x0f, `RDMA READ response Last`.
    ReadResponseLast,
    /// 0x10, `RDMA READ response Only`.
    ReadResponseOnly,
    /// 0x11, `Acknowledge`.
    Acknowledge,
    /// 0x16, `SEND Last with Invalidate`.
    SendLastWithInvalidate,
    /// 0x17, `SEND Only with Invalidate`.
    SendOnlyWithInvalidate,
    /// 0x64, `SEND Only` of the unreliable datagram service.
    UdSendOnly,
    /// 0x65, `SEND Only with Immediate` of the unreliable datagram service.
    UdSendOnlyWithImmediate,
}

impl Opcode {
    /// Its number, which is that of no other.
    #[tactic(auto, unfolding(crate::specs::Opcodes::opcode_of))]
    pub fn number(self) -> u8
        ensures number { result ≡ opcode_number self }
        ensures alone { opcode_of result ≡ Some self }
    {
        match self {
            Opcode::SendFirst => 0x00,
            Opcode::SendMiddle => 0x01,
            Opcode::SendLast => 0x02,
            Opcode::SendLastWithImmediate => 0x03,
            Opcode::SendOnly => 0x04,
            Opcode::SendOnlyWithImmediate => 0x05,
            Opcode::WriteFirst => 0x06,
            Opcode::WriteMiddle => 0x07,
            Opcode::WriteLast => 0x08,
            Opcode::WriteLastWithImmediate => 0x09,
            Opcode::WriteOnly => 0x0a,
            Opcode::WriteOnlyWithImmediate => 0x0b,
            Opcode::ReadRequest => 0x0c,
            Opcode::ReadResponseFirst => 0x0d,
            Opcode::ReadResponseMiddle => 0x0e,
            Opcode::ReadResponseLast => 0x0f,
            Opcode::ReadResponseOnly => 0x10,
            Opcode::Acknowledge => 0x11,
            Opcode::SendLastWithInvalidate => 0x16,
            Opcode::SendOnlyWithInvalidate => 0x17,
            Opcode::UdSendOnly => 0x64,
            Opcode::UdSendOnlyWithImmediate => 0x65,
        }
    }

    /// The opcode of a number, if there is one.
    #[tactic(auto, unfolding(crate::specs::Opcodes::opcode_of))]
    pub fn from_number(number: u8) -> Option<Opcode>
        ensures { result ≡ opcode_of number }
    {
        match number {
            0x00 => Some(Opcode::SendFirst),
            0x01 => Some(Opcode::SendMiddle),
            0x02 => Some(Opcode::SendLast),
            0x03 => Some(Opcode::SendLastWithImmediate),
            0x04 => Some(Opcode::SendOnly),
            0x05 => Some(Opcode::SendOnlyWithImmediate),
            0x06 => Some(Opcode::WriteFirst),
            0x07 => Some(Opcode::WriteMiddle),
            0x08 => Some(Opcode::WriteLast),
            0x09 => Some(Opcode::WriteLastWithImmediate),
            0x0a => Some(Opcode::WriteOnly),
            0x0b => Some(Opcode::WriteOnlyWithImmediate),
            0x0c => Some(Opcode::ReadRequest),
            0x0d => Some(Opcode::ReadResponseFirst),
            0x0e => Some(Opcode::ReadResponseMiddle),
            0x0f => Some(Opcode::ReadResponseLast),
            0x10 => Some(Opcode::ReadResponseOnly),
            0x11 => Some(Opcode::Acknowledge),
            0x16 => Some(Opcode::SendLastWithInvalidate),
            0x17 => Some(Opcode::SendOnlyWithInvalidate),
            0x64 => Some(Opcode::UdSendOnly),
            0x65 => Some(Opcode::UdSendOnlyWithImmediate),
            _ => None,
        }
    }

    /// The headers behind its BTH, and whether it has a payload.
    pub fn headers(self) -> Headers
        ensures { result ≡ headers_for self }
    {
        match self {
            Opcode::SendFirst
            | Opcode::SendMiddle
            | Opcode::SendLast
            | Opcode::SendOnly
            | Opcode::WriteMiddle
            | Opcode::WriteLast
            | Opcode::ReadResponseMiddle => PLAIN,
            Opcode::SendLastWithImmediate
            | Opcode::SendOnlyWithImmediate
            | Opcode::WriteLastWithImmediate => Headers { imm: true, ..PLAIN },
            Opcode::WriteFirst | Opcode::WriteOnly => Headers {
                reth: true,
                ..PLAIN
            },
            Opcode::WriteOnlyWithImmediate => Headers {
                reth: true,
                imm: true,
                ..PLAIN
            },
            Opcode::ReadRequest => Headers {
                reth: true,
                payload: false,
                ..PLAIN
            },
            Opcode::ReadResponseFirst | Opcode::ReadResponseLast | Opcode::ReadResponseOnly => {
                Headers {
                    aeth: true,
                    ..PLAIN
                }
            }
            Opcode::Acknowledge => Headers {
                aeth: true,
                payload: false,
                ..PLAIN
            },
            Opcode::SendLastWithInvalidate | Opcode::SendOnlyWithInvalidate => {
                Headers {
                    ieth: true,
                    ..PLAIN
                }
            }
            Opcode::UdSendOnly => Headers {
                deth: true,
                ..PLAIN
            },
            Opcode::UdSendOnlyWithImmediate => Headers {
                deth: true,
                imm: true,
                ..PLAIN
            },
        }
    }
}
