//! The headers that an opcode has, and where each begins in a packet.

ghost use Rattle.std.specs.Prelude.{◌≡◌};
ghost use Rattle.uv_packet.specs.Places.{aeth_from, bytes_if, deth_from, ieth_from, imm_from, payload_from, reth_from};

use crate::packet::{AETH_BYTES, BTH_BYTES, DETH_BYTES, IETH_BYTES, IMM_BYTES, RETH_BYTES};

/// The headers behind a BTH, which stand in the order of these fields, and whether a payload may stand behind them.
/// The table in `rxe_opcode.c` of Linux has the same by bits of `enum rxe_hdr_mask`, as `RXE_RETH_MASK` and `RXE_PAYLOAD_MASK`.
#[derive(Clone, Copy, Debug, PartialEq, Eq)]
pub struct Headers {
    /// An RDMA header.
    pub reth: bool,
    /// An acknowledgement header.
    pub aeth: bool,
    /// A datagram header.
    pub deth: bool,
    /// An immediate.
    pub imm: bool,
    /// An invalidate header.
    pub ieth: bool,
    /// A payload, which may be empty.
    pub payload: bool,
}

/// A payload alone.
pub const PLAIN: Headers = Headers {
    reth: false,
    aeth: false,
    deth: false,
    imm: false,
    ieth: false,
    payload: true,
};

fn bytes_if(has: bool, size: usize) -> usize
    ensures { result ≡ bytes_if has size }
{
    if has { size } else { 0 }
}

impl Headers {
    /// Where the RDMA header begins.
    pub(crate) fn reth_from(self) -> usize
        ensures { result ≡ reth_from self }
    {
        BTH_BYTES
    }

    /// Where the acknowledgement header begins.
    pub(crate) fn aeth_from(self) -> usize
        ensures { result ≡ aeth_from self }
    {
        self.reth_from() + bytes_if(self.reth, RETH_BYTES)
    }

    /// Where the datagram header begins.
    pub(crate) fn deth_from(self) -> usize
        ensures { result ≡ deth_from self }
    {
        self.aeth_from() + bytes_if(self.aeth, AETH_BYTES)
    }

    /// Where the immediate begins.
    pub(crate) fn imm_from(self) -> usize
        ensures { result ≡ imm_from self }
    {
        self.deth_from() + bytes_if(self.deth, DETH_BYTES)
    }

    /// Where the invalidate header begins.
    pub(crate) fn ieth_from(self) -> usize
        ensures { result ≡ ieth_from self }
    {
        self.imm_from() + bytes_if(self.imm, IMM_BYTES)
    }

    /// Where the headers end, and the payload begins.
    pub(crate) fn payload_from(self) -> usize
        ensures { result ≡ payload_from self }
    {
        self.ieth_from() + bytes_if(self.ieth, IETH_BYTES)
    }
}
