//! Frames.

ghost use Rattle.std.specs.Prelude.{◌≡◌, IfOk};
ghost use Rattle.uv_link.specs.Frames.{plain_frame};

use std::alloc::{AllocError, Global};
use uv_num::Bytes;

/// What one device sends to another at once: the bytes of a packet, from the BTH to the pad. What carries them in Linux,
/// Ethernet, IP and UDP headers and the ICRC behind them (`rxe_net.c`, `rxe_icrc.c`), is left out: the two devices stand
/// for the addresses.
#[derive(Debug, Drop)]
pub struct Frame {
    /// The device that sent it.
    pub from: u32,
    /// The device that it goes to.
    pub to: u32,
    /// Its bytes, which need not be those of a packet.
    pub bytes: Bytes,
}

impl Frame {
    /// The same frame once more.
    pub(crate) fn copy(&self, alloc: Global) -> Result<Frame, AllocError>
        ensures { IfOk result (λ copy. plain_frame copy ≡ plain_frame self.now) }
    {
        Ok(Frame {
            from: self.from,
            to: self.to,
            bytes: Bytes::from_vec(Vec::from_slice(alloc, self.bytes.as_slice())?),
        })
    }
}
