//! Where bytes go.
ghost use Rattle.std.specs.Prelude.{ℕ, List, Option};
ghost use Rattle.std.specs.Io.{WritesAtMost};
ghost use Rattle.std.specs.Io.KnownBytes.{WriteAppends};
ghost use Rattle.uv_io.specs.Faults.{HasWriteCause};

use super::failed::Failed;

/// Where bytes go.
///
/// A sink has the bytes written, where it tells them, and a count of faults. The count never falls, and it stops at
/// 2^64 - 1. This project's own.
pub trait Sink {
    // The bytes written so far, where they are told.
    ghost written: { Self → Option (List ℕ) };

    // How many faults there were.
    ghost faults: { Self → ℕ };

    /// Writes the first bytes of a piece, and answers how many.
    ///
    /// `Err`, after which nothing was written, and `Ok(0)` on a piece that isn't empty come only where the count of
    /// faults rose. Both are a fault for the caller.
    fn write(&mut self, piece: &[u8]) -> Result<usize, Failed>
        ensures bound { WritesAtMost result piece.now }
        ensures bytes { WriteAppends (written self.old) (written self.new) result piece.now }
        ensures cause { HasWriteCause (faults self.old) (faults self.new) piece.now result };
}
