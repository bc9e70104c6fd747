//! Where bytes come from.
ghost use Rattle.std.specs.Prelude.{ℕ, List, Option};
ghost use Rattle.std.specs.Io.{ReadsAtMost};
ghost use Rattle.std.specs.Io.KnownBytes.{ReadConsumes};
ghost use Rattle.uv_io.specs.Faults.{HasCause};

use super::failed::Failed;

/// Where bytes come from.
///
/// A source has the bytes that are left, where it tells them, and a count of faults. The count never falls, and it
/// stops at 2^64 - 1. This project's own.
pub trait Source {
    // The bytes that reads will give from here on, where they are told.
    ghost left: { Self → Option (List ℕ) };

    // How many faults there were.
    ghost faults: { Self → ℕ };

    /// Reads the first bytes left into the first places of the buffer, and answers how many.
    ///
    /// `Ok(0)` into a buffer that isn't empty is the end of input. `Err` comes only where the count of faults rose,
    /// and then nothing was read; what stands in the buffer is then left open.
    fn read(&mut self, buf: &mut [u8]) -> Result<usize, Failed>
        ensures bound { ReadsAtMost result buf.new }
        ensures bytes { ReadConsumes (left self.old) (left self.new) result buf.new }
        ensures cause { HasCause (faults self.old) (faults self.new) result };
}
