//! A source and a sink in memory that fail at no call.
ghost use Rattle.std.specs.Prelude.{◌≡◌, [], ◌-◌, ◌≤◌, min, length, IfOk, IsOk, Some};
ghost use Rattle.std.specs.Io.{ReadsAtMost, WritesAtMost};
ghost use Rattle.std.specs.Io.KnownBytes.{ReadConsumes, WriteAppends};
ghost use Rattle.uv_io.specs.Faults.{HasCause, HasWriteCause, write_faults};

use super::failed::Failed;
use super::sink::Sink;
use super::source::Source;
use super::store::Store;
use super::supply::Supply;
use std::alloc::{AllocError, Global};
use std::marker::Model;
use uv_num::Bytes;

/// A source in memory that fails at no call, which contracts see as the bytes left. Its count of faults is 0.
#[derive(Drop)]
pub struct CleanSource {
    supply: Supply,
}

impl Model for CleanSource {
    ghost use Rattle.std.specs.Prelude.{ℕ, List};

    ghost Value = { List ℕ };

    ghost view = { λ s. s.supply };
}

impl CleanSource {
    /// A source of these bytes.
    pub fn new(bytes: Bytes) -> CleanSource
        ensures { result ≡ bytes.bytes }
    {
        CleanSource {
            supply: Supply::new(bytes),
        }
    }
}

impl Source for CleanSource {
    ghost left = { λ s. Some s };

    ghost faults = { λ _. 0 };

    fn read(&mut self, buf: &mut [u8]) -> Result<usize, Failed>
        ensures bound { ReadsAtMost result buf.new }
        ensures bytes { ReadConsumes (Some self.old) (Some self.new) result buf.new }
        ensures cause { HasCause 0 0 result }

        // It never fails, and reads as much as there is and fits.
        ensures clean { IsOk result }
        ensures exact { IfOk result (λ n. n ≡ min (length buf.old) (length self.old)) }
    {
        Ok(self.supply.give(buf))
    }
}

/// A sink in memory that fails at no call.
///
/// It has its room from its making on, and takes nothing past it. Its count of faults is the number of the pieces,
/// not empty, of which it took nothing.
#[derive(Drop)]
pub struct CleanSink {
    store: Store,
    faults: u64,
}

impl Model for CleanSink {
    ghost use Rattle.std.specs.Prelude.{◌≤◌, length};
    ghost use Rattle.uv_io.specs.Memory.{Stored};

    ghost Value = { Stored };

    ghost view = { λ s. record { bytes = s.store.bytes; room = s.store.room; faults = s.faults } };

    ghost invariant = { λ s. length s.store.bytes ≤ s.store.room };
}

impl CleanSink {
    /// An empty sink with room for this many bytes.
    pub fn new(alloc: Global, room: usize) -> Result<CleanSink, AllocError>
        ensures { IfOk result (λ s. s ≡ record { bytes = []; room = room; faults = 0 }) }
    {
        Ok(CleanSink {
            store: Store::new(alloc, room)?,
            faults: 0,
        })
    }

    /// The bytes written so far, which are within the room.
    pub fn bytes(&self) -> &[u8]
        ensures value { result.now ≡ self.now.bytes }
        ensures within { length self.now.bytes ≤ self.now.room }
    {
        self.store.bytes()
    }
}

impl Sink for CleanSink {
    ghost written = { λ s. Some s.bytes };

    ghost faults = { λ s. s.faults };

    /// Writes as much of the piece as there is room for. It takes no memory.
    fn write(&mut self, piece: &[u8]) -> Result<usize, Failed>
        ensures bound { WritesAtMost result piece.now }
        ensures bytes { WriteAppends (Some self.old.bytes) (Some self.new.bytes) result piece.now }
        ensures cause { HasWriteCause self.old.faults self.new.faults piece.now result }

        // It never fails, and takes as much as there is room for.
        ensures clean { IsOk result }
        ensures exact { IfOk result (λ n. n ≡ min (length piece.now) (self.old.room - length self.old.bytes)) }
        ensures room { self.new.room ≡ self.old.room }
        ensures within { length self.new.bytes ≤ self.new.room }

        // The count is that of the pieces, not empty, of which nothing was taken.
        ensures faults { self.new.faults ≡ write_faults self.old.faults (length piece.now) result }
    {
        let count = self.store.take(piece);
        if count == 0 && !piece.is_empty() {
            self.faults = self.faults.saturating_add(1);
        }
        Ok(count)
    }
}

#[cfg(test)]
mod tests {
    use super::*;
    use std::test::Fail;

    #[test]
    fn a_source_gives_its_bytes_and_ends(rt: HostRuntime) -> Result<(), Fail> {
        let mut source = CleanSource::new(Bytes::from_vec(b"abc".to_vec(rt.alloc())?));
        let mut buf = [0; 2];
        assert_eq!(rt; source.read(&mut buf), Ok(2));
        assert_eq!(rt; buf, *b"ab");
        assert_eq!(rt; source.read(&mut buf), Ok(1));
        assert_eq!(rt; buf, *b"cb");
        assert_eq!(rt; source.read(&mut buf), Ok(0));
        Ok(())
    }

    #[test]
    fn a_sink_takes_nothing_past_its_room(rt: HostRuntime) -> Result<(), Fail> {
        let mut sink = CleanSink::new(rt.alloc(), 3)?;
        assert_eq!(rt; sink.write(b"ab"), Ok(2));
        assert_eq!(rt; sink.write(b"cd"), Ok(1));
        assert_eq!(rt; sink.write(b"d"), Ok(0));
        assert_eq!(rt; sink.bytes(), b"abc".as_slice());
        Ok(())
    }
}
