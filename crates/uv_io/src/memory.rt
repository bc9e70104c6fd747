//! A source and a sink in memory, which fail at the calls that their maker lists.
ghost use Rattle.std.specs.Prelude.{◌≡◌, [], ◌-◌, ◌≤◌, ◌↔◌, min, length, Contains, IfOk, IsErr, Some};
ghost use Rattle.std.specs.Io.{ReadsAtMost, WritesAtMost};
ghost use Rattle.std.specs.Io.KnownBytes.{ReadConsumes, WriteAppends};
ghost use Rattle.uv_io.specs.Faults.{HasCause, HasWriteCause, next_count, read_faults, write_faults};

use super::failed::Failed;
use super::failing::Failing;
use super::sink::Sink;
use super::source::Source;
use super::store::Store;
use super::supply::Supply;
use std::alloc::{AllocError, Global};
use std::marker::Model;
use uv_num::{Bytes, List};

/// A source in memory.
///
/// It fails exactly at the calls of `read` whose numbers, from 0, are listed. Each failed call is a fault. The count
/// of calls stops at 2^64 - 1, which no list has.
#[derive(Drop)]
pub struct MemSource {
    supply: Supply,
    failing: Failing,
    faults: u64,
}

impl Model for MemSource {
    ghost use Rattle.uv_io.specs.Memory.{Supplied};

    ghost Value = { Supplied };

    ghost view = { λ s. record { left = s.supply; failing = s.failing.listed; calls = s.failing.calls; faults = s.faults } };
}

impl MemSource {
    /// A source of these bytes that fails at these calls.
    pub fn new(bytes: Bytes, failing: List<u32>) -> MemSource
        ensures { result ≡ record { left = bytes.bytes; failing = failing; calls = 0; faults = 0 } }
    {
        MemSource {
            supply: Supply::new(bytes),
            failing: Failing::new(failing),
            faults: 0,
        }
    }
}

impl Source for MemSource {
    ghost left = { λ s. Some s.left };

    ghost faults = { λ s. s.faults };

    fn read(&mut self, buf: &mut [u8]) -> Result<usize, Failed>
        ensures bound { ReadsAtMost result buf.new }
        ensures bytes { ReadConsumes (Some self.old.left) (Some self.new.left) result buf.new }
        ensures cause { HasCause self.old.faults self.new.faults result }

        // It fails at the listed calls and at no other, and else reads as much as there is and fits.
        ensures failing { IsErr result ↔ Contains self.old.failing self.old.calls }
        ensures exact { IfOk result (λ n. n ≡ min (length buf.old) (length self.old.left)) }

        // The count is that of the failed calls.
        ensures faults { self.new.faults ≡ read_faults self.old.faults result }
        ensures calls { self.new.calls ≡ next_count self.old.calls }
        ensures list { self.new.failing ≡ self.old.failing }
    {
        if self.failing.next() {
            self.faults = self.faults.saturating_add(1);
            return Err(Failed);
        }
        Ok(self.supply.give(buf))
    }
}

/// A sink in memory.
///
/// It fails exactly at the calls of `write` whose numbers, from 0, are listed. It has its room from its making on,
/// and takes nothing past it. Its count of faults is the number of its failed calls and of the pieces, not empty, of
/// which it took nothing. The count of calls stops at 2^64 - 1, which no list has.
#[derive(Drop)]
pub struct MemSink {
    store: Store,
    failing: Failing,
    faults: u64,
}

impl Model for MemSink {
    ghost use Rattle.std.specs.Prelude.{◌≤◌, length};
    ghost use Rattle.uv_io.specs.Memory.{Written};

    ghost Value = { Written };

    ghost view = { λ s. record { bytes = s.store.bytes; room = s.store.room; failing = s.failing.listed; calls = s.failing.calls; faults = s.faults } };

    ghost invariant = { λ s. length s.store.bytes ≤ s.store.room };
}

impl MemSink {
    /// An empty sink with room for this many bytes that fails at these calls.
    pub fn new(alloc: Global, room: usize, failing: List<u32>) -> Result<MemSink, AllocError>
        ensures { IfOk result (λ s. s ≡ record { bytes = []; room = room; failing = failing; calls = 0; faults = 0 }) }
    {
        Ok(MemSink {
            store: Store::new(alloc, room)?,
            failing: Failing::new(failing),
            faults: 0,
        })
    }

    /// The bytes written so far, which are within the room.
    pub fn bytes(&self) -> &[u8]
        ensures value { result.now ≡ self.now.bytes }
        ensures within { length self.now.bytes ≤ self.now.room }
    {
        self.store.bytes()
    }
}

impl Sink for MemSink {
    ghost written = { λ s. Some s.bytes };

    ghost faults = { λ s. s.faults };

    /// Writes as much of the piece as there is room for. It takes no memory.
    fn write(&mut self, piece: &[u8]) -> Result<usize, Failed>
        ensures bound { WritesAtMost result piece.now }
        ensures bytes { WriteAppends (Some self.old.bytes) (Some self.new.bytes) result piece.now }
        ensures cause { HasWriteCause self.old.faults self.new.faults piece.now result }

        // It fails at the listed calls and at no other, and else takes as much as there is room for.
        ensures failing { IsErr result ↔ Contains self.old.failing self.old.calls }
        ensures exact { IfOk result (λ n. n ≡ min (length piece.now) (self.old.room - length self.old.bytes)) }
        ensures room { self.new.room ≡ self.old.room }
        ensures within { length self.new.bytes ≤ self.new.room }

        // The count is that of the failed calls and of the pieces, not empty, of which nothing was taken.
        ensures faults { self.new.faults ≡ write_faults self.old.faults (length piece.now) result }
        ensures calls { self.new.calls ≡ next_count self.old.calls }
        ensures list { self.new.failing ≡ self.old.failing }
    {
        if self.failing.next() {
            self.faults = self.faults.saturating_add(1);
            return Err(Failed);
        }
        let count = self.store.take(piece);
        if count == 0 && !piece.is_empty() {
            self.faults = self.faults.saturating_add(1);
        }
        Ok(count)
    }
}

#[cfg(test)]
mod tests {
    use super::*;
    use std::test::Fail;

    const LISTS: [[u32; 2]; 4] = [[0, 0], [1, 1], [0, 3], [4, 2]];

    #[test]
    fn a_source_fails_at_the_listed_calls_alone(rt: HostRuntime) -> Result<(), Fail> {
        for listed in LISTS {
            let bytes = Bytes::from_vec(b"abcdef".to_vec(rt.alloc())?);
            let mut source = MemSource::new(bytes, List::from_vec(listed.to_vec(rt.alloc())?));
            for call in 0..5u32 {
                let answer = source.read(&mut [0; 1]);
                assert_eq!(rt; answer.is_err(), listed.contains(&call), "call {call}");
            }
        }
        Ok(())
    }

    #[test]
    fn a_source_loses_nothing_at_a_failed_call(rt: HostRuntime) -> Result<(), Fail> {
        let bytes = Bytes::from_vec(b"abcde".to_vec(rt.alloc())?);
        let mut source = MemSource::new(bytes, List::from_vec([1].to_vec(rt.alloc())?));
        let mut buf = [0; 3];
        assert_eq!(rt; source.read(&mut buf), Ok(3));
        assert_eq!(rt; source.read(&mut buf), Err(Failed));
        assert_eq!(rt; source.read(&mut buf), Ok(2));
        assert_eq!(rt; buf, *b"dec");
        assert_eq!(rt; source.read(&mut buf), Ok(0));
        Ok(())
    }

    #[test]
    fn a_sink_fails_at_the_listed_calls_alone(rt: HostRuntime) -> Result<(), Fail> {
        for listed in LISTS {
            let failing = List::from_vec(listed.to_vec(rt.alloc())?);
            let mut sink = MemSink::new(rt.alloc(), 5, failing)?;
            for call in 0..5u32 {
                let answer = sink.write(b"x");
                assert_eq!(rt; answer.is_err(), listed.contains(&call), "call {call}");
            }
        }
        Ok(())
    }

    #[test]
    fn a_sink_takes_nothing_past_its_room(rt: HostRuntime) -> Result<(), Fail> {
        let failing = List::from_vec([0].to_vec(rt.alloc())?);
        let mut sink = MemSink::new(rt.alloc(), 3, failing)?;
        assert_eq!(rt; sink.write(b"ab"), Err(Failed));
        assert_eq!(rt; sink.write(b"ab"), Ok(2));
        assert_eq!(rt; sink.write(b"cd"), Ok(1));
        assert_eq!(rt; sink.write(b"d"), Ok(0));
        assert_eq!(rt; sink.bytes(), b"abc".as_slice());
        Ok(())
    }
}
