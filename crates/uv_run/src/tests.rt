//! Faults of sources and sinks, and lengths. What a script is answered is told by the cases of the crate `rows`.
ghost use Rattle.std.specs.Prelude.{None};

use crate::outcome::Done;
use crate::top::run_steps;
use std::alloc::{AllocError, Global};
use std::test::Fail;
use uv_io::{CleanSink, CleanSource, Failed, MemSink, MemSource, Source};
use uv_num::{Bytes, List};

/// The room of a sink that is never full.
const ROOM: usize = 4096;

const LEAST_FREE_NUMBER: &str =
    "c1 f0 open d0\nc1 f0 alloc_pd\nc1 f0 alloc_pd\nc1 f0 dealloc_pd #0\nc1 f0 alloc_pd\n";

const LEAST_FREE_NUMBER_REPORT: &str =
    "1 ok\n2 ok 0\n3 ok 1\n4 ok\n5 ok 0\nleft 2\nend gone f0 pd 0\nend gone f0 pd 1\n";

/// A source that gives one byte at a time.
#[derive(Drop)]
struct Drops<'a>(&'a [u8]);

impl Source for Drops<'_> {
    ghost left = { λ _. None };

    ghost faults = { λ _. 0 };

    fn read(&mut self, buf: &mut [u8]) -> Result<usize, Failed> {
        match self.0 {
            [first, rest @ ..] if !buf.is_empty() => {
                buf[0] = *first;
                self.0 = rest;
                Ok(1)
            }
            _ => Ok(0),
        }
    }
}

fn bytes_of(alloc: Global, text: &str) -> Result<Bytes, AllocError> {
    Ok(Bytes::from_vec(Vec::from_slice(alloc, text.as_bytes())?))
}

/// The list of one call.
fn just(alloc: Global, call: u32) -> Result<List<u32>, AllocError> {
    List::from_slice(alloc, &[call])
}

/// Whether nothing is told.
fn is_untold(done: &Done) -> bool {
    done.told.history.is_empty() && done.told.replies.is_empty() && done.told.left.is_empty()
}

#[test]
fn bytes_come_one_at_a_time(rt: HostRuntime) -> Result<(), Fail> {
    let mut source = Drops(LEAST_FREE_NUMBER.as_bytes());
    let mut sink = CleanSink::new(rt.alloc(), ROOM)?;
    assert_eq!(rt; run_steps(rt.alloc(), &mut source, &mut sink).status, 0);
    assert_eq!(rt; sink.bytes(), LEAST_FREE_NUMBER_REPORT.as_bytes());
    Ok(())
}

#[test]
fn more_bytes_than_a_script_has_are_too_long(rt: HostRuntime) -> Result<(), Fail> {
    for (byte, count, status, text) in [
        (b' ', 1_048_576, 0, "left 0\n"),
        (b'\n', 1_048_576, 1, "script fault at line 20001\n"),
        (b' ', 1_048_577, 6, "script too long\n"),
    ] {
        let bytes = Bytes::from_vec(vec![in rt.alloc(); byte; count]?);
        let mut sink = CleanSink::new(rt.alloc(), ROOM)?;
        let done = run_steps(rt.alloc(), &mut CleanSource::new(bytes), &mut sink);
        assert_eq!(rt; done.status, status, "{count} bytes");
        assert_eq!(rt; sink.bytes(), text.as_bytes(), "{count} bytes");
    }
    Ok(())
}

// A clean run reads twice, all of the script and then the end.
#[test]
fn a_failed_read_is_told_by_the_status_alone(rt: HostRuntime) -> Result<(), Fail> {
    for (call, status, text) in [(0, 3, ""), (1, 3, ""), (2, 0, LEAST_FREE_NUMBER_REPORT)] {
        let script = bytes_of(rt.alloc(), LEAST_FREE_NUMBER)?;
        let mut source = MemSource::new(script, just(rt.alloc(), call)?);
        let mut sink = CleanSink::new(rt.alloc(), ROOM)?;
        let done = run_steps(rt.alloc(), &mut source, &mut sink);
        assert_eq!(rt; done.status, status, "call {call}");
        assert_eq!(rt; sink.bytes(), text.as_bytes(), "call {call}");
        assert_eq!(rt; is_untold(&done), status == 3, "call {call}");
    }
    Ok(())
}

// A clean run writes once, all of the report.
#[test]
fn a_failed_write_cuts_the_report_short(rt: HostRuntime) -> Result<(), Fail> {
    for (call, room, status, text) in [
        (0, ROOM, 4, ""),
        (1, ROOM, 0, LEAST_FREE_NUMBER_REPORT),
        (1, 3, 4, "1 o"),
        (2, 3, 4, "1 o"),
        (0, 0, 4, ""),
    ] {
        let mut source = CleanSource::new(bytes_of(rt.alloc(), LEAST_FREE_NUMBER)?);
        let mut sink = MemSink::new(rt.alloc(), room, just(rt.alloc(), call)?)?;
        let done = run_steps(rt.alloc(), &mut source, &mut sink);
        assert_eq!(rt; done.status, status, "call {call}, room {room}");
        assert_eq!(rt; sink.bytes(), text.as_bytes(), "call {call}, room {room}");
        assert_eq!(rt; done.told.replies.len(), 5, "call {call}, room {room}");
    }
    Ok(())
}

#[test]
fn a_fault_of_the_script_stays_where_its_text_fails(rt: HostRuntime) -> Result<(), Fail> {
    let mut source = CleanSource::new(bytes_of(rt.alloc(), "x")?);
    let mut sink = MemSink::new(rt.alloc(), 6, just(rt.alloc(), 1)?)?;
    let done = run_steps(rt.alloc(), &mut source, &mut sink);
    assert_eq!(rt; done.status, 1);
    assert_eq!(rt; sink.bytes(), b"script".as_slice());
    Ok(())
}
