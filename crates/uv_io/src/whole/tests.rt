//! Reading and writing whole, over short reads, short rooms and failing calls.
ghost use Rattle.std.specs.Prelude.{None};

use super::*;
use crate::clean::{CleanSink, CleanSource};
use crate::memory::{MemSink, MemSource};
use std::test::Fail;
use uv_num::List;

/// A source that gives one byte at a time.
#[derive(Drop)]
struct Drops<'a>(&'a [u8]);

impl Source for Drops<'_> {
    ghost left = { λ _. None };

    ghost faults = { λ _. 0 };

    fn read(&mut self, buf: &mut [u8]) -> Result<usize, Failed> {
        match self.0 {
            [first, rest @ ..] if !buf.is_empty() => {
                buf[0] = *first;
                self.0 = rest;
                Ok(1)
            }
            _ => Ok(0),
        }
    }
}

#[test]
fn reads_on_after_a_short_read(rt: HostRuntime) {
    match read_all(rt.alloc(), &mut Drops(b"one by one"), 10) {
        ReadAll::Bytes(bytes) => assert_eq!(rt; bytes.as_slice(), b"one by one".as_slice()),
        other => panic!(rt; "{other:?}"),
    }
}

#[test]
fn reads_as_many_as_are_allowed_and_no_more(rt: HostRuntime) -> Result<(), Fail> {
    for (len, most, fits) in [
        (0, 0, true),
        (1, 0, false),
        (4096, 4096, true),
        (9000, 9000, true),
        (9000, 8999, false),
    ] {
        let bytes = Bytes::from_vec(vec![in rt.alloc(); 7u8; len]?);
        match read_all(rt.alloc(), &mut CleanSource::new(bytes), most) {
            ReadAll::Bytes(bytes) => {
                assert!(rt; fits, "{len} bytes");
                assert_eq!(rt; bytes.len(), len);
            }
            other => assert!(rt; !fits && matches!(other, ReadAll::TooLong), "{len} bytes"),
        }
    }
    Ok(())
}

#[test]
fn tells_a_failed_read(rt: HostRuntime) -> Result<(), Fail> {
    for (call, fails) in [(0, true), (1, true), (2, false)] {
        let bytes = Bytes::from_vec(b"abc".to_vec(rt.alloc())?);
        let failing = List::from_vec([call].to_vec(rt.alloc())?);
        let answer = read_all(rt.alloc(), &mut MemSource::new(bytes, failing), 3);
        assert_eq!(rt; matches!(answer, ReadAll::ReadFault), fails, "call {call}");
    }
    Ok(())
}

#[test]
fn writes_all_where_there_is_room(rt: HostRuntime) -> Result<(), Fail> {
    let mut sink = CleanSink::new(rt.alloc(), 3)?;
    assert_eq!(rt; write_all(&mut sink, b"abc"), Ok(()));
    assert_eq!(rt; write_all(&mut sink, b""), Ok(()));
    assert_eq!(rt; write_all(&mut sink, b"d"), Err(Failed));
    assert_eq!(rt; sink.bytes(), b"abc".as_slice());
    Ok(())
}

#[test]
fn tells_a_failed_write(rt: HostRuntime) -> Result<(), Fail> {
    let failing = List::from_vec([1].to_vec(rt.alloc())?);
    let mut sink = MemSink::new(rt.alloc(), 3, failing)?;
    assert_eq!(rt; write_all(&mut sink, b"abcd"), Err(Failed));
    assert_eq!(rt; sink.bytes(), b"abc".as_slice());
    Ok(())
}
