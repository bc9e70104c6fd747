//! Words, statuses and faults. What is told of scripts is told by the stored runs of the programs.

use crate::top::start;
use std::alloc::{AllocError, Global};
use std::test::Fail;
use uv_io::{CleanSink, CleanSource, MemSink, MemSource};
use uv_num::{Bytes, List};

/// The room of a sink that is never full.
const ROOM: usize = 4096;

const USAGE: &str = "usage: verbswhy [--lanes | --rules | --rule KEY]\n";

const LOOK_HELD: &str =
    "look-held EBUSY: What a call looks at no call holds exclusively. (rdma_core.c, uverbs_try_lock_object)\n";

fn words_of(alloc: Global, text: &str) -> Result<Vec<String>, AllocError> {
    let mut words = Vec::new(alloc);
    for word in text.split_ascii_whitespace() {
        words.push(String::from_str(alloc, word)?)?;
    }
    Ok(words)
}

fn bytes_of(alloc: Global, text: &str) -> Result<Bytes, AllocError> {
    Ok(Bytes::from_vec(Vec::from_slice(alloc, text.as_bytes())?))
}

#[test]
fn words_say_what_is_told(rt: HostRuntime) -> Result<(), Fail> {
    for (words, script, status, text) in [
        ("", "", 0, "end\n  = left 0\n"),
        (
            "",
            "x",
            1,
            "script fault at line 1\nx: isn't a client, drv or die\n",
        ),
        (
            "--lanes",
            "x",
            1,
            "script fault at line 1\nx: isn't a client, drv or die\n",
        ),
        ("--rule look-held", "x", 0, LOOK_HELD),
        ("--rule look-hel", "", 2, USAGE),
        ("--rule", "", 2, USAGE),
        ("look-held --rule", "", 2, USAGE),
        ("--rules --rules", "", 2, USAGE),
        ("--rule look-held x", "", 2, USAGE),
    ] {
        let mut source = CleanSource::new(bytes_of(rt.alloc(), script)?);
        let mut sink = CleanSink::new(rt.alloc(), ROOM)?;
        let given = words_of(rt.alloc(), words)?;
        let ended = start(rt.alloc(), Some(given), &mut source, &mut sink);
        assert_eq!(rt; ended, status, "{words}");
        assert_eq!(rt; sink.bytes(), text.as_bytes(), "{words}");
    }
    Ok(())
}

#[test]
fn a_fault_has_its_status(rt: HostRuntime) -> Result<(), Fail> {
    for (words, script, read, write, status) in [
        ("", "", 0, 1, 3),
        ("", "", 1, 0, 4),
        ("--rules", "", 0, 0, 4),
        ("", "x", 2, 0, 1),
        ("x", "", 0, 0, 2),
    ] {
        let failing_read = List::from_slice(rt.alloc(), &[read])?;
        let failing_write = List::from_slice(rt.alloc(), &[write])?;
        let mut source = MemSource::new(bytes_of(rt.alloc(), script)?, failing_read);
        let mut sink = MemSink::new(rt.alloc(), ROOM, failing_write)?;
        let given = words_of(rt.alloc(), words)?;
        let ended = start(rt.alloc(), Some(given), &mut source, &mut sink);
        assert_eq!(rt; ended, status, "{words}, {script}");
        assert_eq!(rt; sink.bytes(), b"".as_slice(), "{words}, {script}");
    }
    Ok(())
}

#[test]
fn words_that_could_not_be_had_are_wrong(rt: HostRuntime) -> Result<(), Fail> {
    let mut source = CleanSource::new(bytes_of(rt.alloc(), "")?);
    let mut sink = CleanSink::new(rt.alloc(), ROOM)?;
    assert_eq!(rt; start(rt.alloc(), None, &mut source, &mut sink), 2);
    assert_eq!(rt; sink.bytes(), USAGE.as_bytes());
    Ok(())
}
