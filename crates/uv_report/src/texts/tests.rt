//! Every text that a line of a report can have, typed by hand.

use super::*;
use std::alloc::{AllocError, Global};
use std::process::Abort;
use std::test::Fail;
use uv_num::Kind;

fn expect_texts(rt: &impl Abort, alloc: Global, rows: &[(Saying, &str)]) -> Result<(), AllocError> {
    for (saying, want) in rows {
        let text = format!(in alloc; "{saying}")?;
        assert_eq!(rt; text.as_str(), *want);
    }
    Ok(())
}

fn fine(word: Word) -> Saying {
    Saying::Step {
        word,
        refusal: None,
    }
}

fn refused(word: Word, errno: Errno) -> Saying {
    Saying::Step {
        word,
        refusal: Some(errno),
    }
}

fn object(file: u32, kind: Kind, handle: u32) -> Left {
    Left { file, kind, handle }
}

#[test]
fn replies_tell_handles_numbers_keys_and_states(rt: HostRuntime) -> Result<(), Fail> {
    let pair = |handle: u32, number: u32| Saying::Pair { handle, number };
    let key = |handle: u32, key: u32| Saying::Key { handle, key };
    let state = |state: QpState, number: u32| Saying::State { state, number };
    let rows = [
        (Saying::Ok, "ok"),
        (Saying::Handle(0), "ok 0"),
        (Saying::Handle(255), "ok 255"),
        (pair(3, 16), "ok 3 qpn 16"),
        (pair(16, 3), "ok 16 qpn 3"),
        (key(1, 256), "ok 1 key 0x00000100"),
        (key(0, 0), "ok 0 key 0x00000000"),
        (key(12, 0x0123_4567), "ok 12 key 0x01234567"),
        (key(255, 0x89ab_cdef), "ok 255 key 0x89abcdef"),
        (state(QpState::Reset, 16), "ok RESET qpn 16"),
        (state(QpState::Init, 17), "ok INIT qpn 17"),
        (state(QpState::Rtr, 18), "ok RTR qpn 18"),
        (state(QpState::Rts, 16_777_215), "ok RTS qpn 16777215"),
        (state(QpState::Err, 0), "ok ERR qpn 0"),
        (Saying::DeviceFatal, "ok DEVICE_FATAL"),
    ];
    expect_texts(&rt, rt.alloc(), &rows)?;
    Ok(())
}

#[test]
fn refusals_tell_their_errno(rt: HostRuntime) -> Result<(), Fail> {
    let rows = [
        (Saying::Refused(Errno::NoEnt), "ENOENT"),
        (Saying::Refused(Errno::Io), "EIO"),
        (Saying::Refused(Errno::BadF), "EBADF"),
        (Saying::Refused(Errno::Again), "EAGAIN"),
        (Saying::Refused(Errno::NoMem), "ENOMEM"),
        (Saying::Refused(Errno::Busy), "EBUSY"),
        (Saying::Refused(Errno::Inval), "EINVAL"),
        (Saying::Refused(Errno::NoSpc), "ENOSPC"),
        (Saying::Refused(Errno::ProtoNoSupport), "EPROTONOSUPPORT"),
        (Saying::Refused(Errno::OpNotSupp), "EOPNOTSUPP"),
    ];
    expect_texts(&rt, rt.alloc(), &rows)?;
    Ok(())
}

#[test]
fn steps_tell_their_word_and_a_refusal(rt: HostRuntime) -> Result<(), Fail> {
    let rows = [
        (Saying::Began, "began"),
        (fine(Word::Reserve), "reserve"),
        (fine(Word::Look), "look"),
        (fine(Word::Make), "make"),
        (fine(Word::Commit), "commit"),
        (fine(Word::Act), "act"),
        (fine(Word::Lock), "lock"),
        (fine(Word::Check), "check"),
        (fine(Word::Finish), "finish"),
        (fine(Word::Abort), "abort"),
        (fine(Word::Free), "free"),
        (fine(Word::Exit), "exit"),
        (refused(Word::Reserve, Errno::NoSpc), "reserve ENOSPC"),
        (refused(Word::Look, Errno::NoEnt), "look ENOENT"),
        (refused(Word::Act, Errno::Inval), "act EINVAL"),
        (refused(Word::Lock, Errno::Io), "lock EIO"),
        (refused(Word::Check, Errno::Busy), "check EBUSY"),
        (refused(Word::Exit, Errno::Busy), "exit EBUSY"),
    ];
    expect_texts(&rt, rt.alloc(), &rows)?;
    Ok(())
}

#[test]
fn teardowns_tell_files_objects_and_who_waits(rt: HostRuntime) -> Result<(), Fail> {
    let rows = [
        (Saying::Tear(0), "tear f0"),
        (Saying::Kill(object(0, Kind::Pd, 0)), "kill f0 pd 0"),
        (Saying::Kill(object(3, Kind::Cq, 12)), "kill f3 cq 12"),
        (Saying::Gone(object(0, Kind::Pd, 1)), "gone f0 pd 1"),
        (
            Saying::Gone(object(1, Kind::Channel, 0)),
            "gone f1 channel 0",
        ),
        (Saying::Gone(object(2, Kind::Cq, 3)), "gone f2 cq 3"),
        (Saying::Gone(object(4, Kind::Qp, 5)), "gone f4 qp 5"),
        (Saying::Gone(object(6, Kind::Srq, 7)), "gone f6 srq 7"),
        (Saying::Gone(object(8, Kind::Ah, 9)), "gone f8 ah 9"),
        (Saying::Gone(object(10, Kind::Mr, 11)), "gone f10 mr 11"),
        (Saying::Gone(object(15, Kind::Mw, 255)), "gone f15 mw 255"),
        (Saying::Dissociated(2), "dissociated f2"),
        (Saying::Closed(15), "closed f15"),
        (Saying::NotYet(1), "notyet 1"),
        (Saying::NotYet(10), "notyet 10"),
        (Saying::TornBy(Tearer::Client(1)), "notyet c1"),
        (Saying::TornBy(Tearer::Client(8)), "notyet c8"),
        (Saying::TornBy(Tearer::Driver), "notyet drv"),
        (Saying::Idle, "none"),
    ];
    expect_texts(&rt, rt.alloc(), &rows)?;
    Ok(())
}

fn completion(status: Status, what: What, imm: Option<u32>) -> Saying {
    Saying::Completed(Completion {
        id: 18_446_744_073_709_551_615,
        status,
        what,
        length: 1500,
        imm,
        qpn: 17,
    })
}

#[test]
fn the_data_path_tells_completions_and_events(rt: HostRuntime) -> Result<(), Fail> {
    let polled = |taken: u32, overrun: bool| Saying::Polled { taken, overrun };
    let rows = [
        (polled(16, false), "ok 16"),
        (polled(1, true), "ok 1 overrun"),
        (Saying::Empty { overrun: false }, "empty"),
        (Saying::Empty { overrun: true }, "empty overrun"),
        (
            completion(Status::Success, What::Send, None),
            "wc 18446744073709551615 SUCCESS SEND 1500 qpn 17",
        ),
        (
            completion(Status::LocLenErr, What::Recv, Some(0xab)),
            "wc 18446744073709551615 LOC_LEN_ERR RECV 1500 qpn 17 imm 0x000000ab",
        ),
        (
            completion(Status::RemAccessErr, What::Write, Some(0x89ab_cdef)),
            "wc 18446744073709551615 REM_ACCESS_ERR WRITE 1500 qpn 17 imm 0x89abcdef",
        ),
        (
            completion(Status::RnrRetryExcErr, What::Read, None),
            "wc 18446744073709551615 RNR_RETRY_EXC_ERR READ 1500 qpn 17",
        ),
        (
            completion(Status::WrFlushErr, What::Ud, None),
            "wc 18446744073709551615 WR_FLUSH_ERR UD 1500 qpn 17",
        ),
        (Saying::EventOf(1), "ok cq 1"),
        (Saying::EventOf(63), "ok cq 63"),
        (Saying::Dead, "dead"),
    ];
    expect_texts(&rt, rt.alloc(), &rows)?;
    Ok(())
}
