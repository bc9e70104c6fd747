//! Queue pairs by example.
//!
//! The helpers have no contracts, so that what a test is proved from stays small.

ghost use Rattle.std.specs.Prelude.{◌≡◌, true};
ghost use Rattle.uv_num.specs.Ranges.{attrs_in_range};

use super::*;
use std::alloc::{AllocError, Global};
use std::process::Abort;
use std::test::Fail;
use uv_num::{Bytes, List, QpAttrs, QpState, Request};
use uv_packet::{Opcode, Packet};
use uv_queue::WorkQueue;
use uv_region::Piece;
use uv_wr::{Completion, Op, RecvWork, SendWork, Sge, Status, What};

const STATES: [QpState; 5] = [
    QpState::Reset,
    QpState::Init,
    QpState::Rtr,
    QpState::Rts,
    QpState::Err,
];

const NOT_GIVEN: QpAttrs = QpAttrs {
    access: None,
    pkey: None,
    port: None,
    qkey: None,
    dev: None,
    mtu: None,
    timeout: None,
    retry: None,
    rnr: None,
    rqpsn: None,
    mra: None,
    rnrtimer: None,
    sqpsn: None,
    mdra: None,
    dqpn: None,
};

/// What the row of a new state wants of a connection.
fn wanted(to: QpState) -> QpAttrs
    ensures { attrs_in_range result ≡ true }
{
    match to {
        QpState::Init => QpAttrs {
            access: Some(6),
            pkey: Some(0),
            port: Some(1),
            ..NOT_GIVEN
        },
        QpState::Rtr => QpAttrs {
            dev: Some(1),
            mtu: Some(1024),
            rqpsn: Some(16_777_215),
            rnrtimer: Some(12),
            mdra: Some(1),
            dqpn: Some(17),
            ..NOT_GIVEN
        },
        QpState::Rts => QpAttrs {
            timeout: Some(14),
            retry: Some(7),
            rnr: Some(6),
            mra: Some(1),
            sqpsn: Some(16_777_214),
            ..NOT_GIVEN
        },
        QpState::Reset | QpState::Err => NOT_GIVEN,
    }
}

/// Whether it went to a state.
fn go(qp: &mut Qp, to: QpState) -> bool {
    qp.modify(to, &wanted(to)).is_ok()
}

/// A connection in RESET, with two places in each queue.
fn unused(alloc: Global, srq: Option<u32>) -> Result<Qp, AllocError> {
    let request = Request::CreateQp {
        pd: 0,
        send_cq: 1,
        recv_cq: 1,
        srq,
        service: 2,
        send_depth: 2,
        recv_depth: 2,
    };
    Qp::new(alloc, 8, 3, 5, 0, &request)
}

fn path_to(state: QpState) -> &'static [QpState] {
    match state {
        QpState::Reset => &[],
        QpState::Init => &[QpState::Init],
        QpState::Rtr => &[QpState::Init, QpState::Rtr],
        QpState::Rts => &[QpState::Init, QpState::Rtr, QpState::Rts],
        QpState::Err => &[QpState::Init, QpState::Err],
    }
}

/// A connection in a state.
fn connection(alloc: Global, srq: Option<u32>, state: QpState) -> Result<Qp, AllocError> {
    let mut qp = unused(alloc, srq)?;
    for next in path_to(state) {
        let _ = go(&mut qp, *next);
    }
    Ok(qp)
}

fn word_of<W: Drop>(posted: Posted<W>) -> &'static str {
    match posted {
        Posted::Did => "did",
        Posted::Inval(_) => "inval",
        Posted::Full(_) => "full",
        Posted::NoMemory(_) => "no memory",
    }
}

fn post_send(alloc: Global, qp: &mut Qp, id: u64, op: Op) -> &'static str {
    let op = match op {
        Op::Ud(..) | Op::UdImm(..) => Op::Ud(1, 17, 0),
        Op::Send | Op::SendImm(_) | Op::Write(..) | Op::WriteImm(..) | Op::Read(..) => op,
    };
    match SendWork::new(id, op, false, List::new(alloc)) {
        Some(work) => word_of(qp.post_send(alloc, work)),
        None => "no work",
    }
}

fn post_receive(alloc: Global, qp: &mut Qp, id: u64) -> &'static str {
    match RecvWork::new(id, List::new(alloc)) {
        Some(work) => word_of(qp.post_recv(alloc, work)),
        None => "no work",
    }
}

/// Ends the oldest send, if there is one that can end so.
fn end_send(qp: &mut Qp, status: Status) -> Option<Completion> {
    if qp.next_send().is_none() || status.is_failure() != qp.is_broken() {
        return None;
    }
    Some(qp.complete_send(status))
}

/// Ends the next receive, if there is one that can end so.
fn end_receive(qp: &mut Qp, status: Status) -> Option<Completion> {
    if qp.next_receive().is_none() || status.is_failure() != qp.is_broken() {
        return None;
    }
    Some(qp.complete_receive(status, 5, Some(9)))
}

/// Holds the oldest receive of a shared receive queue, where it may; whether it did.
fn hold(qp: &mut Qp, queue: &mut WorkQueue<RecvWork>) -> Result<bool, AllocError> {
    if !qp.has_begun() || !qp.has_srq() || qp.held().is_some() || queue.at(0).is_none() {
        return Ok(false);
    }
    qp.hold_shared(queue)?;
    Ok(true)
}

fn state_of(qp: &Qp) -> QpState {
    qp.state()
}

fn base_of(qp: &Qp) -> u32 {
    qp.requester().base
}

fn fail(qp: &mut Qp) {
    qp.fail();
}

fn closed(qp: Qp) -> (QueueList, QueueList) {
    qp.close()
}

/// Whether a list has these ids and these completions.
fn tells(list: &QueueList, posted: &[u64], completed: &[Completion]) -> bool {
    list.object == 8 && list.posted.as_slice() == posted && list.completed.as_slice() == completed
}

fn moves(from: QpState, to: QpState) -> bool {
    match (from.number(), to.number()) {
        (_, 0) | (0, 1) | (1, 2) | (2, 3) => true,
        (1, 6) | (2, 6) | (3, 6) | (6, 6) => true,
        _ => false,
    }
}

#[test]
fn a_connection_moves_by_the_table(rt: HostRuntime) -> Result<(), Fail> {
    for from in STATES.iter() {
        for to in STATES.iter() {
            let mut qp = connection(rt.alloc(), None, *from)?;
            assert_eq!(rt; state_of(&qp), *from);
            let moved = moves(*from, *to);
            assert_eq!(rt; go(&mut qp, *to), moved);
            assert_eq!(rt; state_of(&qp), if moved { *to } else { *from });
        }
    }
    Ok(())
}

/// What it was told of its peer, and of resends.
fn told(qp: &Qp) -> [u64; 7] {
    [
        qp.mtu(),
        u64::from(qp.peer()),
        u64::from(qp.peer_device()),
        qp.access(),
        u64::from(qp.retries()),
        u64::from(qp.rnr_retries()),
        u64::from(qp.rnr_timer()),
    ]
}

#[test]
fn what_is_told_is_kept_until_a_reset(rt: HostRuntime) -> Result<(), Fail> {
    let mut qp = connection(rt.alloc(), None, QpState::Rts)?;
    assert_eq!(rt; told(&qp), [1024, 17, 1, 6, 7, 6, 12]);
    assert_eq!(rt; base_of(&qp), 16_777_214);
    assert!(rt; go(&mut qp, QpState::Reset));
    assert_eq!(rt; told(&qp), [256, 0, 0, 0, 0, 0, 0]);
    Ok(())
}

#[test]
fn posts_are_refused_by_state_then_service_then_depth(rt: HostRuntime) -> Result<(), Fail> {
    let rows = [
        (QpState::Reset, "inval", "inval"),
        (QpState::Init, "inval", "did"),
        (QpState::Rtr, "inval", "did"),
        (QpState::Rts, "did", "did"),
        (QpState::Err, "did", "did"),
    ];
    for (state, sent, received) in rows.iter() {
        let mut qp = connection(rt.alloc(), None, *state)?;
        assert_eq!(rt;
            post_send(rt.alloc(), &mut qp, 1, Op::Ud(1, 17, 0)),
            "inval"
        );
        assert_eq!(rt; post_send(rt.alloc(), &mut qp, 1, Op::Read(0, 256)), *sent);
        assert_eq!(rt; post_receive(rt.alloc(), &mut qp, 1), *received);
    }
    let mut qp = connection(rt.alloc(), Some(2), QpState::Rts)?;
    assert_eq!(rt; post_receive(rt.alloc(), &mut qp, 1), "inval");
    for sent in ["did", "did", "full"].iter() {
        assert_eq!(rt; post_send(rt.alloc(), &mut qp, 1, Op::Send), *sent);
    }
    Ok(())
}

const WRITTEN: Completion = Completion {
    id: 1,
    status: Status::Success,
    what: What::Write,
    length: 0,
    imm: None,
    qpn: 21,
};

const TAKEN: Completion = Completion {
    id: 5,
    status: Status::Success,
    what: What::Recv,
    length: 5,
    imm: Some(9),
    qpn: 21,
};

const FLUSHED: Completion = Completion {
    id: 6,
    status: Status::WrFlushErr,
    what: What::Recv,
    length: 0,
    imm: None,
    qpn: 21,
};

#[test]
fn works_end_in_the_order_in_which_they_were_posted(rt: HostRuntime) -> Result<(), Fail> {
    let mut qp = connection(rt.alloc(), None, QpState::Rts)?;
    for id in 1..3 {
        assert_eq!(rt;
            post_send(rt.alloc(), &mut qp, id, Op::Write(0, 256)),
            "did"
        );
        assert_eq!(rt; post_receive(rt.alloc(), &mut qp, id + 4), "did");
    }
    assert_eq!(rt; end_send(&mut qp, Status::Success), Some(WRITTEN));
    assert_eq!(rt; base_of(&qp), 16_777_215);
    assert_eq!(rt; end_receive(&mut qp, Status::Success), Some(TAKEN));
    fail(&mut qp);
    assert_eq!(rt; end_receive(&mut qp, Status::WrFlushErr), Some(FLUSHED));
    assert_eq!(rt; end_receive(&mut qp, Status::WrFlushErr), None);
    let (sends, receives) = closed(qp);
    assert!(rt; tells(&sends, &[1, 2], &[WRITTEN]));
    assert!(rt; tells(&receives, &[5, 6], &[TAKEN, FLUSHED]));
    Ok(())
}

fn shared(alloc: Global) -> Result<WorkQueue<RecvWork>, AllocError> {
    let mut queue = WorkQueue::new(alloc, 2)?;
    if let Some(work) = RecvWork::new(5, List::new(alloc)) {
        let _ = queue.push(work);
    }
    Ok(queue)
}

#[test]
fn a_shared_receive_is_posted_as_it_is_taken(rt: HostRuntime) -> Result<(), Fail> {
    let mut queue = shared(rt.alloc())?;
    let mut qp = connection(rt.alloc(), Some(2), QpState::Rtr)?;
    assert!(rt; hold(&mut qp, &mut queue)?);
    assert!(rt; !hold(&mut qp, &mut queue)?);
    assert_eq!(rt; end_receive(&mut qp, Status::Success), Some(TAKEN));
    let (_, receives) = closed(qp);
    assert!(rt; tells(&receives, &[5], &[TAKEN]));
    Ok(())
}

#[test]
fn a_reset_forgets_all_works(rt: HostRuntime) -> Result<(), Fail> {
    let mut qp = connection(rt.alloc(), None, QpState::Rts)?;
    for id in 1..3 {
        assert_eq!(rt; post_send(rt.alloc(), &mut qp, id, Op::Send), "did");
    }
    assert!(rt; end_send(&mut qp, Status::Success).is_some());
    assert!(rt; go(&mut qp, QpState::Reset));
    assert!(rt; end_send(&mut qp, Status::Success).is_none());
    let (sends, _) = closed(qp);
    assert!(rt; tells(&sends, &[], &[]));
    Ok(())
}

fn part(key: u32, offset: u64, length: u32) -> Sge {
    Sge {
        key,
        offset,
        length,
    }
}

/// The pieces of three parts of 4, 0 and 6 bytes, the last of which is far out.
fn are_pieces(from: u32, count: u32, wanted: &[Piece]) -> bool {
    let parts = [part(1, 10, 4), part(2, 0, 0), part(3, u64::MAX, 6)];
    pieces(&parts, from, count).as_slice() == wanted
}

#[test]
fn parts_without_bytes_have_no_pieces(rt: HostRuntime) {
    let front = Piece {
        key: 1,
        offset: 12,
        length: 2,
    };
    let far = Piece {
        key: 3,
        offset: 18_446_744_073_709_551_615,
        length: 3,
    };
    assert!(rt; are_pieces(0, 0, &[]));
    assert!(rt; are_pieces(2, 5, &[front, far]));
    let last = Piece {
        offset: 18_446_744_073_709_551_620,
        length: 1,
        ..far
    };
    assert!(rt; are_pieces(9, 5, &[last]));
}

fn is_let_in(alloc: Global, qp: &Qp, opcode: Opcode, pkey: u16) -> bool {
    qp.lets_in(&Packet {
        opcode: opcode.number(),
        solicited: false,
        migrated: false,
        pkey,
        dest: 21,
        ack: false,
        psn: 0,
        reth: None,
        aeth: None,
        imm: None,
        ieth: None,
        deth: None,
        payload: Bytes::from_vec(Vec::new(alloc)),
    })
}

#[test]
fn packets_are_let_in_by_state_and_service(rt: HostRuntime) -> Result<(), Fail> {
    let rows = [
        (QpState::Init, Opcode::SendOnly, 0xffff, false),
        (QpState::Rtr, Opcode::SendOnly, 0xffff, true),
        (QpState::Rtr, Opcode::Acknowledge, 0xffff, false),
        (QpState::Rts, Opcode::Acknowledge, 0xffff, true),
        (QpState::Rts, Opcode::ReadResponseFirst, 0xffff, true),
        (QpState::Rts, Opcode::UdSendOnly, 0xffff, false),
        (QpState::Rts, Opcode::SendOnly, 0x7fff, false),
        (QpState::Err, Opcode::SendOnly, 0xffff, false),
    ];
    for (state, opcode, pkey, passes) in rows.iter() {
        let qp = connection(rt.alloc(), None, *state)?;
        assert_eq!(rt; is_let_in(rt.alloc(), &qp, *opcode, *pkey), *passes);
    }
    Ok(())
}
