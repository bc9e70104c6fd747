//! How works end: their completions, and from where the requester counts then.

ghost use Rattle.std.specs.Prelude.{◌≡◌, ◌<◌, ◌≤◌};
ghost use Rattle.uv_num.specs.declared.limits.TheConstants.{CELLS, PSNS};
ghost use Rattle.uv_qp.specs.declared.counting.TheConstants.{WORK_PACKETS};
ghost use Rattle.uv_qp.specs.Pairs.{qpn_of};
ghost use Rattle.uv_qp.specs.Writers.{counted_from, receive_completion, send_completion, what_of};

use crate::state::{Names, Requester};
use uv_num::{FIRST_QP_NUMBER, PSNS};
use uv_wr::{Completion, Op, RecvWork, SendWork, Status, What};

/// What a send work is, as its completion tells it.
fn what_of(op: Op) -> What
    ensures { result ≡ what_of op }
{
    match op {
        Op::Send | Op::SendImm(_) => What::Send,
        Op::Write(..) | Op::WriteImm(..) => What::Write,
        Op::Read(..) => What::Read,
        Op::Ud(..) | Op::UdImm(..) => What::Ud,
    }
}

pub(crate) fn number_of(names: Names) -> u32
    requires { names.index < CELLS }
    ensures { result ≡ qpn_of names }
{
    FIRST_QP_NUMBER + names.index
}

pub(crate) fn send_completion(names: Names, status: Status, work: &SendWork) -> Completion
    requires { names.index < CELLS }
    ensures { result ≡ send_completion names status work.now }
{
    Completion {
        id: work.id(),
        status,
        what: what_of(work.op()),
        length: if status.is_failure() {
            0
        } else {
            work.length()
        },
        imm: None,
        qpn: number_of(names),
    }
}

pub(crate) fn receive_completion(
    names: Names,
    status: Status,
    length: u32,
    imm: Option<u32>,
    work: &RecvWork,
) -> Completion
    requires { names.index < CELLS }
    ensures { result ≡ receive_completion names status length imm work.now }
{
    let failed = status.is_failure();
    Completion {
        id: work.id(),
        status,
        what: What::Recv,
        length: if failed { 0 } else { length },
        imm: if failed { None } else { imm },
        qpn: number_of(names),
    }
}

/// A requester that counts from so many packets later.
pub(crate) fn counted_from(requester: Requester, packets: u32) -> Requester
    requires base { requester.base < PSNS }
    requires few { packets ≤ WORK_PACKETS }
    ensures { result ≡ counted_from requester packets }
{
    Requester {
        base: (requester.base + packets) % (PSNS as u32),
        una: requester.una.saturating_sub(packets),
        next: requester.next.saturating_sub(packets),
        high: requester.high.saturating_sub(packets),
        asked: requester.asked.saturating_sub(packets),
        ..requester
    }
}
