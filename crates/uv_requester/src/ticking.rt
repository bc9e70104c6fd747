//! The tick: time has passed without an answer.

ghost use Rattle.std.specs.Prelude.{◌≡◌, ◌≤◌, ◌<◌, true, Some};
ghost use Rattle.uv_num.specs.declared.limits.TheConstants.{MOST_RETRIES};
ghost use Rattle.uv_qp.specs.Pairs.{packets_waiting, retries_of, IsRequesting};
ghost use Rattle.uv_requester.specs.Ends.{MadeGives};
ghost use Rattle.uv_requester.specs.Ticks.{is_outstanding, is_sending_state, put_elsewhere, tick_made, ticked};

use crate::ending::fail_at;
use std::alloc::Global;
use uv_num::{List, QpState};
use uv_qp::{Qp, Requester, TurnDone, TurnWord};
use uv_wr::Status;

/// Whether requests are sent in a state.
pub(crate) fn is_sending_state(state: QpState) -> bool
    ensures { result ≡ is_sending_state state }
{
    match state {
        QpState::Rts => true,
        QpState::Reset | QpState::Init | QpState::Rtr | QpState::Err => false,
    }
}

fn is_outstanding(requester: Requester) -> bool
    ensures { result ≡ is_outstanding requester }
{
    requester.una < requester.high
}

/// Tells a queue pair that time has passed without an answer (`retransmit_timer`, `rxe_comp.c`; `rnr_nak_timer`,
/// `rxe_req.c`). It is idle exactly where the state isn't RTS or no packet waits for an answer. One that waited for the peer to
/// be ready is woken, and sends again from the oldest packet without an answer. Else it sends again from there, which uses one
/// of its resends; where none is left, the oldest work ends with `RetryExcErr`, and the queue pair is broken. Linux takes 7
/// resends for resends without end; here they are 7.
pub fn tick(alloc: Global, qp: &mut Qp) -> TurnDone
    ensures { MadeGives qp.old (tick_made qp.old) result qp.new }
{
    if !(is_sending_state(qp.state()) && is_outstanding(qp.requester())) {
        return TurnDone::Idle;
    }
    wake_or_resend(alloc, qp)
}

fn wake_or_resend(alloc: Global, qp: &mut Qp) -> TurnDone
    requires outstanding { is_outstanding qp.old.requester ≡ true }
    ensures { MadeGives qp.old (Some (ticked qp.old)) result qp.new }
{
    let requester = qp.requester();
    if requester.paused {
        let woken = Requester {
            next: requester.una,
            paused: false,
            ..requester
        };
        return put_elsewhere(alloc, TurnWord::Woken, qp, woken);
    }
    if requester.retried < qp.retries() {
        let resent = Requester {
            next: requester.una,
            retried: requester.retried + 1,
            ..requester
        };
        return put_elsewhere(alloc, TurnWord::Resent, qp, resent);
    }
    fail_at(alloc, qp, 0, Status::RetryExcErr)
}

/// Puts the requester elsewhere, and tells that by a word.
fn put_elsewhere(alloc: Global, word: TurnWord, qp: &mut Qp, requester: Requester) -> TurnDone
    requires { IsRequesting requester (packets_waiting qp.old) }
    ensures { MadeGives qp.old (Some (put_elsewhere word qp.old requester)) result qp.new }
{
    qp.set_requester(requester);
    TurnDone::Turned {
        word,
        to: 0,
        packets: List::new(alloc),
        completions: List::new(alloc),
    }
}
