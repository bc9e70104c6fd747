//! The send turn.

ghost use Rattle.std.specs.Prelude.{◌≡◌};
ghost use Rattle.uv_requester.specs.Ends.{LentGives, MadeGives};
ghost use Rattle.uv_requester.specs.Turns.{lent_by_turn, lent_in_state, made_in_state, send_turn_made};

use crate::answering::{answer, answered_read};
use crate::ending::flush;
use crate::sending::send;
use std::alloc::Global;
use uv_num::QpState;
use uv_qp::{Qp, TurnDone};
use uv_region::Regions;

/// Makes one send turn of a queue pair: the next response of a read that is answered, else the flush of a work where the queue
/// pair is broken, else the next packet of a work (`rxe_requester`, `rxe_req.c`; `rxe_responder`, `rxe_resp.c`). It is idle
/// exactly where there is none of these to do. Out of memory nothing that counts has changed.
pub fn turn(alloc: Global, qp: &mut Qp, regions: &mut Regions) -> TurnDone
    ensures pair { MadeGives qp.old (send_turn_made qp.old regions.old) result qp.new }
    ensures lent { LentGives regions.old (lent_by_turn qp.old regions.old) result regions.new }
{
    match answered_read(qp) {
        Some(reading) => answer(alloc, qp, regions, reading),
        None => go_on(alloc, qp, regions),
    }
}

fn go_on(alloc: Global, qp: &mut Qp, regions: &mut Regions) -> TurnDone
    ensures pair { MadeGives qp.old (made_in_state qp.old regions.old qp.old.state) result qp.new }
    ensures lent { LentGives regions.old (lent_in_state qp.old regions.old qp.old.state) result regions.new }
{
    match qp.state() {
        QpState::Rts => send(alloc, qp, regions),
        QpState::Err => flush(alloc, qp),
        QpState::Reset | QpState::Init | QpState::Rtr => TurnDone::Idle,
    }
}
