//! How a plan is carried out on a queue pair. Only the taking of a shared receive may run out of memory.

ghost use Rattle.std.specs.Prelude.{◌≡◌, ◌<◌, ◌++◌, true, is_some, None, Some, IfSome, OnOk, OnErr};
ghost use Rattle.uv_qp.specs.Pairs.{is_broken, next_receive};
ghost use Rattle.uv_wr.specs.Statuses.{is_failure};
ghost use Rattle.uv_responder.specs.Turns.{broken_if, completions_for, receive_ended_by, settled, shared_after, taken, MaySettle, MayTake};

use crate::planning::{Ending, Plan};
use std::alloc::AllocError;
use uv_num::Stock;
use uv_qp::Qp;
use uv_queue::WorkQueue;
use uv_wr::{Completion, RecvWork};

/// Takes a receive of its own queue, if one is to be taken.
pub(crate) fn take_own(takes: bool, qp: &mut Qp)
    requires { MayTake takes qp.old None }
    ensures { qp.new ≡ taken takes qp.old None }
{
    if takes {
        qp.hold_receive();
    }
}

/// Takes a receive of the shared queue, if one is to be taken. On an error nothing has changed.
pub(crate) fn take_shared(
    takes: bool,
    qp: &mut Qp,
    queue: &mut WorkQueue<RecvWork>,
) -> Result<(), AllocError>
    requires shared { qp.old.srq ≡ true }
    requires may { MayTake takes qp.old (Some queue.old) }
    ensures ok { OnOk result (qp.new ≡ taken takes qp.old (Some queue.old)) }
    ensures ok_queue { OnOk result (Some queue.new ≡ shared_after takes (Some queue.old)) }
    ensures err { OnErr result (qp.new ≡ qp.old) }
    ensures err_queue { OnErr result (queue.new ≡ queue.old) }
{
    if takes { qp.hold_shared(queue) } else { Ok(()) }
}

fn break_if(breaks: bool, qp: &mut Qp)
    ensures { qp.new ≡ broken_if breaks qp.old }
{
    if breaks {
        qp.fail();
    }
}

/// Ends the next receive, if it ends, and puts its completion after the others.
fn end_receive(ends: Option<Ending>, qp: &mut Qp, told: &mut Stock<Completion>)
    requires next { IfSome ends (λ e. is_some (next_receive qp.old) ≡ true) }
    requires status { IfSome ends (λ e. is_failure e.status ≡ is_broken qp.old.state) }
    requires room { 0 < told.old.room }
    ensures pair { qp.new ≡ receive_ended_by ends qp.old }
    ensures told { told.new.items ≡ told.old.items ++ completions_for qp.old.names ends (next_receive qp.old) }
{
    if let Some(end) = ends {
        told.put(qp.complete_receive(end.status, end.length, end.imm));
    }
}

/// Breaks the queue pair, ends the receive and puts the responder elsewhere, as a plan has it. It takes no memory.
pub(crate) fn settle(plan: Plan, qp: &mut Qp, told: &mut Stock<Completion>)
    requires may { MaySettle plan qp.old }
    requires room { 0 < told.old.room }
    ensures pair { qp.new ≡ settled plan qp.old }
    ensures told { told.new.items ≡ told.old.items ++ completions_for qp.old.names plan.ends (next_receive qp.old) }
{
    break_if(plan.breaks, qp);
    end_receive(plan.ends, qp, told);
    qp.set_responder(plan.responder);
}
