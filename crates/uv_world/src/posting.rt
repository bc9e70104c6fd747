//! Posts of works.

ghost use Rattle.std.specs.Prelude.{◌≡◌, Some};
ghost use Rattle.uv_world.specs.Holdings.{held_of};
ghost use Rattle.uv_world.specs.Named.{OnlyContents, cells_under, stage_holding, value_named};
ghost use Rattle.uv_world.specs.Owing.{IsHoused};
ghost use Rattle.uv_world.specs.Posting.{ReceiveAnswers, SharedAnswers, held_receive_posted, held_srq_posted, receive_tried, shared_tried, state_alone_refuses};
ghost use Rattle.uv_world.specs.Seating.{IsWorld, stage_of};

use crate::cells::Cell;
use crate::content::{Connected, Shared};
use crate::contents::Contents;
use crate::world::World;
use std::alloc::{AllocError, Global};
use uv_num::{List, QpState};
use uv_qp::{Posted, Qp};
use uv_wr::{RecvWork, Tried};

/// Posts to a shared receive queue.
fn post_shared(queue: &mut Shared, work: RecvWork) -> Tried<RecvWork>
    ensures answer { SharedAnswers work (Some queue.old) result }
    ensures queue { queue.new ≡ shared_tried work result queue.old }
{
    if queue.works.len() >= queue.works.depth() {
        return Tried::Full(work);
    }
    match queue.posted.post(work.id()) {
        Err(AllocError) => Tried::NoMemory(work),
        Ok(()) => match queue.works.push(work) {
            Ok(()) => Tried::Did,
            Err(_) => unreachable!(),
        },
    }
}

/// Whether the state is all that refuses a receive.
fn state_alone_refuses(qp: &Qp) -> bool
    ensures { result ≡ state_alone_refuses qp.now }
{
    match qp.state() {
        QpState::Reset => !qp.has_srq(),
        QpState::Init | QpState::Rtr | QpState::Rts | QpState::Err => false,
    }
}

/// Posts a receive to a queue pair.
fn post_receive(pair: &mut Connected, alloc: Global, work: RecvWork) -> Tried<RecvWork>
    ensures answer { ReceiveAnswers work (Some pair.old) result }
    ensures pair { pair.new ≡ receive_tried work result pair.old }
{
    let by_state = state_alone_refuses(&pair.qp);
    match pair.qp.post_recv(alloc, work) {
        Posted::Did => Tried::Did,
        Posted::Inval(work) => Tried::Inval { work, by_state },
        Posted::Full(work) => Tried::Full(work),
        Posted::NoMemory(work) => Tried::NoMemory(work),
    }
}

fn post_srq(shared: &mut List<Cell<Shared>>, srq: (u32, u32), work: RecvWork) -> Tried<RecvWork>
    ensures answer { SharedAnswers work (value_named shared.old srq) result }
    ensures shared { shared.new ≡ cells_under shared.old srq (shared_tried work result) }
{
    let (index, generation) = srq;
    let at = index as usize;
    if at < shared.len() {
        let cell = shared.item_mut(at);
        if cell.generation == generation {
            if let Some(queue) = &mut cell.value {
                return post_shared(queue, work);
            }
        }
    }
    Tried::Dead(0, work)
}

fn post_recv(
    pairs: &mut List<Cell<Connected>>,
    alloc: Global,
    qp: (u32, u32),
    work: RecvWork,
) -> Tried<RecvWork>
    ensures answer { ReceiveAnswers work (value_named pairs.old qp) result }
    ensures pairs { pairs.new ≡ cells_under pairs.old qp (receive_tried work result) }
{
    let (index, generation) = qp;
    let at = index as usize;
    if at < pairs.len() {
        let cell = pairs.item_mut(at);
        if cell.generation == generation {
            if let Some(pair) = &mut cell.value {
                return post_receive(pair, alloc, work);
            }
        }
    }
    Tried::Dead(0, work)
}

/// Posts.
impl Contents {
    /// Posts a work to a shared receive queue.
    pub fn post_srq(&mut self, srq: (u32, u32), work: RecvWork) -> Tried<RecvWork>
        requires housed { IsHoused self.old }
        ensures answer { SharedAnswers work (value_named (held_of self.old).shared srq) result }
        ensures held { held_of self.new ≡ held_srq_posted (held_of self.old) srq work result }
        ensures housed { IsHoused self.new }
    {
        post_srq(&mut self.shared, srq, work)
    }

    /// Posts a receive to a queue pair.
    pub fn post_recv(&mut self, alloc: Global, qp: (u32, u32), work: RecvWork) -> Tried<RecvWork>
        requires housed { IsHoused self.old }
        ensures answer { ReceiveAnswers work (value_named (held_of self.old).pairs qp) result }
        ensures held { held_of self.new ≡ held_receive_posted (held_of self.old) qp work result }
        ensures housed { IsHoused self.new }
    {
        post_recv(&mut self.pairs, alloc, qp, work)
    }
}

/// Posts. A queue is named by the index and the generation of its cell. `Dead(0, ..)` comes exactly where the cell isn't live under
/// that generation, before all refusals, and `Again` never. Every answer but `Did` hands the work back, and then nothing has
/// changed. Out of memory is met last.
impl World {
    /// Posts a work to a shared receive queue (`rxe_verbs.c`, `rxe_post_srq_recv`). `Full`: it has as many works as its depth.
    /// `Inval` never comes.
    pub fn post_srq(&mut self, _alloc: Global, srq: (u32, u32), work: RecvWork) -> Tried<RecvWork>
        requires world { IsWorld self.old }
        ensures answer { SharedAnswers work (value_named (held_of self.old.contents).shared srq) result }
        ensures stage { stage_of self.new ≡ stage_holding (stage_of self.old) (held_srq_posted (held_of self.old.contents) srq work result) }
        ensures only { OnlyContents self.old self.new }
        ensures world { IsWorld self.new }
    {
        self.contents.post_srq(srq, work)
    }

    /// Posts a receive to a queue pair (`rxe_verbs.c`, `rxe_post_recv`). `Inval` (EINVAL): it is in RESET, or has a shared receive
    /// queue; `by_state` says that the state alone refuses. `Full`: it has as many works as its depth.
    pub fn post_recv(&mut self, alloc: Global, qp: (u32, u32), work: RecvWork) -> Tried<RecvWork>
        requires world { IsWorld self.old }
        ensures answer { ReceiveAnswers work (value_named (held_of self.old.contents).pairs qp) result }
        ensures stage { stage_of self.new ≡ stage_holding (stage_of self.old) (held_receive_posted (held_of self.old.contents) qp work result) }
        ensures only { OnlyContents self.old self.new }
        ensures world { IsWorld self.new }
    {
        self.contents.post_recv(alloc, qp, work)
    }
}
