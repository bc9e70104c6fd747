//! Posts of sends.

ghost use Rattle.std.specs.Prelude.{◌≡◌, None, Some};
ghost use Rattle.uv_qp.specs.Services.{fits_service};
ghost use Rattle.uv_qp.specs.Pairs.{takes_sends};
ghost use Rattle.uv_world.specs.Holdings.{held_of};
ghost use Rattle.uv_world.specs.Named.{OnlyContents, cells_under, stage_holding, value_named};
ghost use Rattle.uv_world.specs.Owing.{IsHoused};
ghost use Rattle.uv_world.specs.Seating.{IsWorld, stage_of};
ghost use Rattle.uv_world.specs.Sending.{HandleAnswers, PairAnswers, SendAnswers, held_send_posted, is_of_domain, send_tried, sending_by, state_alone_refuses_send};

use crate::cells::Cell;
use crate::content::{Addressed, Connected};
use crate::contents::Contents;
use crate::world::World;
use std::alloc::Global;
use uv_num::{DEVICES, List, QpState, Service};
use uv_qp::{Posted, Qp};
use uv_wr::{Op, SendWork, Tried};

fn takes_sends(state: QpState) -> bool
    ensures { result ≡ takes_sends state }
{
    match state {
        QpState::Reset | QpState::Init | QpState::Rtr => false,
        QpState::Rts | QpState::Err => true,
    }
}

fn fits_service(service: Service, op: Op) -> bool
    ensures { result ≡ fits_service service op }
{
    match op {
        Op::Send | Op::SendImm(_) | Op::Write(..) | Op::WriteImm(..) | Op::Read(..) => {
            matches!(service, Service::Rc)
        }
        Op::Ud(..) | Op::UdImm(..) => matches!(service, Service::Ud),
    }
}

fn is_of_domain(handle: Option<Addressed>, domain: u32) -> bool
    ensures { result ≡ is_of_domain handle domain }
{
    match handle {
        None => true,
        Some(ah) => ah.domain == domain,
    }
}

/// Whether the state is all that refuses a send.
fn state_alone_refuses(handle: Option<Addressed>, work: &SendWork, qp: &Qp) -> bool
    ensures { result ≡ state_alone_refuses_send handle work.now qp.now }
{
    is_of_domain(handle, qp.domain())
        && (!takes_sends(qp.state()) && fits_service(qp.service(), work.op()))
}

/// The work, going to the device that its address handle leads to.
fn to_handle(handle: Addressed, work: SendWork) -> SendWork
    ensures { result ≡ sending_by (Some handle) work }
{
    if handle.device < DEVICES as u64 {
        work.to_device(handle.device as u32)
    } else {
        work
    }
}

/// The address handle that is named.
fn handle_named(addresses: &List<Cell<Addressed>>, ah: (u32, u32)) -> Option<Addressed>
    ensures { result ≡ value_named addresses.now ah }
{
    let (index, generation) = ah;
    match addresses.get(index as usize) {
        None => None,
        Some(cell) => {
            if cell.generation == generation {
                cell.value
            } else {
                None
            }
        }
    }
}

/// Posts a send to a queue pair.
fn post_to_pair(
    pair: &mut Connected,
    alloc: Global,
    handle: Option<Addressed>,
    work: SendWork,
) -> Tried<SendWork>
    ensures answer { PairAnswers handle work (Some pair.old) result }
    ensures pair { pair.new ≡ send_tried work result pair.old }
{
    let by_state = state_alone_refuses(handle, &work, &pair.qp);
    if !is_of_domain(handle, pair.qp.domain()) {
        return Tried::Inval { work, by_state };
    }
    match pair.qp.post_send(alloc, work) {
        Posted::Did => Tried::Did,
        Posted::Inval(work) => Tried::Inval { work, by_state },
        Posted::Full(work) => Tried::Full(work),
        Posted::NoMemory(work) => Tried::NoMemory(work),
    }
}

fn post_send(
    pairs: &mut List<Cell<Connected>>,
    alloc: Global,
    qp: (u32, u32),
    handle: Option<Addressed>,
    work: SendWork,
) -> Tried<SendWork>
    ensures answer { PairAnswers handle work (value_named pairs.old qp) result }
    ensures pairs { pairs.new ≡ cells_under pairs.old qp (send_tried work result) }
{
    let (index, generation) = qp;
    let at = index as usize;
    if at < pairs.len() {
        let cell = pairs.item_mut(at);
        if cell.generation == generation {
            if let Some(pair) = &mut cell.value {
                return post_to_pair(pair, alloc, handle, work);
            }
        }
    }
    Tried::Dead(0, work)
}

/// Posts of sends.
impl Contents {
    /// Posts a send for which no address handle is named.
    fn post_plain(&mut self, alloc: Global, qp: (u32, u32), work: SendWork) -> Tried<SendWork>
        requires housed { IsHoused self.old }
        ensures answer { SendAnswers (held_of self.old) qp None work result }
        ensures held { held_of self.new ≡ held_send_posted (held_of self.old) qp None work result }
        ensures housed { IsHoused self.new }
    {
        post_send(&mut self.pairs, alloc, qp, None, work)
    }

    /// Posts a send by an address handle.
    fn post_by(
        &mut self,
        alloc: Global,
        qp: (u32, u32),
        ah: (u32, u32),
        work: SendWork,
    ) -> Tried<SendWork>
        requires housed { IsHoused self.old }
        ensures answer { SendAnswers (held_of self.old) qp (Some ah) work result }
        ensures held { held_of self.new ≡ held_send_posted (held_of self.old) qp (Some ah) work result }
        ensures housed { IsHoused self.new }
    {
        match handle_named(&self.addresses, ah) {
            None => Tried::Dead(0, work),
            Some(handle) => {
                let work = to_handle(handle, work);
                post_send(&mut self.pairs, alloc, qp, Some(handle), work)
            }
        }
    }

    /// Posts a send to a queue pair.
    pub fn post_send(
        &mut self,
        alloc: Global,
        qp: (u32, u32),
        ah: Option<(u32, u32)>,
        work: SendWork,
    ) -> Tried<SendWork>
        requires housed { IsHoused self.old }
        ensures answer { SendAnswers (held_of self.old) qp ah work result }
        ensures held { held_of self.new ≡ held_send_posted (held_of self.old) qp ah work result }
        ensures housed { IsHoused self.new }
    {
        match ah {
            None => self.post_plain(alloc, qp, work),
            Some(name) => self.post_by(alloc, qp, name, work),
        }
    }
}

impl World {
    /// Posts a send to a queue pair (`rxe_verbs.c`, `rxe_post_send`), a datagram by an address handle, which has the device that it
    /// goes to. Both are named by the index and the generation of their cells. `Dead(0, ..)` comes exactly where one of the cells isn't
    /// live under its generation, before all refusals, and `Again` never. `Inval` (EINVAL): the pair is in RESET, INIT or RTR, the
    /// operation isn't one of its service, or the handle is of another domain; `by_state` says that the state alone refuses. `Full`:
    /// the queue has as many works as its depth. Out of memory is met last. Every answer but `Did` hands the work back, a datagram
    /// with the device of its handle where that is live, and then nothing has changed.
    pub fn post_send(
        &mut self,
        alloc: Global,
        qp: (u32, u32),
        ah: Option<(u32, u32)>,
        work: SendWork,
    ) -> Tried<SendWork>
        requires world { IsWorld self.old }
        ensures answer { SendAnswers (held_of self.old.contents) qp ah work result }
        ensures stage { stage_of self.new ≡ stage_holding (stage_of self.old) (held_send_posted (held_of self.old.contents) qp ah work result) }
        ensures only { OnlyContents self.old self.new }
        ensures world { IsWorld self.new }
    {
        self.contents.post_send(alloc, qp, ah, work)
    }
}
