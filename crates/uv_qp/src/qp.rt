//! A queue pair.

ghost use Rattle.std.specs.Prelude.{◌≡◌, ◌<◌, ◌≤◌, Some, [], true, false, is_some, unwrap_or, length, IfOk, OnOk, OnErr};
ghost use Rattle.std.specs.Option.{option_copied, option_map};
ghost use Rattle.uv_num.specs.declared.limits.TheConstants.{CELLS, DEVICES, MOST_RETRIES, MOST_TIME, PSNS, QKEYS, QP_NUMBERS, QUEUE_DEPTH};
ghost use Rattle.uv_num.specs.declared.kind.Kind.TheVariants as Kind;
ghost use Rattle.uv_num.specs.declared.qp.QpState.TheVariants as QpState;
ghost use Rattle.uv_num.specs.declared.request.Role.TheVariants as Role;
ghost use Rattle.uv_num.specs.Ranges.{attrs_in_range, is_in_range};
ghost use Rattle.uv_num.specs.Request.{role_of};
ghost use Rattle.uv_packet.specs.Packets.{content_of};
ghost use Rattle.uv_queue.specs.Order.{oldest};
ghost use Rattle.uv_queue.specs.Queued.{after_pop};
ghost use Rattle.uv_wr.specs.Statuses.{is_failure};
ghost use Rattle.uv_qp.specs.declared.ledger.Which.TheVariants as Which;
ghost use Rattle.uv_packet.specs.Opcodes.{opcode_of};
ghost use Rattle.uv_qp.specs.Gate.{lets_in, takes_opcode};
ghost use Rattle.uv_qp.specs.Ledgers.{IsOrdered};
ghost use Rattle.uv_qp.specs.Makings.{pair_made_by, pair_named, unused};
ghost use Rattle.uv_qp.specs.Moves.{has_row, move_answer, pair_moved_by, pair_moved_to, reset, verdict_of};
ghost use Rattle.uv_qp.specs.Pairs.{access_of, has_begun, is_broken, is_send, mtu_of, next_receive, next_send, qpn_of, packets_waiting, peer_of, peer_device_of, qkey_of, receives_posted, retries_of, rnr_retries_of, rnr_timer_of, sends_posted, takes_receives, takes_sends, HasPlacesInOrder, IsPaired, IsRequesting, IsResponding};
ghost use Rattle.uv_wr.specs.Works.{IsAddressed};
ghost use Rattle.uv_qp.specs.Services.{fits_service};
ghost use Rattle.uv_qp.specs.Posts.{may_receive, may_send, PostsReceive, PostsSend};
ghost use Rattle.uv_qp.specs.Writers.{broken, held_from_queue, held_from_shared, receive_completed, receive_completion, send_completed, send_completion, with_requester, with_responder};

use crate::counting::packets_of;
use crate::ending::{counted_from, number_of, receive_completion, send_completion};
use crate::gate::{DEFAULT_PKEY, is_opcode_of, is_response, takes_packet};
use crate::kept::{first_expected, first_sent, over};
use crate::ledger::{Ledger, QueueList, Which};
use crate::state::{Message, Names, Requester, Responder, expecting, starting};
use std::alloc::{AllocError, Global};
use std::marker::Model;
use uv_num::{Errno, QpAttrs, QpState, Request, Service, modify};
use uv_packet::{Opcode, Packet};
use uv_queue::WorkQueue;
use uv_wr::{Completion, Op, RecvWork, SendWork, Status};

/// What came of a post. All but `Did` hand the work back, and nothing has changed.
#[derive(Debug, Drop)]
pub enum Posted<W> {
    /// The work waits in its queue.
    Did,
    /// The state, the service or a shared receive queue refuses it (EINVAL).
    Inval(W),
    /// The queue has as many works as it may have.
    Full(W),
    /// Out of memory.
    NoMemory(W),
}

/// A queue pair (`struct rxe_qp`, `rxe_verbs.h`). Only its making and its posts take memory, and the receive that it takes of
/// a shared queue: a work that was posted has room for its completion.
#[derive(Drop)]
pub struct Qp {
    names: Names,
    service: Service,
    srq: bool,
    state: QpState,
    kept: QpAttrs,
    requester: Requester,
    responder: Responder,
    held: Option<RecvWork>,
    sends: WorkQueue<SendWork>,
    receives: WorkQueue<RecvWork>,
    sent: Ledger,
    received: Ledger,
}

impl Model for Qp {
    ghost use Rattle.uv_qp.specs.Pairs.{Paired};

    ghost Value = { Paired };

    ghost use Rattle.uv_qp.specs.Inside.{seen_pair, Fits};

    ghost view = { seen_pair };

    ghost invariant = { Fits };
}

fn takes_receives(state: QpState) -> bool
    ensures { result ≡ takes_receives state }
{
    match state {
        QpState::Reset => false,
        QpState::Init | QpState::Rtr | QpState::Rts | QpState::Err => true,
    }
}

fn takes_sends(state: QpState) -> bool
    ensures { result ≡ takes_sends state }
{
    match state {
        QpState::Reset | QpState::Init | QpState::Rtr => false,
        QpState::Rts | QpState::Err => true,
    }
}

fn fits_service(service: Service, op: Op) -> bool
    ensures { result ≡ fits_service service op }
{
    match (service, op) {
        (
            Service::Rc,
            Op::Send | Op::SendImm(_) | Op::Write(..) | Op::WriteImm(..) | Op::Read(..),
        ) => true,
        (Service::Rc, Op::Ud(..) | Op::UdImm(..)) => false,
        (
            Service::Ud,
            Op::Send | Op::SendImm(_) | Op::Write(..) | Op::WriteImm(..) | Op::Read(..),
        ) => false,
        (Service::Ud, Op::Ud(..) | Op::UdImm(..)) => true,
    }
}

impl Qp {
    /// The queue pair that a request asks for, in RESET. It takes the memory of both queues.
    pub fn new(
        alloc: Global,
        object: u32,
        domain: u32,
        index: u32,
        device: u32,
        request: &Request,
    ) -> Result<Qp, AllocError>
        requires cell { index < CELLS }
        requires creates { role_of request.now ≡ Role.Creates Kind.Qp }
        requires range { is_in_range request.now ≡ true }
        ensures { IfOk result (λ q. Some q ≡ pair_made_by (record { object = object; domain = domain; index = index; device = device }) request.now) }
    {
        let names = Names {
            object,
            domain,
            index,
            device,
        };
        match request {
            Request::CreateQp {
                srq,
                service,
                send_depth,
                recv_depth,
                ..
            } => match Service::from_number(*service) {
                Some(service) => Qp::unused(
                    alloc,
                    names,
                    srq.is_some(),
                    *send_depth as u32,
                    *recv_depth as u32,
                    service,
                ),
                None => unreachable!(),
            },
            _ => unreachable!(),
        }
    }

    fn unused(
        alloc: Global,
        names: Names,
        srq: bool,
        send_depth: u32,
        recv_depth: u32,
        service: Service,
    ) -> Result<Qp, AllocError>
        requires cell { names.index < CELLS }
        requires some_sends { 1 ≤ send_depth }
        requires sends { send_depth ≤ QUEUE_DEPTH }
        requires some_receives { 1 ≤ recv_depth }
        requires receives { recv_depth ≤ QUEUE_DEPTH }
        ensures { IfOk result (λ q. q ≡ unused names srq send_depth recv_depth service) }
    {
        Ok(Qp {
            names,
            service,
            srq,
            state: QpState::Reset,
            kept: QpAttrs::none(),
            requester: starting(0),
            responder: expecting(0),
            held: None,
            sends: WorkQueue::new(alloc, send_depth)?,
            receives: WorkQueue::new(alloc, recv_depth)?,
            sent: Ledger::new(alloc),
            received: Ledger::new(alloc),
        })
    }

    /// Tells a queue pair to which nothing was posted what it is known by: its object, its domain, its cell, and the device
    /// of the file that made it. It takes no memory.
    pub fn name(&mut self, object: u32, domain: u32, index: u32, device: u32)
        requires cell { index < CELLS }
        requires reset { self.old.state ≡ QpState.Reset }
        requires sends { sends_posted self.old ≡ [] }
        requires receives { receives_posted self.old ≡ [] }
        ensures { self.new ≡ pair_named self.old (record { object = object; domain = domain; index = index; device = device }) }
    {
        self.names = Names {
            object,
            domain,
            index,
            device,
        };
    }

    /// Its Send list and its Receive list. It takes no memory.
    pub fn close(self) -> (QueueList, QueueList)
        ensures sends { result.0 ≡ record { object = self.names.object; which = Which.Send; posted = sends_posted self; completed = self.sent } }
        ensures receives { result.1 ≡ record { object = self.names.object; which = Which.Receive; posted = receives_posted self; completed = self.received } }
        ensures sends_ordered { IsOrdered result.0.posted result.0.completed }
        ensures receives_ordered { IsOrdered result.1.posted result.1.completed }
    {
        let Qp {
            names,
            service: _,
            srq: _,
            state: _,
            kept: _,
            requester: _,
            responder: _,
            held: _,
            sends: _,
            receives: _,
            sent,
            received,
        } = self;
        (
            sent.into_list(names.object, Which::Send),
            received.into_list(names.object, Which::Receive),
        )
    }

    /// What is true of every queue pair.
    pub fn keeps(&self)
        ensures paired { IsPaired self.now }
        ensures ordered { HasPlacesInOrder self.now }
    {
        self.sent.is_in_order();
        self.received.is_in_order();
    }
}

/// Moves.
impl Qp {
    /// Moves to another state by the table of moves (`ib_modify_qp_is_ok`, `core/verbs.c`; `rxe_qp_from_attr`, `rxe_qp.c`).
    /// EINVAL comes exactly where the table refuses the move, and then nothing has changed. What is given is kept until the
    /// next move to RESET. A move to RESET empties both queues without completions, and the lists begin anew; a move to ERR
    /// leaves the queues.
    #[tactic(auto, using(crate::proofs::Rows::has_row_of_ok))]
    pub fn modify(&mut self, to: QpState, attrs: &QpAttrs) -> Result<(), Errno>
        requires { attrs_in_range attrs.now ≡ true }
        ensures pair { self.new ≡ pair_moved_by self.old (verdict_of self.old to attrs.now) attrs.now }
        ensures answer { result ≡ move_answer (verdict_of self.old to attrs.now) }
    {
        let to = modify(
            u64::from(self.service.number()),
            self.state,
            u64::from(to.number()),
            attrs,
        )?;
        self.move_to(to, attrs);
        Ok(())
    }

    /// Puts it in a state to which there is a row.
    fn move_to(&mut self, to: QpState, attrs: &QpAttrs)
        requires row { has_row self.old.state to ≡ true }
        requires range { attrs_in_range attrs.now ≡ true }
        ensures { self.new ≡ pair_moved_to self.old to attrs.now }
    {
        match to {
            QpState::Reset => self.reset(),
            QpState::Init => {
                self.state = QpState::Init;
                self.kept = over(attrs, &self.kept);
            }
            QpState::Rtr => {
                self.state = QpState::Rtr;
                self.kept = over(attrs, &self.kept);
                self.responder = expecting(first_expected(attrs));
            }
            QpState::Rts => {
                self.state = QpState::Rts;
                self.kept = over(attrs, &self.kept);
                self.requester = starting(first_sent(attrs));
            }
            QpState::Err => self.state = QpState::Err,
        }
    }

    /// Begins anew.
    fn reset(&mut self)
        ensures { self.new ≡ reset self.old }
    {
        self.state = QpState::Reset;
        self.kept = QpAttrs::none();
        self.requester = starting(0);
        self.responder = expecting(0);
        self.held = None;
        self.sends.clear();
        self.receives.clear();
        self.sent.clear();
        self.received.clear();
    }
}

/// Posts.
impl Qp {
    /// Whether it takes this send.
    fn may_send(&self, work: &SendWork) -> bool
        ensures may { result ≡ may_send self.now work.now }
        ensures addressed { IsAddressed work.now.op }
    {
        let op = work.op();
        takes_sends(self.state) && fits_service(self.service, op)
    }

    /// Whether it takes receives.
    fn may_receive(&self) -> bool
        ensures { result ≡ may_receive self.now }
    {
        takes_receives(self.state) && !self.srq
    }

    /// Posts a send (`rxe_post_send`, `rxe_verbs.c`). `Inval` comes exactly where the state is RESET, INIT or RTR, or the
    /// operation isn't one of the service; else `Full` exactly where the queue has as many works as its depth. The address
    /// handle of a datagram and its domain are looked at before, by whoever has them.
    pub fn post_send(&mut self, _alloc: Global, work: SendWork) -> Posted<SendWork>
        ensures { PostsSend self.old work self.new result }
    {
        if !self.may_send(&work) {
            return Posted::Inval(work);
        }
        if self.sends.len() >= self.sends.depth() {
            return Posted::Full(work);
        }
        match self.sent.post(work.id()) {
            Err(AllocError) => Posted::NoMemory(work),
            Ok(()) => match self.sends.push(work) {
                Ok(()) => Posted::Did,
                Err(_) => unreachable!(),
            },
        }
    }

    /// Posts a receive (`rxe_post_recv`, `rxe_verbs.c`). `Inval` comes exactly where the state is RESET, or the queue pair has
    /// a shared receive queue; else `Full` exactly where the queue has as many works as its depth.
    pub fn post_recv(&mut self, _alloc: Global, work: RecvWork) -> Posted<RecvWork>
        ensures { PostsReceive self.old work self.new result }
    {
        if !self.may_receive() {
            return Posted::Inval(work);
        }
        if self.receives.len() >= self.receives.depth() {
            return Posted::Full(work);
        }
        match self.received.post(work.id()) {
            Err(AllocError) => Posted::NoMemory(work),
            Ok(()) => match self.receives.push(work) {
                Ok(()) => Posted::Did,
                Err(_) => unreachable!(),
            },
        }
    }
}

/// Readers. None takes memory.
impl Qp {
    /// What it is known by.
    pub fn names(&self) -> Names
        ensures names { result ≡ self.now.names }
        ensures cell { result.index < CELLS }
    {
        self.names
    }

    /// The id of its protection domain.
    pub fn domain(&self) -> u32
        ensures { result ≡ self.now.names.domain }
    {
        self.names.domain
    }

    /// Its number, which packets and completions have: below `QP_NUMBERS`.
    pub fn number(&self) -> u32
        ensures number { result ≡ qpn_of self.now.names }
        ensures range { result < QP_NUMBERS }
    {
        number_of(self.names)
    }

    /// Its state.
    pub fn state(&self) -> QpState
        ensures { result ≡ self.now.state }
    {
        self.state
    }

    /// Whether requests may have come in: not in RESET, nor in INIT.
    pub fn has_begun(&self) -> bool
        ensures { result ≡ has_begun self.now.state }
    {
        match self.state {
            QpState::Reset | QpState::Init => false,
            QpState::Rtr | QpState::Rts | QpState::Err => true,
        }
    }

    /// Whether it is broken, so that works fail.
    pub fn is_broken(&self) -> bool
        ensures { result ≡ is_broken self.now.state }
    {
        match self.state {
            QpState::Reset | QpState::Init | QpState::Rtr | QpState::Rts => false,
            QpState::Err => true,
        }
    }

    /// Its service.
    pub fn service(&self) -> Service
        ensures { result ≡ self.now.service }
    {
        self.service
    }

    /// Whether its receives are those of a shared receive queue.
    pub fn has_srq(&self) -> bool
        ensures { result ≡ self.now.srq }
    {
        self.srq
    }

    /// The attributes that it was given since the last move to RESET, a later value in place of an earlier one.
    pub fn attrs(&self) -> QpAttrs
        ensures attrs { result ≡ self.now.kept }
        ensures range { attrs_in_range result ≡ true }
    {
        self.kept
    }

    /// The remote rights that it gives (`IB_QP_ACCESS_FLAGS`), 0 where none were given.
    pub fn access(&self) -> u64
        ensures { result ≡ access_of self.now }
    {
        self.kept.access.unwrap_or(0)
    }

    /// The path MTU in bytes, 256 where none was given.
    #[tactic(auto, using(crate::proofs::Keeping::mtu_least, crate::proofs::Keeping::mtu_most))]
    pub fn mtu(&self) -> u64
        ensures mtu { result ≡ mtu_of self.now }
        ensures least { 256 ≤ result }
        ensures most { result ≤ 4096 }
    {
        self.kept.mtu.unwrap_or(256)
    }

    /// The number of the queue pair that it is connected to (`IB_QP_DEST_QPN`), 0 where none was given.
    #[tactic(auto, using(crate::proofs::Keeping::dqpn_or_zero))]
    pub fn peer(&self) -> u32
        ensures peer { result ≡ peer_of self.now }
        ensures range { result < QP_NUMBERS }
    {
        self.kept.dqpn.unwrap_or(0) as u32
    }

    /// The device of the queue pair that it is connected to, 0 where none was given.
    #[tactic(auto, using(crate::proofs::Keeping::dev_or_zero))]
    pub fn peer_device(&self) -> u32
        ensures device { result ≡ peer_device_of self.now }
        ensures range { result < DEVICES }
    {
        self.kept.dev.unwrap_or(0) as u32
    }

    /// The Q_Key (`IB_QP_QKEY`), 0 where none was given.
    #[tactic(auto, using(crate::proofs::Keeping::qkey_or_zero))]
    pub fn qkey(&self) -> u32
        ensures { result ≡ qkey_of self.now }
    {
        self.kept.qkey.unwrap_or(0) as u32
    }

    /// The code of the wait that a peer is told where no receive is posted (`IB_QP_MIN_RNR_TIMER`), at most `MOST_TIME`.
    #[tactic(auto, using(crate::proofs::Keeping::rnr_timer_or_zero))]
    pub fn rnr_timer(&self) -> u8
        ensures timer { result ≡ rnr_timer_of self.now }
        ensures most { result ≤ MOST_TIME }
    {
        self.kept.rnrtimer.unwrap_or(0) as u8
    }

    /// How many resends it makes without an answer (`IB_QP_RETRY_CNT`), at most `MOST_RETRIES`.
    #[tactic(auto, using(crate::proofs::Keeping::retry_or_zero))]
    pub fn retries(&self) -> u32
        ensures retries { result ≡ retries_of self.now }
        ensures most { result ≤ MOST_RETRIES }
    {
        self.kept.retry.unwrap_or(0) as u32
    }

    /// How many resends it makes without a receive at the peer (`IB_QP_RNR_RETRY`), at most `MOST_RETRIES`, which is without
    /// end.
    #[tactic(auto, using(crate::proofs::Keeping::rnr_or_zero))]
    pub fn rnr_retries(&self) -> u32
        ensures retries { result ≡ rnr_retries_of self.now }
        ensures most { result ≤ MOST_RETRIES }
    {
        self.kept.rnr.unwrap_or(0) as u32
    }

    /// Where the requester stands. Its places are in order, and none is beyond the last packet of the sends that wait.
    pub fn requester(&self) -> Requester
        ensures requester { result ≡ self.now.requester }
        ensures places { IsRequesting result (packets_waiting self.now) }
    {
        self.requester
    }

    /// Where the responder stands.
    pub fn responder(&self) -> Responder
        ensures responder { result ≡ self.now.responder }
        ensures ranges { IsResponding result }
    {
        self.responder
    }

    /// The sends that wait.
    pub fn sends(&self) -> &WorkQueue<SendWork>
        ensures { result.now ≡ self.now.sends }
    {
        &self.sends
    }

    /// The receives that wait in its own queue.
    pub fn receives(&self) -> &WorkQueue<RecvWork>
        ensures { result.now ≡ self.now.receives }
    {
        &self.receives
    }

    /// The receive that the send in progress holds, if one is.
    pub fn held(&self) -> Option<&RecvWork>
        ensures held { option_copied result ≡ self.now.held }
        ensures sending { is_some self.now.held ≡ is_send self.now.responder.message }
    {
        self.held.as_ref()
    }

    /// The send that ends next, if one waits.
    pub fn next_send(&self) -> Option<&SendWork>
        ensures { option_copied result ≡ next_send self.now }
    {
        self.sends.at(0)
    }

    /// The receive that ends next, if one waits: the one that a message holds, else the oldest of its own queue.
    pub fn next_receive(&self) -> Option<&RecvWork>
        ensures { option_copied result ≡ next_receive self.now }
    {
        match &self.held {
            Some(work) => Some(work),
            None => self.receives.at(0),
        }
    }

    /// Whether it lets a packet in: the packet is of the default partition, its opcode is one of the service, and the state is
    /// RTR or RTS, and RTS for a response. The device that it comes from is looked at by the caller.
    pub fn lets_in(&self, packet: &Packet) -> bool
        ensures { result ≡ lets_in self.now (content_of packet.now) }
    {
        packet.pkey == DEFAULT_PKEY && self.takes_opcode(packet.opcode)
    }

    fn takes_opcode(&self, number: u8) -> bool
        ensures { result ≡ takes_opcode self.now (opcode_of number) }
    {
        match Opcode::from_number(number) {
            None => false,
            Some(opcode) => {
                is_opcode_of(self.service, opcode) && takes_packet(self.state, is_response(opcode))
            }
        }
    }
}

/// Writers, for the turns. None but `hold_shared` takes memory.
impl Qp {
    /// Puts the requester elsewhere.
    pub fn set_requester(&mut self, requester: Requester)
        requires { IsRequesting requester (packets_waiting self.old) }
        ensures { self.new ≡ with_requester self.old requester }
    {
        self.requester = requester;
    }

    /// Puts the responder elsewhere. A send may be in progress exactly where a receive is held.
    pub fn set_responder(&mut self, responder: Responder)
        requires begun { has_begun self.old.state ≡ true }
        requires ranges { IsResponding responder }
        requires holding { is_some self.old.held ≡ is_send responder.message }
        ensures { self.new ≡ with_responder self.old responder }
    {
        self.responder = responder;
    }

    /// Breaks the queue pair, without a completion (`rxe_qp_error`, `rxe_qp.c`). What waits is left to be flushed.
    pub fn fail(&mut self)
        ensures { self.new ≡ broken self.old }
    {
        self.state = QpState::Err;
    }

    /// Ends the oldest send with a status, and tells its completion. Works of a broken queue pair fail, and all others
    /// succeed. The places of the requester count from the next work on.
    pub fn complete_send(&mut self, status: Status) -> Completion
        requires next { is_some (next_send self.old) ≡ true }
        requires status { is_failure status ≡ is_broken self.old.state }
        ensures pair { self.new ≡ send_completed self.old status }
        ensures completion { Some result ≡ option_map (send_completion self.old.names status) (next_send self.old) }
    {
        let packets = match self.sends.at(0) {
            Some(work) => packets_of(self.mtu(), work),
            None => unreachable!(),
        };
        match self.sends.pop() {
            Some(work) => {
                let completion = send_completion(self.names, status, &work);
                self.requester = counted_from(self.requester, packets);
                self.sent.complete(completion);
                completion
            }
            None => unreachable!(),
        }
    }

    /// Holds the oldest receive of its own queue for a send that begins.
    pub fn hold_receive(&mut self)
        requires begun { has_begun self.old.state ≡ true }
        requires free { is_some self.old.held ≡ false }
        requires next { is_some (oldest self.old.receives.works) ≡ true }
        ensures { self.new ≡ held_from_queue self.old (oldest self.old.receives.works) }
    {
        match self.receives.pop() {
            Some(work) => {
                self.held = Some(work);
                self.responder.message = Some(Message::Send { got: 0 });
            }
            None => unreachable!(),
        }
    }

    /// Takes the oldest receive of the shared receive queue, and holds it for a send that begins or for a write with an
    /// immediate that ends. It is then posted to this queue pair, which takes memory; on an error nothing has changed.
    pub fn hold_shared(&mut self, queue: &mut WorkQueue<RecvWork>) -> Result<(), AllocError>
        requires begun { has_begun self.old.state ≡ true }
        requires shared { self.old.srq ≡ true }
        requires free { is_some self.old.held ≡ false }
        requires next { is_some (oldest queue.old.works) ≡ true }
        ensures ok { OnOk result (self.new ≡ held_from_shared self.old (oldest queue.old.works)) }
        ensures ok_queue { OnOk result (queue.new ≡ after_pop queue.old) }
        ensures err { OnErr result (self.new ≡ self.old) }
        ensures err_queue { OnErr result (queue.new ≡ queue.old) }
    {
        let id = match queue.at(0) {
            Some(work) => work.id(),
            None => unreachable!(),
        };
        self.received.post(id)?;
        match queue.pop() {
            Some(work) => {
                self.held = Some(work);
                self.responder.message = Some(Message::Send { got: 0 });
            }
            None => unreachable!(),
        }
        Ok(())
    }

    /// Ends the next receive with a status, and tells its completion: the one that a message holds, which ends with it, or
    /// else the oldest of its own queue. Works of a broken queue pair fail, and all others succeed. The length and the
    /// immediate are those of the message, and are told of a success alone.
    pub fn complete_receive(&mut self, status: Status, length: u32, imm: Option<u32>) -> Completion
        requires next { is_some (next_receive self.old) ≡ true }
        requires status { is_failure status ≡ is_broken self.old.state }
        ensures pair { self.new ≡ receive_completed self.old status length imm }
        ensures completion { Some result ≡ option_map (receive_completion self.old.names status length imm) (next_receive self.old) }
    {
        match self.held.take() {
            Some(work) => {
                let completion = receive_completion(self.names, status, length, imm, &work);
                self.responder.message = None;
                self.received.complete(completion);
                completion
            }
            None => match self.receives.pop() {
                Some(work) => {
                    let completion = receive_completion(self.names, status, length, imm, &work);
                    self.received.complete(completion);
                    completion
                }
                None => unreachable!(),
            },
        }
    }
}
