//! Opens, and the calls on objects: a call enters, makes its steps, and ends.

ghost use Rattle.std.specs.Prelude.{◌≡◌, ◌<◌, ◌+◌};
ghost use Rattle.uv_num.specs.declared.limits.TheConstants.{DEVICES, FILES};
ghost use Rattle.uv_machine.specs.declared.entry.Answer.TheVariants as answer;
ghost use Rattle.uv_machine.specs.declared.entry.Entry.TheVariants as entry;
ghost use Rattle.uv_machine.specs.Histories.{IsLegal, state_of};
ghost use Rattle.uv_machine.specs.Outside.{enter_refusal};
ghost use Rattle.uv_graph.specs.Conditions.{ComesPlanted, HasSpare, IsClient, IsFinishing, IsFree, IsReady, IsTouching};
ghost use Rattle.uv_graph.specs.Kept.{spare_of};
ghost use Rattle.uv_graph.specs.Notes.{HasNoOut, NotesSpared};
ghost use Rattle.uv_graph.specs.Owns.{own_of};
ghost use Rattle.uv_graph.specs.Turns.{ActsBy, EnterGives, FinishesBy, OpenGives, StepGives, refusal_without};
ghost use Rattle.uv_core.specs.Beside.{Adds, OthersKeep, SeatNames};
ghost use Rattle.uv_core.specs.Leads.{EnterLeads, StepLeads};
ghost use Rattle.uv_core.specs.Roles.{is_any};

use crate::whole::{Core, stands};
use std::alloc::Global;
use uv_graph::{Graph, Progress};
use uv_machine::{Answer, Readers};
use uv_num::{Errno, QpState, Request, Role};
use uv_pool::Deed;

/// Makes the step that a client's call makes next, by what its request does.
fn take_step<D: Deed>(graph: &mut Graph<D>, client: u32) -> Progress<D>
    requires { IsReady is_any (own_of graph.old client) }
    ensures gives { StepGives D.facts graph.old graph.new client result }
    ensures legal { IsLegal graph.new.history }
{
    match graph.call_of(client) {
        None => unreachable!(),
        Some(call) => match call.request.role() {
            Role::Creates(_) => uv_create::step(graph, client),
            Role::Destroys(_) => uv_destroy::step(graph, client),
            Role::Acts(_) => uv_fileops::step(graph, client),
        },
    }
}

impl<D: Deed> Core<D> {
    /// Opens a file on a device for a client (`uverbs_main.c`, ib_uverbs_open), and takes the memory that every teardown of
    /// the file needs. EINVAL: the file was opened before. EIO: the device is unplugged. ENOMEM: there is no memory; then
    /// the refusal is noted unless the client has no spare.
    pub fn open(&mut self, alloc: Global, client: u32, file: u32, device: u32) -> Result<(), Errno>
        requires client { IsClient client }
        requires file { file < FILES }
        requires device { device < DEVICES }
        ensures gives { OpenGives self.old self.new client file device result }
        ensures made { Adds self.old self.new }
        ensures seat { SeatNames client self.old self.new }
        ensures others { OthersKeep client self.old self.new }
        ensures legal { IsLegal self.new.history }
    {
        stands(&self.graph);
        uv_fileops::open(&mut self.graph, alloc, client, file, device)
    }

    /// Lets a client's call enter on a file (`uverbs_ioctl.c`, ib_uverbs_run_method), with the memory of all its steps.
    /// EBADF: the file takes no calls. EIO: its device is unplugged, and the request needs it. ENOMEM: there is no memory;
    /// then the refusal is noted unless the client has no spare.
    pub fn enter(
        &mut self,
        alloc: Global,
        client: u32,
        file: u32,
        request: &Request,
    ) -> Result<(), Errno>
        requires client { IsClient client }
        requires file { file < FILES }
        requires free { IsFree (own_of self.old client) }
        ensures gives { EnterGives self.old self.new client file request.now result }
        ensures leads { EnterLeads (own_of self.new client) result }
        ensures made { Adds self.old self.new }
        ensures seat { SeatNames client self.old self.new }
        ensures others { OthersKeep client self.old self.new }
        ensures legal { IsLegal self.new.history }
    {
        stands(&self.graph);
        uv_fileops::enter(&mut self.graph, alloc, client, file, request)
    }

    /// Refuses a client's call for whose value its caller has no memory, in room that is set aside for the client. It takes
    /// no memory. The errno is EBADF or EIO as at an enter, and else ENOMEM. This project's own.
    pub fn refuse(&mut self, client: u32, file: u32, request: &Request) -> Errno
        requires client { IsClient client }
        requires file { file < FILES }
        requires free { IsFree (own_of self.old client) }
        requires spare { HasSpare (own_of self.old client) }
        ensures errno { result ≡ refusal_without (enter_refusal (state_of self.old.history) file request.now) }
        ensures notes { NotesSpared self.old self.new (entry.Enter client file request.now (answer.Refused result)) client }
        ensures spare { spare_of self.old client ≡ spare_of self.new client + 1 }
        ensures leads { IsFree (own_of self.new client) }
        ensures made { Adds self.old self.new }
        ensures seat { SeatNames client self.old self.new }
        ensures others { OthersKeep client self.old self.new }
        ensures legal { IsLegal self.new.history }
    {
        stands(&self.graph);
        uv_fileops::refuse(&mut self.graph, client, file, request)
    }

    /// Makes the one step that the client's call makes next. It takes no memory.
    ///
    /// - `Went`: the step was made, and the call goes on.
    /// - `Refused`: the step was refused, and the call goes on to its end. ENOSPC: no number of the file is free, no cell
    ///   is home, or no id is left. ENOENT: no object is published under the number. EINVAL: it is of another kind.
    ///   EIO: the device is unplugged. EBUSY: a call holds the object against this one, or another object uses it.
    ///   EAGAIN: there is no event.
    /// - `Plant`: the object was made. Its cell's deed, neither planted nor spent, is to be planted for it and goes back by
    ///   `planted`.
    /// - `Touch`: no step was made. The call's act is about what this cell holds; `act` makes it.
    /// - `Retire`: the object was taken out of use. Its cell is to be buried by this deed, planted for it, which goes back by
    ///   `finish`.
    /// - `Ended`: the call has left, with this answer.
    pub fn step(&mut self, client: u32) -> Progress<D>
        requires { IsReady is_any (own_of self.old client) }
        ensures gives { StepGives D.facts self.old self.new client result }
        ensures leads { StepLeads D.facts (own_of self.new client) result }
        ensures made { Adds self.old self.new }
        ensures seat { SeatNames client self.old self.new }
        ensures others { OthersKeep client self.old self.new }
        ensures legal { IsLegal self.new.history }
    {
        stands(&self.graph);
        let progress = take_step(&mut self.graph, client);
        self.graph.are_out();
        progress
    }

    /// Takes the deed back that `step` handed out by `Plant`, now planted for the call's object. It makes no entry and takes
    /// no memory; the call's next step is its commit. This project's own.
    pub fn planted(&mut self, client: u32, deed: D)
        requires { ComesPlanted (own_of self.old client) (D.facts deed) }
        ensures same { HasNoOut self.old self.new client }
        ensures leads { IsClient client → IsReady is_any (own_of self.new client) }
        ensures made { Adds self.old self.new }
        ensures seat { SeatNames client self.old self.new }
        ensures others { OthersKeep client self.old self.new }
        ensures legal { IsLegal self.new.history }
    {
        stands(&self.graph);
        uv_create::planted(&mut self.graph, client, deed);
    }

    /// Makes the act after `Touch` (`uverbs_cmd.c`, ib_uverbs_modify_qp and ib_uverbs_query_qp; binding a window by a call
    /// is this project's own), and answers what it tells. `found` is the state of the queue pair, for the acts that look at
    /// one, and else None. It takes no memory. EINVAL: the table of moves doesn't have the move, or the window can't be
    /// bound so.
    pub fn act(&mut self, client: u32, found: Option<QpState>) -> Answer
        requires { IsTouching (own_of self.old client) found }
        ensures acts { ActsBy self.old self.new client found result }
        ensures leads { IsReady is_any (own_of self.new client) }
        ensures made { Adds self.old self.new }
        ensures seat { SeatNames client self.old self.new }
        ensures others { OthersKeep client self.old self.new }
        ensures legal { IsLegal self.new.history }
    {
        stands(&self.graph);
        uv_fileops::act(&mut self.graph, client, found)
    }

    /// Finishes the object that `step` retired (`rdma_core.c`, uverbs_destroy_uobject): the object and its handle leave, and
    /// its deed, which is buried, goes home. So many actions stand in what the object leaves. It takes no memory. The
    /// finish of a husk is made by `step`.
    pub fn finish(&mut self, client: u32, deed: D, kept: u64)
        requires { IsFinishing (own_of self.old client) (D.facts deed) }
        ensures finishes { FinishesBy self.old self.new client kept }
        ensures leads { IsReady is_any (own_of self.new client) }
        ensures made { Adds self.old self.new }
        ensures seat { SeatNames client self.old self.new }
        ensures others { OthersKeep client self.old self.new }
        ensures legal { IsLegal self.new.history }
    {
        stands(&self.graph);
        uv_destroy::finish(&mut self.graph, client, deed, kept);
    }
}
