//! The steps of the calls that act on objects that stay: they look at what they name, act, and let it go again.

ghost use Rattle.std.specs.Prelude.{◌≡◌, true, Some};
ghost use Rattle.uv_machine.specs.declared.entry.Word.TheVariants as word;
ghost use Rattle.uv_machine.specs.Steps.{next_of};
ghost use Rattle.uv_machine.specs.Histories.{Allowed, IsLegal, state_of};
ghost use Rattle.uv_graph.specs.Kept.{out_of};
ghost use Rattle.uv_graph.specs.Notes.{Notes};
ghost use Rattle.uv_graph.specs.Stepping.{IsAt};
ghost use Rattle.uv_graph.specs.Conditions.{is_act, touches, role_touches, awaits, IsReady, IsTouching};
ghost use Rattle.uv_graph.specs.Owns.{own_of};
ghost use Rattle.uv_graph.specs.Turns.{step_entry, StepGives, ActsBy};
ghost use Rattle.uv_fileops.specs.Acting.{IsAtAct, IsGoingOn};

use uv_graph::{Graph, Progress};
use uv_machine::{Answer, CallStep, InFlight, Readers, Word};
use uv_num::{Act, QpState, Role};
use uv_pool::Deed;

/// Whether an act is about what a cell holds, so that its state is told from outside.
fn touches(act: Act) -> bool
    ensures { result ≡ touches act }
{
    match act {
        Act::Modify { .. } | Act::Query | Act::Bind { .. } | Act::Unbind { .. } => true,
        Act::Async => false,
    }
}

fn role_touches(role: Role) -> bool
    ensures { result ≡ role_touches role }
{
    match role {
        Role::Creates(_) | Role::Destroys(_) => false,
        Role::Acts(act) => touches(act),
    }
}

/// Whether the call's next step is an act whose state is told from outside.
fn awaits(call: InFlight) -> bool
    ensures { result ≡ awaits call }
{
    match call.next_word() {
        Word::Act => role_touches(call.request.role()),
        Word::Reserve
        | Word::Look
        | Word::Make
        | Word::Commit
        | Word::Lock
        | Word::Check
        | Word::Finish
        | Word::Abort
        | Word::Free
        | Word::Exit => false,
    }
}

/// Makes an act, or its refusal.
fn note_act<D: Deed>(graph: &mut Graph<D>, client: u32, done: CallStep)
    requires allowed { Allowed (state_of graph.old.history) (step_entry client done) }
    requires word { done.word ≡ word.Act }
    requires none { out_of graph.old client ≡ None }
    ensures notes { Notes graph.old graph.new (step_entry client done) }
    ensures legal { IsLegal graph.new.history }
{
    match done.answer {
        Answer::Refused(errno) => graph.refuse(client, Word::Act, done.object, done.found, errno),
        Answer::Ok | Answer::Made { .. } | Answer::State { .. } | Answer::Event | Answer::Kept(_) =>
            graph.act(client, done.object, done.found, done.answer),
    }
}

/// Makes the act that a client's call makes next, with the state that it finds.
fn make_act<D: Deed>(graph: &mut Graph<D>, client: u32, found: Option<QpState>) -> CallStep
    requires { IsAtAct graph.old client }
    ensures next { next_of (state_of graph.old.history) client found 0 ≡ Some result }
    ensures word { result.word ≡ word.Act }
    ensures notes { Notes graph.old graph.new (step_entry client result) }
    ensures legal { IsLegal graph.new.history }
{
    match graph.next_step(client, found) {
        None => unreachable!(),
        Some(done) => {
            note_act(graph, client, done);
            done
        }
    }
}

/// Tells the cell that a call's act is about.
fn touch<D: Deed>(graph: &Graph<D>, client: u32, call: InFlight) -> Progress<D>
    requires at { IsAt graph.now client call word.Act }
    requires awaits { awaits call ≡ true }
    ensures gives { StepGives D.facts graph.now graph.now client result }
    ensures legal { IsLegal graph.now.history }
{
    graph.is_legal();
    match graph.object_with(call.acted_on()) {
        None => unreachable!(),
        Some(x) => Progress::Touch {
            kind: x.kind,
            index: x.index,
            generation: x.generation,
        },
    }
}

/// Makes the next step of a call that acts, where it touches no cell.
fn go_on<D: Deed>(graph: &mut Graph<D>, client: u32) -> Progress<D>
    requires { IsGoingOn graph.old client }
    ensures gives { StepGives D.facts graph.old graph.new client result }
    ensures legal { IsLegal graph.new.history }
{
    match graph.next_step(client, None) {
        None => unreachable!(),
        Some(done) => graph.go(client, done),
    }
}

/// Makes the step that a client's call to modify, query, bind or take an event makes next. Before an act that is about a
/// cell it makes none, and answers `Touch`: the act is then made by `act`. A look is refused with ENOENT where no object is
/// published under the number, EINVAL where it is of another kind, EIO where the file's device is gone, and EBUSY where a
/// call holds it exclusively; the taking of an event with EAGAIN where there is none, or EIO where the device is gone.
pub fn step<D: Deed>(graph: &mut Graph<D>, client: u32) -> Progress<D>
    requires { IsReady is_act (own_of graph.old client) }
    ensures gives { StepGives D.facts graph.old graph.new client result }
    ensures legal { IsLegal graph.new.history }
{
    match graph.call_of(client) {
        None => unreachable!(),
        Some(call) => {
            if awaits(call) {
                touch(graph, client, call)
            } else {
                go_on(graph, client)
            }
        }
    }
}

/// Makes the act after `Touch` (`uverbs_cmd.c`, ib_uverbs_modify_qp and ib_uverbs_query_qp; binding a window by a call is
/// this project's own), and answers what it tells. `found` is the state of the queue pair, for the acts that look at one.
/// EINVAL: the table of moves doesn't have the move, or the window can't be bound so.
pub fn act<D: Deed>(graph: &mut Graph<D>, client: u32, found: Option<QpState>) -> Answer
    requires { IsTouching (own_of graph.old client) found }
    ensures acts { ActsBy graph.old graph.new client found result }
    ensures legal { IsLegal graph.new.history }
{
    make_act(graph, client, found).answer
}
