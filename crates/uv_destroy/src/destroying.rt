//! The steps of a call that destroys an object. What the machine has next is made as it is; the check of an object that
//! stands hands its deed out.

ghost use Rattle.std.specs.Prelude.{◌≡◌, ◌||◌, true, None, Some};
ghost use Rattle.uv_machine.specs.declared.entry.Word.TheVariants as word;
ghost use Rattle.uv_machine.specs.Effects.{refusal_in};
ghost use Rattle.uv_machine.specs.Histories.{IsLegal, state_of};
ghost use Rattle.uv_machine.specs.Objects.{is_live, is_husk};
ghost use Rattle.uv_machine.specs.States.{object_with};
ghost use Rattle.uv_graph.specs.Stepping.{IsStep};
ghost use Rattle.uv_graph.specs.Conditions.{IsReady, IsFinishing, is_destroy};
ghost use Rattle.uv_graph.specs.Owns.{own_of};
ghost use Rattle.uv_graph.specs.Turns.{StepGives, FinishesBy};

use uv_graph::{Graph, Progress};
use uv_machine::{CallStep, Object, Readers, Word};
use uv_pool::Deed;

/// Takes an object that nothing uses out of use. A husk has been released before, and nothing is to be buried.
fn retire_object<D: Deed>(
    graph: &mut Graph<D>,
    client: u32,
    done: CallStep,
    x: Object,
) -> Progress<D>
    requires step { IsStep graph.old client done }
    requires word { done.word ≡ word.Check }
    requires fine { refusal_in done.answer ≡ None }
    requires there { object_with (state_of graph.old.history) done.object ≡ Some x }
    requires rests { (is_live x.phase || is_husk x.phase) ≡ true }
    ensures gives { StepGives D.facts graph.old graph.new client result }
    ensures legal { IsLegal graph.new.history }
{
    if x.phase.is_husk() {
        return graph.go(client, done);
    }
    let deed = graph.check(client, done.object);
    Progress::Retire {
        deed,
        object: done.object,
        kind: x.kind,
    }
}

fn retire<D: Deed>(graph: &mut Graph<D>, client: u32, done: CallStep) -> Progress<D>
    requires step { IsStep graph.old client done }
    requires word { done.word ≡ word.Check }
    requires fine { refusal_in done.answer ≡ None }
    ensures gives { StepGives D.facts graph.old graph.new client result }
    ensures legal { IsLegal graph.new.history }
{
    graph.checks_what_rests(client, done);
    match graph.object_with(done.object) {
        None => unreachable!(),
        Some(x) => retire_object(graph, client, done, x),
    }
}

/// Finishes a husk: an object with a deed is finished by `finish`.
fn finish_husk<D: Deed>(graph: &mut Graph<D>, client: u32, done: CallStep) -> Progress<D>
    requires step { IsStep graph.old client done }
    requires word { done.word ≡ word.Finish }
    ensures gives { StepGives D.facts graph.old graph.new client result }
    ensures legal { IsLegal graph.new.history }
{
    graph.finishes_a_husk(client, done);
    graph.go(client, done)
}

fn take_step<D: Deed>(graph: &mut Graph<D>, client: u32, done: CallStep) -> Progress<D>
    requires step { IsStep graph.old client done }
    requires ready { IsReady is_destroy (own_of graph.old client) }
    ensures gives { StepGives D.facts graph.old graph.new client result }
    ensures legal { IsLegal graph.new.history }
{
    match done.answer.refusal() {
        Some(_) => graph.go(client, done),
        None => match done.word {
            Word::Check => retire(graph, client, done),
            Word::Finish => finish_husk(graph, client, done),
            Word::Lock | Word::Abort | Word::Free | Word::Exit => graph.go(client, done),
            Word::Reserve | Word::Look | Word::Make | Word::Commit | Word::Act => unreachable!(),
        },
    }
}

/// Makes the next step of a client's call that destroys an object. It takes no memory.
///
/// - `Went`: the step was made: a lock, the check or the finish of a husk.
/// - `Refused`: ENOENT and EINVAL at the lock; EBUSY at the lock, where a call of another actor holds the object, and at
///   the check, where another object uses it. The call goes on to its end, and the object stays.
/// - `Retire`: the object was taken out of use; its cell is to be buried by this deed, which goes back by `finish`.
/// - `Ended`: the exit, with Ok or the call's refusal.
pub fn step<D: Deed>(graph: &mut Graph<D>, client: u32) -> Progress<D>
    requires { IsReady is_destroy (own_of graph.old client) }
    ensures gives { StepGives D.facts graph.old graph.new client result }
    ensures legal { IsLegal graph.new.history }
{
    match graph.next_step(client, None) {
        None => unreachable!(),
        Some(done) => take_step(graph, client, done),
    }
}

/// Finishes the object that `step` retired (`rdma_core.c`, uverbs_destroy_uobject): the object and its handle leave, and
/// its deed, which is buried, goes home. So many actions stand in what the object leaves.
pub fn finish<D: Deed>(graph: &mut Graph<D>, client: u32, deed: D, kept: u64)
    requires { IsFinishing (own_of graph.old client) (D.facts deed) }
    ensures finishes { FinishesBy graph.old graph.new client kept }
    ensures legal { IsLegal graph.new.history }
{
    match graph.out_of(client) {
        None => unreachable!(),
        Some(out) => graph.finish(client, out.identity.id, deed, kept),
    }
}
