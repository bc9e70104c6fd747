//! The steps of a call that creates an object. What the machine has next is made as it is; the make hands the deed of the
//! new object's cell out.

ghost use Rattle.std.specs.Prelude.{◌≡◌, None};
ghost use Rattle.uv_machine.specs.declared.entry.Word.TheVariants as word;
ghost use Rattle.uv_machine.specs.Effects.{refusal_in};
ghost use Rattle.uv_machine.specs.Histories.{IsLegal};
ghost use Rattle.uv_graph.specs.Conditions.{ComesPlanted};
ghost use Rattle.uv_graph.specs.Owns.{own_of};
ghost use Rattle.uv_graph.specs.Notes.{HasNoOut};
ghost use Rattle.uv_graph.specs.Stepping.{IsStep};
ghost use Rattle.uv_graph.specs.Conditions.{IsReady, is_create};
ghost use Rattle.uv_graph.specs.Turns.{StepGives};

use uv_graph::{Graph, Progress};
use uv_machine::{CallStep, Word};
use uv_pool::Deed;

/// Makes the call's new object, and hands the deed of its cell out.
fn plant<D: Deed>(graph: &mut Graph<D>, client: u32, done: CallStep) -> Progress<D>
    requires step { IsStep graph.old client done }
    requires word { done.word ≡ word.Make }
    requires fine { refusal_in done.answer ≡ None }
    ensures gives { StepGives D.facts graph.old graph.new client result }
    ensures legal { IsLegal graph.new.history }
{
    let deed = graph.make(client, done.object);
    let kind = deed.kind();
    Progress::Plant {
        deed,
        object: done.object,
        kind,
    }
}

fn take_step<D: Deed>(graph: &mut Graph<D>, client: u32, done: CallStep) -> Progress<D>
    requires step { IsStep graph.old client done }
    requires ready { IsReady is_create (own_of graph.old client) }
    ensures gives { StepGives D.facts graph.old graph.new client result }
    ensures legal { IsLegal graph.new.history }
{
    match done.answer.refusal() {
        Some(_) => graph.go(client, done),
        None => match done.word {
            Word::Make => plant(graph, client, done),
            Word::Reserve | Word::Look | Word::Commit | Word::Abort | Word::Free | Word::Exit =>
                graph.go(client, done),
            Word::Act | Word::Lock | Word::Check | Word::Finish => unreachable!(),
        },
    }
}

/// Makes the next step of a client's call that creates an object. It takes no memory.
///
/// - `Went`: the step was made. A reserve sets the least free number aside, a commit publishes the object under it.
/// - `Refused`: ENOSPC at the reserve (no number is free) and at the make (no cell or no id is left); ENOENT, EINVAL, EIO
///   and EBUSY at a look. The call goes on to its end.
/// - `Plant`: the object was made; its cell's deed is to be planted for it and goes back by `planted`.
/// - `Ended`: the exit, with the object's handle, cell index and generation, or with the call's refusal.
pub fn step<D: Deed>(graph: &mut Graph<D>, client: u32) -> Progress<D>
    requires { IsReady is_create (own_of graph.old client) }
    ensures gives { StepGives D.facts graph.old graph.new client result }
    ensures legal { IsLegal graph.new.history }
{
    match graph.next_step(client, None) {
        None => unreachable!(),
        Some(done) => take_step(graph, client, done),
    }
}

/// Takes the deed back that `step` handed out by `Plant`, now planted for the call's object. It makes no entry, and the
/// call's next step is its commit.
pub fn planted<D: Deed>(graph: &mut Graph<D>, client: u32, deed: D)
    requires { ComesPlanted (own_of graph.old client) (D.facts deed) }
    ensures same { HasNoOut graph.old graph.new client }
    ensures legal { IsLegal graph.new.history }
{
    graph.planted(client, deed);
}
