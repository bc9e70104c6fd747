//! The turns of a teardown that has begun.

ghost use Rattle.std.specs.Prelude.{◌≡◌, None, Some};
ghost use Rattle.uv_machine.specs.States.{newest_free};
ghost use Rattle.uv_machine.specs.Histories.{IsLegal, state_of};
ghost use Rattle.uv_machine.specs.Laws.{IsSwept};
ghost use Rattle.uv_graph.specs.Calls.{calls_on};
ghost use Rattle.uv_graph.specs.Kept.{kill_of};
ghost use Rattle.uv_graph.specs.Notes.{Notes};
ghost use Rattle.uv_graph.specs.Conditions.{IsReleasing, IsSweeper};
ghost use Rattle.uv_graph.specs.Owns.{own_of, TearsNone};
ghost use Rattle.uv_graph.specs.Turns.{SweepGives, KillsNext, ReleasesBy, last_entry};

use uv_graph::{Graph, Swept};
use uv_machine::{Object, Readers};
use uv_num::DRIVER;
use uv_pool::Deed;

/// Takes the newest object of the file that nothing uses out of use.
fn kill_newest<D: Deed>(graph: &mut Graph<D>, tearer: u32, file: u32, newest: Object) -> D
    requires swept { IsSwept graph.old.history file tearer }
    requires quiet { calls_on (state_of graph.old.history) file ≡ 0 }
    requires none { kill_of graph.old tearer ≡ None }
    requires newest { newest_free (state_of graph.old.history) file ≡ Some newest }
    ensures kills { KillsNext graph.old graph.new tearer file (D.facts result) newest.id newest.kind newest.handle }
    ensures legal { IsLegal graph.new.history }
{
    graph.kill(tearer, newest.id)
}

/// Ends a teardown that has left no object: the driver's leaves the handles, a close leaves nothing.
fn end<D: Deed>(graph: &mut Graph<D>, tearer: u32, file: u32)
    requires swept { IsSwept graph.old.history file tearer }
    requires nothing { newest_free (state_of graph.old.history) file ≡ None }
    ensures notes { Notes graph.old graph.new (last_entry tearer file) }
    ensures torn { TearsNone (own_of graph.new tearer) }
    ensures legal { IsLegal graph.new.history }
{
    if tearer == DRIVER {
        graph.dissociated(file);
    } else {
        graph.closed(file);
    }
}

/// The next turn of a teardown of a file without calls.
fn sweep_quiet<D: Deed>(graph: &mut Graph<D>, tearer: u32, file: u32) -> Swept<D>
    requires sweeper { IsSweeper (own_of graph.old tearer) file }
    requires quiet { calls_on (state_of graph.old.history) file ≡ 0 }
    ensures gives { SweepGives D.facts graph.old graph.new tearer file result }
    ensures legal { IsLegal graph.new.history }
{
    graph.goes_on(tearer, file);
    match graph.newest_free(file) {
        Some(newest) => Swept::Kill {
            deed: kill_newest(graph, tearer, file, newest),
            object: newest.id,
            kind: newest.kind,
            handle: newest.handle,
        },
        None => {
            end(graph, tearer, file);
            Swept::Done
        }
    }
}

/// Makes the next turn of a teardown (`rdma_core.c`, __uverbs_cleanup_ufile). While calls of the file are in flight it waits
/// for them; then it takes one object after the other out of use, of those that nothing uses the one that was made last;
/// and when no object is left it ends. Linux goes over the list of the newest first until a round removes nothing; what an
/// object uses was made before it, so one round from the newest to the oldest is enough.
pub fn sweep<D: Deed>(graph: &mut Graph<D>, tearer: u32, file: u32) -> Swept<D>
    requires { IsSweeper (own_of graph.old tearer) file }
    ensures gives { SweepGives D.facts graph.old graph.new tearer file result }
    ensures legal { IsLegal graph.new.history }
{
    let calls = graph.calls_on(file);
    if calls > 0 {
        graph.is_legal();
        return Swept::NotYet(calls);
    }
    sweep_quiet(graph, tearer, file)
}

/// Notes that the object that `sweep` took out of use is released, and takes its deed back, which comes home. So many
/// actions stand in what the object leaves.
pub fn gone<D: Deed>(graph: &mut Graph<D>, tearer: u32, file: u32, deed: D, kept: u64)
    requires { IsReleasing (own_of graph.old tearer) file (D.facts deed) }
    ensures releases { ReleasesBy graph.old graph.new tearer kept }
    ensures legal { IsLegal graph.new.history }
{
    match graph.kill_of(tearer) {
        None => unreachable!(),
        Some(out) => graph.gone(tearer, out.identity.id, deed, kept),
    }
}
