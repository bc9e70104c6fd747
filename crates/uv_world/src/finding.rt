//! What the next step of a call finds.

ghost use Rattle.std.specs.Prelude.{◌≡◌, Some};
ghost use Rattle.uv_machine.specs.Histories.{state_of};
ghost use Rattle.uv_machine.specs.Moves.{cell_seen};
ghost use Rattle.uv_machine.specs.Steps.{role_found};
ghost use Rattle.uv_world.specs.Celled.{value_of_cell};
ghost use Rattle.uv_world.specs.Holdings.{held_of};
ghost use Rattle.uv_world.specs.Seating.{stage_of};
ghost use Rattle.uv_world.specs.Stages.{call_found, pair_state, state_in_cell};

use crate::cells::Cell;
use crate::content::Connected;
use crate::world::World;
use uv_machine::{InFlight, Readers, Word};
use uv_num::{Act, List, QpState, Role};

fn pair_state(pairs: &List<Cell<Connected>>, at: u32) -> QpState
    ensures { result ≡ pair_state (value_of_cell pairs.now at) }
{
    match pairs.get(at as usize) {
        None => QpState::Reset,
        Some(cell) => match &cell.value {
            None => QpState::Reset,
            Some(pair) => pair.qp.state(),
        },
    }
}

fn role_found(role: Role, state: QpState) -> Option<QpState>
    ensures { result ≡ role_found role (Some state) }
{
    match role {
        Role::Acts(Act::Modify { .. } | Act::Query) => Some(state),
        Role::Acts(Act::Bind { .. } | Act::Unbind { .. } | Act::Async)
        | Role::Creates(_)
        | Role::Destroys(_) => None,
    }
}

impl World {
    /// The cell of the object that a call looks at first.
    fn cell_seen(&self, call: InFlight) -> Option<u32>
        ensures { result ≡ cell_seen (state_of self.now.core.history) 0 call }
    {
        match self.core.object_with(call.looked_at(0)) {
            None => None,
            Some(x) => Some(x.index),
        }
    }

    fn state_seen(&self, call: InFlight) -> QpState
        ensures { result ≡ state_in_cell (held_of self.now.contents) (cell_seen (state_of self.now.core.history) 0 call) }
    {
        match self.cell_seen(call) {
            None => QpState::Reset,
            Some(at) => pair_state(&self.contents.pairs, at),
        }
    }

    /// What the step that a call makes next finds.
    pub(crate) fn found(&self, call: InFlight) -> Option<QpState>
        ensures { result ≡ call_found (stage_of self.now) call }
    {
        match call.next_word() {
            Word::Act => role_found(call.request.role(), self.state_seen(call)),
            Word::Reserve
            | Word::Look
            | Word::Make
            | Word::Commit
            | Word::Lock
            | Word::Check
            | Word::Finish
            | Word::Abort
            | Word::Free
            | Word::Exit => None,
        }
    }
}
