//! The state behind the entries of a history, made again from the beginning, and what stands in it.

ghost use Rattle.std.specs.Prelude.{◌≡◌, ◌≤◌, IfOk, length};
ghost use Rattle.uv_machine.specs.Histories.{state_of};
ghost use Rattle.uv_model.specs.Standing.{standing_at};

use crate::left::{Left, left_in};
use std::alloc::{AllocError, Global};
use uv_machine::{Entry, State};
use uv_num::List;

/// The objects that stand behind the first `place` entries of a history, oldest first. A husk, whose object a teardown has
/// released, doesn't stand. The history is made again from its beginning. Its only error is want of memory. This project's
/// own.
pub fn standing(alloc: Global, history: &List<Entry>, place: u64) -> Result<List<Left>, AllocError>
    requires { place ≤ length history.now }
    ensures { IfOk result (λ l. l ≡ standing_at history.now place) }
{
    let before = &history.as_slice()[..place as usize];
    let state = replayed(alloc, before)?;
    left_in(alloc, state.objects.as_slice())
}

/// The state behind all of these entries.
pub fn replayed(alloc: Global, entries: &[Entry]) -> Result<State, AllocError>
    ensures { IfOk result (λ m. m ≡ state_of entries.now) }
{
    let mut state = State::new(alloc)?;
    for entry in entries {
        state.apply(*entry);
    }
    Ok(state)
}
