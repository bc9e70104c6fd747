//! The core's laws, each the contract of a function that does nothing.

ghost use Rattle.uv_machine.specs.Removals.{TeardownCounts};
ghost use Rattle.uv_machine.specs.Words.{DestroyEnds, RefusedEnds};
ghost use Rattle.uv_core.specs.Plays.{CoreGoesOn};

use uv_machine::laws;

/// Calls on a core, in any order of the actors and each within its condition, leave a legal history, of which the state is
/// the replay. Each makes one entry at most, which names its caller or nobody, and leaves every other actor's own part.
pub fn core_goes_on()
    ensures { CoreGoesOn }
{}

/// A teardown of a file without calls kills and releases as many objects as stood at its beginning, whatever other actors
/// do meanwhile.
pub fn teardown_counts()
    ensures { TeardownCounts }
{
    laws::teardown_counts();
}

/// A refused step is followed by exactly an abort where a number is set aside, a free for each object that the call has
/// looked at, and the exit.
pub fn refused_ends()
    ensures { RefusedEnds }
{
    laws::refused_ends();
}

/// A destroy that ends answers ENOENT, EINVAL or EBUSY by its lock, EBUSY by its check, or else Ok after its finish.
pub fn destroy_ends()
    ensures { DestroyEnds }
{
    laws::destroy_ends();
}
