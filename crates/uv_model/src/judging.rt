//! The judge of whole histories.

ghost use Rattle.std.specs.Prelude.{ℕ, ◌≡◌, MatchOption};
ghost use Rattle.uv_machine.specs.Histories.{IsLegal, IsFirstBad};
ghost use Rattle.uv_model.specs.Verdicts.{IsVerdict, IsUnlessNoMemory};

use std::alloc::{AllocError, Global};
use uv_machine::{Entry, first_bad};
use uv_num::List;

/// What the judge says of a history.
#[derive(Clone, Copy, Debug, PartialEq, Eq)]
pub enum Verdict {
    /// The machine allows each entry where it stands.
    Legal,
    /// The entry at `place`, from 0, is the first that the machine does not allow where it stands.
    Bad {
        /// The place, below the history's length.
        place: u64,
    },
    /// Memory ran out before the end was seen, and nothing is said.
    NoMemory,
}

/// Whether a history is one that the machine allows, and else its first bad place.
///
/// The history is made again entry by entry, each seen once; an entry takes time by the objects that stand, so the whole
/// is linear in the history but for that. It takes memory for one state of the machine alone. This project's own.
pub fn judge(alloc: Global, history: &List<Entry>) -> Verdict
    ensures verdict { IsVerdict history.now result }
    ensures legal { IsLegal history.now → IsUnlessNoMemory Verdict.Legal result }
    ensures bad { (place : ℕ) → IsFirstBad history.now place → IsUnlessNoMemory (Verdict.Bad place) result }
{
    match first_bad(alloc, history.as_slice()) {
        Ok(None) => Verdict::Legal,
        Ok(Some(place)) => Verdict::Bad {
            place: place as u64,
        },
        Err(AllocError) => Verdict::NoMemory,
    }
}
