//! What one call holds of an object, beside what its word says of all.

ghost use Rattle.std.specs.Prelude.{◌≡◌, ◌==◌, count_by, if◌then◌else◌};
ghost use Rattle.uv_num.specs.Ids.{ids_of, is_number};
ghost use Rattle.uv_machine.specs.Plans.{locks, is_the_number};
ghost use Rattle.uv_store.specs.Marks.{looks_by, is_beside, beside_in, is_alone_word, alone_in, used_in};

use crate::mark::Mark;
use uv_machine::InFlight;
use uv_num::Ids;
use uv_word::FREE;

fn one_if_same(a: u32, id: u32) -> u32
    ensures { result ≡ (if a == id then 1 else 0) }
{
    if a == id { 1 } else { 0 }
}

/// How often an id is among some.
fn count_in(ids: Ids, id: u32) -> u32
    ensures { result ≡ count_by (is_number id) (ids_of ids) }
{
    match ids {
        Ids::Empty => 0,
        Ids::One(a) => one_if_same(a, id),
        Ids::Two(a, b) => one_if_same(a, id) + one_if_same(b, id),
        Ids::Three(a, b, c) => one_if_same(a, id) + one_if_same(b, id) + one_if_same(c, id),
        Ids::Four(a, b, c, d) => {
            one_if_same(a, id) + one_if_same(b, id) + one_if_same(c, id) + one_if_same(d, id)
        }
    }
}

/// How often the call in a place of the table looks at an object.
fn looks_by(slot: Option<InFlight>, id: u32) -> u32
    ensures { result ≡ looks_by id slot }
{
    match slot {
        None => 0,
        Some(call) => count_in(call.looked, id),
    }
}

fn is_the_number(number: Option<u32>, n: u32) -> bool
    ensures { result ≡ is_the_number n number }
{
    match number {
        None => false,
        Some(k) => k == n,
    }
}

/// Whether the call in a place of the table holds an object alone.
fn locks(slot: Option<InFlight>, id: u32) -> bool
    ensures { result ≡ locks id slot }
{
    match slot {
        None => false,
        Some(call) => is_the_number(call.locked, id),
    }
}

fn word_has_beside(word: i32, slot: Option<InFlight>, id: u32) -> bool
    ensures { result ≡ is_beside word slot id }
{
    if word < FREE {
        return !locks(slot, id);
    }
    looks_by(slot, id) < word as u32
}

/// Whether a mark counts a hold beside those of one call.
pub(crate) fn has_beside(mark: Option<Mark>, slot: Option<InFlight>, id: u32) -> bool
    ensures { result ≡ beside_in mark slot id }
{
    match mark {
        None => false,
        Some(mark) => word_has_beside(mark.word, slot, id),
    }
}

fn is_below_free(word: i32) -> bool
    ensures { result ≡ is_alone_word word }
{
    word < FREE
}

/// Whether a mark says that a call holds the object alone.
pub(crate) fn is_alone(mark: Option<Mark>) -> bool
    ensures { result ≡ alone_in mark }
{
    match mark {
        None => false,
        Some(mark) => is_below_free(mark.word),
    }
}

/// Whether a mark counts a user.
pub(crate) fn is_used(mark: Option<Mark>) -> bool
    ensures { result ≡ used_in mark }
{
    match mark {
        None => false,
        Some(mark) => 0 < mark.users,
    }
}
