//! Deeds: planted, buried, and held while they are out.

ghost use Rattle.std.specs.Prelude.{◌≡◌, None, Some};
ghost use Rattle.uv_world.specs.Celled.{value_of_slot, slots_set};
ghost use Rattle.uv_world.specs.Seating.{GoesBuried, GoesPlanted};

use uv_num::{Identity, List};
use uv_pool::plain::PlainDeed;

/// Takes what lies with an actor.
pub(crate) fn pick<T>(slots: &mut List<Option<T>>, actor: u32) -> Option<T>
    ensures taken { result ≡ value_of_slot slots.old actor }
    ensures rest { slots.new ≡ slots_set slots.old actor None }
{
    let at = actor as usize;
    if at < slots.len() {
        slots.item_mut(at).take()
    } else {
        None
    }
}

/// Lays something down with an actor.
pub(crate) fn lay<T: Drop>(slots: &mut List<Option<T>>, actor: u32, now: T)
    ensures { slots.new ≡ slots_set slots.old actor (Some now) }
{
    let at = actor as usize;
    if at < slots.len() {
        *slots.item_mut(at) = Some(now);
    }
}

/// The deed, planted for an object. It tells no lives from then on.
pub(crate) fn plant_deed(deed: PlainDeed, identity: Identity) -> PlainDeed
    ensures { GoesPlanted deed identity result }
{
    let PlainDeed {
        kind,
        index,
        generation,
        spent,
        ..
    } = deed;
    PlainDeed {
        kind,
        index,
        generation,
        spent,
        identity: Some(identity),
        lives: None,
    }
}

/// The deed, buried. It tells no lives from then on.
pub(crate) fn bury_deed(deed: PlainDeed) -> PlainDeed
    ensures { GoesBuried deed result }
{
    let mut deed = deed;
    deed.lives = None;
    deed.bury();
    deed
}
