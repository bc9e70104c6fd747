//! The places where deeds and what is out of them stand.

ghost use Rattle.std.specs.Prelude.{◌≡◌, None, Some, slice_get, unwrap_or};
ghost use Rattle.uv_num.specs.Place.{at_place};
ghost use Rattle.uv_machine.specs.Objects.{no_ids};
ghost use Rattle.uv_pool.specs.Homes.{Homes, IsOutOf, brought};
ghost use Rattle.uv_graph.specs.Kept.{put_out};
ghost use Rattle.uv_graph.specs.Seats.{slot_of};
ghost use Rattle.uv_graph.specs.Slots.{next_deed, after_draw, put_slot, put_uses};

use crate::out::Out;
use uv_num::{Ids, List, Put, change_at};
use uv_pool::{Deed, Pool};

/// What an actor has out is this from now on.
pub fn set_out(outs: &mut [Option<Out>], at: usize, out: Option<Out>)
    ensures { outs.new ≡ at_place outs.old at (put_out out) }
{
    change_at(outs, at, Put(out));
}

/// What the object made last at a place used then.
pub fn uses_at(uses: &List<Ids>, at: usize) -> Ids
    ensures { result ≡ unwrap_or (slice_get uses.now at) no_ids }
{
    match uses.get(at) {
        None => Ids::Empty,
        Some(used) => *used,
    }
}

/// The object made last at a place used these then.
pub fn set_uses(uses: &mut List<Ids>, at: usize, used: Ids)
    ensures { uses.new ≡ at_place uses.old at (put_uses used) }
{
    change_at(uses.as_mut_slice(), at, Put(used));
}

/// Draws the next deed of the pool at a place.
pub fn draw<D: Deed>(pools: &mut List<Pool<D>>, at: usize) -> Option<D>
    ensures deed { result ≡ next_deed D.facts (slice_get pools.old at) }
    ensures pools { pools.new ≡ at_place pools.old at (after_draw D.facts) }
{
    if at < pools.len() {
        return pools.item_mut(at).draw();
    }
    None
}

/// Brings a deed home to the pool at a place.
pub fn bring_home<D: Deed>(pools: &mut List<Pool<D>>, at: usize, deed: D)
    requires { (pool : Homes D) → slice_get pools.old at ≡ Some pool → IsOutOf D.facts pool deed }
    ensures { pools.new ≡ at_place pools.old at (brought (D.facts deed).index deed) }
{
    if at < pools.len() {
        pools.item_mut(at).home(deed);
    }
}

/// Takes the planted deed at a place.
pub fn take<D: Deed>(held: &mut List<Option<D>>, at: usize) -> Option<D>
    ensures deed { result ≡ slot_of (slice_get held.old at) }
    ensures held { held.new ≡ at_place held.old at (put_slot None) }
{
    if at < held.len() {
        return held.item_mut(at).take();
    }
    None
}

/// A planted deed comes to stand at a place, or none does.
pub fn put<D: Deed>(held: &mut List<Option<D>>, at: usize, slot: Option<D>)
    ensures { held.new ≡ at_place held.old at (put_slot slot) }
{
    change_at(held.as_mut_slice(), at, Put(slot));
}
