//! When a list of seats is all of a desk's. A call of a law does nothing when it runs.

ghost use Rattle.uv_desk.specs.Laws.{NewAreAll, PlacesAreAll, AnyOrderIsAll};

/// The seats that `Desk::new` makes are all that `Desk::close` asks for.
pub fn new_are_all<E, O>()
    ensures { NewAreAll E O }
{}

/// Seats that made turns and met others since are still all.
pub fn places_are_all<E, O>()
    ensures { PlacesAreAll E O }
{}

/// All seats in another order are still all.
pub fn any_order_is_all<E, O>()
    ensures { AnyOrderIsAll E O }
{}
