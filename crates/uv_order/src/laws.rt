//! Laws of logs and takings. A call of one does nothing when it runs.

ghost use Rattle.uv_order.specs.Laws.{LogLaws, TakingLaws};
ghost use Rattle.uv_order.specs.Places.{OwnHasPlace};
ghost use Rattle.uv_order.specs.Sums.{SumsAdd, SumsTurn};
ghost use Rattle.uv_order.specs.Rings.{FirstInFirstOut, WholeIsAdded};
ghost use Rattle.uv_order.specs.Marks.{PickedAreOwn};

/// What signed logs are made of, what a seat has seen of one, and whom its entries name.
pub fn log_laws<E>()
    ensures { LogLaws E }
{}

/// A seat's own entry has its place in the log, with exactly the seat's own entries before it.
pub fn own_has_place<E>()
    ensures { OwnHasPlace E }
{}

/// What the seats' own entries weigh, over all seats, is what the log weighs.
pub fn sums_add<E>()
    ensures { SumsAdd E }
{}

/// Sums over seats and over cells change places.
pub fn sums_turn()
    ensures { SumsTurn }
{}

/// Takings by generation, and as a chain.
pub fn taking_laws<T>()
    ensures { TakingLaws T }
{}

/// Of a chain of takings of a ring: all that was polled and then what is left is what was there and then all that was
/// pushed.
pub fn first_in_first_out<X, C>()
    ensures { FirstInFirstOut X C }
{}

/// Of a chain of takings of a list that only grows: the whole is what was there and then all that was added.
pub fn whole_is_added<X, C>()
    ensures { WholeIsAdded X C }
{}

/// Of what was added, the items that bear a seat's mark are, in order, the seat's own among those that it added.
pub fn picked_are_own<X, C>()
    ensures { PickedAreOwn X C }
{}
