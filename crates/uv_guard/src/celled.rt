//! What stands in a cell.

ghost use Rattle.std.specs.Prelude.{◌≡◌};

/// A value that can stand in a cell: it has an identity, which stays, and goes on from what it was. No law asks more
/// than this; what "goes on" means is each type's own (this project's own).
pub trait Celled {
    /// Who the value is, whatever is done with it.
    type Identity;

    /// Who the value is.
    ghost identity: { Self → Self.Identity };

    /// The second value can be what became of the first one.
    ghost goes_on: { Self → Self → Type 0 };

    /// A value goes on from itself.
    ghost same: { (x : Self) → goes_on x x };

    /// What goes on from a later value goes on from an earlier one.
    ghost further: { (x y z : Self) → goes_on x y → goes_on y z → goes_on x z };

    /// A value goes on only from values of its own identity.
    ghost itself: { (x y : Self) → goes_on x y → identity y ≡ identity x };
}
