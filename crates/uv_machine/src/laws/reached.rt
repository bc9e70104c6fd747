//! Laws on every state that a legal history leads to.

ghost use Rattle.uv_machine.specs.Laws.{LegalIsReached, LegalOwnStands, LegalLooksStand, LegalUsesStand, LegalIsCelled, LegalIsBounded};

/// What calls in flight have and hold by their place in their plan, that objects use what was made before
/// them and is of a lower rank, that what one call holds exclusively no other holds, and which calls or
/// sweeps the objects that aren't live wait for.
pub fn legal_is_reached()
    ensures { LegalIsReached }
{}

/// What a call holds exclusively stands there: made where its create commits it, live or a husk where a destroy checks
/// it or was refused, doomed or a husk where it is finished.
pub fn legal_own_stands()
    ensures { LegalOwnStands }
{}

/// What a call looks at stands there and is live, in the call's file.
pub fn legal_looks_stand()
    ensures { LegalLooksStand }
{}

/// What an object uses stands there and is live, in the object's file.
pub fn legal_uses_stand()
    ensures { LegalUsesStand }
{}

/// An object that is no husk has a cell of its own, which isn't home and has its generation.
pub fn legal_is_celled()
    ensures { LegalIsCelled }
{}

/// How many objects there are at most, handles and looks, and that a number of a file is one object's or set
/// aside for one call.
pub fn legal_is_bounded()
    ensures { LegalIsBounded }
{}
