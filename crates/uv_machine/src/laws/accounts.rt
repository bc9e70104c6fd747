//! Laws on the room that a history needs.

ghost use Rattle.uv_machine.specs.Laws.{OwedCovers, ComingCovers};

/// What a state owes covers each entry that can come without another Open or Enter.
pub fn owed_covers()
    ensures { OwedCovers }
{}

/// The Makes that can still come are those that were counted at the Enters.
pub fn coming_covers()
    ensures { ComingCovers }
{}
