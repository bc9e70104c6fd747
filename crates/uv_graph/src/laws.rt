//! Laws on what actors have for themselves.

ghost use Rattle.uv_graph.specs.Owns.{NamesItsActor, OwnStandsApart};

/// An entry of one actor leaves every other actor's own part as it was.
pub fn own_stands_apart()
    ensures { OwnStandsApart }
{}

/// An entry of an actor names that actor or nobody.
pub fn names_its_actor()
    ensures { NamesItsActor }
{}
