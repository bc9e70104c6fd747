//! The laws of scripts, each the contract of a function that does nothing.

ghost use Rattle.uv_script.specs.Above.{NamesStandForLinesAbove};
ghost use Rattle.uv_script.specs.Deaths.{TheDeadAreSilent};
ghost use Rattle.uv_script.specs.Lines.{LinesJoin};

/// The lines that bytes are split into are all of the bytes, in their order.
pub fn lines_join()
    ensures { LinesJoin }
{}

/// In a script no line of a client comes after its death: none that it does or begins, no event of it, and no second death.
pub fn the_dead_are_silent()
    ensures { TheDeadAreSilent }
{}

/// In a script each name stands for what a line above makes: the line whose number the name has is a create, of the kind of
/// which the name is.
pub fn names_stand_for_lines_above()
    ensures { NamesStandForLinesAbove }
{}
