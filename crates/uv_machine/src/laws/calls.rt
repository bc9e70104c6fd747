//! Laws on calls in flight.

ghost use Rattle.uv_machine.specs.Laws.{LooksAreFew, StepsRunOut, EntersWithFew, CallsStandApart, IdleIsQuiet, MakeHasPlace};

/// A request looks at four objects at most.
pub fn looks_are_few()
    ensures { LooksAreFew }
{}

/// Each step of a call leaves fewer ahead of it.
pub fn steps_run_out()
    ensures { StepsRunOut }
{}

/// A call that has just entered has at most four steps ahead and two for each look.
pub fn enters_with_few()
    ensures { EntersWithFew }
{}

/// An entry of one actor leaves every other actor's call as it was.
pub fn calls_stand_apart()
    ensures { CallsStandApart }
{}

/// Where no call is in flight, none is in flight on a file.
pub fn idle_is_quiet()
    ensures { IdleIsQuiet }
{}

/// A Make that is accepted has an id to give and a cell that is home.
pub fn make_has_place()
    ensures { MakeHasPlace }
{}
