//! Laws on the words of calls: those to come, those that an actor made, and what they say of the call's answer.

ghost use Rattle.uv_machine.specs.Words.{StepKeepsRequest, CallSilent, DestroyEnds, WordsGoOn, WordsAreSteps, RefusedEnds};

/// A step of a call leaves its file and its request.
pub fn step_keeps_request()
    ensures { StepKeepsRequest }
{}

/// Entries that don't name an actor leave its calls.
pub fn call_silent()
    ensures { CallSilent }
{}

/// A destroy that ends was refused by its Lock or its Check, or else made its Finish.
pub fn destroy_ends()
    ensures { DestroyEnds }
{}

/// A step makes the first of the words to come and leaves the others, unless it is refused.
pub fn words_go_on()
    ensures { WordsGoOn }
{}

/// As many steps are ahead of a call as words are to come.
pub fn words_are_steps()
    ensures { WordsAreSteps }
{}

/// A refused step is followed by exactly an abort where a number is set aside, a free for each look, and the exit.
pub fn refused_ends()
    ensures { RefusedEnds }
{}
