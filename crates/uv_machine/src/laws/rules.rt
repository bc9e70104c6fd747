//! Laws on the rules by name: there is one exactly where there is a refusal, and its errno is that of the refusal.

ghost use Rattle.uv_machine.specs.RuleNames.{OpenHasRule, EnterHasRule, ActHasRule, StepHasRule, EntryHasRule};

/// The rule of an open, over every state, file and device; want of memory aside.
pub fn open_has_rule()
    ensures { OpenHasRule }
{}

/// The rule of an enter, over every state, file and request; want of memory aside.
pub fn enter_has_rule()
    ensures { EnterHasRule }
{}

/// The rule of an act, over every state and call, and whatever state of a queue pair it finds.
pub fn act_has_rule()
    ensures { ActHasRule }
{}

/// The rule of a step, over every state, call and word.
pub fn step_has_rule()
    ensures { StepHasRule }
{}

/// The rule of an entry that the machine allows, with want of memory.
pub fn entry_has_rule()
    ensures { EntryHasRule }
{}
