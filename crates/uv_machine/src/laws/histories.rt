//! Laws on histories that go on.

ghost use Rattle.uv_machine.specs.Laws.{StateGoesOn, LegalGoesOn};

/// The state after one more entry is that entry's effect on the state before.
pub fn state_goes_on()
    ensures { StateGoesOn }
{}

/// A legal history with one more entry that is allowed is legal.
pub fn legal_goes_on()
    ensures { LegalGoesOn }
{}
