//! What whoever lends things to an action can rely on.

ghost use Rattle.uv_engine.specs.Laws.{DisarmsWhereTold, RingingGoesOn, WantsApart};

/// No two of the keys that an action wants lead to one region: each stands once, and there is one at most, or all are keys of
/// regions.
pub fn wants_apart()
    ensures { WantsApart }
{}

/// Ringing replaces nothing that is lent: a ring is only pushed to and disarmed, a channel only gets events, and all else is as it
/// was. Each completion comes into its own ring.
pub fn ringing_goes_on()
    ensures { RingingGoesOn }
{}

/// A ring is disarmed exactly where its channel took the event of a completion for which it was armed; else it is armed as it was.
pub fn disarms_where_told()
    ensures { DisarmsWhereTold }
{}
