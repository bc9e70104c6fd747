//! Laws of what all objects hold over any entries.

ghost use Rattle.uv_world.specs.Fitting.{FirstFits, FittingGoesOn};
ghost use Rattle.uv_world.specs.Lending.{LentComesBack};
ghost use Rattle.uv_world.specs.Returning.{TakenComesBack};
ghost use Rattle.uv_world.specs.Waiting.{WaitingGoesOn};

use uv_machine::laws;

/// What waits to be planted is told by the calls in flight alone: until its Make each waits with what its request's create
/// makes. An entry keeps that, whatever it is. It does nothing.
pub fn waiting_goes_on()
    ensures { WaitingGoesOn }
{}

/// Where nothing has happened, no cell holds anything and no object is there. It does nothing.
pub fn first_fits()
    ensures { FirstFits }
{}

/// A cell holds something under a generation exactly while an object that is made or live has that cell under it. Each entry that
/// the machine allows keeps that, where the call that makes a step is in its ranges. It does nothing.
pub fn fitting_goes_on()
    ensures { FittingGoesOn }
{
    laws::legal_is_reached();
    laws::legal_is_celled();
    laws::legal_own_stands();
    laws::make_has_room();
    laws::calls_stand_apart();
    laws::legal_goes_on();
    laws::state_goes_on();
}

/// What keys have lent comes back, whatever was done to the regions meanwhile: the same cells hold something again. It does nothing.
pub fn lent_comes_back()
    ensures { LentComesBack }
{}

/// What was taken for an action and comes back as it was leaves all as it was held. It does nothing.
pub fn taken_comes_back()
    ensures { TakenComesBack }
{}
