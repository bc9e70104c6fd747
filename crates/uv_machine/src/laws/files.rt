//! Laws of files over whole histories, and of what is left where all files are over.

ghost use Rattle.uv_machine.specs.Files.{PhaseGoesOn, OpenedStays, ClosedWasTorn, TearingWasTorn, OverIsIdle, OverIsEmpty, MadeIsReleased, ReleasesBelowEnters};

/// A file's phase stays or goes on to the next one, and never back.
pub fn phase_goes_on()
    ensures { PhaseGoesOn }
{}

/// Device and client of a file that was opened stay.
pub fn opened_stays()
    ensures { OpenedStays }
{}

/// A file that is torn down was torn by who tears it down.
pub fn tearing_was_torn()
    ensures { TearingWasTorn }
{}

/// A closed file was torn by another than the driver.
pub fn closed_was_torn()
    ensures { ClosedWasTorn }
{}

/// Where all files are over no call is in flight.
pub fn over_is_idle()
    ensures { OverIsIdle }
{}

/// Where all files are over no object is left.
pub fn over_is_empty()
    ensures { OverIsEmpty }
{}

/// Where all files are over each object that was made was released, once.
pub fn made_is_released()
    ensures { MadeIsReleased }
{}

/// No more objects of a kind are released than calls entered to create one.
pub fn releases_below_enters()
    ensures { ReleasesBelowEnters }
{}
