//! Laws on the teardown of a file, once no call on it is in flight.

ghost use Rattle.uv_machine.specs.Laws.{SweepBegins, SweepKills, SweepReleases, SweepGoesOn, SweepEnds, SweepLeaves, FindsFree, SweepShows, OpenIsOpen, PhasesStandApart, FilesStandApart};

/// A tear of a file without calls begins a sweep.
pub fn sweep_begins()
    ensures { SweepBegins }
{}

/// While an object can go, it may be killed.
pub fn sweep_kills()
    ensures { SweepKills }
{}

/// What was killed stands doomed in its file, and is else as it was.
pub fn sweep_shows()
    ensures { SweepShows }
{}

/// What was killed may go.
pub fn sweep_releases()
    ensures { SweepReleases }
{}

/// A kill and its release leave fewer objects standing.
pub fn sweep_goes_on()
    ensures { SweepGoesOn }
{}

/// When no object can go the file may be closed.
pub fn sweep_ends()
    ensures { SweepEnds }
{}

/// When no object can go the driver may be through with the file.
pub fn sweep_leaves()
    ensures { SweepLeaves }
{}

/// While an object is live, one of the file's can go.
pub fn finds_free()
    ensures { FindsFree }
{}

/// A file that was opened stands open.
pub fn open_is_open()
    ensures { OpenIsOpen }
{}

/// Calls, and the kills and releases of objects, leave every file's phase as it was.
pub fn phases_stand_apart()
    ensures { PhasesStandApart }
{}

/// An entry of one file leaves every other file's phase as it was.
pub fn files_stand_apart()
    ensures { FilesStandApart }
{}
