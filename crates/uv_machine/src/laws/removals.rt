//! Laws that count what a teardown takes from its file, whatever else happens beside it.

ghost use Rattle.uv_machine.specs.Removals.{SweepTakesOne, TornStaysQuiet, ReleasesCount, KillsCount, TeardownCounts, SweepWaits};

/// A kill and its release leave one object less standing.
pub fn sweep_takes_one()
    ensures { SweepTakesOne }
{}

/// A file that is torn down, whose calls have ended, stays so until its teardown ends.
pub fn torn_stays_quiet()
    ensures { TornStaysQuiet }
{}

/// Of such a file each release by the teardown takes one object of those that stand, and nothing else does.
pub fn releases_count()
    ensures { ReleasesCount }
{}

/// And each kill takes one of those that are live, and nothing else does.
pub fn kills_count()
    ensures { KillsCount }
{}

/// A teardown of a file without calls kills and releases as many objects as stood at its Tear.
pub fn teardown_counts()
    ensures { TeardownCounts }
{}

/// A teardown that had to wait is swept all the same.
pub fn sweep_waits()
    ensures { SweepWaits }
{}
