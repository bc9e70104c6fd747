//! Laws on objects: what they are made for, what they use, and which cells they have.

ghost use Rattle.uv_machine.specs.ObjectLaws.{MadeGoesOn, MadeInOrder, MadeCounts, StandsAsMade, KeepsCell, MadeByRequest, StandsByRequest, UsesFit, UsesKeepCell, BoundGivesNoMore, ObjectsStandApart, ReleasedCounts};

/// The objects ever made go on with the history.
pub fn made_goes_on()
    ensures { MadeGoesOn }
{}

/// The id of an object is its place among those that were made.
pub fn made_in_order()
    ensures { MadeInOrder }
{}

/// There are as many as ids were given.
pub fn made_counts()
    ensures { MadeCounts }
{}

/// An object that stands is the one that was made under its id, and uses what it used then.
pub fn stands_as_made()
    ensures { StandsAsMade }
{}

/// An object keeps its kind, file, handle, request, cell and generation.
pub fn keeps_cell()
    ensures { KeepsCell }
{}

/// An object was made by a request that creates its kind and had entered on its file.
pub fn made_by_request()
    ensures { MadeByRequest }
{}

/// And so was each that stands.
pub fn stands_by_request()
    ensures { StandsByRequest }
{}

/// What an object uses is, place by place, what its request looks at, and then the region that it is
/// bound to.
pub fn uses_fit()
    ensures { UsesFit }
{}

/// What an object uses stands there, live, with the cell that it was made in.
pub fn uses_keep_cell()
    ensures { UsesKeepCell }
{}

/// What stands bound gives nothing that its region doesn't: the region lets itself be bound, is of the
/// window's domain, may be written by its owner where the window may be written by others, and has all of
/// the range.
pub fn bound_gives_no_more()
    ensures { BoundGivesNoMore }
{}

/// An entry leaves each object as it is that it doesn't name; when a file is closed its objects go.
pub fn objects_stand_apart()
    ensures { ObjectsStandApart }
{}

/// The objects that a history releases are those that its entries release, each as often.
pub fn released_counts()
    ensures { ReleasedCounts }
{}
