//! Laws of regions and journals.

ghost use Rattle.uv_region.specs.Rules.{AccessHasRule};
ghost use Rattle.uv_region.specs.Laws.{AllowedMayReadAll, AllowedMayWriteAll, AllowedPassesAll, RefusedInOrder, TestsLookAtNoBytes, OutsideStays, WrittenStands, ActedIsKept, ReplayKeepsLength, GoesOnFromItself, GoesOnInTurn, ActedGoesOn, RoomIsNotKnown, RoomChangesNoTest, ActionChangesNoTest, AllowedMayAct, LentRegionsGoOn};

/// An action is allowed exactly where it lies inside the region, has its right and the region's domain, and passes its
/// window.
pub fn allowed_passes_all()
    ensures { AllowedPassesAll }
{}

/// A test refuses only what each test before it lets pass.
pub fn refused_in_order()
    ensures { RefusedInOrder }
{}

/// The tests look neither at an action's bytes nor at who acts.
pub fn tests_look_at_no_bytes()
    ensures { TestsLookAtNoBytes }
{}

/// An action touches no byte outside its place.
pub fn outside_stays()
    ensures { OutsideStays }
{}

/// What was written stands there.
pub fn written_stands()
    ensures { WrittenStands }
{}

/// A region to which an allowed action is done has the journal of all that was done to it.
pub fn acted_is_kept()
    ensures { ActedIsKept }
{}

/// The bytes that a journal leaves are as many as the region has.
pub fn replay_keeps_length()
    ensures { ReplayKeepsLength }
{}

/// A journal goes on from itself.
pub fn goes_on_from_itself()
    ensures { GoesOnFromItself }
{}

/// A journal goes on from each that those go on from which it goes on from.
pub fn goes_on_in_turn()
    ensures { GoesOnInTurn }
{}

/// The journal of a region that acted goes on from what it was.
pub fn acted_goes_on()
    ensures { ActedGoesOn }
{}

/// To take room changes nothing that counts of regions.
pub fn room_is_not_known()
    ensures { RoomIsNotKnown }
{}

/// To take room changes no test.
pub fn room_changes_no_test()
    ensures { RoomChangesNoTest }
{}

/// An action changes no test.
pub fn action_changes_no_test()
    ensures { ActionChangesNoTest }
{}

/// What is allowed may be made once there is room for it.
pub fn allowed_may_act()
    ensures { AllowedMayAct }
{}

/// What is allowed on several pieces may be written one after another, once there is room for all.
pub fn allowed_may_write_all()
    ensures { AllowedMayWriteAll }
{}

/// What is allowed on several pieces may be read one after another, once there is room for all.
pub fn allowed_may_read_all()
    ensures { AllowedMayReadAll }
{}

/// There is a rule that an access by a key doesn't meet exactly where it isn't allowed.
pub fn access_has_rule()
    ensures { AccessHasRule }
{}

/// Lent regions go on by all that a queue pair does to them.
pub fn lent_regions_go_on()
    ensures { LentRegionsGoOn }
{}
