//! What follows from the rules of a ring, over many calls.

ghost use Rattle.std.specs.Prelude.{◌≡◌, List, Some, false};
ghost use Rattle.std.specs.List.{list_any};
ghost use Rattle.uv_cq.specs.Rings.{Ringed};
ghost use Rattle.uv_cq.specs.Uses.{Use, is_disarming, UseInOrder, AreJoined, AreInOrder, IsMarked, StaysArmed, HasFewEndings};
ghost use Rattle.uv_cq.specs.declared.ring.Arming.TheVariants.{All};

/// However a ring is used, the completions that were polled and then those that stand are those that stood and then those
/// that were kept: none of them is lost, doubled or overtaken.
pub fn completions_in_order()
    ensures { (r : Ringed) (uses : List Use) → AreInOrder r uses }
{}

/// At each use of a ring, what is taken out and then what stands is what stood and then what is kept.
pub fn each_use_in_order()
    ensures { (r : Ringed) (u : Use) → UseInOrder r u }
{}

/// The uses of one caller and then those of the next are the uses of a ring: what each of them kept and took out, one
/// after the other, is what was kept and taken out in all.
pub fn uses_join()
    ensures { (r : Ringed) (uses : List Use) (more : List Use) → AreJoined r uses more }
{}

/// A ring is disarmed while it is armed at most as often as it was armed, so that there are no more events than armings.
pub fn few_disarms()
    ensures { (r : Ringed) (uses : List Use) → HasFewEndings r uses }
{}

/// The mark of a ring is set exactly where it was set before, or where a completion was lost since.
pub fn overrun_is_for_good()
    ensures { (r : Ringed) (uses : List Use) → IsMarked r uses }
{}

/// A ring that is armed for all stays so while it isn't disarmed.
pub fn armed_for_all_stays()
    ensures { (r : Ringed) (uses : List Use) → r.armed ≡ Some All → list_any is_disarming uses ≡ false → StaysArmed r uses }
{}
