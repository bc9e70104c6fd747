//! Laws on handle numbers, and so on how many objects stand at once.

ghost use Rattle.uv_machine.specs.Laws.{MakeHasRoom};

/// In a legal history an accepted Make finds room in a list for `MOST_OBJECTS` objects.
pub fn make_has_room()
    ensures { MakeHasRoom }
{}
