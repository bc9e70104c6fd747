//! Laws on what a client still meets after its device was pulled: events, and the objects that were left.

ghost use Rattle.uv_machine.specs.Events.{EventsCount, HusksCanGo};

/// A file has one event for each time that the driver was through with it, and none else: those that were
/// taken and the one that wasn't are as many as the dissociations.
pub fn events_count()
    ensures { EventsCount }
{}

/// What a removal left can always be destroyed: a husk that no call holds, by any actor without a call.
pub fn husks_can_go()
    ensures { HusksCanGo }
{}
