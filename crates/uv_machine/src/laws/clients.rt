//! Laws on the calls of a client.

ghost use Rattle.uv_machine.specs.Laws.{CallsGoOn, CallsInOrder, CallsInFlight};

/// A client's calls go on with the history.
pub fn calls_go_on()
    ensures { CallsGoOn }
{}

/// They are what its Opens and Enters asked for, in order.
pub fn calls_in_order()
    ensures { CallsInOrder }
{}

/// One of them has no answer yet exactly while a call of the client is in flight.
pub fn calls_in_flight()
    ensures { CallsInFlight }
{}
