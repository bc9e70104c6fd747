//! What the rules of the machine read. Whatever holds the machine's data is read by these alone, so that each rule stands
//! in one function.

ghost use Rattle.std.specs.Prelude.{◌≡◌};
ghost use Rattle.uv_machine.specs.declared.state.State.{State};
ghost use Rattle.uv_machine.specs.States.{call_of, is_quiet, object_with, published, has_users, has_others, is_excluded, least_free, home_cell, phase_of, device_of, has_event, is_unplugged, newest_free, has_doomed, has_standing};

use crate::call::InFlight;
use crate::file::FilePhase;
use crate::object::Object;
use crate::state::State;
use uv_num::Kind;

/// What holds the machine's data, as the rules read it.
pub trait Readers {
    /// The state of the machine that it stands for.
    ghost state: { Self → State };

    /// The call in flight of an actor.
    fn call_of(&self, actor: u32) -> Option<InFlight>
        ensures { result ≡ call_of (state self.now) actor };

    /// Whether no call on a file is in flight.
    fn is_quiet(&self, file: u32) -> bool
        ensures { result ≡ is_quiet (state self.now) file };

    /// The object with an id.
    fn object_with(&self, id: u32) -> Option<Object>
        ensures { result ≡ object_with (state self.now) id };

    /// The object that a look finds under a number of a file.
    fn published(&self, file: u32, number: u32) -> Option<Object>
        ensures { result ≡ published (state self.now) file number };

    /// Whether an object uses this one.
    fn has_users(&self, id: u32) -> bool
        ensures { result ≡ has_users (state self.now) id };

    /// Whether a call holds the object exclusively.
    fn is_excluded(&self, id: u32) -> bool
        ensures { result ≡ is_excluded (state self.now) id };

    /// Whether a call of another actor holds the object.
    fn has_others(&self, actor: u32, id: u32) -> bool
        ensures { result ≡ has_others (state self.now) actor id };

    /// The least number of the file that is no object's and is set aside for no call.
    fn least_free(&self, file: u32) -> Option<u32>
        ensures { result ≡ least_free (state self.now) file };

    /// How many objects were ever made: the id of the next one.
    fn made(&self) -> u32
        ensures { result ≡ (state self.now).made };

    /// The cell that a new object of the kind gets.
    fn home_cell(&self, kind: Kind) -> Option<u32>
        ensures { result ≡ home_cell (state self.now) kind };

    /// How far a file's life is.
    fn phase_of(&self, file: u32) -> FilePhase
        ensures { result ≡ phase_of (state self.now) file };

    /// The device that a file was opened on.
    fn device_of(&self, file: u32) -> u32
        ensures { result ≡ device_of (state self.now) file };

    /// Whether an event of a file waits to be taken.
    fn has_event(&self, file: u32) -> bool
        ensures { result ≡ has_event (state self.now) file };

    /// Whether a device is unplugged.
    fn is_unplugged(&self, device: u32) -> bool
        ensures { result ≡ is_unplugged (state self.now) device };

    /// The newest object of the file that is live and that nothing uses.
    fn newest_free(&self, file: u32) -> Option<Object>
        ensures { result ≡ newest_free (state self.now) file };

    /// Whether an object of the file is doomed.
    fn has_doomed(&self, file: u32) -> bool
        ensures { result ≡ has_doomed (state self.now) file };

    /// Whether an object of the file has not been released.
    fn has_standing(&self, file: u32) -> bool
        ensures { result ≡ has_standing (state self.now) file };
}
