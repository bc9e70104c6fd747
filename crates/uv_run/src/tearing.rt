//! The events of teardowns at the site.

ghost use Rattle.std.specs.Prelude.{◌≡◌, ◌≤◌, None, Some, sum_by};
ghost use Rattle.uv_num.specs.Place.{at_place};
ghost use Rattle.uv_machine.specs.Histories.{IsActor, state_of};
ghost use Rattle.uv_machine.specs.States.{call_of, phase_of};
ghost use Rattle.uv_graph.specs.Owns.{own_of, TearsNone};
ghost use Rattle.uv_graph.specs.Slots.{put_slot};
ghost use Rattle.uv_run.specs.declared.flight.Teardown.TheVariants.{Closing, Unplugging};
ghost use Rattle.uv_run.specs.Progress.{Advances, flying};
ghost use Rattle.uv_run.specs.Site.{teardown_of, killed_of, teardown_turn, tears_turn, begin_turn, close_turn, unplug_turn, removal_turn, sweep_turn, swept_turn, release_turn, ended_turn, dissociated_turn, torn_by, file_ahead};
ghost use Rattle.uv_run.specs.Sound.{site_of, IsSound, Moved};
ghost use Rattle.uv_run.specs.declared.heard.Event.TheVariants as event;
ghost use Rattle.uv_run.specs.Site.{goes_on};

use crate::flight::{Killed, Teardown};
use crate::flights::{Flights, ends_with, goes_on};
use crate::heard::{Event, Heard};
use uv_core::Torn;
use uv_machine::Answer;
use uv_model::Left;
use uv_num::{Errno, Put, change_at};
use uv_world::Turn;

impl Flights {
    /// The next event of an actor's teardown, if it has one in flight.
    pub(crate) fn teardown_event(&mut self, actor: u32) -> Heard
        requires call { call_of (state_of self.old.world.core.history) actor ≡ None }
        requires actor { IsActor actor }
        requires sound { IsSound self.old }
        ensures turned { record { site = site_of self.new; heard = result } ≡ teardown_turn (site_of self.old) actor (teardown_of (site_of self.old) actor) }
        ensures progress { Advances (site_of self.old) actor (record { site = site_of self.new; heard = result }) }
        ensures moved { Moved actor self.old self.new }
    {
        match self.teardown_of(actor) {
            None => goes_on(Event::Silent),
            Some(teardown) => self.tears(actor, teardown),
        }
    }

    fn tears(&mut self, actor: u32, teardown: Teardown) -> Heard
        requires call { call_of (state_of self.old.world.core.history) actor ≡ None }
        requires actor { IsActor actor }
        requires teardown { teardown_of (site_of self.old) actor ≡ Some teardown }
        requires sound { IsSound self.old }
        ensures turned { record { site = site_of self.new; heard = result } ≡ tears_turn (site_of self.old) actor teardown (torn_by (state_of self.old.world.core.history) actor) }
        ensures progress { Advances (site_of self.old) actor (record { site = site_of self.new; heard = result }) }
        ensures moved { Moved actor self.old self.new }
    {
        match self.world.core.torn_by(actor) {
            None => self.begin_tear(actor, teardown),
            Some(file) => self.sweep(actor, file, teardown),
        }
    }

    /// Begins to tear a file down.
    fn begin_tear(&mut self, actor: u32, teardown: Teardown) -> Heard
        requires call { call_of (state_of self.old.world.core.history) actor ≡ None }
        requires teardown { teardown_of (site_of self.old) actor ≡ Some teardown }
        requires none { TearsNone (own_of self.old.world.core actor) }
        requires sound { IsSound self.old }
        ensures turned { record { site = site_of self.new; heard = result } ≡ begin_turn (site_of self.old) actor teardown }
        ensures progress { Advances (site_of self.old) actor (record { site = site_of self.new; heard = result }) }
        ensures moved { Moved actor self.old self.new }
    {
        match teardown {
            Teardown::Closing(file) => self.close(actor, file),
            Teardown::Unplugging(device) => self.remove(actor, device),
        }
    }

    /// The teardown has ended.
    fn end_teardown(&mut self, actor: u32)
        ensures { self.new ≡ record self.old { teardowns = at_place self.old.teardowns actor (put_slot None) } }
    {
        change_at(&mut self.teardowns, actor as usize, Put(None));
    }

    /// Begins to close a file, or waits for the driver, or ends refused.
    pub(crate) fn close(&mut self, actor: u32, file: u32) -> Heard
        requires call { call_of (state_of self.old.world.core.history) actor ≡ None }
        requires teardown { teardown_of (site_of self.old) actor ≡ Some (Closing file) }
        requires none { TearsNone (own_of self.old.world.core actor) }
        requires sound { IsSound self.old }
        ensures turned { record { site = site_of self.new; heard = result } ≡ close_turn (site_of self.old) actor file (phase_of (state_of self.old.world.core.history) file) }
        ensures progress { Advances (site_of self.old) actor (record { site = site_of self.new; heard = result }) }
        ensures moved { Moved actor self.old self.new }
    {
        match self.world.close(actor, file) {
            Torn::Began => goes_on(Event::Torn(file)),
            Torn::NotYet(by) => goes_on(Event::TornBy { file, by }),
            Torn::Refused(_) => {
                self.end_teardown(actor);
                ends_with(Event::Silent, Answer::Refused(Errno::BadF))
            }
        }
    }

    /// Begins to tear the next file of a pulled device, or ends where there is none.
    fn remove(&mut self, actor: u32, device: u32) -> Heard
        requires call { call_of (state_of self.old.world.core.history) actor ≡ None }
        requires teardown { teardown_of (site_of self.old) actor ≡ Some (Unplugging device) }
        requires none { TearsNone (own_of self.old.world.core actor) }
        requires sound { IsSound self.old }
        ensures turned { record { site = site_of self.new; heard = result } ≡ unplug_turn (site_of self.old) actor (file_ahead (state_of self.old.world.core.history) device) }
        ensures progress { Advances (site_of self.old) actor (record { site = site_of self.new; heard = result }) }
        ensures moved { Moved actor self.old self.new }
    {
        match self.file_ahead(device) {
            None => {
                self.end_teardown(actor);
                ends_with(Event::Silent, Answer::Ok)
            }
            Some(file) => self.remove_from(actor, device, file),
        }
    }

    /// Begins to tear a file of a pulled device, or waits for who is tearing it.
    fn remove_from(&mut self, actor: u32, device: u32, file: u32) -> Heard
        requires call { call_of (state_of self.old.world.core.history) actor ≡ None }
        requires teardown { teardown_of (site_of self.old) actor ≡ Some (Unplugging device) }
        requires none { TearsNone (own_of self.old.world.core actor) }
        requires ahead { file_ahead (state_of self.old.world.core.history) device ≡ Some file }
        requires sound { IsSound self.old }
        ensures turned { record { site = site_of self.new; heard = result } ≡ removal_turn (site_of self.old) actor file (phase_of (state_of self.old.world.core.history) file) }
        ensures progress { Advances (site_of self.old) actor (record { site = site_of self.new; heard = result }) }
        ensures moved { Moved actor self.old self.new }
    {
        match self.world.tear(device, file) {
            Torn::Began => goes_on(Event::Torn(file)),
            Torn::NotYet(by) => goes_on(Event::TornBy { file, by }),
            Torn::Refused(_) => unreachable!(),
        }
    }

    /// Releases what was taken out of use, or goes on with the sweep.
    fn sweep(&mut self, actor: u32, file: u32, teardown: Teardown) -> Heard
        requires call { call_of (state_of self.old.world.core.history) actor ≡ None }
        requires teardown { teardown_of (site_of self.old) actor ≡ Some teardown }
        requires tears { (own_of self.old.world.core actor).tear ≡ Some file }
        requires sound { IsSound self.old }
        ensures turned { record { site = site_of self.new; heard = result } ≡ sweep_turn (site_of self.old) actor file teardown (killed_of (site_of self.old) actor) }
        ensures progress { Advances (site_of self.old) actor (record { site = site_of self.new; heard = result }) }
        ensures moved { Moved actor self.old self.new }
    {
        match self.killed_of(actor) {
            None => self.sweep_on(actor, file, teardown),
            Some(x) => self.release(actor, file, teardown, x),
        }
    }

    /// Releases what was taken out of use.
    fn release(&mut self, actor: u32, file: u32, _teardown: Teardown, x: Killed) -> Heard
        requires teardown { teardown_of (site_of self.old) actor ≡ Some _teardown }
        requires call { call_of (state_of self.old.world.core.history) actor ≡ None }
        requires killed { killed_of (site_of self.old) actor ≡ Some x }
        requires tears { (own_of self.old.world.core actor).tear ≡ Some file }
        requires sound { IsSound self.old }
        ensures turned { record { site = site_of self.new; heard = result } ≡ release_turn (site_of self.old) actor file x }
        ensures progress { Advances (site_of self.old) actor (record { site = site_of self.new; heard = result }) }
        ensures moved { Moved actor self.old self.new }
    {
        let _object = self.world.gone(actor, file);
        change_at(&mut self.killed, actor as usize, Put(None));
        goes_on(Event::Went(x.left))
    }

    /// Takes the next object out of use, ends the teardown of a file, or waits for calls.
    fn sweep_on(&mut self, actor: u32, file: u32, teardown: Teardown) -> Heard
        requires call { call_of (state_of self.old.world.core.history) actor ≡ None }
        requires teardown { teardown_of (site_of self.old) actor ≡ Some teardown }
        requires tears { (own_of self.old.world.core actor).tear ≡ Some file }
        requires none { killed_of (site_of self.old) actor ≡ None }
        requires sound { IsSound self.old }
        ensures turned { record { site = site_of self.new; heard = result } ≡ swept_turn (site_of self.old) actor file teardown }
        ensures progress { Advances (site_of self.old) actor (record { site = site_of self.new; heard = result }) }
        ensures moved { Moved actor self.old self.new }
    {
        match self.world.sweep(actor, file) {
            Turn::Killed {
                object,
                kind,
                handle,
            } => self.kill(
                actor,
                Killed {
                    object,
                    left: Left { file, kind, handle },
                },
            ),
            Turn::Done => self.end(actor, file, teardown),
            Turn::NotYet(calls) => goes_on(Event::NotYet { file, calls }),
        }
    }

    /// Keeps what was taken out of use until it is released.
    fn kill(&mut self, actor: u32, x: Killed) -> Heard
        ensures heard { result ≡ goes_on (event.Killed x.left) }
        ensures kept { self.new ≡ record self.old { killed = at_place self.old.killed actor (put_slot (Some x)) } }
    {
        change_at(&mut self.killed, actor as usize, Put(Some(x)));
        goes_on(Event::Killed(x.left))
    }

    /// The teardown of a file has ended.
    fn end(&mut self, actor: u32, file: u32, teardown: Teardown) -> Heard
        requires teardown { teardown_of (site_of self.old) actor ≡ Some teardown }
        requires none { TearsNone (own_of self.old.world.core actor) }
        requires sound { IsSound self.old }
        ensures turned { record { site = site_of self.new; heard = result } ≡ ended_turn (site_of self.old) actor file teardown }
        ensures world { self.new.world ≡ self.old.world }
        ensures fewer { sum_by flying self.new.teardowns ≤ sum_by flying self.old.teardowns }
        ensures moved { Moved actor self.old self.new }
    {
        match teardown {
            Teardown::Closing(_) => {
                self.end_teardown(actor);
                ends_with(Event::Closes(file), Answer::Ok)
            }
            Teardown::Unplugging(device) => self.dissociate(actor, device, file),
        }
    }

    /// The driver is through with a file, and with the device where no other is left.
    fn dissociate(&mut self, actor: u32, device: u32, file: u32) -> Heard
        requires none { TearsNone (own_of self.old.world.core actor) }
        requires sound { IsSound self.old }
        ensures turned { record { site = site_of self.new; heard = result } ≡ dissociated_turn (site_of self.old) actor device file }
        ensures world { self.new.world ≡ self.old.world }
        ensures fewer { sum_by flying self.new.teardowns ≤ sum_by flying self.old.teardowns }
        ensures moved { Moved actor self.old self.new }
    {
        match self.file_ahead(device) {
            None => {
                self.end_teardown(actor);
                ends_with(Event::Dissociates(file), Answer::Ok)
            }
            Some(_) => goes_on(Event::Dissociates(file)),
        }
    }
}
