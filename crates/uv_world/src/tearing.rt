//! Devices that are pulled, and the teardowns of files. None takes memory.

ghost use Rattle.std.specs.Prelude.{◌≡◌, ◌≢◌, ◌<◌, None, Some, is_some, true};
ghost use Rattle.uv_num.specs.declared.limits.TheConstants.{DEVICES, DRIVER, FILES};
ghost use Rattle.uv_machine.specs.Histories.{IsActor, state_of};
ghost use Rattle.uv_machine.specs.States.{is_unplugged, newest_free, phase_of};
ghost use Rattle.uv_graph.specs.Conditions.{Pulls};
ghost use Rattle.uv_graph.specs.Owns.{TearsNone, own_of};
ghost use Rattle.uv_graph.specs.Turns.{close_of, tear_of};
ghost use Rattle.uv_core.specs.Beside.{OthersKeep};
ghost use Rattle.uv_core.specs.Leads.{TearLeads};
ghost use Rattle.uv_world.specs.Celled.{slots_set, value_of_slot};
ghost use Rattle.uv_world.specs.Holdings.{held_of};
ghost use Rattle.uv_world.specs.Moving.{held_moved};
ghost use Rattle.uv_world.specs.Owing.{IsHoused, MoveFits};
ghost use Rattle.uv_world.specs.Seating.{IsAtRest, IsWorld, stage_of};
ghost use Rattle.uv_world.specs.Tearing.{LaysDoomed, TurnLeads, kill_ahead, object_doomed, object_killed, pull_of, stage_gone, stage_swept, stage_torn, stage_unplugged};

use crate::deeds::{bury_deed, lay, pick};
use crate::laws::fitting_goes_on;
use crate::world::{Doomed, World};
use uv_core::{Swept, Torn};
use uv_machine::{Entry, Move, Readers, Slot, entry_move};
use uv_num::{Errno, Kind};
use uv_pool::plain::PlainDeed;

/// What the next turn of a teardown came to.
#[derive(Clone, Copy, Debug, PartialEq)]
pub enum Turn {
    /// An object was taken out of use.
    Killed {
        /// Its id.
        object: u32,
        kind: Kind,
        handle: u32,
    },
    /// The teardown of the file has ended.
    Done,
    /// So many calls of the file are in flight.
    NotYet(u32),
}

impl World {
    /// Pulls a device (`uverbs_main.c`, ib_uverbs_remove_one, of which this is the mark that calls see). EIO exactly where it
    /// was pulled before.
    pub fn unplug(&mut self, device: u32) -> Result<(), Errno>
        requires device { device < DEVICES }
        requires rest { IsAtRest self.old.core self.old.doomed DRIVER }
        requires world { IsWorld self.old }
        ensures answer { result ≡ pull_of (is_unplugged (state_of self.old.core.history) device) }
        ensures stage { stage_of self.new ≡ stage_unplugged (stage_of self.old) device result }
        ensures spares { self.new.core.spares ≡ self.old.core.spares }
        ensures others { OthersKeep DRIVER self.old.core self.new.core }
        ensures doomed { self.new.doomed ≡ self.old.doomed }
        ensures world { IsWorld self.new }
    {
        fitting_goes_on();
        self.core.unplug(device)
    }

    /// Begins to close a file (`uverbs_main.c`, ib_uverbs_close). `NotYet`: the driver is tearing it down, and the close may
    /// follow. EBADF: it was never opened, is closed, or is being closed.
    pub fn close(&mut self, tearer: u32, file: u32) -> Torn
        requires actor { IsActor tearer }
        requires not_driver { tearer ≢ DRIVER }
        requires file { file < FILES }
        requires none { TearsNone (own_of self.old.core tearer) }
        requires rest { IsAtRest self.old.core self.old.doomed tearer }
        requires world { IsWorld self.old }
        ensures answer { result ≡ close_of (phase_of (state_of self.old.core.history) file) }
        ensures stage { stage_of self.new ≡ stage_torn (stage_of self.old) file tearer result }
        ensures leads { TearLeads (own_of self.new.core tearer) file result }
        ensures spares { self.new.core.spares ≡ self.old.core.spares }
        ensures others { OthersKeep tearer self.old.core self.new.core }
        ensures doomed { self.new.doomed ≡ self.old.doomed }
        ensures world { IsWorld self.new }
    {
        fitting_goes_on();
        self.core.close(tearer, file)
    }

    /// Begins to tear an open file of a pulled device down, by the driver (`uverbs_main.c`, ib_uverbs_free_hw_resources).
    /// `NotYet`: this actor is tearing the file down. EBADF: the file isn't on the device, or is neither open nor being torn
    /// down.
    pub fn tear(&mut self, device: u32, file: u32) -> Torn
        requires device { device < DEVICES }
        requires file { file < FILES }
        requires pulled { Pulls (own_of self.old.core DRIVER) device }
        requires none { TearsNone (own_of self.old.core DRIVER) }
        requires rest { IsAtRest self.old.core self.old.doomed DRIVER }
        requires world { IsWorld self.old }
        ensures answer { result ≡ tear_of (state_of self.old.core.history) device file }
        ensures stage { stage_of self.new ≡ stage_torn (stage_of self.old) file DRIVER result }
        ensures leads { TearLeads (own_of self.new.core DRIVER) file result }
        ensures spares { self.new.core.spares ≡ self.old.core.spares }
        ensures others { OthersKeep DRIVER self.old.core self.new.core }
        ensures doomed { self.new.doomed ≡ self.old.doomed }
        ensures world { IsWorld self.new }
    {
        fitting_goes_on();
        self.core.tear(device, file)
    }

    /// What the next kill of a teardown does to contents.
    fn kill_ahead(&self, file: u32) -> Move
        ensures { result ≡ kill_ahead (state_of self.now.core.history) (newest_free (state_of self.now.core.history) file) }
    {
        match self.core.newest_free(file) {
            None => Move::Stays,
            Some(x) => entry_move(&self.core, Entry::Kill { object: x.id }),
        }
    }

    /// Makes the next turn of a teardown that has nothing to release (`rdma_core.c`, __uverbs_cleanup_ufile): of the objects
    /// that nothing uses the newest is taken out of use, with what it holds.
    pub fn sweep(&mut self, tearer: u32, file: u32) -> Turn
        requires actor { IsActor tearer }
        requires tears { (own_of self.old.core tearer).tear ≡ Some file }
        requires rest { IsAtRest self.old.core self.old.doomed tearer }
        requires world { IsWorld self.old }
        ensures stage { record { stage = stage_of self.new; turn = result } ≡ stage_swept (stage_of self.old) tearer file }
        ensures spares { self.new.core.spares ≡ self.old.core.spares }
        ensures others { OthersKeep tearer self.old.core self.new.core }
        ensures leads { TurnLeads (own_of self.new.core tearer) file result }
        ensures doomed { object_doomed (value_of_slot self.new.doomed tearer) ≡ object_killed result }
        ensures world { IsWorld self.new }
    {
        fitting_goes_on();
        let step = self.kill_ahead(file);
        match self.core.sweep(tearer, file) {
            Swept::Kill {
                deed,
                object,
                kind,
                handle,
            } => {
                self.doom(tearer, deed, object, step);
                Turn::Killed {
                    object,
                    kind,
                    handle,
                }
            }
            Swept::Done => Turn::Done,
            Swept::NotYet(calls) => Turn::NotYet(calls),
        }
    }

    /// Lays the deed of a killed object down until its release, and takes out what the object holds.
    fn doom(&mut self, tearer: u32, deed: PlainDeed, object: u32, step: Move)
        requires housed { IsHoused self.old.contents }
        requires fits { MoveFits step }
        ensures core { self.new.core ≡ self.old.core }
        ensures retired { self.new.retired ≡ self.old.retired }
        ensures doomed { LaysDoomed deed object (λ now. self.new.doomed ≡ slots_set self.old.doomed tearer (Some now)) }
        ensures held { held_of self.new.contents ≡ held_moved (held_of self.old.contents) step }
        ensures housed { IsHoused self.new.contents }
    {
        let deed = bury_deed(deed);
        lay(&mut self.doomed, tearer, Doomed { object, deed });
        self.contents.carry(step);
    }

    /// Releases the object that a teardown has taken out of use, and closes what it held. It tells the object's id.
    pub fn gone(&mut self, tearer: u32, file: u32) -> u32
        requires actor { IsActor tearer }
        requires tears { (own_of self.old.core tearer).tear ≡ Some file }
        requires doomed { is_some (value_of_slot self.old.doomed tearer) ≡ true }
        requires world { IsWorld self.old }
        ensures object { object_doomed (value_of_slot self.old.doomed tearer) ≡ Some result }
        ensures stage { stage_of self.new ≡ stage_gone (stage_of self.old) file result }
        ensures spares { self.new.core.spares ≡ self.old.core.spares }
        ensures others { OthersKeep tearer self.old.core self.new.core }
        ensures none { value_of_slot self.new.doomed tearer ≡ None }
        ensures world { IsWorld self.new }
    {
        fitting_goes_on();
        let kept = self.contents.kept(Slot::OfTeardown(file));
        match pick(&mut self.doomed, tearer) {
            None => unreachable!(),
            Some(Doomed { object, deed }) => {
                let step = entry_move(&self.core, Entry::Gone { object, kept });
                self.core.gone(tearer, file, deed, kept);
                self.contents.carry(step);
                object
            }
        }
    }
}
