//! The steps of calls. None takes memory.

ghost use Rattle.std.specs.Prelude.{◌≡◌, Some, is_some, true, false};
ghost use Rattle.uv_num.specs.declared.kind.Kind.{Kind};
ghost use Rattle.uv_pool.specs.Plain.{plain_facts};
ghost use Rattle.uv_machine.specs.Histories.{state_of};
ghost use Rattle.uv_machine.specs.States.{call_of};
ghost use Rattle.uv_graph.specs.Owns.{own_of};
ghost use Rattle.uv_graph.specs.Turns.{step_entry};
ghost use Rattle.uv_core.specs.Beside.{OthersKeep};
ghost use Rattle.uv_core.specs.Leads.{HasToAct, HasToPlant};
ghost use Rattle.uv_world.specs.Celled.{value_of_slot};
ghost use Rattle.uv_world.specs.Seating.{AreSeated, HasPlanted, IsWorld, MakesNext, stage_of};
ghost use Rattle.uv_world.specs.Stages.{stage_next, stage_then};

use crate::deeds::{bury_deed, lay, pick, plant_deed};
use crate::laws::fitting_goes_on;
use crate::world::World;
use uv_core::Progress;
use uv_machine::{CallStep, Entry, InFlight, Readers, Slot, entry_move, next_step};
use uv_num::{Identity, Kind};
use uv_pool::plain::PlainDeed;

/// The entry of a step.
fn step_entry(client: u32, done: CallStep) -> Entry
    ensures { result ≡ step_entry client done }
{
    Entry::Step {
        client,
        word: done.word,
        object: done.object,
        found: done.found,
        answer: done.answer,
    }
}

impl World {
    /// The step that an actor's call makes next.
    pub fn next_step(&self, actor: u32, call: InFlight) -> CallStep
        requires { call_of (state_of self.now.core.history) actor ≡ Some call }
        ensures { stage_next (stage_of self.now) actor ≡ Some result }
    {
        let found = self.found(call);
        let kept = self.contents.kept(Slot::OfCall(actor));
        match next_step(&self.core, actor, found, kept) {
            None => unreachable!(),
            Some(done) => done,
        }
    }

    /// Makes the one step that an actor's call makes next, with all that it does to contents. It takes no memory.
    pub fn step(&mut self, actor: u32, call: InFlight) -> CallStep
        requires call { call_of (state_of self.old.core.history) actor ≡ Some call }
        requires world { IsWorld self.old }
        ensures next { stage_next (stage_of self.old) actor ≡ Some result }
        ensures stage { stage_of self.new ≡ stage_then (stage_of self.old) (step_entry actor result) }
        ensures spares { self.new.core.spares ≡ self.old.core.spares }
        ensures others { OthersKeep actor self.old.core self.new.core }
        ensures doomed { self.new.doomed ≡ self.old.doomed }
        ensures world { IsWorld self.new }
    {
        fitting_goes_on();
        let done = self.next_step(actor, call);
        let step = entry_move(&self.core, step_entry(actor, done));
        self.make_step(actor, call);
        self.contents.carry(step);
        done
    }

    /// Whether the deed of an object that an actor's destroy has taken out of use lies with the actor.
    fn has_retired(&self, actor: u32) -> bool
        ensures { result ≡ is_some (value_of_slot self.now.retired actor) }
    {
        match self.retired.get(actor as usize) {
            None => false,
            Some(slot) => slot.is_some(),
        }
    }

    /// Makes the step at the core alone: the finish of an object whose deed lies with the actor, or any other step.
    fn make_step(&mut self, actor: u32, call: InFlight)
        requires call { call_of (state_of self.old.core.history) actor ≡ Some call }
        requires seated { AreSeated self.old.core self.old.retired self.old.doomed }
        ensures { MakesNext actor self.old self.new }
    {
        if self.has_retired(actor) {
            self.finish(actor, call);
        } else {
            self.go(actor, call);
        }
    }

    /// Finishes the object whose deed lies with the actor.
    fn finish(&mut self, actor: u32, _call: InFlight)
        requires call { call_of (state_of self.old.core.history) actor ≡ Some _call }
        requires retired { is_some (value_of_slot self.old.retired actor) ≡ true }
        requires seated { AreSeated self.old.core self.old.retired self.old.doomed }
        ensures { MakesNext actor self.old self.new }
    {
        let kept = self.contents.kept(Slot::OfCall(actor));
        match pick(&mut self.retired, actor) {
            None => unreachable!(),
            Some(deed) => self.core.finish(actor, deed, kept),
        }
    }

    /// Any other step.
    fn go(&mut self, actor: u32, call: InFlight)
        requires call { call_of (state_of self.old.core.history) actor ≡ Some call }
        requires none { is_some (value_of_slot self.old.retired actor) ≡ false }
        requires seated { AreSeated self.old.core self.old.retired self.old.doomed }
        ensures { MakesNext actor self.old self.new }
    {
        match self.core.step(actor) {
            Progress::Went(_) => {}
            Progress::Refused(_, _) => {}
            Progress::Ended(_) => {}
            Progress::Plant { deed, object, kind } => self.give_back(actor, deed, object, kind),
            Progress::Touch { .. } => self.touch(actor, call),
            Progress::Retire { deed, .. } => lay(&mut self.retired, actor, bury_deed(deed)),
        }
    }

    /// Gives the deed of a new object's cell back, planted for it.
    fn give_back(&mut self, actor: u32, deed: PlainDeed, object: u32, kind: Kind)
        requires { HasToPlant (own_of self.old.core actor) (plain_facts deed) object kind }
        ensures { HasPlanted actor self.old self.new }
    {
        match self.core.call_of(actor) {
            None => unreachable!(),
            Some(call) => {
                let identity = Identity {
                    id: object,
                    kind,
                    request: call.request,
                    uses: call.looked,
                };
                self.core.planted(actor, plant_deed(deed, identity));
            }
        }
    }

    /// Makes an act that is about what a cell holds.
    fn touch(&mut self, actor: u32, call: InFlight)
        requires call { call_of (state_of self.old.core.history) actor ≡ Some call }
        requires acts { HasToAct (own_of self.old.core actor) }
        requires seated { AreSeated self.old.core self.old.retired self.old.doomed }
        ensures { MakesNext actor self.old self.new }
    {
        let found = self.found(call);
        let _answer = self.core.act(actor, found);
    }
}
