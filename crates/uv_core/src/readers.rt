//! What is read of the core: the state of its machine, by the machine's readers.

ghost use Rattle.std.specs.Prelude.{◌≡◌, length};
ghost use Rattle.uv_num.specs.declared.limits.TheConstants.{ACTOR_PLACES};
ghost use Rattle.uv_machine.specs.Files.{client_of_file};
ghost use Rattle.uv_machine.specs.Histories.{IsLegal, state_of};
ghost use Rattle.uv_graph.specs.Calls.{calls_on};
ghost use Rattle.uv_graph.specs.Owns.{AreOut, own_of};
ghost use Rattle.uv_graph.specs.Seats.{TearsOnce};

use crate::whole::Core;
use uv_machine::{FilePhase, Generations, InFlight, Object, Readers};
use uv_num::Kind;
use uv_pool::Deed;

impl<D: Deed + Drop> Readers for Core<D> {
    ghost state = { λ k. state_of k.history };

    fn call_of(&self, actor: u32) -> Option<InFlight> {
        self.graph.call_of(actor)
    }

    fn is_quiet(&self, file: u32) -> bool {
        self.graph.is_quiet(file)
    }

    fn object_with(&self, id: u32) -> Option<Object> {
        self.graph.object_with(id)
    }

    fn published(&self, file: u32, number: u32) -> Option<Object> {
        self.graph.published(file, number)
    }

    fn has_users(&self, id: u32) -> bool {
        self.graph.has_users(id)
    }

    fn is_excluded(&self, id: u32) -> bool {
        self.graph.is_excluded(id)
    }

    fn has_others(&self, actor: u32, id: u32) -> bool {
        self.graph.has_others(actor, id)
    }

    fn least_free(&self, file: u32) -> Option<u32> {
        self.graph.least_free(file)
    }

    fn made(&self) -> u32 {
        self.graph.made()
    }

    fn home_cell(&self, kind: Kind) -> Option<u32> {
        self.graph.home_cell(kind)
    }

    fn phase_of(&self, file: u32) -> FilePhase {
        self.graph.phase_of(file)
    }

    fn device_of(&self, file: u32) -> u32 {
        self.graph.device_of(file)
    }

    fn has_event(&self, file: u32) -> bool {
        self.graph.has_event(file)
    }

    fn is_unplugged(&self, device: u32) -> bool {
        self.graph.is_unplugged(device)
    }

    fn newest_free(&self, file: u32) -> Option<Object> {
        self.graph.newest_free(file)
    }

    fn has_doomed(&self, file: u32) -> bool {
        self.graph.has_doomed(file)
    }

    fn has_standing(&self, file: u32) -> bool {
        self.graph.has_standing(file)
    }
}

impl<D: Deed + Drop> Generations for Core<D> {
    fn generation_of(&self, kind: Kind, index: u32) -> u32 {
        self.graph.generation_of(kind, index)
    }
}

impl<D: Deed> Core<D> {
    /// How many calls on a file are in flight.
    pub fn calls_on(&self, file: u32) -> u32
        ensures { result ≡ calls_on (state_of self.now.history) file }
    {
        self.graph.calls_on(file)
    }

    /// The file that an actor is tearing down, if there is one.
    pub fn torn_by(&self, by: u32) -> Option<u32>
        ensures { result ≡ (own_of self.now by).tear }
    {
        self.graph.torn_by(by)
    }

    /// The client that opened a file. It says something only of a file that was opened.
    pub fn client_of(&self, file: u32) -> u32
        ensures { result ≡ client_of_file (state_of self.now.history) file }
    {
        self.graph.client_of(file)
    }

    /// The objects, oldest first.
    pub fn objects(&self) -> &[Object]
        ensures { result.now ≡ (state_of self.now.history).objects }
    {
        self.graph.objects()
    }

    /// How many entries the stored history has.
    pub fn entries(&self) -> usize
        ensures { result ≡ length self.now.history }
    {
        self.graph.entries()
    }

    /// The stored history is legal. It does nothing.
    pub fn is_legal(&self)
        ensures { IsLegal self.now.history }
    {
        self.graph.is_legal();
    }

    /// What actors have out is out for objects that stand. It does nothing.
    pub fn are_out(&self)
        ensures { AreOut self.now }
    {
        self.graph.are_out();
    }

    /// Each actor has a place for what it has out. It does nothing.
    pub fn has_places(&self)
        ensures outs { length self.now.outs ≡ ACTOR_PLACES }
        ensures kills { length self.now.kills ≡ ACTOR_PLACES }
    {
        self.graph.has_places();
    }

    /// An actor tears one file at most. It does nothing.
    pub fn tears_once(&self)
        ensures { TearsOnce (state_of self.now.history) }
    {
        self.graph.tears_once();
    }
}
