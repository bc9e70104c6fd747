//! The graph: the machine's state with its stored history, and the deeds of its cells.

ghost use Rattle.std.specs.Prelude.{◌≡◌, IfOk, length};
ghost use Rattle.uv_num.specs.declared.limits.TheConstants.{ACTOR_PLACES};
ghost use Rattle.uv_machine.specs.Histories.{state_of};
ghost use Rattle.uv_graph.specs.Calls.{calls_on};
ghost use Rattle.uv_graph.specs.Kept.{spare_of};
ghost use Rattle.uv_graph.specs.Seats.{TearsOnce};
ghost use Rattle.uv_machine.specs.Files.{client_of_file};

use crate::counts::count_on;
use crate::out::Out;
use std::marker::Model;
use uv_machine::{FilePhase, Generations, InFlight, Log, Object, Readers};
use uv_num::{ACTOR_PLACES, Ids, Kind, List};
use uv_pool::{Deed, Pool};

/// The object graph with its stored history and the deeds of its cells. Contracts see the history, of which the state
/// is the replay, and what each actor has set aside or in its hands.
#[derive(Drop)]
pub struct Graph<D: Deed + Drop> {
    pub(crate) log: Log,
    /// By actor, how many refused entries room is set aside for.
    pub(crate) spares: [u32; ACTOR_PLACES],
    /// By actor, the deed that its call has out.
    pub(crate) outs: [Option<Out>; ACTOR_PLACES],
    /// By actor, the deed that its teardown has out.
    pub(crate) kills: [Option<Out>; ACTOR_PLACES],
    /// By kind, the deeds of the cells that nobody holds.
    pub(crate) pools: List<Pool<D>>,
    /// By kind and cell, the deeds that are planted.
    pub(crate) held: List<Option<D>>,
    /// By kind and cell, what the object that was last made in it used then.
    pub(crate) uses: List<Ids>,
}

impl<D: Deed + Drop> Model for Graph<D> {
    ghost use Rattle.uv_graph.specs.Kept.{Kept};
    ghost use Rattle.uv_graph.specs.Seats.{IsWhole};

    ghost Value = { Kept };

    ghost view = { λ g. record { history = g.log.history; spares = g.spares; outs = g.outs; kills = g.kills } };

    ghost invariant = { λ g. IsWhole D.facts g.log (record { history = g.log.history; spares = g.spares; outs = g.outs; kills = g.kills }) g.pools g.held g.uses };
}

impl<D: Deed + Drop> Readers for Graph<D> {
    ghost state = { λ k. state_of k.history };

    fn call_of(&self, actor: u32) -> Option<InFlight> {
        self.log.state().call_of(actor)
    }

    fn is_quiet(&self, file: u32) -> bool {
        self.log.state().is_quiet(file)
    }

    fn object_with(&self, id: u32) -> Option<Object> {
        self.log.state().object_with(id)
    }

    fn published(&self, file: u32, number: u32) -> Option<Object> {
        self.log.state().published(file, number)
    }

    fn has_users(&self, id: u32) -> bool {
        self.log.state().has_users(id)
    }

    fn is_excluded(&self, id: u32) -> bool {
        self.log.state().is_excluded(id)
    }

    fn has_others(&self, actor: u32, id: u32) -> bool {
        self.log.state().has_others(actor, id)
    }

    fn least_free(&self, file: u32) -> Option<u32> {
        self.log.state().least_free(file)
    }

    fn made(&self) -> u32 {
        self.log.state().made()
    }

    fn home_cell(&self, kind: Kind) -> Option<u32> {
        self.log.state().home_cell(kind)
    }

    fn phase_of(&self, file: u32) -> FilePhase {
        self.log.state().phase_of(file)
    }

    fn device_of(&self, file: u32) -> u32 {
        self.log.state().device_of(file)
    }

    fn has_event(&self, file: u32) -> bool {
        self.log.state().has_event(file)
    }

    fn is_unplugged(&self, device: u32) -> bool {
        self.log.state().is_unplugged(device)
    }

    fn newest_free(&self, file: u32) -> Option<Object> {
        self.log.state().newest_free(file)
    }

    fn has_doomed(&self, file: u32) -> bool {
        self.log.state().has_doomed(file)
    }

    fn has_standing(&self, file: u32) -> bool {
        self.log.state().has_standing(file)
    }
}

impl<D: Deed + Drop> Generations for Graph<D> {
    fn generation_of(&self, kind: Kind, index: u32) -> u32 {
        self.log.state().generation_of(kind, index)
    }
}

impl<D: Deed + Drop> Graph<D> {
    /// How many calls on a file are in flight.
    pub fn calls_on(&self, file: u32) -> u32
        ensures { result ≡ calls_on (state_of self.now.history) file }
    {
        count_on(&self.log.state().calls, file)
    }

    /// The client that opened a file. It says something only of a file that was opened.
    pub fn client_of(&self, file: u32) -> u32
        ensures { result ≡ client_of_file (state_of self.now.history) file }
    {
        match self.log.state().files.get(file as usize) {
            None => 0,
            Some(file) => file.client,
        }
    }

    /// The objects, oldest first.
    pub fn objects(&self) -> &[Object]
        ensures { result.now ≡ (state_of self.now.history).objects }
    {
        self.log.state().objects.as_slice()
    }

    /// Each actor has a place for what it has out. It does nothing.
    pub fn has_places(&self)
        ensures outs { length self.now.outs ≡ ACTOR_PLACES }
        ensures kills { length self.now.kills ≡ ACTOR_PLACES }
    {
        let _ = &self.log;
    }

    /// An actor tears one file at most. It does nothing.
    pub fn tears_once(&self)
        ensures { TearsOnce (state_of self.now.history) }
    {
        let _ = &self.log;
    }

    /// How many entries the history has.
    pub fn entries(&self) -> usize
        ensures { result ≡ length self.now.history }
    {
        self.log.len()
    }

    /// The refused entries of a client that the history has room for.
    pub fn spare(&self, client: u32) -> u32
        ensures { result ≡ spare_of self.now client }
    {
        match self.spares.get(client as usize) {
            None => 0,
            Some(spare) => *spare,
        }
    }
}
