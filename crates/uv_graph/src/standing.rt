//! What is out, and what stands of a file that is torn down and of the object that a call destroys.

ghost use Rattle.std.specs.Prelude.{◌≡◌, ◌<◌, true, None, IfSome, length, position};
ghost use Rattle.uv_machine.specs.declared.file.FilePhase.TheVariants as phase;
ghost use Rattle.uv_machine.specs.Histories.{IsLegal, state_of};
ghost use Rattle.uv_machine.specs.Laws.{IsSwept};
ghost use Rattle.uv_machine.specs.States.{object_with, phase_of, is_quiet};
ghost use Rattle.uv_machine.specs.declared.entry.Word.TheVariants as word;
ghost use Rattle.uv_graph.specs.Kept.{kill_of, out_of};
ghost use Rattle.uv_graph.specs.Owns.{AreOut, is_torn_by, own_of, tears_it};
ghost use Rattle.uv_graph.specs.Seats.{HasKill, HasOut};
ghost use Rattle.uv_graph.specs.Stepping.{IsStep, Rests};
ghost use Rattle.uv_graph.specs.Turns.{is_husk_object};

use crate::graph::Graph;
use crate::out::Out;
use uv_machine::{CallStep, File, FilePhase};
use uv_pool::Deed;

/// Whether an actor is tearing a file in this phase down.
pub(crate) fn is_torn_by(by: u32, phase: FilePhase) -> bool
    ensures { result ≡ is_torn_by by phase }
{
    match phase {
        FilePhase::Tearing { by: actor } => actor == by,
        FilePhase::Fresh | FilePhase::Open | FilePhase::Dissociated | FilePhase::Closed => false,
    }
}

fn first_torn(files: &[File], by: u32) -> Option<usize>
    ensures first { result ≡ position (tears_it by) files.now }
    ensures within { IfSome result (λ place. place < length files.now) }
{
    files.iter().position(|file| is_torn_by(by, file.phase))
}

impl<D: Deed> Graph<D> {
    /// The file that an actor is tearing down, if there is one.
    pub fn torn_by(&self, by: u32) -> Option<u32>
        ensures { result ≡ (own_of self.now by).tear }
    {
        match first_torn(&self.log.state().files, by) {
            None => None,
            Some(file) => Some(file as u32),
        }
    }

    /// The stored history is legal. It does nothing.
    pub fn is_legal(&self)
        ensures { IsLegal self.now.history }
    {
        let _state = self.log.state();
    }

    /// What actors have out is out for objects that stand: `own_stands_apart` asks it. It does nothing.
    pub fn are_out(&self)
        ensures { AreOut self.now }
    {
        let _ = &self.log;
    }

    /// The deed that an actor's teardown has out: it is for an object that the teardown has doomed.
    pub fn kill_of(&self, by: u32) -> Option<Out>
        ensures value { result ≡ kill_of self.now by }
        ensures has { IfSome result (λ o. HasKill (state_of self.now.history) by o) }
    {
        match self.kills.get(by as usize) {
            None => None,
            Some(slot) => *slot,
        }
    }

    /// While no call on a file is in flight and the teardown of the file has no deed out, no object of it is doomed: its
    /// sweep goes on. It does nothing.
    pub fn goes_on(&self, by: u32, file: u32)
        requires tearing { phase_of (state_of self.now.history) file ≡ phase.Tearing by }
        requires quiet { is_quiet (state_of self.now.history) file ≡ true }
        requires none { kill_of self.now by ≡ None }
        ensures { IsSwept self.now.history file by }
    {
        let _state = self.log.state();
    }
}

/// What is known of the object that a call holds exclusively.
impl<D: Deed> Graph<D> {
    /// The deed that a client's call has out: it is for the object that the call is about to commit or to finish.
    pub fn out_of(&self, client: u32) -> Option<Out>
        ensures value { result ≡ out_of self.now client }
        ensures has { IfSome result (λ o. HasOut (state_of self.now.history) client o) }
    {
        match self.outs.get(client as usize) {
            None => None,
            Some(slot) => *slot,
        }
    }

    /// What a call is about to check is live or a husk. It does nothing.
    pub fn checks_what_rests(&self, _client: u32, _done: CallStep)
        requires step { IsStep self.now _client _done }
        requires word { _done.word ≡ word.Check }
        ensures { Rests (object_with (state_of self.now.history) _done.object) }
    {
        let _ = &self.log;
    }

    /// What a call without a deed out is about to finish is a husk. It does nothing.
    pub fn finishes_a_husk(&self, _client: u32, _done: CallStep)
        requires step { IsStep self.now _client _done }
        requires word { _done.word ≡ word.Finish }
        ensures { is_husk_object (object_with (state_of self.now.history) _done.object) ≡ true }
    {
        let _ = &self.log;
    }
}
