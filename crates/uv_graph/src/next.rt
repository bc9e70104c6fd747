//! The step that a call makes next, and the one writer of all the steps that hand no deed out.

ghost use Rattle.std.specs.Prelude.{◌≡◌, true};
ghost use Rattle.uv_machine.specs.Steps.{next_of};
ghost use Rattle.uv_machine.specs.Histories.{IsLegal, state_of};
ghost use Rattle.uv_graph.specs.Stepping.{IsStep, hands_none, progress_of};
ghost use Rattle.uv_graph.specs.Turns.{StepGives};

use crate::graph::Graph;
use crate::told::Progress;
use uv_machine::{CallStep, Word, next_step};
use uv_num::QpState;
use uv_pool::Deed;

/// What a step that handed no deed out came to.
fn progress_of<D: Deed>(done: CallStep) -> Progress<D>
    ensures { result ≡ progress_of done }
{
    match done.word {
        Word::Exit => Progress::Ended(done.answer),
        Word::Reserve
        | Word::Look
        | Word::Make
        | Word::Commit
        | Word::Act
        | Word::Lock
        | Word::Check
        | Word::Finish
        | Word::Abort
        | Word::Free => match done.answer.refusal() {
            None => Progress::Went(done.word),
            Some(errno) => Progress::Refused(done.word, errno),
        },
    }
}

impl<D: Deed> Graph<D> {
    /// The step that an actor's call makes next, if one is in flight. `found` is the state that an act finds; it is passed
    /// over where the act looks at none.
    pub fn next_step(&self, actor: u32, found: Option<QpState>) -> Option<CallStep>
        ensures { result ≡ next_of (state_of self.now.history) actor found 0 }
    {
        next_step(self, actor, found, 0)
    }

    /// Makes the step that a client's call makes next, where that hands no deed out: a refusal, the end of the call, and
    /// every step but a make and the check or the finish of an object that is no husk. It takes no memory.
    pub fn go(&mut self, client: u32, done: CallStep) -> Progress<D>
        requires step { IsStep self.old client done }
        requires none { hands_none self.old done ≡ true }
        ensures gives { StepGives D.facts self.old self.new client result }
        ensures legal { IsLegal self.new.history }
    {
        self.step(client, done.word, done.object, done.found, done.answer);
        progress_of(done)
    }
}
