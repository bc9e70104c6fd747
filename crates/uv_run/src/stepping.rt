//! The events of calls at the site.

ghost use Rattle.std.specs.Prelude.{◌≡◌, ◌<◌, Some};
ghost use Rattle.uv_machine.specs.Histories.{IsActor, state_of};
ghost use Rattle.uv_machine.specs.States.{call_of};
ghost use Rattle.uv_run.specs.Progress.{Advances, ahead};
ghost use Rattle.uv_run.specs.Site.{event_of, step_heard};
ghost use Rattle.uv_run.specs.Sound.{site_of, IsSound, Moved};
ghost use Rattle.uv_run.specs.Steps.{MakesStep};

use crate::flights::{Flights, goes_on, kind_in_call};
use crate::heard::{Ended, Event, Heard};
use uv_machine::{CallStep, InFlight, Readers, Word};
use uv_num::Kind;

/// What is heard of a step that a call made, by the kind of object that the call makes. An exit ends the call, and its
/// answer is no refusal of the step.
fn step_heard(made: Option<Kind>, done: CallStep) -> Heard
    ensures { result ≡ step_heard made done }
{
    match done.word {
        Word::Exit => Heard {
            event: Event::Stepped {
                word: done.word,
                refusal: None,
            },
            ends: Some(Ended {
                made,
                answer: done.answer,
            }),
        },
        Word::Reserve
        | Word::Look
        | Word::Make
        | Word::Commit
        | Word::Act
        | Word::Lock
        | Word::Check
        | Word::Finish
        | Word::Abort
        | Word::Free => goes_on(Event::Stepped {
            word: done.word,
            refusal: done.answer.refusal(),
        }),
    }
}

impl Flights {
    /// The one event that an actor makes now: the next step of its call, or else of its teardown. It takes no memory.
    #[tactic(auto, unfolding(crate::specs::Site::event_of))]
    pub fn event(&mut self, actor: u32) -> Heard
        requires actor { IsActor actor }
        requires sound { IsSound self.old }
        ensures turned { record { site = site_of self.new; heard = result } ≡ event_of (site_of self.old) actor }
        ensures progress { Advances (site_of self.old) actor (record { site = site_of self.new; heard = result }) }
        ensures moved { Moved actor self.old self.new }
    {
        match self.world.core.call_of(actor) {
            Some(call) => self.call_event(actor, call),
            None => self.teardown_event(actor),
        }
    }

    /// The next step of a call.
    fn call_event(&mut self, actor: u32, call: InFlight) -> Heard
        requires call { call_of (state_of self.old.world.core.history) actor ≡ Some call }
        requires sound { IsSound self.old }
        ensures step { MakesStep (site_of self.old) actor (record { site = site_of self.new; heard = result }) }
        ensures less { ahead (site_of self.new) < ahead (site_of self.old) }
        ensures moved { Moved actor self.old self.new }
    {
        let made = kind_in_call(Some(call));
        step_heard(made, self.world.step(actor, call))
    }
}
