//! The judge: whether an entry may come now, and the first bad place of a history.

ghost use Rattle.std.specs.Prelude.{◌≡◌, ◌≤◌, ◌<◌, ◌↔◌, IsTrue, IfOk, MatchOption, Some};
ghost use Rattle.uv_num.specs.declared.limits.TheConstants.{FILES, DEVICES};
ghost use Rattle.uv_machine.specs.declared.entry.Entry.TheVariants.{Open, Enter, Step, Unplug, Tear};
ghost use Rattle.uv_machine.specs.Histories.{IsActor, kept_in, IsNext, Allowed, IsLegal, IsFirstBad};

use crate::entry::{Answer, CallStep, Entry, Word};
use crate::outside::{
    enter_refusal, may_answer, may_close, may_dissociate, may_go, may_kill, may_tear, open_refusal,
};
use crate::readers::Readers;
use crate::state::State;
use crate::steps::next_step;
use std::alloc::{AllocError, Global};
use uv_num::{ACTORS, DEVICES, FILES, QpState, Request};

impl State {
    /// Whether the machine allows this entry now.
    pub fn allows(&self, entry: Entry) -> bool
        ensures { IsTrue result ↔ Allowed self.now entry }
    {
        match entry {
            Entry::Open {
                client,
                file,
                device,
                answer,
            } => self.allows_open(client, file, device, answer),
            Entry::Enter {
                client,
                file,
                request,
                answer,
            } => self.allows_enter(client, file, request, answer),
            Entry::Step {
                client,
                word,
                object,
                found,
                answer,
            } => self.allows_step(client, word, object, found, answer),
            Entry::Unplug { device } => self.allows_unplug(device),
            Entry::Tear { file, by } => self.allows_tear(file, by),
            Entry::Kill { object } => may_kill(self, object),
            Entry::Gone { object, .. } => may_go(self, object),
            Entry::Dissociated { file } => is_file(file) && may_dissociate(self, file),
            Entry::Closed { file } => is_file(file) && may_close(self, file),
        }
    }

    fn allows_open(&self, client: u32, file: u32, device: u32, answer: Answer) -> bool
        ensures { IsTrue result ↔ Allowed self.now (Open client file device answer) }
    {
        is_actor(client)
            && is_file(file)
            && is_device(device)
            && may_answer(open_refusal(self, file, device), answer)
    }

    fn allows_enter(&self, client: u32, file: u32, request: Request, answer: Answer) -> bool
        ensures { IsTrue result ↔ Allowed self.now (Enter client file request answer) }
    {
        is_actor(client)
            && is_file(file)
            && self.call_of(client).is_none()
            && may_answer(enter_refusal(self, file, request), answer)
    }

    fn allows_step(
        &self,
        client: u32,
        word: Word,
        object: u32,
        found: Option<QpState>,
        answer: Answer,
    ) -> bool
        ensures { IsTrue result ↔ Allowed self.now (Step client word object found answer) }
    {
        is_actor(client)
            && self.is_next(
                client,
                CallStep {
                    word,
                    object,
                    found,
                    answer,
                },
            )
    }

    fn is_next(&self, actor: u32, done: CallStep) -> bool
        ensures { IsTrue result ↔ IsNext self.now actor done }
    {
        is_just(
            next_step(self, actor, done.found, kept_in(done.answer)),
            done,
        )
    }

    fn allows_unplug(&self, device: u32) -> bool
        ensures { IsTrue result ↔ Allowed self.now (Unplug device) }
    {
        is_device(device) && !self.is_unplugged(device)
    }

    fn allows_tear(&self, file: u32, by: u32) -> bool
        ensures { IsTrue result ↔ Allowed self.now (Tear file by) }
    {
        is_actor(by) && is_file(file) && may_tear(self, file, by)
    }
}

fn is_actor(actor: u32) -> bool
    ensures { IsTrue result ↔ IsActor actor }
{
    1 <= actor && actor <= ACTORS
}

fn is_file(file: u32) -> bool
    ensures { IsTrue result ↔ (file < FILES) }
{
    (file as usize) < FILES
}

fn is_device(device: u32) -> bool
    ensures { IsTrue result ↔ (device < DEVICES) }
{
    (device as usize) < DEVICES
}

fn kept_in(answer: Answer) -> u64
    ensures { result ≡ kept_in answer }
{
    match answer {
        Answer::Kept(kept) => kept,
        Answer::Ok
        | Answer::Made { .. }
        | Answer::State { .. }
        | Answer::Event
        | Answer::Refused(_) => 0,
    }
}

fn is_just(next: Option<CallStep>, done: CallStep) -> bool
    ensures { IsTrue result ↔ (next ≡ Some done) }
{
    match next {
        Some(next) => are_same(next, done),
        None => false,
    }
}

fn are_same(a: CallStep, b: CallStep) -> bool
    ensures { IsTrue result ↔ (a ≡ b) }
{
    have_same_object(a, b) && have_same_answer(a, b)
}

fn have_same_object(a: CallStep, b: CallStep) -> bool
    ensures { IsTrue result ↔ ((a.word ≡ b.word) × (a.object ≡ b.object)) }
{
    a.word == b.word && a.object == b.object
}

fn have_same_answer(a: CallStep, b: CallStep) -> bool
    ensures { IsTrue result ↔ ((a.found ≡ b.found) × (a.answer ≡ b.answer)) }
{
    a.found == b.found && a.answer == b.answer
}

/// The first place of a history at which it is no longer legal, from 0, if there is one.
pub fn first_bad(alloc: Global, history: &[Entry]) -> Result<Option<usize>, AllocError>
    ensures { IfOk result (λ r. MatchOption r (IsLegal history.now) (IsFirstBad history.now)) }
{
    let mut state = State::new(alloc)?;
    for (place, entry) in history.iter().enumerate() {
        if !state.allows(*entry) {
            return Ok(Some(place));
        }
        state.apply(*entry);
    }
    Ok(None)
}

#[cfg(test)]
mod tests;
