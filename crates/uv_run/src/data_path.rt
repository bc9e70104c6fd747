//! Calls of the data path, played. They make no entry of the history.

ghost use Rattle.std.specs.Prelude.{◌≡◌, ◌++◌, ◌≤◌, Some, IfOk, OnOk, length, map};
ghost use Rattle.uv_wr.specs.declared.completion.Completion.{Completion};
ghost use Rattle.uv_world.specs.Completing.{arm_answer, event_answer, held_armed, held_event_taken, held_polled, poll_answer};
ghost use Rattle.uv_world.specs.Named.{value_named};
ghost use Rattle.uv_report.specs.declared.saying.Saying.TheVariants as saying;
ghost use Rattle.uv_run.specs.DataPath.{after_shown, arm_shown, arm_text, count_text, data_played, event_shown, poll_shown, poll_text, polled_up_to, taken_by, taken_event_text, with_held, with_texts};
ghost use Rattle.uv_run.specs.Runs.{StaysSound, stand_of};
ghost use Rattle.uv_run.specs.Sound.{IsSound, site_of};

use crate::flights::Flights;
use crate::running::Run;
use std::alloc::{AllocError, Global};
use uv_num::{Errno, List};
use uv_report::Saying;
use uv_script::DataCall;
use uv_wr::{ArmTried, Completion, EventTried, PollTried};

/// What a poll tells first, by how many completions it took.
fn count_text(taken: u32, overrun: bool) -> Saying
    ensures { result ≡ count_text taken overrun }
{
    if taken == 0 {
        Saying::Empty { overrun }
    } else {
        Saying::Polled { taken, overrun }
    }
}

fn poll_text(taken: u32, last: PollTried) -> Saying
    ensures { result ≡ poll_text taken last }
{
    match last {
        PollTried::Got(_, overrun) | PollTried::Empty(overrun) => count_text(taken, overrun),
        PollTried::Again(_) | PollTried::Dead(_) => Saying::Dead,
    }
}

fn arm_text(tried: ArmTried) -> Saying
    ensures { result ≡ arm_text tried }
{
    match tried {
        ArmTried::Did => Saying::Ok,
        ArmTried::Again(_) | ArmTried::Dead(_) => Saying::Dead,
    }
}

/// What is told of a look for an event.
fn taken_event_text(tried: EventTried) -> Saying
    ensures { result ≡ taken_event_text tried }
{
    match tried {
        EventTried::Got(cq) => Saying::EventOf(cq),
        EventTried::Empty => Saying::Refused(Errno::Again),
        EventTried::Again(_) | EventTried::Dead(_) => Saying::Dead,
    }
}

/// Puts the completion that a poll took with the others.
fn put_taken(taken: &mut List<Completion>, tried: PollTried) -> Result<(), AllocError>
    ensures { OnOk result (taken.new ≡ taken.old ++ taken_by tried) }
{
    match tried {
        PollTried::Got(completion, _) => taken.push(completion),
        PollTried::Empty(_) | PollTried::Again(_) | PollTried::Dead(_) => Ok(()),
    }
}

/// Calls of the data path at the site: what objects hold changes alone.
impl Flights {
    fn poll(&mut self, cq: (u32, u32)) -> PollTried
        requires sound { IsSound self.old }
        ensures answer { result ≡ poll_answer (value_named (site_of self.old).held.rings cq) }
        ensures site { site_of self.new ≡ with_held (site_of self.old) (held_polled (site_of self.old).held cq) }
        ensures sound { StaysSound self.old self.new }
    {
        self.world.poll(cq)
    }

    fn arm(&mut self, cq: (u32, u32), solicited: bool) -> ArmTried
        requires sound { IsSound self.old }
        ensures answer { result ≡ arm_answer (value_named (site_of self.old).held.rings cq) }
        ensures site { site_of self.new ≡ with_held (site_of self.old) (held_armed (site_of self.old).held cq solicited) }
        ensures sound { StaysSound self.old self.new }
    {
        self.world.arm(cq, solicited)
    }

    fn take_event(&mut self, channel: (u32, u32)) -> EventTried
        requires sound { IsSound self.old }
        ensures answer { result ≡ event_answer (value_named (site_of self.old).held.channels channel) }
        ensures site { site_of self.new ≡ with_held (site_of self.old) (held_event_taken (site_of self.old).held channel) }
        ensures sound { StaysSound self.old self.new }
    {
        self.world.event_of(channel)
    }

    /// Polls so often. It gives the completions that were taken, the oldest first, and the answer of the last poll.
    fn poll_up_to(
        &mut self,
        alloc: Global,
        cq: (u32, u32),
        count: u32,
    ) -> Result<(List<Completion>, PollTried), AllocError>
        requires sound { IsSound self.old }
        ensures polls { IfOk result (λ r. record { held = (site_of self.new).held; taken = r.0; last = r.1 } ≡ polled_up_to count (site_of self.old).held cq) }
        ensures site { OnOk result (site_of self.new ≡ with_held (site_of self.old) (site_of self.new).held) }
        ensures few { IfOk result (λ r. length r.0 ≤ count) }
        ensures sound { OnOk result (StaysSound self.old self.new) }
    {
        let mut taken = List::new(alloc);
        let mut last = PollTried::Dead(0);
        for _ in 0..count {
            last = self.poll(cq);
            put_taken(&mut taken, last)?;
        }
        Ok((taken, last))
    }
}

/// Calls of the data path and what they tell. A name stands for a cell, or for none where its create was refused or hasn't ended.
impl Run {
    /// Tells each of these completions, in their order.
    fn say_completions(&mut self, line: u32, taken: &[Completion]) -> Result<(), AllocError>
        ensures said { OnOk result (stand_of self.new ≡ with_texts (stand_of self.old) line (map saying.Completed taken.now)) }
        ensures flights { OnOk result (self.new.flights ≡ self.old.flights) }
    {
        for completion in taken {
            self.say(line, Saying::Completed(*completion))?;
        }
        Ok(())
    }

    fn poll_cell(
        &mut self,
        alloc: Global,
        line: u32,
        cq: (u32, u32),
        count: u32,
    ) -> Result<(), AllocError>
        requires sound { IsSound self.old.flights }
        ensures shown { OnOk result (stand_of self.new ≡ after_shown (stand_of self.old) line (poll_shown (site_of self.old.flights).held (Some cq) count)) }
        ensures sound { OnOk result (StaysSound self.old.flights self.new.flights) }
    {
        let (taken, last) = self.flights.poll_up_to(alloc, cq, count)?;
        self.say(line, poll_text(taken.len() as u32, last))?;
        self.say_completions(line, taken.as_slice())
    }

    fn poll_named(
        &mut self,
        alloc: Global,
        line: u32,
        cq: Option<(u32, u32)>,
        count: u32,
    ) -> Result<(), AllocError>
        requires sound { IsSound self.old.flights }
        ensures shown { OnOk result (stand_of self.new ≡ after_shown (stand_of self.old) line (poll_shown (site_of self.old.flights).held cq count)) }
        ensures sound { OnOk result (StaysSound self.old.flights self.new.flights) }
    {
        match cq {
            None => self.say(line, Saying::Dead),
            Some(cq) => self.poll_cell(alloc, line, cq, count),
        }
    }

    fn arm_cell(&mut self, line: u32, cq: (u32, u32), solicited: bool) -> Result<(), AllocError>
        requires sound { IsSound self.old.flights }
        ensures shown { OnOk result (stand_of self.new ≡ after_shown (stand_of self.old) line (arm_shown (site_of self.old.flights).held (Some cq) solicited)) }
        ensures sound { OnOk result (StaysSound self.old.flights self.new.flights) }
    {
        let tried = self.flights.arm(cq, solicited);
        self.say(line, arm_text(tried))
    }

    fn arm_named(
        &mut self,
        line: u32,
        cq: Option<(u32, u32)>,
        solicited: bool,
    ) -> Result<(), AllocError>
        requires sound { IsSound self.old.flights }
        ensures shown { OnOk result (stand_of self.new ≡ after_shown (stand_of self.old) line (arm_shown (site_of self.old.flights).held cq solicited)) }
        ensures sound { OnOk result (StaysSound self.old.flights self.new.flights) }
    {
        match cq {
            None => self.say(line, Saying::Dead),
            Some(cq) => self.arm_cell(line, cq, solicited),
        }
    }

    fn event_cell(&mut self, line: u32, channel: (u32, u32)) -> Result<(), AllocError>
        requires sound { IsSound self.old.flights }
        ensures shown { OnOk result (stand_of self.new ≡ after_shown (stand_of self.old) line (event_shown (site_of self.old.flights).held (Some channel))) }
        ensures sound { OnOk result (StaysSound self.old.flights self.new.flights) }
    {
        let tried = self.flights.take_event(channel);
        self.say(line, taken_event_text(tried))
    }

    fn event_named(&mut self, line: u32, channel: Option<(u32, u32)>) -> Result<(), AllocError>
        requires sound { IsSound self.old.flights }
        ensures shown { OnOk result (stand_of self.new ≡ after_shown (stand_of self.old) line (event_shown (site_of self.old.flights).held channel)) }
        ensures sound { OnOk result (StaysSound self.old.flights self.new.flights) }
    {
        match channel {
            None => self.say(line, Saying::Dead),
            Some(channel) => self.event_cell(line, channel),
        }
    }

    /// Makes a call of the data path, and tells what came of it.
    pub(crate) fn call_data(
        &mut self,
        alloc: Global,
        line: u32,
        call: &DataCall,
    ) -> Result<(), AllocError>
        requires sound { IsSound self.old.flights }
        ensures shown { OnOk result (stand_of self.new ≡ data_played (stand_of self.old) line call.now) }
        ensures sound { OnOk result (StaysSound self.old.flights self.new.flights) }
    {
        match call {
            DataCall::Poll { cq, count } => {
                let cell = self.replies.cell_given(*cq);
                self.poll_named(alloc, line, cell, *count)
            }
            DataCall::Arm { cq, solicited } => {
                let cell = self.replies.cell_given(*cq);
                self.arm_named(line, cell, *solicited)
            }
            DataCall::Event { channel } => {
                let cell = self.replies.cell_given(*channel);
                self.event_named(line, cell)
            }
        }
    }
}
