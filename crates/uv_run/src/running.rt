//! A run under way: the site, and what lines began and were told.

ghost use Rattle.std.specs.Prelude.{◌≡◌, ◌≤◌, ◌<◌, ◌+◌, ◌++◌, IfOk, OnOk, true, false, option_to_list};
ghost use Rattle.uv_num.specs.declared.limits.TheConstants.{ACTORS, ENDER, SCRIPT_LINES};
ghost use Rattle.uv_machine.specs.Histories.{IsActor};
ghost use Rattle.uv_run.specs.Follows.{start_stand};
ghost use Rattle.uv_run.specs.Progress.{Lowers, LowersOn, LowersOne, AdvancesBy, ahead};
ghost use Rattle.uv_run.specs.Site.{event_of, is_busy};
ghost use Rattle.uv_run.specs.Sound.{HasSpares, IsSound, site_of};
ghost use Rattle.uv_run.specs.Stand.{after_turned, begun_by, said_if, with_said};
ghost use Rattle.uv_run.specs.Turns.{after_event, is_on, one_turn, other_goes, others_go, others_if, RunsOut};
ghost use Rattle.uv_run.specs.Runs.{StaysSound, stand_of};

use crate::flights::Flights;
use crate::heard::{Event, Heard};
use crate::replies::Replies;
use crate::reply::{Reply, Telling};
use crate::sayings::{awaited, event_line, event_text, reply_by, reply_text};
use std::alloc::{AllocError, Global};
use uv_num::{ACTOR_PLACES, ACTORS, List};
use uv_report::{Said, Saying};

/// The site, and beside it the lines that began what is in flight, the replies, and what was told.
#[derive(Drop)]
pub struct Run {
    pub(crate) flights: Flights,
    /// By actor, the line that began what it has in flight, or had last.
    pub(crate) begun: [u32; ACTOR_PLACES],
    pub(crate) replies: Replies,
    pub(crate) said: List<Said>,
}

fn put_said(said: &mut List<Said>, line: u32, text: Option<Saying>) -> Result<(), AllocError>
    ensures { OnOk result (said.new ≡ said.old ++ said_if line text) }
{
    match text {
        None => Ok(()),
        Some(text) => said.push(Said { line, text }),
    }
}

fn put_reply(replies: &mut Replies, reply: Option<Reply>) -> Result<(), AllocError>
    ensures { OnOk result (replies.new ≡ replies.old ++ option_to_list reply) }
{
    match reply {
        None => Ok(()),
        Some(reply) => replies.put(reply),
    }
}

/// What is told.
impl Run {
    /// The run before its first line.
    #[tactic(auto, unfolding(crate::specs::Follows::start_stand))]
    pub fn new(alloc: Global) -> Result<Run, AllocError>
        ensures stand { IfOk result (λ r. stand_of r ≡ start_stand) }
        ensures sound { IfOk result (λ r. IsSound r.flights) }
        ensures spares { IfOk result (λ r. HasSpares SCRIPT_LINES r.flights.world.core) }
        ensures ender { IfOk result (λ r. is_busy (site_of r.flights) ENDER ≡ false) }
    {
        Ok(Run {
            flights: Flights::new(alloc)?,
            begun: [0; ACTOR_PLACES],
            replies: Replies::new(alloc),
            said: List::new(alloc),
        })
    }

    /// The line that began what an actor has in flight.
    fn begun_by(&self, actor: u32) -> u32
        ensures { result ≡ begun_by (stand_of self.now) actor }
    {
        match self.begun.get(actor as usize) {
            None => 0,
            Some(line) => *line,
        }
    }

    /// Tells a text under a line's number.
    pub(crate) fn say(&mut self, line: u32, text: Saying) -> Result<(), AllocError>
        ensures said { OnOk result (stand_of self.new ≡ with_said (stand_of self.old) line text) }
        ensures flights { OnOk result (self.new.flights ≡ self.old.flights) }
    {
        self.said.push(Said { line, text })
    }

    /// Tells what was heard of what a line began, and keeps the reply.
    pub(crate) fn tell(
        &mut self,
        telling: Telling,
        actor: u32,
        line: u32,
        heard: Heard,
    ) -> Result<(), AllocError>
        ensures told { OnOk result (stand_of self.new ≡ after_turned telling (stand_of self.old) actor line (record { site = site_of self.old.flights; heard = heard })) }
        ensures flights { OnOk result (self.new.flights ≡ self.old.flights) }
    {
        let reply = reply_by(telling, line, actor, heard.ends);
        put_said(
            &mut self.said,
            event_line(telling, line),
            event_text(telling, heard.event),
        )?;
        put_reply(&mut self.replies, reply)?;
        put_said(&mut self.said, line, reply_text(reply))
    }
}

/// Events.
impl Run {
    /// One event of an actor, told.
    pub(crate) fn after_event(&mut self, telling: Telling, actor: u32) -> Result<Event, AllocError>
        requires actor { IsActor actor }
        requires sound { IsSound self.old.flights }
        ensures stand { OnOk result (stand_of self.new ≡ after_event telling (stand_of self.old) actor) }
        ensures event { IfOk result (λ e. e ≡ (event_of (site_of self.old.flights) actor).heard.event) }
        ensures progress { IfOk result (λ e. AdvancesBy (site_of self.old.flights) (site_of self.new.flights) actor e) }
        ensures sound { OnOk result (StaysSound self.old.flights self.new.flights) }
    {
        let line = self.begun_by(actor);
        let heard = self.flights.event(actor);
        self.tell(telling, actor, line, heard)?;
        Ok(heard.event)
    }

    /// Another actor that is on the file makes one event.
    fn other_goes(&mut self, actor: u32, file: u32, other: u32) -> Result<(), AllocError>
        requires other { IsActor other }
        requires sound { IsSound self.old.flights }
        ensures stand { OnOk result (stand_of self.new ≡ other_goes (stand_of self.old) actor file other) }
        ensures lowers { OnOk result (LowersOne (site_of self.old.flights) (site_of self.new.flights) actor file other) }
        ensures sound { OnOk result (StaysSound self.old.flights self.new.flights) }
    {
        if other == actor || !self.flights.is_on(file, other) {
            return Ok(());
        }
        self.after_event(Telling::ToEnd, other)?;
        Ok(())
    }

    /// Each other actor that is on the file makes one event.
    fn others_go(&mut self, actor: u32, file: u32) -> Result<(), AllocError>
        requires sound { IsSound self.old.flights }
        ensures stand { OnOk result (stand_of self.new ≡ others_go (stand_of self.old) actor file) }
        ensures lowers { OnOk result (Lowers (site_of self.old.flights) (site_of self.new.flights) actor file ACTORS) }
        ensures sound { OnOk result (StaysSound self.old.flights self.new.flights) }
    {
        for before in 0..ACTORS {
            self.other_goes(actor, file, before + 1)?;
        }
        Ok(())
    }

    /// Where an event had to wait for others they go on.
    pub(crate) fn go_on(&mut self, actor: u32, file: Option<u32>) -> Result<(), AllocError>
        requires sound { IsSound self.old.flights }
        ensures stand { OnOk result (stand_of self.new ≡ others_if file actor (stand_of self.old)) }
        ensures lowers { OnOk result (LowersOn (site_of self.old.flights) (site_of self.new.flights) actor file) }
        ensures sound { OnOk result (StaysSound self.old.flights self.new.flights) }
    {
        match file {
            None => Ok(()),
            Some(file) => self.others_go(actor, file),
        }
    }

    /// One event of a run to the end.
    #[tactic(auto, unfolding(crate::specs::Turns::one_turn))]
    fn one_turn(&mut self, telling: Telling, actor: u32) -> Result<(), AllocError>
        requires actor { IsActor actor }
        requires busy { is_busy (site_of self.old.flights) actor ≡ true }
        requires sound { IsSound self.old.flights }
        ensures stand { OnOk result (stand_of self.new ≡ one_turn telling (stand_of self.old) actor) }
        ensures less { OnOk result (ahead (site_of self.new.flights) < ahead (site_of self.old.flights)) }
        ensures sound { OnOk result (StaysSound self.old.flights self.new.flights) }
    {
        self.flights.tears_once();
        let event = self.after_event(telling, actor)?;
        self.go_on(actor, awaited(event))
    }

    /// Runs what an actor has in flight to its end.
    pub(crate) fn run_out(&mut self, telling: Telling, actor: u32) -> Result<(), AllocError>
        requires actor { IsActor actor }
        requires sound { IsSound self.old.flights }
        ensures runs { OnOk result (RunsOut telling (stand_of self.old) actor (stand_of self.new)) }
        ensures sound { OnOk result (StaysSound self.old.flights self.new.flights) }
    {
        while self.flights.is_busy(actor) {
            self.one_turn(telling, actor)?;
        }
        Ok(())
    }
}
