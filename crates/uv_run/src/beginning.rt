//! What actors begin at the site.

ghost use Rattle.std.specs.Prelude.{◌≡◌, ◌≢◌, ◌<◌, false, true};
ghost use Rattle.uv_num.specs.Ranges.{is_in_range};
ghost use Rattle.uv_num.specs.declared.limits.TheConstants.{DEVICES, DRIVER, FILES};
ghost use Rattle.uv_machine.specs.Effects.{refusal_in};
ghost use Rattle.uv_machine.specs.Histories.{IsActor};
ghost use Rattle.uv_graph.specs.Conditions.{IsClient};
ghost use Rattle.uv_run.specs.Ranges.{IsInReach};
ghost use Rattle.uv_run.specs.Site.{Begins, EntersCall, OpensFile, begun, begun_event, closes, entered, is_busy, unplugs};
ghost use Rattle.uv_run.specs.Sound.{site_of, HasSpares, IsSound, Moved};
ghost use Rattle.uv_run.specs.Sound.{Began};

use crate::flight::{Task, Teardown};
use crate::flights::{Flights, ends_with, goes_on};
use crate::heard::{Event, Heard};
use std::alloc::Global;
use uv_machine::Answer;
use uv_num::{Put, Request, change_at};

/// What is heard of a call that was to enter, by its answer.
fn entered(answer: Answer) -> Heard
    ensures { result ≡ entered answer (refusal_in answer) }
{
    match answer.refusal() {
        None => goes_on(Event::Began),
        Some(_) => ends_with(Event::Silent, answer),
    }
}

/// What has torn a file at its begin has begun.
fn begun_event(event: Event) -> Event
    ensures { result ≡ begun_event event }
{
    match event {
        Event::Torn(_) => Event::Began,
        Event::Silent
        | Event::Began
        | Event::Stepped { .. }
        | Event::Killed(_)
        | Event::Went(_)
        | Event::Dissociates(_)
        | Event::Closes(_)
        | Event::NotYet { .. }
        | Event::TornBy { .. } => event,
    }
}

impl Flights {
    /// Begins what an actor does. Want of memory is answered at an open and at a call alone.
    pub fn begin(&mut self, alloc: Global, actor: u32, task: Task) -> Heard
        requires range { IsInReach actor task }
        requires free { is_busy (site_of self.old) actor ≡ false }
        requires room { HasSpares 1 self.old.world.core }
        requires sound { IsSound self.old }
        ensures begins { Begins (site_of self.old) actor task (record { site = site_of self.new; heard = result }) }
        ensures began { Began actor self.old self.new }
    {
        match task {
            Task::Opens { file, device } => self.open(alloc, actor, file, device),
            Task::Calls { file, request } => self.enter(alloc, actor, file, request),
            Task::Closes { file } => self.begin_close(actor, file),
            Task::Unplugs { device } => self.unplug(actor, device),
        }
    }

    fn open(&mut self, alloc: Global, actor: u32, file: u32, device: u32) -> Heard
        requires client { IsClient actor }
        requires file { file < FILES }
        requires device { device < DEVICES }
        requires free { is_busy (site_of self.old) actor ≡ false }
        requires room { HasSpares 1 self.old.world.core }
        requires sound { IsSound self.old }
        ensures opens { OpensFile (site_of self.old) actor file device (record { site = site_of self.new; heard = result }) }
        ensures began { Began actor self.old self.new }
    {
        let answer = self.world.open(alloc, actor, file, device);
        ends_with(Event::Silent, answer)
    }

    fn enter(&mut self, alloc: Global, actor: u32, file: u32, request: Request) -> Heard
        requires client { IsClient actor }
        requires file { file < FILES }
        requires range { is_in_range request ≡ true }
        requires free { is_busy (site_of self.old) actor ≡ false }
        requires room { HasSpares 1 self.old.world.core }
        requires sound { IsSound self.old }
        ensures enters { EntersCall (site_of self.old) actor file request (record { site = site_of self.new; heard = result }) }
        ensures began { Began actor self.old self.new }
    {
        let answer = self.world.enter(alloc, actor, file, request);
        entered(answer)
    }

    /// Begins a close. It takes no memory.
    pub fn begin_close(&mut self, actor: u32, file: u32) -> Heard
        requires actor { IsActor actor }
        requires not_driver { actor ≢ DRIVER }
        requires file { file < FILES }
        requires free { is_busy (site_of self.old) actor ≡ false }
        requires sound { IsSound self.old }
        ensures closes { record { site = site_of self.new; heard = result } ≡ closes (site_of self.old) actor file }
        ensures moved { Moved actor self.old self.new }
    {
        change_at(
            &mut self.teardowns,
            actor as usize,
            Put(Some(Teardown::Closing(file))),
        );
        let Heard { event, ends } = self.close(actor, file);
        Heard {
            event: begun_event(event),
            ends,
        }
    }

    fn unplug(&mut self, actor: u32, device: u32) -> Heard
        requires driver { actor ≡ DRIVER }
        requires device { device < DEVICES }
        requires free { is_busy (site_of self.old) actor ≡ false }
        requires sound { IsSound self.old }
        ensures unplugs { record { site = site_of self.new; heard = result } ≡ unplugs (site_of self.old) actor device }
        ensures moved { Moved actor self.old self.new }
    {
        match self.world.unplug(device) {
            Ok(()) => {
                change_at(
                    &mut self.teardowns,
                    actor as usize,
                    Put(Some(Teardown::Unplugging(device))),
                );
                goes_on(Event::Began)
            }
            Err(errno) => ends_with(Event::Silent, Answer::Refused(errno)),
        }
    }
}
