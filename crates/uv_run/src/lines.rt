//! The lines of a script, played.

ghost use Rattle.std.specs.Prelude.{◌≡◌, ◌≤◌, ◌<◌, ◌+◌, All, IfOk, OnOk, true, false, slice_get, length, Result, Ok, Err};
ghost use Rattle.uv_num.specs.declared.limits.TheConstants.{ENDER, FILES, SCRIPT_LINES};
ghost use Rattle.uv_machine.specs.Histories.{IsActor, state_of};
ghost use Rattle.uv_graph.specs.Conditions.{IsClient};
ghost use Rattle.uv_script.specs.Ranges.{IsInRange, HasRanges, MayDo};
ghost use Rattle.uv_script.specs.declared.form.Form.TheVariants as form;
ghost use Rattle.uv_run.specs.Asking.{task_of};
ghost use Rattle.uv_run.specs.Chains.{Chain};
ghost use Rattle.uv_run.specs.Lines.{BeginsLine, BeginsOnly, BeginsTask, ClosesIf, ClosesOwn, DiesLine, PlaysOne, RunsLine, RunsTask, all_files, is_clients, plus_line};
ghost use Rattle.uv_run.specs.Marks.{PlaysMarked};
ghost use Rattle.uv_run.specs.Ranges.{IsInDeed, IsInReach};
ghost use Rattle.uv_run.specs.Runs.{GoesSound, StaysSound, stand_of};
ghost use Rattle.uv_run.specs.Site.{is_busy, state_at};
ghost use Rattle.uv_run.specs.Sound.{HasSpares, IsSound, site_of};
ghost use Rattle.uv_run.specs.Stand.{with_begun};

use crate::asked::task_of;
use crate::flight::Task;
use crate::reply::Telling;
use crate::running::Run;
use crate::sayings::awaited;
use std::alloc::{AllocError, Global};
use uv_num::{Errno, FILES, List, Put, change_at};
use uv_report::Saying;
use uv_script::{DataCall, Deed, Form, Line, Script};

/// What an actor begins.
impl Run {
    fn set_begun(&mut self, actor: u32, line: u32)
        ensures stand { stand_of self.new ≡ with_begun (stand_of self.old) actor line }
        ensures flights { self.new.flights ≡ self.old.flights }
    {
        change_at(&mut self.begun, actor as usize, Put(line));
    }

    /// Begins what a line runs to its end: where the begin has to wait, the others go on.
    fn begin_line(
        &mut self,
        alloc: Global,
        line: u32,
        actor: u32,
        task: Task,
    ) -> Result<(), AllocError>
        requires range { IsInReach actor task }
        requires free { is_busy (site_of self.old.flights) actor ≡ false }
        requires room { HasSpares 1 self.old.flights.world.core }
        requires sound { IsSound self.old.flights }
        ensures begins { OnOk result (BeginsLine (stand_of self.old) line actor task (stand_of self.new)) }
        ensures sound { OnOk result (GoesSound self.old.flights self.new.flights) }
    {
        self.set_begun(actor, line);
        let heard = self.flights.begin(alloc, actor, task);
        self.tell(Telling::ToEnd, actor, line, heard)?;
        self.go_on(actor, awaited(heard.event))
    }

    /// Begins what is then in flight.
    fn begin_only(
        &mut self,
        alloc: Global,
        line: u32,
        actor: u32,
        task: Task,
    ) -> Result<(), AllocError>
        requires range { IsInReach actor task }
        requires free { is_busy (site_of self.old.flights) actor ≡ false }
        requires room { HasSpares 1 self.old.flights.world.core }
        requires sound { IsSound self.old.flights }
        ensures begins { OnOk result (BeginsOnly (stand_of self.old) line actor task (stand_of self.new)) }
        ensures sound { OnOk result (GoesSound self.old.flights self.new.flights) }
    {
        self.set_begun(actor, line);
        let heard = self.flights.begin(alloc, actor, task);
        self.tell(Telling::Plus { line }, actor, line, heard)
    }

    fn run_line(
        &mut self,
        alloc: Global,
        line: u32,
        actor: u32,
        task: Task,
    ) -> Result<(), AllocError>
        requires range { IsInReach actor task }
        requires free { is_busy (site_of self.old.flights) actor ≡ false }
        requires room { HasSpares 1 self.old.flights.world.core }
        requires sound { IsSound self.old.flights }
        ensures runs { OnOk result (RunsLine (stand_of self.old) line actor task (stand_of self.new)) }
        ensures sound { OnOk result (GoesSound self.old.flights self.new.flights) }
    {
        self.begin_line(alloc, line, actor, task)?;
        self.run_out(Telling::ToEnd, actor)
    }

    /// Runs what a line asks for to its end, or tells its refusal.
    fn run_task(
        &mut self,
        alloc: Global,
        line: u32,
        actor: u32,
        task: Result<Task, Errno>,
    ) -> Result<(), AllocError>
        requires range { IsInDeed actor task }
        requires free { is_busy (site_of self.old.flights) actor ≡ false }
        requires room { HasSpares 1 self.old.flights.world.core }
        requires sound { IsSound self.old.flights }
        ensures runs { OnOk result (RunsTask (stand_of self.old) line actor task (stand_of self.new)) }
        ensures sound { OnOk result (GoesSound self.old.flights self.new.flights) }
    {
        match task {
            Ok(task) => self.run_line(alloc, line, actor, task),
            Err(errno) => self.say(line, Saying::Refused(errno)),
        }
    }

    /// Begins what a line asks for, or tells its refusal.
    fn begin_task(
        &mut self,
        alloc: Global,
        line: u32,
        actor: u32,
        task: Result<Task, Errno>,
    ) -> Result<(), AllocError>
        requires range { IsInDeed actor task }
        requires free { is_busy (site_of self.old.flights) actor ≡ false }
        requires room { HasSpares 1 self.old.flights.world.core }
        requires sound { IsSound self.old.flights }
        ensures begins { OnOk result (BeginsTask (stand_of self.old) line actor task (stand_of self.new)) }
        ensures sound { OnOk result (GoesSound self.old.flights self.new.flights) }
    {
        match task {
            Ok(task) => self.begin_only(alloc, line, actor, task),
            Err(errno) => self.say(line, Saying::Refused(errno)),
        }
    }
}

/// The forms of lines.
impl Run {
    /// `A ..`
    fn plain(&mut self, alloc: Global, line: u32, actor: u32, deed: Deed) -> Result<(), AllocError>
        requires range { MayDo actor deed }
        requires room { HasSpares 1 self.old.flights.world.core }
        requires sound { IsSound self.old.flights }
        ensures plays { OnOk result (PlaysOne (stand_of self.old) line (form.Plain actor deed) (stand_of self.new)) }
        ensures sound { OnOk result (GoesSound self.old.flights self.new.flights) }
    {
        self.run_out(Telling::ToEnd, actor)?;
        let task = task_of(&self.replies, deed);
        self.run_task(alloc, line, actor, task)
    }

    /// `A- ..`
    fn minus(&mut self, alloc: Global, line: u32, actor: u32, deed: Deed) -> Result<(), AllocError>
        requires range { MayDo actor deed }
        requires room { HasSpares 1 self.old.flights.world.core }
        requires sound { IsSound self.old.flights }
        ensures plays { OnOk result (PlaysOne (stand_of self.old) line (form.Minus actor deed) (stand_of self.new)) }
        ensures sound { OnOk result (GoesSound self.old.flights self.new.flights) }
    {
        self.run_out(Telling::ToEnd, actor)?;
        let task = task_of(&self.replies, deed);
        self.begin_task(alloc, line, actor, task)
    }

    /// `A+`
    fn plus(&mut self, line: u32, actor: u32) -> Result<(), AllocError>
        requires actor { IsActor actor }
        requires sound { IsSound self.old.flights }
        ensures stand { OnOk result (stand_of self.new ≡ plus_line (is_busy (site_of self.old.flights) actor) (stand_of self.old) line actor) }
        ensures sound { OnOk result (StaysSound self.old.flights self.new.flights) }
    {
        if !self.flights.is_busy(actor) {
            return self.say(line, Saying::Idle);
        }
        self.after_event(Telling::Plus { line }, actor)?;
        Ok(())
    }

    /// A client that dies closes a file of its own.
    fn close_file(&mut self, line: u32, client: u32, file: u32) -> Result<(), AllocError>
        requires client { IsClient client }
        requires file { file < FILES }
        requires free { is_busy (site_of self.old.flights) client ≡ false }
        requires sound { IsSound self.old.flights }
        ensures closes { OnOk result (ClosesIf true (stand_of self.old) line client file (stand_of self.new)) }
        ensures free { OnOk result (is_busy (site_of self.new.flights) client ≡ false) }
        ensures sound { OnOk result (StaysSound self.old.flights self.new.flights) }
    {
        self.set_begun(client, line);
        let heard = self.flights.begin_close(client, file);
        self.tell(Telling::Dying, client, line, heard)?;
        self.go_on(client, awaited(heard.event))?;
        self.run_out(Telling::Dying, client)
    }

    /// A client that dies closes a file if it is its own.
    fn close_own(&mut self, line: u32, client: u32, file: u32) -> Result<(), AllocError>
        requires client { IsClient client }
        requires file { file < FILES }
        requires free { is_busy (site_of self.old.flights) client ≡ false }
        requires sound { IsSound self.old.flights }
        ensures closes { OnOk result (ClosesOwn line client (stand_of self.old) file (stand_of self.new)) }
        ensures free { OnOk result (is_busy (site_of self.new.flights) client ≡ false) }
        ensures sound { OnOk result (StaysSound self.old.flights self.new.flights) }
    {
        if self.flights.is_clients(client, file) {
            self.close_file(line, client, file)
        } else {
            Ok(())
        }
    }

    fn close_all_own(&mut self, line: u32, client: u32) -> Result<(), AllocError>
        requires client { IsClient client }
        requires free { is_busy (site_of self.old.flights) client ≡ false }
        requires sound { IsSound self.old.flights }
        ensures closes { OnOk result (Chain (ClosesOwn line client) (stand_of self.old) all_files (stand_of self.new)) }
        ensures sound { OnOk result (StaysSound self.old.flights self.new.flights) }
    {
        for file in 0..FILES as u32 {
            self.close_own(line, client, file)?;
        }
        Ok(())
    }

    /// `die C`
    fn die(&mut self, line: u32, client: u32) -> Result<(), AllocError>
        requires client { IsClient client }
        requires sound { IsSound self.old.flights }
        ensures plays { OnOk result (PlaysOne (stand_of self.old) line (form.Die client) (stand_of self.new)) }
        ensures sound { OnOk result (StaysSound self.old.flights self.new.flights) }
    {
        self.run_out(Telling::ToEnd, client)?;
        self.close_all_own(line, client)?;
        self.say(line, Saying::Ok)
    }

    /// `C ..`, a call of the data path: what the client has in flight runs to its end first.
    fn data_line(
        &mut self,
        alloc: Global,
        line: u32,
        client: u32,
        call: &DataCall,
    ) -> Result<(), AllocError>
        requires client { IsClient client }
        requires sound { IsSound self.old.flights }
        ensures plays { OnOk result (PlaysOne (stand_of self.old) line (form.Data client call.now) (stand_of self.new)) }
        ensures sound { OnOk result (StaysSound self.old.flights self.new.flights) }
    {
        self.run_out(Telling::ToEnd, client)?;
        self.call_data(alloc, line, call)
    }

    /// Plays a line.
    pub fn play(&mut self, alloc: Global, line: &Line) -> Result<(), AllocError>
        requires range { IsInRange line.now }
        requires room { HasSpares 1 self.old.flights.world.core }
        requires sound { IsSound self.old.flights }
        ensures plays { OnOk result (PlaysOne (stand_of self.old) line.now.number line.now.form (stand_of self.new)) }
        ensures sound { OnOk result (GoesSound self.old.flights self.new.flights) }
    {
        match &line.form {
            Form::Plain { actor, deed } => self.plain(alloc, line.number, *actor, *deed),
            Form::Minus { actor, deed } => self.minus(alloc, line.number, *actor, *deed),
            Form::Plus { actor } => self.plus(line.number, *actor),
            Form::Die { client } => self.die(line.number, *client),
            Form::Data { client, call } => self.data_line(alloc, line.number, *client, call),
        }
    }

    /// Plays the lines of a script. What it gives are marks: how long the history was as each line began, and after the last one.
    pub fn play_all(&mut self, alloc: Global, script: &Script) -> Result<List<usize>, AllocError>
        requires room { HasSpares SCRIPT_LINES self.old.flights.world.core }
        requires ender { is_busy (site_of self.old.flights) ENDER ≡ false }
        requires sound { IsSound self.old.flights }
        ensures plays { IfOk result (λ marks. PlaysMarked (stand_of self.old) script.now (stand_of self.new) marks) }
        ensures ranges { OnOk result (All IsInRange script.now) }
        ensures ender { OnOk result (is_busy (site_of self.new.flights) ENDER ≡ false) }
        ensures sound { OnOk result (IsSound self.new.flights) }
    {
        let mut marks = List::new(alloc);
        for place in 0..script.len() {
            marks.push(self.flights.world.core.entries())?;
            self.play(alloc, script.line(place))?;
        }
        marks.push(self.flights.world.core.entries())?;
        Ok(marks)
    }
}
