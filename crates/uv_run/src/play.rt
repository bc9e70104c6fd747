//! A whole script on the world, from its first line to the close of the files.

ghost use Rattle.std.specs.Prelude.{◌≡◌, ◌≤◌, ◌<◌, IfOk, OnOk, true, false};
ghost use Rattle.uv_num.specs.declared.limits.TheConstants.{ENDER, FILES};
ghost use Rattle.uv_machine.specs.Files.{AreOver};
ghost use Rattle.uv_machine.specs.Histories.{IsLegal, state_of};
ghost use Rattle.uv_machine.specs.Laws.{IsIdle};
ghost use Rattle.uv_machine.specs.States.{is_callable, phase_of};
ghost use Rattle.uv_run.specs.Follows.{ClosesEnd, EndsAll, EndsFile, FollowsScript, RunsOutAll, all_actors};
ghost use Rattle.uv_run.specs.Ends.{AreIdle};
ghost use Rattle.uv_run.specs.Lines.{all_files};
ghost use Rattle.uv_run.specs.Marks.{FollowsMarked};
ghost use Rattle.uv_run.specs.Runs.{StaysSound, stand_of};
ghost use Rattle.uv_run.specs.Site.{is_busy};
ghost use Rattle.uv_run.specs.Sound.{IsSound, is_ending, site_of};
ghost use Rattle.uv_run.specs.declared.reply.Telling.TheVariants.{ToEnd};

use crate::flights::Flights;
use crate::reply::Telling;
use crate::running::Run;
use crate::sayings::awaited;
use std::alloc::{AllocError, Global};
use uv_model::{Left, left_in};
use uv_num::{DRIVER, ENDER, FILES, List};
use uv_report::Record;
use uv_script::Script;
use uv_world::World;

/// The end of a script.
impl Run {
    /// Runs what is in flight after the last line to its end.
    fn finish(&mut self) -> Result<(), AllocError>
        requires ender { is_busy (site_of self.old.flights) ENDER ≡ false }
        requires sound { IsSound self.old.flights }
        ensures finishes { OnOk result (RunsOutAll ToEnd (stand_of self.old) all_actors (stand_of self.new)) }
        ensures idle { OnOk result (AreIdle (site_of self.new.flights) ENDER) }
        ensures sound { OnOk result (StaysSound self.old.flights self.new.flights) }
    {
        for before in 0..DRIVER {
            self.run_out(Telling::ToEnd, before + 1)?;
        }
        Ok(())
    }

    /// Closes a file by the end of the script.
    fn end_file(&mut self, file: u32) -> Result<(), AllocError>
        requires file { file < FILES }
        requires callable { is_callable (phase_of (state_of self.old.flights.world.core.history) file) ≡ true }
        requires free { is_busy (site_of self.old.flights) ENDER ≡ false }
        requires sound { IsSound self.old.flights }
        ensures closes { OnOk result (ClosesEnd true (stand_of self.old) file (stand_of self.new)) }
        ensures ended { OnOk result (is_ending (phase_of (state_of self.new.flights.world.core.history) file) ≡ true) }
        ensures sound { OnOk result (StaysSound self.old.flights self.new.flights) }
    {
        let heard = self.flights.begin_close(ENDER, file);
        self.tell(Telling::Ending, ENDER, 0, heard)?;
        self.go_on(ENDER, awaited(heard.event))?;
        self.run_out(Telling::Ending, ENDER)
    }

    /// Closes a file by the end of the script if calls may enter it.
    fn end_open(&mut self, file: u32) -> Result<(), AllocError>
        requires file { file < FILES }
        requires idle { AreIdle (site_of self.old.flights) ENDER }
        requires sound { IsSound self.old.flights }
        ensures ends { OnOk result (EndsFile (stand_of self.old) file (stand_of self.new)) }
        ensures ended { OnOk result (is_ending (phase_of (state_of self.new.flights.world.core.history) file) ≡ true) }
        ensures sound { OnOk result (StaysSound self.old.flights self.new.flights) }
    {
        if self.flights.is_callable(file) {
            self.end_file(file)
        } else {
            Ok(())
        }
    }

    /// Closes the files that are left open, in the order of their numbers.
    fn end(&mut self) -> Result<(), AllocError>
        requires idle { AreIdle (site_of self.old.flights) ENDER }
        requires sound { IsSound self.old.flights }
        ensures ends { OnOk result (EndsAll (stand_of self.old) all_files (stand_of self.new)) }
        ensures idle { OnOk result (IsIdle (state_of self.new.flights.world.core.history)) }
        ensures over { OnOk result (AreOver (state_of self.new.flights.world.core.history)) }
        ensures sound { OnOk result (StaysSound self.old.flights self.new.flights) }
    {
        for file in 0..FILES as u32 {
            self.end_open(file)?;
        }
        Ok(())
    }

    /// What the run stored and told.
    fn into_record(self, left: List<Left>) -> Record
        requires idle { IsIdle (state_of self.flights.world.core.history) }
        requires over { AreOver (state_of self.flights.world.core.history) }
        ensures history { result.history ≡ self.flights.world.core.history }
        ensures replies { result.replies ≡ self.said }
        ensures left { result.left ≡ left }
        ensures legal { IsLegal result.history }
    {
        let Run { flights, said, .. } = self;
        let Flights { world, .. } = flights;
        let World { core, .. } = world;
        let (history, pools) = core.history();
        // Of what the cells hold nothing is told yet.
        let _ = pools;
        Record {
            history,
            replies: said,
            left,
        }
    }
}

/// Plays the lines of a script from the beginning, and then closes what they left open. Beside the record it gives the marks: how
/// long the history was as each line began, and after the last one.
pub fn play_marked(alloc: Global, script: &Script) -> Result<(Record, List<usize>), AllocError>
    ensures { IfOk result (λ r. FollowsMarked script.now r.0 r.1) }
{
    let mut run = Run::new(alloc)?;
    let marks = run.play_all(alloc, script)?;
    run.finish()?;
    let left = left_in(alloc, run.flights.world.core.objects())?;
    run.end()?;
    Ok((run.into_record(left), marks))
}

/// The record alone.
pub fn play(alloc: Global, script: &Script) -> Result<Record, AllocError>
    ensures { IfOk result (λ r. FollowsScript script.now r) }
{
    let (told, _) = play_marked(alloc, script)?;
    Ok(told)
}
