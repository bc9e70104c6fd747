//! Opens and calls. A call's content is made before the call enters.

ghost use Rattle.std.specs.Prelude.{◌≡◌, ◌≤◌, ◌<◌, ◌+◌, true};
ghost use Rattle.uv_num.specs.Ranges.{is_in_range};
ghost use Rattle.uv_num.specs.declared.limits.TheConstants.{DEVICES, FILES};
ghost use Rattle.uv_machine.specs.declared.entry.Entry.TheVariants as entry;
ghost use Rattle.uv_machine.specs.Histories.{state_of};
ghost use Rattle.uv_machine.specs.Outside.{MayAnswer, enter_refusal, open_refusal};
ghost use Rattle.uv_graph.specs.Conditions.{HasSpare, IsClient};
ghost use Rattle.uv_graph.specs.Owns.{own_of};
ghost use Rattle.uv_core.specs.Beside.{OthersKeep};
ghost use Rattle.uv_world.specs.Making.{content_for};
ghost use Rattle.uv_world.specs.Owing.{IsUnused, journals_owed, lists_owed, owes_journals, owes_lists};
ghost use Rattle.uv_world.specs.Seating.{IsAtRest, IsWorld, TakesOneSpare, stage_of};
ghost use Rattle.uv_world.specs.Stages.{stage_then};

use crate::content::Content;
use crate::laws::fitting_goes_on;
use crate::world::World;
use std::alloc::Global;
use uv_machine::Answer;
use uv_num::Request;

impl World {
    /// Opens a file on a device for a client (`uverbs_main.c`, ib_uverbs_open). EINVAL: the file was opened before. EIO: the
    /// device is unplugged. ENOMEM: there is no memory.
    pub fn open(&mut self, alloc: Global, client: u32, file: u32, device: u32) -> Answer
        requires client { IsClient client }
        requires file { file < FILES }
        requires device { device < DEVICES }
        requires rest { IsAtRest self.old.core self.old.doomed client }
        requires spare { HasSpare (own_of self.old.core client) }
        requires world { IsWorld self.old }
        ensures may { MayAnswer (open_refusal (state_of self.old.core.history) file device) result }
        ensures stage { stage_of self.new ≡ stage_then (stage_of self.old) (entry.Open client file device result) }
        ensures spares { TakesOneSpare self.old.core self.new.core }
        ensures others { OthersKeep client self.old.core self.new.core }
        ensures doomed { self.new.doomed ≡ self.old.doomed }
        ensures world { IsWorld self.new }
    {
        fitting_goes_on();
        match self.core.open(alloc, client, file, device) {
            Ok(()) => Answer::Ok,
            Err(errno) => Answer::Refused(errno),
        }
    }

    /// Lets a client's call enter on a file (`uverbs_ioctl.c`, ib_uverbs_run_method), with what its create makes and the room
    /// of all that it will leave. EBADF: the file takes no calls. EIO: its device is unplugged, and the request needs it.
    /// ENOMEM: there is no memory; then nothing is held.
    pub fn enter(&mut self, alloc: Global, client: u32, file: u32, request: Request) -> Answer
        requires client { IsClient client }
        requires file { file < FILES }
        requires range { is_in_range request ≡ true }
        requires rest { IsAtRest self.old.core self.old.doomed client }
        requires spare { HasSpare (own_of self.old.core client) }
        requires world { IsWorld self.old }
        ensures may { MayAnswer (enter_refusal (state_of self.old.core.history) file request) result }
        ensures stage { stage_of self.new ≡ stage_then (stage_of self.old) (entry.Enter client file request result) }
        ensures spares { TakesOneSpare self.old.core self.new.core }
        ensures others { OthersKeep client self.old.core self.new.core }
        ensures doomed { self.new.doomed ≡ self.old.doomed }
        ensures world { IsWorld self.new }
    {
        fitting_goes_on();
        match self.contents.prepare(alloc, &request) {
            Ok(made) => self.enter_with(alloc, client, file, request, made),
            Err(_) => Answer::Refused(self.core.refuse(client, file, &request)),
        }
    }

    /// Lets a call enter for which everything is made.
    fn enter_with(
        &mut self,
        alloc: Global,
        client: u32,
        file: u32,
        request: Request,
        made: Option<Content>,
    ) -> Answer
        requires client { IsClient client }
        requires file { file < FILES }
        requires range { is_in_range request ≡ true }
        requires rest { IsAtRest self.old.core self.old.doomed client }
        requires spare { HasSpare (own_of self.old.core client) }
        requires world { IsWorld self.old }
        requires made { made ≡ content_for request }
        requires unused { IsUnused made }
        requires journals { journals_owed self.old.contents + owes_journals made ≤ self.old.contents.journals.room }
        requires lists { lists_owed self.old.contents + owes_lists made ≤ self.old.contents.queues.room }
        ensures may { MayAnswer (enter_refusal (state_of self.old.core.history) file request) result }
        ensures stage { stage_of self.new ≡ stage_then (stage_of self.old) (entry.Enter client file request result) }
        ensures spares { TakesOneSpare self.old.core self.new.core }
        ensures others { OthersKeep client self.old.core self.new.core }
        ensures doomed { self.new.doomed ≡ self.old.doomed }
        ensures world { IsWorld self.new }
    {
        fitting_goes_on();
        match self.core.enter(alloc, client, file, &request) {
            Ok(()) => {
                self.contents.bring(client, made);
                Answer::Ok
            }
            Err(errno) => Answer::Refused(errno),
        }
    }
}
