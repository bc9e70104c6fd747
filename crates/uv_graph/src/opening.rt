//! The writers of opens and enters, which take room for all that they can cause, and of their refusals.

ghost use Rattle.std.specs.Prelude.{◌≡◌, ◌<◌, ◌+◌, OnOk, OnErr};
ghost use Rattle.uv_machine.specs.declared.entry.Entry.TheVariants as entry;
ghost use Rattle.uv_machine.specs.declared.entry.Answer.TheVariants as answer;
ghost use Rattle.uv_machine.specs.Histories.{Allowed, IsLegal, state_of};
ghost use Rattle.uv_machine.specs.Accounts.{costs};
ghost use Rattle.uv_num.specs.Place.{at_place};
ghost use Rattle.uv_graph.specs.Dooms.{DoomsNone};
ghost use Rattle.uv_graph.specs.Kept.{one_less, spare_of};
ghost use Rattle.uv_graph.specs.Notes.{Notes, NotesSpared, IsNotedOrDry, Leaves, HasNoneOut};

use crate::graph::Graph;
use std::alloc::AllocError;
use uv_machine::{Answer, Entry, owed_by};
use uv_num::{Changes, Errno, Request, change_at};
use uv_pool::Deed;

/// The entries of an open, and of the ends of the file that it opens: its tear by the driver and the end of that, and its
/// tear and its close.
const OPEN_COSTS: usize = 5;

/// One less of what is set aside.
#[derive(Drop)]
struct OneLess;

impl Changes<u32> for OneLess {
    ghost changed = { λ _ n. one_less n };

    fn change(self, spare: &mut u32) {
        *spare = spare.saturating_sub(1);
    }
}

/// One less is set aside at a place.
fn spend(spares: &mut [u32], at: usize)
    ensures { spares.new ≡ at_place spares.old at one_less }
{
    change_at(spares, at, OneLess);
}

impl<D: Deed> Graph<D> {
    /// Opens a file on a device (`uverbs_main.c`, ib_uverbs_open). On an error nothing changes.
    pub fn open(&mut self, client: u32, file: u32, device: u32) -> Result<(), AllocError>
        requires allowed { Allowed (state_of self.old.history) (entry.Open client file device answer.Ok) }
        ensures ok { OnOk result (Notes self.old self.new (entry.Open client file device answer.Ok)) }
        ensures err { OnErr result (self.new ≡ self.old) }
        ensures legal { IsLegal self.new.history }
    {
        self.take(
            OPEN_COSTS,
            Entry::Open {
                client,
                file,
                device,
                answer: Answer::Ok,
            },
        )
    }

    /// Lets a client's call on a file enter (`uverbs_ioctl.c`, ib_uverbs_run_method). On an error nothing changes.
    pub fn enter(&mut self, client: u32, file: u32, request: Request) -> Result<(), AllocError>
        requires allowed { Allowed (state_of self.old.history) (entry.Enter client file request answer.Ok) }
        ensures ok { OnOk result (Notes self.old self.new (entry.Enter client file request answer.Ok)) }
        ensures err { OnErr result (self.new ≡ self.old) }
        ensures legal { IsLegal self.new.history }
    {
        self.take(
            1 + owed_by(request),
            Entry::Enter {
                client,
                file,
                request,
                answer: Answer::Ok,
            },
        )
    }

    /// Takes the room that an entry costs, and notes it.
    fn take(&mut self, room: usize, entry: Entry) -> Result<(), AllocError>
        requires allowed { Allowed (state_of self.old.history) entry }
        requires room { costs entry ≡ room }
        requires leaves { Leaves (state_of self.old.history) entry }
        requires dooms { DoomsNone (state_of self.old.history) entry }
        requires none { HasNoneOut self.old entry }
        ensures ok { OnOk result (Notes self.old self.new entry) }
        ensures err { OnErr result (self.new ≡ self.old) }
        ensures legal { IsLegal self.new.history }
    {
        match self.log.widen(room) {
            Err(AllocError) => Err(AllocError),
            Ok(()) => {
                self.log.note(entry);
                Ok(())
            }
        }
    }

    /// Notes that a client's open is refused, in new room or in what is set aside for the client. False exactly where
    /// there is neither.
    pub fn refuse_open(&mut self, client: u32, file: u32, device: u32, errno: Errno) -> bool
        requires allowed { Allowed (state_of self.old.history) (entry.Open client file device (answer.Refused errno)) }
        ensures noted { IsNotedOrDry result self.old self.new (entry.Open client file device (answer.Refused errno)) client }
        ensures legal { IsLegal self.new.history }
    {
        self.note_refused(
            client,
            Entry::Open {
                client,
                file,
                device,
                answer: Answer::Refused(errno),
            },
        )
    }

    /// Notes that a client's call is refused at its enter, in new room or in what is set aside for the client. False
    /// exactly where there is neither.
    pub fn refuse_enter(&mut self, client: u32, file: u32, request: Request, errno: Errno) -> bool
        requires allowed { Allowed (state_of self.old.history) (entry.Enter client file request (answer.Refused errno)) }
        ensures noted { IsNotedOrDry result self.old self.new (entry.Enter client file request (answer.Refused errno)) client }
        ensures legal { IsLegal self.new.history }
    {
        self.note_refused(
            client,
            Entry::Enter {
                client,
                file,
                request,
                answer: Answer::Refused(errno),
            },
        )
    }

    fn note_refused(&mut self, client: u32, entry: Entry) -> bool
        requires allowed { Allowed (state_of self.old.history) entry }
        requires room { costs entry ≡ 1 }
        requires leaves { Leaves (state_of self.old.history) entry }
        requires dooms { DoomsNone (state_of self.old.history) entry }
        requires none { HasNoneOut self.old entry }
        ensures noted { IsNotedOrDry result self.old self.new entry client }
        ensures legal { IsLegal self.new.history }
    {
        match self.take(1, entry) {
            Ok(()) => true,
            Err(AllocError) => self.note_spared(client, entry),
        }
    }

    /// Notes a refused entry in room that is set aside for the client, if there is any.
    fn note_spared(&mut self, client: u32, entry: Entry) -> bool
        requires allowed { Allowed (state_of self.old.history) entry }
        requires room { costs entry ≡ 1 }
        requires leaves { Leaves (state_of self.old.history) entry }
        requires dooms { DoomsNone (state_of self.old.history) entry }
        requires none { HasNoneOut self.old entry }
        ensures noted { IsNotedOrDry result self.old self.new entry client }
        ensures legal { IsLegal self.new.history }
    {
        self.is_legal();
        if self.spare(client) == 0 {
            return false;
        }
        self.note_in_spare(client, entry);
        true
    }

    fn note_in_spare(&mut self, client: u32, entry: Entry)
        requires allowed { Allowed (state_of self.old.history) entry }
        requires room { costs entry ≡ 1 }
        requires leaves { Leaves (state_of self.old.history) entry }
        requires dooms { DoomsNone (state_of self.old.history) entry }
        requires none { HasNoneOut self.old entry }
        requires spare { 0 < spare_of self.old client }
        ensures notes { NotesSpared self.old self.new entry client }
        ensures less { spare_of self.old client ≡ spare_of self.new client + 1 }
        ensures legal { IsLegal self.new.history }
    {
        spend(&mut self.spares, client as usize);
        self.log.note(entry);
    }

    /// Notes that a client's call is refused at its enter, in room that is set aside for the client. It takes no memory.
    pub fn refuse_in_spare(&mut self, client: u32, file: u32, request: Request, errno: Errno)
        requires allowed { Allowed (state_of self.old.history) (entry.Enter client file request (answer.Refused errno)) }
        requires spare { 0 < spare_of self.old client }
        ensures notes { NotesSpared self.old self.new (entry.Enter client file request (answer.Refused errno)) client }
        ensures less { spare_of self.old client ≡ spare_of self.new client + 1 }
        ensures legal { IsLegal self.new.history }
    {
        self.note_in_spare(
            client,
            Entry::Enter {
                client,
                file,
                request,
                answer: Answer::Refused(errno),
            },
        );
    }
}
