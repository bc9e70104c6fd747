//! The writers of entries that leave the deeds where they are. None takes memory.

ghost use Rattle.std.specs.Prelude.{ℕ, ◌≡◌, ◌<◌, true, None, Some, IsSome};
ghost use Rattle.uv_num.specs.declared.limits.TheConstants.{DRIVER, NONE};
ghost use Rattle.uv_machine.specs.declared.entry.Entry.TheVariants as entry;
ghost use Rattle.uv_machine.specs.declared.file.FilePhase.TheVariants as phase;
ghost use Rattle.uv_machine.specs.declared.entry.Word.TheVariants as word;
ghost use Rattle.uv_machine.specs.declared.entry.Answer.TheVariants as answer;
ghost use Rattle.uv_machine.specs.States.{object_with, phase_of};
ghost use Rattle.uv_machine.specs.Histories.{Allowed, IsLegal, state_of};
ghost use Rattle.uv_machine.specs.Accounts.{costs};
ghost use Rattle.uv_graph.specs.Dooms.{DoomsNone};
ghost use Rattle.uv_graph.specs.Kept.{out_of};
ghost use Rattle.uv_graph.specs.Owns.{own_of, TearsNone};
ghost use Rattle.uv_graph.specs.Notes.{Notes, Leaves, HasNoneOut};

use crate::graph::Graph;
use uv_machine::{Answer, Entry, Word};
use uv_num::{Errno, NONE, QpState};
use uv_pool::Deed;

impl<D: Deed> Graph<D> {
    /// Notes an entry that costs nothing and leaves the deeds.
    pub(crate) fn note(&mut self, entry: Entry)
        requires allowed { Allowed (state_of self.old.history) entry }
        requires free { costs entry ≡ 0 }
        requires leaves { Leaves (state_of self.old.history) entry }
        requires dooms { DoomsNone (state_of self.old.history) entry }
        requires none { HasNoneOut self.old entry }
        ensures notes { Notes self.old self.new entry }
        ensures legal { IsLegal self.new.history }
    {
        self.log.note(entry);
    }

    /// Notes a step that leaves the deeds.
    pub(crate) fn step(
        &mut self,
        client: u32,
        word: Word,
        object: u32,
        found: Option<QpState>,
        answer: Answer,
    )
        requires allowed { Allowed (state_of self.old.history) (entry.Step client word object found answer) }
        requires leaves { Leaves (state_of self.old.history) (entry.Step client word object found answer) }
        requires dooms { DoomsNone (state_of self.old.history) (entry.Step client word object found answer) }
        requires none { out_of self.old client ≡ None }
        ensures notes { Notes self.old self.new (entry.Step client word object found answer) }
        ensures legal { IsLegal self.new.history }
    {
        self.note(Entry::Step {
            client,
            word,
            object,
            found,
            answer,
        });
    }

    /// Sets the least free number of the call's file aside for it (`rdma_core.c`, alloc_begin_idr_uobject).
    pub fn reserve(&mut self, client: u32)
        requires allowed { Allowed (state_of self.old.history) (entry.Step client word.Reserve NONE None answer.Ok) }
        requires none { out_of self.old client ≡ None }
        ensures notes { Notes self.old self.new (entry.Step client word.Reserve NONE None answer.Ok) }
        ensures legal { IsLegal self.new.history }
    {
        self.step(client, Word::Reserve, NONE, None, Answer::Ok);
    }

    /// Looks an object up and holds it with others (`rdma_core.c`, rdma_lookup_get_uobject).
    pub fn look(&mut self, client: u32, object: u32)
        requires allowed { Allowed (state_of self.old.history) (entry.Step client word.Look object None answer.Ok) }
        requires none { out_of self.old client ≡ None }
        ensures notes { Notes self.old self.new (entry.Step client word.Look object None answer.Ok) }
        ensures legal { IsLegal self.new.history }
    {
        self.step(client, Word::Look, object, None, Answer::Ok);
    }

    /// Publishes the call's new object (`rdma_core.c`, rdma_alloc_commit_uobject). Its deed has gone back.
    pub fn commit(&mut self, client: u32, object: u32)
        requires allowed { Allowed (state_of self.old.history) (entry.Step client word.Commit object None answer.Ok) }
        requires none { out_of self.old client ≡ None }
        ensures notes { Notes self.old self.new (entry.Step client word.Commit object None answer.Ok) }
        ensures legal { IsLegal self.new.history }
    {
        self.step(client, Word::Commit, object, None, Answer::Ok);
    }

    /// Does what the request is for with the objects that were looked at (the handler of its method).
    pub fn act(&mut self, client: u32, object: u32, found: Option<QpState>, answer: Answer)
        requires allowed { Allowed (state_of self.old.history) (entry.Step client word.Act object found answer) }
        requires none { out_of self.old client ≡ None }
        ensures notes { Notes self.old self.new (entry.Step client word.Act object found answer) }
        ensures legal { IsLegal self.new.history }
    {
        self.step(client, Word::Act, object, found, answer);
    }

    /// Lets the first object that the call looks at go (`rdma_core.c`, rdma_lookup_put_uobject).
    pub fn free(&mut self, client: u32, object: u32)
        requires allowed { Allowed (state_of self.old.history) (entry.Step client word.Free object None answer.Ok) }
        requires none { out_of self.old client ≡ None }
        ensures notes { Notes self.old self.new (entry.Step client word.Free object None answer.Ok) }
        ensures legal { IsLegal self.new.history }
    {
        self.step(client, Word::Free, object, None, Answer::Ok);
    }

    /// Ends the call with its answer.
    pub fn exit(&mut self, client: u32, answer: Answer)
        requires allowed { Allowed (state_of self.old.history) (entry.Step client word.Exit NONE None answer) }
        requires none { out_of self.old client ≡ None }
        ensures notes { Notes self.old self.new (entry.Step client word.Exit NONE None answer) }
        ensures legal { IsLegal self.new.history }
    {
        self.step(client, Word::Exit, NONE, None, answer);
    }

    /// Notes that the call's step is refused; the call goes on to its end.
    pub fn refuse(
        &mut self,
        client: u32,
        word: Word,
        object: u32,
        found: Option<QpState>,
        errno: Errno,
    )
        requires allowed { Allowed (state_of self.old.history) (entry.Step client word object found (answer.Refused errno)) }
        requires none { out_of self.old client ≡ None }
        ensures notes { Notes self.old self.new (entry.Step client word object found (answer.Refused errno)) }
        ensures legal { IsLegal self.new.history }
    {
        self.step(client, word, object, found, Answer::Refused(errno));
    }

    /// Pulls a device (`rxe_net.c`, the removal of the device beneath).
    pub fn unplug(&mut self, device: u32)
        requires allowed { Allowed (state_of self.old.history) (entry.Unplug device) }
        ensures notes { Notes self.old self.new (entry.Unplug device) }
        ensures legal { IsLegal self.new.history }
    {
        self.note(Entry::Unplug { device });
    }

    /// Begins to tear a file down (`rdma_core.c`, uverbs_destroy_ufile_hw).
    pub fn tear(&mut self, file: u32, by: u32)
        requires allowed { Allowed (state_of self.old.history) (entry.Tear file by) }
        requires none { TearsNone (own_of self.old by) }
        ensures notes { Notes self.old self.new (entry.Tear file by) }
        ensures legal { IsLegal self.new.history }
    {
        self.note(Entry::Tear { file, by });
    }

    /// Ends the driver's teardown of a file, whose handles stay.
    pub fn dissociated(&mut self, file: u32)
        requires allowed { Allowed (state_of self.old.history) (entry.Dissociated file) }
        ensures notes { Notes self.old self.new (entry.Dissociated file) }
        ensures torn { TearsNone (own_of self.new DRIVER) }
        ensures legal { IsLegal self.new.history }
    {
        let _ = &self.log;
        self.note(Entry::Dissociated { file });
    }

    /// Ends a client's teardown of a file.
    pub fn closed(&mut self, file: u32)
        requires allowed { Allowed (state_of self.old.history) (entry.Closed file) }
        ensures notes { Notes self.old self.new (entry.Closed file) }
        ensures torn { (by : ℕ) → phase_of (state_of self.old.history) file ≡ phase.Tearing by → TearsNone (own_of self.new by) }
        ensures legal { IsLegal self.new.history }
    {
        let _ = &self.log;
        self.note(Entry::Closed { file });
    }
}
