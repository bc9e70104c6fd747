//! What an entry makes of the store. Where the machine's own effect looks at no list of objects, it is the machine's own;
//! what is kept beside the state follows it.

ghost use Rattle.std.specs.Prelude.{◌≡◌, None, Some, IsSome};
ghost use Rattle.uv_machine.specs.declared.entry.Entry.TheVariants as entry;
ghost use Rattle.uv_machine.specs.declared.entry.Word.TheVariants as word;
ghost use Rattle.uv_machine.specs.Effects.{refusal_in};
ghost use Rattle.uv_machine.specs.Histories.{Allowed, after};
ghost use Rattle.uv_machine.specs.States.{call_of};
ghost use Rattle.uv_store.specs.Going.{Binds, Goes, IsStill, entry_by, own_in};

use crate::counts::{CountChange, count_if_live, recount, uncount_if_doomed};
use crate::mark::{Mark, MarkChange};
use crate::places::{put_mark, take_file, take_out, turn_mark, turn_marks, turn_object};
use crate::store::Store;
use crate::tables;
use crate::turns::{Burial, CallTurn, bound_uses, bury_if_doomed};
use uv_machine::{Binding, CallStep, Change, Entry, InFlight, Readers, Word};
use uv_num::{Act, Role, change_at};
use uv_word::EXCLUSIVE;

fn entry_by(client: u32, step: CallStep) -> Entry
    ensures { result ≡ entry_by client step }
{
    Entry::Step {
        client,
        word: step.word,
        object: step.object,
        found: step.found,
        answer: step.answer,
    }
}

/// What the call in a place of the table holds alone.
fn own_in(slot: Option<InFlight>) -> Option<u32>
    ensures { result ≡ own_in slot }
{
    match slot {
        None => None,
        Some(call) => call.locked,
    }
}

impl Store {
    /// An entry that leaves what is kept beside the state.
    fn pass(&mut self, entry: Entry)
        requires allowed { Allowed self.old entry }
        requires still { IsStill self.old (after self.old entry) }
        ensures { self.new ≡ after self.old entry }
    {
        self.state.apply(entry);
    }

    fn look(&mut self, client: u32, step: CallStep)
        requires { Goes self.old client step word.Look }
        ensures { self.new ≡ after self.old (entry_by client step) }
    {
        turn_mark(
            &self.state.objects,
            &mut self.marks,
            step.object,
            MarkChange::Reads,
        );
        self.state.apply(entry_by(client, step));
    }

    fn free(&mut self, client: u32, step: CallStep)
        requires { Goes self.old client step word.Free }
        ensures { self.new ≡ after self.old (entry_by client step) }
    {
        turn_mark(
            &self.state.objects,
            &mut self.marks,
            step.object,
            MarkChange::Frees,
        );
        self.state.apply(entry_by(client, step));
    }

    fn lock(&mut self, client: u32, step: CallStep)
        requires { Goes self.old client step word.Lock }
        ensures { self.new ≡ after self.old (entry_by client step) }
    {
        turn_mark(
            &self.state.objects,
            &mut self.marks,
            step.object,
            MarkChange::Locks,
        );
        self.state.apply(entry_by(client, step));
    }

    /// A destroy that was refused holds its object until now.
    fn leave(&mut self, client: u32, step: CallStep)
        requires allowed { Allowed self.old (entry_by client step) }
        requires word { step.word ≡ word.Exit }
        ensures { self.new ≡ after self.old (entry_by client step) }
    {
        match own_in(self.state.call_of(client)) {
            None => self.state.apply(entry_by(client, step)),
            Some(own) => {
                turn_mark(
                    &self.state.objects,
                    &mut self.marks,
                    own,
                    MarkChange::Unlocks,
                );
                self.state.apply(entry_by(client, step));
            }
        }
    }

    fn reserve(&mut self, client: u32, step: CallStep)
        requires { Goes self.old client step word.Reserve }
        ensures { self.new ≡ after self.old (entry_by client step) }
    {
        if let Some(call) = self.state.call_of(client) {
            let number = tables::reserve(&mut self.tables, call.file);
            change_at(
                &mut self.state.calls,
                client as usize,
                CallTurn::SetsAside(number),
            );
        }
    }

    fn abort(&mut self, client: u32, step: CallStep)
        requires { Goes self.old client step word.Abort }
        ensures { self.new ≡ after self.old (entry_by client step) }
    {
        match self.state.call_of(client) {
            None => self.state.apply(entry_by(client, step)),
            Some(call) => self.give_back(client, step, call),
        }
    }

    /// A call gives the number back that it has set aside.
    fn give_back(&mut self, client: u32, step: CallStep, call: InFlight)
        requires goes { Goes self.old client step word.Abort }
        requires is { call_of self.old client ≡ Some call }
        ensures { self.new ≡ after self.old (entry_by client step) }
    {
        match call.reserved {
            None => self.state.apply(entry_by(client, step)),
            Some(number) => {
                tables::abort(&mut self.tables, call.file, number);
                self.state.apply(entry_by(client, step));
            }
        }
    }

    fn make(&mut self, client: u32, step: CallStep)
        requires { Goes self.old client step word.Make }
        ensures { self.new ≡ after self.old (entry_by client step) }
    {
        if let Some(call) = self.state.call_of(client) {
            turn_marks(
                &self.state.objects,
                &mut self.marks,
                call.looked,
                MarkChange::GainsUser,
            );
            put_mark(
                &mut self.marks,
                Mark {
                    word: EXCLUSIVE,
                    users: 0,
                },
            );
            recount(&mut self.standing, call.file, CountChange::OneMore);
            self.state.apply(entry_by(client, step));
        }
    }

    fn commit(&mut self, client: u32, step: CallStep)
        requires { Goes self.old client step word.Commit }
        ensures { self.new ≡ after self.old (entry_by client step) }
    {
        let object = self.object_with(step.object);
        tables::publish_object(&mut self.tables, object);
        turn_mark(
            &self.state.objects,
            &mut self.marks,
            step.object,
            MarkChange::Unlocks,
        );
        turn_object(&mut self.state.objects, step.object, Change::ToLive);
        change_at(&mut self.state.calls, client as usize, CallTurn::LetsGo);
    }

    fn check(&mut self, client: u32, step: CallStep)
        requires { Goes self.old client step word.Check }
        ensures { self.new ≡ after self.old (entry_by client step) }
    {
        let object = self.object_with(step.object);
        count_if_live(&mut self.doomed, object);
        turn_object(&mut self.state.objects, step.object, Change::ToDoomed);
        change_at(&mut self.state.calls, client as usize, CallTurn::GoesOn);
    }

    fn finish(&mut self, client: u32, step: CallStep)
        requires { Goes self.old client step word.Finish }
        ensures { self.new ≡ after self.old (entry_by client step) }
    {
        if let Some(x) = self.object_with(step.object) {
            tables::remove(&mut self.tables, x.file, x.handle);
            turn_marks(
                &self.state.objects,
                &mut self.marks,
                x.uses,
                MarkChange::LosesUser,
            );
            uncount_if_doomed(&mut self.doomed, x);
            uncount_if_doomed(&mut self.standing, x);
            bury_if_doomed(&mut self.state.pools, x);
            take_out(&mut self.state.objects, &mut self.marks, step.object);
            change_at(&mut self.state.calls, client as usize, CallTurn::LetsGo);
        }
    }

    fn act(&mut self, client: u32, step: CallStep)
        requires { Goes self.old client step word.Act }
        ensures { self.new ≡ after self.old (entry_by client step) }
    {
        if let Some(call) = self.state.call_of(client) {
            match call.request.role() {
                Role::Creates(_) | Role::Destroys(_) => {}
                Role::Acts(act) => match act {
                    Act::Modify { .. } | Act::Query | Act::Async => {
                        self.pass(entry_by(client, step));
                    }
                    Act::Bind {
                        offset,
                        length,
                        access,
                    } => {
                        let binding = Binding {
                            region: call.looked_at(1),
                            offset,
                            length,
                            access,
                        };
                        self.bind(client, step, call, Some(binding));
                    }
                    Act::Unbind { .. } => self.bind(client, step, call, None),
                },
            }
        }
    }

    /// A window is bound so: what it used has a user less, and what it uses then a user more.
    fn bind(&mut self, client: u32, step: CallStep, call: InFlight, binding: Option<Binding>)
        requires goes { Goes self.old client step word.Act }
        requires binds { Binds self.old client call binding }
        ensures { self.new ≡ after self.old (entry_by client step) }
    {
        let window = call.acted_on();
        match self.object_with(window) {
            None => self.pass(entry_by(client, step)),
            Some(x) => {
                turn_marks(
                    &self.state.objects,
                    &mut self.marks,
                    x.uses,
                    MarkChange::LosesUser,
                );
                turn_marks(
                    &self.state.objects,
                    &mut self.marks,
                    bound_uses(binding, x.uses),
                    MarkChange::GainsUser,
                );
                turn_object(&mut self.state.objects, window, Change::ToBound(binding));
                change_at(
                    &mut self.state.calls,
                    client as usize,
                    CallTurn::Tells(step.answer),
                );
            }
        }
    }

    fn kill(&mut self, object: u32)
        requires { Allowed self.old (entry.Kill object) }
        ensures { self.new ≡ after self.old (entry.Kill object) }
    {
        if let Some(x) = self.object_with(object) {
            recount(&mut self.doomed, x.file, CountChange::OneMore);
            turn_object(&mut self.state.objects, object, Change::ToDoomed);
        }
    }

    fn gone(&mut self, object: u32, kept: u64)
        requires { Allowed self.old (entry.Gone object kept) }
        ensures { self.new ≡ after self.old (entry.Gone object kept) }
    {
        let _ = kept;
        if let Some(x) = self.object_with(object) {
            turn_marks(
                &self.state.objects,
                &mut self.marks,
                x.uses,
                MarkChange::LosesUser,
            );
            recount(&mut self.doomed, x.file, CountChange::OneLess);
            recount(&mut self.standing, x.file, CountChange::OneLess);
            turn_object(&mut self.state.objects, object, Change::ToHusk);
            change_at(&mut self.state.pools, x.kind.place(), Burial(x.index));
        }
    }

    fn close(&mut self, file: u32)
        requires { Allowed self.old (entry.Closed file) }
        ensures { self.new ≡ after self.old (entry.Closed file) }
    {
        take_file(self.state.objects.as_slice(), &mut self.marks, file);
        tables::clear(&mut self.tables, file);
        self.state.apply(Entry::Closed { file });
    }

    fn go(&mut self, client: u32, step: CallStep)
        requires allowed { Allowed self.old (entry_by client step) }
        requires fine { refusal_in step.answer ≡ None }
        ensures { self.new ≡ after self.old (entry_by client step) }
    {
        match step.word {
            Word::Reserve => self.reserve(client, step),
            Word::Look => self.look(client, step),
            Word::Make => self.make(client, step),
            Word::Commit => self.commit(client, step),
            Word::Act => self.act(client, step),
            Word::Lock => self.lock(client, step),
            Word::Check => self.check(client, step),
            Word::Finish => self.finish(client, step),
            Word::Abort => self.abort(client, step),
            Word::Free => self.free(client, step),
            Word::Exit => self.leave(client, step),
        }
    }

    fn go_refused(&mut self, client: u32, step: CallStep)
        requires allowed { Allowed self.old (entry_by client step) }
        requires refused { IsSome (refusal_in step.answer) }
        ensures { self.new ≡ after self.old (entry_by client step) }
    {
        match step.word {
            Word::Reserve
            | Word::Look
            | Word::Make
            | Word::Commit
            | Word::Act
            | Word::Lock
            | Word::Check
            | Word::Finish
            | Word::Abort
            | Word::Free => self.pass(entry_by(client, step)),
            Word::Exit => self.leave(client, step),
        }
    }

    fn step(&mut self, client: u32, step: CallStep)
        requires { Allowed self.old (entry_by client step) }
        ensures { self.new ≡ after self.old (entry_by client step) }
    {
        match step.answer.refusal() {
            None => self.go(client, step),
            Some(_) => self.go_refused(client, step),
        }
    }

    /// Makes the whole effect of an entry that the machine allows now. It takes no memory.
    pub fn apply(&mut self, entry: Entry)
        requires { Allowed self.old entry }
        ensures { self.new ≡ after self.old entry }
    {
        match entry {
            Entry::Open { .. }
            | Entry::Enter { .. }
            | Entry::Unplug { .. }
            | Entry::Tear { .. }
            | Entry::Dissociated { .. } => self.pass(entry),
            Entry::Step {
                client,
                word,
                object,
                found,
                answer,
            } => self.step(
                client,
                CallStep {
                    word,
                    object,
                    found,
                    answer,
                },
            ),
            Entry::Kill { object } => self.kill(object),
            Entry::Gone { object, kept } => self.gone(object, kept),
            Entry::Closed { file } => self.close(file),
        }
    }
}
