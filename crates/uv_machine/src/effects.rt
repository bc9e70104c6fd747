//! What an entry makes of the state.

ghost use Rattle.std.specs.Prelude.{◌≡◌, filter, map, slice_get};
ghost use Rattle.uv_machine.specs.Plans.{entered, with_refusal, with_look, with_outcome, without_number, without_look};
ghost use Rattle.uv_machine.specs.Effects.{refusal_in, left, with_object, with_pool, with_burial, not_with_id, without_object, reserve, next_id, new_object, with_room_for, with_new, generation_in, made_outcome, make_at, make, commit, binding_of, event_taken, act, act_by, lock, check, buried_if_doomed, finish, unless_refused, stepped, with_call, after_step, with_file, in_phase, dissociated, gone_from, not_in_file, after_open, after_enter, after_unplug, after_closed};
ghost use Rattle.uv_num.specs.Request.{role_of};
ghost use Rattle.uv_num.specs.Kind.{kind_place};
ghost use Rattle.uv_machine.specs.States.{call_of, object_with};
ghost use Rattle.uv_machine.specs.Histories.{after};

use crate::call::{CallChange, InFlight};
use crate::entry::{Answer, Entry, Word};
use crate::file::{FileChange, FilePhase};
use crate::object::{Binding, Change, Object, Phase, change_object};
use crate::pool::PoolChange;
use crate::readers::Readers;
use crate::state::State;
use uv_num::{Act, Errno, Kind, MOST_OBJECTS, NONE, Put, Request, Role, Room, change_at};

impl Answer {
    /// The errno of a refusal.
    pub fn refusal(self) -> Option<Errno>
        ensures { result ≡ refusal_in self }
    {
        match self {
            Answer::Refused(errno) => Some(errno),
            Answer::Ok
            | Answer::Made { .. }
            | Answer::State { .. }
            | Answer::Event
            | Answer::Kept(_) => None,
        }
    }
}

/// The steps of calls.
impl State {
    fn refuse(&mut self, actor: u32, errno: Errno)
        ensures { self.new ≡ with_call self.old actor (with_refusal errno) }
    {
        change_at(&mut self.calls, actor as usize, CallChange::Refused(errno));
    }

    fn leave(&mut self, actor: u32)
        ensures { self.new ≡ left self.old actor }
    {
        change_at(&mut self.calls, actor as usize, Put(None));
    }

    fn reserve(&mut self, actor: u32, call: InFlight)
        ensures { self.new ≡ reserve self.old actor call }
    {
        let number = self.least_free(call.file);
        change_at(
            &mut self.calls,
            actor as usize,
            CallChange::Reserves(number),
        );
    }

    fn make(&mut self, actor: u32, call: InFlight)
        ensures { self.new ≡ make self.old actor call (role_of call.request) }
    {
        match call.request.role() {
            Role::Creates(kind) => self.make_at(actor, call, kind, self.home_cell(kind)),
            Role::Destroys(_) | Role::Acts(_) => {}
        }
    }

    fn make_at(&mut self, actor: u32, call: InFlight, kind: Kind, index: Option<u32>)
        ensures { self.new ≡ make_at self.old actor call kind index }
    {
        if let Some(index) = index {
            let x = self.new_object(call, kind, index);
            self.put_new(actor, x);
        }
    }

    fn new_object(&self, call: InFlight, kind: Kind, index: u32) -> Object
        ensures { result ≡ new_object self.now call kind index (generation_in index (slice_get self.now.pools (kind_place kind))) }
    {
        Object {
            id: self.made,
            kind,
            file: call.file,
            handle: call.reserved.unwrap_or(NONE),
            request: call.request,
            uses: call.looked,
            binding: None,
            index,
            generation: self.pools[kind.place()].generation(index),
            phase: Phase::Made,
        }
    }

    fn put_new(&mut self, actor: u32, x: Object)
        ensures { self.new ≡ with_new self.old actor x }
    {
        put_within(&mut self.objects, x);
        self.made = next_id(self.made);
        change_at(&mut self.pools, x.kind.place(), PoolChange::Draws(x.index));
        change_at(
            &mut self.calls,
            actor as usize,
            CallChange::Makes(x.id, made_outcome(x)),
        );
    }

    fn change(&mut self, id: u32, change: Change)
        ensures { self.new ≡ with_object self.old id change }
    {
        change_object(self.objects.as_mut_slice(), id, change);
    }

    fn bury(&mut self, x: Object)
        ensures { self.new ≡ with_burial self.old x }
    {
        change_at(&mut self.pools, x.kind.place(), PoolChange::Buries(x.index));
    }

    fn remove(&mut self, id: u32)
        ensures { self.new ≡ without_object self.old id }
    {
        remove_object(&mut self.objects, id);
    }

    fn commit(&mut self, actor: u32, id: u32)
        ensures { self.new ≡ commit self.old actor id }
    {
        self.change(id, Change::ToLive);
        change_at(&mut self.calls, actor as usize, CallChange::Unlocks);
    }

    fn lock(&mut self, actor: u32, id: u32)
        ensures { self.new ≡ lock self.old actor id }
    {
        change_at(&mut self.calls, actor as usize, CallChange::Locks(id));
    }

    fn check(&mut self, actor: u32, id: u32)
        ensures { self.new ≡ check self.old actor id }
    {
        self.change(id, Change::ToDoomed);
        change_at(&mut self.calls, actor as usize, CallChange::MovesOn);
    }

    fn bury_if_doomed(&mut self, x: Option<Object>)
        ensures { self.new ≡ buried_if_doomed self.old x }
    {
        if let Some(x) = x {
            if x.phase.is_doomed() {
                self.bury(x);
            }
        }
    }

    fn finish(&mut self, actor: u32, id: u32)
        ensures { self.new ≡ finish self.old actor id }
    {
        self.bury_if_doomed(self.object_with(id));
        self.remove(id);
        change_at(&mut self.calls, actor as usize, CallChange::Unlocks);
    }

    fn give_back(&mut self, actor: u32)
        ensures { self.new ≡ with_call self.old actor without_number }
    {
        change_at(&mut self.calls, actor as usize, CallChange::GivesBack);
    }

    fn look(&mut self, actor: u32, id: u32)
        ensures { self.new ≡ with_call self.old actor (with_look id) }
    {
        change_at(&mut self.calls, actor as usize, CallChange::Looks(id));
    }

    fn note(&mut self, actor: u32, outcome: Answer)
        ensures { self.new ≡ with_call self.old actor (with_outcome outcome) }
    {
        change_at(&mut self.calls, actor as usize, CallChange::Notes(outcome));
    }

    fn take_event(&mut self, file: u32)
        ensures { self.new ≡ with_file self.old file event_taken }
    {
        change_at(&mut self.files, file as usize, FileChange::TakesEvent);
    }

    fn act(&mut self, actor: u32, call: InFlight, answer: Answer, what: Act)
        ensures { self.new ≡ act self.old actor call answer what }
    {
        match what {
            Act::Modify { .. } | Act::Query => {}
            Act::Bind {
                offset,
                length,
                access,
            } => self.change(
                call.acted_on(),
                Change::ToBound(Some(binding_of(call, offset, length, access))),
            ),
            Act::Unbind { .. } => self.change(call.acted_on(), Change::ToBound(None)),
            Act::Async => self.take_event(call.file),
        }
        self.note(actor, answer);
    }

    fn act_by(&mut self, actor: u32, call: InFlight, answer: Answer, role: Role)
        ensures { self.new ≡ act_by self.old actor call answer role }
    {
        match role {
            Role::Creates(_) | Role::Destroys(_) => {}
            Role::Acts(act) => self.act(actor, call, answer, act),
        }
    }

    fn let_go(&mut self, actor: u32)
        ensures { self.new ≡ with_call self.old actor without_look }
    {
        change_at(&mut self.calls, actor as usize, CallChange::LetsGo);
    }

    fn go_fine(&mut self, actor: u32, call: InFlight, word: Word, id: u32, answer: Answer)
        requires { refusal_in answer ≡ None }
        ensures { self.new ≡ stepped self.old actor call word id answer }
    {
        match word {
            Word::Reserve => self.reserve(actor, call),
            Word::Look => self.look(actor, id),
            Word::Make => self.make(actor, call),
            Word::Commit => self.commit(actor, id),
            Word::Act => self.act_by(actor, call, answer, call.request.role()),
            Word::Lock => self.lock(actor, id),
            Word::Check => self.check(actor, id),
            Word::Finish => self.finish(actor, id),
            Word::Abort => self.give_back(actor),
            Word::Free => self.let_go(actor),
            Word::Exit => self.leave(actor),
        }
    }

    fn go_refused(
        &mut self,
        actor: u32,
        call: InFlight,
        word: Word,
        id: u32,
        answer: Answer,
        errno: Errno,
    )
        requires { refusal_in answer ≡ Some errno }
        ensures { self.new ≡ stepped self.old actor call word id answer }
    {
        match word {
            Word::Reserve
            | Word::Look
            | Word::Make
            | Word::Commit
            | Word::Act
            | Word::Lock
            | Word::Check
            | Word::Finish
            | Word::Abort
            | Word::Free => self.refuse(actor, errno),
            Word::Exit => self.leave(actor),
        }
    }

    fn step(&mut self, actor: u32, call: InFlight, word: Word, id: u32, answer: Answer)
        ensures { self.new ≡ stepped self.old actor call word id answer }
    {
        match answer.refusal() {
            None => self.go_fine(actor, call, word, id, answer),
            Some(errno) => self.go_refused(actor, call, word, id, answer, errno),
        }
    }
}

fn put_within(objects: &mut Room<Object, MOST_OBJECTS>, x: Object)
    ensures { objects.new ≡ with_room_for x objects.old }
{
    if objects.len() < MOST_OBJECTS {
        objects.put(x);
    }
}

fn binding_of(call: InFlight, offset: u64, length: u64, access: u64) -> Binding
    ensures { result ≡ binding_of call offset length access }
{
    Binding {
        region: call.looked_at(1),
        offset,
        length,
        access,
    }
}

fn made_outcome(x: Object) -> Answer
    ensures { result ≡ made_outcome x }
{
    Answer::Made {
        handle: x.handle,
        index: x.index,
        generation: x.generation,
    }
}

fn next_id(id: u32) -> u32
    ensures { result ≡ next_id id }
{
    if id == NONE { id } else { id + 1 }
}

fn remove_object(objects: &mut Room<Object, MOST_OBJECTS>, id: u32)
    ensures { objects.new ≡ filter (not_with_id id) objects.old }
{
    objects.retain(move |x| x.id != id);
}

fn remove_file(objects: &mut Room<Object, MOST_OBJECTS>, file: u32)
    ensures { objects.new ≡ filter (not_in_file file) objects.old }
{
    objects.retain(move |x| x.file != file);
}

/// The entries that no call makes.
impl State {
    fn open(&mut self, client: u32, file: u32, device: u32, answer: Answer)
        ensures { self.new ≡ after_open self.old client file device answer }
    {
        if answer.refusal().is_none() {
            change_at(
                &mut self.files,
                file as usize,
                FileChange::Opens { client, device },
            );
        }
    }

    fn enter(&mut self, client: u32, file: u32, request: Request, answer: Answer)
        ensures { self.new ≡ after_enter self.old client file (entered file request) answer }
    {
        if answer.refusal().is_none() {
            change_at(
                &mut self.calls,
                client as usize,
                Put(Some(InFlight::entered(file, request))),
            );
        }
    }

    fn note_step(&mut self, actor: u32, word: Word, id: u32, answer: Answer)
        ensures { self.new ≡ after_step self.old actor (call_of self.old actor) word id answer }
    {
        if let Some(call) = self.call_of(actor) {
            self.step(actor, call, word, id, answer);
        }
    }

    fn phase(&mut self, file: u32, phase: FilePhase)
        ensures { self.new ≡ with_file self.old file (in_phase phase) }
    {
        change_at(&mut self.files, file as usize, FileChange::Goes(phase));
    }

    fn pull(&mut self, device: u32)
        ensures { self.new ≡ after_unplug self.old device }
    {
        change_at(&mut self.plugged, device as usize, Put(false));
    }

    fn dissociate(&mut self, file: u32)
        ensures { self.new ≡ with_file self.old file dissociated }
    {
        change_at(&mut self.files, file as usize, FileChange::Dissociates);
    }

    fn release(&mut self, id: u32)
        ensures { self.new ≡ gone_from self.old id (object_with self.old id) }
    {
        if let Some(x) = self.object_with(id) {
            self.change(id, Change::ToHusk);
            self.bury(x);
        }
    }

    fn close(&mut self, file: u32)
        ensures { self.new ≡ after_closed self.old file }
    {
        change_at(
            &mut self.files,
            file as usize,
            FileChange::Goes(FilePhase::Closed),
        );
        remove_file(&mut self.objects, file);
    }

    /// Makes the whole effect of an entry. It takes no memory: after a legal history there is room for a new object.
    pub fn apply(&mut self, entry: Entry)
        ensures { self.new ≡ after self.old entry }
    {
        match entry {
            Entry::Open {
                client,
                file,
                device,
                answer,
            } => self.open(client, file, device, answer),
            Entry::Enter {
                client,
                file,
                request,
                answer,
            } => self.enter(client, file, request, answer),
            Entry::Step {
                client,
                word,
                object,
                answer,
                ..
            } => self.note_step(client, word, object, answer),
            Entry::Unplug { device } => self.pull(device),
            Entry::Tear { file, by } => self.phase(file, FilePhase::Tearing { by }),
            Entry::Kill { object } => self.change(object, Change::ToDoomed),
            Entry::Gone { object, .. } => self.release(object),
            Entry::Dissociated { file } => self.dissociate(file),
            Entry::Closed { file } => self.close(file),
        }
    }
}
