//! Entries that are written out, each made by the writer that it is for where the machine allows it.

ghost use Rattle.std.specs.Prelude.{◌≡◌, ◌↔◌, ℕ, true, IsTrue, List, None, slice_get};
ghost use Rattle.uv_pool.specs.declared.deed.Life.{Life};
ghost use Rattle.uv_machine.specs.declared.entry.Entry.TheVariants as entries;
ghost use Rattle.uv_machine.specs.declared.entry.Word.TheVariants as words;
ghost use Rattle.uv_machine.specs.Plans.{next_word};
ghost use Rattle.uv_machine.specs.Laws.{IsIdle};
ghost use Rattle.uv_machine.specs.Histories.{Allowed, state_of};
ghost use Rattle.uv_machine.specs.States.{object_with, phase_in, the_call};
ghost use Rattle.uv_machine.specs.Files.{AreOver};
ghost use Rattle.uv_machine.specs.Filed.{is_over};
ghost use Rattle.uv_graph.specs.Conditions.{ComesPlanted};
ghost use Rattle.uv_graph.specs.Hands.{ComesBuried, is_live_object};
ghost use Rattle.uv_graph.specs.Kept.{kill_of, out_of};
ghost use Rattle.uv_graph.specs.Notes.{IsHuskIf};
ghost use Rattle.uv_graph.specs.Owns.{own_of, torn_by_object};

use crate::standing::is_torn_by;
use crate::{Graph, Out, identity_of};
use std::alloc::{AllocError, Global};
use uv_machine::{Answer, Entry, File, FilePhase, InFlight, Object, Readers, State, Word};
use uv_num::{Errno, List, NONE, QpState, Request};
use uv_pool::plain::{PlainDeed, full_pools};
use uv_pool::{Deed, Pool};

/// What an actor's call has out.
fn out_of(graph: &Graph<PlainDeed>, actor: u32) -> Option<Out>
    ensures { result ≡ out_of graph.now actor }
{
    match graph.outs.get(actor as usize) {
        None => None,
        Some(slot) => *slot,
    }
}

/// What an actor's teardown has out.
fn kill_of(graph: &Graph<PlainDeed>, actor: u32) -> Option<Out>
    ensures { result ≡ kill_of graph.now actor }
{
    match graph.kills.get(actor as usize) {
        None => None,
        Some(slot) => *slot,
    }
}

fn is_live(found: Option<Object>) -> bool
    ensures { result ≡ is_live_object found }
{
    match found {
        None => false,
        Some(x) => x.phase.is_live(),
    }
}

fn is_husk(found: Option<Object>) -> bool
    ensures { IsTrue result → IsHuskIf found }
{
    match found {
        None => false,
        Some(x) => x.phase.is_husk(),
    }
}

/// Whether an actor is tearing the object's file down.
fn tears(graph: &Graph<PlainDeed>, by: u32, object: u32) -> bool
    ensures { result ≡ torn_by_object (state_of graph.now.history) by (object_with (state_of graph.now.history) object) }
{
    match graph.object_with(object) {
        None => false,
        Some(x) => is_torn_by(by, graph.phase_of(x.file)),
    }
}

/// Whether the machine allows an entry now.
fn allows(graph: &Graph<PlainDeed>, entry: Entry) -> bool
    ensures { IsTrue result ↔ Allowed (state_of graph.now.history) entry }
{
    graph.log.state().allows(entry)
}

/// Whether the machine allows a step now, and the call has no deed out.
fn goes(
    graph: &Graph<PlainDeed>,
    client: u32,
    word: Word,
    object: u32,
    found: Option<QpState>,
    answer: Answer,
) -> bool
    ensures allowed { IsTrue result → Allowed (state_of graph.now.history) (entries.Step client word object found answer) }
    ensures none { IsTrue result → out_of graph.now client ≡ None }
{
    out_of(graph, client).is_none()
        && allows(
            graph,
            Entry::Step {
                client,
                word,
                object,
                found,
                answer,
            },
        )
}

/// Whether the call is about to commit its new object.
fn is_committing(call: InFlight) -> bool
    ensures { IsTrue result → next_word call ≡ words.Commit }
{
    match call.next_word() {
        Word::Commit => true,
        Word::Reserve
        | Word::Look
        | Word::Make
        | Word::Act
        | Word::Lock
        | Word::Check
        | Word::Finish
        | Word::Abort
        | Word::Free
        | Word::Exit => false,
    }
}

/// Whether the deed that the client's call has out is planted for the call's new object.
fn comes_planted(graph: &Graph<PlainDeed>, client: u32, deed: &PlainDeed) -> bool
    ensures { IsTrue result → ComesPlanted (own_of graph.now client) (⟦<PlainDeed as Deed>⟧.facts deed.now) }
{
    let Some(call) = graph.call_of(client) else {
        return false;
    };
    match out_of(graph, client) {
        None => false,
        Some(out) => is_committing(call)
            && deed.is_planted_for(out.identity, out.index, out.generation),
    }
}

/// Whether the deed that is out for an object is buried.
fn comes_buried(hand: Option<Out>, object: u32, deed: &PlainDeed) -> bool
    ensures { (lives : List Life) → IsTrue result → ComesBuried hand lives object (⟦<PlainDeed as Deed>⟧.facts deed.now) }
{
    match hand {
        None => false,
        Some(out) => out.identity.id == object
            && deed.is_buried(out.identity.kind, out.index, out.generation),
    }
}

/// Whether what an actor has out is known as the deed was planted.
fn is_known_as(hand: Option<Out>, deed: &PlainDeed) -> bool {
    match (hand, deed.identity) {
        (Some(out), Some(identity)) => out.identity.is_same(identity),
        _ => false,
    }
}

/// A graph, and the deed that is out of it.
#[derive(Drop)]
pub struct Player {
    pub graph: Graph<PlainDeed>,
    pub hand: Option<PlainDeed>,
}

/// The writers that move no deed. Each says whether its entry was made.
impl Player {
    fn reserves(&mut self, client: u32) -> bool {
        if !goes(&self.graph, client, Word::Reserve, NONE, None, Answer::Ok) {
            return false;
        }
        self.graph.reserve(client);
        true
    }

    fn looks(&mut self, client: u32, object: u32) -> bool {
        if !goes(&self.graph, client, Word::Look, object, None, Answer::Ok) {
            return false;
        }
        self.graph.look(client, object);
        true
    }

    fn commits(&mut self, client: u32, object: u32) -> bool {
        if !goes(&self.graph, client, Word::Commit, object, None, Answer::Ok) {
            return false;
        }
        self.graph.commit(client, object);
        true
    }

    fn acts(&mut self, client: u32, object: u32, found: Option<QpState>, answer: Answer) -> bool {
        if !goes(&self.graph, client, Word::Act, object, found, answer) {
            return false;
        }
        self.graph.act(client, object, found, answer);
        true
    }

    fn locks(&mut self, client: u32, object: u32) -> bool {
        if !goes(&self.graph, client, Word::Lock, object, None, Answer::Ok) {
            return false;
        }
        self.graph
            .step(client, Word::Lock, object, None, Answer::Ok);
        true
    }

    fn aborts(&mut self, client: u32) -> bool {
        if !goes(&self.graph, client, Word::Abort, NONE, None, Answer::Ok) {
            return false;
        }
        self.graph.step(client, Word::Abort, NONE, None, Answer::Ok);
        true
    }

    fn frees(&mut self, client: u32, object: u32) -> bool {
        if !goes(&self.graph, client, Word::Free, object, None, Answer::Ok) {
            return false;
        }
        self.graph.free(client, object);
        true
    }

    fn exits(&mut self, client: u32, answer: Answer) -> bool {
        if !goes(&self.graph, client, Word::Exit, NONE, None, answer) {
            return false;
        }
        self.graph.exit(client, answer);
        true
    }

    fn refuses(
        &mut self,
        client: u32,
        word: Word,
        object: u32,
        found: Option<QpState>,
        errno: Errno,
    ) -> bool {
        if !goes(
            &self.graph,
            client,
            word,
            object,
            found,
            Answer::Refused(errno),
        ) {
            return false;
        }
        self.graph.refuse(client, word, object, found, errno);
        true
    }

    fn unplugs(&mut self, device: u32) -> bool {
        if !allows(&self.graph, Entry::Unplug { device }) {
            return false;
        }
        self.graph.unplug(device);
        true
    }

    fn tears(&mut self, file: u32, by: u32) -> bool {
        if self.graph.torn_by(by).is_some() || !allows(&self.graph, Entry::Tear { file, by }) {
            return false;
        }
        self.graph.tear(file, by);
        true
    }

    fn dissociates(&mut self, file: u32) -> bool {
        if !allows(&self.graph, Entry::Dissociated { file }) {
            return false;
        }
        self.graph.dissociated(file);
        true
    }

    fn closes(&mut self, file: u32) -> bool {
        if !allows(&self.graph, Entry::Closed { file }) {
            return false;
        }
        self.graph.closed(file);
        true
    }
}

/// The writers that hand deeds out and take them back.
impl Player {
    /// Makes an object, and plants the deed of its cell at once.
    fn makes(&mut self, client: u32, object: u32) -> bool {
        if !goes(&self.graph, client, Word::Make, object, None, Answer::Ok) {
            return false;
        }
        let deed = self.graph.make(client, object);
        self.plants(client, object, deed)
    }

    fn plants(&mut self, client: u32, object: u32, deed: PlainDeed) -> bool {
        let mut deed = deed;
        if let Some(x) = self.graph.object_with(object) {
            if deed.plant(identity_of(x)).is_err() {
                return false;
            }
        }
        if !comes_planted(&self.graph, client, &deed) {
            return false;
        }
        self.graph.planted(client, deed);
        true
    }

    fn checks(&mut self, client: u32, object: u32) -> bool {
        if !goes(&self.graph, client, Word::Check, object, None, Answer::Ok) {
            return false;
        }
        let found = self.graph.object_with(object);
        if is_live(found) {
            let deed = self.graph.check(client, object);
            let known = is_known_as(out_of(&self.graph, client), &deed);
            self.hand = Some(deed);
            return known;
        }
        if !is_husk(found) {
            return false;
        }
        self.graph
            .step(client, Word::Check, object, None, Answer::Ok);
        true
    }

    /// Takes an object away whose deed is out, and buries that.
    fn finishes(&mut self, client: u32, object: u32, kept: u64) -> bool {
        let Some(mut deed) = self.hand.take() else {
            return false;
        };
        deed.bury();
        let entry = Entry::Step {
            client,
            word: Word::Finish,
            object,
            found: None,
            answer: Answer::Kept(kept),
        };
        if !comes_buried(out_of(&self.graph, client), object, &deed)
            || !allows(&self.graph, entry)
        {
            return false;
        }
        self.graph.finish(client, object, deed, kept);
        true
    }

    fn finishes_husk(&mut self, client: u32, object: u32) -> bool {
        if !goes(
            &self.graph,
            client,
            Word::Finish,
            object,
            None,
            Answer::Kept(0),
        ) {
            return false;
        }
        if !is_husk(self.graph.object_with(object)) {
            return false;
        }
        self.graph
            .step(client, Word::Finish, object, None, Answer::Kept(0));
        true
    }

    /// Takes an object out of use for the actor that tears its file down.
    fn kills(&mut self, by: u32, object: u32) -> bool {
        if kill_of(&self.graph, by).is_some() || !tears(&self.graph, by, object) {
            return false;
        }
        if !allows(&self.graph, Entry::Kill { object }) {
            return false;
        }
        let deed = self.graph.kill(by, object);
        let known = is_known_as(kill_of(&self.graph, by), &deed);
        self.hand = Some(deed);
        known
    }

    /// Releases an object whose deed is out, and buries that.
    fn releases(&mut self, by: u32, object: u32, kept: u64) -> bool {
        let Some(mut deed) = self.hand.take() else {
            return false;
        };
        deed.bury();
        if !comes_buried(kill_of(&self.graph, by), object, &deed) {
            return false;
        }
        if !allows(&self.graph, Entry::Gone { object, kept }) {
            return false;
        }
        self.graph.gone(by, object, deed, kept);
        true
    }
}

/// The writers that take memory.
impl Player {
    fn opens(&mut self, client: u32, file: u32, device: u32) -> Result<bool, AllocError> {
        let entry = Entry::Open {
            client,
            file,
            device,
            answer: Answer::Ok,
        };
        if !allows(&self.graph, entry) {
            return Ok(false);
        }
        self.graph.open(client, file, device)?;
        Ok(true)
    }

    fn refuses_open(&mut self, client: u32, file: u32, device: u32, errno: Errno) -> bool {
        let entry = Entry::Open {
            client,
            file,
            device,
            answer: Answer::Refused(errno),
        };
        allows(&self.graph, entry) && self.graph.refuse_open(client, file, device, errno)
    }

    fn enters(&mut self, client: u32, file: u32, request: Request) -> Result<bool, AllocError> {
        let entry = Entry::Enter {
            client,
            file,
            request,
            answer: Answer::Ok,
        };
        if !allows(&self.graph, entry) {
            return Ok(false);
        }
        self.graph.enter(client, file, request)?;
        Ok(true)
    }

    fn refuses_enter(&mut self, client: u32, file: u32, request: Request, errno: Errno) -> bool {
        let entry = Entry::Enter {
            client,
            file,
            request,
            answer: Answer::Refused(errno),
        };
        allows(&self.graph, entry) && self.graph.refuse_enter(client, file, request, errno)
    }
}

/// Entries by their kinds.
impl Player {
    /// The graph in which nothing has happened.
    pub fn new(alloc: Global) -> Result<Player, AllocError> {
        Ok(Player {
            graph: Graph::new(alloc, full_pools(alloc)?)?,
            hand: None,
        })
    }

    fn finishes_any(&mut self, client: u32, object: u32, kept: u64) -> bool {
        if self.hand.is_some() {
            self.finishes(client, object, kept)
        } else {
            self.finishes_husk(client, object)
        }
    }

    fn steps(
        &mut self,
        client: u32,
        word: Word,
        object: u32,
        found: Option<QpState>,
        answer: Answer,
    ) -> bool {
        match word {
            Word::Reserve => self.reserves(client),
            Word::Look => self.looks(client, object),
            Word::Make => self.makes(client, object),
            Word::Commit => self.commits(client, object),
            Word::Act => self.acts(client, object, found, answer),
            Word::Lock => self.locks(client, object),
            Word::Check => self.checks(client, object),
            Word::Finish => self.finishes_any(client, object, kept_in(answer)),
            Word::Abort => self.aborts(client),
            Word::Free => self.frees(client, object),
            Word::Exit => self.exits(client, answer),
        }
    }

    fn steps_or_refuses(
        &mut self,
        client: u32,
        word: Word,
        object: u32,
        found: Option<QpState>,
        answer: Answer,
    ) -> bool {
        match (word, answer.refusal()) {
            (Word::Exit, Some(_)) => self.exits(client, answer),
            (_, Some(errno)) => self.refuses(client, word, object, found, errno),
            (_, None) => self.steps(client, word, object, found, answer),
        }
    }

    /// Makes an entry. `by` is the actor that tears down what a kill or a release is about. False where the machine
    /// doesn't allow it, or where the deed that it needs isn't there.
    pub fn plays(&mut self, by: u32, entry: Entry) -> Result<bool, AllocError> {
        match entry {
            Entry::Open {
                client,
                file,
                device,
                answer,
            } => match answer.refusal() {
                None => self.opens(client, file, device),
                Some(errno) => Ok(self.refuses_open(client, file, device, errno)),
            },
            Entry::Enter {
                client,
                file,
                request,
                answer,
            } => match answer.refusal() {
                None => self.enters(client, file, request),
                Some(errno) => Ok(self.refuses_enter(client, file, request, errno)),
            },
            Entry::Step {
                client,
                word,
                object,
                found,
                answer,
            } => Ok(self.steps_or_refuses(client, word, object, found, answer)),
            Entry::Unplug { device } => Ok(self.unplugs(device)),
            Entry::Tear { file, by } => Ok(self.tears(file, by)),
            Entry::Kill { object } => Ok(self.kills(by, object)),
            Entry::Gone { object, kept } => Ok(self.releases(by, object, kept)),
            Entry::Dissociated { file } => Ok(self.dissociates(file)),
            Entry::Closed { file } => Ok(self.closes(file)),
        }
    }
}

fn kept_in(answer: Answer) -> u64 {
    match answer {
        Answer::Kept(kept) => kept,
        Answer::Ok
        | Answer::Made { .. }
        | Answer::State { .. }
        | Answer::Event
        | Answer::Refused(_) => 0,
    }
}

/// Whether a file in this phase is over: it was never opened, or is closed.
fn is_over(file: &File) -> bool
    ensures { result ≡ is_over file.now.phase }
{
    match file.phase {
        FilePhase::Fresh | FilePhase::Closed => true,
        FilePhase::Open | FilePhase::Tearing { .. } | FilePhase::Dissociated => false,
    }
}

fn are_over(files: &[File]) -> bool
    ensures { IsTrue result → (f : ℕ) → is_over (phase_in (slice_get files.now f)) ≡ true }
{
    files.iter().all(|file| is_over(file))
}

fn are_idle(calls: &[Option<InFlight>]) -> bool
    ensures { IsTrue result → (b : ℕ) → the_call (slice_get calls.now b) ≡ None }
{
    calls.iter().all(|slot| slot.is_none())
}

/// Whether no call is in flight.
fn is_idle(state: &State) -> bool
    ensures { IsTrue result → IsIdle state.now }
{
    are_idle(&state.calls)
}

/// Whether each file is over.
fn is_done(state: &State) -> bool
    ensures { IsTrue result → AreOver state.now }
{
    are_over(&state.files)
}

impl Player {
    /// The history and the pools, where all is over.
    pub fn ends(self) -> Option<(List<Entry>, List<Pool<PlainDeed>>)> {
        let Player { graph, hand } = self;
        let _ = hand;
        if is_idle(graph.log.state()) && is_done(graph.log.state()) {
            Some(graph.into_parts())
        } else {
            None
        }
    }
}
