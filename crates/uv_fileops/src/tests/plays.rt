//! Calls on a graph of plain deeds, played step by step.

ghost use Rattle.std.specs.Prelude.{◌≡◌, ◌↔◌, IsTrue, None, Some};
ghost use Rattle.uv_machine.specs.declared.entry.Entry.TheVariants as entries;
ghost use Rattle.uv_machine.specs.declared.entry.Word.TheVariants as words;
ghost use Rattle.uv_machine.specs.Plans.{next_word};
ghost use Rattle.uv_machine.specs.Steps.{next_of};
ghost use Rattle.uv_machine.specs.Histories.{Allowed, state_of};
ghost use Rattle.uv_graph.specs.Conditions.{ComesPlanted, IsClient, IsReady, IsTouching, is_act, act_finds, role_finds, touches, role_touches};
ghost use Rattle.uv_graph.specs.Owns.{own_of};
ghost use Rattle.uv_graph.specs.Kept.{out_of};

use crate::{act, enter, step};
use std::alloc::{AllocError, Global};
use uv_graph::{Graph, Progress};
use uv_machine::{Answer, CallStep, InFlight, Readers, Word};
use uv_num::{Act, Errno, Kind, NONE, QpState, Request, Role};
use uv_pool::Deed;
use uv_pool::plain::{PlainDeed, full_pools};

/// What a step of a call that acts came to.
#[derive(Clone, Copy, Debug, PartialEq)]
pub enum Saw {
    Went(Word),
    Refused(Word, Errno),
    Touch(Kind, u32, u32),
    Ended(Answer),
    /// A deed was handed out, which no call that acts does.
    Deed,
}

/// A graph in which nothing has happened.
pub fn new_graph(alloc: Global) -> Result<Graph<PlainDeed>, AllocError> {
    Graph::new(alloc, full_pools(alloc)?)
}

fn have_same_object(a: CallStep, b: CallStep) -> bool
    ensures { IsTrue result ↔ ((a.word ≡ b.word) × (a.object ≡ b.object)) }
{
    a.word == b.word && a.object == b.object
}

fn have_same_answer(a: CallStep, b: CallStep) -> bool
    ensures { IsTrue result ↔ ((a.found ≡ b.found) × (a.answer ≡ b.answer)) }
{
    a.found == b.found && a.answer == b.answer
}

fn are_same(a: CallStep, b: CallStep) -> bool
    ensures { IsTrue result ↔ (a ≡ b) }
{
    have_same_object(a, b) && have_same_answer(a, b)
}

/// Whether this is the step that the client's call makes next.
fn is_next(graph: &Graph<PlainDeed>, client: u32, done: CallStep) -> bool
    ensures { IsTrue result → next_of (state_of graph.now.history) client None 0 ≡ Some done }
{
    match graph.next_step(client, None) {
        None => false,
        Some(next) => are_same(next, done),
    }
}

/// Whether this is the step that the client's call makes next, and the call has no deed out.
fn goes(graph: &Graph<PlainDeed>, client: u32, word: Word, object: u32, answer: Answer) -> bool
    requires { IsClient client }
    ensures allowed { IsTrue result → Allowed (state_of graph.now.history) (entries.Step client word object None answer) }
    ensures none { IsTrue result → out_of graph.now client ≡ None }
{
    let done = CallStep {
        word,
        object,
        found: None,
        answer,
    };
    is_next(graph, client, done) && graph.out_of(client).is_none()
}

fn reserves(graph: &mut Graph<PlainDeed>, client: u32) -> bool
    requires { IsClient client }
{
    if !goes(graph, client, Word::Reserve, NONE, Answer::Ok) {
        return false;
    }
    graph.reserve(client);
    true
}

fn looks(graph: &mut Graph<PlainDeed>, client: u32, object: u32) -> bool
    requires { IsClient client }
{
    if !goes(graph, client, Word::Look, object, Answer::Ok) {
        return false;
    }
    graph.look(client, object);
    true
}

/// Whether the call is about to commit its new object.
fn is_committing(call: InFlight) -> bool
    ensures { IsTrue result → next_word call ≡ words.Commit }
{
    match call.next_word() {
        Word::Commit => true,
        Word::Reserve
        | Word::Look
        | Word::Make
        | Word::Act
        | Word::Lock
        | Word::Check
        | Word::Finish
        | Word::Abort
        | Word::Free
        | Word::Exit => false,
    }
}

/// Whether the deed that the client's call has out is planted for the call's new object.
fn comes_planted(graph: &Graph<PlainDeed>, client: u32, deed: &PlainDeed) -> bool
    ensures { IsTrue result → ComesPlanted (own_of graph.now client) (⟦<PlainDeed as Deed>⟧.facts deed.now) }
{
    let Some(call) = graph.call_of(client) else {
        return false;
    };
    match graph.out_of(client) {
        None => false,
        Some(out) => is_committing(call)
            && deed.is_planted_for(out.identity, out.index, out.generation),
    }
}

/// Makes an object, and plants the deed of its cell at once.
fn makes(graph: &mut Graph<PlainDeed>, client: u32, object: u32) -> bool
    requires { IsClient client }
{
    if !goes(graph, client, Word::Make, object, Answer::Ok) {
        return false;
    }
    let deed = graph.make(client, object);
    plants(graph, client, deed)
}

fn plants(graph: &mut Graph<PlainDeed>, client: u32, deed: PlainDeed) -> bool {
    let mut deed = deed;
    if let Some(out) = graph.out_of(client) {
        if deed.plant(out.identity).is_err() {
            return false;
        }
    }
    if !comes_planted(graph, client, &deed) {
        return false;
    }
    graph.planted(client, deed);
    true
}

fn commits(graph: &mut Graph<PlainDeed>, client: u32, object: u32) -> bool
    requires { IsClient client }
{
    if !goes(graph, client, Word::Commit, object, Answer::Ok) {
        return false;
    }
    graph.commit(client, object);
    true
}

fn frees(graph: &mut Graph<PlainDeed>, client: u32, object: u32) -> bool
    requires { IsClient client }
{
    if !goes(graph, client, Word::Free, object, Answer::Ok) {
        return false;
    }
    graph.free(client, object);
    true
}

fn exits(graph: &mut Graph<PlainDeed>, client: u32, answer: Answer) -> bool
    requires { IsClient client }
{
    if !goes(graph, client, Word::Exit, NONE, answer) {
        return false;
    }
    graph.exit(client, answer);
    true
}

/// Makes the next step of a create that meets no refusal.
fn creates(graph: &mut Graph<PlainDeed>, client: u32) -> bool
    requires { IsClient client }
{
    let Some(done) = graph.next_step(client, None) else {
        return false;
    };
    match done.word {
        Word::Reserve => reserves(graph, client),
        Word::Look => looks(graph, client, done.object),
        Word::Make => makes(graph, client, done.object),
        Word::Commit => commits(graph, client, done.object),
        Word::Free => frees(graph, client, done.object),
        Word::Exit => exits(graph, client, done.answer),
        Word::Act | Word::Lock | Word::Check | Word::Finish | Word::Abort => false,
    }
}

/// Client 1 asks for something on file 0.
pub fn asks(
    graph: &mut Graph<PlainDeed>,
    alloc: Global,
    request: Request,
) -> Option<Result<(), Errno>> {
    if graph.call_of(1).is_some() {
        return None;
    }
    Some(enter(graph, alloc, 1, 0, &request))
}

/// Client 1 makes an object of file 0.
pub fn is_created(graph: &mut Graph<PlainDeed>, alloc: Global, request: Request) -> bool {
    if asks(graph, alloc, request) != Some(Ok(())) {
        return false;
    }
    for _turn in 0..16 {
        if graph.call_of(1).is_none() {
            return true;
        }
        if !creates(graph, 1) {
            return false;
        }
    }
    false
}

fn is_act(role: Role) -> bool
    ensures { result ≡ is_act role }
{
    match role {
        Role::Creates(_) | Role::Destroys(_) => false,
        Role::Acts(_) => true,
    }
}

fn touches(what: Act) -> bool
    ensures { result ≡ touches what }
{
    match what {
        Act::Modify { .. } | Act::Query | Act::Bind { .. } | Act::Unbind { .. } => true,
        Act::Async => false,
    }
}

fn role_touches(role: Role) -> bool
    ensures { result ≡ role_touches role }
{
    match role {
        Role::Creates(_) | Role::Destroys(_) => false,
        Role::Acts(what) => touches(what),
    }
}

fn act_finds(what: Act) -> bool
    ensures { result ≡ act_finds what }
{
    match what {
        Act::Modify { .. } | Act::Query => true,
        Act::Bind { .. } | Act::Unbind { .. } | Act::Async => false,
    }
}

fn role_finds(role: Role) -> bool
    ensures { result ≡ role_finds role }
{
    match role {
        Role::Creates(_) | Role::Destroys(_) => false,
        Role::Acts(what) => act_finds(what),
    }
}

fn is_ready(graph: &Graph<PlainDeed>, client: u32) -> bool
    requires { IsClient client }
    ensures { IsTrue result → IsReady is_act (own_of graph.now client) }
{
    match graph.call_of(client) {
        None => false,
        Some(call) => graph.out_of(client).is_none() && is_act(call.request.role()),
    }
}

fn is_touching(graph: &Graph<PlainDeed>, client: u32, found: Option<QpState>) -> bool
    requires { IsClient client }
    ensures { IsTrue result → IsTouching (own_of graph.now client) found }
{
    match graph.call_of(client) {
        None => false,
        Some(call) => graph.out_of(client).is_none()
            && call.next_word() == Word::Act
            && role_touches(call.request.role())
            && found.is_some() == role_finds(call.request.role()),
    }
}

/// Client 1 makes the next step of a call that acts.
pub fn goes_on(graph: &mut Graph<PlainDeed>) -> Option<Saw> {
    if !is_ready(graph, 1) {
        return None;
    }
    Some(match step(graph, 1) {
        Progress::Went(word) => Saw::Went(word),
        Progress::Refused(word, errno) => Saw::Refused(word, errno),
        Progress::Touch {
            kind,
            index,
            generation,
        } => Saw::Touch(kind, index, generation),
        Progress::Ended(answer) => Saw::Ended(answer),
        Progress::Plant { .. } | Progress::Retire { .. } => Saw::Deed,
    })
}

/// Client 1 acts on the cell that its step told.
pub fn acts(graph: &mut Graph<PlainDeed>, found: Option<QpState>) -> Option<Answer> {
    if !is_touching(graph, 1, found) {
        return None;
    }
    Some(act(graph, 1, found))
}

/// A device is pulled.
pub fn unplugs(graph: &mut Graph<PlainDeed>) -> bool {
    if graph.is_unplugged(0) {
        return false;
    }
    graph.unplug(0);
    true
}
