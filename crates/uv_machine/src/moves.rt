//! What an entry does with contents.

ghost use Rattle.std.specs.Prelude.{◌≡◌, slice_get, option_map};
ghost use Rattle.uv_num.specs.Kind.{kind_place};
ghost use Rattle.uv_num.specs.Request.{role_of};
ghost use Rattle.uv_machine.specs.Effects.{refusal_in, generation_in};
ghost use Rattle.uv_machine.specs.States.{call_of};
ghost use Rattle.uv_machine.specs.Moves.{cell_held, cell_seen, no_links, ring_links, pair_links, links_made, spot_at, plant_move, make_move, take_found, bury_found, check_move, finish_move, kill_move, gone_move, modify_move, bind_move, unbind_move, act_move, role_move, move_unless, word_move, step_move, entry_move};

use crate::call::InFlight;
use crate::entry::{Answer, Entry, Word};
use crate::object::Object;
use crate::readers::Readers;
use crate::state::State;
use uv_num::{Act, Errno, Kind, QpAttrs, Role};

/// The cells that an object hands something on to. This project's own.
#[derive(Clone, Copy, Debug, PartialEq)]
pub struct Links {
    /// A pair's queue for completions of sends.
    pub send: Option<u32>,
    /// A pair's queue for completions of receives.
    pub receive: Option<u32>,
    /// A pair's shared receive queue.
    pub shared: Option<u32>,
    /// The channel that a completion queue tells.
    pub channel: Option<u32>,
}

/// Where a new object is planted, and the names that it gets. This project's own.
#[derive(Clone, Copy, Debug, PartialEq)]
pub struct Spot {
    /// Its cell among those of its kind.
    pub index: u32,
    /// The generation of that cell.
    pub generation: u32,
    /// Its id.
    pub object: u32,
    /// The id of what it uses first: its domain, where its kind has one.
    pub domain: u32,
    /// The device of its file.
    pub device: u32,
    pub links: Links,
}

/// Where contents lie between being taken out of use and being closed. This project's own.
#[derive(Clone, Copy, Debug, PartialEq)]
pub enum Slot {
    /// That of the destroy that this actor makes.
    OfCall(u32),
    /// That of the teardown of this file.
    OfTeardown(u32),
}

/// What an entry does with contents: with what an object holds besides its place in the graph. This project's own.
#[derive(Clone, Copy, Debug, PartialEq)]
pub enum Move {
    /// Nothing.
    Stays,
    /// What the actor's create has made is planted.
    Plants {
        actor: u32,
        spot: Spot,
    },
    /// What the actor's create has made and not planted is let go.
    Drops {
        actor: u32,
    },
    /// What stands in a cell is taken out of use.
    Takes {
        slot: Slot,
        kind: Kind,
        index: u32,
    },
    /// What was taken out of use is closed.
    Buries {
        slot: Slot,
    },
    /// The pair in a cell goes to another state, with these attributes.
    Modifies {
        index: u32,
        to: u64,
        attrs: QpAttrs,
    },
    /// The window in a cell is bound to a range of the region in another.
    Binds {
        window: u32,
        region: u32,
        offset: u64,
        length: u64,
        access: u64,
    },
    /// The window in a cell is bound to nothing.
    Unbinds {
        window: u32,
    },
}

/// What holds the machine's data and tells the generations of its cells too.
pub trait Generations: Readers {
    /// The generation of a cell of a kind.
    fn generation_of(&self, kind: Kind, index: u32) -> u32
        ensures { result ≡ generation_in index (slice_get (Self.state self.now).pools (kind_place kind)) };
}

impl Generations for State {
    fn generation_of(&self, kind: Kind, index: u32) -> u32 {
        self.pools[kind.place()].generation(index)
    }
}

fn cell_held(found: Option<Object>) -> Option<u32>
    ensures { result ≡ option_map cell_held found }
{
    match found {
        None => None,
        Some(x) => Some(x.index),
    }
}

fn cell_seen<V: Readers>(view: &V, place: usize, call: InFlight) -> Option<u32>
    ensures { result ≡ cell_seen (V.state view.now) place call }
{
    cell_held(view.object_with(call.looked_at(place)))
}

fn no_links() -> Links
    ensures { result ≡ no_links }
{
    Links {
        send: None,
        receive: None,
        shared: None,
        channel: None,
    }
}

fn ring_links<V: Readers>(view: &V, call: InFlight) -> Links
    ensures { result ≡ ring_links (V.state view.now) call }
{
    Links {
        send: None,
        receive: None,
        shared: None,
        channel: cell_seen(view, 0, call),
    }
}

fn pair_links<V: Readers>(view: &V, call: InFlight) -> Links
    ensures { result ≡ pair_links (V.state view.now) call }
{
    Links {
        send: cell_seen(view, 1, call),
        receive: cell_seen(view, 2, call),
        shared: cell_seen(view, 3, call),
        channel: None,
    }
}

fn links_made<V: Readers>(view: &V, call: InFlight, kind: Kind) -> Links
    ensures { result ≡ links_made (V.state view.now) call kind }
{
    match kind {
        Kind::Cq => ring_links(view, call),
        Kind::Qp => pair_links(view, call),
        Kind::Pd | Kind::Channel | Kind::Srq | Kind::Ah | Kind::Mr | Kind::Mw => no_links(),
    }
}

fn spot_at<V: Generations>(view: &V, call: InFlight, object: u32, kind: Kind, index: u32) -> Spot
    ensures { result ≡ spot_at (V.state view.now) call object kind index }
{
    Spot {
        index,
        generation: view.generation_of(kind, index),
        object,
        domain: call.looked_at(0),
        device: view.device_of(call.file),
        links: links_made(view, call, kind),
    }
}

fn plant_move<V: Generations>(
    view: &V,
    actor: u32,
    call: InFlight,
    object: u32,
    kind: Kind,
    cell: Option<u32>,
) -> Move
    ensures { result ≡ plant_move (V.state view.now) actor call object kind cell }
{
    match cell {
        None => Move::Stays,
        Some(index) => Move::Plants {
            actor,
            spot: spot_at(view, call, object, kind, index),
        },
    }
}

fn make_move<V: Generations>(view: &V, actor: u32, call: InFlight, object: u32, role: Role) -> Move
    ensures { result ≡ make_move (V.state view.now) actor call object role }
{
    match role {
        Role::Creates(kind) => { plant_move(view, actor, call, object, kind, view.home_cell(kind)) }
        Role::Destroys(_) | Role::Acts(_) => Move::Stays,
    }
}

fn take_found(slot: Slot, x: Object) -> Move
    ensures { result ≡ take_found slot x }
{
    if x.phase.is_live() {
        Move::Takes {
            slot,
            kind: x.kind,
            index: x.index,
        }
    } else {
        Move::Stays
    }
}

fn bury_found(slot: Slot, x: Object) -> Move
    ensures { result ≡ bury_found slot x }
{
    if x.phase.is_doomed() {
        Move::Buries { slot }
    } else {
        Move::Stays
    }
}

fn check_move(actor: u32, found: Option<Object>) -> Move
    ensures { result ≡ check_move actor found }
{
    match found {
        None => Move::Stays,
        Some(x) => take_found(Slot::OfCall(actor), x),
    }
}

fn finish_move(actor: u32, found: Option<Object>) -> Move
    ensures { result ≡ finish_move actor found }
{
    match found {
        None => Move::Stays,
        Some(x) => bury_found(Slot::OfCall(actor), x),
    }
}

fn kill_move(found: Option<Object>) -> Move
    ensures { result ≡ kill_move found }
{
    match found {
        None => Move::Stays,
        Some(x) => take_found(Slot::OfTeardown(x.file), x),
    }
}

fn gone_move(found: Option<Object>) -> Move
    ensures { result ≡ gone_move found }
{
    match found {
        None => Move::Stays,
        Some(x) => bury_found(Slot::OfTeardown(x.file), x),
    }
}

fn modify_move(cell: Option<u32>, to: u64, attrs: QpAttrs) -> Move
    ensures { result ≡ modify_move cell to attrs }
{
    match cell {
        None => Move::Stays,
        Some(index) => Move::Modifies { index, to, attrs },
    }
}

fn bind_move(
    window: Option<u32>,
    region: Option<u32>,
    offset: u64,
    length: u64,
    access: u64,
) -> Move
    ensures { result ≡ bind_move window region offset length access }
{
    match (window, region) {
        (None, None) | (None, Some(_)) | (Some(_), None) => Move::Stays,
        (Some(window), Some(region)) => Move::Binds {
            window,
            region,
            offset,
            length,
            access,
        },
    }
}

fn unbind_move(window: Option<u32>) -> Move
    ensures { result ≡ unbind_move window }
{
    match window {
        None => Move::Stays,
        Some(window) => Move::Unbinds { window },
    }
}

fn act_move<V: Readers>(view: &V, call: InFlight, act: Act) -> Move
    ensures { result ≡ act_move (V.state view.now) call act }
{
    match act {
        Act::Modify { to, attrs } => modify_move(cell_seen(view, 0, call), to, attrs),
        Act::Bind {
            offset,
            length,
            access,
        } => bind_move(
            cell_seen(view, 0, call),
            cell_seen(view, 1, call),
            offset,
            length,
            access,
        ),
        Act::Unbind { .. } => unbind_move(cell_seen(view, 0, call)),
        Act::Query | Act::Async => Move::Stays,
    }
}

fn role_move<V: Readers>(view: &V, call: InFlight, role: Role) -> Move
    ensures { result ≡ role_move (V.state view.now) call role }
{
    match role {
        Role::Acts(act) => act_move(view, call, act),
        Role::Creates(_) | Role::Destroys(_) => Move::Stays,
    }
}

fn move_unless(refusal: Option<Errno>, step: Move) -> Move
    ensures { result ≡ move_unless refusal step }
{
    match refusal {
        None => step,
        Some(_) => Move::Stays,
    }
}

fn word_move<V: Generations>(
    view: &V,
    actor: u32,
    call: InFlight,
    word: Word,
    object: u32,
    answer: Answer,
) -> Move
    ensures { result ≡ word_move (V.state view.now) actor call word object answer }
{
    let refusal = answer.refusal();
    match word {
        Word::Make => {
            let made = make_move(view, actor, call, object, call.request.role());
            move_unless(refusal, made)
        }
        Word::Act => move_unless(refusal, role_move(view, call, call.request.role())),
        Word::Check => move_unless(refusal, check_move(actor, view.object_with(object))),
        Word::Finish => move_unless(refusal, finish_move(actor, view.object_with(object))),
        Word::Exit => Move::Drops { actor },
        Word::Reserve | Word::Look | Word::Commit | Word::Lock | Word::Abort | Word::Free =>
            Move::Stays,
    }
}

fn step_move<V: Generations>(view: &V, actor: u32, word: Word, object: u32, answer: Answer) -> Move
    ensures { result ≡ step_move (V.state view.now) actor (call_of (V.state view.now) actor) word object answer }
{
    match view.call_of(actor) {
        None => Move::Stays,
        Some(call) => word_move(view, actor, call, word, object, answer),
    }
}

/// What an entry does with contents, in the state before it: of entries that may come next it says what they do, of
/// others what they would.
pub fn entry_move<V: Generations>(view: &V, entry: Entry) -> Move
    ensures { result ≡ entry_move (V.state view.now) entry }
{
    match entry {
        Entry::Step {
            client,
            word,
            object,
            found: _,
            answer,
        } => step_move(view, client, word, object, answer),
        Entry::Kill { object } => kill_move(view.object_with(object)),
        Entry::Gone { object, kept: _ } => gone_move(view.object_with(object)),
        Entry::Open { .. }
        | Entry::Enter { .. }
        | Entry::Unplug { .. }
        | Entry::Tear { .. }
        | Entry::Dissociated { .. }
        | Entry::Closed { .. } => Move::Stays,
    }
}

#[cfg(test)]
mod tests {
    use super::*;
    use std::test::Fail;
    use uv_num::{NONE, Request};

    fn step(word: Word, object: u32) -> Entry {
        Entry::Step {
            client: 1,
            word,
            object,
            found: None,
            answer: Answer::Ok,
        }
    }

    fn enter(file: u32, request: Request) -> Entry {
        Entry::Enter {
            client: 1,
            file,
            request,
            answer: Answer::Ok,
        }
    }

    #[test]
    fn a_ring_is_planted_beside_its_channel_and_taken_by_whoever_releases_it(
        rt: HostRuntime,
    ) -> Result<(), Fail> {
        let mut state = State::new(rt.alloc())?;
        state.apply(enter(3, Request::CreateChannel));
        state.apply(step(Word::Make, NONE));
        state.apply(enter(
            3,
            Request::CreateCq {
                depth: 4,
                channel: Some(0),
            },
        ));
        state.apply(step(Word::Look, 0));
        let spot = Spot {
            index: 0,
            generation: 0,
            object: 1,
            domain: 0,
            device: 0,
            links: Links {
                channel: Some(0),
                ..no_links()
            },
        };
        assert_eq!(rt;
            entry_move(&state, step(Word::Make, 1)),
            Move::Plants { actor: 1, spot }
        );
        state.apply(step(Word::Make, 1));
        assert_eq!(rt; entry_move(&state, Entry::Kill { object: 1 }), Move::Stays);
        state.apply(step(Word::Commit, 1));
        assert_eq!(rt;
            entry_move(&state, Entry::Kill { object: 1 }),
            Move::Takes {
                slot: Slot::OfTeardown(3),
                kind: Kind::Cq,
                index: 0
            }
        );
        state.apply(step(Word::Check, 1));
        assert_eq!(rt;
            entry_move(&state, step(Word::Finish, 1)),
            Move::Buries {
                slot: Slot::OfCall(1)
            }
        );
        assert_eq!(rt;
            entry_move(&state, step(Word::Exit, NONE)),
            Move::Drops { actor: 1 }
        );
        Ok(())
    }
}
