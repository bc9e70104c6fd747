//! The writers that hand deeds out and take them back. None takes memory.

ghost use Rattle.std.specs.Prelude.{◌≡◌, true, None, Some};
ghost use Rattle.uv_num.specs.Kind.{kind_place};
ghost use Rattle.uv_machine.specs.declared.entry.Entry.TheVariants as entry;
ghost use Rattle.uv_machine.specs.declared.entry.Word.TheVariants as word;
ghost use Rattle.uv_machine.specs.declared.entry.Answer.TheVariants as answer;
ghost use Rattle.uv_machine.specs.States.{object_with};
ghost use Rattle.uv_machine.specs.Histories.{Allowed, IsLegal, state_of};
ghost use Rattle.uv_graph.specs.Deeds.{out_for};
ghost use Rattle.uv_graph.specs.Conditions.{ComesPlanted};
ghost use Rattle.uv_graph.specs.Hands.{HandsNew, HandsPlanted, HandsKilled, ComesBuried, is_live_object};
ghost use Rattle.uv_graph.specs.Kept.{out_of, kill_of};
ghost use Rattle.uv_graph.specs.Notes.{NotesOut, NotesKill, HasNoOut};
ghost use Rattle.uv_graph.specs.Owns.{own_of, torn_by_object};
ghost use Rattle.uv_graph.specs.Seats.{seat_place};

use crate::graph::Graph;
use crate::identity::as_made;
use crate::out::Out;
use crate::slots;
use uv_machine::{Answer, Entry, Object, Readers, Word};
use uv_num::{CELLS, Ids, Kind};
use uv_pool::Deed;

/// What an actor has in its hands of an object's that used these when it was made.
fn out_for(x: Object, uses: Ids) -> Out
    ensures { result ≡ out_for uses x }
{
    Out {
        identity: as_made(x, uses),
        index: x.index,
        generation: x.generation,
    }
}

/// The place of a cell in a list over all kinds.
fn seat_place(kind: Kind, index: u32) -> usize
    ensures { result ≡ seat_place (kind_place kind) index }
{
    kind.place() * CELLS + index as usize
}

impl<D: Deed> Graph<D> {
    /// Makes the call's new object (`rdma_core.c`, alloc_uobj), and hands out the deed of its cell. The object's value is
    /// to be planted by it, and the deed given back by `planted`.
    pub fn make(&mut self, client: u32, object: u32) -> D
        requires allowed { Allowed (state_of self.old.history) (entry.Step client word.Make object None answer.Ok) }
        requires none { out_of self.old client ≡ None }
        ensures hands { HandsNew self.old self.new (entry.Step client word.Make object None answer.Ok) client object (D.facts result) }
        ensures legal { IsLegal self.new.history }
    {
        self.log.note(Entry::Step {
            client,
            word: Word::Make,
            object,
            found: None,
            answer: Answer::Ok,
        });
        let made = self.log.state().object_with(object);
        match made {
            None => unreachable!(),
            Some(x) => {
                slots::set_uses(&mut self.uses, seat_place(x.kind, x.index), x.uses);
                slots::set_out(&mut self.outs, client as usize, Some(out_for(x, x.uses)));
                match slots::draw(&mut self.pools, x.kind.place()) {
                    None => unreachable!(),
                    Some(deed) => deed,
                }
            }
        }
    }

    /// Takes the deed back that `make` handed out, now planted for the call's object. It makes no entry.
    pub fn planted(&mut self, client: u32, deed: D)
        requires { ComesPlanted (own_of self.old client) (D.facts deed) }
        ensures same { HasNoOut self.old self.new client }
        ensures legal { IsLegal self.new.history }
    {
        slots::set_out(&mut self.outs, client as usize, None);
        let place = seat_place(deed.kind(), deed.index());
        slots::put(&mut self.held, place, Some(deed));
    }

    /// Takes a live object of the call out of use, and hands out its deed. Its value is to be buried by it, and the deed
    /// given back by `finish`.
    pub fn check(&mut self, client: u32, object: u32) -> D
        requires allowed { Allowed (state_of self.old.history) (entry.Step client word.Check object None answer.Ok) }
        requires live { is_live_object (object_with (state_of self.old.history) object) ≡ true }
        requires none { out_of self.old client ≡ None }
        ensures hands { HandsPlanted self.old self.new (entry.Step client word.Check object None answer.Ok) client object (D.facts result) }
        ensures legal { IsLegal self.new.history }
    {
        let found = self.log.state().object_with(object);
        self.log.note(Entry::Step {
            client,
            word: Word::Check,
            object,
            found: None,
            answer: Answer::Ok,
        });
        match found {
            None => unreachable!(),
            Some(x) => {
                let place = seat_place(x.kind, x.index);
                let uses = slots::uses_at(&self.uses, place);
                slots::set_out(&mut self.outs, client as usize, Some(out_for(x, uses)));
                match slots::take(&mut self.held, place) {
                    None => unreachable!(),
                    Some(deed) => deed,
                }
            }
        }
    }

    /// Takes the object and its handle away (`rdma_core.c`, uverbs_destroy_uobject), and the deed back that `check` handed
    /// out. So many actions stand in what the object leaves.
    pub fn finish(&mut self, client: u32, object: u32, deed: D, kept: u64)
        requires allowed { Allowed (state_of self.old.history) (entry.Step client word.Finish object None (answer.Kept kept)) }
        requires buried { ComesBuried (own_of self.old client).out (own_of self.old client).out_lives object (D.facts deed) }
        ensures notes { NotesOut self.old self.new (entry.Step client word.Finish object None (answer.Kept kept)) client None }
        ensures legal { IsLegal self.new.history }
    {
        self.log.note(Entry::Step {
            client,
            word: Word::Finish,
            object,
            found: None,
            answer: Answer::Kept(kept),
        });
        slots::set_out(&mut self.outs, client as usize, None);
        let place = deed.kind().place();
        slots::put(&mut self.held, seat_place(deed.kind(), deed.index()), None);
        slots::bring_home(&mut self.pools, place, deed);
    }

    /// Takes an object out of use as its file is torn down, and hands out its deed. Its value is to be buried by it, and the
    /// deed given back by `gone`.
    pub fn kill(&mut self, by: u32, object: u32) -> D
        requires allowed { Allowed (state_of self.old.history) (entry.Kill object) }
        requires torn { torn_by_object (state_of self.old.history) by (object_with (state_of self.old.history) object) ≡ true }
        requires none { kill_of self.old by ≡ None }
        ensures hands { HandsKilled self.old self.new (entry.Kill object) by object (D.facts result) }
        ensures legal { IsLegal self.new.history }
    {
        let found = self.log.state().object_with(object);
        self.log.note(Entry::Kill { object });
        match found {
            None => unreachable!(),
            Some(x) => {
                let place = seat_place(x.kind, x.index);
                let uses = slots::uses_at(&self.uses, place);
                slots::set_out(&mut self.kills, by as usize, Some(out_for(x, uses)));
                match slots::take(&mut self.held, place) {
                    None => unreachable!(),
                    Some(deed) => deed,
                }
            }
        }
    }

    /// Notes that a teardown has released an object, and takes the deed back that `kill` handed out. So many actions stand
    /// in what the object leaves.
    pub fn gone(&mut self, by: u32, object: u32, deed: D, kept: u64)
        requires allowed { Allowed (state_of self.old.history) (entry.Gone object kept) }
        requires buried { ComesBuried (own_of self.old by).kill (own_of self.old by).kill_lives object (D.facts deed) }
        ensures notes { NotesKill self.old self.new (entry.Gone object kept) by None }
        ensures legal { IsLegal self.new.history }
    {
        self.log.note(Entry::Gone { object, kept });
        slots::set_out(&mut self.kills, by as usize, None);
        let place = deed.kind().place();
        slots::put(&mut self.held, seat_place(deed.kind(), deed.index()), None);
        slots::bring_home(&mut self.pools, place, deed);
    }
}
