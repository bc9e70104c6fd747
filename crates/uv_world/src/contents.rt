//! The contents of all objects.

ghost use Rattle.std.specs.Prelude.{◌≡◌, ◌≤◌, ◌+◌, IfOk, None, Some, length, true};
ghost use Rattle.uv_num.specs.declared.limits.TheConstants.{CELLS};
ghost use Rattle.uv_num.specs.Ranges.{attrs_in_range};
ghost use Rattle.uv_machine.specs.declared.moves.Move.TheVariants as Move;
ghost use Rattle.uv_world.specs.Celled.{value_of_cell, value_of_slot, cells_changed};
ghost use Rattle.uv_world.specs.Holdings.{held_of, no_contents};
ghost use Rattle.uv_world.specs.Moving.{held_with_pending, held_planted, held_at, held_without, held_in_slot, held_with_slot, held_closed, held_moved, actions_in, bound_over, region_id, window_bound};
ghost use Rattle.uv_world.specs.Owing.{IsHoused, IsUnused, MoveFits, journals_owed, lists_owed, owes_journals, owes_lists};

use crate::cells::{Cell, empty_cells, empty_slots, plant, put_slot, take, take_slot};
use crate::changing::{bind, modify};
use crate::content::{Addressed, Belled, Bound, Connected, Content, Shared, Windowed};
use crate::naming::{
    address_named, pair_linked, region_named, ring_linked, shared_named, window_named,
};
use std::alloc::{AllocError, Global};
use uv_cq::Channel;
use uv_machine::{Move, Slot, Spot};
use uv_num::{ACTOR_PLACES, CELLS, FILES, Kind, List, NONE, QpAttrs, QpState, Stock};
use uv_qp::{QueueList, Which};
use uv_region::{Journal, Region};

/// The contents of all objects, and what those that were released have left. This project's own.
#[derive(Drop)]
pub struct Contents {
    pub regions: List<Cell<Region>>,
    pub windows: List<Cell<Windowed>>,
    pub rings: List<Cell<Belled>>,
    pub channels: List<Cell<Channel>>,
    pub shared: List<Cell<Shared>>,
    pub pairs: List<Cell<Connected>>,
    pub addresses: List<Cell<Addressed>>,
    /// By actor, what its create has made and not planted.
    pub pending: List<Option<Content>>,
    /// By actor, what its destroy has taken out of use.
    pub retiring: List<Option<Content>>,
    /// By file, what its teardown has taken out of use.
    pub killed: List<Option<Content>>,
    /// The journals of the regions that were released, in the order of the releases.
    pub journals: Stock<Journal>,
    /// The lists of the queues that were released, in the order of the releases; of a pair first its sends.
    pub queues: Stock<QueueList>,
}

/// The beginning.
impl Contents {
    /// The contents of a site at which nothing has happened.
    pub fn new(alloc: Global) -> Result<Contents, AllocError>
        ensures held { IfOk result (λ c. held_of c ≡ no_contents) }
        ensures housed { IfOk result IsHoused }
    {
        let contents = Contents::empty(alloc)?;
        Ok(contents)
    }

    /// Cells and slots that hold nothing.
    fn empty(alloc: Global) -> Result<Contents, AllocError>
        ensures { IfOk result (λ c. held_of c ≡ no_contents) }
    {
        Ok(Contents {
            regions: empty_cells(alloc, CELLS)?,
            windows: empty_cells(alloc, CELLS)?,
            rings: empty_cells(alloc, CELLS)?,
            channels: empty_cells(alloc, CELLS)?,
            shared: empty_cells(alloc, CELLS)?,
            pairs: empty_cells(alloc, CELLS)?,
            addresses: empty_cells(alloc, CELLS)?,
            pending: empty_slots(alloc, ACTOR_PLACES)?,
            retiring: empty_slots(alloc, ACTOR_PLACES)?,
            killed: empty_slots(alloc, FILES)?,
            journals: Stock::new(alloc),
            queues: Stock::new(alloc),
        })
    }
}

/// Creates.
impl Contents {
    /// Puts what a create has made into its actor's slot.
    pub fn bring(&mut self, actor: u32, content: Option<Content>)
        requires unused { IsUnused content }
        requires journals { journals_owed self.old + owes_journals content ≤ self.old.journals.room }
        requires lists { lists_owed self.old + owes_lists content ≤ self.old.queues.room }
        requires housed { IsHoused self.old }
        ensures held { held_of self.new ≡ held_with_pending (held_of self.old) actor content }
        ensures housed { IsHoused self.new }
    {
        put_slot(&mut self.pending, actor, content);
    }

    /// Plants a content, which gets its names and links.
    fn set(&mut self, spot: Spot, content: Content)
        requires unused { IsUnused (Some content) }
        requires journals { journals_owed self.old + owes_journals (Some content) ≤ self.old.journals.room }
        requires lists { lists_owed self.old + owes_lists (Some content) ≤ self.old.queues.room }
        requires housed { IsHoused self.old }
        ensures held { held_of self.new ≡ held_planted (held_of self.old) spot (Some content) }
        ensures housed { IsHoused self.new }
    {
        let (at, generation) = (spot.index, spot.generation);
        match content {
            Content::Channel(events) => plant(&mut self.channels, at, generation, events),
            Content::Cq(ring) => plant(&mut self.rings, at, generation, ring_linked(ring, spot)),
            Content::Qp(pair) => {
                if (at as usize) < self.pairs.len() {
                    plant(&mut self.pairs, at, generation, pair_linked(pair, spot));
                }
            }
            Content::Srq(queue) => plant(
                &mut self.shared,
                at,
                generation,
                shared_named(queue, spot),
            ),
            Content::Ah(ah) => plant(&mut self.addresses, at, generation, address_named(ah, spot)),
            Content::Mr(region) => plant(
                &mut self.regions,
                at,
                generation,
                region_named(region, spot),
            ),
            Content::Mw(window) => plant(
                &mut self.windows,
                at,
                generation,
                window_named(window, spot),
            ),
        }
    }

    /// Plants what an actor's create has made.
    fn plant(&mut self, actor: u32, spot: Spot)
        requires { IsHoused self.old }
        ensures held { held_of self.new ≡ held_moved (held_of self.old) (Move.Plants actor spot) }
        ensures housed { IsHoused self.new }
    {
        if let Some(content) = take_slot(&mut self.pending, actor) {
            self.set(spot, content);
        }
    }

    /// Lets go of what an actor's create has made.
    fn let_go(&mut self, actor: u32)
        requires { IsHoused self.old }
        ensures held { held_of self.new ≡ held_moved (held_of self.old) (Move.Drops actor) }
        ensures housed { IsHoused self.new }
    {
        put_slot(&mut self.pending, actor, None);
    }
}

/// Releases.
impl Contents {
    /// Takes an object's content out of its cell.
    fn take_out(&mut self, kind: Kind, index: u32) -> Option<Content>
        requires { IsHoused self.old }
        ensures content { result ≡ held_at (held_of self.old) index kind }
        ensures held { held_of self.new ≡ held_without (held_of self.old) index kind }
        ensures journals { journals_owed self.new + owes_journals result ≡ journals_owed self.old }
        ensures lists { lists_owed self.new + owes_lists result ≡ lists_owed self.old }
        ensures housed { IsHoused self.new }
        ensures journal_room { self.new.journals.room ≡ self.old.journals.room }
        ensures list_room { self.new.queues.room ≡ self.old.queues.room }
    {
        match kind {
            Kind::Pd => None,
            Kind::Channel => take(&mut self.channels, index).map(Content::Channel),
            Kind::Cq => take(&mut self.rings, index).map(Content::Cq),
            Kind::Qp => take(&mut self.pairs, index).map(Content::Qp),
            Kind::Srq => take(&mut self.shared, index).map(Content::Srq),
            Kind::Ah => take(&mut self.addresses, index).map(Content::Ah),
            Kind::Mr => take(&mut self.regions, index).map(Content::Mr),
            Kind::Mw => take(&mut self.windows, index).map(Content::Mw),
        }
    }

    /// Puts something, or nothing, where contents lie between being taken out of use and being closed.
    fn put_aside(&mut self, slot: Slot, content: Option<Content>)
        requires journals { journals_owed self.old + owes_journals content ≤ self.old.journals.room }
        requires lists { lists_owed self.old + owes_lists content ≤ self.old.queues.room }
        requires housed { IsHoused self.old }
        ensures held { held_of self.new ≡ held_with_slot (held_of self.old) slot content }
        ensures housed { IsHoused self.new }
    {
        match slot {
            Slot::OfCall(actor) => put_slot(&mut self.retiring, actor, content),
            Slot::OfTeardown(file) => put_slot(&mut self.killed, file, content),
        }
    }

    /// Takes from there what is about to be closed.
    fn take_aside(&mut self, slot: Slot) -> Option<Content>
        requires { IsHoused self.old }
        ensures content { result ≡ held_in_slot (held_of self.old) slot }
        ensures held { held_of self.new ≡ held_with_slot (held_of self.old) slot None }
        ensures journals { journals_owed self.new + owes_journals result ≡ journals_owed self.old }
        ensures lists { lists_owed self.new + owes_lists result ≡ lists_owed self.old }
        ensures housed { IsHoused self.new }
        ensures journal_room { self.new.journals.room ≡ self.old.journals.room }
        ensures list_room { self.new.queues.room ≡ self.old.queues.room }
    {
        match slot {
            Slot::OfCall(actor) => take_slot(&mut self.retiring, actor),
            Slot::OfTeardown(file) => take_slot(&mut self.killed, file),
        }
    }

    /// Takes an object's content out of use.
    fn retire(&mut self, slot: Slot, kind: Kind, index: u32)
        requires { IsHoused self.old }
        ensures held { held_of self.new ≡ held_moved (held_of self.old) (Move.Takes slot kind index) }
        ensures housed { IsHoused self.new }
    {
        let content = self.take_out(kind, index);
        self.put_aside(slot, content);
    }

    /// Puts down what a content leaves.
    fn close(&mut self, content: Content)
        requires journals { journals_owed self.old + owes_journals (Some content) ≤ self.old.journals.room }
        requires lists { lists_owed self.old + owes_lists (Some content) ≤ self.old.queues.room }
        requires housed { IsHoused self.old }
        ensures held { held_of self.new ≡ held_closed (held_of self.old) (Some content) }
        ensures housed { IsHoused self.new }
    {
        match content {
            Content::Qp(pair) => {
                let (sends, receives) = pair.qp.close();
                self.queues.put(sends);
                self.queues.put(receives);
            }
            Content::Srq(queue) => {
                let list = queue.posted.into_list(queue.object, Which::Shared);
                self.queues.put(list);
            }
            Content::Mr(region) => self.journals.put(region.close()),
            Content::Channel(_) | Content::Cq(_) | Content::Ah(_) | Content::Mw(_) => {}
        }
    }

    /// Closes what was taken out of use.
    fn bury(&mut self, slot: Slot)
        requires { IsHoused self.old }
        ensures held { held_of self.new ≡ held_moved (held_of self.old) (Move.Buries slot) }
        ensures housed { IsHoused self.new }
    {
        if let Some(content) = self.take_aside(slot) {
            self.close(content);
        }
    }

    /// How many actions stand in what is about to be closed.
    pub fn kept(&self, slot: Slot) -> u64
        ensures { result ≡ actions_in (held_in_slot (held_of self.now) slot) }
    {
        match slot {
            Slot::OfCall(actor) => kept_in(&self.retiring, actor),
            Slot::OfTeardown(file) => kept_in(&self.killed, file),
        }
    }
}

/// Acts, and entries as a whole.
impl Contents {
    /// Takes the pair in a cell to another state.
    fn modify(&mut self, index: u32, to: u64, attrs: QpAttrs)
        requires housed { IsHoused self.old }
        requires fits { attrs_in_range attrs ≡ true }
        ensures held { held_of self.new ≡ held_moved (held_of self.old) (Move.Modifies index to attrs) }
        ensures housed { IsHoused self.new }
    {
        if let Some(to) = QpState::from_number(to) {
            modify(&mut self.pairs, index, to, attrs);
        }
    }

    /// Carries out what an entry does. It takes no memory.
    pub fn carry(&mut self, step: Move)
        requires housed { IsHoused self.old }
        requires fits { MoveFits step }
        ensures held { held_of self.new ≡ held_moved (held_of self.old) step }
        ensures housed { IsHoused self.new }
    {
        match step {
            Move::Stays => {}
            Move::Plants { actor, spot } => self.plant(actor, spot),
            Move::Drops { actor } => self.let_go(actor),
            Move::Takes { slot, kind, index } => self.retire(slot, kind, index),
            Move::Buries { slot } => self.bury(slot),
            Move::Modifies { index, to, attrs } => self.modify(index, to, attrs),
            Move::Binds {
                window,
                region,
                offset,
                length,
                access,
            } => {
                let bound = Bound {
                    object: region_id(&self.regions, region),
                    region,
                    offset,
                    length,
                    access,
                };
                bind(&mut self.windows, window, Some(bound));
            }
            Move::Unbinds { window } => bind(&mut self.windows, window, None),
        }
    }
}

/// The id of the region in a cell.
pub(crate) fn region_id(regions: &List<Cell<Region>>, at: u32) -> u32
    ensures { result ≡ region_id (value_of_cell regions.now at) }
{
    match regions.get(at as usize) {
        None => NONE,
        Some(cell) => match &cell.value {
            None => NONE,
            Some(region) => region.object(),
        },
    }
}

fn kept_in(slots: &List<Option<Content>>, slot: u32) -> u64
    ensures { result ≡ actions_in (value_of_slot slots.now slot) }
{
    match slots.get(slot as usize) {
        Some(Some(Content::Mr(region))) => region.made(),
        Some(
            Some(
                Content::Channel(_)
                | Content::Cq(_)
                | Content::Qp(_)
                | Content::Srq(_)
                | Content::Ah(_)
                | Content::Mw(_),
            ),
        )
        | Some(None)
        | None => 0,
    }
}
