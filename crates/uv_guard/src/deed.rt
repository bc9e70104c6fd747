//! The deed of a cell, seen as a plain value.

ghost use Rattle.std.specs.Prelude.{◌≡◌, ◌<◌, ◌≤◌, ℕ, suc, [], ◌∷◌, ◌++◌, Some, None, true, false};
ghost use Rattle.uv_guard.specs.declared.life.Stage.TheVariants.{Home, Planted, Doomed};
ghost use Rattle.uv_guard.specs.Steps.{first_view, last};
ghost use Rattle.uv_num.specs.declared.limits.TheConstants.{CELLS};
ghost use Rattle.uv_order.specs.declared.signed.TheConstants.{SEATS};
ghost use Rattle.uv_guard.specs.Seated.{Deeded, deeded, is_spent, planted_with, doomed_deed, buried_deed, fresh_deed, fresh_place, add_kept, kept_by};
ghost use Rattle.uv_guard.specs.Closed.{IsAtRest, IsBalanced};

use crate::cell::{Cell, Chair};
use crate::celled::Celled;
use crate::place::Place;
use std::marker::Model;
use std::sync::Wait;
use uv_num::MOST_GENERATION;

/// The right to plant a cell, to doom it and to bury what it holds. It isn't a seat: it never takes the value of a life
/// that goes on.
#[derive(Drop)]
pub struct GuardDeed<T: Celled> {
    index: u32,
    generation: u32,
    spent: bool,
    pub(crate) chair: Chair<T>,
}

impl<T: Celled> Model for GuardDeed<T> {
    ghost use Rattle.uv_guard.specs.Seated.{Deeded, deeded, IsDeed};

    ghost Value = { Deeded T };

    ghost view = { λ d. deeded d.index d.chair };

    ghost invariant = { λ d. IsDeed d.index d.generation d.spent d.chair.me };
}

impl<T: Celled> GuardDeed<T> {
    /// The deed of a cell that was just made.
    pub(crate) fn of(index: u32, chair: Chair<T>) -> GuardDeed<T>
        requires { (index < CELLS) × (chair.me ≡ (first_view, [])) }
        ensures { result ≡ fresh_deed 0 (index, chair.table_id) }
    {
        GuardDeed {
            index,
            generation: 0,
            spent: false,
            chair,
        }
    }

    /// The index of the cell in its guard, below `CELLS`.
    pub fn index(&self) -> u32
        ensures index { result ≡ self.now.index }
        ensures within { result < CELLS }
    {
        self.index
    }

    /// How often the cell was buried: the generation of its life, or of the next one.
    pub fn generation(&self) -> u32
        ensures generation { result ≡ self.now.generation }
        ensures within { result ≤ last }
    {
        self.generation
    }

    /// Whether the cell was buried at its last generation.
    pub fn spent(&self) -> bool
        ensures { result ≡ is_spent self.now.stage }
    {
        self.spent
    }

    /// Makes the next seat at the cell.
    pub(crate) fn fork(&mut self, cell: &Cell<T>, number: u32) -> Place<T>
        requires cell { self.old.cell ≡ cell.now.table.shared.table_id }
        requires number { (self.old.seats ≡ number) × (number < SEATS) × (self.old.kept ≡ []) }
        ensures deed { self.new ≡ record self.old { seats = suc self.old.seats } }
        ensures place { result ≡ fresh_place number self.old.cell }
    {
        let chair = cell.fork(&mut self.chair);
        Place::of(number, chair)
    }

    pub(crate) fn plant(&mut self, cell: &Cell<T>, value: T)
        requires cell { self.old.cell ≡ cell.now.table.shared.table_id }
        requires home { self.old.stage ≡ Home }
        ensures { self.new ≡ planted_with self.old value }
    {
        cell.plant(&mut self.chair, value);
    }

    pub(crate) fn doom(&mut self, cell: &Cell<T>)
        requires cell { self.old.cell ≡ cell.now.table.shared.table_id }
        requires planted { (p : T) × (self.old.stage ≡ Planted p) }
        ensures { self.new ≡ doomed_deed self.old }
    {
        cell.doom(&mut self.chair);
    }

    pub(crate) fn retire<R: Wait>(&mut self, rt: &R, cell: &Cell<T>) -> T
        requires cell { self.old.cell ≡ cell.now.table.shared.table_id }
        requires doomed { (p : T) × (self.old.stage ≡ Doomed p) }
        ensures deed { self.new ≡ buried_deed self.old result }
        ensures given { (p : T) → self.old.stage ≡ Doomed p → T.goes_on p result }
    {
        let value = cell.retire(rt, &mut self.chair, self.generation);
        if self.generation == MOST_GENERATION {
            self.spent = true;
        } else {
            self.generation += 1;
        }
        value
    }

    /// Joins a seat that is out of the cell.
    pub(crate) fn absorb(&mut self, cell: &Cell<T>, place: Place<T>)
        requires cell { (self.old.cell ≡ cell.now.table.shared.table_id) × (place.cell ≡ cell.now.table.shared.table_id) }
        requires out { place.held ≡ None }
        ensures { self.new ≡ add_kept self.old (kept_by place) }
    {
        cell.absorb(&mut self.chair, place.into_chair());
    }

    /// Ends the cell, which tells what all the seats did that are joined to the deed.
    pub(crate) fn close(self, cell: Cell<T>)
    where
        T: Drop,
        requires cell { self.cell ≡ cell.table.shared.table_id }
        requires rest { IsAtRest self.stage }
        ensures { IsBalanced T.goes_on self }
    {
        let GuardDeed { chair, .. } = self;
        cell.close(chair);
    }
}
