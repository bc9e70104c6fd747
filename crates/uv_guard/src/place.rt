//! A seat at one cell, seen as a plain value.

ghost use Rattle.std.specs.Prelude.{◌≡◌, ◌<◌, [], ◌∷◌, ◌++◌, Some, None};
ghost use Rattle.uv_guard.specs.declared.view.Held.{Held};
ghost use Rattle.uv_guard.specs.Steps.{seat_view, taking};
ghost use Rattle.uv_guard.specs.Words.{life_word};
ghost use Rattle.uv_guard.specs.Calls.{IsOut};
ghost use Rattle.uv_order.specs.declared.signed.TheConstants.{SEATS};
ghost use Rattle.uv_guard.specs.Seated.{placed, fresh_place};
ghost use Rattle.uv_guard.specs.Entries.{PlaceEnters};

use crate::cell::{Cell, Chair, Entering};
use crate::celled::Celled;
use crate::deed::GuardDeed;
use std::marker::Model;

#[derive(Drop)]
pub struct Place<T: Celled> {
    number: u32,
    chair: Chair<T>,
}

impl<T: Celled> Model for Place<T> {
    ghost use Rattle.uv_guard.specs.Seated.{PlacedSeat, placed, IsPlaced};

    ghost Value = { PlacedSeat T };

    ghost view = { λ p. placed p.chair };

    ghost invariant = { λ p. IsPlaced p.number p.chair.me };
}

impl<T: Celled> Place<T> {
    /// The place of a seat that was just made.
    pub(crate) fn of(number: u32, chair: Chair<T>) -> Place<T>
        requires { (number < SEATS) × (chair.me ≡ (seat_view number, [])) }
        ensures { result ≡ fresh_place number chair.table_id }
    {
        Place { number, chair }
    }

    pub(crate) fn into_chair(self) -> Chair<T>
        requires { self.held ≡ None }
        ensures { (placed result ≡ self) × IsOut result.me.0.number result.me }
    {
        let Place { number: _, chair } = self;
        chair
    }

    pub(crate) fn look(&mut self, cell: &Cell<T>) -> u64
        requires cell { self.old.cell ≡ cell.now.table.shared.table_id }
        ensures { self.new ≡ record self.old { found = life_word result ∷ [] } }
    {
        cell.look(&mut self.chair)
    }

    pub(crate) fn enter(&mut self, cell: &Cell<T>, generation: u32) -> Entering<T>
        requires cell { self.old.cell ≡ cell.now.table.shared.table_id }
        requires out { self.old.held ≡ None }
        ensures { PlaceEnters T.goes_on generation self.old result self.new }
    {
        cell.enter(self.number, &mut self.chair, generation)
    }

    pub(crate) fn leave(&mut self, cell: &Cell<T>, value: T)
        requires cell { self.old.cell ≡ cell.now.table.shared.table_id }
        requires inside { (h : Held T) × (self.old.held ≡ Some h) × T.goes_on h.value value }
        ensures { (h : Held T) → self.old.held ≡ Some h → self.new ≡ record self.old { held = None; took = self.old.took ++ taking h value ∷ [] } }
    {
        cell.leave(self.number, &mut self.chair, value);
    }

    pub(crate) fn witness(&mut self, cell: &Cell<T>, deed: &mut GuardDeed<T>)
        requires cell { (self.old.cell ≡ cell.now.table.shared.table_id) × (deed.old.cell ≡ cell.now.table.shared.table_id) }
        ensures place { self.new ≡ record self.old { met = record { plants = deed.old.plants; lives = deed.old.lives } } }
        ensures deed { deed.new ≡ deed.old }
    {
        cell.witness(&mut self.chair, &mut deed.chair);
    }
}
