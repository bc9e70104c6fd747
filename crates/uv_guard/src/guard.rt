//! Cells side by side, with one seat for each thread and one deed for each cell.

ghost use Rattle.std.specs.Prelude.{◌≡◌, ◌<◌, ◌≤◌, ℕ, ◌+◌, [], ◌∷◌, ◌++◌, length, map, Some, None, slice_get, IfOk};
ghost use Rattle.atomic_table.specs.Seated.{TableId};
ghost use Rattle.uv_guard.specs.declared.view.Held.{Held};
ghost use Rattle.uv_guard.specs.declared.life.Stage.TheVariants.{Home, Planted, Doomed};
ghost use Rattle.uv_num.specs.Each.{Each};
ghost use Rattle.uv_num.specs.declared.limits.TheConstants.{CELLS};
ghost use Rattle.uv_order.specs.declared.signed.TheConstants.{SEATS};
ghost use Rattle.uv_guard.specs.Closed.{IsAtRest, AreBalanced};
ghost use Rattle.uv_guard.specs.Seated.{IsOutside, cells_of, finds, outside, witnessed, planted_with, doomed_deed, buried_deed, fresh_seats, fresh_deeds};
ghost use Rattle.uv_guard.specs.Words.{life_word};
ghost use Rattle.uv_guard.specs.Entries.{Enters};

use crate::cell::{Cell, Entering};
use crate::celled::Celled;
use crate::deed::GuardDeed;
use crate::ends::{absorb_all, end_all};
use crate::makes::{open_all, seat_all};
use crate::seat::GuardSeat;
use std::alloc::{AllocError, Global};
use std::marker::Model;
use std::sync::Wait;
use uv_num::List;

/// 64 cells, each with a value or none. Threads share it by `&`.
#[derive(Drop)]
pub struct Guard<T: Celled> {
    cells: Vec<Cell<T>>,
}

impl<T: Celled> Model for Guard<T> {
    ghost use Rattle.std.specs.Prelude.{List, ◌≡◌, map, length};
    ghost use Rattle.atomic_table.specs.Seated.{TableId};
    ghost use Rattle.uv_guard.specs.Cells.{tables};
    ghost use Rattle.uv_num.specs.declared.limits.TheConstants.{CELLS};

    ghost Value = { List TableId };

    ghost view = { λ g. tables g.cells.items };

    ghost invariant = { λ g. length (tables g.cells.items) ≡ CELLS };
}

impl<T: Celled> Guard<T> {
    /// A guard with so many seats, 1 to 32, numbered from 0. All cells are at generation 0. Nothing else takes memory.
    pub fn new(
        alloc: Global,
        seats: u32,
    ) -> Result<(Guard<T>, List<GuardSeat<T>>, List<GuardDeed<T>>), AllocError>
    where
        T: Drop,
        requires { (0 < seats) × (seats ≤ SEATS) }
        ensures { IfOk result (λ r. (length r.0 ≡ CELLS) × (r.1 ≡ fresh_seats r.0 0 seats) × (r.2 ≡ fresh_deeds seats r.0)) }
    {
        let (cells, mut deeds) = open_all(alloc)?;
        let seats = seat_all(alloc, &cells, &mut deeds, seats)?;
        Ok((
            Guard { cells },
            List::from_vec(seats),
            List::from_vec(deeds),
        ))
    }

    /// The life word of a cell: the bit of each seat that refers to it (0 to 31), LIVE (32), DYING (33) and the generation
    /// (34 to 63), at one moment of the call.
    pub fn look(&self, seat: &mut GuardSeat<T>, index: u32) -> u64
        requires guard { seat.old.guard ≡ self.now }
        requires index { index < CELLS }
        ensures { seat.new ≡ finds seat.old index (life_word result ∷ []) }
    {
        let i = index as usize;
        let cell = &self.cells[i];
        seat.places[i].look(cell)
    }

    /// Tries to enter a cell at a generation, and never waits. Where it enters, the seat has the value until it leaves.
    pub fn enter(&self, seat: &mut GuardSeat<T>, index: u32, generation: u32) -> Entering<T>
        requires guard { seat.old.guard ≡ self.now }
        requires index { index < CELLS }
        requires out { slice_get seat.old.held index ≡ Some None }
        ensures { Enters T.goes_on index generation seat.old result seat.new }
    {
        let i = index as usize;
        let cell = &self.cells[i];
        seat.places[i].enter(cell, generation)
    }

    /// Gives a value back to a cell that the seat is in. It has to go on from the one that the seat entered with.
    pub fn leave(&self, seat: &mut GuardSeat<T>, index: u32, value: T)
        requires guard { seat.old.guard ≡ self.now }
        requires index { index < CELLS }
        requires inside { (h : Held T) × (slice_get seat.old.held index ≡ Some (Some h)) × T.goes_on h.value value }
        ensures { seat.new ≡ outside seat.old index value }
    {
        let i = index as usize;
        let cell = &self.cells[i];
        seat.places[i].leave(cell, value);
    }

    /// Begins a life of the cell, with this value.
    pub fn plant(&self, deed: &mut GuardDeed<T>, value: T)
        requires guard { slice_get self.now deed.old.index ≡ Some deed.old.cell }
        requires home { deed.old.stage ≡ Home }
        ensures { deed.new ≡ planted_with deed.old value }
    {
        let i = deed.index() as usize;
        deed.plant(&self.cells[i], value);
    }

    /// From now on no seat enters the cell. One that is in it may still leave.
    pub fn doom(&self, deed: &mut GuardDeed<T>)
        requires guard { slice_get self.now deed.old.index ≡ Some deed.old.cell }
        requires planted { (p : T) × (deed.old.stage ≡ Planted p) }
        ensures { deed.new ≡ doomed_deed deed.old }
    {
        let i = deed.index() as usize;
        deed.doom(&self.cells[i]);
    }

    /// Waits until no seat refers to the cell, takes its value out and buries it: this generation is never entered again.
    pub fn retire<R: Wait>(&self, rt: &R, deed: &mut GuardDeed<T>) -> T
        requires guard { slice_get self.now deed.old.index ≡ Some deed.old.cell }
        requires doomed { (p : T) × (deed.old.stage ≡ Doomed p) }
        ensures deed { deed.new ≡ buried_deed deed.old result }
        ensures given { (p : T) → deed.old.stage ≡ Doomed p → T.goes_on p result }
        ensures identity { (p : T) → deed.old.stage ≡ Doomed p → T.identity result ≡ T.identity p }
    {
        let i = deed.index() as usize;
        deed.retire(rt, &self.cells[i])
    }

    /// Tells a seat all plantings and lives of a deed's cell, as the deed knows them now.
    pub fn witness(&self, seat: &mut GuardSeat<T>, deed: &mut GuardDeed<T>)
        requires seat { seat.old.guard ≡ self.now }
        requires deed { slice_get self.now deed.old.index ≡ Some deed.old.cell }
        ensures seat { seat.new ≡ witnessed seat.old deed.old.index deed.old }
        ensures deed { deed.new ≡ deed.old }
    {
        let i = deed.index() as usize;
        let cell = &self.cells[i];
        seat.places[i].witness(cell, deed);
    }

    /// Ends the guard, whose cells are all at rest and whose seats are in none of them. For each cell it tells one order of
    /// all takings: each seat's own, in order, are what the seat took, and those of each life lead from what was planted to
    /// what was given. The deeds stand in the order of their cells, the seats in any.
    pub fn close(self, seats: List<GuardSeat<T>>, deeds: List<GuardDeed<T>>)
    where
        T: Drop,
        requires seats { Each (IsOutside self) seats }
        requires deeds { cells_of deeds ≡ self }
        requires rest { Each (λ d. IsAtRest d.stage) deeds }
        ensures { AreBalanced T.goes_on seats deeds }
    {
        let Guard { cells } = self;
        let mut deeds = deeds.into_vec();
        absorb_all(&cells, &mut deeds, seats.into_vec());
        end_all(cells, deeds);
    }
}
