//! The end of a guard: seat by seat, each place is joined to the deed of its cell, and then each cell is closed.

ghost use Rattle.std.specs.Prelude.{◌≡◌, ◌<◌, ℕ, [], length};
ghost use Rattle.uv_num.specs.Each.{Each};
ghost use Rattle.uv_guard.specs.Cells.{tables};
ghost use Rattle.uv_guard.specs.Seated.{cells_of, kepts, joined_with, all_joined, IsWide, IsOutside};
ghost use Rattle.uv_guard.specs.Closed.{IsAtRest, IsBalanced};

use crate::cell::Cell;
use crate::celled::Celled;
use crate::deed::GuardDeed;
use crate::seat::GuardSeat;

// Joins a seat, at each cell.
fn absorb_one<T: Celled>(cells: &Vec<Cell<T>>, deeds: &mut Vec<GuardDeed<T>>, seat: GuardSeat<T>)
    requires deeds { cells_of deeds.old.items ≡ tables cells.now.items }
    requires seat { IsOutside (tables cells.now.items) seat }
    ensures deeds { deeds.new.items ≡ joined_with deeds.old.items (kepts seat) }
    ensures wide { IsWide seat }
    ensures cells { cells_of deeds.new.items ≡ tables cells.now.items }
{
    let mut places = seat.into_places();
    while let Some(place) = places.pop() {
        let i = places.len();
        let cell = &cells[i];
        deeds[i].absorb(cell, place);
    }
    places.destroy_empty();
}

/// Joins these seats.
pub fn absorb_all<T: Celled>(
    cells: &Vec<Cell<T>>,
    deeds: &mut Vec<GuardDeed<T>>,
    mut seats: Vec<GuardSeat<T>>,
)
    requires deeds { cells_of deeds.old.items ≡ tables cells.now.items }
    requires seats { Each (IsOutside (tables cells.now.items)) seats.items }
    ensures deeds { deeds.new.items ≡ all_joined deeds.old.items seats.items }
    ensures wide { Each IsWide seats.items }
    ensures cells { cells_of deeds.new.items ≡ tables cells.now.items }
{
    while let Some(seat) = seats.pop() {
        absorb_one(cells, deeds, seat);
    }
    seats.destroy_empty();
}

/// Closes each cell.
pub fn end_all<T: Celled + Drop>(mut cells: Vec<Cell<T>>, mut deeds: Vec<GuardDeed<T>>)
    requires cells { cells_of deeds.items ≡ tables cells.items }
    requires rest { Each (λ d. IsAtRest d.stage) deeds.items }
    ensures { Each (IsBalanced T.goes_on) deeds.items }
{
    while let Some(cell) = cells.pop() {
        match deeds.pop() {
            Some(deed) => deed.close(cell),
            None => unreachable!(),
        }
    }
    cells.destroy_empty();
    deeds.destroy_empty();
}
