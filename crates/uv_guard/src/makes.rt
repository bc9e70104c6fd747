//! The making of a guard: the cells with their deeds, and then seat by seat a place at each of them.

ghost use Rattle.std.specs.Prelude.{◌≡◌, ◌<◌, ◌≤◌, ℕ, suc, [], length, IfOk, vec_len, vec_capacity};
ghost use Rattle.uv_guard.specs.Cells.{tables};
ghost use Rattle.uv_num.specs.declared.limits.TheConstants.{CELLS};
ghost use Rattle.uv_order.specs.declared.signed.TheConstants.{SEATS};
ghost use Rattle.uv_guard.specs.Seated.{fresh_seat, fresh_seats, fresh_deeds};

use crate::cell::Cell;
use crate::celled::Celled;
use crate::deed::GuardDeed;
use crate::place::Place;
use crate::seat::GuardSeat;
use std::alloc::{AllocError, Global};
use uv_num::CELLS;

const COUNT: u32 = CELLS as u32;

/// The cells, with their deeds.
pub fn open_all<T: Celled + Drop>(
    alloc: Global,
) -> Result<(Vec<Cell<T>>, Vec<GuardDeed<T>>), AllocError>
    ensures { IfOk result (λ r. (length r.0.items ≡ CELLS) × (r.1.items ≡ fresh_deeds 0 (tables r.0.items))) }
{
    let mut cells = Vec::with_capacity(alloc, CELLS)?;
    let mut deeds = Vec::with_capacity(alloc, CELLS)?;
    let mut i = 0;
    while i < COUNT {
        let (cell, chair) = Cell::open(alloc)?;
        cells.push_reserved(cell);
        deeds.push_reserved(GuardDeed::of(i, chair));
        i += 1;
    }
    Ok((cells, deeds))
}

// The seat of this number, with a place at each cell.
fn seat_at<T: Celled>(
    cells: &Vec<Cell<T>>,
    deeds: &mut Vec<GuardDeed<T>>,
    number: u32,
    mut places: Vec<Place<T>>,
) -> GuardSeat<T>
    requires number { number < SEATS }
    requires cells { length (tables cells.now.items) ≡ CELLS }
    requires deeds { deeds.old.items ≡ fresh_deeds number (tables cells.now.items) }
    requires places { (places.items ≡ []) × (vec_len places ≡ 0) × (64 ≤ vec_capacity places) }
    ensures deeds { deeds.new.items ≡ fresh_deeds (suc number) (tables cells.now.items) }
    ensures seat { result ≡ fresh_seat (tables cells.now.items) number }
{
    let mut i = 0;
    while i < CELLS {
        let cell = &cells[i];
        let place = deeds[i].fork(cell, number);
        places.push_reserved(place);
        i += 1;
    }
    GuardSeat::of(number, places)
}

/// So many seats at these cells, whose deeds made none before.
pub fn seat_all<T: Celled + Drop>(
    alloc: Global,
    cells: &Vec<Cell<T>>,
    deeds: &mut Vec<GuardDeed<T>>,
    count: u32,
) -> Result<Vec<GuardSeat<T>>, AllocError>
    requires count { count ≤ SEATS }
    requires cells { length (tables cells.now.items) ≡ CELLS }
    requires deeds { deeds.old.items ≡ fresh_deeds 0 (tables cells.now.items) }
    ensures { IfOk result (λ s. (s.items ≡ fresh_seats (tables cells.now.items) 0 count) × (deeds.new.items ≡ fresh_deeds count (tables cells.now.items))) }
{
    let mut seats = Vec::with_capacity(alloc, 32)?;
    let mut n = 0;
    while n < count {
        let places = Vec::with_capacity(alloc, CELLS)?;
        let seat = seat_at(cells, deeds, n, places);
        seats.push_reserved(seat);
        n += 1;
    }
    Ok(seats)
}
