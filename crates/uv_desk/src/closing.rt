//! Joining all seats to the first, so that it speaks for the whole desk.
ghost use Rattle.std.specs.Prelude.{◌≡◌, ℕ, ◌+◌, ◌∷◌, ◌++◌, length, map};
ghost use Rattle.uv_desk.specs.Seats.{IsSized, IsSame, IsFirst, kept_by, HasNumber, AreAllFrom};
ghost use Rattle.uv_desk.specs.Views.{with_kept};
ghost use Rattle.uv_desk.specs.Gathering.{IsPlaceOf, Drawn, Gathered};

use crate::machine::Machine;
use crate::plays::{Board, Chair, Whole};
use crate::seat::DeskSeat;

/// Where the seat of this number stands in the list.
fn place_of<M: Machine>(seats: &[DeskSeat<M>], number: usize) -> usize
    requires { HasNumber number seats.now }
    ensures { IsPlaceOf number seats.now result }
{
    for at in 0..seats.len() {
        let seat = &seats[at];
        if seat.number as usize == number {
            return at;
        }
    }
    unreachable!()
}

/// Takes the seat of this number out of the list.
pub fn draw<M: Machine>(seats: &mut Vec<DeskSeat<M>>, number: usize) -> DeskSeat<M>
    requires { HasNumber number seats.old.items }
    ensures { Drawn number seats.old.items result seats.new.items }
{
    let at = place_of(seats.as_slice(), number);
    seats.remove(at)
}

/// Joins a seat to the first.
fn absorb<M: Machine>(board: &Board<M>, first: &mut Chair<M>, seat: DeskSeat<M>)
    requires desk { IsSized board.now.table_id × (first.old.table_id ≡ board.now.table_id) × (seat.desk ≡ board.now.table_id) }
    requires first { IsFirst (seat.number + 1) first.old.me }
    ensures same { IsSame first.old first.new }
    ensures kept { first.new.me ≡ (with_kept first.old.me.0 (kept_by seat) seat.number, first.old.me.1) }
{
    let DeskSeat { number: _, chair } = seat;
    board.join_seat::<Whole>(first, chair);
}

/// Joins all others to the first, the greatest number first.
pub fn gather<M: Machine>(board: &Board<M>, first: &mut Chair<M>, mut seats: Vec<DeskSeat<M>>)
    requires desk { IsSized board.now.table_id × (first.old.table_id ≡ board.now.table_id) }
    requires first { IsFirst (length seats.items + 1) first.old.me }
    requires seats { AreAllFrom board.now.table_id 1 seats.items }
    ensures same { IsSame first.old first.new }
    ensures all { Gathered board.now.table_id first.old.me seats.items first.new.me }
{
    while !seats.is_empty() {
        let last = seats.len();
        let seat = draw(&mut seats, last);
        absorb(board, first, seat);
    }
    seats.destroy_empty();
}
