//! Making a desk and its seats.
ghost use Rattle.std.specs.Prelude.{◌≡◌, ℕ, ◌+◌, ◌-◌, ◌<◌, ◌≤◌, [], IfOk, vec_len, vec_capacity};
ghost use Rattle.uv_order.specs.declared.signed.TheConstants.{SEATS};
ghost use Rattle.uv_order.specs.Names.{NameNobody};
ghost use Rattle.uv_desk.specs.Seats.{IsSized, IsSame, IsOpen, fresh, freshes};

use crate::machine::Machine;
use crate::plays::{Board, Chair, Further, InTurn};
use crate::seat::DeskSeat;
use crate::view::View;
use atomic_table::Table;
use std::alloc::{AllocError, Global};
use std::snapshot::Snapshot;
use uv_order::log_laws;

/// A desk's table with its memory.
pub type Laid<M: Machine> = Table<
    Option<M>,
    View<M, M::Entry, M::Own>,
    Snapshot<M>,
    InTurn<M>,
    Global,
>;

/// The table, with the machine in its slot, and the first seat.
pub fn open<M: Machine + Drop>(alloc: Global, machine: M) -> Result<(Laid<M>, Chair<M>), AllocError>
    requires unnamed { NameNobody M.names (M.history machine) }
    ensures { IfOk result (λ r. IsSized r.0.shared.table_id × (r.1.table_id ≡ r.0.shared.table_id) × (r.0.shared.key.value ≡ machine) × IsOpen M.history M.own machine 1 r.1.me) }
{
    log_laws::<M::Entry>();
    let about = Snapshot::of(&machine);
    let mut slots = Vec::with_capacity(alloc, 1)?;
    slots.push_reserved(Some(machine));
    match Table::new(alloc, &[0, 0], slots, &about) {
        Ok(laid) => Ok(laid),
        Err(_) => Err(AllocError),
    }
}

/// Makes the seat of this number.
fn fork<M: Machine>(board: &Board<M>, first: &mut Chair<M>, number: u32) -> DeskSeat<M>
    requires desk { IsSized board.now.table_id × (first.old.table_id ≡ board.now.table_id) }
    requires made { IsOpen M.history M.own board.now.key.value number first.old.me }
    requires room { number < SEATS }
    ensures same { IsSame first.old first.new }
    ensures made { IsOpen M.history M.own board.now.key.value (number + 1) first.new.me }
    ensures seat { result ≡ fresh board.now.table_id number 0 (M.history board.now.key.value) (M.own board.now.key.value) }
{
    log_laws::<M::Entry>();
    let chair = board.split_seat::<Further<M>>(first);
    DeskSeat { number, chair }
}

/// Makes all seats but the first, in order.
pub fn fork_all<M: Machine>(
    board: &Board<M>,
    first: &mut Chair<M>,
    count: u32,
    mut seats: Vec<DeskSeat<M>>,
) -> Vec<DeskSeat<M>>
    requires desk { IsSized board.now.table_id × (first.old.table_id ≡ board.now.table_id) }
    requires made { IsOpen M.history M.own board.now.key.value 1 first.old.me }
    requires count { (0 < count) × (count ≤ SEATS) }
    requires seats { (seats.items ≡ []) × (vec_len seats ≡ 0) × (count ≤ vec_capacity seats) }
    ensures same { IsSame first.old first.new }
    ensures made { IsOpen M.history M.own board.now.key.value count first.new.me }
    ensures seats { (result.items ≡ freshes board.now.table_id 1 (count - 1) (M.history board.now.key.value) (M.own board.now.key.value)) × (vec_len result < vec_capacity result) }
{
    let mut k = 1;
    while k < count {
        let seat = fork(board, first, k);
        seats.push_reserved(seat);
        k += 1;
    }
    seats
}
