//! A desk, and its calls.
ghost use Rattle.std.specs.Prelude.{◌≡◌, ℕ, ◌<◌, ◌≤◌, IfOk};
ghost use Rattle.uv_num.specs.Prefix.{IsPrefix};
ghost use Rattle.uv_order.specs.declared.signed.TheConstants.{SEATS};
ghost use Rattle.uv_order.specs.Seen.{longer, Quiet};
ghost use Rattle.uv_order.specs.Names.{AreNamed, NameNobody};
ghost use Rattle.uv_desk.specs.Seats.{all_fresh, IsAll};
ghost use Rattle.uv_desk.specs.Answers.{MayMeet, Answer};
ghost use Rattle.uv_desk.specs.Fits.{Fits};

use crate::closing::{draw, gather};
use crate::machine::Machine;
use crate::opening::{Laid, fork_all, open};
use crate::seat::DeskSeat;
use crate::turning::{meet_at, turn_at};
use std::alloc::{AllocError, Global};
use std::marker::Model;
use std::sync::Wait;

/// A machine behind a turn lock. Threads share it by reference, each with a seat of its own.
#[derive(Drop)]
pub struct Desk<M: Machine> {
    table: Laid<M>,
}

impl<M: Machine> Model for Desk<M> {
    ghost use Rattle.atomic_table.specs.Seated.{TableId};
    ghost use Rattle.uv_desk.specs.Seats.{IsSized};

    ghost Value = { TableId };

    ghost view = { λ d. d.table.shared.table_id };

    ghost invariant = { λ d. IsSized d.table.shared.table_id };
}

impl<M: Machine> Desk<M> {
    /// A desk with this machine and so many seats, 1 to `SEATS`, numbered from 0 in the order of the list. What
    /// stands in the machine's history is nobody's, so it names no seat. The only error is want of memory.
    pub fn new(
        alloc: Global,
        machine: M,
        count: u32,
    ) -> Result<(Desk<M>, Vec<DeskSeat<M>>), AllocError>
    where
        M: Drop,
        requires count { (0 < count) × (count ≤ SEATS) }
        requires unnamed { NameNobody M.names (M.history machine) }
        ensures { IfOk result (λ r. r.1.items ≡ all_fresh r.0 count (M.history machine) (M.own machine)) }
    {
        let seats = Vec::with_capacity(alloc, count as usize)?;
        let (table, mut chair) = open(alloc, machine)?;
        let mut seats = fork_all(&table.shared, &mut chair, count, seats);
        seats.insert(0, DeskSeat { number: 0, chair })?;
        Ok((Desk { table }, seats))
    }

    /// One turn. It waits for the turns of those that came first, and answers what the machine answers at its place
    /// of the history. The seat has then seen that history, and knows its own part after it.
    pub fn turn<R: Wait>(&self, rt: &R, seat: &mut DeskSeat<M>, input: M::Input) -> M::Output
        requires desk { seat.old.desk ≡ self.now }
        requires may { MayMeet M.may seat.old.own input }
        ensures seat { seat.new ≡ record seat.old { seen = seat.new.seen; own = seat.new.own } }
        ensures answer { Answer M.answers M.names seat.old.number seat.old.seen seat.old.own input result seat.new.seen seat.new.own }
    {
        turn_at(&self.table.shared, rt, seat.number, &mut seat.chair, input)
    }

    /// The seat has then seen all that both had seen. It takes no turn, and waits for nobody.
    pub fn meet(&self, seat: &mut DeskSeat<M>, other: &mut DeskSeat<M>)
        requires desk { (seat.old.desk ≡ self.now) × (other.old.desk ≡ self.now) }
        ensures seat { seat.new ≡ record seat.old { seen = longer seat.old.seen other.old.seen } }
        ensures other { other.new ≡ other.old }
        ensures added { Quiet seat.old.number seat.new.seen seat.old.seen × IsPrefix other.old.seen seat.new.seen × AreNamed M.names seat.new.seen }
    {
        meet_at(&self.table.shared, &mut seat.chair, &mut other.chair);
    }

    /// Ends the desk, and gives the machine. It asks for all seats, in whichever order.
    pub fn close(self, mut seats: Vec<DeskSeat<M>>) -> M
        requires { IsAll self seats.items }
        ensures { Fits (M.history result) (M.own result) M.names seats.items }
    {
        let Desk { table } = self;
        let DeskSeat {
            number: _,
            mut chair,
        } = draw(&mut seats, 0);
        gather(&table.shared, &mut chair, seats);
        let mut closed = table.close_with(chair);
        let slot = closed.take(0);
        closed.free();
        match slot {
            Some(machine) => machine,
            None => unreachable!(),
        }
    }
}
