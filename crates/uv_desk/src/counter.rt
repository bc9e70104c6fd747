//! The smallest machine: a counter that notes who added. It is the page's example, and what the tests run.
ghost use Rattle.std.specs.Prelude.{◌≡◌, [], length};
ghost use Rattle.uv_desk.specs.Seats.{IsAll};
ghost use Rattle.uv_desk.specs.Counting.{AreCounted};

use crate::desk::Desk;
use crate::machine::Machine;
use crate::seat::DeskSeat;
use std::alloc::Global;
use std::marker::Model;

/// One was added, by this seat.
#[derive(Drop)]
pub struct Added {
    pub seat: u64,
}

/// Counts what its seats add. Contracts see the list of its entries.
#[derive(Drop)]
pub struct Counter {
    entries: Vec<Added>,
}

impl Model for Counter {
    ghost use Rattle.std.specs.Prelude.{List};
    ghost use Rattle.uv_desk.specs.declared.counter.Added.{Added};

    ghost Value = { List Added };

    ghost view = { λ c. c.entries.items };
}

impl Counter {
    /// A counter to which nothing was added.
    pub fn new(alloc: Global) -> Self
        ensures { result ≡ [] }
    {
        Counter {
            entries: Vec::new(alloc),
        }
    }

    /// How much was added.
    pub fn sum(&self) -> usize
        ensures { result ≡ length self.now }
    {
        self.entries.len()
    }
}

impl Machine for Counter {
    ghost use Rattle.uv_desk.specs.Counting.{adder, added_by, counts};

    type Input = ();

    type Output = Option<u64>;

    type Entry = Added;

    /// How often the seat added.
    type Own = u64;

    ghost history = { λ c. c };

    ghost own = { added_by };

    ghost names = { adder };

    ghost may = { λ own input. Unit {0} };

    ghost answers = { counts };

    /// Adds one, and answers the sum. None: out of memory, and nothing was added.
    fn apply(&mut self, seat: u32, _input: ()) -> Option<u64> {
        if self.entries.reserve(1).is_err() {
            return None;
        }
        self.entries.push_reserved(Added {
            seat: u64::from(seat),
        });
        Some(self.entries.len() as u64)
    }
}

/// Ends a counter's desk: of each seat the counter has as many entries as the seat knows.
#[tactic(auto, using(crate::proofs::Counted::are_counted))]
pub fn close_counter(desk: Desk<Counter>, seats: Vec<DeskSeat<Counter>>) -> Counter
    requires { IsAll desk seats.items }
    ensures { AreCounted result seats.items }
{
    desk.close(seats)
}
