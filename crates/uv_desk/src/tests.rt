//! What no clause says: that calls succeed with ample memory, and that threads come to their end.
ghost use Rattle.std.specs.Prelude.{◌≡◌, ℕ, ◌<◌, ◌≤◌, length, slice_index_or};
ghost use Rattle.uv_num.specs.Each.{Each};
ghost use Rattle.uv_order.specs.declared.signed.TheConstants.{SEATS};
ghost use Rattle.uv_desk.specs.declared.counter.Added.{Added};
ghost use Rattle.uv_desk.specs.Counting.{CanAdd};
ghost use Rattle.uv_desk.specs.Seats.{Placed, IsAll};
ghost use Rattle.uv_desk.specs.Laws.{place};

use crate::{
    Added, Counter, Desk, DeskSeat, Machine, any_order_is_all, close_counter, new_are_all,
    places_are_all,
};
use std::alloc::Global;
use std::mem;
use std::process::Abort;
use std::sync::Wait;
use std::thread::{Threads, for_each_mut};

/// Adds so often, and sees that the sums rise.
fn add<R: Wait + Abort>(rt: &R, desk: &Desk<Counter>, seat: &mut DeskSeat<Counter>, turns: u32)
    requires { CanAdd desk.now seat.old }
    ensures { place seat.new ≡ place seat.old }
{
    let mut last = 0;
    for _ in 0..turns {
        let sum = desk.turn(rt, seat, ()).expect(rt, "memory");
        assert!(rt; last < sum, "the sums rise");
        last = sum;
    }
}

/// Adds with a thread for each seat.
fn race<R: Threads + Wait + Abort + Sync>(
    rt: &R,
    desk: &Desk<Counter>,
    seats: &mut [DeskSeat<Counter>],
    turns: u32,
)
    requires { Each (CanAdd desk.now) seats.old }
    ensures len { length seats.new ≡ length seats.old }
    ensures places { (i : ℕ) (d : Placed Added ℕ) → i < length seats.old → place (slice_index_or seats.new i d) ≡ place (slice_index_or seats.old i d) }
{
    for_each_mut(
        rt,
        seats,
        32,
        &|_, seat: &mut DeskSeat<Counter>|
            requires { CanAdd desk.now seat.now }
            ensures { place seat.exit.now ≡ place seat.entry.now }
        { add(rt, desk, seat, turns) },
    );
}

/// A counter's desk with so many seats.
fn opened<R: Abort>(rt: &R, alloc: Global, seats: u32) -> (Desk<Counter>, Vec<DeskSeat<Counter>>)
    requires { (0 < seats) × (seats ≤ SEATS) }
    ensures all { IsAll result.0 result.1.items }
    ensures add { Each (CanAdd result.0) result.1.items }
{
    new_are_all::<Added, u64>();
    Desk::new(alloc, Counter::new(alloc), seats).expect(rt, "memory")
}

/// Adds with a thread for each seat of the desk.
fn race_all<R: Threads + Wait + Abort + Sync>(
    rt: &R,
    desk: &Desk<Counter>,
    seats: &mut Vec<DeskSeat<Counter>>,
    turns: u32,
)
    requires all { IsAll desk.now seats.old.items }
    requires add { Each (CanAdd desk.now) seats.old.items }
    ensures { IsAll desk.now seats.new.items }
{
    places_are_all::<Added, u64>();
    race(rt, desk, seats.as_mut_slice(), turns);
}

/// Another order, in which the seats are still all.
fn reverse(desk: &Desk<Counter>, seats: &mut Vec<DeskSeat<Counter>>)
    requires { IsAll desk.now seats.old.items }
    ensures { IsAll desk.now seats.new.items }
{
    any_order_is_all::<Added, u64>();
    let _table = desk;
    let all = seats.as_mut_slice();
    all.reverse();
}

/// What so many threads add, with so many turns each.
fn count<R: Threads + Wait + Abort + Sync>(rt: &R, alloc: Global, seats: u32, turns: u32) -> usize
    requires { (0 < seats) × (seats ≤ SEATS) }
{
    let (desk, mut seats) = opened(rt, alloc, seats);
    race_all(rt, &desk, &mut seats, turns);
    reverse(&desk, &mut seats);
    close_counter(desk, seats).sum()
}

#[test]
fn threads_add_up_and_close_in_another_order(rt: HostRuntime) {
    for (seats, turns) in [(2, 1_000), (4, 10_000), (32, 50)] {
        assert_eq!(rt;
            count(&rt, rt.alloc(), seats, turns),
            seats as usize * turns as usize
        );
    }
}

#[test]
fn the_sums_of_one_seat_are_one_and_two(rt: HostRuntime) {
    let (desk, mut seats) = Desk::new(rt.alloc(), Counter::new(rt.alloc()), 1).expect(
        &rt, "memory",
    );
    let mut seat = seats.pop().expect(&rt, "a seat");
    assert_eq!(rt; desk.turn(&rt, &mut seat, ()), Some(1));
    assert_eq!(rt; desk.turn(&rt, &mut seat, ()), Some(2));
}

/// What a turn hands out.
#[derive(Drop)]
struct Deed {
    index: u32,
}

/// Has room for one deed.
#[derive(Drop)]
struct Shelf {
    deed: Option<Deed>,
}

impl Machine for Shelf {
    ghost use Rattle.std.specs.Prelude.{[], None};

    type Input = Option<Deed>;

    type Output = Option<Deed>;

    type Entry = ();

    type Own = ();

    ghost history = { λ shelf. [] };

    ghost own = { λ shelf seat. tt };

    ghost names = { λ entry. None };

    ghost may = { λ own input. Unit {0} };

    ghost answers = { λ history seat before input output made behind. Unit {0} };

    fn apply(&mut self, _seat: u32, deed: Option<Deed>) -> Option<Deed> {
        mem::replace(&mut self.deed, deed)
    }
}

#[test]
fn a_turn_hands_a_deed_out(rt: HostRuntime) {
    let shelf = Shelf {
        deed: Some(Deed { index: 7 }),
    };
    let (desk, mut seats) = Desk::new(rt.alloc(), shelf, 1).expect(&rt, "memory");
    let mut seat = seats.pop().expect(&rt, "a seat");
    let deed = desk.turn(&rt, &mut seat, None).expect(&rt, "a deed");
    assert_eq!(rt; deed.index, 7);
    assert!(rt; desk.turn(&rt, &mut seat, Some(deed)).is_none());
    assert!(rt; desk.turn(&rt, &mut seat, None).is_some());
}
