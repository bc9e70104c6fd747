//! What no clause says: that calls succeed with ample memory, which words they find, and that threads come to their end.
ghost use Rattle.std.specs.Prelude.{◌≡◌, ◌<◌, ◌≤◌, ℕ, length, slice_index_or};
ghost use Rattle.std.specs.Thread.{IsSync};
ghost use Rattle.uv_num.specs.Each.{Each};
ghost use Rattle.uv_order.specs.declared.signed.TheConstants.{SEATS};
ghost use Rattle.uv_guard.specs.declared.register.Register.{Register};
ghost use Rattle.uv_guard.specs.Closed.{IsAtRest};
ghost use Rattle.uv_guard.specs.Seated.{Seated};
ghost use Rattle.uv_guard.specs.Laws.{IsFree, IsReady, IsLiving};

use crate::{Entering, Guard, GuardDeed, GuardSeat, Register, add, fresh_laws};
use std::alloc::Global;
use std::process::Abort;
use std::sync::Wait;
use std::thread;
use std::thread::{Threads, for_each_mut, join};

/// Plants a register.
fn begin(guard: &Guard<Register>, deed: &mut GuardDeed<Register>, value: u64)
    requires { IsReady guard.now deed.old }
    ensures living { IsLiving guard.now deed.new }
    ensures cell { deed.new.cell ≡ deed.old.cell }
{
    guard.plant(deed, Register { name: 1, value });
}

/// Retires a register, and tells its value.
fn finish<R: Wait>(rt: &R, guard: &Guard<Register>, deed: &mut GuardDeed<Register>) -> u64
    requires { IsLiving guard.now deed.old }
    ensures { (deed.new.cell ≡ deed.old.cell) × IsAtRest deed.new.stage }
{
    guard.doom(deed);
    guard.retire(rt, deed).value
}

/// Adds so often, or until the cell is dead, and tells how often it added.
fn add_often<R: Wait>(
    rt: &R,
    guard: &Guard<Register>,
    seat: &mut GuardSeat<Register>,
    most: u64,
) -> u64
    requires { IsFree guard.now seat.old }
    ensures { IsFree guard.now seat.new }
{
    fresh_laws::<Register>();
    let mut added = 0;
    for _ in rt.forever() {
        if added >= most {
            return added;
        }
        match add(guard, seat, 0, 0) {
            Entering::Entered(_) => added += 1,
            Entering::Dead(_) => return added,
            Entering::Taken(_) => thread::yield_now(),
        }
    }
    unreachable!()
}

/// Adds with a thread for each seat.
fn race<R: Threads + Wait + Sync>(
    rt: &R,
    guard: &Guard<Register>,
    seats: &mut [GuardSeat<Register>],
    times: u64,
)
    requires { Each (IsFree guard.now) seats.old }
    ensures len { length seats.new ≡ length seats.old }
    ensures free { (i : ℕ) (d : Seated Register) → i < length seats.old → IsFree guard.now (slice_index_or seats.new i d) }
{
    for_each_mut(
        rt,
        seats,
        32,
        &|_, seat: &mut GuardSeat<Register>|
            requires { IsFree guard.now seat.now }
            ensures { IsFree guard.entry.now seat.exit.now }
        {
            add_often(rt, guard, seat, times);
        },
    );
}

/// Adds with a thread for each seat, and gives the seats back in the other order.
fn race_back<R: Threads + Wait + Sync>(
    rt: &R,
    guard: &Guard<Register>,
    seats: &mut [GuardSeat<Register>],
    times: u64,
)
    requires { Each (IsFree guard.now) seats.old }
    ensures len { length seats.new ≡ length seats.old }
    ensures free { Each (IsFree guard.now) seats.new }
{
    race(rt, guard, seats, times);
    seats.reverse();
}

/// A life of a cell, in which each seat adds so often to 7.
fn live<R: Threads + Wait + Sync>(
    rt: &R,
    guard: &Guard<Register>,
    seats: &mut [GuardSeat<Register>],
    deed: &mut GuardDeed<Register>,
    times: u64,
) -> u64
    requires seats { Each (IsFree guard.now) seats.old }
    requires deed { IsReady guard.now deed.old }
    ensures len { length seats.new ≡ length seats.old }
    ensures seats { Each (IsFree guard.now) seats.new }
    ensures deed { (deed.new.cell ≡ deed.old.cell) × IsAtRest deed.new.stage }
{
    begin(guard, deed, 7);
    race_back(rt, guard, seats, times);
    finish(rt, guard, deed)
}

/// What is in a cell at its end to which so many threads added so often.
fn count<R: Threads + Wait + Abort + Sync>(rt: &R, alloc: Global, threads: u32, times: u64) -> u64
    requires { (0 < threads) × (threads ≤ SEATS) }
{
    fresh_laws::<Register>();
    let (guard, mut seats, mut deeds) = Guard::new(alloc, threads).expect(rt, "memory");
    let value = live(rt, &guard, seats.as_mut_slice(), deeds.item_mut(0), times);
    guard.close(seats, deeds);
    value
}

#[test]
fn threads_add_up_and_close_in_another_order(rt: HostRuntime) {
    for (threads, times, sum) in [(2, 1_000, 2_007), (4, 1_000, 4_007), (32, 50, 1_607)] {
        assert_eq!(rt; count(&rt, rt.alloc(), threads, times), sum);
    }
}

/// A guard of two seats, and the deeds of its first cell and its last one.
fn opened<R: Abort>(
    rt: &R,
    alloc: Global,
) -> (
    Guard<Register>,
    GuardSeat<Register>,
    GuardSeat<Register>,
    GuardDeed<Register>,
    GuardDeed<Register>,
)
    ensures seats { IsFree result.0 result.1 × IsFree result.0 result.2 }
    ensures deeds { IsReady result.0 result.3 × IsReady result.0 result.4 }
{
    fresh_laws::<Register>();
    let (guard, mut seats, mut deeds) = Guard::new(alloc, 2).expect(rt, "memory");
    let second = seats.remove(1);
    let first = seats.remove(0);
    let deed = deeds.remove(0);
    let last = deeds.remove(62);
    (guard, first, second, deed, last)
}

/// The second seat tries while the first one is in the cell.
fn meet<R: Abort>(
    rt: &R,
    guard: &Guard<Register>,
    first: &mut GuardSeat<Register>,
    second: &mut GuardSeat<Register>,
)
    requires { IsFree guard.now first.old × IsFree guard.now second.old }
    ensures { IsFree guard.now second.new }
{
    fresh_laws::<Register>();
    let Entering::Entered(register) = guard.enter(first, 0, 0) else {
        panic!(rt; "nobody is in the cell")
    };
    let Entering::Taken(turn) = add(guard, second, 0, 0) else {
        panic!(rt; "the first seat is in the cell")
    };
    assert_eq!(rt; turn, 1);
    guard.leave(first, 0, register);
}

/// Whether the first cell answers with the word of a cell at generation 1 to which no seat refers.
fn is_over(guard: &Guard<Register>, seat: &mut GuardSeat<Register>) -> bool
    requires { IsFree guard.now seat.old }
{
    fresh_laws::<Register>();
    match add(guard, seat, 0, 0) {
        Entering::Dead(life) => life == 17_179_869_184,
        _ => false,
    }
}

#[test]
fn a_taken_cell_answers_taken_and_a_retired_one_dead(rt: HostRuntime) {
    let (guard, mut first, mut second, mut deed, _last) = opened(&rt, rt.alloc());
    begin(&guard, &mut deed, 7);
    meet(&rt, &guard, &mut first, &mut second);
    assert_eq!(rt; finish(&rt, &guard, &mut deed), 7);
    assert!(rt; is_over(&guard, &mut second), "the life is over");
}

/// The life word of the first cell.
fn life_of(guard: &Guard<Register>, seat: &mut GuardSeat<Register>) -> u64
    requires { IsFree guard.now seat.old }
    ensures { IsFree guard.now seat.new }
{
    guard.look(seat, 0)
}

#[test]
fn the_life_word_tells_live_dying_and_the_generation(rt: HostRuntime) {
    let (guard, mut seat, _second, mut deed, _last) = opened(&rt, rt.alloc());
    assert_eq!(rt; life_of(&guard, &mut seat), 0);
    begin(&guard, &mut deed, 7);
    assert_eq!(rt; life_of(&guard, &mut seat), 4_294_967_296);
    guard.doom(&mut deed);
    assert_eq!(rt; life_of(&guard, &mut seat), 12_884_901_888);
    assert_eq!(rt; guard.retire(&rt, &mut deed).value, 7);
    assert_eq!(rt; life_of(&guard, &mut seat), 17_179_869_184);
    guard.witness(&mut seat, &mut deed);
    assert_eq!(rt; (seat.number(), deed.index(), deed.generation()), (0, 0, 1));
    assert!(rt; !deed.spent(), "the cell may be planted again");
}

/// Adds 1,000 times, or until the cell is dead.
fn add_own<R: Wait>(
    rt: &R,
    guard: &Guard<Register>,
    mut seat: GuardSeat<Register>,
) -> (u64, GuardSeat<Register>)
    requires { IsFree guard.now seat }
    ensures { IsFree guard.now result.1 }
{
    let added = add_often(rt, guard, &mut seat, 1_000);
    (added, seat)
}

/// Adds with a thread for each seat, and gives the seats back.
fn add_both<R: Threads + Wait + Sync>(
    rt: &R,
    guard: &Guard<Register>,
    first: GuardSeat<Register>,
    second: GuardSeat<Register>,
) -> (u64, GuardSeat<Register>, GuardSeat<Register>)
    requires { IsFree guard.now first × IsFree guard.now second }
    ensures { IsFree guard.now result.1 × IsFree guard.now result.2 }
{
    let ((a, first), (b, second)) = join(
        rt,
        || add_own(rt, guard, first),
        || add_own(rt, guard, second),
    );
    (a.saturating_add(b), first, second)
}

/// Retires a register, after so many pauses.
fn end<R: Wait>(rt: &R, guard: &Guard<Register>, mut deed: GuardDeed<Register>, pauses: u32) -> u64
    requires { IsLiving guard.now deed }
{
    for _ in 0..pauses {
        thread::yield_now();
    }
    finish(rt, guard, &mut deed)
}

/// How often two threads added, with their seats, and what a third one retired.
fn retire_amid<R: Threads + Wait + Sync>(
    rt: &R,
    guard: &Guard<Register>,
    first: GuardSeat<Register>,
    second: GuardSeat<Register>,
    deed: GuardDeed<Register>,
    pauses: u32,
) -> ((u64, GuardSeat<Register>, GuardSeat<Register>), u64)
    requires seats { IsFree guard.now first × IsFree guard.now second }
    requires deed { IsLiving guard.now deed }
    ensures { IsFree guard.now result.0.1 × IsFree guard.now result.0.2 }
{
    join(
        rt,
        || -> (u64, GuardSeat<Register>, GuardSeat<Register>)
            requires { IsSync R.row × IsFree guard.now first × IsFree guard.now second }
            ensures { IsFree guard.entry.now result.1 × IsFree guard.entry.now result.2 }
        { add_both(rt, guard, first, second) },
        || end(rt, guard, deed, pauses),
    )
}

/// A cell that is retired while two threads use it, and what their seats find then.
fn outlive<R: Threads + Wait + Abort + Sync>(rt: &R, alloc: Global, pauses: u32) {
    let (guard, first, second, mut deed, _last) = opened(rt, alloc);
    begin(&guard, &mut deed, 0);
    let ((added, mut first, mut second), value) = retire_amid(
        rt, &guard, first, second, deed, pauses,
    );
    assert_eq!(rt; added, value);
    assert!(rt; is_over(&guard, &mut first), "the life is over");
    assert!(rt; is_over(&guard, &mut second), "the life is over");
}

#[test]
fn a_cell_is_retired_while_two_threads_use_it(rt: HostRuntime) {
    for pauses in [0, 10, 100, 1_000] {
        outlive(&rt, rt.alloc(), pauses);
    }
}

/// Is in the first cell and in the last one.
fn visit_two<R: Abort>(rt: &R, guard: &Guard<Register>, seat: &mut GuardSeat<Register>)
    requires { IsFree guard.now seat.old }
{
    fresh_laws::<Register>();
    let Entering::Entered(near) = guard.enter(seat, 0, 0) else {
        panic!(rt; "nobody is in the first cell")
    };
    let Entering::Entered(far) = guard.enter(seat, 63, 0) else {
        panic!(rt; "nobody is in the last cell")
    };
    assert_eq!(rt; near.value, 1);
    assert_eq!(rt; far.value, 2);
    guard.leave(seat, 0, near);
    guard.leave(seat, 63, far);
}

#[test]
fn a_seat_is_in_two_cells(rt: HostRuntime) {
    let (guard, mut seat, _second, mut deed, mut last) = opened(&rt, rt.alloc());
    begin(&guard, &mut deed, 1);
    begin(&guard, &mut last, 2);
    visit_two(&rt, &guard, &mut seat);
}
