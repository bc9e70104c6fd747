//! The least free handle number: a table of a file's numbers, in which those that are taken are marked.

ghost use Rattle.std.specs.Prelude.{◌≡◌, ◌==◌, ◌||◌, ℕ, false, Some};
ghost use Rattle.std.specs.List.{list_any};
ghost use Rattle.uv_num.specs.declared.limits.TheConstants.{HANDLES};
ghost use Rattle.uv_machine.specs.Objects.{has_handle};
ghost use Rattle.uv_machine.specs.Plans.{is_the_number, reserves};
ghost use Rattle.uv_machine.specs.States.{least_from};
ghost use Rattle.uv_machine.specs.Marking.{is_marked, Marks};

use crate::call::InFlight;
use crate::object::Object;
use uv_num::HANDLES;

/// The least number of a file that no object has and that is set aside for no call.
pub(crate) fn least_free(objects: &[Object], calls: &[Option<InFlight>], file: u32) -> Option<u32>
    ensures { result ≡ least_from (λ n. list_any (has_handle file n) objects.now || list_any (reserves file n) calls.now) 0 HANDLES }
{
    let mut table = blank();
    mark_handles(&mut table, objects, file);
    mark_numbers(&mut table, calls, file);
    least_unmarked(&table)
}

fn blank() -> [bool; HANDLES]
    ensures { (n : ℕ) → is_marked result n ≡ false }
{
    [false; HANDLES]
}

fn mark(table: &mut [bool; HANDLES], number: u32)
    ensures { Marks (λ n. number == n) table.old table.new }
{
    let place = number as usize;
    if place < HANDLES {
        table[place] = true;
    }
}

fn mark_handles(table: &mut [bool; HANDLES], objects: &[Object], file: u32)
    ensures { Marks (λ n. list_any (has_handle file n) objects.now) table.old table.new }
{
    for x in objects {
        mark_handle(table, *x, file);
    }
}

fn mark_handle(table: &mut [bool; HANDLES], x: Object, file: u32)
    ensures { Marks (λ n. has_handle file n x) table.old table.new }
{
    if x.file == file {
        mark(table, x.handle);
    }
}

fn mark_numbers(table: &mut [bool; HANDLES], calls: &[Option<InFlight>], file: u32)
    ensures { Marks (λ n. list_any (reserves file n) calls.now) table.old table.new }
{
    for slot in calls {
        mark_slot(table, *slot, file);
    }
}

fn mark_slot(table: &mut [bool; HANDLES], slot: Option<InFlight>, file: u32)
    ensures { Marks (λ n. reserves file n slot) table.old table.new }
{
    match slot {
        None => {}
        Some(call) => mark_call(table, call, file),
    }
}

fn mark_call(table: &mut [bool; HANDLES], call: InFlight, file: u32)
    ensures { Marks (λ n. reserves file n (Some call)) table.old table.new }
{
    if call.file == file {
        mark_number(table, call.reserved);
    }
}

fn mark_number(table: &mut [bool; HANDLES], number: Option<u32>)
    ensures { Marks (λ n. is_the_number n number) table.old table.new }
{
    match number {
        None => {}
        Some(number) => mark(table, number),
    }
}

fn least_unmarked(table: &[bool; HANDLES]) -> Option<u32>
    ensures { result ≡ least_from (is_marked table.now) 0 HANDLES }
{
    for number in 0..HANDLES as u32 {
        if !table[number as usize] {
            return Some(number);
        }
    }
    None
}
