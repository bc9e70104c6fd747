//! Cells and slots.

ghost use Rattle.std.specs.Prelude.{◌≡◌, ◌≤◌, ◌+◌, IfOk, None, Some, is_some, length, replicate, sum_by, true};
ghost use Rattle.uv_num.specs.Each.{Each};
ghost use Rattle.uv_world.specs.Celled.{empty_cell, value_of_cell, value_if, cells_planted, cells_emptied, cells_emptied_if, cells_filled, cells_filled_if, value_of_slot, slots_set};
ghost use Rattle.uv_world.specs.Owing.{owes_journals, owes_lists, counts_value, full_cells, IsUnused};

use crate::content::Content;
use std::alloc::{AllocError, Global};
use uv_num::List;

/// A cell: its generation, and what is planted in it. This project's own.
#[derive(Drop)]
pub struct Cell<T> {
    pub generation: u32,
    pub value: Option<T>,
}

/// Cells in which nothing was ever planted.
pub(crate) fn empty_cells<T: Drop>(alloc: Global, count: usize) -> Result<List<Cell<T>>, AllocError>
    ensures { IfOk result (λ cells. cells ≡ replicate count empty_cell) }
{
    let mut cells = List::new(alloc);
    for _turn in 0..count {
        cells.push(Cell {
            generation: 0,
            value: None,
        })?;
    }
    Ok(cells)
}

/// Slots in which nothing lies.
pub(crate) fn empty_slots<T: Drop>(
    alloc: Global,
    count: usize,
) -> Result<List<Option<T>>, AllocError>
    ensures { IfOk result (λ slots. slots ≡ replicate count None) }
{
    let mut slots = List::new(alloc);
    for _turn in 0..count {
        slots.push(None)?;
    }
    Ok(slots)
}

/// Takes what is planted in a cell, if anything is.
pub(crate) fn take<T>(cells: &mut List<Cell<T>>, at: u32) -> Option<T>
    ensures taken { result ≡ value_of_cell cells.old at }
    ensures rest { cells.new ≡ cells_emptied cells.old at }
    ensures count { full_cells cells.new + counts_value result ≡ full_cells cells.old }
    ensures places { length cells.new ≡ length cells.old }
{
    let at = at as usize;
    if at < cells.len() {
        cells.item_mut(at).value.take()
    } else {
        None
    }
}

/// Takes what is planted in a cell that holds something.
pub(crate) fn take_live<T>(cells: &mut List<Cell<T>>, at: u32) -> T
    requires live { is_some (value_of_cell cells.old at) ≡ true }
    ensures taken { Some result ≡ value_of_cell cells.old at }
    ensures rest { cells.new ≡ cells_emptied cells.old at }
{
    match take(cells, at) {
        Some(value) => value,
        None => unreachable!(),
    }
}

/// Takes what is planted in a cell that is named, if one is.
pub(crate) fn take_if<T>(cells: &mut List<Cell<T>>, at: Option<u32>) -> Option<T>
    ensures taken { result ≡ value_if cells.old at }
    ensures rest { cells.new ≡ cells_emptied_if cells.old at }
{
    match at {
        None => None,
        Some(at) => take(cells, at),
    }
}

/// Puts something back into its cell, whose generation stays.
pub(crate) fn fill<T: Drop>(cells: &mut List<Cell<T>>, at: u32, value: T)
    ensures { cells.new ≡ cells_filled cells.old at value }
{
    let at = at as usize;
    if at < cells.len() {
        cells.item_mut(at).value = Some(value);
    }
}

/// Puts something back into a cell that is named, if there is something.
pub(crate) fn fill_if<T: Drop>(cells: &mut List<Cell<T>>, at: Option<u32>, value: Option<T>)
    ensures { cells.new ≡ cells_filled_if cells.old at value }
{
    if let Some(at) = at {
        if let Some(value) = value {
            fill(cells, at, value);
        }
    }
}

/// Plants a cell.
pub(crate) fn plant<T: Drop>(cells: &mut List<Cell<T>>, at: u32, generation: u32, value: T)
    ensures cells { cells.new ≡ cells_planted cells.old at generation value }
    ensures count { full_cells cells.new ≤ full_cells cells.old + 1 }
    ensures places { length cells.new ≡ length cells.old }
{
    let at = at as usize;
    if at < cells.len() {
        let cell = cells.item_mut(at);
        cell.generation = generation;
        cell.value = Some(value);
    }
}

/// Takes what lies in a slot.
pub(crate) fn take_slot(slots: &mut List<Option<Content>>, slot: u32) -> Option<Content>
    ensures taken { result ≡ value_of_slot slots.old slot }
    ensures rest { slots.new ≡ slots_set slots.old slot None }
    ensures journals { sum_by owes_journals slots.new + owes_journals result ≡ sum_by owes_journals slots.old }
    ensures lists { sum_by owes_lists slots.new + owes_lists result ≡ sum_by owes_lists slots.old }
{
    let at = slot as usize;
    if at < slots.len() {
        slots.item_mut(at).take()
    } else {
        None
    }
}

/// Puts something, or nothing, into a slot.
pub(crate) fn put_slot(slots: &mut List<Option<Content>>, slot: u32, now: Option<Content>)
    ensures slots { slots.new ≡ slots_set slots.old slot now }
    ensures journals { sum_by owes_journals slots.new ≤ sum_by owes_journals slots.old + owes_journals now }
    ensures lists { sum_by owes_lists slots.new ≤ sum_by owes_lists slots.old + owes_lists now }
{
    let at = slot as usize;
    if at < slots.len() {
        *slots.item_mut(at) = now;
    }
}
