//! The handle tables of the files.

ghost use Rattle.std.specs.Prelude.{◌≡◌, IsTrue, IfOk, replicate, slice_get};
ghost use Rattle.uv_num.specs.declared.limits.TheConstants.{FILES};
ghost use Rattle.uv_num.specs.Place.{at_place};
ghost use Rattle.uv_handles.specs.Table.{is_reserved_in, is_published_in, published_in, least_free_in, empty_table, reserved_if, published_at, freed_at};
ghost use Rattle.uv_store.specs.Tables.{table_at, least_at, HasAllNumbers, IsSetAside, cleared, published_with};

use std::alloc::{AllocError, Global};
use uv_handles::Handles;
use uv_machine::Object;
use uv_num::{FILES, List};

/// A table for each file, in which no number is taken.
pub(crate) fn empty_tables(alloc: Global) -> Result<List<Handles>, AllocError>
    ensures { IfOk result (λ tables. tables ≡ replicate FILES empty_table) }
{
    let mut tables = List::new(alloc);
    for _file in 0..FILES {
        tables.push(Handles::new(alloc)?)?;
    }
    Ok(tables)
}

/// The object that is published under a number of a file.
pub(crate) fn look(tables: &List<Handles>, file: u32, number: u32) -> Option<u32>
    ensures { result ≡ published_in (table_at tables.now file) number }
{
    match tables.get(file as usize) {
        None => None,
        Some(table) => table.look(number),
    }
}

/// The least number of a file that isn't taken.
pub(crate) fn least_free(tables: &List<Handles>, file: u32) -> Option<u32>
    ensures number { result ≡ least_at (slice_get tables.now file) }
    ensures size { HasAllNumbers (slice_get tables.now file) }
{
    match tables.get(file as usize) {
        None => Some(0),
        Some(table) => table.least_free(),
    }
}

/// Sets the least number of a file aside that isn't taken.
pub(crate) fn reserve(tables: &mut List<Handles>, file: u32) -> Option<u32>
    ensures number { result ≡ least_free_in (table_at tables.old file) }
    ensures tables { tables.new ≡ at_place tables.old file (λ t. reserved_if (least_free_in t) t) }
    ensures size { HasAllNumbers (slice_get tables.old file) }
{
    let place = file as usize;
    if place < tables.len() {
        return tables.item_mut(place).reserve();
    }
    None
}

/// Publishes an object under a number of a file that is set aside.
fn publish(tables: &mut List<Handles>, file: u32, number: u32, object: u32)
    requires { IsTrue (is_reserved_in (table_at tables.old file) number) }
    ensures { tables.new ≡ at_place tables.old file (published_at number object) }
{
    let place = file as usize;
    if place < tables.len() {
        tables.item_mut(place).publish(number, object);
    }
}

/// Publishes an object under its number.
pub(crate) fn publish_object(tables: &mut List<Handles>, object: Option<Object>)
    requires { IsSetAside tables.old object }
    ensures { tables.new ≡ published_with object tables.old }
{
    match object {
        None => {}
        Some(x) => publish(tables, x.file, x.handle, x.id),
    }
}

/// Gives a number of a file up that is set aside.
pub(crate) fn abort(tables: &mut List<Handles>, file: u32, number: u32)
    requires { IsTrue (is_reserved_in (table_at tables.old file) number) }
    ensures { tables.new ≡ at_place tables.old file (freed_at number) }
{
    let place = file as usize;
    if place < tables.len() {
        tables.item_mut(place).abort(number);
    }
}

/// Takes the number of a published object of a file away.
pub(crate) fn remove(tables: &mut List<Handles>, file: u32, number: u32)
    requires { IsTrue (is_published_in (table_at tables.old file) number) }
    ensures { tables.new ≡ at_place tables.old file (freed_at number) }
{
    let place = file as usize;
    if place < tables.len() {
        tables.item_mut(place).remove(number);
    }
}

/// Takes all numbers of a file away.
pub(crate) fn clear(tables: &mut List<Handles>, file: u32)
    ensures { tables.new ≡ at_place tables.old file cleared }
{
    let place = file as usize;
    if place < tables.len() {
        tables.item_mut(place).clear();
    }
}
