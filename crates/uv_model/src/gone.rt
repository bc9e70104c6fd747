//! What teardowns released, by a replay of the history.

ghost use Rattle.std.specs.Prelude.{◌≡◌, ◌≤◌, ◌++◌, ◌||◌, IfOk, OnOk, IsSome, length, slice_get, take, drop};
ghost use Rattle.std.specs.Option.{option_copied};
ghost use Rattle.uv_machine.specs.Histories.{state_of};
ghost use Rattle.uv_machine.specs.States.{object_with};
ghost use Rattle.uv_model.specs.Gone.{torn_file, ends_teardown, of_file, gone_in, gone_until, torn_at, gone_after, begins, before_end, left_at_end, gone_object, gone_by, gone_of};

use crate::left::{Left, left_in};
use crate::replays::replayed;
use std::alloc::{AllocError, Global};
use uv_machine::{Entry, Object, Readers, State};
use uv_num::{ENDER, List};

/// The objects that a teardown released, in the order in which they went. The teardown is the one that the entry at
/// `place` begins, places being numbered from 0; it goes on to its file's end, or to the end of the history. The history
/// is made again from its beginning. Its only error is want of memory. This project's own; the order is that of
/// `rdma_core.c`, `__uverbs_cleanup_ufile`, users first.
pub fn gone_after(
    alloc: Global,
    history: &List<Entry>,
    place: u64,
) -> Result<List<Left>, AllocError>
    requires { IsSome (torn_at (slice_get history.now place)) }
    ensures { IfOk result (λ l. l ≡ gone_after history.now place) }
{
    let entries = history.as_slice();
    let next = place as usize + 1;
    match torn_at(history.get(place as usize)) {
        Some(file) => gone_behind(alloc, &entries[..next], &entries[next..], file),
        None => unreachable!(),
    }
}

/// The file of an entry that is a tear.
fn torn_at(entry: Option<&Entry>) -> Option<u32>
    ensures { result ≡ torn_at (option_copied entry.entry) }
{
    match entry {
        Some(entry) => torn_file(*entry),
        None => None,
    }
}

fn torn_file(entry: Entry) -> Option<u32>
    ensures { result ≡ torn_file entry }
{
    match entry {
        Entry::Tear { file, .. } => Some(file),
        Entry::Open { .. }
        | Entry::Enter { .. }
        | Entry::Step { .. }
        | Entry::Unplug { .. }
        | Entry::Kill { .. }
        | Entry::Gone { .. }
        | Entry::Dissociated { .. }
        | Entry::Closed { .. } => None,
    }
}

/// The objects of a file that went behind the first entries, until its teardown ended.
fn gone_behind(
    alloc: Global,
    before: &[Entry],
    behind: &[Entry],
    file: u32,
) -> Result<List<Left>, AllocError>
    ensures { IfOk result (λ l. l ≡ gone_until (state_of before.now) file behind.now) }
{
    let mut state = replayed(alloc, before)?;
    let mut gone = List::new(alloc);
    for entry in behind {
        if ends_teardown(*entry, file) {
            return Ok(gone);
        }
        put_gone_in(&mut gone, &state, file, *entry)?;
        state.apply(*entry);
    }
    Ok(gone)
}

/// Whether an entry ends the teardown of a file.
fn ends_teardown(entry: Entry, file: u32) -> bool
    ensures { result ≡ ends_teardown file entry }
{
    match entry {
        Entry::Dissociated { file: left } => left == file,
        Entry::Closed { file: closed } => closed == file,
        Entry::Open { .. }
        | Entry::Enter { .. }
        | Entry::Step { .. }
        | Entry::Unplug { .. }
        | Entry::Tear { .. }
        | Entry::Kill { .. }
        | Entry::Gone { .. } => false,
    }
}

/// Puts the object of a file that an entry releases behind the others, if it releases one.
fn put_gone_in(
    gone: &mut List<Left>,
    state: &State,
    file: u32,
    entry: Entry,
) -> Result<(), AllocError>
    ensures { OnOk result (gone.new ≡ gone.old ++ gone_in state.now file entry) }
{
    match entry {
        Entry::Gone { object, .. } => put_of_file(gone, file, state.object_with(object)),
        Entry::Open { .. }
        | Entry::Enter { .. }
        | Entry::Step { .. }
        | Entry::Unplug { .. }
        | Entry::Tear { .. }
        | Entry::Kill { .. }
        | Entry::Dissociated { .. }
        | Entry::Closed { .. } => Ok(()),
    }
}

fn put_of_file(gone: &mut List<Left>, file: u32, x: Option<Object>) -> Result<(), AllocError>
    ensures { OnOk result (gone.new ≡ gone.old ++ of_file file x) }
{
    match x {
        Some(x) => {
            if x.file == file {
                gone.push(Left::of(x))
            } else {
                Ok(())
            }
        }
        None => Ok(()),
    }
}

/// The objects that went when the end of the script closed the files, in the order in which they went. The history is made
/// again from its beginning. Its only error is want of memory. This project's own.
pub fn gone_at_end(alloc: Global, history: &List<Entry>) -> Result<List<Left>, AllocError>
    ensures { IfOk result (λ l. l ≡ gone_of history.now) }
{
    gone_in_end(alloc, history.as_slice())
}

fn gone_in_end(alloc: Global, entries: &[Entry]) -> Result<List<Left>, AllocError>
    ensures { IfOk result (λ l. l ≡ gone_of entries.now) }
{
    let mut state = State::new(alloc)?;
    let mut begun = false;
    let mut gone = List::new(alloc);
    for entry in entries {
        put_gone_by(&mut gone, &state, begun, *entry)?;
        begun = has_begun(begun, *entry);
        state.apply(*entry);
    }
    Ok(gone)
}

/// Whether the end of the script has begun behind an entry.
fn has_begun(begun: bool, entry: Entry) -> bool
    ensures { result ≡ (begun || begins entry) }
{
    begun || begins(entry)
}

fn begins(entry: Entry) -> bool
    ensures { result ≡ begins entry }
{
    match entry {
        Entry::Tear { by, .. } => by == ENDER,
        Entry::Open { .. }
        | Entry::Enter { .. }
        | Entry::Step { .. }
        | Entry::Unplug { .. }
        | Entry::Kill { .. }
        | Entry::Gone { .. }
        | Entry::Dissociated { .. }
        | Entry::Closed { .. } => false,
    }
}

/// The objects that were left when the end of the script began to close the files, or at the last entry where it didn't:
/// those that no teardown had released, oldest first. The history is made again from its beginning. Its only error is want
/// of memory. This project's own.
pub fn left_at_end(alloc: Global, history: &List<Entry>) -> Result<List<Left>, AllocError>
    ensures { IfOk result (λ l. l ≡ left_at_end history.now) }
{
    let state = replayed(alloc, before_end(history.as_slice()))?;
    left_in(alloc, state.objects.as_slice())
}

/// The entries in front of the end of the script.
fn before_end(entries: &[Entry]) -> &[Entry]
    ensures { result.now ≡ before_end entries.now }
{
    for (at, entry) in entries.iter().enumerate() {
        if begins(*entry) {
            return &entries[..at];
        }
    }
    entries
}

/// Puts the object that an entry releases behind the others, if it releases one and the end has begun.
fn put_gone_by(
    gone: &mut List<Left>,
    state: &State,
    begun: bool,
    entry: Entry,
) -> Result<(), AllocError>
    ensures { OnOk result (gone.new ≡ gone.old ++ gone_by state.now begun entry) }
{
    match entry {
        Entry::Gone { object, .. } => put_object(gone, state, begun, object),
        Entry::Open { .. }
        | Entry::Enter { .. }
        | Entry::Step { .. }
        | Entry::Unplug { .. }
        | Entry::Tear { .. }
        | Entry::Kill { .. }
        | Entry::Dissociated { .. }
        | Entry::Closed { .. } => Ok(()),
    }
}

fn put_object(
    gone: &mut List<Left>,
    state: &State,
    begun: bool,
    object: u32,
) -> Result<(), AllocError>
    ensures { OnOk result (gone.new ≡ gone.old ++ gone_object state.now begun object) }
{
    if !begun {
        return Ok(());
    }
    match state.object_with(object) {
        Some(x) => gone.push(Left::of(x)),
        None => Ok(()),
    }
}
