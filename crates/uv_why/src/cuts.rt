//! A history, cut by the lines that made its entries.

ghost use Rattle.std.specs.Prelude.{◌≡◌, ◌<◌, ◌^◌, Some, drop, length, slice_get, take};
ghost use Rattle.uv_why.specs.Cuts.{mark_of, entries_of_line, entries_after};

use uv_model::Entry;
use uv_run::Marked;
use uv_script::Line;

/// A line with the entries that came as it was played.
#[derive(Drop)]
pub struct LineEntries<'a> {
    /// The line.
    pub line: &'a Line,
    /// Its entries, in their order.
    pub entries: &'a [Entry],
}

/// The mark at a place; 0 where there is none.
fn mark_of(marks: &[usize], place: usize) -> usize
    ensures { result ≡ mark_of marks.now place }
{
    match marks.get(place) {
        None => 0,
        Some(mark) => *mark,
    }
}

/// The first entries, so many or all that there are.
fn front(entries: &[Entry], count: usize) -> &[Entry]
    ensures { result.now ≡ take count entries.now }
{
    if count < entries.len() {
        &entries[..count]
    } else {
        entries
    }
}

/// The entries after the first ones of this number.
fn rest(entries: &[Entry], count: usize) -> &[Entry]
    ensures { result.now ≡ drop count entries.now }
{
    if count < entries.len() {
        &entries[count..]
    } else {
        &[]
    }
}

/// The entries that a history has for the line at a place.
fn entries_of_line<'a>(history: &'a [Entry], marks: &[usize], place: usize) -> &'a [Entry]
    requires { place < 2 ^ 32 }
    ensures { result.now ≡ entries_of_line history.now marks.now place }
{
    let first = mark_of(marks, place);
    let last = mark_of(marks, place + 1);
    front(rest(history, first), last.saturating_sub(first))
}

/// A line at a place among those that say something, with its entries.
pub fn line_entries<'a>(marked: &'a Marked, place: u32) -> LineEntries<'a>
    requires { place < length marked.now.script }
    ensures line { slice_get marked.now.script place ≡ Some result.line.now }
    ensures entries { result.entries.now ≡ entries_of_line marked.now.told.history marked.now.marks place }
{
    LineEntries {
        line: marked.script.line(place),
        entries: entries_of_line(
            marked.told.history.as_slice(),
            marked.marks.as_slice(),
            place as usize,
        ),
    }
}

/// The entries that came after the last line.
pub fn entries_after<'a>(marked: &'a Marked) -> &'a [Entry]
    ensures { result.now ≡ entries_after marked.now.told.history marked.now.marks (length marked.now.script) }
{
    let last = mark_of(marked.marks.as_slice(), marked.script.len() as usize);
    rest(marked.told.history.as_slice(), last)
}
