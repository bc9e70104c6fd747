//! Objects and their marks by id. Ids rise along the objects, and an object and its mark have one place.

ghost use Rattle.std.specs.Prelude.{◌≡◌, ◌<◌, ◌+◌, nat_lt, if◌then◌else◌, ℕ, length, map, filter, find, option_map, slice_get, remove};
ghost use Rattle.uv_num.specs.Place.{at_place};
ghost use Rattle.uv_num.specs.Ids.{ids_of};
ghost use Rattle.uv_machine.specs.Objects.{has_id, on_object, with_change};
ghost use Rattle.uv_machine.specs.Effects.{not_with_id, not_in_file};
ghost use Rattle.uv_store.specs.declared.mark.Mark.{Mark};
ghost use Rattle.uv_store.specs.Marks.{marks_by, marks_at_one, marks_at, mark_changed, with_mark};
ghost use Rattle.uv_store.specs.Stored.{Rises, AtPlace};

use crate::mark::{Mark, MarkChange};
use crate::turns::ObjectTurn;
use uv_machine::{Change, Object};
use uv_num::{Ids, MOST_OBJECTS, Room, change_at};

pub(crate) fn place_of(objects: &[Object], id: u32) -> Option<usize>
    requires { Rises objects.now }
    ensures { AtPlace objects.now id result }
{
    match objects.binary_search_by_key(&id, |x| x.id) {
        Ok(place) => Some(place),
        Err(_) => None,
    }
}

fn place_in(objects: &Room<Object, MOST_OBJECTS>, id: u32) -> Option<usize>
    requires { Rises objects.now }
    ensures { AtPlace objects.now id result }
{
    place_of(objects.as_slice(), id)
}

fn object_at(objects: &Room<Object, MOST_OBJECTS>, at: usize) -> Option<Object>
    ensures { result ≡ slice_get objects.now at }
{
    objects.get(at).copied()
}

fn mark_in(marks: &Room<Mark, MOST_OBJECTS>, at: usize) -> Option<Mark>
    ensures { result ≡ slice_get marks.now at }
{
    marks.get(at).copied()
}

fn set_object(objects: &mut Room<Object, MOST_OBJECTS>, at: usize, change: Change)
    ensures { objects.new ≡ at_place objects.old at (with_change change) }
{
    change_at(objects.as_mut_slice(), at, ObjectTurn(change));
}

fn set_mark(marks: &mut Room<Mark, MOST_OBJECTS>, at: usize, change: MarkChange)
    ensures { marks.new ≡ at_place marks.old at (mark_changed change) }
{
    change_at(marks.as_mut_slice(), at, change);
}

fn drop_object(objects: &mut Room<Object, MOST_OBJECTS>, at: usize)
    requires { at < length objects.old }
    ensures { objects.new ≡ remove objects.old at }
{
    let _ = objects.remove(at);
}

fn drop_mark(marks: &mut Room<Mark, MOST_OBJECTS>, at: usize)
    requires { at < length marks.old }
    ensures { marks.new ≡ remove marks.old at }
{
    let _ = marks.remove(at);
}

/// The object with an id.
pub(crate) fn with_id(objects: &Room<Object, MOST_OBJECTS>, id: u32) -> Option<Object>
    requires { Rises objects.now }
    ensures { result ≡ find (has_id id) objects.now }
{
    match place_in(objects, id) {
        None => None,
        Some(place) => object_at(objects, place),
    }
}

/// The mark of the object with an id.
pub(crate) fn mark_of(
    objects: &Room<Object, MOST_OBJECTS>,
    marks: &Room<Mark, MOST_OBJECTS>,
    id: u32,
) -> Option<Mark>
    requires { Rises objects.now }
    ensures { (g : ℕ → Mark) → marks.now ≡ marks_by g objects.now → result ≡ option_map (λ x. g x.id) (find (has_id id) objects.now) }
{
    match place_in(objects, id) {
        None => None,
        Some(place) => mark_in(marks, place),
    }
}

/// Changes the object with an id.
pub(crate) fn turn_object(objects: &mut Room<Object, MOST_OBJECTS>, id: u32, change: Change)
    requires { Rises objects.old }
    ensures { objects.new ≡ map (on_object id change) objects.old }
{
    match place_in(objects, id) {
        None => {}
        Some(place) => set_object(objects, place, change),
    }
}

/// Changes the mark of the object with an id.
pub(crate) fn turn_mark(
    objects: &Room<Object, MOST_OBJECTS>,
    marks: &mut Room<Mark, MOST_OBJECTS>,
    id: u32,
    change: MarkChange,
)
    requires { Rises objects.now }
    ensures { (g : ℕ → Mark) → marks.old ≡ marks_by g objects.now → marks.new ≡ marks_by (marks_at_one change id g) objects.now }
{
    match place_in(objects, id) {
        None => {}
        Some(place) => set_mark(marks, place, change),
    }
}

/// Changes the marks of some objects, one after another.
pub(crate) fn turn_marks(
    objects: &Room<Object, MOST_OBJECTS>,
    marks: &mut Room<Mark, MOST_OBJECTS>,
    ids: Ids,
    change: MarkChange,
)
    requires { Rises objects.now }
    ensures { (g : ℕ → Mark) → marks.old ≡ marks_by g objects.now → marks.new ≡ marks_by (marks_at change (ids_of ids) g) objects.now }
{
    match ids {
        Ids::Empty => {}
        Ids::One(a) => turn_mark(objects, marks, a, change),
        Ids::Two(a, b) => {
            turn_mark(objects, marks, a, change);
            turn_mark(objects, marks, b, change);
        }
        Ids::Three(a, b, c) => {
            turn_mark(objects, marks, a, change);
            turn_mark(objects, marks, b, change);
            turn_mark(objects, marks, c, change);
        }
        Ids::Four(a, b, c, d) => {
            turn_mark(objects, marks, a, change);
            turn_mark(objects, marks, b, change);
            turn_mark(objects, marks, c, change);
            turn_mark(objects, marks, d, change);
        }
    }
}

/// Puts a mark after the others, if there is room for it.
pub(crate) fn put_mark(marks: &mut Room<Mark, MOST_OBJECTS>, mark: Mark)
    ensures { marks.new ≡ with_mark mark marks.old }
{
    if marks.len() < MOST_OBJECTS {
        marks.put(mark);
    }
}

/// Takes the object with an id out, and its mark with it.
pub(crate) fn take_out(
    objects: &mut Room<Object, MOST_OBJECTS>,
    marks: &mut Room<Mark, MOST_OBJECTS>,
    id: u32,
)
    requires rises { Rises objects.old }
    requires alike { length marks.old ≡ length objects.old }
    ensures objects { objects.new ≡ filter (not_with_id id) objects.old }
    ensures marks { (g : ℕ → Mark) → marks.old ≡ marks_by g objects.old → marks.new ≡ marks_by g (filter (not_with_id id) objects.old) }
{
    match place_in(objects, id) {
        None => {}
        Some(place) => {
            drop_object(objects, place);
            drop_mark(marks, place);
        }
    }
}

/// Takes the marks of a file's objects out.
pub(crate) fn take_file(objects: &[Object], marks: &mut Room<Mark, MOST_OBJECTS>, file: u32)
    ensures { (g : ℕ → Mark) → marks.old ≡ marks_by g objects.now → marks.new ≡ marks_by g (filter (not_in_file file) objects.now) }
{
    let end = objects.len();
    let mut place = 0;
    for x in objects {
        if x.file == file {
            drop_mark_in(marks, place);
        } else {
            place = next_below(place, end);
        }
    }
}

/// The place after this one, if it is below the end.
fn next_below(place: usize, end: usize) -> usize
    ensures { result ≡ (if nat_lt place end then place + 1 else place) }
{
    if place < end { place + 1 } else { place }
}

fn drop_mark_in(marks: &mut Room<Mark, MOST_OBJECTS>, at: usize)
    ensures { at < length marks.old → marks.new ≡ remove marks.old at }
{
    if at < marks.len() {
        drop_mark(marks, at);
    }
}
