//! A run as a picture: a lane for each actor, a column for each entry.
//!
//! The picture is one SVG file with no script and no font of its own. A column has its entry in words, and below them a mark in the lane
//! of its actor: red where it was refused, with the key of the rule. A bar from a mark on says what its actor has since then. The numbers
//! at the bottom are those of lines, each below the first entry of its line.

use crate::cuts::{LineEntries, entries_after, line_entries};
use crate::entries::{Passed, pass, put_entry};
use crate::names::put_actor;
use std::alloc::{AllocError, Global};
use uv_machine::{Entry, FilePhase, Readers, State};
use uv_num::{ACTOR_PLACES, DRIVER, ENDER, FILES};
use uv_run::Marked;

/// The most entries that are drawn.
const MOST_ENTRIES: usize = 200;

/// Where the first lane and the first column are, how far apart they are, and the room beside the last ones, all in pixels.
const TOP: u32 = 300;

const LEFT: u32 = 40;

const LANE: u32 = 24;

const COLUMN: u32 = 16;

const RIGHT: u32 = 180;

const BOTTOM: u32 = 24;

/// The colours of bars: an object is held, an object is locked, a file is torn down. Then those of marks.
const HELD: &str = "#9ecae1";

const LOCKED: &str = "#3182bd";

const TEARING: &str = "#bdbdbd";

const PASSED: &str = "#000000";

const REFUSED: &str = "#d7301f";

/// A lane's actor, and how far below the top it is.
type Lane = (u32, u32);

fn x_of(column: u32) -> u32 {
    LEFT.saturating_add(COLUMN.saturating_mul(column))
}

fn y_of(row: u32) -> u32 {
    TOP.saturating_add(LANE.saturating_mul(row))
}

/// Who tears a file down; the end of the script where nobody does.
fn tearer_of(state: &State, file: u32) -> u32 {
    match state.phase_of(file) {
        FilePhase::Tearing { by } => by,
        FilePhase::Fresh | FilePhase::Open | FilePhase::Dissociated | FilePhase::Closed => ENDER,
    }
}

fn tearer_of_object(state: &State, object: u32) -> u32 {
    match state.object_with(object) {
        None => ENDER,
        Some(x) => tearer_of(state, x.file),
    }
}

/// Who makes an entry, before it.
fn actor_of(state: &State, entry: Entry) -> u32 {
    match entry {
        Entry::Open { client, .. } | Entry::Enter { client, .. } | Entry::Step { client, .. } =>
            client,
        Entry::Unplug { .. } => DRIVER,
        Entry::Tear { by, .. } => by,
        Entry::Kill { object } | Entry::Gone { object, .. } => tearer_of_object(state, object),
        Entry::Dissociated { file } | Entry::Closed { file } => tearer_of(state, file),
    }
}

fn tears_some(state: &State, actor: u32) -> bool {
    for file in 0..FILES as u32 {
        match state.phase_of(file) {
            FilePhase::Tearing { by } => if by == actor {
                return true;
            },
            FilePhase::Fresh | FilePhase::Open | FilePhase::Dissociated | FilePhase::Closed => {}
        }
    }
    false
}

/// The colour of an actor's bar, if it has one.
fn bar_of(state: &State, actor: u32) -> Option<&'static str> {
    if tears_some(state, actor) {
        return Some(TEARING);
    }
    let call = state.call_of(actor)?;
    if call.locked.is_some() {
        Some(LOCKED)
    } else if call.looked.len() > 0 {
        Some(HELD)
    } else {
        None
    }
}

fn set(acts: &mut [bool; ACTOR_PLACES], actor: u32) {
    if let Some(slot) = acts.get_mut(actor as usize) {
        *slot = true;
    }
}

/// Which actors make an entry of a history.
fn who_acts(alloc: Global, history: &[Entry]) -> Result<[bool; ACTOR_PLACES], AllocError> {
    let mut state = State::new(alloc)?;
    let mut acts = [false; ACTOR_PLACES];
    for entry in history {
        set(&mut acts, actor_of(&state, *entry));
        state.apply(*entry);
    }
    Ok(acts)
}

/// The lanes of a history: one for each actor that makes an entry, in the order of their numbers.
fn lanes_of(alloc: Global, history: &[Entry]) -> Result<Vec<Lane>, AllocError> {
    let acts = who_acts(alloc, history)?;
    let mut lanes = Vec::new(alloc);
    let mut row: u32 = 0;
    for actor in 0..ACTOR_PLACES {
        if acts[actor] {
            lanes.push((actor as u32, y_of(row)))?;
            row = row.saturating_add(1);
        }
    }
    Ok(lanes)
}

/// Where the next lane would be.
fn below(lanes: &[Lane]) -> u32 {
    match lanes.last() {
        None => TOP,
        Some((_, y)) => y.saturating_add(LANE),
    }
}

/// Writes the picture of a run. One of too many entries has a sentence in its place.
pub fn put_lanes(alloc: Global, text: &mut String, marked: &Marked) -> Result<(), AllocError> {
    let history = marked.told.history.as_slice();
    if history.len() > MOST_ENTRIES {
        return put_too_many(text, history.len());
    }
    let lanes = lanes_of(alloc, history)?;
    let bottom = below(lanes.as_slice());
    put_head(text, lanes.as_slice(), x_of(history.len() as u32), bottom)?;
    let mut state = State::new(alloc)?;
    let mut column = 1;
    for place in 0..marked.script.len() {
        let LineEntries { line, entries } = line_entries(marked, place);
        if !entries.is_empty() {
            write!(
                text,
                "<text x=\"{}\" y=\"{bottom}\">{}</text>\n",
                x_of(column),
                line.number
            )?;
        }
        column = put_columns(text, lanes.as_slice(), &mut state, column, entries)?;
    }
    let entries = entries_after(marked);
    if !entries.is_empty() {
        write!(
            text,
            "<text x=\"{}\" y=\"{bottom}\">end</text>\n",
            x_of(column)
        )?;
    }
    put_columns(text, lanes.as_slice(), &mut state, column, entries)?;
    text.push_str("</svg>\n")
}

fn put_open(text: &mut String, width: u32, height: u32) -> Result<(), AllocError> {
    write!(
        text,
        "<svg xmlns=\"http://www.w3.org/2000/svg\" width=\"{width}\" height=\"{height}\" font-family=\"monospace\" font-size=\"10\">\n",
    )?;
    text.push_str("<rect width=\"100%\" height=\"100%\" fill=\"#ffffff\"/>\n")
}

fn put_too_many(text: &mut String, entries: usize) -> Result<(), AllocError> {
    put_open(text, 600, 40)?;
    write!(
        text,
        "<text x=\"10\" y=\"24\">{entries} entries are too many to draw: {MOST_ENTRIES} are the most</text>\n</svg>\n",
    )
}

/// Writes what stands behind the columns: a line for each lane, and who acts on it.
fn put_head(text: &mut String, lanes: &[Lane], end: u32, bottom: u32) -> Result<(), AllocError> {
    put_open(
        text,
        end.saturating_add(RIGHT),
        bottom.saturating_add(BOTTOM),
    )?;
    let right = end.saturating_add(COLUMN);
    for (actor, y) in lanes {
        write!(
            text,
            "<path d=\"M{LEFT} {y}H{right}\" stroke=\"#dddddd\"/>\n<text x=\"8\" y=\"{y}\">"
        )?;
        put_actor(text, *actor)?;
        text.push_str("</text>\n")?;
    }
    Ok(())
}

/// Writes a column for each entry, from this one on, and answers the one after them.
fn put_columns(
    text: &mut String,
    lanes: &[Lane],
    state: &mut State,
    first: u32,
    entries: &[Entry],
) -> Result<u32, AllocError> {
    let mut column = first;
    for entry in entries {
        let actor = actor_of(state, *entry);
        let passed = pass(state, *entry);
        put_words(text, &passed, x_of(column))?;
        put_marks(text, lanes, state, actor, colour_of(&passed), x_of(column))?;
        column = column.saturating_add(1);
    }
    Ok(column)
}

fn colour_of(passed: &Passed) -> &'static str {
    match passed.rule {
        None => PASSED,
        Some(_) => REFUSED,
    }
}

fn put_words(text: &mut String, passed: &Passed, x: u32) -> Result<(), AllocError> {
    let y = TOP.saturating_sub(COLUMN);
    write!(
        text,
        "<text transform=\"translate({x},{y}) rotate(-60)\" fill=\"{}\">",
        colour_of(passed)
    )?;
    put_entry(text, passed.entry, &passed.object)?;
    if let Some(rule) = passed.rule {
        write!(text, " {}", rule.key())?;
    }
    text.push_str("</text>\n")
}

/// Writes the bars of a column, and the mark of its entry.
fn put_marks(
    text: &mut String,
    lanes: &[Lane],
    state: &State,
    actor: u32,
    colour: &str,
    x: u32,
) -> Result<(), AllocError> {
    for (of, y) in lanes {
        if let Some(bar) = bar_of(state, *of) {
            let top = y.saturating_sub(3);
            write!(
                text,
                "<rect x=\"{x}\" y=\"{top}\" width=\"{COLUMN}\" height=\"6\" fill=\"{bar}\"/>\n"
            )?;
        }
        if *of == actor {
            write!(
                text,
                "<circle cx=\"{x}\" cy=\"{y}\" r=\"4\" fill=\"{colour}\"/>\n"
            )?;
        }
    }
    Ok(())
}
