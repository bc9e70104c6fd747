//! Cases of which every frame in turn is lost, doubled or swapped with the next.

use crate::cutting::case_of;
use crate::play::{Blow, Case, Found, begin, bytes_found, ends, play_out};
use std::alloc::{AllocError, Global};

/// How a case ended.
#[derive(Drop)]
struct Ending {
    /// Whether it came to its end.
    settled: bool,
    /// How many frames there were.
    frames: u32,
    /// How the works of side a ended, and those of side b.
    a: String,
    b: String,
    found: Found,
}

/// Plays a case. None where it is out of range.
fn ended_with(
    alloc: Global,
    case: &Case,
    blow: Option<(Blow, u32)>,
) -> Result<Option<Ending>, AllocError> {
    let Some(mut play) = begin(alloc, case, blow)? else {
        return Ok(None);
    };
    let settled = play_out(alloc, &mut play)?;
    let (a, b) = ends(alloc, &mut play)?;
    let found = bytes_found(alloc, case, &mut play);
    Ok(Some(Ending {
        settled,
        frames: play.frames,
        a,
        b,
        found,
    }))
}

/// How a case came out of which one frame was struck, beside how it ended where none was: `S` where it is as if none had been, `L`
/// where side a saw no difference and side b saw nothing at all, `R` where side a gave a work up. All else is told in words.
fn outcome(
    alloc: Global,
    clean: &Ending,
    struck: &Ending,
    place: u32,
) -> Result<String, AllocError> {
    let (a, b) = (struck.a.as_str(), struck.b.as_str());
    let sent = struck.settled && a == clean.a.as_str();
    if sent && b == clean.b.as_str() && struck.found == Found::Whole {
        return String::from_str(alloc, "S");
    }
    if sent && b == "-" && struck.found == Found::Untouched {
        return String::from_str(alloc, "L");
    }
    if struck.settled && a.split(':').any(|word| word == "RETRY_EXC_ERR") {
        return String::from_str(alloc, "R");
    }
    format!(in alloc; "[{place}: {a} / {b}]")
}

/// Puts to a text how a case came out of which the frame at a place was struck.
fn put_outcome(
    alloc: Global,
    case: &Case,
    clean: &Ending,
    blow: Blow,
    place: u32,
    text: &mut String,
) -> Result<(), AllocError> {
    match ended_with(alloc, case, Some((blow, place)))? {
        None => text.push_str("?"),
        Some(struck) => text.push_str(outcome(alloc, clean, &struck, place)?.as_str()),
    }
}

/// `lose BYTES MTU RETRY DEED ..`, and the same with `double`, `late` and `swap`: how the case came out with each frame struck,
/// one letter a frame.
pub fn fault(alloc: Global, blow: Blow, rest: &str) -> Result<Option<String>, AllocError> {
    let case = case_of(alloc, rest, true)?;
    let Some(clean) = ended_with(alloc, &case, None)? else {
        return Ok(None);
    };
    if !clean.settled || clean.found != Found::Whole {
        return Ok(None);
    }
    let mut text = String::new(alloc);
    for place in 0..clean.frames {
        put_outcome(alloc, &case, &clean, blow, place, &mut text)?;
    }
    Ok(Some(text))
}
