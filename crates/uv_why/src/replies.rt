//! The texts that a run told, by the lines under whose numbers they stand.

ghost use Rattle.std.specs.Prelude.{◌≤◌, length};

use std::alloc::{AllocError, Global};
use uv_report::Said;

/// A text, by its line, and by its place among all texts.
type Place = (u32, usize);

/// The places of texts, by their lines, and for one line in the order in which they came.
pub fn by_line(alloc: Global, replies: &[Said]) -> Result<Vec<Place>, AllocError> {
    let mut places = Vec::new(alloc);
    for (place, said) in replies.iter().enumerate() {
        places.push((said.line, place))?;
    }
    places.sort_unstable();
    Ok(places)
}

/// How many of the first places are of a line or of one above it.
fn count_to(places: &[Place], line: u32) -> usize
    ensures { result ≤ length places.now }
{
    for count in 0..places.len() {
        if places[count].0 > line {
            return count;
        }
    }
    places.len()
}

/// Writes the texts under a line's number, which stand first, and answers the places of the others.
pub fn put_replies<'a>(
    text: &mut String,
    replies: &[Said],
    places: &'a [Place],
    line: u32,
) -> Result<&'a [Place], AllocError> {
    let count = count_to(places, line);
    for (_, place) in &places[..count] {
        put_reply(text, replies.get(*place))?;
    }
    Ok(&places[count..])
}

fn put_reply(text: &mut String, said: Option<&Said>) -> Result<(), AllocError> {
    match said {
        None => Ok(()),
        Some(said) => write!(text, "  = {}\n", said.text),
    }
}
