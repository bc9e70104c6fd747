//! What is told of a script: each line with its entries, the rules that refused, and its replies.

use crate::asked::asked_rule;
use crate::cuts::{LineEntries, entries_after, line_entries};
use crate::entries::{put_entries, put_refusing};
use crate::replies::{by_line, put_replies};
use crate::rules::Decided;
use std::alloc::{AllocError, Global};
use std::str;
use uv_machine::State;
use uv_run::Marked;
use uv_schema::CommandRule;
use uv_script::{AmissLine, Line};

/// Writes a script that was run, line by line, and then what came after the last one.
pub fn put_script(
    alloc: Global,
    text: &mut String,
    script: &str,
    marked: &Marked,
) -> Result<(), AllocError> {
    let mut state = State::new(alloc)?;
    let mut words = Vec::new(alloc);
    for line in script.split('\n') {
        words.push(line)?;
    }
    let replies = marked.told.replies.as_slice();
    let places = by_line(alloc, replies)?;
    let mut places = places.as_slice();
    for place in 0..marked.script.len() {
        let LineEntries { line, entries } = line_entries(marked, place);
        put_line(alloc, text, line, words_of(words.as_slice(), line.number))?;
        put_entries(text, &mut state, entries)?;
        places = put_replies(text, replies, places, line.number)?;
    }
    text.push_str("end\n")?;
    put_entries(text, &mut state, entries_after(marked))?;
    write!(text, "  = left {}\n", marked.told.left.len())
}

/// The words of the line of a number, from 1.
fn words_of<'a>(lines: &[&'a str], number: u32) -> &'a str {
    match lines.get((number as usize).saturating_sub(1)) {
        None => "",
        Some(words) => words.trim_end(),
    }
}

/// Writes a line, and where it is refused before a call enters, the rule that refuses it.
fn put_line(alloc: Global, text: &mut String, line: &Line, words: &str) -> Result<(), AllocError> {
    write!(text, "{}: {words}\n", line.number)?;
    match asked_rule(alloc, &line.form, words)? {
        None => Ok(()),
        Some(rule) => put_refusing(text, Decided::Command(rule)),
    }
}

/// Writes the first line that is outside the language, and what the reading wanted.
pub fn put_amiss(text: &mut String, line: &AmissLine<'_>) -> Result<(), AllocError> {
    write!(text, "script fault at line {}\n", line.number)?;
    put_word(text, line.amiss.word)?;
    write!(text, "{}\n", line.amiss.wrong.text())
}

/// Writes the word to blame, if there is one. A word of other bytes than those that lines have isn't written.
fn put_word(text: &mut String, word: &[u8]) -> Result<(), AllocError> {
    match str::from_utf8(word) {
        Ok("") => Ok(()),
        Ok(word) => write!(text, "{word}: "),
        Err(_) => Ok(()),
    }
}
