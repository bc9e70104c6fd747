//! The top call: what the words ask for is read, told and written.

ghost use Rattle.std.specs.Prelude.{◌≡◌, ◌≢◌, ◌≤◌, ◌⊎◌};
ghost use Rattle.uv_io.specs.Faults.{Rose};
ghost use Rattle.uv_run.specs.Outcome.{FailsReading, RefusesLength, WritesUnlessFault};
ghost use Rattle.uv_run.specs.Texts.{too_long_line};
ghost use Rattle.uv_run.specs.declared.words.Wanted.TheVariants.{Steps};
ghost use Rattle.uv_why.specs.Outcome.{IsNoScript, IsScript, IsToldOrFault, ReadsNoScript, ReadsScript, why_usage_line};
ghost use Rattle.uv_why.specs.Words.{AreGivenForm, AsksScript};

use crate::lanes::put_lanes;
use crate::rules::{Decided, put_rule, put_rules};
use crate::telling::{put_amiss, put_script};
use crate::words::{Telling, Wanted, words_wanted};
use std::alloc::{AllocError, Global};
use std::str;
use uv_io::{Failed, ReadAll, Sink, Source, read_all, write_all};
use uv_num::SCRIPT_BYTES;
use uv_run::{Marked, mark_steps, too_long_text};
use uv_script::{ScriptFault, first_amiss};

/// What is told of words that are none of the forms.
fn usage_text() -> &'static [u8]
    ensures { result.now ≡ why_usage_line }
{
    b"usage: verbswhy [--lanes | --rules | --rule KEY]\n"
}

/// Writes a text under a status that is not 0, which a fault of the sink doesn't change.
fn tell<K: Sink>(sink: &mut K, text: &[u8])
    ensures text { WritesUnlessFault (K.written sink.old) (K.written sink.new) (K.faults sink.old) (K.faults sink.new) text.now }
    ensures later { K.faults sink.old ≤ K.faults sink.new }
{
    let _ = write_all(sink, text);
}

/// Writes what was told, and answers the status: 0, 4 where a fault of the sink cut it short, or 5 where there was no memory for
/// it.
fn write_told<K: Sink>(sink: &mut K, told: Result<String, AllocError>) -> u8
    ensures statuses { IsToldOrFault result }
    ensures writing { result ≡ 4 → Rose (K.faults sink.old) (K.faults sink.new) }
    ensures silent { result ≡ 5 → sink.new ≡ sink.old }
    ensures later { K.faults sink.old ≤ K.faults sink.new }
{
    let Ok(text) = told else {
        return 5;
    };
    match write_all(sink, text.as_str().as_bytes()) {
        Ok(()) => 0,
        Err(Failed) => 4,
    }
}

fn script_text(alloc: Global, bytes: &[u8], marked: &Marked) -> Result<String, AllocError> {
    let mut text = String::new(alloc);
    // The bytes of a script are ASCII.
    let script = str::from_utf8(bytes).unwrap_or("");
    put_script(alloc, &mut text, script, marked)?;
    Ok(text)
}

fn amiss_text(alloc: Global, bytes: &[u8]) -> Result<String, AllocError> {
    let mut text = String::new(alloc);
    if let Some(line) = first_amiss(alloc, bytes)? {
        put_amiss(&mut text, &line)?;
    }
    Ok(text)
}

fn rules_text(alloc: Global) -> Result<String, AllocError> {
    let mut text = String::new(alloc);
    put_rules(&mut text)?;
    Ok(text)
}

fn rule_text(alloc: Global, rule: Decided) -> Result<String, AllocError> {
    let mut text = String::new(alloc);
    put_rule(&mut text, rule)?;
    Ok(text)
}

fn lanes_text(alloc: Global, marked: &Marked) -> Result<String, AllocError> {
    let mut text = String::new(alloc);
    put_lanes(alloc, &mut text, marked)?;
    Ok(text)
}

fn told(
    alloc: Global,
    telling: Telling,
    bytes: &[u8],
    marked: &Marked,
) -> Result<String, AllocError> {
    match telling {
        Telling::Lines => script_text(alloc, bytes, marked),
        Telling::Lanes => lanes_text(alloc, marked),
    }
}

/// Tells the first line that is outside the language.
fn tell_amiss<K: Sink>(alloc: Global, bytes: &[u8], sink: &mut K) -> u8
    ensures statuses { (result ≡ 1) ⊎ (result ≡ 5) }
    ensures silent { result ≡ 5 → sink.new ≡ sink.old }
    ensures later { K.faults sink.old ≤ K.faults sink.new }
{
    let Ok(text) = amiss_text(alloc, bytes) else {
        return 5;
    };
    tell(sink, text.as_str().as_bytes());
    1
}

/// Runs the script of these bytes, if they are one, and tells it.
fn tell_bytes<K: Sink>(alloc: Global, telling: Telling, bytes: &[u8], sink: &mut K) -> u8
    ensures statuses { IsToldOrFault result ⊎ (result ≡ 1) }
    ensures script { result ≡ 0 → IsScript bytes.now }
    ensures none { result ≡ 1 → IsNoScript bytes.now }
    ensures writing { result ≡ 4 → Rose (K.faults sink.old) (K.faults sink.new) }
    ensures silent { result ≡ 5 → sink.new ≡ sink.old }
    ensures later { K.faults sink.old ≤ K.faults sink.new }
{
    match mark_steps(alloc, bytes) {
        Ok(marked) => write_told(sink, told(alloc, telling, bytes, &marked)),
        Err(ScriptFault::At(_)) => tell_amiss(alloc, bytes, sink),
        Err(ScriptFault::NoMemory) => 5,
    }
}

/// Tells that more bytes came than a script has.
fn tell_too_long<K: Sink>(sink: &mut K) -> u8
    ensures status { result ≡ 6 }
    ensures text { WritesUnlessFault (K.written sink.old) (K.written sink.new) (K.faults sink.old) (K.faults sink.new) too_long_line }
    ensures later { K.faults sink.old ≤ K.faults sink.new }
{
    tell(sink, too_long_text());
    6
}

/// Reads a script, runs it, and tells each line with what decided.
fn tell_script<S: Source, K: Sink>(
    alloc: Global,
    telling: Telling,
    source: &mut S,
    sink: &mut K,
) -> u8
    ensures statuses { (IsToldOrFault result ⊎ (result ≡ 1)) ⊎ ((result ≡ 3) ⊎ (result ≡ 6)) }
    ensures script { result ≡ 0 → ReadsScript (S.left source.old) (S.left source.new) }
    ensures fault { result ≡ 1 → ReadsNoScript (S.left source.old) (S.left source.new) }
    ensures reading { result ≡ 3 → FailsReading Steps (S.left source.old) (S.left source.new) (S.faults source.old) (S.faults source.new) }
    ensures writing { result ≡ 4 → Rose (K.faults sink.old) (K.faults sink.new) }
    ensures length { result ≡ 6 → RefusesLength Steps (S.left source.old) (S.left source.new) (K.written sink.old) (K.written sink.new) (K.faults sink.old) (K.faults sink.new) }
    ensures silent_reading { result ≡ 3 → sink.new ≡ sink.old }
    ensures silent_memory { result ≡ 5 → sink.new ≡ sink.old }
    ensures later_source { S.faults source.old ≤ S.faults source.new }
    ensures later_sink { K.faults sink.old ≤ K.faults sink.new }
{
    match read_all(alloc, source, SCRIPT_BYTES as u32) {
        ReadAll::Bytes(bytes) => tell_bytes(alloc, telling, bytes.as_slice(), sink),
        ReadAll::ReadFault => 3,
        ReadAll::TooLong => tell_too_long(sink),
        ReadAll::NoMemory => 5,
    }
}

fn tell_usage<K: Sink>(sink: &mut K) -> u8
    ensures status { result ≡ 2 }
    ensures text { WritesUnlessFault (K.written sink.old) (K.written sink.new) (K.faults sink.old) (K.faults sink.new) why_usage_line }
    ensures later { K.faults sink.old ≤ K.faults sink.new }
{
    tell(sink, usage_text());
    2
}

/// Tells what the words ask for, and answers the program's status.
///
/// Statuses are those of `verbsrun`: 0 where all was told, 1 of a script fault, 2 of wrong words, 3 where reading failed, 4 where
/// writing did, 5 out of memory, 6 of too many bytes. Where the sink fails under another status than 0, that status stays.
pub fn start<S: Source, K: Sink>(
    alloc: Global,
    words: Option<Vec<String>>,
    source: &mut S,
    sink: &mut K,
) -> u8
    ensures statuses { result ≤ 6 }

    // With no words a script is read: all that is left, unless reading it fails or it is too long.
    ensures words { AsksScript words → result ≢ 2 }
    ensures usage { ¬ AreGivenForm words → result ≡ 2 }
    ensures script { AsksScript words → result ≡ 0 → ReadsScript (S.left source.old) (S.left source.new) }
    ensures fault { result ≡ 1 → ReadsNoScript (S.left source.old) (S.left source.new) }
    ensures usage_unread { result ≡ 2 → source.new ≡ source.old }
    ensures usage_text { result ≡ 2 → WritesUnlessFault (K.written sink.old) (K.written sink.new) (K.faults sink.old) (K.faults sink.new) why_usage_line }
    ensures reading { result ≡ 3 → FailsReading Steps (S.left source.old) (S.left source.new) (S.faults source.old) (S.faults source.new) }
    ensures writing { result ≡ 4 → Rose (K.faults sink.old) (K.faults sink.new) }
    ensures length { result ≡ 6 → RefusesLength Steps (S.left source.old) (S.left source.new) (K.written sink.old) (K.written sink.new) (K.faults sink.old) (K.faults sink.new) }

    // Nothing is written of a read that failed, or where memory ran out.
    ensures silent_reading { result ≡ 3 → sink.new ≡ sink.old }
    ensures silent_memory { result ≡ 5 → sink.new ≡ sink.old }
{
    let Some(words) = words else {
        return tell_usage(sink);
    };
    match words_wanted(&words) {
        None => tell_usage(sink),
        Some(Wanted::Script(telling)) => tell_script(alloc, telling, source, sink),
        Some(Wanted::Rules) => write_told(sink, rules_text(alloc)),
        Some(Wanted::Rule(rule)) => write_told(sink, rule_text(alloc, rule)),
    }
}
