//! The top call: a script is read from a source, run, and its report written to a sink.

ghost use Rattle.std.specs.Prelude.{◌≡◌, ◌≢◌, ◌≤◌, ◌+◌, ◌⊎◌, length, IfOk, Ok, None};
ghost use Rattle.std.specs.Io.KnownBytes.{Appends};
ghost use Rattle.uv_num.specs.declared.limits.TheConstants.{SCRIPT_BYTES};
ghost use Rattle.uv_io.specs.Faults.{Rose};
ghost use Rattle.uv_io.specs.Whole.{ReadsPrefix, ReadsCount};
ghost use Rattle.uv_run.specs.Outcome.{IsEmptyRecord, IsCutShort, WritesUnlessFault, RunsBytes, RunsScript, TellsFault, RefusesScript, IsScriptLeft, IsRunOrNoMemory, IsBytesStatus, IsStepsStatus, Reports, ReportsCutShort, FailsReading, RefusesLength};
ghost use Rattle.uv_report.specs.Report.{report_of};
ghost use Rattle.uv_run.specs.Follows.{FollowsScript};
ghost use Rattle.uv_run.specs.Texts.{fault_line, too_long_line, usage_line};
ghost use Rattle.uv_run.specs.Wanted.{AsWanted, most_bytes, given_wanted, words_wanted};
ghost use Rattle.uv_run.specs.declared.words.Wanted.TheVariants.{Steps};

use crate::outcome::Done;
use crate::play::play;
use crate::texts::{fault_text, too_long_text, usage_text};
use crate::words::{Wanted, words_wanted};
use std::alloc::{AllocError, Global};
use std::sync::Wait;
use std::thread::Threads;
use uv_io::{Failed, Gate, ReadAll, Sink, Source, read_all, write_all};
use uv_num::{List, SCRIPT_BYTES};
use uv_report::{Record, write};
use uv_script::{Mode, Script, ScriptFault, parse};

/// The end of a run that told nothing.
fn ended(alloc: Global, status: u8) -> Done
    ensures status { result.status ≡ status }
    ensures told { IsEmptyRecord result.told }
{
    Done {
        status,
        told: Record {
            history: List::new(alloc),
            replies: List::new(alloc),
            left: List::new(alloc),
        },
    }
}

/// Writes a text that isn't a report, which a fault of the sink may cut short.
fn tell<K: Sink>(sink: &mut K, text: &[u8])
    ensures text { WritesUnlessFault (K.written sink.old) (K.written sink.new) (K.faults sink.old) (K.faults sink.new) text.now }
    ensures later { K.faults sink.old ≤ K.faults sink.new }
{
    // A fault of the sink doesn't change the status here: its count of faults tells it.
    let _ = write_all(sink, text);
}

/// Writes a report, and answers the status: 0, or 4 where a fault of the sink cut it short.
fn write_report<K: Sink>(sink: &mut K, text: &[u8]) -> u8
    ensures statuses { (result ≡ 0) ⊎ (result ≡ 4) }
    ensures whole { result ≡ 0 → Appends (K.written sink.old) (K.written sink.new) text.now }
    ensures part { result ≡ 4 → IsCutShort (K.written sink.old) (K.written sink.new) (K.faults sink.old) (K.faults sink.new) text.now }
    ensures later { K.faults sink.old ≤ K.faults sink.new }
{
    match write_all(sink, text) {
        Ok(()) => 0,
        Err(Failed) => 4,
    }
}

/// Runs the lines of a script, and writes the report.
fn run_lines<K: Sink>(alloc: Global, script: &Script, sink: &mut K) -> Done
    ensures statuses { IsRunOrNoMemory result.status ⊎ (result.status ≡ 4) }
    ensures whole { result.status ≡ 0 → FollowsScript script.now result.told }
    ensures report { result.status ≡ 0 → Appends (K.written sink.old) (K.written sink.new) (report_of result.told) }
    ensures part { result.status ≡ 4 → FollowsScript script.now result.told }
    ensures cut { result.status ≡ 4 → IsCutShort (K.written sink.old) (K.written sink.new) (K.faults sink.old) (K.faults sink.new) (report_of result.told) }
    ensures silent { result.status ≡ 5 → sink.new ≡ sink.old }
    ensures told { result.status ≡ 5 → IsEmptyRecord result.told }
    ensures later { K.faults sink.old ≤ K.faults sink.new }
{
    let Ok(told) = play(alloc, script) else {
        return ended(alloc, 5);
    };
    let Ok(text) = write(alloc, script, &told) else {
        return ended(alloc, 5);
    };
    let status = write_report(sink, text.as_slice());
    Done { status, told }
}

/// Tells the line that is outside the language.
fn tell_fault<K: Sink>(alloc: Global, line: u32, sink: &mut K) -> Done
    ensures statuses { (result.status ≡ 1) ⊎ (result.status ≡ 5) }
    ensures text { result.status ≡ 1 → WritesUnlessFault (K.written sink.old) (K.written sink.new) (K.faults sink.old) (K.faults sink.new) (fault_line line) }
    ensures silent { result.status ≡ 5 → sink.new ≡ sink.old }
    ensures told { IsEmptyRecord result.told }
    ensures later { K.faults sink.old ≤ K.faults sink.new }
{
    let Ok(text) = fault_text(alloc, line) else {
        return ended(alloc, 5);
    };
    tell(sink, text.as_slice());
    ended(alloc, 1)
}

/// Runs the script of these bytes, if they are one.
fn run_bytes<K: Sink>(alloc: Global, bytes: &[u8], sink: &mut K) -> Done
    ensures statuses { IsBytesStatus result.status }
    ensures whole { result.status ≡ 0 → RunsBytes Steps bytes.now result.told }
    ensures report { result.status ≡ 0 → Appends (K.written sink.old) (K.written sink.new) (report_of result.told) }
    ensures fault { result.status ≡ 1 → TellsFault Steps bytes.now (K.written sink.old) (K.written sink.new) (K.faults sink.old) (K.faults sink.new) }
    ensures part { result.status ≡ 4 → RunsBytes Steps bytes.now result.told }
    ensures cut { result.status ≡ 4 → IsCutShort (K.written sink.old) (K.written sink.new) (K.faults sink.old) (K.faults sink.new) (report_of result.told) }
    ensures silent { result.status ≡ 5 → sink.new ≡ sink.old }
    ensures told { result.status ≢ 0 → result.status ≢ 4 → IsEmptyRecord result.told }
    ensures later { K.faults sink.old ≤ K.faults sink.new }
{
    match parse(alloc, bytes, Mode::Steps) {
        Ok(script) => run_lines(alloc, &script, sink),
        Err(ScriptFault::At(line)) => tell_fault(alloc, line, sink),
        Err(ScriptFault::NoMemory) => ended(alloc, 5),
    }
}

/// Reads a script, runs it and writes its report. What this promises, the calls that stand on it promise too.
fn read_and_run<S: Source, K: Sink>(alloc: Global, source: &mut S, sink: &mut K) -> Done
    ensures statuses { IsStepsStatus result.status }
    ensures runs { result.status ≡ 0 → RunsScript Steps (S.left source.old) (S.left source.new) result.told }
    ensures report { result.status ≡ 0 → Appends (K.written sink.old) (K.written sink.new) (report_of result.told) }
    ensures fault { result.status ≡ 1 → RefusesScript Steps (S.left source.old) (S.left source.new) (K.written sink.old) (K.written sink.new) (K.faults sink.old) (K.faults sink.new) }
    ensures read_fault { result.status ≡ 3 → Rose (S.faults source.old) (S.faults source.new) }
    ensures read_part { result.status ≡ 3 → ReadsPrefix (S.left source.old) (S.left source.new) SCRIPT_BYTES }
    ensures runs_cut { result.status ≡ 4 → RunsScript Steps (S.left source.old) (S.left source.new) result.told }
    ensures report_cut { result.status ≡ 4 → IsCutShort (K.written sink.old) (K.written sink.new) (K.faults sink.old) (K.faults sink.new) (report_of result.told) }
    ensures memory { result.status ≡ 5 → ReadsPrefix (S.left source.old) (S.left source.new) (SCRIPT_BYTES + 1) }
    ensures long { result.status ≡ 6 → ReadsCount (S.left source.old) (S.left source.new) (SCRIPT_BYTES + 1) }
    ensures long_text { result.status ≡ 6 → WritesUnlessFault (K.written sink.old) (K.written sink.new) (K.faults sink.old) (K.faults sink.new) too_long_line }
    ensures silent_fault { result.status ≡ 3 → sink.new ≡ sink.old }
    ensures silent_memory { result.status ≡ 5 → sink.new ≡ sink.old }
    ensures told { result.status ≢ 0 → result.status ≢ 4 → IsEmptyRecord result.told }
    ensures later_read { S.faults source.old ≤ S.faults source.new }
    ensures later_write { K.faults sink.old ≤ K.faults sink.new }
{
    match read_all(alloc, source, SCRIPT_BYTES as u32) {
        ReadAll::Bytes(bytes) => run_bytes(alloc, bytes.as_slice(), sink),
        ReadAll::ReadFault => ended(alloc, 3),
        ReadAll::TooLong => tell_too_long(alloc, sink),
        ReadAll::NoMemory => ended(alloc, 5),
    }
}

/// Tells that more bytes came than a script has.
fn tell_too_long<K: Sink>(alloc: Global, sink: &mut K) -> Done
    ensures status { result.status ≡ 6 }
    ensures text { WritesUnlessFault (K.written sink.old) (K.written sink.new) (K.faults sink.old) (K.faults sink.new) too_long_line }
    ensures told { IsEmptyRecord result.told }
    ensures later { K.faults sink.old ≤ K.faults sink.new }
{
    tell(sink, too_long_text());
    ended(alloc, 6)
}

/// Tells how the program is used.
fn tell_usage<K: Sink>(alloc: Global, sink: &mut K) -> Done
    ensures status { result.status ≡ 2 }
    ensures text { WritesUnlessFault (K.written sink.old) (K.written sink.new) (K.faults sink.old) (K.faults sink.new) usage_line }
    ensures told { IsEmptyRecord result.told }
    ensures later { K.faults sink.old ≤ K.faults sink.new }
{
    tell(sink, usage_text());
    ended(alloc, 2)
}

/// Reads a script from the source, runs it, and writes its report to the sink.
///
/// What comes first decides: reading, then the language, then the run, then writing. Nothing is run of a script that has
/// a line outside the language. Where the sink fails as the text of another status than 0 is written, that status
/// stays. Status 5 means out of memory; where the call of one line meets that, the line is answered `ENOMEM`.
pub fn run_steps<S: Source, K: Sink>(alloc: Global, source: &mut S, sink: &mut K) -> Done
    ensures statuses { IsStepsStatus result.status }
    ensures done { result.status ≡ 0 → Reports Steps (S.left source.old) (S.left source.new) (K.written sink.old) (K.written sink.new) result.told }
    ensures fault { result.status ≡ 1 → RefusesScript Steps (S.left source.old) (S.left source.new) (K.written sink.old) (K.written sink.new) (K.faults sink.old) (K.faults sink.new) }
    ensures reading { result.status ≡ 3 → FailsReading Steps (S.left source.old) (S.left source.new) (S.faults source.old) (S.faults source.new) }
    ensures writing { result.status ≡ 4 → ReportsCutShort Steps (S.left source.old) (S.left source.new) (K.written sink.old) (K.written sink.new) (K.faults sink.old) (K.faults sink.new) result.told }
    ensures memory { result.status ≡ 5 → ReadsPrefix (S.left source.old) (S.left source.new) (SCRIPT_BYTES + 1) }
    ensures length { result.status ≡ 6 → RefusesLength Steps (S.left source.old) (S.left source.new) (K.written sink.old) (K.written sink.new) (K.faults sink.old) (K.faults sink.new) }

    // Nothing is written of a read that failed, or where memory ran out.
    ensures silent_reading { result.status ≡ 3 → sink.new ≡ sink.old }
    ensures silent_memory { result.status ≡ 5 → sink.new ≡ sink.old }
    ensures told { result.status ≢ 0 → result.status ≢ 4 → IsEmptyRecord result.told }
    ensures later_source { S.faults source.old ≤ S.faults source.new }
    ensures later_sink { K.faults sink.old ≤ K.faults sink.new }

    // A script that is left is run where neither fails, memory aside.
    ensures complete { IsScriptLeft Steps (S.left source.old) → ¬ Rose (S.faults source.old) (S.faults source.new) → ¬ Rose (K.faults sink.old) (K.faults sink.new) → IsRunOrNoMemory result.status }
{
    read_and_run(alloc, source, sink)
}

/// Runs the program that the words ask for (`Wanted`): `steps` reads a script, runs it on one thread and writes its report.
///
/// `words` are those after the program's name. Words that are no form are status 2, and then the source isn't read. What the
/// other statuses say, they say of what is wanted, and `run_steps` is the case of `steps`.
/// Neither `rt` nor `gate` is used by the one form that there is.
pub fn run<R: Threads + Wait + Sync, S: Source, K: Sink, G: Gate>(
    rt: &R,
    alloc: Global,
    words: &Vec<String>,
    source: &mut S,
    sink: &mut K,
    gate: &G,
) -> Done
    ensures statuses { IsStepsStatus result.status ⊎ (result.status ≡ 2) }
    ensures done { result.status ≡ 0 → AsWanted (words_wanted words.now.items) (λ wanted. Reports wanted (S.left source.old) (S.left source.new) (K.written sink.old) (K.written sink.new) result.told) }
    ensures fault { result.status ≡ 1 → AsWanted (words_wanted words.now.items) (λ wanted. RefusesScript wanted (S.left source.old) (S.left source.new) (K.written sink.old) (K.written sink.new) (K.faults sink.old) (K.faults sink.new)) }

    // The words are wrong exactly where the status is 2. Then nothing is read.
    ensures words { words_wanted words.now.items ≢ None → result.status ≢ 2 }
    ensures usage { words_wanted words.now.items ≡ None → result.status ≡ 2 }
    ensures usage_unread { result.status ≡ 2 → source.new ≡ source.old }
    ensures usage_text { result.status ≡ 2 → WritesUnlessFault (K.written sink.old) (K.written sink.new) (K.faults sink.old) (K.faults sink.new) usage_line }
    ensures reading { result.status ≡ 3 → AsWanted (words_wanted words.now.items) (λ wanted. FailsReading wanted (S.left source.old) (S.left source.new) (S.faults source.old) (S.faults source.new)) }
    ensures writing { result.status ≡ 4 → AsWanted (words_wanted words.now.items) (λ wanted. ReportsCutShort wanted (S.left source.old) (S.left source.new) (K.written sink.old) (K.written sink.new) (K.faults sink.old) (K.faults sink.new) result.told) }
    ensures memory { result.status ≡ 5 → AsWanted (words_wanted words.now.items) (λ wanted. ReadsPrefix (S.left source.old) (S.left source.new) (most_bytes wanted + 1)) }
    ensures length { result.status ≡ 6 → AsWanted (words_wanted words.now.items) (λ wanted. RefusesLength wanted (S.left source.old) (S.left source.new) (K.written sink.old) (K.written sink.new) (K.faults sink.old) (K.faults sink.new)) }

    // Nothing is written of a read that failed, or where memory ran out.
    ensures silent_reading { result.status ≡ 3 → sink.new ≡ sink.old }
    ensures silent_memory { result.status ≡ 5 → sink.new ≡ sink.old }
    ensures told { result.status ≢ 0 → result.status ≢ 4 → IsEmptyRecord result.told }
    ensures later_source { S.faults source.old ≤ S.faults source.new }
    ensures later_sink { K.faults sink.old ≤ K.faults sink.new }

    // A script that is left is run where neither fails, memory aside.
    ensures complete { AsWanted (words_wanted words.now.items) (λ wanted. IsScriptLeft wanted (S.left source.old)) → ¬ Rose (S.faults source.old) (S.faults source.new) → ¬ Rose (K.faults sink.old) (K.faults sink.new) → IsRunOrNoMemory result.status }
{
    // One thread needs neither: they are for the forms of words that start threads.
    let _ = rt;
    let _ = gate;
    match words_wanted(words) {
        Some(Wanted::Steps) => run_steps(alloc, source, sink),
        None => tell_usage(alloc, sink),
    }
}

/// Runs the program as it was started: by its words, where they could be had. Words that can't be had are wrong words.
///
/// This is what a program's `main` calls, so its clauses are those of `run`. They couldn't be had where one of them isn't
/// text, or where there was no memory for them.
pub fn start<R: Threads + Wait + Sync, S: Source, K: Sink, G: Gate>(
    rt: &R,
    alloc: Global,
    words: Option<Vec<String>>,
    source: &mut S,
    sink: &mut K,
    gate: &G,
) -> Done
    ensures statuses { IsStepsStatus result.status ⊎ (result.status ≡ 2) }
    ensures done { result.status ≡ 0 → AsWanted (given_wanted words) (λ wanted. Reports wanted (S.left source.old) (S.left source.new) (K.written sink.old) (K.written sink.new) result.told) }
    ensures fault { result.status ≡ 1 → AsWanted (given_wanted words) (λ wanted. RefusesScript wanted (S.left source.old) (S.left source.new) (K.written sink.old) (K.written sink.new) (K.faults sink.old) (K.faults sink.new)) }

    // The words are wrong exactly where the status is 2. Then nothing is read.
    ensures words { given_wanted words ≢ None → result.status ≢ 2 }
    ensures usage { given_wanted words ≡ None → result.status ≡ 2 }
    ensures usage_unread { result.status ≡ 2 → source.new ≡ source.old }
    ensures usage_text { result.status ≡ 2 → WritesUnlessFault (K.written sink.old) (K.written sink.new) (K.faults sink.old) (K.faults sink.new) usage_line }
    ensures reading { result.status ≡ 3 → AsWanted (given_wanted words) (λ wanted. FailsReading wanted (S.left source.old) (S.left source.new) (S.faults source.old) (S.faults source.new)) }
    ensures writing { result.status ≡ 4 → AsWanted (given_wanted words) (λ wanted. ReportsCutShort wanted (S.left source.old) (S.left source.new) (K.written sink.old) (K.written sink.new) (K.faults sink.old) (K.faults sink.new) result.told) }
    ensures memory { result.status ≡ 5 → AsWanted (given_wanted words) (λ wanted. ReadsPrefix (S.left source.old) (S.left source.new) (most_bytes wanted + 1)) }
    ensures length { result.status ≡ 6 → AsWanted (given_wanted words) (λ wanted. RefusesLength wanted (S.left source.old) (S.left source.new) (K.written sink.old) (K.written sink.new) (K.faults sink.old) (K.faults sink.new)) }

    // Nothing is written of a read that failed, or where memory ran out.
    ensures silent_reading { result.status ≡ 3 → sink.new ≡ sink.old }
    ensures silent_memory { result.status ≡ 5 → sink.new ≡ sink.old }
    ensures told { result.status ≢ 0 → result.status ≢ 4 → IsEmptyRecord result.told }
    ensures later_source { S.faults source.old ≤ S.faults source.new }
    ensures later_sink { K.faults sink.old ≤ K.faults sink.new }

    // A script that is left is run where neither fails, memory aside.
    ensures complete { AsWanted (given_wanted words) (λ wanted. IsScriptLeft wanted (S.left source.old)) → ¬ Rose (S.faults source.old) (S.faults source.new) → ¬ Rose (K.faults sink.old) (K.faults sink.new) → IsRunOrNoMemory result.status }
{
    let Some(words) = words else {
        return tell_usage(alloc, sink);
    };
    run(rt, alloc, &words, source, sink, gate)
}
