//! `rows`: runs cases that are data, and tells what each ended with.
//!
//! Standard input is a list of cases: a line `=== NAME STATUS WORD..`, the script, and a line `===` (`=== cut` where the
//! script's last line has no line feed). Other lines between two cases are remarks. A case is run as the program runs it,
//! by its words, over a source and a sink in memory. For each case the program writes its name, its status, all that was
//! written to the sink, and a line where the judge doesn't find the history of the run legal. It ends with status 1 where
//! there is such a history, and where a case ended with another status than its line wants.
#![tactic(auto)]

mod case;

use anyhow::{bail, ensure};
use case::{Case, End};
use std::alloc::{AllocError, Global};
use std::str;
use std::sync::Wait;
use std::thread::Threads;
use uv_io::{CleanSink, CleanSource, OpenGate, ReadAll, StdSource, read_all};
use uv_model::{Verdict, judge};
use uv_num::Bytes;
use uv_run::start;

/// The most bytes of a list: four times those of a script.
const LIST_BYTES: u32 = 4_194_304;

/// The room for what a case writes. Where it writes more, its status is 4.
const REPORT_ROOM: usize = 1_048_576;

/// What a case ended with.
#[derive(Drop)]
struct Ended {
    status: u8,
    /// What the judge says of the history that the run left.
    verdict: Verdict,
    sink: CleanSink,
}

/// Runs a script by these words, and has its history judged.
fn run_case<R: Threads + Wait + Sync>(
    rt: &R,
    alloc: Global,
    words: Vec<String>,
    script: Bytes,
) -> Result<Ended, AllocError> {
    let mut source = CleanSource::new(script);
    let mut sink = CleanSink::new(alloc, REPORT_ROOM)?;
    let done = start(rt, alloc, Some(words), &mut source, &mut sink, &OpenGate);
    Ok(Ended {
        status: done.status,
        verdict: judge(alloc, &done.told.history),
        sink,
    })
}

/// Tells that a history isn't legal, or wasn't judged. Whether it is legal, of which nothing is told.
fn tell_verdict<R: Print>(rt: &R, verdict: Verdict) -> anyhow::Result<bool> {
    match verdict {
        Verdict::Legal => return Ok(true),
        Verdict::Bad { place } => println!(rt; "not legal at entry {place}")?,
        Verdict::NoMemory => println!(rt; "no memory to judge")?,
    }
    Ok(false)
}

/// Runs a case and tells what it ended with. Whether it ended as it wants, with a legal history.
fn tell_case<R: Print + Threads + Wait + Sync>(
    rt: &R,
    alloc: Global,
    case: Case,
    end: End,
) -> anyhow::Result<bool> {
    let Case {
        name,
        wanted,
        words,
        script,
    } = case;
    let ended = run_case(rt, alloc, words, end.ended(script))?;
    let status = ended.status;
    println!(rt; "=== {name} {status}")?;
    print!(rt; "{}", str::from_utf8(ended.sink.bytes())?)?;
    let is_legal = tell_verdict(rt, ended.verdict)?;
    println!(rt; "===")?;
    Ok(is_legal && status == wanted)
}

/// Runs the cases of a list. How many ended otherwise than they want.
fn tell_cases<R: Print + Threads + Wait + Sync>(
    rt: &R,
    alloc: Global,
    list: &str,
) -> anyhow::Result<u64> {
    let mut odd: u64 = 0;
    let mut open: Option<Case> = None;
    for line in list.split('\n') {
        match (open.take(), End::of(line)) {
            (Some(case), Some(end)) => {
                if !tell_case(rt, alloc, case, end)? {
                    odd = odd.saturating_add(1);
                }
            }
            (Some(mut case), None) => {
                case.put(line)?;
                open = Some(case);
            }
            (None, _) => open = Case::begun(alloc, line)?,
        }
    }
    ensure!(open.is_none(), "the last case has no end");
    Ok(odd)
}

fn main(rt: HostRuntime) -> anyhow::Result<()> {
    let ReadAll::Bytes(list) = read_all(rt.alloc(), &mut StdSource::new(rt.stdin()), LIST_BYTES)
    else {
        bail!("the list can't be read");
    };
    let odd = tell_cases(&rt, rt.alloc(), str::from_utf8(list.as_slice())?)?;
    ensure!(
        odd == 0,
        "{odd} cases ended with another status than they want, or with a history that isn't legal"
    );
    Ok(())
}
