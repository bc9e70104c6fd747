//! `sweeps`: the tests of the data path, as data.
//!
//! Standard input is a list of lines `COMMAND = WANTED`. Each command plays a case over two queue pairs and tells what came of it
//! as text, which is compared with what is wanted. Lines without ` = ` are remarks, and are written as they are. A line where
//! something else came is written with that, and then the program ends with status 1.
#![tactic(auto)]

mod cutting;
mod faulting;
mod joined;
mod judging;
mod loading;
mod making;
mod moving;
mod pair;
mod play;
mod trail;
mod words;
mod works;

use anyhow::{bail, ensure};
use play::Blow;
use std::alloc::{AllocError, Global};
use std::str;
use uv_io::{ReadAll, StdSource, read_all};
use uv_num::Service;

/// The most bytes of a list.
const LIST_BYTES: u32 = 1_048_576;

/// What comes of a command. None where it is none.
fn came_of(alloc: Global, command: &str) -> Result<Option<String>, AllocError> {
    let (name, rest) = command.split_once(' ').unwrap_or((command, ""));
    if let Some(blow) = Blow::of(name) {
        return faulting::fault(alloc, blow, rest);
    }
    match name {
        "judge" => judging::judge(alloc, Service::Rc, rest),
        "judge_ud" => judging::judge(alloc, Service::Ud, rest),
        "move" => moving::moves(alloc, rest),
        "cut" => cutting::cut(alloc, rest, true),
        "bare" => cutting::cut(alloc, rest, false),
        "load" => loading::load(alloc, rest),
        _ => Ok(None),
    }
}

/// Tells a line. Whether it came out as wanted.
fn tell_line<R: Print>(rt: &R, alloc: Global, line: &str) -> anyhow::Result<bool> {
    let Some((command, wanted)) = line.split_once(" = ") else {
        println!(rt; "{line}")?;
        return Ok(true);
    };
    match came_of(alloc, command)? {
        None => println!(rt; "no command: {command}")?,
        Some(came) => {
            if came.as_str() == wanted {
                return Ok(true);
            }
            println!(rt; "{command} = {came}")?;
        }
    }
    Ok(false)
}

/// Tells all lines. How many came out otherwise than they want.
fn tell_lines<R: Print>(rt: &R, alloc: Global, list: &str) -> anyhow::Result<u64> {
    let mut odd: u64 = 0;
    for line in list.lines() {
        if !tell_line(rt, alloc, line)? {
            odd = odd.saturating_add(1);
        }
    }
    Ok(odd)
}

fn main(rt: HostRuntime) -> anyhow::Result<()> {
    let ReadAll::Bytes(list) = read_all(rt.alloc(), &mut StdSource::new(rt.stdin()), LIST_BYTES)
    else {
        bail!("the list can't be read");
    };
    let odd = tell_lines(&rt, rt.alloc(), str::from_utf8(list.as_slice())?)?;
    ensure!(odd == 0, "{odd} lines came out otherwise than they want");
    Ok(())
}
