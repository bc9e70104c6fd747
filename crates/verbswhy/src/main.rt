//! `verbswhy`: tells which rule decided, line by line of a script.
//!
//! With no words it reads a script from standard input and tells, for each line, its entries in plain words, where one was
//! refused the rule that refused it, and its replies. `--rules` lists the keys of all rules, and `--rule KEY` tells one of them.
//! The program is the outside of [`uv_why::start`]. Nothing is written to standard error.
#![tactic(auto)]

use std::process::ExitCode;
use uv_io::{StdSink, StdSource};
use uv_run::arguments;
use uv_why::start;

fn main(rt: HostRuntime) -> ExitCode {
    let mut source = StdSource::new(rt.stdin());
    let mut sink = StdSink::new(rt.stdout());
    ExitCode::from(start(rt.alloc(), arguments(&rt), &mut source, &mut sink))
}
