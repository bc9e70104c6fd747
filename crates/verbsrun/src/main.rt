//! `verbsrun`: plays a script of verbs calls, read from standard input, and writes what became of it to standard
//! output.
//!
//! The program is the outside of [`uv_run::start`]: standard input and standard output are the source and the sink, and
//! it ends with the run's status. Nothing is written to standard error.
#![tactic(auto)]

use std::process::ExitCode;
use uv_io::{OpenGate, StdSink, StdSource};
use uv_run::{arguments, start};

fn main(rt: HostRuntime) -> ExitCode {
    let mut source = StdSource::new(rt.stdin());
    let mut sink = StdSink::new(rt.stdout());
    let done = start(
        &rt,
        rt.alloc(),
        arguments(&rt),
        &mut source,
        &mut sink,
        &OpenGate,
    );
    ExitCode::from(done.status)
}
