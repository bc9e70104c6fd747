//! `verbsrun` once more, with a stored run of its own: a line is outside the language, so it ends with status 1.
#![tactic(auto)]

use std::process::ExitCode;
use uv_io::{OpenGate, StdSink, StdSource};
use uv_run::{arguments, start};

fn main(rt: HostRuntime) -> ExitCode {
    let mut source = StdSource::new(rt.stdin());
    let mut sink = StdSink::new(rt.stdout());
    let done = start(
        &rt,
        rt.alloc(),
        arguments(&rt),
        &mut source,
        &mut sink,
        &OpenGate,
    );
    ExitCode::from(done.status)
}
