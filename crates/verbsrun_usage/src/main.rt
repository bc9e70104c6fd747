//! `verbsrun` once more, with a stored run of its own: its words are wrong, so it ends with status 2 and reads nothing.
#![tactic(auto)]

use std::process::ExitCode;
use uv_io::{OpenGate, StdSink, StdSource};
use uv_run::{arguments, start};

fn main(rt: HostRuntime) -> ExitCode {
    let mut source = StdSource::new(rt.stdin());
    let mut sink = StdSink::new(rt.stdout());
    let done = start(
        &rt,
        rt.alloc(),
        arguments(&rt),
        &mut source,
        &mut sink,
        &OpenGate,
    );
    ExitCode::from(done.status)
}
