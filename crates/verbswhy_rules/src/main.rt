//! `verbswhy` once more, with a stored run of its own: its word is `--rules`, so it reads nothing.
#![tactic(auto)]

use std::process::ExitCode;
use uv_io::{StdSink, StdSource};
use uv_run::arguments;
use uv_why::start;

fn main(rt: HostRuntime) -> ExitCode {
    let mut source = StdSource::new(rt.stdin());
    let mut sink = StdSink::new(rt.stdout());
    ExitCode::from(start(rt.alloc(), arguments(&rt), &mut source, &mut sink))
}
