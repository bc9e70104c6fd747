//! Counts over the table of calls.

ghost use Rattle.std.specs.Prelude.{◌≡◌, count_by, length, ◌<◌, ◌^◌};
ghost use Rattle.uv_machine.specs.Plans.{is_call_on};

use uv_machine::InFlight;

fn is_on(slot: Option<InFlight>, file: u32) -> bool
    ensures { result ≡ is_call_on file slot }
{
    match slot {
        None => false,
        Some(call) => call.file == file,
    }
}

/// How many calls of a table are on a file.
pub fn count_on(calls: &[Option<InFlight>], file: u32) -> u32
    requires { length calls.now < 2 ^ 32 }
    ensures { result ≡ count_by (is_call_on file) calls.now }
{
    calls.iter().filter(|slot| is_on(**slot, file)).count() as u32
}
