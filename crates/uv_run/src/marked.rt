//! A run that tells, beside its record, how long the history was as each line began.

ghost use Rattle.uv_run.specs.Marks.{MarkedAs};

use crate::play::play_marked;
use std::alloc::{AllocError, Global};
use uv_num::List;
use uv_report::Record;
use uv_script::{Mode, Script, ScriptFault, parse};

/// A script that was run, with its record and its marks.
#[derive(Debug, Drop)]
pub struct Marked {
    /// The lines that say something.
    pub script: Script,
    /// What the run stored and told.
    pub told: Record,
    /// How long the history was as each of these lines began, and after the last one: one mark more than lines.
    pub marks: List<usize>,
}

/// Runs the script of these bytes, if they are one, on one thread, as `run_steps` does, but writes nothing. Where they are none it
/// names the first line outside the language, as that.
pub fn mark_steps(alloc: Global, bytes: &[u8]) -> Result<Marked, ScriptFault>
    ensures { MarkedAs bytes.now result }
{
    let script = parse(alloc, bytes, Mode::Steps)?;
    match play_marked(alloc, &script) {
        Ok((told, marks)) => Ok(Marked {
            script,
            told,
            marks,
        }),
        Err(AllocError) => Err(ScriptFault::NoMemory),
    }
}
