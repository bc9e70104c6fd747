//! What a run ends with.

use uv_report::Record;

/// The end of a run.
#[derive(Debug, Drop)]
pub struct Done {
    /// 0: the script was run and the report written. 1: the script has a line outside the language. 2: the words are none
    /// of the forms. 3: the source failed. 4: the sink failed as the report was written. 5: memory ran out. 6: the
    /// script is too long.
    pub status: u8,
    /// What the run stored and told.
    pub told: Record,
}
