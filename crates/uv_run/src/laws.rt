//! Laws of runs, each the contract of a function that does nothing.

ghost use Rattle.uv_run.specs.Laws.{MarksAreCuts, RecordIsTold};

/// Where no text is ENOMEM, the lines of a script determine the record of their run.
pub fn record_is_told()
    ensures { RecordIsTold }
{}

/// The marks of a run cut its history into pieces, one for each line and one after the last: they rise from 0 on, and none is
/// past its end.
pub fn marks_are_cuts()
    ensures { MarksAreCuts }
{}
