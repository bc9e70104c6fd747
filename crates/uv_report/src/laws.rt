//! The laws of reports, each the contract of a function that does nothing.

ghost use Rattle.uv_report.specs.Laws.{ReportIsItsLines};

/// A report can be cut into its lines again: one for each text in its order, then how many objects were left, then one for
/// each object that went at the end, and no other.
pub fn report_is_its_lines()
    ensures { ReportIsItsLines }
{}
