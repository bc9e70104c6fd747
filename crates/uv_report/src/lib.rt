//! What a run tells, and its text.
//!
//! `Record` is what a run stored and told; `write` is its report, as bytes. A text of a report is a `Saying`, which is
//! printed by the definitions in `specs/Report.antt`. The report is this project's own. `report_is_its_lines` says that
//! it can be cut into its lines again.
#![tactic(auto)]

mod laws;
mod record;
mod report;
mod saying;
mod texts;

pub use laws::report_is_its_lines;
pub use record::{Record, Said};
pub use report::write;
pub use saying::{Saying, Tearer};
