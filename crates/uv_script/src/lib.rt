//! The language of scripts: which bytes are a script, and what its lines say.
//!
//! `parse` is what the layers above use: it reads bytes to a `Script`, or names the first line that is outside
//! the language. The grammar stands in `specs/` as definitions on bytes, lines and words: what the lines in front leave
//! (`Before`), the head of a line (`Heads`), the table of verbs (`Verbs`) and what each takes (`Operands`, `Deeds`).
//! Command bytes of a raw line are read by `uv_schema`'s `command`, and a line holds what they ask for.
#![tactic(auto)]

mod amiss;
mod amiss_laws;
mod built;
mod bytes;
mod context;
mod data_calls;
mod data_verbs;
mod deeds;
mod form;
mod handles;
mod heads;
mod laws;
mod names;
mod numbers;
mod operands;
mod parsing;
mod places;
mod reading;
mod script;
mod splits;
#[cfg(test)]
mod tests;
mod verbs;
mod words;
mod wrong;
mod wrong_words;

pub use amiss::first_amiss;
pub use amiss_laws::{line_is_amiss, script_is_amiss};
pub use form::{DataCall, Deed, Form, Handle, Line, Mode, ScriptFault, Verb};
pub use laws::{lines_join, names_stand_for_lines_above, the_dead_are_silent};
pub use parsing::parse;
pub use script::Script;
pub use wrong::{Amiss, AmissLine, Operand, Wrong};
