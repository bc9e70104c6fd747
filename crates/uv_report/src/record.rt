//! What a run stored and told.

use crate::Saying;
use uv_model::{Entry, Left};
use uv_num::List;

/// A text of a report, behind the number of its script line, lines being numbered from 1.
#[derive(Clone, Copy, Debug, PartialEq)]
pub struct Said {
    /// The script line: a reply has that of the line that began its call or teardown.
    pub line: u32,
    /// What is told.
    pub text: Saying,
}

/// What a run stored and told: empty unless its status is 0 or 4.
#[derive(Debug, Drop)]
pub struct Record {
    /// The history of the object-graph machine, entry by entry.
    pub history: List<Entry>,
    /// The texts, in the order in which they came.
    pub replies: List<Said>,
    /// The objects that were left behind the last line, oldest first.
    pub left: List<Left>,
}
