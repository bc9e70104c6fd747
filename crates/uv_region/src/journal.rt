//! Journals.

use crate::action::Action;
use crate::rights::Rights;
use uv_num::List;

/// What a region was, and all that was done to it, from its registration on.
#[derive(Debug, Drop)]
pub struct Journal {
    /// The id of the region.
    pub object: u32,
    /// The id of its protection domain.
    pub domain: u32,
    /// How many bytes it has.
    pub length: u32,
    pub rights: Rights,
    /// What was done, in order. A read holds the bytes that it read.
    pub actions: List<Action>,
}
