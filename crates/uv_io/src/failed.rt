//! The one error of the outside.

/// A read or a write failed. It doesn't say why: the source or the sink counts it as a fault.
///
/// This project's own.
#[derive(Clone, Copy, Debug, PartialEq, Eq)]
pub struct Failed;
