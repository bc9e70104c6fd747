//! What a seat did with a value that it took.

/// A taking: the number of the cell's takings before it, the generation of the cell, the value as it was entered with,
/// and as it was left. No value of it is made.
pub struct Taken<T> {
    pub number: u64,
    pub generation: u64,
    pub entered: T,
    pub left: T,
}
