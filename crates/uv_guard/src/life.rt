//! The lives of a cell. A life begins where the cell is planted, and ends where it is buried; its generation is the
//! number of the lives before it.

/// How far a deed is, with the value that it planted. A deed that fills has the empty slot of the cell; one that is clear
/// has taken the value out, which is told second.
pub enum Stage<T> {
    Home,
    Filling,
    Planted(T),
    Doomed(T),
    Clear(T, T),
    /// The cell was buried at its last generation, and is never used again.
    Spent,
}

/// A planting. No value of it is made.
pub struct Planting<T> {
    pub generation: u64,
    pub value: T,
}

/// A life that is over. No value of it is made.
pub struct Life<T> {
    pub generation: u64,
    pub planted: T,
    pub given: T,
}
