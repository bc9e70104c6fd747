//! An entry with the seat that made it.

/// The seats of a desk or a guard, numbered from 0 (this project's own).
pub const SEATS: u32 = 32;

/// An entry of a log, with the number of the seat whose turn made it. No value of it is made: logs stand in what
/// seats are known to have seen.
pub struct Signed<E> {
    pub by: u64,
    pub entry: E,
}
