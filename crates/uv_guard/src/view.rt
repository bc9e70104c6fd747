//! What a seat or a deed knows of one cell.

use crate::life::{Life, Planting, Stage};
use std::collections::LinkedList;
use uv_order::Taken;

/// Who it is that steps.
pub enum Role {
    /// A seat, which takes the value and gives it back.
    Taker,
    /// The deed.
    Owner,
    /// What was joined away, or was split off only to tell something.
    Gone,
}

/// What a seat found in a word of the cell: the life word, which is 0, or the turn word, which is 1. No value of it is
/// made.
pub struct Found {
    pub word: usize,
    pub value: u64,
}

/// What a seat has while it is in the cell: the number of its taking, the generation, and the value that it entered
/// with. No value of it is made.
pub struct Held<T> {
    pub number: u64,
    pub generation: u64,
    pub value: T,
}

/// What a seat knew that was joined to the deed. No value of it is made.
pub struct Kept<T> {
    pub number: u64,
    pub took: LinkedList<Taken<T>>,
    pub plants: LinkedList<Planting<T>>,
    pub lives: LinkedList<Life<T>>,
}

/// A view of the cell. No value of it is made.
pub struct View<T> {
    pub role: Role,
    /// The seat's number.
    pub number: u64,
    /// The generation that the seat refers to.
    pub refers: Option<u64>,
    pub entered: Option<Held<T>>,
    /// The words that the seat found at its last look or try, in order.
    pub found: LinkedList<Found>,
    /// The seat's takings that it gave back, in order.
    pub took: LinkedList<Taken<T>>,
    /// The cell's plantings and its lives that are over: all of them at the deed, at a seat those that it was told.
    pub plants: LinkedList<Planting<T>>,
    pub lives: LinkedList<Life<T>>,
    /// The deed's: how far it is, the generation, how many seats were made, and what the seats knew that were joined.
    pub stage: Stage<T>,
    pub generation: u64,
    pub given: u64,
    pub kept: LinkedList<Kept<T>>,
}
