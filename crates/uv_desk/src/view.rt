//! What a seat knows.
use std::collections::LinkedList;
use uv_order::Signed;

/// What a seat that was joined to the first had seen and owned. No value of it is made.
pub struct Kept<E, O> {
    pub number: u64,
    pub seen: LinkedList<Signed<E>>,
    pub own: Option<O>,
}

/// What a seat of a desk knows. No value of it is made.
pub struct View<M, E, O> {
    /// It has a number, and not only what another has seen.
    pub numbered: bool,
    pub number: u64,
    pub ticket: Option<u64>,
    /// The machine as it was taken, while the seat has it.
    pub held: Option<M>,
    pub seen: LinkedList<Signed<E>>,
    /// What another seat had seen, during a meeting.
    pub told: LinkedList<Signed<E>>,
    /// The machine as it was at first. The first seat alone has it, and makes the others.
    pub start: Option<M>,
    /// The number of the seat that is made next.
    pub next: u64,
    /// The first seat stands for the numbers from here on, as the others are joined to it.
    pub whole: u64,
    /// What the joined seats had seen and owned.
    pub joined: LinkedList<Kept<E, O>>,
    pub own: Option<O>,
}
