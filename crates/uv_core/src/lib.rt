//! The object core of the verbs layer as one type: every call on objects, files and devices, with what each asks of its
//! caller and what it leaves to the others.
//!
//! A call asks of its caller's own part alone, adds one entry at most to the stored history, which stays legal, and leaves
//! every other actor's own part. The layers above cite these four clauses (`specs/Beside.antt`) and the clause of the
//! call (`specs/Turns.antt` of `uv_graph`).
#![tactic(auto)]

mod calls;
pub mod laws;
mod readers;
mod teardowns;
mod uses;
mod whole;

pub use uses::Used;
pub use uv_graph::{Progress, Swept, Torn};
pub use whole::Core;

#[cfg(test)]
mod tests;
