//! Opens, enters, and the calls that act: a file is opened, a call enters or is refused, and a call that modifies, queries,
//! binds or takes an event makes its steps.
//!
//! Each function reads the object graph, chooses the entry that the machine makes next, and has the graph make it. The core
//! above cites `OpenGives`, `EnterGives`, `StepGives` and `ActsBy` (`specs/Turns.antt` of `uv_graph`).
#![tactic(auto)]

mod acting;
mod entering;
mod opening;

pub use acting::{act, step};
pub use entering::{enter, refuse};
pub use opening::open;

#[cfg(test)]
mod tests;
