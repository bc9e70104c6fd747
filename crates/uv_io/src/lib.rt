//! The outside: where bytes come from, where they go, and the gates that events pass.
//!
//! The layer above reads its input by [`read_all`] and writes its output by [`write_all`], over any [`Source`] and
//! any [`Sink`]. Their contracts speak of the bytes left and the bytes written, where the outside tells them, and of
//! counts of faults: an answer that blames the outside comes only where such a count rose. The adapters for standard
//! input and output are the only lines here that reach the system.
#![tactic(auto)]

mod clean;
mod failed;
mod failing;
mod gate;
mod memory;
mod sink;
mod source;
mod standard;
mod store;
mod supply;
mod whole;

pub use clean::{CleanSink, CleanSource};
pub use failed::Failed;
pub use gate::{Gate, OpenGate};
pub use memory::{MemSink, MemSource};
pub use sink::Sink;
pub use source::Source;
pub use standard::{StdSink, StdSource};
pub use whole::{ReadAll, read_all, write_all};
