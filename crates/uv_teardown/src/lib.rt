//! The teardowns of files: a device is pulled, a file's teardown begins by its client's close or by the driver's tear, and
//! then takes one object out of use at a time, users first and newest first, until none stands.
//!
//! Each call reads the graph, chooses the entry that the machine makes next, and has the graph's one writer note it. The
//! layer above cites `TearGives`, `SweepGives` and `ReleasesBy` (`uv_graph`, `specs/Turns.antt`).
#![tactic(auto)]

mod begins;
mod devices;
mod sweeps;

pub use begins::{close, tear};
pub use devices::unplug;
pub use sweeps::{gone, sweep};
