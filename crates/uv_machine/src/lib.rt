//! The object-graph machine of the verbs layer: what an object, a call and a file are, which step a call
//! makes next, which entries a history may have, and the state after each.
//!
//! The definitions stand in `specs/`, on the plain data that is declared here; beside them a plain program
//! computes them. The layers above cite `next_of`, `Allowed`, `after`, `IsLegal` and `state_of`.
#![tactic(auto)]

mod acts;
mod call;
mod costs;
mod effects;
mod entry;
mod file;
mod judging;
pub mod laws;
mod log;
mod marks;
mod moves;
mod object;
mod outside;
mod pool;
mod readers;
mod reads;
mod rule;
mod rules;
mod state;
mod steps;
mod told;

pub use call::{InFlight, PLAN_STEPS};
pub use costs::owed_by;
pub use entry::{Answer, CallStep, Entry, Word};
pub use file::{File, FilePhase};
pub use judging::first_bad;
pub use log::Log;
pub use moves::{Generations, Links, Move, Slot, Spot, entry_move};
pub use object::{Binding, Change, Object, Phase};
pub use outside::{
    enter_refusal, may_close, may_dissociate, may_go, may_kill, may_tear, open_refusal,
};
pub use pool::{Cell, Pool};
pub use readers::Readers;
pub use rule::{RULES, Rule};
pub use rules::{enter_rule, next_rule, open_rule, rule_of};
pub use state::State;
pub use steps::next_step;
pub use told::Told;
