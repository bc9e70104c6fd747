//! Which rule decided: each line of a script, told with its entries, the rules that refused, and its replies.
//!
//! A program's `main` calls `start`. Its clauses speak of the statuses; `line_entries` says which entries are told for a line.
#![tactic(auto)]

mod asked;
mod cuts;
mod entries;
mod lanes;
mod names;
mod replies;
mod rules;
mod sentences;
mod telling;
#[cfg(test)]
mod tests;
mod top;
mod words;

pub use top::start;
