//! The method table: which request a call asks for, and which calls and requests are refused.
//!
//! The layers above read a call by `request_of`, or command bytes by `command`, and call `check` before a request that
//! comes from elsewhere enters the machine. `specs/Methods.antt` is the table and `specs/Refusals.antt` the order in
//! which a call is refused; `check` is `checked` of `specs/Check.antt`, over the ranges that `uv_num` states in
//! `specs/Ranges.antt`. `laws` says that the call that a request makes is read as that request again.
#![tactic(auto)]

mod attributes;
mod building;
mod checking;
mod commands;
mod ids;
mod laws;
mod method;
mod numbers;
mod reading;
mod refusing;
mod rights;
mod rule;
mod rule_laws;
mod rules;
#[cfg(test)]
mod tests;
mod values;

pub use checking::check;
pub use commands::command;
pub use laws::request_is_read_back;
pub use method::{Method, Wanted};
pub use reading::request_of;
pub use rule::{CALL_RULES, CallRule, CommandRule};
pub use rule_laws::{call_has_rule, command_has_rule, request_has_rule};
pub use rules::{call_rule, command_rule, request_rule};
