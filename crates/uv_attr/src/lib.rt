//! Command bytes: what the kernel's uverbs ioctl would be given, as a call with its attributes.
//!
//! The layer above reads bytes by `decode_call`, whose clauses say which of the five cases refuses them and
//! which call they are otherwise. `call_bytes` of `specs/Command.antt` is the grammar, `refusal_of` of
//! `specs/Refusal.antt` the order of the cases, and `laws` says that the two directions are inverse.
#![tactic(auto)]

mod call;
mod decoding;
mod encoding;
mod fault;
mod fields;
mod laws;
mod refusing;
mod rule;
mod rule_laws;
mod rules;
#[cfg(test)]
mod tests;

pub use call::{ATTR_BYTES, Attr, Call, HEADER_BYTES, MOST_ATTRS};
pub use decoding::decode_call;
pub use encoding::{encode_call, repeats_id};
pub use fault::CallFault;
pub use laws::{accepted_bytes_are_a_command, command_has_one_reading, command_is_read_back};
pub use rule::{BYTES_RULES, BytesRule};
pub use rule_laws::bytes_have_rule;
pub use rules::bytes_rule;
