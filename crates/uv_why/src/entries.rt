//! Entries of the history, each with the rule that refused it.

ghost use Rattle.std.specs.Prelude.{◌≡◌};
ghost use Rattle.uv_machine.specs.Histories.{after};
ghost use Rattle.uv_machine.specs.RuleNames.{rule_of};

use crate::names::{put_actor, put_object, request_word};
use crate::rules::{Decided, put_rule};
use std::alloc::AllocError;
use uv_machine::{Entry, Object, Readers, Rule, State, rule_of};
use uv_num::Errno;
use uv_report::Saying;

/// An entry, with what is told of it.
#[derive(Drop)]
pub struct Passed {
    /// The entry.
    pub entry: Entry,
    /// The object that it names, before it or after it.
    pub object: Option<Object>,
    /// The rule by which it was refused.
    pub rule: Option<Rule>,
}

/// The id of the object that an entry names.
fn object_in(entry: Entry) -> Option<u32> {
    match entry {
        Entry::Step { object, .. } | Entry::Kill { object } | Entry::Gone { object, .. } => Some(
            object,
        ),
        Entry::Open { .. }
        | Entry::Enter { .. }
        | Entry::Unplug { .. }
        | Entry::Tear { .. }
        | Entry::Dissociated { .. }
        | Entry::Closed { .. } => None,
    }
}

fn object_of(state: &State, id: Option<u32>) -> Option<Object> {
    state.object_with(id?)
}

/// Takes the state over an entry. Its rule is asked before it.
pub fn pass(state: &mut State, entry: Entry) -> Passed
    ensures rule { result.rule ≡ rule_of state.old entry }
    ensures entry { result.entry ≡ entry }
    ensures state { state.new ≡ after state.old entry }
{
    let rule = rule_of(state, entry);
    let id = object_in(entry);
    let before = object_of(state, id);
    state.apply(entry);
    Passed {
        entry,
        object: before.or(object_of(state, id)),
        rule,
    }
}

/// Writes entries, and takes the state over them.
pub fn put_entries(
    text: &mut String,
    state: &mut State,
    entries: &[Entry],
) -> Result<(), AllocError> {
    for entry in entries {
        put_passed(text, &pass(state, *entry))?;
    }
    Ok(())
}

fn put_passed(text: &mut String, passed: &Passed) -> Result<(), AllocError> {
    text.push_str("  ")?;
    put_entry(text, passed.entry, &passed.object)?;
    text.push_str("\n")?;
    match passed.rule {
        None => Ok(()),
        Some(rule) => put_refusing(text, Decided::Machine(rule)),
    }
}

/// Writes the rule that refused.
pub fn put_refusing(text: &mut String, rule: Decided) -> Result<(), AllocError> {
    text.push_str("  ! ")?;
    put_rule(text, rule)
}

/// Writes an entry in plain words.
pub fn put_entry(
    text: &mut String,
    entry: Entry,
    object: &Option<Object>,
) -> Result<(), AllocError> {
    match entry {
        Entry::Open {
            client,
            file,
            device,
            answer,
        } => {
            put_actor(text, client)?;
            write!(text, " open f{file} on d{device}")?;
            put_refusal(text, answer.refusal())
        }
        Entry::Enter {
            client,
            file,
            request,
            answer,
        } => {
            put_actor(text, client)?;
            write!(text, " enter {} on f{file}", request_word(&request))?;
            put_refusal(text, answer.refusal())
        }
        Entry::Step {
            client,
            word,
            answer,
            ..
        } => {
            put_actor(text, client)?;
            let refusal = None;
            write!(text, " {}", Saying::Step { word, refusal })?;
            put_named(text, object)?;
            put_refusal(text, answer.refusal())
        }
        Entry::Unplug { device } => write!(text, "drv unplug d{device}"),
        Entry::Tear { file, by } => {
            put_actor(text, by)?;
            write!(text, " tear f{file}")
        }
        Entry::Kill { .. } => {
            text.push_str("kill")?;
            put_named(text, object)
        }
        Entry::Gone { .. } => {
            text.push_str("gone")?;
            put_named(text, object)
        }
        Entry::Dissociated { file } => write!(text, "dissociated f{file}"),
        Entry::Closed { file } => write!(text, "closed f{file}"),
    }
}

fn put_named(text: &mut String, object: &Option<Object>) -> Result<(), AllocError> {
    match object {
        None => Ok(()),
        Some(x) => {
            text.push_str(" ")?;
            put_object(text, x)
        }
    }
}

fn put_refusal(text: &mut String, refusal: Option<Errno>) -> Result<(), AllocError> {
    match refusal {
        None => Ok(()),
        Some(errno) => write!(text, " {}", errno.name()),
    }
}
