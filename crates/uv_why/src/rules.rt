//! The rules, told by their keys.

ghost use Rattle.std.specs.Prelude.{◌≡◌, IfSome};
ghost use Rattle.uv_why.specs.Keys.{decided_errno, decided_key, decided_source};

use crate::sentences::{
    access_sentence, bytes_sentence, call_sentence, machine_sentence, packet_sentence,
};
use std::alloc::AllocError;
use uv_attr::BYTES_RULES;
use uv_machine::{RULES, Rule};
use uv_num::Errno;
use uv_region::AccessRule;
use uv_responder::PacketRule;
use uv_schema::{CALL_RULES, CommandRule};

/// All rules of an access by a key, each once.
const ACCESS_RULES: [AccessRule; 5] = [
    AccessRule::Unknown,
    AccessRule::Bounds,
    AccessRule::Right,
    AccessRule::Domain,
    AccessRule::Window,
];

/// All rules of a request of a connection, each once.
const PACKET_RULES: [PacketRule; 14] = [
    PacketRule::Duplicate,
    PacketRule::Reread,
    PacketRule::Stale,
    PacketRule::Ahead,
    PacketRule::Busy,
    PacketRule::Invalidate,
    PacketRule::Place,
    PacketRule::Payload,
    PacketRule::Length,
    PacketRule::Granted,
    PacketRule::Receive,
    PacketRule::Range,
    PacketRule::Room,
    PacketRule::Parts,
];

/// How many rules there are.
fn rule_count() -> usize {
    RULES.len() + BYTES_RULES.len() + CALL_RULES.len() + ACCESS_RULES.len() + PACKET_RULES.len()
}

/// A rule that refuses a line, or a packet.
#[derive(Clone, Copy, Debug, PartialEq)]
pub enum Decided {
    /// A rule of the machine.
    Machine(Rule),
    /// A rule of command bytes, of the method table or of ranges.
    Command(CommandRule),
    /// A rule of an access by a key.
    Access(AccessRule),
    /// A rule of a request of a connection.
    Packet(PacketRule),
}

impl Decided {
    /// The rule at a place among all: those of the machine, of bytes, of calls, of keys, and of packets.
    pub fn at(place: usize) -> Option<Decided> {
        if place < RULES.len() {
            return Some(Decided::Machine(RULES[place]));
        }
        let place = place - RULES.len();
        if place < BYTES_RULES.len() {
            return Some(Decided::Command(CommandRule::Bytes(BYTES_RULES[place])));
        }
        let place = place - BYTES_RULES.len();
        if place < CALL_RULES.len() {
            return Some(Decided::Command(CommandRule::Call(CALL_RULES[place])));
        }
        Decided::of_packets(place - CALL_RULES.len())
    }

    /// The rule at a place among those that packets meet.
    fn of_packets(place: usize) -> Option<Decided> {
        if place < ACCESS_RULES.len() {
            return Some(Decided::Access(ACCESS_RULES[place]));
        }
        let rule = PACKET_RULES.get(place - ACCESS_RULES.len())?;
        Some(Decided::Packet(*rule))
    }

    /// The rule of a key.
    pub fn with_key(key: &str) -> Option<Decided>
        ensures { IfSome result (λ rule. decided_key rule ≡ key.now) }
    {
        for place in 0..rule_count() {
            let rule = Decided::at(place)?;
            if rule.key() == key {
                return Some(rule);
            }
        }
        None
    }

    /// Its key.
    pub fn key(self) -> &'static str
        ensures { result.now ≡ decided_key self }
    {
        match self {
            Decided::Machine(rule) => rule.key(),
            Decided::Command(rule) => rule.key(),
            Decided::Access(rule) => rule.key(),
            Decided::Packet(rule) => rule.key(),
        }
    }

    /// The errno that it refuses with. A packet that is refused has none.
    fn errno(self) -> Option<Errno>
        ensures { result ≡ decided_errno self }
    {
        match self {
            Decided::Machine(rule) => Some(rule.errno()),
            Decided::Command(rule) => Some(rule.errno()),
            Decided::Access(_) | Decided::Packet(_) => None,
        }
    }

    /// Whose rule it is.
    fn source(self) -> &'static str
        ensures { result.now ≡ decided_source self }
    {
        match self {
            Decided::Machine(rule) => rule.source(),
            Decided::Command(rule) => rule.source(),
            Decided::Access(rule) => rule.source(),
            Decided::Packet(rule) => rule.source(),
        }
    }

    /// What it asks for.
    fn sentence(self) -> &'static str {
        match self {
            Decided::Machine(rule) => machine_sentence(rule),
            Decided::Command(CommandRule::Bytes(rule)) => bytes_sentence(rule),
            Decided::Command(CommandRule::Call(rule)) => call_sentence(rule),
            Decided::Access(rule) => access_sentence(rule),
            Decided::Packet(rule) => packet_sentence(rule),
        }
    }

    /// Whether a script of today reaches it: not where memory runs out, where no script is long enough, or where its line isn't
    /// built.
    fn is_reached(self) -> bool {
        match self {
            Decided::Machine(rule) => match rule {
                Rule::OpenMemory
                | Rule::EnterMemory
                | Rule::MakeIds
                | Rule::ModifyState
                | Rule::ModifyTable
                | Rule::BindMissing => false,
                _ => true,
            },
            Decided::Command(_) => true,
            Decided::Access(_) | Decided::Packet(_) => false,
        }
    }
}

/// Writes a rule: its key, its errno if it has one, what it asks for, and whose it is.
pub fn put_rule(text: &mut String, rule: Decided) -> Result<(), AllocError> {
    text.push_str(rule.key())?;
    if let Some(errno) = rule.errno() {
        write!(text, " {}", errno.name())?;
    }
    write!(text, ": {} ({})\n", rule.sentence(), rule.source())
}

/// Writes all keys, a line each. Those that no script reaches yet are marked.
pub fn put_rules(text: &mut String) -> Result<(), AllocError> {
    for place in 0..rule_count() {
        let Some(rule) = Decided::at(place) else {
            return Ok(());
        };
        put_key(text, rule)?;
    }
    Ok(())
}

fn put_key(text: &mut String, rule: Decided) -> Result<(), AllocError> {
    text.push_str(rule.key())?;
    if !rule.is_reached() {
        text.push_str(" (no script reaches it yet)")?;
    }
    text.push_str("\n")
}
