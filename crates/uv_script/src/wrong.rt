//! Why a line is outside the language.

ghost use Rattle.std.specs.Prelude.{◌≡◌};
ghost use Rattle.uv_script.specs.WrongTexts.{missing_object, unread_object, missing_text, unread_text, wrong_text};

use uv_num::Kind;

/// What stands at a place of a line, by its place after a head, a file or a verb.
#[derive(Clone, Copy, Debug, PartialEq, Eq)]
pub enum Operand {
    /// F: `f0` to `f15`.
    File,
    /// D: `d0` or `d1`.
    Device,
    /// H: `#` and a number below 2^32, or a name that is declared.
    Handle,
    /// H, or `-` for none.
    MayHandle,
    /// NUM: a number below 2^64.
    Number,
    /// S: `rc` or `ud`.
    Service,
    /// HEX: two hexadecimal digits for each byte.
    Bytes,
    /// The name of an object of this kind.
    Object(Kind),
    /// NUM: how many completions a poll takes at most, 1 to 64.
    Count,
    /// `all` or `sol`.
    Solicited,
}

/// Why a line is outside the language: what the reading finds at the word at which it stops, or what it wants there.
#[derive(Clone, Copy, Debug, PartialEq, Eq)]
pub enum Wrong {
    /// The line is one too many.
    Lines,
    /// A byte of the line is neither a tab nor printed in ASCII.
    Byte,
    /// The first word isn't a head.
    Head,
    /// The client died on a line above.
    Dead,
    /// `die` wants one client.
    Client,
    /// The driver wants `unplug`.
    Unplug,
    /// A verb is missing.
    NoVerb,
    /// The word after a file isn't a verb.
    Verb,
    /// The line is of the language, and isn't built yet.
    NotBuilt,
    /// This is missing.
    Missing(Operand),
    /// The word isn't this.
    NotA(Operand),
    /// A decimal number begins with a 0.
    LeadingZero,
    /// A number is 2^64 or more.
    TooGreat,
    /// A handle is 2^32 or more.
    HandleTooGreat,
    /// No line above declares the name.
    Undeclared,
    /// The line ends before this word, but for `as` and a name after a create.
    More,
    /// A name is missing after `as`.
    NoName,
    /// The word after `as` isn't a name.
    BadName,
    /// A line above declares the name.
    Twice,
}

/// What is wrong with a line.
#[derive(Clone, Copy, Debug, PartialEq)]
pub struct Amiss<'a> {
    /// The word at which the reading stops, which has no bytes where one is missing or no word is to blame.
    pub word: &'a [u8],
    /// Why it stops there.
    pub wrong: Wrong,
}

/// The first line with which something is wrong.
#[derive(Clone, Copy, Debug, PartialEq)]
pub struct AmissLine<'a> {
    /// Its number among all lines of the script, from 1.
    pub number: u32,
    /// What is wrong with it.
    pub amiss: Amiss<'a>,
}

fn missing_object(kind: Kind) -> &'static str
    ensures { result.now ≡ missing_object kind }
{
    match kind {
        Kind::Pd => "a domain's name is missing",
        Kind::Channel => "a channel's name is missing",
        Kind::Cq => "a completion queue's name is missing",
        Kind::Qp => "a queue pair's name is missing",
        Kind::Srq => "a shared receive queue's name is missing",
        Kind::Ah => "an address handle's name is missing",
        Kind::Mr => "a region's name is missing",
        Kind::Mw => "a window's name is missing",
    }
}

fn unread_object(kind: Kind) -> &'static str
    ensures { result.now ≡ unread_object kind }
{
    match kind {
        Kind::Pd => "isn't a domain's name",
        Kind::Channel => "isn't a channel's name",
        Kind::Cq => "isn't a completion queue's name",
        Kind::Qp => "isn't a queue pair's name",
        Kind::Srq => "isn't a shared receive queue's name",
        Kind::Ah => "isn't an address handle's name",
        Kind::Mr => "isn't a region's name",
        Kind::Mw => "isn't a window's name",
    }
}

fn missing_text(operand: Operand) -> &'static str
    ensures { result.now ≡ missing_text operand }
{
    match operand {
        Operand::File => "a file is missing",
        Operand::Device => "a device is missing",
        Operand::Handle => "a handle is missing",
        Operand::MayHandle => "a handle or - is missing",
        Operand::Number => "a number is missing",
        Operand::Service => "a service is missing",
        Operand::Bytes => "bytes are missing",
        Operand::Object(kind) => missing_object(kind),
        Operand::Count => "a count is missing",
        Operand::Solicited => "all or sol is missing",
    }
}

fn unread_text(operand: Operand) -> &'static str
    ensures { result.now ≡ unread_text operand }
{
    match operand {
        Operand::File => "isn't a file",
        Operand::Device => "isn't a device",
        Operand::Handle | Operand::MayHandle => "isn't a handle",
        Operand::Number => "isn't a number",
        Operand::Service => "isn't a service",
        Operand::Bytes => "isn't bytes",
        Operand::Object(kind) => unread_object(kind),
        Operand::Count => "isn't a count of 1 to 64",
        Operand::Solicited => "isn't all or sol",
    }
}

impl Wrong {
    /// What is wrong, in plain words, as they are said of a word.
    pub fn text(self) -> &'static str
        ensures { result.now ≡ wrong_text self }
    {
        match self {
            Wrong::Lines => "a line too many",
            Wrong::Byte => "a byte that no line has",
            Wrong::Head => "isn't a client, drv or die",
            Wrong::Dead => "the client died",
            Wrong::Client => "one client is wanted",
            Wrong::Unplug => "unplug is wanted",
            Wrong::NoVerb => "a verb is missing",
            Wrong::Verb => "isn't a verb",
            Wrong::NotBuilt => "not built yet",
            Wrong::Missing(operand) => missing_text(operand),
            Wrong::NotA(operand) => unread_text(operand),
            Wrong::LeadingZero => "a leading zero",
            Wrong::TooGreat => "a number of 2^64 or more",
            Wrong::HandleTooGreat => "a handle of 2^32 or more",
            Wrong::Undeclared => "isn't declared",
            Wrong::More => "nothing may stand here",
            Wrong::NoName => "a name is missing",
            Wrong::BadName => "isn't a name",
            Wrong::Twice => "is declared already",
        }
    }
}
