//! Why a word isn't what stands at its place, and what stands at the places of a verb.

ghost use Rattle.std.specs.Prelude.{◌≡◌, IfOk};
ghost use Rattle.uv_script.specs.Amiss.{digits_wrong, number_wrong, numbered_wrong, named_wrong, handle_wrong, object_wrong, count_wrong, word_wrong, create_takes, verb_takes, data_takes, is_operand, is_built, bytes_are_built, is_later_verb, is_later_deed, is_later_head};
ghost use Rattle.uv_script.specs.Bytes.{spelled_bytes};
ghost use Rattle.uv_script.specs.Kept.{look_kept};

use crate::built::verb_for;
use crate::bytes::bytes_in;
use crate::data_calls::{count, solicited};
use crate::data_verbs::DataWord;
use crate::handles::{handle, may_handle, object};
use crate::names::{Names, is_name};
use crate::numbers::{are_digits, number, starts_bare};
use crate::operands::service;
use crate::places::{device, file};
use crate::verbs::VerbWord;
use crate::wrong::{Operand, Wrong};
use std::alloc::{AllocError, Global};
use uv_num::{Errno, Kind, Request};
use uv_schema::command;

fn digits_wrong(digits: &[u8]) -> Wrong
    ensures { result ≡ digits_wrong digits.now }
{
    if digits.is_empty() || !are_digits(digits) {
        Wrong::NotA(Operand::Number)
    } else if starts_bare(digits) {
        Wrong::TooGreat
    } else {
        Wrong::LeadingZero
    }
}

fn number_wrong(word: &[u8]) -> Wrong
    ensures { result ≡ number_wrong word.now }
{
    match word.strip_prefix(b"0x") {
        Some(_) => Wrong::NotA(Operand::Number),
        None => digits_wrong(word),
    }
}

fn numbered_wrong(digits: &[u8]) -> Wrong
    ensures { result ≡ numbered_wrong digits.now }
{
    if number(digits).is_none() {
        number_wrong(digits)
    } else {
        Wrong::HandleTooGreat
    }
}

fn named_wrong(word: &[u8]) -> Wrong
    ensures { result ≡ named_wrong word.now }
{
    if is_name(word) {
        Wrong::Undeclared
    } else {
        Wrong::NotA(Operand::Handle)
    }
}

fn handle_wrong(word: &[u8]) -> Wrong
    ensures { result ≡ handle_wrong word.now }
{
    match word.strip_prefix(b"#") {
        Some(digits) => numbered_wrong(digits),
        None => named_wrong(word),
    }
}

fn object_wrong(names: &Names<'_>, kind: Kind, word: &[u8]) -> Wrong
    ensures { result ≡ object_wrong (look_kept names.now) kind word.now }
{
    if is_name(word) && names.get(word).is_none() {
        Wrong::Undeclared
    } else {
        Wrong::NotA(Operand::Object(kind))
    }
}

fn count_wrong(word: &[u8]) -> Wrong
    ensures { result ≡ count_wrong word.now }
{
    if number(word).is_none() {
        number_wrong(word)
    } else {
        Wrong::NotA(Operand::Count)
    }
}

/// Why a word that isn't this operand isn't it.
pub(crate) fn word_wrong(names: &Names<'_>, operand: Operand, word: &[u8]) -> Wrong
    ensures { result ≡ word_wrong (look_kept names.now) operand word.now }
{
    match operand {
        Operand::File | Operand::Device | Operand::Service | Operand::Bytes | Operand::Solicited =>
            Wrong::NotA(operand),
        Operand::Handle | Operand::MayHandle => handle_wrong(word),
        Operand::Number => number_wrong(word),
        Operand::Object(kind) => object_wrong(names, kind, word),
        Operand::Count => count_wrong(word),
    }
}

fn create_takes(kind: Kind) -> &'static [Operand]
    ensures { result.now ≡ create_takes kind }
{
    match kind {
        Kind::Pd | Kind::Channel => &[],
        Kind::Cq => &[Operand::Number, Operand::MayHandle],
        Kind::Qp => &[
            Operand::Handle,
            Operand::Handle,
            Operand::Handle,
            Operand::MayHandle,
            Operand::Service,
            Operand::Number,
            Operand::Number,
        ],
        Kind::Srq => &[Operand::Handle, Operand::Number],
        Kind::Ah => &[Operand::Handle, Operand::Device],
        Kind::Mr => &[Operand::Handle, Operand::Number, Operand::Number],
        Kind::Mw => &[Operand::Handle],
    }
}

/// The operands of a verb, by their places.
pub(crate) fn verb_takes(verb: VerbWord) -> &'static [Operand]
    ensures { result.now ≡ verb_takes verb }
{
    match verb {
        VerbWord::Open => &[Operand::Device],
        VerbWord::Close | VerbWord::GetAsync => &[],
        VerbWord::Raw => &[Operand::Bytes],
        VerbWord::Create(kind) => create_takes(kind),
        VerbWord::Destroy(_) => &[Operand::Handle],
        VerbWord::BindMw => &[
            Operand::Handle,
            Operand::MayHandle,
            Operand::Number,
            Operand::Number,
            Operand::Number,
        ],
    }
}

/// The operands of a call of the data path, by their places.
pub(crate) fn data_takes(verb: DataWord) -> &'static [Operand]
    ensures { result.now ≡ data_takes verb }
{
    match verb {
        DataWord::Poll => &[Operand::Object(Kind::Cq), Operand::Count],
        DataWord::Arm => &[Operand::Object(Kind::Cq), Operand::Solicited],
        DataWord::Event => &[Operand::Object(Kind::Channel)],
    }
}

/// Whether a word is this operand. Only bytes take memory.
pub(crate) fn is_operand(
    alloc: Global,
    names: &Names<'_>,
    operand: Operand,
    word: &[u8],
) -> Result<bool, AllocError>
    ensures { IfOk result (λ is. is ≡ is_operand (look_kept names.now) operand word.now) }
{
    match operand {
        Operand::File => Ok(file(word).is_some()),
        Operand::Device => Ok(device(word).is_some()),
        Operand::Handle => Ok(handle(names, word).is_some()),
        Operand::MayHandle => Ok(may_handle(names, word).is_some()),
        Operand::Number => Ok(number(word).is_some()),
        Operand::Service => Ok(service(word).is_some()),
        Operand::Bytes => {
            let bytes = bytes_in(alloc, word)?;
            Ok(bytes.is_some())
        }
        Operand::Object(kind) => Ok(object(names, kind, word).is_some()),
        Operand::Count => Ok(count(word).is_some()),
        Operand::Solicited => Ok(solicited(word).is_some()),
    }
}

fn is_built(command: Result<Request, Errno>) -> bool
    ensures { result ≡ is_built command }
{
    match command {
        Err(_) => true,
        Ok(request) => verb_for(request).is_some(),
    }
}

/// Whether a line of today makes the request that the bytes of a word ask for, if they ask for one.
pub(crate) fn bytes_are_built(alloc: Global, word: &[u8]) -> Result<bool, AllocError>
    ensures { IfOk result (λ is. is ≡ bytes_are_built (spelled_bytes word.now)) }
{
    match bytes_in(alloc, word)? {
        None => Ok(true),
        Some(bytes) => {
            let command = command(alloc, bytes.as_slice())?;
            Ok(is_built(command))
        }
    }
}

/// Whether a word is the verb of a line that isn't built yet.
pub(crate) fn is_later_verb(word: &[u8]) -> bool
    ensures { result ≡ is_later_verb word.now }
{
    word == b"modify_qp".as_slice() || word == b"query_qp".as_slice()
}

/// Whether a word stands in the place of a file on a line that isn't built yet.
pub(crate) fn is_later_deed(word: &[u8]) -> bool
    ensures { result ≡ is_later_deed word.now }
{
    word == b"post_send".as_slice()
        || word == b"post_recv".as_slice()
        || word == b"post_srq".as_slice()
        || word == b"poke".as_slice()
        || word == b"peek".as_slice()
}

/// Whether a word is the head of a line that isn't built yet.
pub(crate) fn is_later_head(word: &[u8]) -> bool
    ensures { result ≡ is_later_head word.now }
{
    word == b"settle".as_slice()
        || word == b"tick".as_slice()
        || word == b"turn".as_slice()
        || word == b"net".as_slice()
        || word == b"drop".as_slice()
        || word == b"dup".as_slice()
        || word == b"inject".as_slice()
        || word == b"---".as_slice()
}
