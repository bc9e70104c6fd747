//! The words for objects.

ghost use Rattle.std.specs.Prelude.{◌≡◌, option_and_then};
ghost use Rattle.std.specs.Option.{option_map};
ghost use Rattle.uv_script.specs.Handles.{handle_word, may_handle_word, named_handle, as_handle, makes_kind, line_of, object_word};
ghost use Rattle.uv_script.specs.Kept.{look_kept};
ghost use Rattle.uv_script.specs.Numbers.{number_of};

use crate::Handle;
use crate::names::{Known, Names};
use crate::numbers::number;
use uv_num::{Kind, MOST_HANDLE};

/// The object that a word names: `#` and a handle below 2^32, or a name that is declared, of any kind.
pub(crate) fn handle(names: &Names<'_>, word: &[u8]) -> Option<Handle>
    ensures { result ≡ handle_word (look_kept names.now) word.now }
{
    match word.strip_prefix(b"#") {
        Some(digits) => numbered_handle(digits),
        None => named_handle(names, word),
    }
}

fn named_handle(names: &Names<'_>, word: &[u8]) -> Option<Handle>
    ensures { result ≡ option_map named_handle (look_kept names.now word.now) }
{
    let known = names.get(word)?;
    Some(Handle::Name(known.line))
}

fn numbered_handle(digits: &[u8]) -> Option<Handle>
    ensures { result ≡ option_and_then as_handle (number_of digits.now) }
{
    as_handle(number(digits)?)
}

fn as_handle(number: u64) -> Option<Handle>
    ensures { result ≡ as_handle number }
{
    if number <= MOST_HANDLE {
        Some(Handle::Number(number as u32))
    } else {
        None
    }
}

/// The object that a word names, or none where it is `-`.
pub(crate) fn may_handle(names: &Names<'_>, word: &[u8]) -> Option<Option<Handle>>
    ensures { result ≡ may_handle_word (look_kept names.now) word.now }
{
    if word == b"-".as_slice() {
        Some(None)
    } else {
        Some(Some(handle(names, word)?))
    }
}

/// The line that declares the name that a word is, where the name is of this kind.
pub(crate) fn object(names: &Names<'_>, kind: Kind, word: &[u8]) -> Option<u32>
    ensures { result ≡ object_word (look_kept names.now) kind word.now }
{
    line_of(kind, names.get(word)?)
}

fn line_of(kind: Kind, known: Known) -> Option<u32>
    ensures { result ≡ line_of kind known }
{
    if makes_kind(kind, known) {
        Some(known.line)
    } else {
        None
    }
}

fn makes_kind(kind: Kind, known: Known) -> bool
    ensures { result ≡ makes_kind kind known }
{
    known.kind.place() == kind.place()
}
