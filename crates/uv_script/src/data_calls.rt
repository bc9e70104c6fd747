//! Calls of the data path.

ghost use Rattle.std.specs.Prelude.{◌≡◌, option_and_then};
ghost use Rattle.uv_num.specs.declared.kind.Kind.TheVariants.{Channel, Cq};
ghost use Rattle.uv_script.specs.DataCalls.{as_count, count_word, solicited_word, poll_operands, arm_operands, event_operands, data_operands, ended, data_call, data_call_of};
ghost use Rattle.uv_script.specs.Handles.{object_word};
ghost use Rattle.uv_script.specs.Kept.{look_kept, before_in};
ghost use Rattle.uv_script.specs.Words.{words_of, first_as, words_left};

use crate::DataCall;
use crate::context::Context;
use crate::data_verbs::DataWord;
use crate::handles::object;
use crate::names::Names;
use crate::numbers::number;
use crate::words::next_word;
use uv_num::Kind;

/// The completions that one poll takes at most (this project's own).
pub const POLLED: u64 = 64;

const _: () = prove!(POLLED == 64);

/// How many completions a poll takes at most: 1 to `POLLED`.
pub(crate) fn count(word: &[u8]) -> Option<u32>
    ensures { result ≡ count_word word.now }
{
    as_count(number(word)?)
}

fn as_count(number: u64) -> Option<u32>
    ensures { result ≡ as_count number }
{
    if 1 <= number && number <= POLLED {
        Some(number as u32)
    } else {
        None
    }
}

/// Whether a word is `sol`, for the next solicited completion alone, and not `all`.
pub(crate) fn solicited(word: &[u8]) -> Option<bool>
    ensures { result ≡ solicited_word word.now }
{
    if word == b"all".as_slice() {
        Some(false)
    } else if word == b"sol".as_slice() {
        Some(true)
    } else {
        None
    }
}

/// A name of a kind, and the words after it.
fn object_operand<'a>(names: &Names<'_>, kind: Kind, text: &'a [u8]) -> Option<(u32, &'a [u8])>
    ensures { words_left result ≡ first_as (object_word (look_kept names.now) kind) (words_of text.now) }
{
    let (word, rest) = next_word(text)?;
    let line = object(names, kind, word)?;
    Some((line, rest))
}

fn count_operand(text: &[u8]) -> Option<(u32, &[u8])>
    ensures { words_left result ≡ first_as count_word (words_of text.now) }
{
    let (word, rest) = next_word(text)?;
    let count = count(word)?;
    Some((count, rest))
}

fn solicited_operand(text: &[u8]) -> Option<(bool, &[u8])>
    ensures { words_left result ≡ first_as solicited_word (words_of text.now) }
{
    let (word, rest) = next_word(text)?;
    let solicited = solicited(word)?;
    Some((solicited, rest))
}

fn poll_operands<'a>(names: &Names<'_>, text: &'a [u8]) -> Option<(DataCall, &'a [u8])>
    ensures { words_left result ≡ poll_operands (look_kept names.now) (words_of text.now) }
{
    let (cq, rest) = object_operand(names, Kind::Cq, text)?;
    let (count, rest) = count_operand(rest)?;
    Some((DataCall::Poll { cq, count }, rest))
}

fn arm_operands<'a>(names: &Names<'_>, text: &'a [u8]) -> Option<(DataCall, &'a [u8])>
    ensures { words_left result ≡ arm_operands (look_kept names.now) (words_of text.now) }
{
    let (cq, rest) = object_operand(names, Kind::Cq, text)?;
    let (solicited, rest) = solicited_operand(rest)?;
    Some((DataCall::Arm { cq, solicited }, rest))
}

fn event_operands<'a>(names: &Names<'_>, text: &'a [u8]) -> Option<(DataCall, &'a [u8])>
    ensures { words_left result ≡ event_operands (look_kept names.now) (words_of text.now) }
{
    let (channel, rest) = object_operand(names, Kind::Channel, text)?;
    Some((DataCall::Event { channel }, rest))
}

fn data_operands<'a>(
    names: &Names<'_>,
    verb: DataWord,
    text: &'a [u8],
) -> Option<(DataCall, &'a [u8])>
    ensures { words_left result ≡ data_operands (look_kept names.now) verb (words_of text.now) }
{
    match verb {
        DataWord::Poll => poll_operands(names, text),
        DataWord::Arm => arm_operands(names, text),
        DataWord::Event => event_operands(names, text),
    }
}

/// A call, where nothing stands after its operands.
fn ended(call: DataCall, text: &[u8]) -> Option<DataCall>
    ensures { result ≡ ended call (words_of text.now) }
{
    match next_word(text) {
        None => Some(call),
        Some(_) => None,
    }
}

fn data_call(names: &Names<'_>, verb: DataWord, text: &[u8]) -> Option<DataCall>
    ensures { result ≡ data_call (look_kept names.now) verb (words_of text.now) }
{
    let (call, rest) = data_operands(names, verb, text)?;
    ended(call, rest)
}

/// The call that a client makes by a verb with the words after it. One that died makes none.
pub(crate) fn data_call_of(
    context: &Context<'_>,
    client: u32,
    verb: DataWord,
    text: &[u8],
) -> Option<DataCall>
    ensures { result ≡ data_call_of (before_in context.now) client verb (words_of text.now) }
{
    if context.is_dead(client) {
        None
    } else {
        data_call(&context.names, verb, text)
    }
}
