//! What a line says.

ghost use Rattle.std.specs.Prelude.{◌≡◌, IfOk, option_and_then};
ghost use Rattle.uv_script.specs.Kept.{before_in, stated_seen, seen};
ghost use Rattle.uv_script.specs.DataVerbs.{data_verb};
ghost use Rattle.uv_script.specs.Places.{client_word};
ghost use Rattle.uv_script.specs.Reading.{says_plain, says_data, plain_reading, says_minus, living, says_plus, says_die, head_reading, words_reading, is_remark, text_reading, reading_of};
ghost use Rattle.uv_script.specs.Words.{words_of, only_of};

use crate::context::Context;
use crate::data_calls::data_call_of;
use crate::data_verbs::data_verb;
use crate::deeds::{Stated, deed_of};
use crate::heads::{Head, head_in};
use crate::names::Naming;
use crate::places::client;
use crate::splits::{is_plain_text, text_of};
use crate::words::{next_word, only_word};
use crate::{DataCall, Form};
use std::alloc::{AllocError, Global};
use uv_num::SCRIPT_LINES;

/// What a line is.
#[derive(Drop)]
pub(crate) enum Read<'a> {
    /// Outside the language.
    Outside,
    /// A comment, or without words.
    Nothing,
    /// This form, which may declare a name.
    Says(Form, Option<Naming<'a>>),
}

/// What a line is, after what stands in front of it. Lines over the limit are outside the language. Only bytes take memory.
pub(crate) fn read_line<'a>(
    alloc: Global,
    context: &Context<'_>,
    line: &'a [u8],
) -> Result<Read<'a>, AllocError>
    ensures { IfOk result (λ read. seen read ≡ reading_of (before_in context.now) line.now) }
{
    if context.number as usize > SCRIPT_LINES {
        return Ok(Read::Outside);
    }
    read_text(alloc, context, text_of(line))
}

fn read_text<'a>(
    alloc: Global,
    context: &Context<'_>,
    text: &'a [u8],
) -> Result<Read<'a>, AllocError>
    ensures { IfOk result (λ read. seen read ≡ text_reading (before_in context.now) text.now) }
{
    if !is_plain_text(text) {
        return Ok(Read::Outside);
    }
    if is_remark(text) {
        return Ok(Read::Nothing);
    }
    read_words(alloc, context, text)
}

pub(crate) fn is_remark(text: &[u8]) -> bool
    ensures { result ≡ is_remark text.now }
{
    match text {
        [] => false,
        [first, ..] => *first == b'#',
    }
}

/// What words are: a head, and what stands after it.
fn read_words<'a>(
    alloc: Global,
    context: &Context<'_>,
    text: &'a [u8],
) -> Result<Read<'a>, AllocError>
    ensures { IfOk result (λ read. seen read ≡ words_reading (before_in context.now) (words_of text.now)) }
{
    match next_word(text) {
        None => Ok(Read::Nothing),
        Some((word, rest)) => match head_in(word) {
            None => Ok(Read::Outside),
            Some(head) => read_head(alloc, context, head, rest),
        },
    }
}

fn read_head<'a>(
    alloc: Global,
    context: &Context<'_>,
    head: Head,
    text: &'a [u8],
) -> Result<Read<'a>, AllocError>
    ensures { IfOk result (λ read. seen read ≡ head_reading (before_in context.now) head (words_of text.now)) }
{
    match head {
        Head::Plain(actor) => read_plain(alloc, context, actor, text),
        Head::Minus(actor) => {
            let told = deed_of(alloc, context, actor, text)?;
            Ok(minus(actor, told))
        }
        Head::Plus(actor) => Ok(plus(context, actor, text)),
        Head::Die => Ok(die(context, text)),
    }
}

/// What stands after an actor: a deed, or after a client a verb of the data path.
fn read_plain<'a>(
    alloc: Global,
    context: &Context<'_>,
    actor: u32,
    text: &'a [u8],
) -> Result<Read<'a>, AllocError>
    ensures { IfOk result (λ read. seen read ≡ plain_reading (before_in context.now) actor (words_of text.now) (data_verb actor (words_of text.now))) }
{
    match data_verb(actor, text) {
        None => {
            let told = deed_of(alloc, context, actor, text)?;
            Ok(plain(actor, told))
        }
        Some((verb, rest)) => Ok(says_data(actor, data_call_of(context, actor, verb, rest))),
    }
}

/// `C ..`: a call of the data path.
fn says_data<'a>(client: u32, call: Option<DataCall>) -> Read<'a>
    ensures { seen result ≡ says_data client call }
{
    match call {
        None => Read::Outside,
        Some(call) => Read::Says(Form::Data { client, call }, None),
    }
}

/// `A ..`: to its end.
fn plain<'a>(actor: u32, told: Option<Stated<'a>>) -> Read<'a>
    ensures { seen result ≡ says_plain actor (stated_seen told.entry) }
{
    match told {
        None => Read::Outside,
        Some(told) => Read::Says(
            Form::Plain {
                actor,
                deed: told.deed,
            },
            told.naming,
        ),
    }
}

/// `A- ..`: only begun.
fn minus<'a>(actor: u32, told: Option<Stated<'a>>) -> Read<'a>
    ensures { seen result ≡ says_minus actor (stated_seen told.entry) }
{
    match told {
        None => Read::Outside,
        Some(told) => Read::Says(
            Form::Minus {
                actor,
                deed: told.deed,
            },
            told.naming,
        ),
    }
}

/// A form of an actor, unless it died.
fn living<'a>(context: &Context<'_>, actor: u32, form: Form) -> Read<'a>
    ensures { seen result ≡ living (before_in context.now) actor form }
{
    if context.is_dead(actor) {
        Read::Outside
    } else {
        Read::Says(form, None)
    }
}

/// `A+`, alone.
fn plus<'a>(context: &Context<'_>, actor: u32, text: &'a [u8]) -> Read<'a>
    ensures { seen result ≡ says_plus (before_in context.now) actor (words_of text.now) }
{
    match next_word(text) {
        None => living(context, actor, Form::Plus { actor }),
        Some(_) => Read::Outside,
    }
}

/// `die C`, once.
fn die<'a>(context: &Context<'_>, text: &'a [u8]) -> Read<'a>
    ensures { seen result ≡ says_die (before_in context.now) (option_and_then client_word (only_of (words_of text.now))) }
{
    match only_client(text) {
        None => Read::Outside,
        Some(client) => living(context, client, Form::Die { client }),
    }
}

fn only_client(text: &[u8]) -> Option<u32>
    ensures { result ≡ option_and_then client_word (only_of (words_of text.now)) }
{
    client(only_word(text)?)
}
