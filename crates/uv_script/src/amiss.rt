//! What is wrong with a line that is outside the language.

ghost use Rattle.std.specs.Prelude.{◌≡◌, IfOk};
ghost use Rattle.uv_script.specs.Amiss.{operands_left, name_amiss, after_amiss, raw_amiss, built_amiss, verb_amiss, unknown_verb, verbs_amiss, client_amiss, driver_amiss, deed_amiss, data_amiss, data_call_amiss, plain_amiss, living_amiss, plus_amiss, client_dies, die_amiss, head_amiss, unknown_head, words_amiss, text_amiss, line_amiss, then_amiss, amiss_of};
ghost use Rattle.uv_script.specs.AmissKept.{amiss_seen, amiss_line_seen, left_seen};
ghost use Rattle.uv_script.specs.DataVerbs.{data_verb};
ghost use Rattle.uv_script.specs.Kept.{look_kept, before_in};
ghost use Rattle.uv_script.specs.Places.{client_word};
ghost use Rattle.uv_script.specs.Words.{words_of};

use crate::context::Context;
use crate::data_verbs::{DataWord, data_verb};
use crate::heads::{Head, head_in};
use crate::names::{Names, is_name};
use crate::parsing::put_read;
use crate::places::{client, file};
use crate::reading::{is_remark, read_line};
use crate::splits::{first_line, is_plain_text, text_of};
use crate::verbs::{VerbWord, kind_made, verb};
use crate::words::next_word;
use crate::wrong::{Amiss, AmissLine, Operand, Wrong};
use crate::wrong_words::{
    bytes_are_built, data_takes, is_later_deed, is_later_head, is_later_verb, is_operand,
    verb_takes, word_wrong,
};
use std::alloc::{AllocError, Global};
use uv_num::{DRIVER, Kind, List, SCRIPT_LINES};

/// The words after these operands, or what is wrong with the first that isn't one. Only bytes take memory.
fn operands_left<'a>(
    alloc: Global,
    names: &Names<'_>,
    operands: &[Operand],
    text: &'a [u8],
) -> Result<Result<&'a [u8], Amiss<'a>>, AllocError>
    ensures { IfOk result (λ left. left_seen left ≡ operands_left (look_kept names.now) operands.now (words_of text.now)) }
{
    let mut rest = text;
    for operand in operands {
        let Some((word, others)) = next_word(rest) else {
            let wrong = Wrong::Missing(*operand);
            return Ok(Err(Amiss { word: &[], wrong }));
        };
        if !is_operand(alloc, names, *operand, word)? {
            let wrong = word_wrong(names, *operand, word);
            return Ok(Err(Amiss { word, wrong }));
        }
        rest = others;
    }
    Ok(Ok(rest))
}

/// What stands after `as`: one name that isn't declared yet.
fn name_amiss<'a>(names: &Names<'_>, text: &'a [u8]) -> Option<Amiss<'a>>
    ensures { amiss_seen result ≡ name_amiss (look_kept names.now) (words_of text.now) }
{
    let Some((name, rest)) = next_word(text) else {
        let wrong = Wrong::NoName;
        return Some(Amiss { word: &[], wrong });
    };
    if let Some((word, _)) = next_word(rest) {
        let wrong = Wrong::More;
        return Some(Amiss { word, wrong });
    }
    if !is_name(name) {
        let wrong = Wrong::BadName;
        return Some(Amiss { word: name, wrong });
    }
    if names.get(name).is_none() {
        return None;
    }
    let wrong = Wrong::Twice;
    Some(Amiss { word: name, wrong })
}

/// What stands after the operands: nothing, or after those of a create `as` and a name.
fn after_amiss<'a>(names: &Names<'_>, made: Option<Kind>, text: &'a [u8]) -> Option<Amiss<'a>>
    ensures { amiss_seen result ≡ after_amiss (look_kept names.now) made (words_of text.now) }
{
    let (word, rest) = next_word(text)?;
    if made.is_some() && word == b"as".as_slice() {
        return name_amiss(names, rest);
    }
    let wrong = Wrong::More;
    Some(Amiss { word, wrong })
}

fn raw_amiss<'a>(alloc: Global, text: &'a [u8]) -> Result<Option<Amiss<'a>>, AllocError>
    ensures { IfOk result (λ told. amiss_seen told ≡ raw_amiss (words_of text.now)) }
{
    let Some((word, _)) = next_word(text) else {
        return Ok(None);
    };
    if bytes_are_built(alloc, word)? {
        return Ok(None);
    }
    let wrong = Wrong::NotBuilt;
    Ok(Some(Amiss { word, wrong }))
}

/// Command bytes whose line isn't built.
fn built_amiss<'a>(
    alloc: Global,
    verb: VerbWord,
    text: &'a [u8],
) -> Result<Option<Amiss<'a>>, AllocError>
    ensures { IfOk result (λ told. amiss_seen told ≡ built_amiss verb (words_of text.now)) }
{
    match verb {
        VerbWord::Raw => raw_amiss(alloc, text),
        VerbWord::Open
        | VerbWord::Close
        | VerbWord::Create(_)
        | VerbWord::Destroy(_)
        | VerbWord::BindMw
        | VerbWord::GetAsync => Ok(None),
    }
}

/// What stands after a verb.
fn verb_amiss<'a>(
    alloc: Global,
    names: &Names<'_>,
    verb: VerbWord,
    text: &'a [u8],
) -> Result<Option<Amiss<'a>>, AllocError>
    ensures { IfOk result (λ told. amiss_seen told ≡ verb_amiss (look_kept names.now) verb (words_of text.now)) }
{
    match operands_left(alloc, names, verb_takes(verb), text)? {
        Err(amiss) => Ok(Some(amiss)),
        Ok(rest) => match built_amiss(alloc, verb, text)? {
            Some(amiss) => Ok(Some(amiss)),
            None => Ok(after_amiss(names, kind_made(verb), rest)),
        },
    }
}

fn unknown_verb<'a>(word: &'a [u8]) -> Option<Amiss<'a>>
    ensures { amiss_seen result ≡ unknown_verb word.now }
{
    let wrong = if is_later_verb(word) {
        Wrong::NotBuilt
    } else {
        Wrong::Verb
    };
    Some(Amiss { word, wrong })
}

/// What stands after a file.
fn verbs_amiss<'a>(
    alloc: Global,
    names: &Names<'_>,
    text: &'a [u8],
) -> Result<Option<Amiss<'a>>, AllocError>
    ensures { IfOk result (λ told. amiss_seen told ≡ verbs_amiss (look_kept names.now) (words_of text.now)) }
{
    let Some((word, rest)) = next_word(text) else {
        let wrong = Wrong::NoVerb;
        return Ok(Some(Amiss { word: &[], wrong }));
    };
    match verb(word) {
        None => Ok(unknown_verb(word)),
        Some(verb) => verb_amiss(alloc, names, verb, rest),
    }
}

/// What stands after a client.
fn client_amiss<'a>(
    alloc: Global,
    names: &Names<'_>,
    text: &'a [u8],
) -> Result<Option<Amiss<'a>>, AllocError>
    ensures { IfOk result (λ told. amiss_seen told ≡ client_amiss (look_kept names.now) (words_of text.now)) }
{
    let Some((word, rest)) = next_word(text) else {
        let wrong = Wrong::Missing(Operand::File);
        return Ok(Some(Amiss { word: &[], wrong }));
    };
    if file(word).is_some() {
        return verbs_amiss(alloc, names, rest);
    }
    let wrong = if is_later_deed(word) {
        Wrong::NotBuilt
    } else {
        Wrong::NotA(Operand::File)
    };
    Ok(Some(Amiss { word, wrong }))
}

/// What stands after the driver.
fn driver_amiss<'a>(
    alloc: Global,
    names: &Names<'_>,
    text: &'a [u8],
) -> Result<Option<Amiss<'a>>, AllocError>
    ensures { IfOk result (λ told. amiss_seen told ≡ driver_amiss (look_kept names.now) (words_of text.now)) }
{
    let Some((word, rest)) = next_word(text) else {
        let wrong = Wrong::Unplug;
        return Ok(Some(Amiss { word: &[], wrong }));
    };
    if word != b"unplug".as_slice() {
        let wrong = Wrong::Unplug;
        return Ok(Some(Amiss { word, wrong }));
    }
    match operands_left(alloc, names, &[Operand::Device], rest)? {
        Err(amiss) => Ok(Some(amiss)),
        Ok(rest) => Ok(after_amiss(names, None, rest)),
    }
}

/// What stands after an actor, whose word is told where it died.
fn deed_amiss<'a>(
    alloc: Global,
    context: &Context<'_>,
    word: &'a [u8],
    actor: u32,
    text: &'a [u8],
) -> Result<Option<Amiss<'a>>, AllocError>
    ensures { IfOk result (λ told. amiss_seen told ≡ deed_amiss (before_in context.now) word.now actor (words_of text.now)) }
{
    if context.is_dead(actor) {
        let wrong = Wrong::Dead;
        return Ok(Some(Amiss { word, wrong }));
    }
    if actor == DRIVER {
        driver_amiss(alloc, &context.names, text)
    } else {
        client_amiss(alloc, &context.names, text)
    }
}

/// What stands after a verb of the data path.
fn data_amiss<'a>(
    alloc: Global,
    names: &Names<'_>,
    verb: DataWord,
    text: &'a [u8],
) -> Result<Option<Amiss<'a>>, AllocError>
    ensures { IfOk result (λ told. amiss_seen told ≡ data_amiss (look_kept names.now) verb (words_of text.now)) }
{
    match operands_left(alloc, names, data_takes(verb), text)? {
        Err(amiss) => Ok(Some(amiss)),
        Ok(rest) => Ok(after_amiss(names, None, rest)),
    }
}

fn data_call_amiss<'a>(
    alloc: Global,
    context: &Context<'_>,
    word: &'a [u8],
    client: u32,
    verb: DataWord,
    text: &'a [u8],
) -> Result<Option<Amiss<'a>>, AllocError>
    ensures { IfOk result (λ told. amiss_seen told ≡ data_call_amiss (before_in context.now) word.now client verb (words_of text.now)) }
{
    if context.is_dead(client) {
        let wrong = Wrong::Dead;
        return Ok(Some(Amiss { word, wrong }));
    }
    data_amiss(alloc, &context.names, verb, text)
}

/// What stands after an actor that does something to its end.
fn plain_amiss<'a>(
    alloc: Global,
    context: &Context<'_>,
    word: &'a [u8],
    actor: u32,
    text: &'a [u8],
) -> Result<Option<Amiss<'a>>, AllocError>
    ensures { IfOk result (λ told. amiss_seen told ≡ plain_amiss (before_in context.now) word.now actor (words_of text.now) (data_verb actor (words_of text.now))) }
{
    match data_verb(actor, text) {
        None => deed_amiss(alloc, context, word, actor, text),
        Some((verb, rest)) => data_call_amiss(alloc, context, word, actor, verb, rest),
    }
}

fn living_amiss<'a>(context: &Context<'_>, word: &'a [u8], actor: u32) -> Option<Amiss<'a>>
    ensures { amiss_seen result ≡ living_amiss (before_in context.now) word.now actor }
{
    if context.is_dead(actor) {
        let wrong = Wrong::Dead;
        Some(Amiss { word, wrong })
    } else {
        None
    }
}

fn plus_amiss<'a>(
    context: &Context<'_>,
    word: &'a [u8],
    actor: u32,
    text: &'a [u8],
) -> Option<Amiss<'a>>
    ensures { amiss_seen result ≡ plus_amiss (before_in context.now) word.now actor (words_of text.now) }
{
    match next_word(text) {
        None => living_amiss(context, word, actor),
        Some((next, _)) => {
            let wrong = Wrong::More;
            Some(Amiss { word: next, wrong })
        }
    }
}

fn client_dies<'a>(context: &Context<'_>, word: &'a [u8]) -> Option<Amiss<'a>>
    ensures { amiss_seen result ≡ client_dies (before_in context.now) word.now (client_word word.now) }
{
    match client(word) {
        None => {
            let wrong = Wrong::Client;
            Some(Amiss { word, wrong })
        }
        Some(client) => living_amiss(context, word, client),
    }
}

fn die_amiss<'a>(context: &Context<'_>, text: &'a [u8]) -> Option<Amiss<'a>>
    ensures { amiss_seen result ≡ die_amiss (before_in context.now) (words_of text.now) }
{
    let Some((word, rest)) = next_word(text) else {
        let wrong = Wrong::Client;
        return Some(Amiss { word: &[], wrong });
    };
    match next_word(rest) {
        None => client_dies(context, word),
        Some((next, _)) => {
            let wrong = Wrong::More;
            Some(Amiss { word: next, wrong })
        }
    }
}

/// What stands after a head.
fn head_amiss<'a>(
    alloc: Global,
    context: &Context<'_>,
    word: &'a [u8],
    head: Head,
    text: &'a [u8],
) -> Result<Option<Amiss<'a>>, AllocError>
    ensures { IfOk result (λ told. amiss_seen told ≡ head_amiss (before_in context.now) word.now head (words_of text.now)) }
{
    match head {
        Head::Plain(actor) => plain_amiss(alloc, context, word, actor, text),
        Head::Minus(actor) => deed_amiss(alloc, context, word, actor, text),
        Head::Plus(actor) => Ok(plus_amiss(context, word, actor, text)),
        Head::Die => Ok(die_amiss(context, text)),
    }
}

fn unknown_head<'a>(word: &'a [u8]) -> Option<Amiss<'a>>
    ensures { amiss_seen result ≡ unknown_head word.now }
{
    let wrong = if is_later_head(word) {
        Wrong::NotBuilt
    } else {
        Wrong::Head
    };
    Some(Amiss { word, wrong })
}

fn words_amiss<'a>(
    alloc: Global,
    context: &Context<'_>,
    text: &'a [u8],
) -> Result<Option<Amiss<'a>>, AllocError>
    ensures { IfOk result (λ told. amiss_seen told ≡ words_amiss (before_in context.now) (words_of text.now)) }
{
    match next_word(text) {
        None => Ok(None),
        Some((word, rest)) => match head_in(word) {
            None => Ok(unknown_head(word)),
            Some(head) => head_amiss(alloc, context, word, head, rest),
        },
    }
}

fn text_amiss<'a>(
    alloc: Global,
    context: &Context<'_>,
    text: &'a [u8],
) -> Result<Option<Amiss<'a>>, AllocError>
    ensures { IfOk result (λ told. amiss_seen told ≡ text_amiss (before_in context.now) text.now) }
{
    if !is_plain_text(text) {
        let wrong = Wrong::Byte;
        return Ok(Some(Amiss { word: &[], wrong }));
    }
    if is_remark(text) {
        return Ok(None);
    }
    words_amiss(alloc, context, text)
}

/// What is wrong with a line, after what stands above it.
fn line_amiss<'a>(
    alloc: Global,
    context: &Context<'_>,
    line: &'a [u8],
) -> Result<Option<Amiss<'a>>, AllocError>
    ensures { IfOk result (λ told. amiss_seen told ≡ line_amiss (before_in context.now) line.now) }
{
    if context.number as usize > SCRIPT_LINES {
        let wrong = Wrong::Lines;
        return Ok(Some(Amiss { word: &[], wrong }));
    }
    text_amiss(alloc, context, text_of(line))
}

/// The first line of bytes that is outside the language, with what is wrong with it; none where the bytes are a script. It is the
/// line that `parse` names, in whatever mode (`script_is_amiss`).
pub fn first_amiss<'a>(alloc: Global, bytes: &'a [u8]) -> Result<Option<AmissLine<'a>>, AllocError>
    ensures { IfOk result (λ told. amiss_line_seen told ≡ amiss_of bytes.now) }
{
    let mut lines = List::new(alloc);
    let mut context = Context::new(alloc);
    let mut rest = bytes;
    while !rest.is_empty() {
        let (line, more) = first_line(rest);
        if let Some(amiss) = line_amiss(alloc, &context, line)? {
            let number = context.number;
            return Ok(Some(AmissLine { number, amiss }));
        }
        let read = read_line(alloc, &context, line)?;
        put_read(&mut lines, &mut context, read)?;
        rest = more;
    }
    Ok(None)
}

#[cfg(test)]
mod tests;
