//! What the words after an actor have it do.

ghost use Rattle.std.specs.Prelude.{◌≡◌, IfOk};
ghost use Rattle.std.specs.Option.{option_map};
ghost use Rattle.uv_schema.specs.Commands.{command_of};
ghost use Rattle.uv_script.specs.Deeds.{calls, opens, command_deed, gives_command, gives_bytes, verb_deed, is_undeclared, new_name, as_name, naming_after, stated, client_deed, unplug_word, driver_deed, deed_of};
ghost use Rattle.uv_script.specs.Kept.{look_kept, before_in, naming_seen, stated_seen};
ghost use Rattle.uv_script.specs.Verbs.{verb_word};
ghost use Rattle.uv_script.specs.Words.{words_of, only_of, first_as, words_left};

use crate::built::verb_for;
use crate::bytes::bytes_in;
use crate::context::Context;
use crate::names::{Names, Naming, is_name};
use crate::operands::{
    bind_operands, create_operands, destroy_operands, device_operand, file_operand,
};
use crate::verbs::{VerbWord, kind_made, verb};
use crate::words::{next_word, only_word};
use crate::{Deed, Verb};
use std::alloc::{AllocError, Global};
use uv_num::{DRIVER, Errno, Kind, Request};
use uv_schema::command;

/// What a line has an actor do, and the name that the line declares.
#[derive(Clone, Copy)]
pub(crate) struct Stated<'a> {
    pub(crate) deed: Deed,
    pub(crate) naming: Option<Naming<'a>>,
}

/// What the words after an actor have it do. One that died does nothing. Only bytes take memory.
pub(crate) fn deed_of<'a>(
    alloc: Global,
    context: &Context<'_>,
    actor: u32,
    text: &'a [u8],
) -> Result<Option<Stated<'a>>, AllocError>
    ensures { IfOk result (λ told. stated_seen told ≡ deed_of (before_in context.now) actor (words_of text.now)) }
{
    if context.is_dead(actor) {
        Ok(None)
    } else if actor == DRIVER {
        Ok(driver_deed(&context.names, text))
    } else {
        client_deed(alloc, &context.names, text)
    }
}

/// `unplug D`.
fn driver_deed<'a>(names: &Names<'_>, text: &'a [u8]) -> Option<Stated<'a>>
    ensures { stated_seen result ≡ driver_deed (look_kept names.now) (words_of text.now) }
{
    let rest = after_unplug(text)?;
    let (device, rest) = device_operand(rest)?;
    state_deed(names, None, Deed::Unplug { device }, rest)
}

/// The words after `unplug`.
fn after_unplug(text: &[u8]) -> Option<&[u8]>
    ensures { option_map (λ rest. (tt, words_of rest.now)) result ≡ first_as unplug_word (words_of text.now) }
{
    let (word, rest) = next_word(text)?;
    if word == b"unplug".as_slice() {
        Some(rest)
    } else {
        None
    }
}

/// A file, a verb, what the verb takes, and maybe a name.
fn client_deed<'a>(
    alloc: Global,
    names: &Names<'_>,
    text: &'a [u8],
) -> Result<Option<Stated<'a>>, AllocError>
    ensures { IfOk result (λ told. stated_seen told ≡ client_deed (look_kept names.now) (words_of text.now)) }
{
    let Some((file, rest)) = file_operand(text) else {
        return Ok(None);
    };
    let Some((verb, rest)) = verb_operand(rest) else {
        return Ok(None);
    };
    let Some((deed, rest)) = verb_deed(alloc, names, file, verb, rest)? else {
        return Ok(None);
    };
    Ok(state_deed(names, kind_made(verb), deed, rest))
}

/// A verb's word, and the words after it.
fn verb_operand(text: &[u8]) -> Option<(VerbWord, &[u8])>
    ensures { words_left result ≡ first_as verb_word (words_of text.now) }
{
    let (word, rest) = next_word(text)?;
    let verb = verb(word)?;
    Some((verb, rest))
}

/// The deed of a verb with its operands, and the words after them.
fn verb_deed<'a>(
    alloc: Global,
    names: &Names<'_>,
    file: u32,
    verb: VerbWord,
    text: &'a [u8],
) -> Result<Option<(Deed, &'a [u8])>, AllocError>
    ensures { IfOk result (λ does. words_left does ≡ verb_deed (look_kept names.now) file verb (words_of text.now)) }
{
    match verb {
        VerbWord::Open => Ok(opens(file, text)),
        VerbWord::Close => Ok(Some((Deed::Close { file }, text))),
        VerbWord::Raw => gives_bytes(alloc, file, text),
        VerbWord::Create(kind) => Ok(calls(file, create_operands(names, kind, text))),
        VerbWord::Destroy(kind) => Ok(calls(file, destroy_operands(names, kind, text))),
        VerbWord::BindMw => Ok(calls(file, bind_operands(names, text))),
        VerbWord::GetAsync => Ok(calls(file, Some((Verb::GetAsync, text)))),
    }
}

fn opens(file: u32, text: &[u8]) -> Option<(Deed, &[u8])>
    ensures { words_left result ≡ opens file (words_of text.now) }
{
    let (device, rest) = device_operand(text)?;
    Some((Deed::Open { file, device }, rest))
}

fn calls<'a>(file: u32, asks: Option<(Verb, &'a [u8])>) -> Option<(Deed, &'a [u8])>
    ensures { words_left result ≡ calls file (words_left asks.entry) }
{
    let (verb, rest) = asks?;
    Some((Deed::Call { file, verb }, rest))
}

/// Command bytes, which are read while the script is.
fn gives_bytes(alloc: Global, file: u32, text: &[u8]) -> Result<Option<(Deed, &[u8])>, AllocError>
    ensures { IfOk result (λ does. words_left does ≡ gives_bytes file (words_of text.now)) }
{
    let Some((word, rest)) = next_word(text) else {
        return Ok(None);
    };
    match bytes_in(alloc, word)? {
        None => Ok(None),
        Some(bytes) => {
            let command = command(alloc, bytes.as_slice())?;
            Ok(gives(file, command, rest))
        }
    }
}

fn gives<'a>(file: u32, command: Result<Request, Errno>, rest: &'a [u8]) -> Option<(Deed, &'a [u8])>
    ensures { words_left result ≡ option_map (λ d. (d, words_of rest.now)) (command_deed file command) }
{
    let deed = command_deed(file, command)?;
    Some((deed, rest))
}

/// A command that is refused has its errno, and one that asks for a request that request, if its line is built.
fn command_deed(file: u32, command: Result<Request, Errno>) -> Option<Deed>
    ensures { result ≡ command_deed file command }
{
    match command {
        Err(errno) => Some(Deed::Refused(errno)),
        Ok(request) => {
            let verb = verb_for(request)?;
            Some(Deed::Call { file, verb })
        }
    }
}

/// A deed with what stands after its operands: nothing, or after those of a create a name.
fn state_deed<'a>(
    names: &Names<'_>,
    made: Option<Kind>,
    deed: Deed,
    text: &'a [u8],
) -> Option<Stated<'a>>
    ensures { stated_seen result ≡ stated (look_kept names.now) made deed (words_of text.now) }
{
    let naming = naming_after(names, made, text)?;
    Some(Stated { deed, naming })
}

fn naming_after<'a>(
    names: &Names<'_>,
    made: Option<Kind>,
    text: &'a [u8],
) -> Option<Option<Naming<'a>>>
    ensures { option_map naming_seen result ≡ naming_after (look_kept names.now) made (words_of text.now) }
{
    match next_word(text) {
        None => Some(None),
        Some((word, rest)) => as_name(names, made, word, rest),
    }
}

/// `as` and a name, after a create.
fn as_name<'a>(
    names: &Names<'_>,
    made: Option<Kind>,
    word: &[u8],
    text: &'a [u8],
) -> Option<Option<Naming<'a>>>
    ensures { option_map naming_seen result ≡ as_name (look_kept names.now) made word.now (words_of text.now) }
{
    let kind = made?;
    if word == b"as".as_slice() {
        new_name(names, kind, text)
    } else {
        None
    }
}

/// One name that isn't declared yet.
fn new_name<'a>(names: &Names<'_>, kind: Kind, text: &'a [u8]) -> Option<Option<Naming<'a>>>
    ensures { option_map naming_seen result ≡ new_name (look_kept names.now) kind (only_of (words_of text.now)) }
{
    let name = only_word(text)?;
    if is_undeclared(names, name) {
        Some(Some(Naming { name, kind }))
    } else {
        None
    }
}

fn is_undeclared(names: &Names<'_>, name: &[u8]) -> bool
    ensures { result ≡ is_undeclared (look_kept names.now) name.now }
{
    is_name(name) && names.get(name).is_none()
}
