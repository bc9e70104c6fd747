//! The operands of lines, each taken from the front of the words, and what calls ask for with theirs.

ghost use Rattle.std.specs.Prelude.{◌≡◌};
ghost use Rattle.uv_script.specs.Handles.{handle_word, may_handle_word};
ghost use Rattle.uv_script.specs.Kept.{look_kept};
ghost use Rattle.uv_script.specs.Numbers.{number_of};
ghost use Rattle.uv_script.specs.Operands.{service_word, cq_operands, srq_operands, qp_operands, ah_operands, mr_operands, mw_operands, bind_operands, create_operands, destroy_operands};
ghost use Rattle.uv_script.specs.Places.{file_word, device_word};
ghost use Rattle.uv_script.specs.Words.{words_of, first_as, words_left};

use crate::handles::{handle, may_handle};
use crate::names::Names;
use crate::numbers::number;
use crate::places::{device, file};
use crate::words::next_word;
use crate::{Handle, Verb};
use uv_num::{Kind, Service};

/// F, and the words after it.
pub(crate) fn file_operand(text: &[u8]) -> Option<(u32, &[u8])>
    ensures { words_left result ≡ first_as file_word (words_of text.now) }
{
    let (word, rest) = next_word(text)?;
    let file = file(word)?;
    Some((file, rest))
}

/// D, and the words after it.
pub(crate) fn device_operand(text: &[u8]) -> Option<(u32, &[u8])>
    ensures { words_left result ≡ first_as device_word (words_of text.now) }
{
    let (word, rest) = next_word(text)?;
    let device = device(word)?;
    Some((device, rest))
}

/// NUM, and the words after it.
fn number_operand(text: &[u8]) -> Option<(u64, &[u8])>
    ensures { words_left result ≡ first_as number_of (words_of text.now) }
{
    let (word, rest) = next_word(text)?;
    let number = number(word)?;
    Some((number, rest))
}

/// H, and the words after it.
fn handle_operand<'a>(names: &Names<'_>, text: &'a [u8]) -> Option<(Handle, &'a [u8])>
    ensures { words_left result ≡ first_as (handle_word (look_kept names.now)) (words_of text.now) }
{
    let (word, rest) = next_word(text)?;
    let handle = handle(names, word)?;
    Some((handle, rest))
}

/// H or `-`, and the words after it.
fn may_handle_operand<'a>(names: &Names<'_>, text: &'a [u8]) -> Option<(Option<Handle>, &'a [u8])>
    ensures { words_left result ≡ first_as (may_handle_word (look_kept names.now)) (words_of text.now) }
{
    let (word, rest) = next_word(text)?;
    let handle = may_handle(names, word)?;
    Some((handle, rest))
}

/// S, and the words after it.
fn service_operand(text: &[u8]) -> Option<(u64, &[u8])>
    ensures { words_left result ≡ first_as service_word (words_of text.now) }
{
    let (word, rest) = next_word(text)?;
    let service = service(word)?;
    Some((service, rest))
}

pub(crate) fn service(word: &[u8]) -> Option<u64>
    ensures { result ≡ service_word word.now }
{
    if word == b"rc".as_slice() {
        Some(u64::from(Service::Rc.number()))
    } else if word == b"ud".as_slice() {
        Some(u64::from(Service::Ud.number()))
    } else {
        None
    }
}

/// What the create of a kind asks for, and the words after its operands.
pub(crate) fn create_operands<'a>(
    names: &Names<'_>,
    kind: Kind,
    text: &'a [u8],
) -> Option<(Verb, &'a [u8])>
    ensures { words_left result ≡ create_operands (look_kept names.now) kind (words_of text.now) }
{
    match kind {
        Kind::Pd => Some((Verb::AllocPd, text)),
        Kind::Channel => Some((Verb::CreateChannel, text)),
        Kind::Cq => cq_operands(names, text),
        Kind::Qp => qp_operands(names, text),
        Kind::Srq => srq_operands(names, text),
        Kind::Ah => ah_operands(names, text),
        Kind::Mr => mr_operands(names, text),
        Kind::Mw => mw_operands(names, text),
    }
}

fn cq_operands<'a>(names: &Names<'_>, text: &'a [u8]) -> Option<(Verb, &'a [u8])>
    ensures { words_left result ≡ cq_operands (look_kept names.now) (words_of text.now) }
{
    let (depth, rest) = number_operand(text)?;
    let (channel, rest) = may_handle_operand(names, rest)?;
    Some((Verb::CreateCq { depth, channel }, rest))
}

fn srq_operands<'a>(names: &Names<'_>, text: &'a [u8]) -> Option<(Verb, &'a [u8])>
    ensures { words_left result ≡ srq_operands (look_kept names.now) (words_of text.now) }
{
    let (pd, rest) = handle_operand(names, text)?;
    let (depth, rest) = number_operand(rest)?;
    Some((Verb::CreateSrq { pd, depth }, rest))
}

fn qp_operands<'a>(names: &Names<'_>, text: &'a [u8]) -> Option<(Verb, &'a [u8])>
    ensures { words_left result ≡ qp_operands (look_kept names.now) (words_of text.now) }
{
    let (pd, rest) = handle_operand(names, text)?;
    let (send_cq, rest) = handle_operand(names, rest)?;
    let (recv_cq, rest) = handle_operand(names, rest)?;
    let (srq, rest) = may_handle_operand(names, rest)?;
    let (service, rest) = service_operand(rest)?;
    let (send_depth, rest) = number_operand(rest)?;
    let (recv_depth, rest) = number_operand(rest)?;
    let verb = Verb::CreateQp {
        pd,
        send_cq,
        recv_cq,
        srq,
        service,
        send_depth,
        recv_depth,
    };
    Some((verb, rest))
}

fn ah_operands<'a>(names: &Names<'_>, text: &'a [u8]) -> Option<(Verb, &'a [u8])>
    ensures { words_left result ≡ ah_operands (look_kept names.now) (words_of text.now) }
{
    let (pd, rest) = handle_operand(names, text)?;
    let (device, rest) = device_operand(rest)?;
    let device = u64::from(device);
    Some((Verb::CreateAh { pd, device }, rest))
}

fn mr_operands<'a>(names: &Names<'_>, text: &'a [u8]) -> Option<(Verb, &'a [u8])>
    ensures { words_left result ≡ mr_operands (look_kept names.now) (words_of text.now) }
{
    let (pd, rest) = handle_operand(names, text)?;
    let (length, rest) = number_operand(rest)?;
    let (access, rest) = number_operand(rest)?;
    Some((Verb::RegMr { pd, length, access }, rest))
}

fn mw_operands<'a>(names: &Names<'_>, text: &'a [u8]) -> Option<(Verb, &'a [u8])>
    ensures { words_left result ≡ mw_operands (look_kept names.now) (words_of text.now) }
{
    let (pd, rest) = handle_operand(names, text)?;
    Some((Verb::AllocMw { pd }, rest))
}

/// What the destroy of a kind asks for, and the words after its operand.
pub(crate) fn destroy_operands<'a>(
    names: &Names<'_>,
    kind: Kind,
    text: &'a [u8],
) -> Option<(Verb, &'a [u8])>
    ensures { words_left result ≡ destroy_operands (look_kept names.now) kind (words_of text.now) }
{
    let (object, rest) = handle_operand(names, text)?;
    Some((Verb::Destroy { kind, object }, rest))
}

/// What `bind_mw` asks for, and the words after its operands.
pub(crate) fn bind_operands<'a>(names: &Names<'_>, text: &'a [u8]) -> Option<(Verb, &'a [u8])>
    ensures { words_left result ≡ bind_operands (look_kept names.now) (words_of text.now) }
{
    let (mw, rest) = handle_operand(names, text)?;
    let (mr, rest) = may_handle_operand(names, rest)?;
    let (offset, rest) = number_operand(rest)?;
    let (length, rest) = number_operand(rest)?;
    let (access, rest) = number_operand(rest)?;
    let verb = Verb::BindMw {
        mw,
        mr,
        offset,
        length,
        access,
    };
    Some((verb, rest))
}
