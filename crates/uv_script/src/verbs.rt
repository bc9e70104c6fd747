//! The table of verbs.

ghost use Rattle.std.specs.Prelude.{◌≡◌};
ghost use Rattle.std.specs.Option.{option_copied};
ghost use Rattle.uv_script.specs.Verbs.{create_text, destroy_text, verb_text, is_spelled, verb_word, kind_made};

use uv_num::Kind;

/// What a word after a file is.
#[derive(Clone, Copy, Debug, PartialEq)]
pub(crate) enum VerbWord {
    /// Opens the file.
    Open,
    /// Closes the file.
    Close,
    /// Gives command bytes.
    Raw,
    /// Makes an object of this kind.
    Create(Kind),
    /// Destroys an object of this kind.
    Destroy(Kind),
    /// Binds or unbinds a window.
    BindMw,
    /// Takes the oldest asynchronous event.
    GetAsync,
}

/// The verbs that a client's line can have.
pub(crate) const VERBS: [VerbWord; 21] = [
    VerbWord::Open,
    VerbWord::Close,
    VerbWord::Raw,
    VerbWord::Create(Kind::Pd),
    VerbWord::Create(Kind::Channel),
    VerbWord::Create(Kind::Cq),
    VerbWord::Create(Kind::Qp),
    VerbWord::Create(Kind::Srq),
    VerbWord::Create(Kind::Ah),
    VerbWord::Create(Kind::Mr),
    VerbWord::Create(Kind::Mw),
    VerbWord::Destroy(Kind::Pd),
    VerbWord::Destroy(Kind::Channel),
    VerbWord::Destroy(Kind::Cq),
    VerbWord::Destroy(Kind::Qp),
    VerbWord::Destroy(Kind::Srq),
    VerbWord::Destroy(Kind::Ah),
    VerbWord::Destroy(Kind::Mr),
    VerbWord::Destroy(Kind::Mw),
    VerbWord::BindMw,
    VerbWord::GetAsync,
];

/// The verb that a word is.
pub(crate) fn verb(word: &[u8]) -> Option<VerbWord>
    ensures { result ≡ verb_word word.now }
{
    let verb = listed(word)?;
    Some(*verb)
}

fn listed(word: &[u8]) -> Option<&'static VerbWord>
    ensures { option_copied result ≡ verb_word word.now }
{
    VERBS.iter().find(|verb| is_spelled(word, **verb))
}

fn is_spelled(word: &[u8], verb: VerbWord) -> bool
    ensures { result ≡ is_spelled word.now verb }
{
    text_of(verb).as_bytes() == word
}

/// The word of a verb, after the names of Linux's calls (`uverbs_cmd.c`, `ib_uverbs_alloc_pd` and the others).
fn text_of(verb: VerbWord) -> &'static str
    ensures { result.now ≡ verb_text verb }
{
    match verb {
        VerbWord::Open => "open",
        VerbWord::Close => "close",
        VerbWord::Raw => "raw",
        VerbWord::Create(kind) => create_text(kind),
        VerbWord::Destroy(kind) => destroy_text(kind),
        VerbWord::BindMw => "bind_mw",
        VerbWord::GetAsync => "get_async",
    }
}

fn create_text(kind: Kind) -> &'static str
    ensures { result.now ≡ create_text kind }
{
    match kind {
        Kind::Pd => "alloc_pd",
        Kind::Channel => "create_channel",
        Kind::Cq => "create_cq",
        Kind::Qp => "create_qp",
        Kind::Srq => "create_srq",
        Kind::Ah => "create_ah",
        Kind::Mr => "reg_mr",
        Kind::Mw => "alloc_mw",
    }
}

fn destroy_text(kind: Kind) -> &'static str
    ensures { result.now ≡ destroy_text kind }
{
    match kind {
        Kind::Pd => "dealloc_pd",
        Kind::Channel => "destroy_channel",
        Kind::Cq => "destroy_cq",
        Kind::Qp => "destroy_qp",
        Kind::Srq => "destroy_srq",
        Kind::Ah => "destroy_ah",
        Kind::Mr => "dereg_mr",
        Kind::Mw => "dealloc_mw",
    }
}

/// The kind of what a verb makes, which may be given a name.
pub(crate) fn kind_made(verb: VerbWord) -> Option<Kind>
    ensures { result ≡ kind_made verb }
{
    match verb {
        VerbWord::Create(kind) => Some(kind),
        VerbWord::Open
        | VerbWord::Close
        | VerbWord::Raw
        | VerbWord::Destroy(_)
        | VerbWord::BindMw
        | VerbWord::GetAsync => None,
    }
}
