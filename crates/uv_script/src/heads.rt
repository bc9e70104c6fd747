//! The first word of a line.

ghost use Rattle.std.specs.Prelude.{◌≡◌};
ghost use Rattle.uv_script.specs.Heads.{head_word, actor_head};

use crate::places::actor;

/// Who does something, and how far.
#[derive(Clone, Copy)]
pub(crate) enum Head {
    /// `A`: this actor does something to its end.
    Plain(u32),
    /// `A-`: this actor begins something.
    Minus(u32),
    /// `A+`: what this actor has in flight makes one event.
    Plus(u32),
    /// `die`: a client dies.
    Die,
}

/// The head that a word is.
pub(crate) fn head_in(word: &[u8]) -> Option<Head>
    ensures { result ≡ head_word word.now }
{
    if word == b"die".as_slice() {
        Some(Head::Die)
    } else {
        actor_head(word)
    }
}

/// An actor, which may have a `-` or a `+` after it.
fn actor_head(word: &[u8]) -> Option<Head>
    ensures { result ≡ actor_head word.now }
{
    match word {
        [front @ .., b'-'] => Some(Head::Minus(actor(front)?)),
        [front @ .., b'+'] => Some(Head::Plus(actor(front)?)),
        _ => Some(Head::Plain(actor(word)?)),
    }
}
