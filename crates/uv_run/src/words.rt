//! The words that a run is started with, and what they ask for.

ghost use Rattle.std.specs.Prelude.{◌≡◌};
ghost use Rattle.uv_run.specs.Wanted.{words_wanted, word_wanted};

use std::env::args;

/// What a program can be asked for.
#[derive(Clone, Copy, Debug, PartialEq)]
pub enum Wanted {
    /// `steps`: a script is read, run by one thread, and its report is written.
    Steps,
}

/// The arguments after the program's name. None where one of them isn't text, or memory ran out.
pub fn arguments(rt: &HostRuntime) -> Option<Vec<String>> {
    let mut all = args(rt).ok()?;
    // The first one is the program's name.
    let _ = all.next();
    all.collect(rt.alloc()).ok()
}

/// What the words, of which the program's name is none, ask for. None where they are none of the forms.
pub fn words_wanted(words: &Vec<String>) -> Option<Wanted>
    ensures { result ≡ words_wanted words.now.items }
{
    match words.as_slice() {
        [word] => word_wanted(word.as_str().as_bytes()),
        _ => None,
    }
}

fn word_wanted(word: &[u8]) -> Option<Wanted>
    ensures { result ≡ word_wanted word.now }
{
    if word == b"steps".as_slice() {
        Some(Wanted::Steps)
    } else {
        None
    }
}
