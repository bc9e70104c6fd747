//! The words that the program is started with, and what they ask for.

ghost use Rattle.std.specs.Prelude.{◌≡◌, IfSome, codes};
ghost use Rattle.uv_why.specs.Words.{AreForm, AskForScript, IsKey, IsLanes, IsScriptAsked, IsWord};

use crate::rules::Decided;

/// How a script is told.
#[derive(Clone, Copy, Debug, PartialEq)]
pub enum Telling {
    /// Line by line, with what decided.
    Lines,
    /// As a picture.
    Lanes,
}

/// What the program can be asked for.
#[derive(Clone, Copy, Debug, PartialEq)]
pub enum Wanted {
    /// No words, or `--lanes`: a script is read, run and told.
    Script(Telling),
    /// `--rules`: the keys of all rules.
    Rules,
    /// `--rule KEY`: one rule.
    Rule(Decided),
}

/// What the words after the program's name ask for. None where they are none of the forms, or name no rule.
pub fn words_wanted(words: &Vec<String>) -> Option<Wanted>
    ensures form { IfSome result (λ w. AreForm words.now.items) }
    ensures script { AskForScript words.now.items → IsScriptAsked result }
{
    match words.as_slice() {
        [] => Some(Wanted::Script(Telling::Lines)),
        [word] => word_wanted(word.as_str()),
        [word, key] => rule_wanted(word.as_str(), key.as_str()),
        _ => None,
    }
}

fn word_wanted(word: &str) -> Option<Wanted>
    ensures form { IfSome result (λ w. IsWord word.now) }
    ensures script { IsLanes word.now → IsScriptAsked result }
{
    if word == "--lanes" {
        Some(Wanted::Script(Telling::Lanes))
    } else if word == "--rules" {
        Some(Wanted::Rules)
    } else {
        None
    }
}

fn rule_wanted(word: &str, key: &str) -> Option<Wanted>
    ensures word { IfSome result (λ w. word.now ≡ codes "--rule") }
    ensures key { IfSome result (λ w. IsKey key.now) }
{
    if word != "--rule" {
        return None;
    }
    let rule = Decided::with_key(key)?;
    Some(Wanted::Rule(rule))
}
