//! The lock word of an object: one number that stands for all the holds that calls have on it.
//!
//! The layer above keeps one word an object, takes holds by `try_read` and `try_exclusive`, and gives each of them back
//! by its `put`. Their clauses say what becomes of the word, and what that means for the list of holds (`StandsFor` of
//! `specs/Holds.antt`), so that a layer that speaks of holds doesn't speak of numbers.
#![tactic(auto)]

mod laws;
mod word;

pub use laws::{holds_have_one_word, word_has_one_meaning, word_is_within};
pub use word::{EXCLUSIVE, FREE, put_exclusive, put_read, try_exclusive, try_read};
