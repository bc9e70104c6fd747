//! What a word and the holds that it stands for say of each other.

ghost use Rattle.std.specs.Prelude.{◌≡◌, ℤ, ◌≤ℤ◌, pos, negsuc, List, length};
ghost use Rattle.uv_word.specs.Holds.{Hold, StandsFor};

/// A word stands for one list of holds.
pub fn word_has_one_meaning()
    ensures { (word : ℤ) (one other : List Hold) → StandsFor word one → StandsFor word other → one ≡ other }
{}

/// Holds have one word.
pub fn holds_have_one_word()
    ensures { (one other : ℤ) (holds : List Hold) → StandsFor one holds → StandsFor other holds → one ≡ other }
{}

/// A word that stands for holds is at least -1, and at most their number.
pub fn word_is_within()
    ensures least { (word : ℤ) (holds : List Hold) → StandsFor word holds → negsuc 0 ≤ℤ word }
    ensures most { (word : ℤ) (holds : List Hold) → StandsFor word holds → word ≤ℤ pos (length holds) }
{}
