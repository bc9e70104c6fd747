//! A line's words.

ghost use Rattle.std.specs.Prelude.{◌≡◌, ℕ, ◌<◌, ◌≤◌, [], ◌∷◌, length, take, drop, slice_index, true, false, MatchOption};
ghost use Rattle.std.specs.Option.{option_copied};
ghost use Rattle.uv_script.specs.Words.{is_blank, words_of, only_of};

/// Whether this parts words.
fn is_blank(byte: u8) -> bool
    ensures { result ≡ is_blank byte }
{
    byte == b' ' || byte == b'\t'
}

/// The first word and what is behind it, if there is a word.
pub(crate) fn next_word(text: &[u8]) -> Option<(&[u8], &[u8])>
    ensures { MatchOption result (words_of text.now ≡ []) (λ r. words_of text.now ≡ r.0.now ∷ words_of r.1.now) }
{
    let begun = behind_blanks(text);
    if begun.is_empty() {
        return None;
    }
    Some(begun.split_at(word_end(begun)))
}

/// What begins with the first byte of a word; nothing where there is no word.
fn behind_blanks(text: &[u8]) -> &[u8]
    ensures words { words_of result.now ≡ words_of text.now }
    ensures begins { 0 < length result.now → is_blank (slice_index result.now 0) ≡ false }
{
    for (at, byte) in text.iter().enumerate() {
        if !is_blank(*byte) {
            return &text[at..];
        }
    }
    &text[text.len()..]
}

/// How many bytes the word has that is begun here.
fn word_end(text: &[u8]) -> usize
    requires some { 0 < length text.now }
    requires begins { is_blank (slice_index text.now 0) ≡ false }
    ensures words { words_of text.now ≡ take result text.now ∷ words_of (drop result text.now) }
    ensures within { result ≤ length text.now }
{
    for (at, byte) in text.iter().enumerate() {
        if is_blank(*byte) {
            return at;
        }
    }
    text.len()
}

/// The word, where there is exactly one.
pub(crate) fn only_word(text: &[u8]) -> Option<&[u8]>
    ensures { option_copied result ≡ only_of (words_of text.now) }
{
    let (word, rest) = next_word(text)?;
    if next_word(rest).is_some() {
        return None;
    }
    Some(word)
}
