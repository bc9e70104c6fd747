//! Bytes as lines, and a line as its text.

ghost use Rattle.std.specs.Prelude.{◌≡◌, ◌<◌, ◌≤◌, ◌∷◌, length, take, drop};
ghost use Rattle.std.specs.List.{list_all};
ghost use Rattle.uv_script.specs.Lines.{lines_of, text_of, before_return, is_plain, is_plain_text};

/// The first line, with its line feed if it has one, and what is behind it.
pub(crate) fn first_line(bytes: &[u8]) -> (&[u8], &[u8])
    requires { 0 < length bytes.now }
    ensures lines { lines_of bytes.now ≡ result.0.now ∷ lines_of result.1.now }
    ensures less { length result.1.now < length bytes.now }
{
    bytes.split_at(first_end(bytes))
}

/// How many bytes the first line has.
fn first_end(bytes: &[u8]) -> usize
    requires { 0 < length bytes.now }
    ensures lines { lines_of bytes.now ≡ take result bytes.now ∷ lines_of (drop result bytes.now) }
    ensures some { 0 < result }
    ensures within { result ≤ length bytes.now }
{
    for (at, byte) in bytes.iter().enumerate() {
        if *byte == b'\n' {
            return at + 1;
        }
    }
    bytes.len()
}

/// A line without its end: a line feed, with one carriage return in front of it if there is one.
pub(crate) fn text_of(line: &[u8]) -> &[u8]
    ensures { result.now ≡ text_of line.now }
{
    match line {
        [front @ .., b'\n'] => before_return(front),
        _ => line,
    }
}

/// The bytes in front of a carriage return at the end.
fn before_return(text: &[u8]) -> &[u8]
    ensures { result.now ≡ before_return text.now }
{
    match text {
        [front @ .., b'\r'] => front,
        _ => text,
    }
}

/// Whether all bytes are those that a line may have.
pub(crate) fn is_plain_text(text: &[u8]) -> bool
    ensures { result ≡ is_plain_text text.now }
{
    text.iter().all(|byte| is_plain(*byte))
}

/// Whether this is a tab, or printed in ASCII.
fn is_plain(byte: u8) -> bool
    ensures { result ≡ is_plain byte }
{
    byte == b'\t' || (b' ' <= byte && byte <= b'~')
}
