//! Bytes as scripts spell them.

ghost use Rattle.std.specs.Prelude.{◌≡◌, IfOk};
ghost use Rattle.std.specs.Result.{result_ok};
ghost use Rattle.hex.specs.Hex.{decode_of};
ghost use Rattle.uv_script.specs.Bytes.{spelled_bytes, is_hex_length};

use hex::FromHexError;
use std::alloc::{AllocError, Global};
use uv_num::{HEX_DIGITS, List};

/// The bytes that a word spells, if it spells some: two hexadecimal digits in either case for each.
pub(crate) fn bytes_in(alloc: Global, word: &[u8]) -> Result<Option<List<u8>>, AllocError>
    ensures { IfOk result (λ bytes. bytes ≡ spelled_bytes word.now) }
{
    if is_hex_length(word) {
        decoded(alloc, word)
    } else {
        Ok(None)
    }
}

fn is_hex_length(word: &[u8]) -> bool
    ensures { result ≡ is_hex_length word.now }
{
    2 <= word.len() && word.len() <= HEX_DIGITS
}

fn decoded(alloc: Global, word: &[u8]) -> Result<Option<List<u8>>, AllocError>
    ensures { IfOk result (λ bytes. bytes ≡ result_ok (decode_of word.now)) }
{
    match hex::decode(alloc, word) {
        Ok(bytes) => Ok(Some(List::from_vec(bytes))),
        Err(FromHexError::OutOfMemory) => Err(AllocError),
        Err(
            FromHexError::InvalidHexCharacter { .. }
            | FromHexError::OddLength
            | FromHexError::InvalidStringLength,
        ) => Ok(None),
    }
}
