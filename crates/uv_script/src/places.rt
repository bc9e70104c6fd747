//! The words for clients, actors, files and devices.

ghost use Rattle.std.specs.Prelude.{◌≡◌};
ghost use Rattle.uv_script.specs.Places.{client_word, actor_word, file_word, device_word, as_client, as_file, as_device, numbered};

use crate::numbers::decimal;
use uv_num::{CLIENTS, DEVICES, DRIVER, FILES};

/// The client that a word names: `c1` to `c8`.
pub(crate) fn client(word: &[u8]) -> Option<u32>
    ensures { result ≡ client_word word.now }
{
    as_client(numbered(b'c', word)?)
}

/// The actor that a word names: a client, or the driver, `drv`.
pub(crate) fn actor(word: &[u8]) -> Option<u32>
    ensures { result ≡ actor_word word.now }
{
    if word == b"drv".as_slice() {
        Some(DRIVER)
    } else {
        client(word)
    }
}

fn as_client(number: u64) -> Option<u32>
    ensures { result ≡ as_client number }
{
    if 1 <= number && number <= u64::from(CLIENTS) {
        Some(number as u32)
    } else {
        None
    }
}

/// The file that a word names: `f0` to `f15`.
pub(crate) fn file(word: &[u8]) -> Option<u32>
    ensures { result ≡ file_word word.now }
{
    as_file(numbered(b'f', word)?)
}

fn as_file(number: u64) -> Option<u32>
    ensures { result ≡ as_file number }
{
    if number < FILES as u64 {
        Some(number as u32)
    } else {
        None
    }
}

/// The device that a word names: `d0` or `d1`.
pub(crate) fn device(word: &[u8]) -> Option<u32>
    ensures { result ≡ device_word word.now }
{
    as_device(numbered(b'd', word)?)
}

fn as_device(number: u64) -> Option<u32>
    ensures { result ≡ as_device number }
{
    if number < DEVICES as u64 {
        Some(number as u32)
    } else {
        None
    }
}

/// The decimal number after a letter.
fn numbered(letter: u8, word: &[u8]) -> Option<u64>
    ensures { result ≡ numbered letter word.now }
{
    match word {
        [] => None,
        [first, digits @ ..] => {
            if *first == letter {
                decimal(digits)
            } else {
                None
            }
        }
    }
}
