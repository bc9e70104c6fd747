//! Names, and what is known of each.

ghost use Rattle.std.specs.Prelude.{◌≡◌, OnOk, slice_index};
ghost use Rattle.uv_script.specs.Names.{is_name, is_small_letter, is_name_byte, are_name_bytes, no_names, with_name, with_naming};

use std::alloc::{AllocError, Global};
use std::collections::BTreeMap;
use uv_num::{Kind, NAME_CHARACTERS};

/// What is known of a name that is declared.
#[derive(Clone, Copy)]
pub(crate) struct Known {
    /// The line that declares it.
    pub(crate) line: u32,
    /// The kind of what that line creates.
    pub(crate) kind: Kind,
}

/// A name that a line declares, and the kind of what the line creates.
#[derive(Clone, Copy)]
pub(crate) struct Naming<'a> {
    pub(crate) name: &'a [u8],
    pub(crate) kind: Kind,
}

/// The names that were declared. They stay in the bytes of the script.
#[derive(Drop)]
pub(crate) struct Names<'a> {
    known: BTreeMap<&'a [u8], Known>,
}

impl<'a> Names<'a> {
    ghost use Rattle.uv_script.specs.Kept.{look_kept, naming_seen};

    /// No names. It takes no memory.
    pub(crate) fn new(alloc: Global) -> Names<'a>
        ensures { look_kept result ≡ no_names }
    {
        Names {
            known: BTreeMap::new(alloc),
        }
    }

    /// What is known of a name.
    pub(crate) fn get(&self, name: &[u8]) -> Option<Known>
        ensures { result ≡ look_kept self.now name.now }
    {
        self.known.get(name).copied()
    }

    /// Declares the name of the line of this number, if it declares one.
    pub(crate) fn declare(
        &mut self,
        number: u32,
        naming: Option<Naming<'a>>,
    ) -> Result<(), AllocError>
        ensures { OnOk result (look_kept self.new ≡ with_naming number (naming_seen naming.entry) (look_kept self.old)) }
    {
        match naming {
            None => Ok(()),
            Some(naming) => self.put(
                naming.name,
                Known {
                    line: number,
                    kind: naming.kind,
                },
            ),
        }
    }

    fn put(&mut self, name: &'a [u8], known: Known) -> Result<(), AllocError>
        ensures { OnOk result (look_kept self.new ≡ with_name name.now known (look_kept self.old)) }
    {
        self.known.insert(name, known)?;
        Ok(())
    }
}

/// Whether a word can be a name: a small letter and up to 15 small letters, digits or `_`.
pub(crate) fn is_name(word: &[u8]) -> bool
    ensures { result ≡ is_name word.now }
{
    begins_small(word) && word.len() <= NAME_CHARACTERS && are_name_bytes(word)
}

fn begins_small(word: &[u8]) -> bool
    ensures { result ≡ is_small_letter (slice_index word.now 0) }
{
    match word {
        [] => false,
        [first, ..] => is_small_letter(*first),
    }
}

fn are_name_bytes(word: &[u8]) -> bool
    ensures { result ≡ are_name_bytes word.now }
{
    word.iter().all(|byte| is_name_byte(*byte))
}

fn is_name_byte(byte: u8) -> bool
    ensures { result ≡ is_name_byte byte }
{
    is_small_letter(byte) || (b'0' <= byte && byte <= b'9') || byte == b'_'
}

fn is_small_letter(byte: u8) -> bool
    ensures { result ≡ is_small_letter byte }
{
    b'a' <= byte && byte <= b'z'
}
