//! A case of the list, and the lines that begin and end one.

ghost use Rattle.std.specs.Prelude.{◌≡◌, OnOk};
ghost use Rattle.rows.specs.Cases.{with_line, ended_script};

use std::alloc::{AllocError, Global};
use uv_num::Bytes;

/// A script with the words that it is run by, and the status that it is to end with.
#[derive(Debug, Drop)]
pub struct Case {
    pub name: String,
    pub wanted: u8,
    pub words: Vec<String>,
    pub script: Vec<u8>,
}

impl Case {
    /// The case that the line `=== NAME STATUS WORD..` begins, still without its script. None where the line is no such one.
    pub fn begun(alloc: Global, line: &str) -> Result<Option<Case>, AllocError> {
        let Some(rest) = line.strip_prefix("=== ") else {
            return Ok(None);
        };
        let mut parts = rest.split(' ');
        let (Some(name), Some(status)) = (parts.next(), parts.next()) else {
            return Ok(None);
        };
        let Ok(wanted) = status.parse::<u8>() else {
            return Ok(None);
        };
        let mut words = Vec::new(alloc);
        for word in parts {
            words.push(String::from_str(alloc, word)?)?;
        }
        Ok(Some(Case {
            name: String::from_str(alloc, name)?,
            wanted,
            words,
            script: Vec::new(alloc),
        }))
    }

    /// Puts a line and its line feed at the end of the script.
    pub fn put(&mut self, line: &str) -> Result<(), AllocError>
        ensures script { OnOk result (self.new.script.items ≡ with_line self.old.script.items line.now) }
        ensures name { self.new.name ≡ self.old.name }
        ensures wanted { self.new.wanted ≡ self.old.wanted }
        ensures words { self.new.words ≡ self.old.words }
    {
        self.script.extend_from_slice(line.as_bytes())?;
        self.script.push(b'\n')?;
        Ok(())
    }
}

/// How a line ends the script before it.
#[derive(Clone, Copy, Debug, PartialEq)]
pub enum End {
    /// The last line of the script has its line feed: `===`.
    Whole,
    /// It lacks it: `=== cut`.
    Cut,
}

impl End {
    /// The end that this line is. None where it is a line of the script.
    pub fn of(line: &str) -> Option<End> {
        match line {
            "===" => Some(End::Whole),
            "=== cut" => Some(End::Cut),
            _ => None,
        }
    }

    /// The bytes of a script that ends so.
    pub fn ended(self, mut script: Vec<u8>) -> Bytes
        ensures { result.bytes ≡ ended_script self script.items }
    {
        match self {
            End::Whole => {}
            // The line feed was put after the last line as after every other.
            End::Cut => script.truncate(script.len().saturating_sub(1)),
        }
        Bytes::from_vec(script)
    }
}
