//! What a pool holds: the right to a cell.

ghost use Rattle.std.specs.Prelude.{◌≡◌, ◌<◌};
ghost use Rattle.uv_pool.specs.Deeds.{DeedFacts};

use uv_num::{CELLS, Identity, Kind};

/// A life of a cell: it was planted once, at this generation, for the object with this identity. This project's own.
#[derive(Clone, Copy, Debug, PartialEq, Eq)]
pub struct Life {
    /// How often the cell was buried before.
    pub generation: u32,
    /// The object that it was planted for.
    pub identity: Identity,
}

/// The deed of a cell: whoever has it may plant the cell, doom it and bury what it holds. This project's own.
///
/// A deed's kind and index never change. What is done with a deed is the business of the crates that make deeds; here
/// it is a value that is home or out.
pub trait Deed: Drop {
    /// What the deed tells of itself.
    ghost facts: { Self → DeedFacts };

    /// The kind of the objects that the cell is for.
    fn kind(&self) -> Kind
        ensures { result ≡ (facts self.now).kind };

    /// The index of the cell among those of its kind, below `CELLS`.
    fn index(&self) -> u32
        ensures index { result ≡ (facts self.now).index }
        ensures within { result < CELLS };

    /// How often the cell was buried: the generation of the object that it is planted for next, or now.
    fn generation(&self) -> u32
        ensures { result ≡ (facts self.now).generation };

    /// Whether the cell was buried at its last generation, and so is never used again.
    fn spent(&self) -> bool
        ensures { result ≡ (facts self.now).spent };
}
