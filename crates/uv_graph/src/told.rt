//! What the calls of the core tell their callers. `uv_core` names these again.

use uv_machine::{Answer, Word};
use uv_num::{Errno, Kind};

/// What a step of a call came to.
#[derive(Debug, Drop)]
pub enum Progress<D> {
    /// The step was made.
    Went(Word),
    /// The step was refused; the call goes on to its end.
    Refused(Word, Errno),
    /// An object was made: its value is to be planted by this deed, which then goes back.
    Plant {
        deed: D,
        object: u32,
        kind: Kind,
    },
    /// An act is about what this cell holds; the step isn't made until its state is told.
    Touch {
        kind: Kind,
        index: u32,
        generation: u32,
    },
    /// An object was taken out of use: its value is to be buried by this deed, which then goes back.
    Retire {
        deed: D,
        object: u32,
        kind: Kind,
    },
    /// The call ended with this answer.
    Ended(Answer),
}

/// What a turn of a teardown came to.
#[derive(Debug, Drop)]
pub enum Swept<D> {
    /// An object was taken out of use: its value is to be buried by this deed, which then goes back.
    Kill {
        deed: D,
        object: u32,
        kind: Kind,
        handle: u32,
    },
    /// The teardown has ended.
    Done,
    /// So many calls of the file are in flight.
    NotYet(u32),
}

/// What the beginning of a teardown came to.
#[derive(Clone, Copy, Debug, PartialEq)]
pub enum Torn {
    /// It has begun.
    Began,
    /// This actor is tearing the file down.
    NotYet(u32),
    /// It is refused: EBADF where the file isn't open.
    Refused(Errno),
}
