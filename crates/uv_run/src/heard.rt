//! What is heard of an event at the site.

use uv_machine::{Answer, Word};
use uv_model::Left;
use uv_num::{Errno, Kind};

/// What an event did.
#[derive(Clone, Copy, Debug)]
pub enum Event {
    /// Nothing that has a text of its own.
    Silent,
    /// Something began, and is in flight.
    Began,
    /// A call made this step, which may have been refused.
    Stepped {
        /// The step's word.
        word: Word,
        /// Its refusal, if it was refused.
        refusal: Option<Errno>,
    },
    /// The teardown of this file began.
    Torn(u32),
    /// A teardown took this object out of use.
    Killed(Left),
    /// A teardown released this object.
    Went(Left),
    /// The teardown of this file by the driver ended.
    Dissociates(u32),
    /// The teardown of this file by a close ended.
    Closes(u32),
    /// A teardown waits for calls.
    NotYet {
        /// The file.
        file: u32,
        /// How many calls of the file are in flight.
        calls: u32,
    },
    /// A teardown waits for another one.
    TornBy {
        /// The file.
        file: u32,
        /// The actor that is tearing the file down.
        by: u32,
    },
}

/// The end of what an actor had in flight.
#[derive(Clone, Copy, Debug)]
pub struct Ended {
    /// The kind of object that it was to make, if any.
    pub made: Option<Kind>,
    /// How it was answered.
    pub answer: Answer,
}

/// An event, and the end that came with it, if what was in flight ended.
#[derive(Clone, Copy, Debug)]
pub struct Heard {
    pub event: Event,
    pub ends: Option<Ended>,
}
