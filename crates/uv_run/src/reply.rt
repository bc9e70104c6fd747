//! What a run keeps of what was told.

use uv_machine::Answer;
use uv_num::Kind;

/// How the events of a run are told.
#[derive(Clone, Copy, Debug)]
pub enum Telling {
    /// One event, under the number of the line that asks for it.
    Plus {
        /// The line.
        line: u32,
    },
    /// A run to the end: what goes, and the reply.
    ToEnd,
    /// The closes of a client that dies: what goes.
    Dying,
    /// The closes at the end of the script: nothing.
    Ending,
}

/// The reply to what an actor began.
#[derive(Clone, Copy, Debug)]
pub struct Reply {
    /// The line that began it.
    pub line: u32,
    pub actor: u32,
    /// The kind of object that it was to make, if any.
    pub made: Option<Kind>,
    pub answer: Answer,
}
