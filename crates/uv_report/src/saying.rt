//! The texts of a report, as plain data.

use uv_machine::Word;
use uv_model::Left;
use uv_num::{Errno, QpState};
use uv_wr::Completion;

/// Who tears a file down.
#[derive(Clone, Copy, Debug, PartialEq, Eq)]
pub enum Tearer {
    /// A client, 1 to 8.
    Client(u32),
    /// The driver, as a device is unplugged.
    Driver,
}

/// What a line of a report tells.
#[derive(Clone, Copy, Debug, PartialEq)]
pub enum Saying {
    /// It is done, and there is nothing more to tell.
    Ok,
    /// It made the object of this handle.
    Handle(u32),
    /// It made the queue pair of this handle and number.
    Pair {
        /// The handle.
        handle: u32,
        /// The queue pair's number.
        number: u32,
    },
    /// It made the region or window of this handle and key.
    Key {
        /// The handle.
        handle: u32,
        /// The 32-bit key.
        key: u32,
    },
    /// The queue pair of this number is in this state.
    State {
        /// Its state.
        state: QpState,
        /// Its number.
        number: u32,
    },
    /// The file's device went (`IB_EVENT_DEVICE_FATAL`).
    DeviceFatal,
    /// It was refused.
    Refused(Errno),
    /// A call, a close or an unplug began, and goes on event by event.
    Began,
    /// A call in flight made this step, which may have been refused.
    Step {
        /// The step's word.
        word: Word,
        /// Its refusal, if it was refused.
        refusal: Option<Errno>,
    },
    /// The teardown of this file began.
    Tear(u32),
    /// A teardown took this object out of use.
    Kill(Left),
    /// A teardown released this object.
    Gone(Left),
    /// The teardown of this file by the driver ended.
    Dissociated(u32),
    /// The teardown of this file by a close ended.
    Closed(u32),
    /// So many calls of the file are in flight, and the teardown waits.
    NotYet(u32),
    /// The file is being torn by this one.
    TornBy(Tearer),
    /// Nothing is in flight.
    Idle,
    /// A poll took so many completions, one at least.
    Polled {
        /// How many it took.
        taken: u32,
        /// Whether the completion queue has overrun.
        overrun: bool,
    },
    /// A poll found no completion.
    Empty {
        /// Whether the completion queue has overrun.
        overrun: bool,
    },
    /// A poll took this completion.
    Completed(Completion),
    /// The oldest event of a channel is that of the completion queue in this cell.
    EventOf(u32),
    /// What a call of the data path names isn't live.
    Dead,
}
