//! What the lines of a script say.

use thiserror::Error;
use uv_num::{Errno, Kind};

/// How a script is run.
#[derive(Clone, Copy, Debug, PartialEq)]
pub enum Mode {
    /// One line after the other, on one thread.
    Steps,
}

/// An object's handle, as a line names it.
#[derive(Clone, Copy, Debug, PartialEq)]
pub enum Handle {
    /// This number.
    Number(u32),
    /// The handle that the create on this line, numbered from 1, was given.
    Name(u32),
}

/// What a call asks for: a request whose handles may be names. Numbers are as the line gives them, below 2^64: their
/// ranges are those of the request, and the call is refused where one is out of its range.
#[derive(Clone, Copy, Debug, PartialEq)]
pub enum Verb {
    /// Makes a protection domain.
    AllocPd,
    /// Makes a completion channel.
    CreateChannel,
    /// Makes a completion queue.
    CreateCq {
        /// The most completions that it holds.
        depth: u64,
        /// The channel that it tells of completions, if any.
        channel: Option<Handle>,
    },
    /// Makes a shared receive queue.
    CreateSrq {
        /// The domain.
        pd: Handle,
        /// The most receives that are posted at once.
        depth: u64,
    },
    /// Makes a queue pair.
    CreateQp {
        /// The domain.
        pd: Handle,
        /// The queue for completions of sends.
        send_cq: Handle,
        /// The queue for completions of receives.
        recv_cq: Handle,
        /// The shared receive queue, if it has one.
        srq: Option<Handle>,
        /// The service's number: 2 for a reliable connection, 4 for datagrams.
        service: u64,
        /// The most sends that are posted at once.
        send_depth: u64,
        /// The most receives that are posted at once.
        recv_depth: u64,
    },
    /// Makes an address handle.
    CreateAh {
        /// The domain.
        pd: Handle,
        /// The device that it leads to.
        device: u64,
    },
    /// Registers a memory region.
    RegMr {
        /// The domain.
        pd: Handle,
        /// Its length in bytes.
        length: u64,
        /// Its rights.
        access: u64,
    },
    /// Makes a memory window.
    AllocMw {
        /// The domain.
        pd: Handle,
    },
    /// Destroys an object.
    Destroy {
        /// The kind that it has to be of.
        kind: Kind,
        /// The object.
        object: Handle,
    },
    /// Binds a memory window to a range of a region, or unbinds it.
    BindMw {
        /// The window.
        mw: Handle,
        /// The region; none unbinds.
        mr: Option<Handle>,
        /// Where the range begins, in bytes from the region's begin.
        offset: u64,
        /// The range's length in bytes.
        length: u64,
        /// The window's rights.
        access: u64,
    },
    /// Takes the oldest asynchronous event of the file.
    GetAsync,
}

/// What a line has an actor do. Files are 0 to 15, devices 0 and 1.
#[derive(Clone, Copy, Debug, PartialEq)]
pub enum Deed {
    /// Opens a file on a device.
    Open {
        /// The file.
        file: u32,
        /// The device.
        device: u32,
    },
    /// Makes a call on a file.
    Call {
        /// The file.
        file: u32,
        /// What it asks for.
        verb: Verb,
    },
    /// Gives command bytes that are refused with this errno, so that no call is made.
    Refused(Errno),
    /// Closes a file.
    Close {
        /// The file.
        file: u32,
    },
    /// Unplugs a device, which the driver alone does.
    Unplug {
        /// The device.
        device: u32,
    },
}

/// A call of the data path, which makes no entry of the history. Objects are named by the lines of their creates, numbered from 1.
#[derive(Debug, Drop, PartialEq)]
pub enum DataCall {
    /// Polls a completion queue.
    Poll {
        /// The completion queue.
        cq: u32,
        /// The most completions that are taken, 1 to 64.
        count: u32,
    },
    /// Asks a completion queue for an event.
    Arm {
        /// The completion queue.
        cq: u32,
        /// Whether for the next solicited completion alone.
        solicited: bool,
    },
    /// Takes the oldest event of a channel.
    Event {
        /// The channel.
        channel: u32,
    },
}

/// What a line asks for. Actors are the clients, 1 to 8, and the driver, 9.
#[derive(Debug, Drop, PartialEq)]
pub enum Form {
    /// `A ..`: the actor does this to its end.
    Plain {
        /// The actor.
        actor: u32,
        /// What it does.
        deed: Deed,
    },
    /// `A- ..`: the actor begins this, and it is in flight.
    Minus {
        /// The actor.
        actor: u32,
        /// What it begins.
        deed: Deed,
    },
    /// `A+`: what the actor has in flight makes one event.
    Plus {
        /// The actor.
        actor: u32,
    },
    /// `die C`: the client dies.
    Die {
        /// The client.
        client: u32,
    },
    /// `C ..`: the client makes a call of the data path.
    Data {
        /// The client.
        client: u32,
        /// The call.
        call: DataCall,
    },
}

/// A line that says something.
#[derive(Debug, Drop, PartialEq)]
pub struct Line {
    /// Its number among all lines of the script, comments and empty lines too, from 1.
    pub number: u32,
    /// What it asks for.
    pub form: Form,
}

/// Why bytes are no script.
#[derive(Debug, Drop, Error, PartialEq)]
pub enum ScriptFault {
    /// This line, numbered from 1, is the first that is outside the language.
    #[error("script fault at line {0}")]
    At(u32),
    /// Memory ran out before the script was read.
    #[error("out of memory")]
    NoMemory,
}
