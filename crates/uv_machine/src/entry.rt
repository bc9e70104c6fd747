//! What a history is made of: entries, and the words and answers of the steps in them.

use uv_num::{Errno, QpState, Request};

/// A step of a call. The kernel's words for them are those of `rdma_core.c`.
#[derive(Clone, Copy, Debug, PartialEq)]
pub enum Word {
    /// A handle number is set aside (`rdma_alloc_begin_uobject`, `idr_add_uobj`).
    Reserve,
    /// An object that the request names is looked up and held with others (`rdma_lookup_get_uobject`).
    Look,
    /// The object comes into being, locked by its call (`alloc_uobj`).
    Make,
    /// The object becomes visible and its lock goes (`rdma_alloc_commit_uobject`).
    Commit,
    /// The request does what it is for with the objects that were looked at (the handler of its method).
    Act,
    /// The object is looked up and locked exclusively (`rdma_lookup_get_uobject`, `uverbs_try_lock_object`).
    Lock,
    /// The object must have no users (`usecnt`).
    Check,
    /// The object is released and its handle leaves (`uverbs_destroy_uobject`).
    Finish,
    /// The number that was set aside is given back (`rdma_alloc_abort_uobject`).
    Abort,
    /// An object that was looked at is let go (`rdma_lookup_put_uobject`).
    Free,
    /// The call ends and tells its answer.
    Exit,
}

/// What an entry answers.
#[derive(Clone, Copy, Debug, PartialEq)]
pub enum Answer {
    /// It was done.
    Ok,
    /// A create's call made an object: its handle, its cell's index and the generation of that cell.
    Made {
        handle: u32,
        index: u32,
        generation: u32,
    },
    /// A query tells the state and the cell's index of a queue pair.
    State {
        state: QpState,
        index: u32,
    },
    /// The oldest event of the file was taken. It is DEVICE_FATAL: this project has no other.
    Event,
    /// An object was released, and so many actions stand in what it leaves.
    Kept(u64),
    /// It was refused.
    Refused(Errno),
}

/// One event of the object core that changed something or was refused.
#[derive(Clone, Copy, Debug, PartialEq)]
pub enum Entry {
    /// A client opens a file on a device.
    Open {
        client: u32,
        file: u32,
        device: u32,
        answer: Answer,
    },
    /// A client's call enters.
    Enter {
        client: u32,
        file: u32,
        request: Request,
        answer: Answer,
    },
    /// A client's call makes its next step. `object` is `NONE` where the step names none. `found` is the state that a
    /// modify or a query of a queue pair found at its Act, and `None` at every other step.
    Step {
        client: u32,
        word: Word,
        object: u32,
        found: Option<QpState>,
        answer: Answer,
    },
    /// A device is pulled.
    Unplug {
        device: u32,
    },
    /// An actor begins to tear a file down.
    Tear {
        file: u32,
        by: u32,
    },
    /// A teardown takes an object out of use.
    Kill {
        object: u32,
    },
    /// A teardown has released an object, and so many actions stand in what it leaves.
    Gone {
        object: u32,
        kept: u64,
    },
    /// The driver is through with a file of a device that was pulled.
    Dissociated {
        file: u32,
    },
    /// A file is closed.
    Closed {
        file: u32,
    },
}

/// A step that a call makes, without its client.
#[derive(Clone, Copy, Debug, PartialEq)]
pub struct CallStep {
    pub word: Word,
    pub object: u32,
    pub found: Option<QpState>,
    pub answer: Answer,
}
