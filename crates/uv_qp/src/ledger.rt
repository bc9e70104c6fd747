//! What was posted to a queue and how each work ended.

ghost use Rattle.std.specs.Prelude.{◌≡◌, ◌||◌, Some, true, slice_get, OnOk, OnErr};
ghost use Rattle.uv_wr.specs.Statuses.{is_failure};
ghost use Rattle.uv_qp.specs.Ledgers.{all_succeeded, empty_ledger, in_order, posted_of, with_posted, with_completed, IsOrdered};

use std::alloc::{AllocError, Global};
use std::marker::Model;
use uv_num::{List, Stock};
use uv_wr::Completion;

/// The queue that a list is of.
#[derive(Clone, Copy, Debug, PartialEq, Eq)]
pub enum Which {
    /// The send queue of a queue pair.
    Send,
    /// The receive queue of a queue pair, or what it took of a shared one.
    Receive,
    /// A shared receive queue. Its works are completed by the queue pairs that took them.
    Shared,
}

/// What a queue leaves when its object is released: the works that were posted to it, and how those ended that have. This
/// project's own.
#[derive(Debug, Drop)]
pub struct QueueList {
    /// The id of the object.
    pub object: u32,
    /// Which of its queues.
    pub which: Which,
    /// The ids of the works that were posted, in order.
    pub posted: List<u64>,
    /// The completions, in order. They are of the first works that were posted.
    pub completed: List<Completion>,
}

/// What was posted to a queue so far, and how the works ended that have. Each that was posted has room for its completion,
/// so the end of a work takes no memory.
#[derive(Drop)]
pub struct Ledger {
    posted: Stock<u64>,
    completed: Stock<Completion>,
}

impl Model for Ledger {
    ghost use Rattle.std.specs.Prelude.{drop, length};
    ghost use Rattle.uv_qp.specs.Ledgers.{Ledgered, IsLedger};

    ghost Value = { Ledgered };

    ghost view = { λ l. record { completed = l.completed.items; owed = drop (length l.completed.items) l.posted.items } };

    ghost invariant = { λ l. IsLedger l.posted.items l.completed.items l.completed.room };
}

impl Ledger {
    /// The ledger of a queue to which nothing was posted. It takes no memory.
    pub fn new(alloc: Global) -> Ledger
        ensures { result ≡ empty_ledger }
    {
        Ledger {
            posted: Stock::new(alloc),
            completed: Stock::new(alloc),
        }
    }

    /// Notes a work that was posted, and takes the room of its completion. On an error nothing changes.
    pub fn post(&mut self, id: u64) -> Result<(), AllocError>
        ensures ok { OnOk result (self.new ≡ with_posted self.old id) }
        ensures err { OnErr result (self.new ≡ self.old) }
    {
        self.posted.widen(1)?;
        self.completed.widen(1)?;
        self.posted.put(id);
        Ok(())
    }

    /// Notes how the oldest work ended that waits. It takes no memory.
    pub fn complete(&mut self, completion: Completion)
        requires owed { slice_get self.old.owed 0 ≡ Some completion.id }
        requires order { (is_failure completion.status || all_succeeded self.old.completed) ≡ true }
        ensures { self.new ≡ with_completed self.old completion }
    {
        self.completed.put(completion);
    }

    /// Forgets all works. It takes no memory.
    pub fn clear(&mut self)
        ensures { self.new ≡ empty_ledger }
    {
        self.posted.clear();
        self.completed.clear();
    }

    /// After a work that failed none succeeded.
    pub fn is_in_order(&self)
        ensures { in_order self.now.completed ≡ true }
    {
        let _ = &self.posted;
    }

    /// The list of the queue. It takes no memory.
    pub fn into_list(self, object: u32, which: Which) -> QueueList
        ensures list { result ≡ record { object = object; which = which; posted = posted_of self.completed self.owed; completed = self.completed } }
        ensures ordered { IsOrdered result.posted result.completed }
    {
        let Ledger { posted, completed } = self;
        QueueList {
            object,
            which,
            posted: List::from_vec(posted.into_vec()),
            completed: List::from_vec(completed.into_vec()),
        }
    }
}
