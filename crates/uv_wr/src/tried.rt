//! The answers of data-path calls, which may find what they need taken by another or gone. They are this project's own:
//! in Linux a caller would spin on a lock, or hold a reference.

use crate::Completion;

/// What became of a post. Every answer but the first hands the work back.
#[derive(Debug, Drop)]
pub enum Tried<W> {
    /// The work is in its queue.
    Did,
    /// EINVAL: the queue pair takes no such work now.
    Inval {
        /// The work.
        work: W,
        /// Whether the state of the queue pair is the only reason.
        by_state: bool,
    },
    /// The queue has as many works as it may hold.
    Full(W),
    /// Another has what is needed; the number is the word under which it was found taken. A later try may find it free.
    Again(u64, W),
    /// What is needed isn't live, or is another than the one that was named; the number is the word that was found.
    Dead(u64, W),
    /// Memory ran out.
    NoMemory(W),
}

/// What became of a poll.
#[derive(Clone, Copy, Debug, PartialEq, Eq)]
pub enum PollTried {
    /// The oldest completion, which left its queue, and whether the queue has overrun.
    Got(Completion, bool),
    /// There is no completion; and whether the queue has overrun.
    Empty(bool),
    /// Another has the queue.
    Again(u64),
    /// The queue isn't live.
    Dead(u64),
}

/// What became of a request for an event.
#[derive(Clone, Copy, Debug, PartialEq, Eq)]
pub enum ArmTried {
    /// The queue is armed.
    Did,
    /// Another has the queue.
    Again(u64),
    /// The queue isn't live.
    Dead(u64),
}

/// What became of a look for an event of a completion channel.
#[derive(Clone, Copy, Debug, PartialEq, Eq)]
pub enum EventTried {
    /// The oldest event, which left the channel: the index of the cell of its completion queue.
    Got(u32),
    /// There is no event.
    Empty,
    /// Another has the channel.
    Again(u64),
    /// The channel isn't live.
    Dead(u64),
}

#[cfg(test)]
mod tests {
    use super::*;
    use crate::RecvWork;
    use std::test::Fail;
    use uv_num::List;

    fn handed_back(tried: Tried<RecvWork>) -> Option<RecvWork> {
        match tried {
            Tried::Did => None,
            Tried::Inval { work, .. } => Some(work),
            Tried::Full(work) => Some(work),
            Tried::Again(_, work) => Some(work),
            Tried::Dead(_, work) => Some(work),
            Tried::NoMemory(work) => Some(work),
        }
    }

    #[test]
    fn a_post_that_was_not_made_hands_the_work_back(rt: HostRuntime) -> Result<(), Fail> {
        let work = RecvWork::new(3, List::new(rt.alloc())).expect(&rt, "no parts");
        let back = handed_back(Tried::Again(5, work)).expect(&rt, "the work");
        assert_eq!(rt; back.id(), 3);
        assert!(rt; handed_back(Tried::Did).is_none());
        Ok(())
    }
}
