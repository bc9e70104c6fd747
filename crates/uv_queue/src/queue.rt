//! A queue of works.

ghost use Rattle.std.specs.Prelude.{◌≡◌, ◌≤◌, ◌<◌, ◌==◌, [], length, slice_get, IfOk, IfErr, IsErr, OnOk, ◌↔◌};
ghost use Rattle.std.specs.Option.{option_copied};
ghost use Rattle.uv_num.specs.declared.limits.TheConstants.{QUEUE_DEPTH};
ghost use Rattle.uv_queue.specs.Order.{oldest};
ghost use Rattle.uv_queue.specs.Queued.{with_pushed, after_pop, emptied};

use std::alloc::{AllocError, Global};
use std::marker::Model;
use uv_num::{QUEUE_DEPTH, Room};

/// The works of a send queue, a receive queue or a shared receive queue, from the posting of each to its end. The depth is
/// what the create asked for (`max_send_wr`, `max_recv_wr` of `struct ib_qp_cap`, `max_wr` of `struct ib_srq_attr`), 1 to
/// `QUEUE_DEPTH`, and is exact; the rings of `sw/rxe` (`rxe_queue.c`) have a power of two of places. Only its making takes
/// memory.
#[derive(Debug, Drop)]
pub struct WorkQueue<W> {
    works: Room<W, QUEUE_DEPTH>,
    depth: u32,
}

impl<W> Model for WorkQueue<W> {
    ghost use Rattle.std.specs.Prelude.{length, ◌≤◌};
    ghost use Rattle.uv_num.specs.declared.limits.TheConstants.{QUEUE_DEPTH};
    ghost use Rattle.uv_queue.specs.Queued.{Queued};

    ghost Value = { Queued W };

    ghost view = { λ q. record { works = q.works; depth = q.depth } };

    ghost invariant = { λ q. (length q.works ≤ q.depth) × (q.depth ≤ QUEUE_DEPTH) };
}

impl<W> WorkQueue<W> {
    /// A queue without works. It takes all the memory that the queue will need.
    pub fn new(alloc: Global, depth: u32) -> Result<WorkQueue<W>, AllocError>
        requires least { 1 ≤ depth }
        requires most { depth ≤ QUEUE_DEPTH }
        ensures { IfOk result (λ q. q ≡ record { works = []; depth = depth }) }
    {
        Ok(WorkQueue {
            works: Room::new(alloc)?,
            depth,
        })
    }

    /// How many works there are: at most the depth.
    pub fn len(&self) -> u32
        ensures count { result ≡ length self.now.works }
        ensures most { result ≤ self.now.depth }
    {
        self.works.len() as u32
    }

    /// Whether there are no works.
    pub fn is_empty(&self) -> bool
        ensures { result ≡ (length self.now.works == 0) }
    {
        self.works.is_empty()
    }

    /// How many works there may be.
    pub fn depth(&self) -> u32
        ensures { result ≡ self.now.depth }
    {
        self.depth
    }

    /// The works, the oldest first.
    pub fn as_slice(&self) -> &[W]
        ensures works { result.now ≡ self.now.works }
        ensures few { length result.now ≤ QUEUE_DEPTH }
    {
        self.works.as_slice()
    }

    /// The work at a place, the oldest being at 0; None exactly where none stands there.
    pub fn at(&self, place: u32) -> Option<&W>
        ensures { option_copied result ≡ slice_get self.now.works place }
    {
        self.works.get(place as usize)
    }

    /// Takes the oldest work out, if there is one.
    pub fn pop(&mut self) -> Option<W>
        ensures oldest { result ≡ oldest self.old.works }
        ensures rest { self.new ≡ after_pop self.old }
    {
        if self.works.is_empty() {
            return None;
        }
        Some(self.works.remove(0))
    }
}

impl<W: Drop> WorkQueue<W> {
    /// Puts a work behind the others. The error is Full: as many works as the depth are there. It hands the work back, and
    /// nothing has changed.
    pub fn push(&mut self, work: W) -> Result<(), W>
        ensures full { IsErr result ↔ (length self.old.works ≡ self.old.depth) }
        ensures pushed { OnOk result (self.new ≡ with_pushed self.old work) }
        ensures back { IfErr result (λ w. (w ≡ work) × (self.new ≡ self.old)) }
    {
        if self.works.len() >= self.depth as usize {
            return Err(work);
        }
        self.works.put(work);
        Ok(())
    }

    /// Lets all works go, as a queue pair does that is reset. The depth stays.
    pub fn clear(&mut self)
        ensures { self.new ≡ emptied self.old }
    {
        self.works.clear();
    }
}

#[cfg(test)]
mod tests {
    use super::*;
    use std::test::Fail;

    #[test]
    fn works_leave_in_the_order_in_which_they_came(rt: HostRuntime) -> Result<(), Fail> {
        let mut queue: WorkQueue<u32> = WorkQueue::new(rt.alloc(), 3)?;
        assert!(rt; queue.is_empty());
        assert_eq!(rt; queue.push(4), Ok(()));
        assert_eq!(rt; queue.push(5), Ok(()));
        assert_eq!(rt; queue.pop(), Some(4));
        assert_eq!(rt; queue.push(6), Ok(()));
        assert_eq!(rt; queue.at(0), Some(&5));
        assert_eq!(rt; queue.at(1), Some(&6));
        assert_eq!(rt; queue.at(2), None);
        assert_eq!(rt; queue.as_slice(), [5, 6].as_slice());
        assert_eq!(rt; queue.len(), 2);
        assert_eq!(rt; queue.pop(), Some(5));
        assert_eq!(rt; queue.pop(), Some(6));
        assert_eq!(rt; queue.pop(), None);
        Ok(())
    }

    #[test]
    fn a_full_queue_hands_the_work_back(rt: HostRuntime) -> Result<(), Fail> {
        let mut queue: WorkQueue<u32> = WorkQueue::new(rt.alloc(), 1)?;
        assert_eq!(rt; queue.depth(), 1);
        assert_eq!(rt; queue.push(4), Ok(()));
        assert_eq!(rt; queue.push(5), Err(5));
        assert_eq!(rt; queue.pop(), Some(4));
        assert_eq!(rt; queue.push(5), Ok(()));
        queue.clear();
        assert_eq!(rt; queue.len(), 0);
        assert_eq!(rt; queue.push(6), Ok(()));
        Ok(())
    }

    #[test]
    fn a_queue_holds_as_many_as_the_greatest_depth(rt: HostRuntime) -> Result<(), Fail> {
        let mut queue: WorkQueue<u32> = WorkQueue::new(rt.alloc(), 128)?;
        for work in 0..128 {
            assert_eq!(rt; queue.push(work), Ok(()));
        }
        assert_eq!(rt; queue.push(128), Err(128));
        assert_eq!(rt; queue.at(127), Some(&127));
        Ok(())
    }
}
