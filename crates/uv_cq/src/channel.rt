//! A completion channel.

ghost use Rattle.std.specs.Prelude.{◌≡◌, ◌≤◌, ◌<◌, [], length, IfOk, ◌↔◌, IsTrue, nat_lt, if◌then◌else◌};
ghost use Rattle.uv_queue.specs.Order.{with_newest, oldest, without_oldest};

use std::alloc::{AllocError, Global};
use std::marker::Model;
use uv_num::{CHANNEL_EVENTS, Room};

/// The events of a completion channel that nobody has taken yet, at most `CHANNEL_EVENTS` (`struct
/// ib_uverbs_completion_event_file`, `uverbs.h`). An event is the index of the cell of the completion queue that it tells
/// of; in Linux it is the caller's own number for the queue (`cq_handle`), and each event takes memory, without a limit.
/// Contracts see the list of the events, the oldest first. Only its making takes memory.
#[derive(Debug, Drop)]
pub struct Channel {
    events: Room<u32, CHANNEL_EVENTS>,
}

impl Model for Channel {
    ghost use Rattle.std.specs.Prelude.{ℕ, List, length, ◌≤◌};
    ghost use Rattle.uv_num.specs.declared.limits.TheConstants.{CHANNEL_EVENTS};

    ghost Value = { List ℕ };

    ghost view = { λ c. c.events };

    ghost invariant = { λ c. length c.events ≤ CHANNEL_EVENTS };
}

impl Channel {
    /// A channel without events. It takes all the memory that the channel will need.
    pub fn new(alloc: Global) -> Result<Channel, AllocError>
        ensures { IfOk result (λ c. c ≡ []) }
    {
        Ok(Channel {
            events: Room::new(alloc)?,
        })
    }

    /// Puts an event of the completion queue in this cell behind the others (`uverbs_main.c`,
    /// `ib_uverbs_comp_handler`). False where the channel is full: the event isn't taken, and nothing has changed.
    pub fn put(&mut self, cq: u32) -> bool
        ensures taken { IsTrue result ↔ (length self.old < CHANNEL_EVENTS) }
        ensures events { self.new ≡ (if result then with_newest self.old cq else self.old) }
        ensures most { length self.new ≤ CHANNEL_EVENTS }
    {
        if self.events.is_full() {
            return false;
        }
        self.events.put(cq);
        true
    }

    /// Takes the oldest event out, if there is one (`uverbs_main.c`, `ib_uverbs_comp_event_read`).
    pub fn get(&mut self) -> Option<u32>
        ensures oldest { result ≡ oldest self.old }
        ensures rest { self.new ≡ without_oldest self.old }
    {
        if self.events.is_empty() {
            return None;
        }
        Some(self.events.remove(0))
    }
}

#[cfg(test)]
mod tests {
    use super::*;
    use std::test::Fail;

    #[test]
    fn events_leave_in_the_order_in_which_they_came(rt: HostRuntime) -> Result<(), Fail> {
        let mut channel = Channel::new(rt.alloc())?;
        assert_eq!(rt; channel.get(), None);
        assert!(rt; channel.put(3));
        assert!(rt; channel.put(60));
        assert!(rt; channel.put(3));
        assert_eq!(rt; channel.get(), Some(3));
        assert_eq!(rt; channel.get(), Some(60));
        assert_eq!(rt; channel.get(), Some(3));
        assert_eq!(rt; channel.get(), None);
        Ok(())
    }

    #[test]
    fn a_channel_takes_1024_events_and_no_more(rt: HostRuntime) -> Result<(), Fail> {
        let mut channel = Channel::new(rt.alloc())?;
        for cq in 0..1_024 {
            assert!(rt; channel.put(cq));
        }
        assert!(rt; !channel.put(7));
        assert_eq!(rt; channel.get(), Some(0));
        assert!(rt; channel.put(7));
        assert!(rt; !channel.put(8));
        Ok(())
    }
}
