//! The ring of a completion queue.

ghost use Rattle.std.specs.Prelude.{◌≡◌, ◌≤◌, ◌&&◌, ◌||◌, length, false, IfOk, ◌↔◌};
ghost use Rattle.uv_queue.specs.Order.{oldest};
ghost use Rattle.uv_cq.specs.Rings.{fresh_ring, is_solicited, wants, push_told, after_push, after_poll, after_arm, after_disarm, armed_again};

use std::alloc::{AllocError, Global};
use std::marker::Model;
use uv_num::{CQ_DEPTH, Room};
use uv_wr::Completion;

/// What a ring is armed for (`enum ib_cq_notify_flags`, `rdma/ib_verbs.h`).
#[derive(Clone, Copy, Debug, PartialEq, Eq)]
pub enum Arming {
    /// The next completion that is solicited or an error (IB_CQ_SOLICITED).
    Solicited,
    /// The next completion (IB_CQ_NEXT_COMP).
    All,
}

/// What became of a completion that was pushed.
#[derive(Clone, Copy, Debug, PartialEq, Eq)]
pub struct Pushed {
    /// Whether the ring had room for it. Else it is lost, and the ring has overrun.
    pub kept: bool,
    /// Whether the channel of the queue is to be told. The ring stays armed: whoever hands the event over disarms it.
    pub event: bool,
}

/// The completions of a completion queue that nobody has polled yet (`rxe_cq.c` of `sw/rxe`). The depth is the `cqe` that
/// the create asked for (`struct ib_cq_init_attr`), 1 to `CQ_DEPTH`, and is exact; the rings of `sw/rxe` have a power of
/// two of places. Only its making takes memory.
#[derive(Debug, Drop)]
pub struct Ring {
    completions: Room<Completion, CQ_DEPTH>,
    depth: u32,
    armed: Option<Arming>,
    overrun: bool,
}

impl Model for Ring {
    ghost use Rattle.std.specs.Prelude.{length, ◌≤◌};
    ghost use Rattle.uv_num.specs.declared.limits.TheConstants.{CQ_DEPTH};
    ghost use Rattle.uv_cq.specs.Rings.{Ringed};

    ghost Value = { Ringed };

    ghost view = { λ r. record { completions = r.completions; depth = r.depth; armed = r.armed; overrun = r.overrun } };

    ghost invariant = { λ r. (length r.completions ≤ r.depth) × (r.depth ≤ CQ_DEPTH) };
}

impl Ring {
    /// A ring without completions, which is not armed. It takes all the memory that the ring will need.
    pub fn new(alloc: Global, depth: u32) -> Result<Ring, AllocError>
        requires least { 1 ≤ depth }
        requires most { depth ≤ CQ_DEPTH }
        ensures { IfOk result (λ r. r ≡ fresh_ring depth) }
    {
        Ok(Ring {
            completions: Room::new(alloc)?,
            depth,
            armed: None,
            overrun: false,
        })
    }

    /// Puts a completion behind the others (`rxe_cq.c`, `rxe_cq_post`). `solicited` says that the sender asked for an event;
    /// an error counts as solicited too (IBA volume 1, 11.4.2.2), where `sw/rxe` takes so only the failed receives
    /// (`rxe_resp.c`, `do_complete`). A completion for which there is no room is lost, and `overrun` is set for good:
    /// `sw/rxe` tells the queue's event handler instead (IB_EVENT_CQ_ERR).
    pub fn push(&mut self, completion: Completion, solicited: bool) -> Pushed
        ensures told { result ≡ push_told self.old completion solicited }
        ensures full { (result.kept ≡ false) ↔ (length self.old.completions ≡ self.old.depth) }
        ensures ring { self.new ≡ after_push self.old completion }
    {
        if self.completions.len() >= self.depth as usize {
            self.overrun = true;
            return Pushed {
                kept: false,
                event: false,
            };
        }
        self.completions.put(completion);
        Pushed {
            kept: true,
            event: is_due(self.armed, completion, solicited),
        }
    }

    /// Takes the oldest completion out, if there is one (`rxe_verbs.c`, `rxe_poll_cq`).
    pub fn poll(&mut self) -> Option<Completion>
        ensures oldest { result ≡ oldest self.old.completions }
        ensures rest { self.new ≡ after_poll self.old }
    {
        if self.completions.is_empty() {
            return None;
        }
        Some(self.completions.remove(0))
    }

    /// Asks for an event at the next completion, or at the next solicited one (`rxe_verbs.c`, `rxe_req_notify_cq`). An
    /// arming for all stays until `disarm`; else the later arming counts.
    pub fn arm(&mut self, solicited: bool)
        ensures { self.new ≡ after_arm self.old solicited }
    {
        self.armed = Some(armed_again(self.armed, solicited));
    }

    /// Asks for no event any more. In `rxe_cq_post` an event disarms the queue by itself.
    pub fn disarm(&mut self)
        ensures { self.new ≡ after_disarm self.old }
    {
        self.armed = None;
    }

    /// Whether a completion was ever lost.
    pub fn overrun(&self) -> bool
        ensures { result ≡ self.now.overrun }
    {
        self.overrun
    }
}

fn is_due(armed: Option<Arming>, completion: Completion, solicited: bool) -> bool
    ensures { result ≡ wants armed (is_solicited completion solicited) }
{
    match armed {
        None => false,
        Some(Arming::Solicited) => completion.status.is_failure() || solicited,
        Some(Arming::All) => true,
    }
}

fn armed_again(armed: Option<Arming>, solicited: bool) -> Arming
    ensures { result ≡ armed_again armed solicited }
{
    match armed {
        Some(Arming::All) => Arming::All,
        None | Some(Arming::Solicited) => {
            if solicited {
                Arming::Solicited
            } else {
                Arming::All
            }
        }
    }
}

#[cfg(test)]
mod tests {
    use super::*;
    use std::test::Fail;
    use uv_wr::{Status, What};

    fn completion(id: u64, status: Status) -> Completion {
        Completion {
            id,
            status,
            what: What::Recv,
            length: 4,
            imm: None,
            qpn: 17,
        }
    }

    #[test]
    fn completions_leave_in_the_order_in_which_they_came(rt: HostRuntime) -> Result<(), Fail> {
        let one = completion(1, Status::Success);
        let two = completion(2, Status::WrFlushErr);
        let mut ring = Ring::new(rt.alloc(), 2)?;
        assert!(rt; ring.push(one, false).kept);
        assert!(rt; ring.push(two, false).kept);
        assert_eq!(rt; ring.poll(), Some(one));
        assert_eq!(rt; ring.poll(), Some(two));
        assert_eq!(rt; ring.poll(), None);
        Ok(())
    }

    #[test]
    fn a_lost_completion_is_marked_for_good(rt: HostRuntime) -> Result<(), Fail> {
        let one = completion(1, Status::Success);
        let two = completion(2, Status::Success);
        let mut ring = Ring::new(rt.alloc(), 1)?;
        ring.arm(false);
        assert!(rt; ring.push(one, false).kept);
        assert!(rt; !ring.overrun());
        let lost = ring.push(two, false);
        assert!(rt; !lost.kept && !lost.event);
        assert_eq!(rt; ring.poll(), Some(one));
        assert_eq!(rt; ring.poll(), None);
        assert!(rt; ring.push(two, false).kept);
        assert!(rt; ring.overrun());
        Ok(())
    }

    #[test]
    fn an_event_is_due_as_the_ring_is_armed(rt: HostRuntime) -> Result<(), Fail> {
        // what is asked for, by one arming or two, and whether an event is due at a plain completion, at a solicited one
        // and at an error
        let rows = [
            ([None, None], false, false, false),
            ([Some(true), None], false, true, true),
            ([Some(false), None], true, true, true),
            ([Some(true), Some(false)], true, true, true),
            ([Some(false), Some(true)], true, true, true),
        ];
        for (asked, plain, solicited, failed) in rows.iter() {
            let mut ring = Ring::new(rt.alloc(), 4)?;
            for arming in asked.iter() {
                if let Some(solicited_only) = arming {
                    ring.arm(*solicited_only);
                }
            }
            assert_eq!(rt;
                ring.push(completion(1, Status::Success), false).event,
                *plain
            );
            assert_eq!(rt;
                ring.push(completion(2, Status::Success), true).event,
                *solicited
            );
            assert_eq!(rt;
                ring.push(completion(3, Status::RemOpErr), false).event,
                *failed
            );
            ring.disarm();
            assert!(rt; !ring.push(completion(4, Status::RemOpErr), true).event);
        }
        Ok(())
    }
}
