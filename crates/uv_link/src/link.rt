//! A link.

ghost use Rattle.std.specs.Prelude.{◌≡◌, ◌<◌, ◌≤◌, ◌==◌, [], ◌∷◌, length, remove, option_map, IfOk, IfErr, IsErr, IsTrue, OnOk, ◌↔◌};
ghost use Rattle.uv_num.specs.declared.limits.TheConstants.{LINK_FRAMES};
ghost use Rattle.uv_queue.specs.Order.{with_newest, oldest, without_oldest};
ghost use Rattle.uv_link.specs.Frames.{plain_frame, DupGives};

use crate::frame::Frame;
use std::alloc::{AllocError, Global};
use std::marker::Model;
use uv_num::{LINK_FRAMES, Room};

/// What became of a frame that was to be doubled.
#[derive(Clone, Copy, Debug, PartialEq, Eq)]
pub enum Duped {
    /// A copy of it stands at the back.
    Did,
    /// No frame stands at the place.
    None,
    /// As many frames as there may be stand on the link already.
    Full,
    /// Memory ran out.
    NoMemory,
}

/// The frames between the devices, at most `LINK_FRAMES`, in the order in which they were sent. In Linux the network has
/// them, and each device a queue of what came in (`rxe_comp_queue_pkt` of `rxe_comp.c` and `rxe_resp_queue_pkt` of
/// `rxe_resp.c`); the bound and the one order for both directions are this project's own. Contracts see the list of the
/// frames, the oldest first. Only its making, and doubling a frame, take memory.
#[derive(Debug, Drop)]
pub struct Link {
    frames: Room<Frame, LINK_FRAMES>,
}

impl Model for Link {
    ghost use Rattle.std.specs.Prelude.{List, length, map, ◌≤◌};
    ghost use Rattle.uv_num.specs.declared.limits.TheConstants.{LINK_FRAMES};
    ghost use Rattle.uv_link.specs.Frames.{PlainFrame, plain_frame};

    ghost Value = { List PlainFrame };

    ghost view = { λ l. map plain_frame l.frames };

    ghost invariant = { λ l. length l.frames ≤ LINK_FRAMES };
}

impl Link {
    /// A link without frames. It takes all the memory that the link will need, but for the bytes of frames.
    pub fn new(alloc: Global) -> Result<Link, AllocError>
        ensures { IfOk result (λ l. l ≡ []) }
    {
        Ok(Link {
            frames: Room::new(alloc)?,
        })
    }

    /// How many frames there are.
    pub fn len(&self) -> u32
        ensures count { result ≡ length self.now }
        ensures most { result ≤ LINK_FRAMES }
    {
        self.frames.len() as u32
    }

    /// Whether there are no frames.
    pub fn is_empty(&self) -> bool
        ensures { result ≡ (length self.now == 0) }
    {
        self.frames.is_empty()
    }

    /// Puts a frame behind the others. The error is Full: `LINK_FRAMES` are there. It hands the frame back, which is lost
    /// then if nobody keeps it, and nothing has changed.
    pub fn push(&mut self, frame: Frame) -> Result<(), Frame>
        ensures full { IsErr result ↔ (length self.old ≡ LINK_FRAMES) }
        ensures pushed { OnOk result (self.new ≡ with_newest self.old (plain_frame frame)) }
        ensures back { IfErr result (λ f. (f ≡ frame) × (self.new ≡ self.old)) }
    {
        if self.frames.is_full() {
            return Err(frame);
        }
        self.frames.put(frame);
        Ok(())
    }

    /// Puts a frame before all others, as one that was popped and could not be delivered yet.
    pub fn put_front(&mut self, frame: Frame)
        requires { length self.old < LINK_FRAMES }
        ensures { self.new ≡ plain_frame frame ∷ self.old }
    {
        self.frames.insert(0, frame);
    }

    /// Takes the oldest frame out, if there is one. There is room for a frame then.
    pub fn pop(&mut self) -> Option<Frame>
        ensures oldest { option_map plain_frame result ≡ oldest self.old }
        ensures rest { self.new ≡ without_oldest self.old }
        ensures room { length self.new < LINK_FRAMES }
    {
        if self.frames.is_empty() {
            return None;
        }
        Some(self.frames.remove(0))
    }

    /// Takes the frame at a place out and lets it go, the oldest standing at 0. False where none stands there, and nothing
    /// has changed.
    pub fn drop_at(&mut self, place: u32) -> bool
        ensures there { IsTrue result ↔ (place < length self.old) }
        ensures rest { self.new ≡ remove self.old place }
    {
        let place = place as usize;
        if place >= self.frames.len() {
            return false;
        }
        let _ = self.frames.remove(place);
        true
    }

    /// Puts a copy of the frame at a place behind the others, the oldest standing at 0. Where it doesn't, nothing has
    /// changed.
    pub fn dup_at(&mut self, alloc: Global, place: u32) -> Duped
        ensures { DupGives self.old place result self.new }
    {
        match self.frames.get(place as usize) {
            None => Duped::None,
            Some(frame) => {
                if self.frames.is_full() {
                    return Duped::Full;
                }
                match frame.copy(alloc) {
                    Err(AllocError) => Duped::NoMemory,
                    Ok(copy) => {
                        self.frames.put(copy);
                        Duped::Did
                    }
                }
            }
        }
    }
}

#[cfg(test)]
mod tests {
    use super::*;
    use std::test::Fail;
    use uv_num::Bytes;

    /// A frame of one byte.
    fn frame(alloc: Global, byte: u8) -> Result<Frame, AllocError> {
        let mut bytes = Bytes::with_room(alloc, 1)?;
        bytes.put(byte);
        Ok(Frame {
            from: 0,
            to: 1,
            bytes,
        })
    }

    /// The bytes of the frames that are left, oldest first.
    fn left(alloc: Global, link: &mut Link) -> Result<Vec<u8>, Fail> {
        let mut all = Vec::new(alloc);
        for _turn in 0..LINK_FRAMES {
            match link.pop() {
                None => return Ok(all),
                Some(frame) => all.extend_from_slice(frame.bytes.as_slice())?,
            }
        }
        Ok(all)
    }

    #[test]
    fn frames_leave_in_the_order_in_which_they_came(rt: HostRuntime) -> Result<(), Fail> {
        let mut link = Link::new(rt.alloc())?;
        assert!(rt; link.is_empty());
        for byte in 1..5 {
            assert!(rt; link.push(frame(rt.alloc(), byte)?).is_ok());
        }
        assert_eq!(rt; link.len(), 4);
        assert!(rt; link.drop_at(1));
        assert!(rt; !link.drop_at(3));
        assert_eq!(rt; link.dup_at(rt.alloc(), 0), Duped::Did);
        assert_eq!(rt; link.dup_at(rt.alloc(), 4), Duped::None);
        let popped = link.pop().expect(&rt, "the oldest");
        assert_eq!(rt; (popped.from, popped.to), (0, 1));
        link.put_front(frame(rt.alloc(), 9)?);
        assert_eq!(rt;
            left(rt.alloc(), &mut link)?.as_slice(),
            [9, 3, 4, 1].as_slice()
        );
        Ok(())
    }

    #[test]
    fn a_link_holds_1024_frames_and_no_more(rt: HostRuntime) -> Result<(), Fail> {
        let mut link = Link::new(rt.alloc())?;
        for place in 0..1_024u32 {
            let byte = (place % 256) as u8;
            assert!(rt; link.push(frame(rt.alloc(), byte)?).is_ok());
        }
        let back = link
            .push(frame(rt.alloc(), 7)?)
            .err()
            .expect(&rt, "the frame");
        assert_eq!(rt; back.bytes.as_slice(), [7].as_slice());
        assert_eq!(rt; link.dup_at(rt.alloc(), 1_023), Duped::Full);
        assert_eq!(rt; link.dup_at(rt.alloc(), 1_024), Duped::None);
        assert!(rt; link.drop_at(1_023));
        assert_eq!(rt; link.dup_at(rt.alloc(), 1_022), Duped::Did);
        assert_eq!(rt; link.len(), 1_024);
        Ok(())
    }
}
