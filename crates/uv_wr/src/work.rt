//! Works: what is posted to the queues of a queue pair.

ghost use Rattle.std.specs.Prelude.{◌≡◌, ◌<◌, ◌≤◌, length};
ghost use Rattle.uv_wr.specs.Works.{parts_fit, whole_length, sending, receiving, op_to, sending_to, IsAddressed};

use std::marker::Model;
use uv_num::{DEVICES, List, QP_NUMBERS, WORK_BYTES, WORK_PARTS};

/// A part of a work: where some of its bytes lie (`struct ib_sge`, `rdma/ib_verbs.h`; an entry of the gather list of a
/// send, of the scatter list of a receive).
#[derive(Clone, Copy, Debug, PartialEq, Eq)]
pub struct Sge {
    /// The key of a region.
    pub key: u32,
    /// The place of the first byte in the region, from 0. Linux has an address there; regions here begin at 0.
    pub offset: u64,
    /// How many bytes. 0 is a part without any.
    pub length: u32,
}

/// What a send work does (`enum ib_wr_opcode`, `rdma/ib_verbs.h`). Immediates are the four bytes as one number.
#[derive(Clone, Copy, Debug, PartialEq, Eq)]
pub enum Op {
    /// Sends to the peer's next receive (IB_WR_SEND).
    Send,
    /// The same, with an immediate (IB_WR_SEND_WITH_IMM).
    SendImm(u32),
    /// Writes to a place of a peer's region: the place, and the region's key (IB_WR_RDMA_WRITE).
    Write(u64, u32),
    /// The same, with an immediate, which takes a receive of the peer (IB_WR_RDMA_WRITE_WITH_IMM).
    WriteImm(u64, u32, u32),
    /// Reads from a place of a peer's region: the place, and the region's key (IB_WR_RDMA_READ).
    Read(u64, u32),
    /// Sends a datagram: the device that it goes to, the number of the queue pair there, the Q_Key (IB_WR_SEND of a
    /// datagram service; `struct ib_ud_wr`).
    Ud(u32, u32, u32),
    /// The same, with an immediate behind the Q_Key.
    UdImm(u32, u32, u32, u32),
}

/// A work of a send queue (`struct ib_send_wr`, `rdma/ib_verbs.h`): at most `WORK_PARTS` parts, of `WORK_BYTES` bytes at
/// most in all, which are this project's own limits. It stays as it was made, but for the device of a datagram.
#[derive(Debug, Drop)]
pub struct SendWork {
    id: u64,
    op: Op,
    solicited: bool,
    parts: List<Sge>,
}

impl Model for SendWork {
    ghost use Rattle.uv_wr.specs.Works.{Sending, AreParts, IsAddressed};

    ghost Value = { Sending };

    ghost view = { λ w. record { id = w.id; op = w.op; solicited = w.solicited; parts = w.parts } };

    ghost invariant = { λ w. AreParts w.parts × IsAddressed w.op };
}

impl SendWork {
    /// The work of these parts; None exactly where they are too many or too long. `id` is the caller's own and is told by
    /// the completion (`wr_id`); `solicited` asks for a solicited event at the peer (IB_SEND_SOLICITED). A datagram goes to
    /// a device below `DEVICES` and to a queue pair number below `QP_NUMBERS`.
    pub fn new(id: u64, op: Op, solicited: bool, parts: List<Sge>) -> Option<SendWork>
        requires { IsAddressed op }
        ensures { result ≡ sending id op solicited parts }
    {
        if fit(parts.as_slice()) {
            Some(SendWork {
                id,
                op,
                solicited,
                parts,
            })
        } else {
            None
        }
    }

    /// The work, going to this device where it is a datagram. A post takes the device out of the address handle that it
    /// is given (`struct ib_ud_wr` has the handle itself), which the poster of the work can't know when it makes it.
    pub fn to_device(self, device: u32) -> SendWork
        requires { device < DEVICES }
        ensures { result ≡ sending_to device self }
    {
        let SendWork {
            id,
            op,
            solicited,
            parts,
        } = self;
        SendWork {
            id,
            op: op_to(device, op),
            solicited,
            parts,
        }
    }

    /// The caller's number for it.
    pub fn id(&self) -> u64
        ensures { result ≡ self.now.id }
    {
        self.id
    }

    /// What it does. A datagram goes to a device below `DEVICES` and to a queue pair number below `QP_NUMBERS`.
    pub fn op(&self) -> Op
        ensures op { result ≡ self.now.op }
        ensures addressed { IsAddressed result }
    {
        self.op
    }

    /// Whether it asks for a solicited event at the peer.
    pub fn solicited(&self) -> bool
        ensures { result ≡ self.now.solicited }
    {
        self.solicited
    }

    /// Its parts, in order: at most `WORK_PARTS`.
    pub fn parts(&self) -> &[Sge]
        ensures parts { result.now ≡ self.now.parts }
        ensures few { length result.now ≤ WORK_PARTS }
    {
        self.parts.as_slice()
    }

    /// The bytes of all its parts: at most `WORK_BYTES`.
    pub fn length(&self) -> u32
        ensures whole { result ≡ whole_length self.now.parts }
        ensures short { result ≤ WORK_BYTES }
    {
        length_of(self.parts.as_slice()) as u32
    }
}

/// A work of a receive queue (`struct ib_recv_wr`, `rdma/ib_verbs.h`), with the limits of a send work. It stays as it was
/// made.
#[derive(Debug, Drop)]
pub struct RecvWork {
    id: u64,
    parts: List<Sge>,
}

impl Model for RecvWork {
    ghost use Rattle.uv_wr.specs.Works.{Receiving, AreParts};

    ghost Value = { Receiving };

    ghost view = { λ w. record { id = w.id; parts = w.parts } };

    ghost invariant = { λ w. AreParts w.parts };
}

impl RecvWork {
    /// The work of these parts; None exactly where they are too many or too long. `id` is the caller's own and is told by
    /// the completion (`wr_id`).
    pub fn new(id: u64, parts: List<Sge>) -> Option<RecvWork>
        ensures { result ≡ receiving id parts }
    {
        if fit(parts.as_slice()) {
            Some(RecvWork { id, parts })
        } else {
            None
        }
    }

    /// The caller's number for it.
    pub fn id(&self) -> u64
        ensures { result ≡ self.now.id }
    {
        self.id
    }

    /// Its parts, in order: at most `WORK_PARTS`.
    pub fn parts(&self) -> &[Sge]
        ensures parts { result.now ≡ self.now.parts }
        ensures few { length result.now ≤ WORK_PARTS }
    {
        self.parts.as_slice()
    }

    /// The bytes of all its parts: at most `WORK_BYTES`.
    pub fn length(&self) -> u32
        ensures whole { result ≡ whole_length self.now.parts }
        ensures short { result ≤ WORK_BYTES }
    {
        length_of(self.parts.as_slice()) as u32
    }
}

/// What a work does, with this device where it sends a datagram.
fn op_to(device: u32, op: Op) -> Op
    ensures { result ≡ op_to device op }
{
    match op {
        Op::Send => Op::Send,
        Op::SendImm(imm) => Op::SendImm(imm),
        Op::Write(at, key) => Op::Write(at, key),
        Op::WriteImm(at, key, imm) => Op::WriteImm(at, key, imm),
        Op::Read(at, key) => Op::Read(at, key),
        Op::Ud(_, qp, qkey) => Op::Ud(device, qp, qkey),
        Op::UdImm(_, qp, qkey, imm) => Op::UdImm(device, qp, qkey, imm),
    }
}

fn fit(parts: &[Sge]) -> bool
    ensures { result ≡ parts_fit parts.now }
{
    parts.len() <= WORK_PARTS && length_of(parts) <= WORK_BYTES as u64
}

fn length_of(parts: &[Sge]) -> u64
    requires { length parts.now ≤ WORK_PARTS }
    ensures { result ≡ whole_length parts.now }
{
    let mut whole = 0u64;
    for part in parts {
        whole += u64::from(part.length);
    }
    whole
}

#[cfg(test)]
mod tests {
    use super::*;
    use std::test::Fail;

    fn part(length: u32) -> Sge {
        Sge {
            key: 0x100,
            offset: 8,
            length,
        }
    }

    #[test]
    fn a_send_work_keeps_what_it_was_made_of(rt: HostRuntime) -> Result<(), Fail> {
        let parts = List::from_slice(rt.alloc(), &[part(16_000), part(0), part(384)])?;
        let op = Op::UdImm(1, 16_777_215, 0x11, 5);
        let work = SendWork::new(7, op, true, parts).expect(&rt, "fitting parts");
        assert_eq!(rt; work.id(), 7);
        assert_eq!(rt; work.op(), op);
        assert!(rt; work.solicited());
        assert_eq!(rt; work.parts().len(), 3);
        assert_eq!(rt; work.length(), 16_384);
        let again = work.to_device(0);
        assert_eq!(rt; again.op(), Op::UdImm(0, 16_777_215, 0x11, 5));
        assert_eq!(rt; again.id(), 7);
        Ok(())
    }

    #[test]
    fn only_a_datagram_goes_to_another_device(rt: HostRuntime) -> Result<(), Fail> {
        let rows = [
            (Op::Send, Op::Send),
            (Op::SendImm(1), Op::SendImm(1)),
            (Op::Write(1, 2), Op::Write(1, 2)),
            (Op::WriteImm(1, 2, 3), Op::WriteImm(1, 2, 3)),
            (Op::Read(1, 2), Op::Read(1, 2)),
            (Op::Ud(1, 2, 3), Op::Ud(0, 2, 3)),
            (Op::UdImm(1, 2, 3, 4), Op::UdImm(0, 2, 3, 4)),
        ];
        for (op, wanted) in rows.iter() {
            assert_eq!(rt; op_to(0, *op), *wanted);
        }
        Ok(())
    }

    #[test]
    fn a_receive_work_keeps_what_it_was_made_of(rt: HostRuntime) -> Result<(), Fail> {
        let parts = List::from_slice(rt.alloc(), &[part(4)])?;
        let work = RecvWork::new(9, parts).expect(&rt, "fitting parts");
        assert_eq!(rt; work.id(), 9);
        assert_eq!(rt; work.parts(), [part(4)].as_slice());
        assert_eq!(rt; work.length(), 4);
        Ok(())
    }

    #[test]
    fn parts_are_refused_where_they_are_too_many_or_too_long(rt: HostRuntime) -> Result<(), Fail> {
        let four = [part(4096), part(4096), part(4096), part(4096)];
        let five = [part(0), part(0), part(0), part(0), part(0)];
        let long = [part(16_385)];
        let long_together = [part(16_384), part(1)];
        let wrapping = [part(4_294_967_295), part(1)];
        let empty: [Sge; 0] = [];
        let rows = [
            (four.as_slice(), true),
            (five.as_slice(), false),
            (long.as_slice(), false),
            (long_together.as_slice(), false),
            (wrapping.as_slice(), false),
            (empty.as_slice(), true),
        ];
        for (parts, made) in rows.iter() {
            let sent = SendWork::new(1, Op::Send, false, List::from_slice(rt.alloc(), parts)?);
            assert_eq!(rt; sent.is_some(), *made);
            let received = RecvWork::new(1, List::from_slice(rt.alloc(), parts)?);
            assert_eq!(rt; received.is_some(), *made);
        }
        Ok(())
    }
}
