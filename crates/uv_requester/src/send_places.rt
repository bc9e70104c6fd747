//! Which packet of which work stands at a place of the send queue.

ghost use Rattle.std.specs.Prelude.{◌≡◌, ◌≤◌, ◌<◌, length, IfSome};
ghost use Rattle.uv_num.specs.declared.limits.TheConstants.{QUEUE_DEPTH};
ghost use Rattle.uv_requester.specs.SendPlaces.{has_read_before, is_read_op, located, work_places};

use uv_qp::packets_of;
use uv_wr::{Op, SendWork};

/// The work at a place of the queue, and which of its packets stands there; None where the place is beyond the last one. No
/// queue has as many packets as `MOST_PLACES`.
pub(crate) fn locate(mtu: u64, works: &[SendWork], at: u32) -> Option<(u32, u32)>
    requires least { 256 ≤ mtu }
    requires most { mtu ≤ 4096 }
    requires few { length works.now ≤ QUEUE_DEPTH }
    ensures located { result ≡ located 0 mtu works.now at }
    ensures near { IfSome result (λ l. (at < 8192) × (l.1 < 64)) }
{
    let mut rest = at;
    let mut place = 0u32;
    for work in works {
        let packets = packets_of(mtu, work);
        if rest < packets {
            return Some((place, rest));
        }
        rest -= packets;
        place += 1;
    }
    None
}

pub(crate) fn is_read_op(op: Op) -> bool
    ensures { result ≡ is_read_op op }
{
    match op {
        Op::Read(..) => true,
        Op::Send | Op::SendImm(_) | Op::Write(..) | Op::WriteImm(..) | Op::Ud(..) | Op::UdImm(..) =>
            false,
    }
}

/// Whether a read was asked for that waits for its responses, where the packet at this place is sent next.
pub(crate) fn has_read_before(mtu: u64, works: &[SendWork], at: u32) -> bool
    requires least { 256 ≤ mtu }
    requires most { mtu ≤ 4096 }
    ensures { result ≡ has_read_before mtu works.now at }
{
    let mut rest = at;
    for work in works {
        let packets = packets_of(mtu, work);
        if rest < packets {
            return false;
        }
        if is_read_op(work.op()) {
            return true;
        }
        rest -= packets;
    }
    false
}

/// How many places the request packet of a work at a place takes.
pub(crate) fn work_places(mtu: u64, work: &SendWork, at: u32) -> u32
    requires least { 256 ≤ mtu }
    requires most { mtu ≤ 4096 }
    ensures places { result ≡ work_places mtu work.now at }
    ensures few { result ≤ 64 }
{
    match work.op() {
        Op::Read(..) => packets_of(mtu, work).saturating_sub(at),
        Op::Send | Op::SendImm(_) | Op::Write(..) | Op::WriteImm(..) | Op::Ud(..) | Op::UdImm(..) =>
            1,
    }
}
