//! Which works a response speaks of.

ghost use Rattle.std.specs.Prelude.{◌≡◌, ◌≤◌, ◌<◌, ◌+◌, length, IfSome};
ghost use Rattle.uv_num.specs.declared.limits.TheConstants.{PSNS, QUEUE_DEPTH};
ghost use Rattle.uv_qp.specs.PacketCounts.{queue_packets};
ghost use Rattle.uv_qp.specs.declared.counting.TheConstants.{WORK_PACKETS};
ghost use Rattle.uv_completer.specs.Reaches.{asks_for_bytes, is_unanswered, oldest_read, oldest_read_from, place_of, stopped_by, works_before};

use uv_num::PSNS;
use uv_qp::{Requester, packets_of};
use uv_wr::{Op, SendWork};

/// A read that waits for bytes from its peer, as its responses are matched against it.
#[derive(Clone, Copy, Debug, PartialEq, Eq)]
pub struct WaitingRead {
    /// How many works are older.
    pub older: u32,
    /// The place of its first packet.
    pub start: u32,
    /// How many packets all its responses are.
    pub packets: u32,
    /// How many bytes it reads.
    pub size: u32,
}

/// The place of a PSN.
pub(crate) fn place_of(requester: Requester, psn: u32) -> u32
    requires base { requester.base < PSNS }
    ensures place { result ≡ place_of requester psn }
    ensures range { result < PSNS }
{
    let ahead = u64::from(psn) + (PSNS - u64::from(requester.base));
    (ahead % PSNS) as u32
}

/// Whether the packet at a place was sent and isn't acknowledged.
pub(crate) fn is_unanswered(requester: Requester, at: u32) -> bool
    ensures { result ≡ is_unanswered requester at }
{
    requester.una <= at && at < requester.high
}

/// How many of the oldest works end before a place. Where the place is that of a packet of the queue, another work is there.
pub(crate) fn works_before(mtu: u64, works: &[SendWork], at: u32) -> u32
    requires least { 256 ≤ mtu }
    requires most { mtu ≤ 4096 }
    requires few { length works.now ≤ QUEUE_DEPTH }
    ensures count { result ≡ works_before mtu works.now at }
    ensures within { result ≤ length works.now }
    ensures there { at < queue_packets mtu works.now → result < length works.now }
{
    let mut rest = at;
    let mut count = 0u32;
    for work in works {
        let packets = packets_of(mtu, work);
        if rest < packets {
            return count;
        }
        rest -= packets;
        count += 1;
    }
    count
}

/// Whether a work waits for bytes from its peer.
fn asks_for_bytes(op: Op) -> bool
    ensures { result ≡ asks_for_bytes op }
{
    match op {
        Op::Read(..) => true,
        Op::Send | Op::SendImm(_) | Op::Write(..) | Op::WriteImm(..) | Op::Ud(..) | Op::UdImm(..) =>
            false,
    }
}

/// The oldest read of a queue, if it has one.
pub(crate) fn oldest_read(mtu: u64, works: &[SendWork]) -> Option<WaitingRead>
    requires least { 256 ≤ mtu }
    requires most { mtu ≤ 4096 }
    requires few { length works.now ≤ QUEUE_DEPTH }
    ensures read { result ≡ oldest_read mtu works.now }
    ensures there { IfSome result (λ r. r.older < length works.now) }
    ensures near { IfSome result (λ r. r.start + r.packets ≤ 8192) }
    ensures few { IfSome result (λ r. r.packets ≤ WORK_PACKETS) }
{
    let mut older = 0u32;
    let mut start = 0u32;
    for work in works {
        let packets = packets_of(mtu, work);
        if asks_for_bytes(work.op()) {
            return Some(WaitingRead {
                older,
                start,
                packets,
                size: work.length(),
            });
        }
        start += packets;
        older += 1;
    }
    None
}

/// The place up to which an acknowledge may reach: the first packet of a read stops it.
pub(crate) fn stopped_by(read: Option<WaitingRead>, to: u32) -> u32
    ensures { result ≡ stopped_by read to }
{
    match read {
        None => to,
        Some(read) => read.start.min(to),
    }
}
