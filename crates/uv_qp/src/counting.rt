//! How many packets works have.

ghost use Rattle.std.specs.Prelude.{◌≡◌, ◌≤◌, ◌<◌, ◌+◌, length};
ghost use Rattle.uv_num.specs.declared.limits.TheConstants.{WORK_BYTES};
ghost use Rattle.uv_qp.specs.PacketCounts.{packets_in, work_packets};

use uv_num::{MTUS, WORK_BYTES};
use uv_wr::{Op, SendWork};

/// The packets of the longest work at the smallest path MTU: `WORK_BYTES` in pieces of 256 bytes.
pub const WORK_PACKETS: u32 = 64;

const _: () = prove!(WORK_PACKETS as u64 * MTUS[0] == WORK_BYTES as u64);

/// How many packets so many bytes take: one where there are none.
pub fn packets_in(mtu: u64, size: u32) -> u32
    requires least { 256 ≤ mtu }
    requires most { mtu ≤ 4096 }
    requires size { size ≤ WORK_BYTES }
    ensures count { result ≡ packets_in mtu size }
    ensures some { 1 ≤ result }
    ensures few { result ≤ WORK_PACKETS }
{
    if size == 0 {
        return 1;
    }
    ((u64::from(size) + (mtu - 1)) / mtu) as u32
}

/// How many packets a work has, as many as it has PSNs: those of its bytes, and one for a datagram. Those of a read are
/// those of its response.
pub fn packets_of(mtu: u64, work: &SendWork) -> u32
    requires least { 256 ≤ mtu }
    requires most { mtu ≤ 4096 }
    ensures count { result ≡ work_packets mtu work.now }
    ensures some { 1 ≤ result }
    ensures few { result ≤ WORK_PACKETS }
{
    match work.op() {
        Op::Send | Op::SendImm(_) | Op::Write(..) | Op::WriteImm(..) | Op::Read(..) => packets_in(
            mtu,
            work.length(),
        ),
        Op::Ud(..) | Op::UdImm(..) => 1,
    }
}
