//! The request packets of a work.

ghost use Rattle.std.specs.Prelude.{◌≡◌, ◌≤◌, ◌<◌, ◌*◌, ◌^◌, true};
ghost use Rattle.uv_num.specs.declared.limits.TheConstants.{PSNS};
ghost use Rattle.uv_packet.specs.Packets.{content_of};
ghost use Rattle.uv_region.specs.Several.{all_have_bytes};
ghost use Rattle.uv_wr.specs.Works.{whole_length};
ghost use Rattle.uv_requester.specs.Segments.{can_solicit, op_dest, op_deth, op_imm, is_first_spot, is_last_spot, op_spot, op_opcode, pieces_at, op_reth, segment, spot_of, work_share};

use uv_num::{Bytes, PSNS};
use uv_packet::{Deth, Opcode, Packet, Reth};
use uv_qp::{DEFAULT_PKEY, PieceList, packets_in, pieces};
use uv_wr::{Op, SendWork};

/// Where a packet stands in its message.
#[derive(Clone, Copy, Debug, PartialEq, Eq)]
pub enum Spot {
    /// It is the whole message.
    Only,
    /// It begins the message, and others follow.
    First,
    /// Others stand before it and after it.
    Middle,
    /// It ends the message.
    Last,
}

/// Who sends to whom, in pieces of which length, and from which number on.
#[derive(Clone, Copy, Debug, PartialEq, Eq)]
pub struct Course {
    /// The path MTU, 256 to 4,096 bytes.
    pub mtu: u64,
    /// The PSN of the first packet of the work, below `PSNS`.
    pub psn: u32,
    /// The number of the queue pair that this one is connected to.
    pub dest: u32,
    /// The number of the queue pair itself.
    pub source: u32,
}

pub(crate) fn spot_of(count: u32, at: u32) -> Spot
    ensures { result ≡ spot_of count at }
{
    if count == 1 {
        Spot::Only
    } else if at == 0 {
        Spot::First
    } else if u64::from(at) + 1 == u64::from(count) {
        Spot::Last
    } else {
        Spot::Middle
    }
}

fn is_last_spot(spot: Spot) -> bool
    ensures { result ≡ is_last_spot spot }
{
    match spot {
        Spot::Only | Spot::Last => true,
        Spot::First | Spot::Middle => false,
    }
}

fn is_first_spot(spot: Spot) -> bool
    ensures { result ≡ is_first_spot spot }
{
    match spot {
        Spot::Only | Spot::First => true,
        Spot::Middle | Spot::Last => false,
    }
}

/// Where the packet of a work at a place stands in its message.
fn spot_at(mtu: u64, work: &SendWork, at: u32) -> Spot
    requires least { 256 ≤ mtu }
    requires most { mtu ≤ 4096 }
    ensures { result ≡ op_spot mtu work.now.op (whole_length work.now.parts) at }
{
    match work.op() {
        Op::Send | Op::SendImm(_) | Op::Write(..) | Op::WriteImm(..) => spot_of(
            packets_in(mtu, work.length()),
            at,
        ),
        Op::Read(..) | Op::Ud(..) | Op::UdImm(..) => Spot::Only,
    }
}

/// The opcode of each packet of an operation (`next_opcode`, `rxe_req.c`).
fn op_opcode(op: Op, spot: Spot) -> Opcode
    ensures { result ≡ op_opcode op spot }
{
    match (op, spot) {
        (Op::Send | Op::SendImm(_), Spot::First) => Opcode::SendFirst,
        (Op::Send | Op::SendImm(_), Spot::Middle) => Opcode::SendMiddle,
        (Op::Send, Spot::Last) => Opcode::SendLast,
        (Op::Send, Spot::Only) => Opcode::SendOnly,
        (Op::SendImm(_), Spot::Last) => Opcode::SendLastWithImmediate,
        (Op::SendImm(_), Spot::Only) => Opcode::SendOnlyWithImmediate,
        (Op::Write(..) | Op::WriteImm(..), Spot::First) => Opcode::WriteFirst,
        (Op::Write(..) | Op::WriteImm(..), Spot::Middle) => Opcode::WriteMiddle,
        (Op::Write(..), Spot::Last) => Opcode::WriteLast,
        (Op::Write(..), Spot::Only) => Opcode::WriteOnly,
        (Op::WriteImm(..), Spot::Last) => Opcode::WriteLastWithImmediate,
        (Op::WriteImm(..), Spot::Only) => Opcode::WriteOnlyWithImmediate,
        (Op::Read(..), _) => Opcode::ReadRequest,
        (Op::Ud(..), _) => Opcode::UdSendOnly,
        (Op::UdImm(..), _) => Opcode::UdSendOnlyWithImmediate,
    }
}

/// The header of a write's first packet, and of each request of a read. The bytes before `from` were read already.
fn op_reth(op: Op, first: bool, size: u32, from: u64) -> Option<Reth>
    ensures { result ≡ op_reth op first size from }
{
    match op {
        Op::Write(at, key) | Op::WriteImm(at, key, _) => {
            if first {
                Some(Reth {
                    at,
                    key,
                    length: size,
                })
            } else {
                None
            }
        }
        Op::Read(at, key) => Some(Reth {
            at: ((u128::from(at) + u128::from(from)) % 18_446_744_073_709_551_616) as u64,
            key,
            length: u64::from(size).saturating_sub(from) as u32,
        }),
        Op::Send | Op::SendImm(_) | Op::Ud(..) | Op::UdImm(..) => None,
    }
}

fn op_imm(op: Op, last: bool) -> Option<u32>
    ensures { result ≡ op_imm op last }
{
    match op {
        Op::SendImm(imm) | Op::WriteImm(_, _, imm) => { if last { Some(imm) } else { None } }
        Op::UdImm(_, _, _, imm) => Some(imm),
        Op::Send | Op::Write(..) | Op::Read(..) | Op::Ud(..) => None,
    }
}

fn op_deth(op: Op, source: u32) -> Option<Deth>
    ensures { result ≡ op_deth op source }
{
    match op {
        Op::Ud(_, _, qkey) | Op::UdImm(_, _, qkey, _) => Some(Deth { qkey, source }),
        Op::Send | Op::SendImm(_) | Op::Write(..) | Op::WriteImm(..) | Op::Read(..) => None,
    }
}

fn op_dest(op: Op, peer: u32) -> u32
    ensures { result ≡ op_dest op peer }
{
    match op {
        Op::Ud(_, qp, _) | Op::UdImm(_, qp, _, _) => qp,
        Op::Send | Op::SendImm(_) | Op::Write(..) | Op::WriteImm(..) | Op::Read(..) => peer,
    }
}

fn can_solicit(op: Op) -> bool
    ensures { result ≡ can_solicit op }
{
    match op {
        Op::Write(..) | Op::Read(..) => false,
        Op::Send | Op::SendImm(_) | Op::WriteImm(..) | Op::Ud(..) | Op::UdImm(..) => true,
    }
}

/// The packet of a work at a place, with these bytes (`init_req_packet`, `rxe_req.c`).
pub(crate) fn segment(work: &SendWork, course: Course, at: u32, payload: Bytes) -> Packet
    requires least { 256 ≤ course.mtu }
    requires most { course.mtu ≤ 4096 }
    requires psn { course.psn < PSNS }
    ensures { content_of result ≡ segment work.now course at payload.bytes }
{
    let spot = spot_at(course.mtu, work, at);
    let op = work.op();
    let last = is_last_spot(spot);
    Packet {
        opcode: op_opcode(op, spot).number(),
        solicited: last && work.solicited() && can_solicit(op),
        migrated: false,
        pkey: DEFAULT_PKEY,
        dest: op_dest(op, course.dest),
        ack: last,
        psn: ((u64::from(course.psn) + u64::from(at)) % PSNS) as u32,
        reth: op_reth(
            op,
            is_first_spot(spot),
            work.length(),
            u64::from(at) * course.mtu,
        ),
        aeth: None,
        imm: op_imm(op, last),
        ieth: None,
        deth: op_deth(op, course.source),
        payload,
    }
}

/// How many bytes the packet of a work at a place has.
fn work_share(mtu: u64, work: &SendWork, at: u32) -> u32
    requires { mtu ≤ 4096 }
    ensures { result ≡ work_share mtu work.now at }
{
    match work.op() {
        Op::Send | Op::SendImm(_) | Op::Write(..) | Op::WriteImm(..) => {
            let rest = u64::from(work.length()).saturating_sub(u64::from(at) * mtu);
            rest.min(mtu) as u32
        }
        Op::Read(..) => 0,
        Op::Ud(..) | Op::UdImm(..) => work.length(),
    }
}

/// Where the bytes of the packet of a work at a place lie. It takes no memory.
pub(crate) fn pieces_at(mtu: u64, work: &SendWork, at: u32) -> PieceList
    requires most { mtu ≤ 4096 }
    requires at { at * mtu < 2 ^ 32 }
    ensures pieces { result ≡ pieces_at mtu work.now at }
    ensures full { all_have_bytes result ≡ true }
{
    let share = work_share(mtu, work, at);
    pieces(work.parts(), (u64::from(at) * mtu) as u32, share)
}
