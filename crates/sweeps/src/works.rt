//! The works of a case, and the receives for them.

ghost use Rattle.std.specs.Prelude.{◌≡◌, ◌≤◌, ◌<◌, ◌+◌};
ghost use Rattle.uv_wr.specs.Works.{IsAddressed};

use crate::making::{AREA, QKEY, Which};
use crate::pair::Side;
use std::alloc::{AllocError, Global};
use uv_num::List;
use uv_qp::Posted;
use uv_wr::{Op, RecvWork, SendWork, Sge};

/// The most works of a case: one for each area of a region but the first.
pub const MOST_WORKS: u32 = 3;

/// The immediate of those works that have one.
const IMM: u32 = 0x0102_0304;

/// What a work does.
#[derive(Clone, Copy, Debug, PartialEq)]
pub enum Deed {
    Send,
    SendImm,
    /// A send that asks for a solicited event.
    SendSol,
    Write,
    WriteImm,
    /// A write of which the last byte lies beyond the region.
    WriteBeyond,
    Read,
    Ud,
    UdImm,
}

impl Deed {
    /// The deed of a word, if it is one.
    pub fn of(word: &str) -> Option<Deed> {
        match word {
            "send" => Some(Deed::Send),
            "send_imm" => Some(Deed::SendImm),
            "send_sol" => Some(Deed::SendSol),
            "write" => Some(Deed::Write),
            "write_imm" => Some(Deed::WriteImm),
            "write_beyond" => Some(Deed::WriteBeyond),
            "read" => Some(Deed::Read),
            "ud" => Some(Deed::Ud),
            "ud_imm" => Some(Deed::UdImm),
            _ => None,
        }
    }

    /// Whether it takes a receive.
    pub fn takes_receive(self) -> bool {
        match self {
            Deed::Send | Deed::SendImm | Deed::SendSol | Deed::WriteImm | Deed::Ud | Deed::UdImm =>
                true,
            Deed::Write | Deed::WriteBeyond | Deed::Read => false,
        }
    }

    /// The side to whose region it brings bytes, if it brings some.
    pub fn fills(self) -> Option<Which> {
        match self {
            Deed::Send
            | Deed::SendImm
            | Deed::SendSol
            | Deed::Write
            | Deed::WriteImm
            | Deed::Ud
            | Deed::UdImm => Some(Which::B),
            Deed::Read => Some(Which::A),
            Deed::WriteBeyond => None,
        }
    }

    /// The operation of a work of so many bytes that fills an area.
    fn op(self, area: u32, count: u32) -> Op
        requires few { area < 4 }
        requires short { count ≤ 16384 }
        ensures { IsAddressed result }
    {
        let at = u64::from(area) * u64::from(AREA);
        match self {
            Deed::Send | Deed::SendSol => Op::Send,
            Deed::SendImm => Op::SendImm(IMM),
            Deed::Write => Op::Write(at, Which::B.key()),
            Deed::WriteImm => Op::WriteImm(at, Which::B.key(), IMM),
            Deed::WriteBeyond => Op::Write(65_537 - u64::from(count), Which::B.key()),
            Deed::Read => Op::Read(0, Which::B.key()),
            Deed::Ud => Op::Ud(1, 17, QKEY),
            Deed::UdImm => Op::UdImm(1, 17, QKEY, IMM),
        }
    }

    /// The area where the parts of its work lie.
    fn area_of_parts(self, area: u32) -> u32
        requires { area < 4 }
        ensures { result < 4 }
    {
        match self {
            Deed::Read => area,
            Deed::Send
            | Deed::SendImm
            | Deed::SendSol
            | Deed::Write
            | Deed::WriteImm
            | Deed::WriteBeyond
            | Deed::Ud
            | Deed::UdImm => 0,
        }
    }
}

/// Two parts, one after another, that begin an area of a region.
fn parts(
    alloc: Global,
    key: u32,
    area: u32,
    first: u32,
    count: u32,
) -> Result<List<Sge>, AllocError>
    requires few { area < 4 }
    requires cut { first ≤ count }
{
    let at = u64::from(area) * u64::from(AREA);
    let mut parts = List::new(alloc);
    parts.push(Sge {
        key,
        offset: at,
        length: first,
    })?;
    parts.push(Sge {
        key,
        offset: at + u64::from(first),
        length: count - first,
    })?;
    Ok(parts)
}

/// Posts a work of so many bytes for an area. Whether it waits then.
pub fn post_work(
    alloc: Global,
    side: &mut Side,
    id: u64,
    deed: Deed,
    area: u32,
    count: u32,
) -> Result<bool, AllocError> {
    if area > MOST_WORKS || count > AREA {
        return Ok(false);
    }
    let parts = parts(
        alloc,
        Which::A.key(),
        deed.area_of_parts(area),
        count / 3,
        count,
    )?;
    let solicited = deed == Deed::SendSol;
    match SendWork::new(id, deed.op(area, count), solicited, parts) {
        None => Ok(false),
        Some(work) => match side.qp.post_send(alloc, work) {
            Posted::Did => Ok(true),
            Posted::NoMemory(_) => Err(AllocError),
            Posted::Inval(_) | Posted::Full(_) => Ok(false),
        },
    }
}

/// Posts a receive of so many bytes that fills an area. Whether it waits then.
pub fn post_receive(
    alloc: Global,
    side: &mut Side,
    id: u64,
    area: u32,
    count: u32,
) -> Result<bool, AllocError> {
    if area > MOST_WORKS {
        return Ok(false);
    }
    let parts = parts(alloc, Which::B.key(), area, count / 2, count)?;
    match RecvWork::new(id, parts) {
        None => Ok(false),
        Some(work) => match side.qp.post_recv(alloc, work) {
            Posted::Did => Ok(true),
            Posted::NoMemory(_) => Err(AllocError),
            Posted::Inval(_) | Posted::Full(_) => Ok(false),
        },
    }
}
