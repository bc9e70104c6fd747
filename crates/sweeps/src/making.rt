//! How the two queue pairs of a case are made, and what their regions hold.

ghost use Rattle.std.specs.Prelude.{◌≡◌, ◌≤◌, ◌<◌, IfSome, true};
ghost use Rattle.uv_num.specs.declared.limits.TheConstants.{CELLS, REGION_BYTES};
ghost use Rattle.uv_num.specs.Ranges.{is_service};

use crate::pair::Side;
use std::alloc::{AllocError, Global};
use uv_cq::Ring;
use uv_num::{Bytes, CQ_DEPTH, Errno, NONE, QpAttrs, QpState, Request, Service};
use uv_qp::Qp;
use uv_region::{Access, Acted, Action, Region, Regions, Rights};
use uv_schema::check;

/// The protection domain of all that is here.
pub const DOMAIN: u32 = 3;

/// A region has four areas of so many bytes, as many as the longest work has. The first one holds what is sent, written or
/// read, and each of the others what one work brings.
pub const AREA: u32 = 16_384;

/// The Q_Key of datagrams.
pub const QKEY: u32 = 0x11;

/// What the two queue pairs of a case are told.
#[derive(Clone, Copy, Debug, PartialEq)]
pub struct Terms {
    pub service: Service,
    /// The path MTU in bytes.
    pub mtu: u64,
    /// The resends for want of an answer, and for want of a receive.
    pub retry: u64,
    pub rnr: u64,
    /// The first PSN of each.
    pub psn: u64,
    /// The device of side b; side a is on device 0.
    pub device: u32,
    /// The bytes of each region.
    pub size: u32,
}

/// Which of the two queue pairs: a sends, b receives.
#[derive(Clone, Copy, Debug, PartialEq)]
pub enum Which {
    A,
    B,
}

impl Which {
    /// The key of its region.
    pub fn key(self) -> u32 {
        match self {
            Which::A => 0x100,
            Which::B => 0x200,
        }
    }

    /// The index of the queue pair's cell: their numbers are 16 and 17.
    fn index(self) -> u32
        ensures { result < CELLS }
    {
        match self {
            Which::A => 0,
            Which::B => 1,
        }
    }

    fn object(self) -> u32 {
        match self {
            Which::A => 8,
            Which::B => 9,
        }
    }

    /// The id of its region.
    fn region_object(self) -> u32 {
        match self {
            Which::A => 18,
            Which::B => 19,
        }
    }

    fn other(self) -> Which {
        match self {
            Which::A => Which::B,
            Which::B => Which::A,
        }
    }

    fn device(self, terms: Terms) -> u32 {
        match self {
            Which::A => 0,
            Which::B => terms.device,
        }
    }

    fn number(self) -> u64 {
        match self {
            Which::A => 16,
            Which::B => 17,
        }
    }
}

/// What a queue pair is told at a move.
pub fn told(terms: Terms, which: Which, to: QpState) -> QpAttrs {
    let none = QpAttrs::none();
    match (terms.service, to) {
        (Service::Rc, QpState::Init) => QpAttrs {
            pkey: Some(0),
            port: Some(1),
            access: Some(7),
            ..none
        },
        (Service::Ud, QpState::Init) => QpAttrs {
            pkey: Some(0),
            port: Some(1),
            qkey: Some(u64::from(QKEY)),
            ..none
        },
        (Service::Rc, QpState::Rtr) => QpAttrs {
            dev: Some(u64::from(which.other().device(terms))),
            mtu: Some(terms.mtu),
            dqpn: Some(which.other().number()),
            rqpsn: Some(terms.psn),
            mdra: Some(1),
            rnrtimer: Some(12),
            ..none
        },
        (Service::Rc, QpState::Rts) => QpAttrs {
            sqpsn: Some(terms.psn),
            timeout: Some(14),
            retry: Some(terms.retry),
            rnr: Some(terms.rnr),
            mra: Some(1),
            ..none
        },
        (Service::Ud, QpState::Rts) => QpAttrs {
            sqpsn: Some(terms.psn),
            ..none
        },
        (Service::Ud, QpState::Rtr) | (_, QpState::Reset | QpState::Err) => none,
    }
}

/// Moves a queue pair, by attributes that are tested first, as a command's are.
pub fn go(qp: &mut Qp, to: QpState, attrs: QpAttrs) -> Result<(), Errno> {
    let request = Request::ModifyQp {
        qp: 0,
        to: u64::from(to.number()),
        attrs,
    };
    check(&request)?;
    qp.modify(to, &attrs)
}

/// A queue pair in RESET.
pub fn unused(
    alloc: Global,
    service: Service,
    which: Which,
    device: u32,
) -> Result<Qp, AllocError> {
    let request = Request::CreateQp {
        pd: 0,
        send_cq: 1,
        recv_cq: 1,
        srq: None,
        service: u64::from(service.number()),
        send_depth: 8,
        recv_depth: 8,
    };
    Qp::new(
        alloc,
        which.object(),
        DOMAIN,
        which.index(),
        device,
        &request,
    )
}

/// A queue pair in RTS.
fn ready(alloc: Global, terms: Terms, which: Which) -> Result<Option<Qp>, AllocError> {
    let mut qp = unused(alloc, terms.service, which, which.device(terms))?;
    for to in [QpState::Init, QpState::Rtr, QpState::Rts] {
        if go(&mut qp, to, told(terms, which, to)).is_err() {
            return Ok(None);
        }
    }
    Ok(Some(qp))
}

/// The byte of the pattern at a place of an area; never 0.
pub fn pattern_at(place: u32) -> u8 {
    (place % 251) as u8 + 1
}

/// So many bytes of the pattern.
fn pattern(alloc: Global, count: u32) -> Result<Bytes, AllocError> {
    let mut bytes = Bytes::with_room(alloc, count as usize)?;
    for place in 0..count {
        bytes.push(pattern_at(place))?;
    }
    Ok(bytes)
}

/// Writes bytes to the beginning of a region, as its owner does.
fn poke(alloc: Global, region: &mut Region, bytes: Bytes) -> Acted {
    let Ok(length) = u32::try_from(bytes.len()) else {
        return Acted::NoMemory;
    };
    if length == 0 {
        return Acted::Done(bytes);
    }
    let action = Action {
        kind: Access::LocalWrite,
        offset: 0,
        length,
        bytes,
        qp: NONE,
        domain: DOMAIN,
        window: None,
    };
    region.act(alloc, &action)
}

/// All bytes of a region; none where it has none, or memory ran out.
pub fn peek(alloc: Global, region: &mut Region) -> Bytes {
    let length = region.length();
    let nothing = Bytes::from_vec(Vec::new(alloc));
    if length == 0 {
        return nothing;
    }
    let action = Action {
        kind: Access::LocalRead,
        offset: 0,
        length,
        bytes: nothing,
        qp: NONE,
        domain: DOMAIN,
        window: None,
    };
    match region.act(alloc, &action) {
        Acted::Done(bytes) => bytes,
        Acted::Denied(_) | Acted::NoMemory => Bytes::from_vec(Vec::new(alloc)),
    }
}

/// A region whose first bytes, so many, are the pattern.
fn region(
    alloc: Global,
    which: Which,
    size: u32,
    filled: u32,
) -> Result<Option<Region>, AllocError> {
    if size > 65_536 {
        return Ok(None);
    }
    let mut region = Region::new(alloc, which.region_object(), DOMAIN, size, Rights(7))?;
    match poke(alloc, &mut region, pattern(alloc, filled)?) {
        Acted::Done(_) => Ok(Some(region)),
        Acted::Denied(_) => Ok(None),
        Acted::NoMemory => Err(AllocError),
    }
}

/// A region alone under its key.
#[tactic(auto, using(crate::proofs::Maps::first_put))]
fn alone(key: u32, region: Region) -> Regions {
    let mut regions = Regions::new();
    regions.put(key, region, None);
    regions
}

/// A side in RTS, whose region begins with so many bytes of the pattern. None where what it is told is out of range.
pub fn side(
    alloc: Global,
    terms: Terms,
    which: Which,
    filled: u32,
) -> Result<Option<Side>, AllocError> {
    let Some(qp) = ready(alloc, terms, which)? else {
        return Ok(None);
    };
    let Some(region) = region(alloc, which, terms.size, filled)? else {
        return Ok(None);
    };
    Ok(Some(Side {
        qp,
        regions: alone(which.key(), region),
        ring: Ring::new(alloc, CQ_DEPTH as u32)?,
    }))
}
