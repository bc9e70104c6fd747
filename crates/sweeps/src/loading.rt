//! Many works, one after another.

use crate::cutting::case_of;
use crate::joined::{Joined, arrive, drain, join};
use crate::pair::Told;
use crate::play::Case;
use crate::words::number;
use crate::works::{Deed, post_receive, post_work};
use std::alloc::{AllocError, Global};
use uv_num::LINK_FRAMES;
use uv_wr::Status;

/// Sends all that can be sent, and delivers a frame. Whether there was one.
fn carry_one(alloc: Global, joined: &mut Joined) -> Result<bool, AllocError> {
    let Joined { a, b, link } = joined;
    let _ = drain(alloc, a, link)?;
    let _ = drain(alloc, b, link)?;
    match link.pop() {
        None => Ok(false),
        Some(frame) => match arrive(alloc, joined, &frame) {
            Told::NoMemory => Err(AllocError),
            Told::Word(_) | Told::Bad(_) | Told::Idle | Told::Lost => Ok(true),
        },
    }
}

/// Delivers frames until none is left.
fn carry(alloc: Global, joined: &mut Joined) -> Result<(), AllocError> {
    for _ in 0..LINK_FRAMES {
        if !carry_one(alloc, joined)? {
            return Ok(());
        }
    }
    Ok(())
}

/// Plays a work to its end. The bytes that it moved; None where it didn't succeed.
fn one_work(
    alloc: Global,
    joined: &mut Joined,
    id: u64,
    deed: Deed,
    count: u32,
) -> Result<Option<u32>, AllocError> {
    if deed.takes_receive() && !post_receive(alloc, &mut joined.b, id, 1, count)? {
        return Ok(None);
    }
    if !post_work(alloc, &mut joined.a, id, deed, 1, count)? {
        return Ok(None);
    }
    carry(alloc, joined)?;
    let _ = joined.b.ring.poll();
    match joined.a.ring.poll() {
        None => Ok(None),
        Some(completion) => if completion.status == Status::Success && completion.id == id {
            Ok(Some(completion.length))
        } else {
            Ok(None)
        },
    }
}

/// Plays so many works of a case's first sort. The text of how many succeeded, and how many bytes they moved.
fn all_works(
    alloc: Global,
    case: &Case,
    works: u32,
    joined: &mut Joined,
) -> Result<String, AllocError> {
    let deed = case.deeds.first().copied().unwrap_or(Deed::Write);
    let mut done: u64 = 0;
    let mut bytes: u64 = 0;
    for id in 0..works {
        if let Some(moved) = one_work(alloc, joined, u64::from(id), deed, case.bytes)? {
            done = done.saturating_add(1);
            bytes = bytes.saturating_add(u64::from(moved));
        }
    }
    format!(in alloc; "{done} works, {bytes} bytes")
}

/// `load WORKS BYTES MTU RETRY DEED`: how many works succeeded one after another, and how many bytes they moved.
pub fn load(alloc: Global, rest: &str) -> Result<Option<String>, AllocError> {
    let Some((works, rest)) = rest.split_once(' ') else {
        return Ok(None);
    };
    let case = case_of(alloc, rest, true)?;
    let Some(mut joined) = join(alloc, case.terms, case.bytes)? else {
        return Ok(None);
    };
    let works = number(Some(works));
    Ok(Some(all_works(alloc, &case, works, &mut joined)?))
}
