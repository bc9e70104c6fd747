//! Frames, works and turns one by one, each with what came of it.

use crate::joined::{Joined, arrive, join};
use crate::making::Terms;
use crate::pair::{Side, Told, send, tick};
use crate::trail::{ends_text, put_part, put_word};
use crate::words::number;
use crate::works::{Deed, post_receive, post_work};
use std::alloc::{AllocError, Global};
use uv_cq::Ring;
use uv_link::{Frame, Link};
use uv_num::{Bytes, LINK_FRAMES, Service};
use uv_packet::decode;

/// Two queue pairs of one device, with regions of 4,096 bytes.
const TERMS: Terms = Terms {
    service: Service::Rc,
    mtu: 1024,
    retry: 1,
    rnr: 1,
    psn: 0,
    device: 0,
    size: 4096,
};

/// The longest frame that is told whole.
const SHORT: usize = 48;

/// What is told of an action for which there was no memory, before it is made once more.
const NO_MEMORY: &str = "no memory";

/// A frame as text: its bytes, or of a long one the opcode, the number of bytes of its payload, and the PSN.
fn frame_text(alloc: Global, frame: &Frame) -> Result<String, AllocError> {
    if frame.bytes.len() <= SHORT {
        return hex::encode(alloc, frame.bytes.as_slice());
    }
    match decode(alloc, frame.bytes.as_slice()) {
        Err(_) => String::from_str(alloc, "no packet"),
        Ok(packet) => {
            let (opcode, size, psn) = (packet.opcode, packet.payload.len(), packet.psn);
            format!(in alloc; "{opcode:02x}:{size}@{psn}")
        }
    }
}

/// Puts what came of an action to a text, with the frames that it sent.
fn put_told(
    alloc: Global,
    told: Told,
    link: &mut Link,
    text: &mut String,
) -> Result<(), AllocError> {
    if let Told::Bad(_) = told {
        put_word(text, "bad")?;
    }
    put_word(text, told.name())?;
    for _ in 0..LINK_FRAMES {
        match link.pop() {
            None => break,
            Some(frame) => {
                text.push_str(">")?;
                text.push_str(frame_text(alloc, &frame)?.as_str())?;
            }
        }
    }
    Ok(())
}

/// A frame `HEX` from and to device 0, or `1>HEX` from device 1. None where it isn't written so.
fn frame_of(alloc: Global, word: &str) -> Result<Option<Frame>, AllocError> {
    let (from, digits) = match word.split_once('>') {
        None => (0, word),
        Some((from, digits)) => (number(Some(from)), digits),
    };
    match hex::decode(alloc, digits) {
        Err(_) => Ok(None),
        Ok(bytes) => Ok(Some(Frame {
            from,
            to: 0,
            bytes: Bytes::from_vec(bytes),
        })),
    }
}

fn put_posted(text: &mut String, posted: bool) -> Result<(), AllocError> {
    put_word(text, if posted { "ok" } else { "no" })
}

/// Makes a send turn, and once more where memory ran out, when nothing may have changed.
fn turn(
    alloc: Global,
    side: &mut Side,
    link: &mut Link,
    text: &mut String,
) -> Result<Told, AllocError> {
    match send(alloc, side, link) {
        Told::NoMemory => {
            put_word(text, NO_MEMORY)?;
            Ok(send(alloc, side, link))
        }
        told => Ok(told),
    }
}

/// Delivers a frame, and once more where memory ran out, when nothing may have changed.
fn take(
    alloc: Global,
    joined: &mut Joined,
    frame: &Frame,
    text: &mut String,
) -> Result<Told, AllocError> {
    match arrive(alloc, joined, frame) {
        Told::NoMemory => {
            put_word(text, NO_MEMORY)?;
            Ok(arrive(alloc, joined, frame))
        }
        told => Ok(told),
    }
}

/// Makes a tick, and once more where memory ran out, when nothing may have changed.
fn wait(alloc: Global, side: &mut Side, text: &mut String) -> Result<Told, AllocError> {
    match tick(alloc, side) {
        Told::NoMemory => {
            put_word(text, NO_MEMORY)?;
            Ok(tick(alloc, side))
        }
        told => Ok(told),
    }
}

/// Posts a receive, and once more where memory ran out.
fn receive(
    alloc: Global,
    side: &mut Side,
    id: u64,
    area: u32,
    count: u32,
    text: &mut String,
) -> Result<bool, AllocError> {
    match post_receive(alloc, side, id, area, count) {
        Err(AllocError) => {
            put_word(text, NO_MEMORY)?;
            post_receive(alloc, side, id, area, count)
        }
        Ok(posted) => Ok(posted),
    }
}

/// Posts a work, and once more where memory ran out.
fn work(
    alloc: Global,
    side: &mut Side,
    id: u64,
    deed: Deed,
    count: u32,
    text: &mut String,
) -> Result<bool, AllocError> {
    match post_work(alloc, side, id, deed, 0, count) {
        Err(AllocError) => {
            put_word(text, NO_MEMORY)?;
            post_work(alloc, side, id, deed, 0, count)
        }
        Ok(posted) => Ok(posted),
    }
}

/// The area of the receive that a word posts, if it posts one.
fn area_received(name: &str) -> Option<u32> {
    match name {
        "recv" => Some(0),
        "recv_beyond" => Some(1),
        _ => None,
    }
}

/// Posts `recv:BYTES` at side b or `DEED:BYTES` at side a. Whether a word is one of these.
fn post(
    alloc: Global,
    joined: &mut Joined,
    id: u64,
    word: &str,
    text: &mut String,
) -> Result<bool, AllocError> {
    let Some((name, count)) = word.split_once(':') else {
        return Ok(false);
    };
    let count = number(Some(count));
    let posted = match (area_received(name), Deed::of(name)) {
        (Some(area), _) => receive(alloc, &mut joined.b, id, area, count, text)?,
        (None, Some(deed)) => work(alloc, &mut joined.a, id, deed, count, text)?,
        (None, None) => return Ok(false),
    };
    put_posted(text, posted)?;
    Ok(true)
}

/// Delivers a frame. Whether a word is one.
fn inject(
    alloc: Global,
    joined: &mut Joined,
    word: &str,
    text: &mut String,
) -> Result<bool, AllocError> {
    match frame_of(alloc, word)? {
        None => Ok(false),
        Some(frame) => {
            let told = take(alloc, joined, &frame, text)?;
            put_told(alloc, told, &mut joined.link, text)?;
            Ok(true)
        }
    }
}

/// Does what a word says. Whether it is one that is known.
fn act(
    alloc: Global,
    joined: &mut Joined,
    id: u64,
    word: &str,
    text: &mut String,
) -> Result<bool, AllocError> {
    let told = match word {
        "turn_a" => turn(alloc, &mut joined.a, &mut joined.link, text)?,
        "turn_b" => turn(alloc, &mut joined.b, &mut joined.link, text)?,
        "tick_a" => wait(alloc, &mut joined.a, text)?,
        _ => {
            return Ok(post(alloc, joined, id, word, text)? || inject(alloc, joined, word, text)?);
        }
    };
    put_told(alloc, told, &mut joined.link, text)?;
    Ok(true)
}

/// Does what each word says. Whether all are known.
fn act_all(
    alloc: Global,
    joined: &mut Joined,
    words: &str,
    text: &mut String,
) -> Result<bool, AllocError> {
    let mut id: u64 = 0;
    for word in words.split(' ') {
        id = id.saturating_add(1);
        if !act(alloc, joined, id, word, text)? {
            return Ok(false);
        }
    }
    Ok(true)
}

/// Puts to a text how the works of a side ended.
fn put_ends(alloc: Global, ring: &mut Ring, text: &mut String) -> Result<(), AllocError> {
    put_part(text, ends_text(alloc, ring)?.as_str())
}

/// `judge WORD ..`: what came of each word, and how the works of both sides ended. `judge_ud` does so for datagrams.
pub fn judge(alloc: Global, service: Service, rest: &str) -> Result<Option<String>, AllocError> {
    let Some(mut joined) = join(alloc, Terms { service, ..TERMS }, 4096)? else {
        return Ok(None);
    };
    let mut text = String::new(alloc);
    if !act_all(alloc, &mut joined, rest, &mut text)? {
        return Ok(None);
    }
    put_ends(alloc, &mut joined.a.ring, &mut text)?;
    put_ends(alloc, &mut joined.b.ring, &mut text)?;
    Ok(Some(text))
}
