//! A case played to its end, with one frame of it lost, doubled or swapped with the next.

ghost use Rattle.std.specs.Prelude.{◌≡◌, ◌≤◌};

use crate::joined::{Joined, arrive, drain, join};
use crate::making::{AREA, Terms, Which, pattern_at, peek};
use crate::pair::{Side, Told, tick};
use crate::trail::{Trail, ends_text};
use crate::works::{Deed, post_receive, post_work};
use std::alloc::{AllocError, Global};
use uv_link::Frame;
use uv_num::Bytes;
use uv_packet::decode;

/// The most rounds of a case, each of which delivers a frame or ticks.
const ROUNDS: u32 = 20_000;

/// Works of so many bytes each, one for each area, and what the queue pairs are told.
#[derive(Drop)]
pub struct Case {
    pub terms: Terms,
    pub bytes: u32,
    pub deeds: Vec<Deed>,
    /// Whether receives wait for those that take one.
    pub receives: bool,
}

/// What becomes of one frame.
#[derive(Clone, Copy, Debug, PartialEq)]
pub enum Blow {
    /// It is lost.
    Lose,
    /// It comes twice.
    Double,
    /// It comes, and once more after all frames that are sent already.
    Late,
    /// It comes after the next one.
    Swap,
}

impl Blow {
    /// The blow of a word, if it is one.
    pub fn of(word: &str) -> Option<Blow> {
        match word {
            "lose" => Some(Blow::Lose),
            "double" => Some(Blow::Double),
            "late" => Some(Blow::Late),
            "swap" => Some(Blow::Swap),
            _ => None,
        }
    }
}

/// A case in play.
#[derive(Drop)]
pub struct Play {
    pub joined: Joined,
    /// What becomes of the frame at a place, counted in the order in which frames are delivered.
    blow: Option<(Blow, u32)>,
    /// How many frames were delivered or lost.
    pub frames: u32,
    /// The packets of side a, and those of side b.
    pub trails: (Trail, Trail),
}

/// Posts the works of a case, and their receives.
fn post_all(alloc: Global, case: &Case, joined: &mut Joined) -> Result<bool, AllocError> {
    let mut area: u32 = 0;
    for deed in case.deeds.iter() {
        area = area.saturating_add(1);
        let id = u64::from(area);
        let received = !(case.receives && deed.takes_receive())
            || post_receive(alloc, &mut joined.b, id + 10, area, case.bytes)?;
        if !received || !post_work(alloc, &mut joined.a, id, *deed, area, case.bytes)? {
            return Ok(false);
        }
    }
    Ok(true)
}

/// A case with its works posted. None where it is out of range.
pub fn begin(
    alloc: Global,
    case: &Case,
    blow: Option<(Blow, u32)>,
) -> Result<Option<Play>, AllocError> {
    let Some(mut joined) = join(alloc, case.terms, case.bytes)? else {
        return Ok(None);
    };
    if !post_all(alloc, case, &mut joined)? {
        return Ok(None);
    }
    Ok(Some(Play {
        joined,
        blow,
        frames: 0,
        trails: (Trail::new(alloc), Trail::new(alloc)),
    }))
}

/// Puts the packet of a frame to the trail of its side.
fn see(alloc: Global, play: &mut Play, frame: &Frame) -> Result<(), AllocError> {
    match decode(alloc, frame.bytes.as_slice()) {
        Err(_) => Ok(()),
        Ok(packet) => if frame.from == 0 {
            play.trails.0.see(frame, &packet)
        } else {
            play.trails.1.see(frame, &packet)
        },
    }
}

/// Delivers a frame.
fn take(alloc: Global, play: &mut Play, frame: &Frame) -> Result<(), AllocError> {
    match arrive(alloc, &mut play.joined, frame) {
        Told::NoMemory => Err(AllocError),
        Told::Word(_) | Told::Bad(_) | Told::Idle | Told::Lost => Ok(()),
    }
}

/// Delivers the next frame before this one.
fn take_swapped(alloc: Global, play: &mut Play, frame: Frame) -> Result<(), AllocError> {
    match play.joined.link.pop() {
        None => take(alloc, play, &frame),
        Some(next) => {
            play.joined.link.put_front(frame);
            take(alloc, play, &next)
        }
    }
}

fn strike(alloc: Global, play: &mut Play, frame: Frame, blow: Blow) -> Result<(), AllocError> {
    match blow {
        Blow::Lose => Ok(()),
        Blow::Double => {
            take(alloc, play, &frame)?;
            take(alloc, play, &frame)
        }
        Blow::Late => {
            take(alloc, play, &frame)?;
            let _ = play.joined.link.push(frame);
            Ok(())
        }
        Blow::Swap => take_swapped(alloc, play, frame),
    }
}

/// The blow that the frame gets that is delivered now.
fn blow_now(play: &Play) -> Option<Blow> {
    match play.blow {
        Some((blow, place)) => if place == play.frames {
            Some(blow)
        } else {
            None
        },
        None => None,
    }
}

fn deliver_next(alloc: Global, play: &mut Play, frame: Frame) -> Result<(), AllocError> {
    see(alloc, play, &frame)?;
    let blow = blow_now(play);
    play.frames = play.frames.saturating_add(1);
    match blow {
        None => take(alloc, play, &frame),
        Some(blow) => strike(alloc, play, frame, blow),
    }
}

/// Where no frame is left: time passes, if a work still waits. Whether something came of it.
fn wait(alloc: Global, play: &mut Play) -> Result<bool, AllocError> {
    if play.joined.a.qp.sends().is_empty() {
        return Ok(false);
    }
    match tick(alloc, &mut play.joined.a) {
        Told::NoMemory => Err(AllocError),
        Told::Idle => Ok(false),
        Told::Word(_) | Told::Bad(_) | Told::Lost => Ok(true),
    }
}

/// Sends all that can be sent, and delivers a frame. Whether there may be more to do.
fn round(alloc: Global, play: &mut Play) -> Result<bool, AllocError> {
    let Joined { a, b, link } = &mut play.joined;
    let _ = drain(alloc, a, link)?;
    let _ = drain(alloc, b, link)?;
    match link.pop() {
        None => wait(alloc, play),
        Some(frame) => {
            deliver_next(alloc, play, frame)?;
            Ok(true)
        }
    }
}

/// Plays a case to its end. Whether it came to an end.
pub fn play_out(alloc: Global, play: &mut Play) -> Result<bool, AllocError> {
    for _ in 0..ROUNDS {
        if !round(alloc, play)? {
            return Ok(true);
        }
    }
    Ok(false)
}

/// How the works of both sides ended.
pub fn ends(alloc: Global, play: &mut Play) -> Result<(String, String), AllocError> {
    Ok((
        ends_text(alloc, &mut play.joined.a.ring)?,
        ends_text(alloc, &mut play.joined.b.ring)?,
    ))
}

/// Whether an area of a side is one that the works of a case fill.
fn is_filled(case: &Case, which: Which, area: u32) -> bool {
    if area == 0 {
        return true;
    }
    match case.deeds.get(area as usize - 1) {
        None => false,
        Some(deed) => deed.fills() == Some(which),
    }
}

/// The byte that a side has to have at a place.
fn byte_wanted(case: &Case, which: Which, place: u32, done: bool) -> u8 {
    let (area, at) = (place / AREA, place % AREA);
    if at < case.bytes && (area == 0 || done && is_filled(case, which, area)) {
        pattern_at(at)
    } else {
        0
    }
}

/// What the bytes of both regions are.
#[derive(Clone, Copy, Debug, PartialEq)]
pub enum Found {
    /// All that the works bring is there, and nothing else has changed.
    Whole,
    /// Nothing has changed.
    Untouched,
    /// Anything else.
    Odd,
}

impl Found {
    pub fn name(self) -> &'static str {
        match self {
            Found::Whole => "whole",
            Found::Untouched => "untouched",
            Found::Odd => "odd",
        }
    }
}

/// Whether bytes are those of a side: where `done`, with what the works bring.
fn are_bytes(case: &Case, which: Which, bytes: &[u8], done: bool) -> bool {
    let mut place: u32 = 0;
    for byte in bytes {
        if *byte != byte_wanted(case, which, place, done) {
            return false;
        }
        place = place.saturating_add(1);
    }
    place == case.terms.size
}

/// All bytes of a side's region, which is taken.
fn side_bytes(alloc: Global, side: &mut Side, which: Which) -> Bytes {
    match side.regions.take(which.key()) {
        None => Bytes::from_vec(Vec::new(alloc)),
        Some((region, _)) => {
            let mut region = region;
            peek(alloc, &mut region)
        }
    }
}

fn are_both(case: &Case, a: &Bytes, b: &Bytes, done: bool) -> bool {
    are_bytes(case, Which::A, a.as_slice(), done) && are_bytes(case, Which::B, b.as_slice(), done)
}

/// What the bytes of both regions are. It takes the regions.
pub fn bytes_found(alloc: Global, case: &Case, play: &mut Play) -> Found {
    let a = side_bytes(alloc, &mut play.joined.a, Which::A);
    let b = side_bytes(alloc, &mut play.joined.b, Which::B);
    if are_both(case, &a, &b, true) {
        Found::Whole
    } else if are_both(case, &a, &b, false) {
        Found::Untouched
    } else {
        Found::Odd
    }
}
