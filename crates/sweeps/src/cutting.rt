//! Works that are cut into packets, and put together again.

use crate::play::{Case, Play, begin, bytes_found, ends, play_out};
use crate::trail::{Trail, put_part, put_word};
use crate::words::{connection, number};
use crate::works::Deed;
use std::alloc::{AllocError, Global};
use uv_num::Service;

/// The works of words.
pub fn deeds(alloc: Global, words: &str) -> Result<Vec<Deed>, AllocError> {
    let mut deeds = Vec::new(alloc);
    for word in words.split(' ') {
        if let Some(deed) = Deed::of(word) {
            deeds.push(deed)?;
        }
    }
    Ok(deeds)
}

/// The service of works: datagrams have their own.
fn service_of(deeds: &[Deed]) -> Service {
    match deeds.first() {
        Some(Deed::Ud | Deed::UdImm) => Service::Ud,
        _ => Service::Rc,
    }
}

/// The case `BYTES MTU RETRY DEED ..`, with receives for its works or without.
pub fn case_of(alloc: Global, rest: &str, receives: bool) -> Result<Case, AllocError> {
    let mut words = rest.splitn(4, ' ');
    let bytes = number(words.next());
    let mtu = number(words.next());
    let retry = number(words.next());
    let deeds = deeds(alloc, words.next().unwrap_or(""))?;
    let mut terms = connection(mtu, retry);
    terms.service = service_of(deeds.as_slice());
    Ok(Case {
        terms,
        bytes,
        deeds,
        receives,
    })
}

/// Puts the packets of both sides to a text.
fn put_trails(text: &mut String, trails: &mut (Trail, Trail)) -> Result<(), AllocError> {
    put_word(text, trails.0.end()?)?;
    put_part(text, trails.1.end()?)
}

/// Puts to a text how the works of both sides ended.
fn put_ends(alloc: Global, text: &mut String, play: &mut Play) -> Result<(), AllocError> {
    let (a, b) = ends(alloc, play)?;
    put_part(text, a.as_str())?;
    put_part(text, b.as_str())
}

/// `cut BYTES MTU RETRY DEED ..`: the packets of both sides, how the works of both ended, and what the bytes of both are.
pub fn cut(alloc: Global, rest: &str, receives: bool) -> Result<Option<String>, AllocError> {
    let case = case_of(alloc, rest, receives)?;
    let Some(mut play) = begin(alloc, &case, None)? else {
        return Ok(None);
    };
    let settled = play_out(alloc, &mut play)?;
    let mut text = String::new(alloc);
    put_trails(&mut text, &mut play.trails)?;
    put_ends(alloc, &mut text, &mut play)?;
    let found = bytes_found(alloc, &case, &mut play);
    put_part(&mut text, if settled { found.name() } else { "unsettled" })?;
    Ok(Some(text))
}
