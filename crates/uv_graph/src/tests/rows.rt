//! What the histories show.

use super::plays::Player;
use crate::{names_its_actor, own_stands_apart};
use std::alloc::{AllocError, Global};
use std::test::Fail;
use uv_machine::{Answer, Entry, FilePhase, Readers, Word, first_bad};
use uv_num::{Errno, Kind, List, NONE, Request};
use uv_pool::plain::PlainDeed;
use uv_pool::{Deed, Pool};

fn opens(client: u32, file: u32, device: u32, answer: Answer) -> Entry {
    Entry::Open {
        client,
        file,
        device,
        answer,
    }
}

fn enters(client: u32, file: u32, request: Request, answer: Answer) -> Entry {
    Entry::Enter {
        client,
        file,
        request,
        answer,
    }
}

fn steps(client: u32, word: Word, object: u32, answer: Answer) -> Entry {
    Entry::Step {
        client,
        word,
        object,
        found: None,
        answer,
    }
}

fn refused(errno: Errno) -> Answer {
    Answer::Refused(errno)
}

fn made(handle: u32, index: u32, generation: u32) -> Answer {
    Answer::Made {
        handle,
        index,
        generation,
    }
}

/// A whole call that makes a domain with this id.
fn alloc_pd(client: u32, file: u32, id: u32, told: Answer) -> [Entry; 5] {
    [
        enters(client, file, Request::AllocPd, Answer::Ok),
        steps(client, Word::Reserve, NONE, Answer::Ok),
        steps(client, Word::Make, id, Answer::Ok),
        steps(client, Word::Commit, id, Answer::Ok),
        steps(client, Word::Exit, NONE, told),
    ]
}

fn reg_mr(pd: u32) -> Request {
    Request::RegMr {
        pd,
        length: 4_096,
        access: 0,
    }
}

/// A whole call that makes an object of the domain 0.
fn made_of_domain(request: Request, id: u32, told: Answer) -> [Entry; 7] {
    [
        enters(1, 0, request, Answer::Ok),
        steps(1, Word::Reserve, NONE, Answer::Ok),
        steps(1, Word::Look, 0, Answer::Ok),
        steps(1, Word::Make, id, Answer::Ok),
        steps(1, Word::Commit, id, Answer::Ok),
        steps(1, Word::Free, 0, Answer::Ok),
        steps(1, Word::Exit, NONE, told),
    ]
}

/// A whole call that registers a region of the domain 0.
fn region_made(id: u32, told: Answer) -> [Entry; 7] {
    made_of_domain(reg_mr(0), id, told)
}

/// A whole call that binds the window 2 to the region 1.
fn window_bound() -> [Entry; 7] {
    let request = Request::BindMw {
        mw: 2,
        mr: Some(1),
        offset: 0,
        length: 8,
        access: 4,
    };
    [
        enters(1, 0, request, Answer::Ok),
        steps(1, Word::Look, 2, Answer::Ok),
        steps(1, Word::Look, 1, Answer::Ok),
        steps(1, Word::Act, 2, Answer::Ok),
        steps(1, Word::Free, 2, Answer::Ok),
        steps(1, Word::Free, 1, Answer::Ok),
        steps(1, Word::Exit, NONE, Answer::Ok),
    ]
}

/// A whole call that asks for a region of a domain that isn't there.
fn region_refused() -> [Entry; 5] {
    [
        enters(1, 0, reg_mr(7), Answer::Ok),
        steps(1, Word::Reserve, NONE, Answer::Ok),
        steps(1, Word::Look, NONE, refused(Errno::NoEnt)),
        steps(1, Word::Abort, NONE, Answer::Ok),
        steps(1, Word::Exit, NONE, refused(Errno::NoEnt)),
    ]
}

/// A whole call that destroys an object, of which so many actions are kept.
fn destroyed(client: u32, file: u32, request: Request, id: u32, kept: u64) -> [Entry; 5] {
    [
        enters(client, file, request, Answer::Ok),
        steps(client, Word::Lock, id, Answer::Ok),
        steps(client, Word::Check, id, Answer::Ok),
        steps(client, Word::Finish, id, Answer::Kept(kept)),
        steps(client, Word::Exit, NONE, Answer::Ok),
    ]
}

/// A destroy of the domain 0, which a region uses.
fn busy() -> [Entry; 4] {
    [
        enters(2, 0, Request::DeallocPd { pd: 0 }, Answer::Ok),
        steps(2, Word::Lock, 0, Answer::Ok),
        steps(2, Word::Check, 0, refused(Errno::Busy)),
        steps(2, Word::Exit, NONE, refused(Errno::Busy)),
    ]
}

/// A call that takes an event, or none.
fn asked_for_event(answer: Answer) -> [Entry; 3] {
    [
        enters(1, 0, Request::GetAsync, Answer::Ok),
        steps(1, Word::Act, NONE, answer),
        steps(1, Word::Exit, NONE, answer),
    ]
}

fn goes(object: u32, kept: u64) -> [Entry; 2] {
    [Entry::Kill { object }, Entry::Gone { object, kept }]
}

/// A region is made and destroyed beside its domain, and the rest is torn down by the end of the script.
fn destroyed_and_torn(alloc: Global) -> Result<Vec<Entry>, AllocError> {
    let mut history = Vec::new(alloc);
    history.push(opens(1, 0, 0, Answer::Ok))?;
    history.push(opens(2, 0, 0, refused(Errno::Inval)))?;
    history.push(enters(1, 3, Request::AllocPd, refused(Errno::BadF)))?;
    history.extend_from_slice(&alloc_pd(1, 0, 0, made(0, 0, 0)))?;
    history.extend_from_slice(&region_made(1, made(1, 0, 0)))?;
    history.extend_from_slice(&busy())?;
    history.extend_from_slice(&destroyed(1, 0, Request::DeregMr { mr: 1 }, 1, 3))?;
    history.extend_from_slice(&region_refused())?;
    history.extend_from_slice(&asked_for_event(refused(Errno::Again)))?;
    history.extend_from_slice(&region_made(2, made(1, 1, 0)))?;
    history.push(Entry::Tear { file: 0, by: 10 })?;
    history.extend_from_slice(&goes(2, 1))?;
    history.extend_from_slice(&goes(0, 0))?;
    history.push(Entry::Closed { file: 0 })?;
    Ok(history)
}

/// A window is bound and destroyed: its deed comes back known as it was planted.
fn bound_and_gone(alloc: Global) -> Result<Vec<Entry>, AllocError> {
    let region = Request::RegMr {
        pd: 0,
        length: 4_096,
        access: 17,
    };
    let mut history = Vec::new(alloc);
    history.push(opens(1, 0, 0, Answer::Ok))?;
    history.extend_from_slice(&alloc_pd(1, 0, 0, made(0, 0, 0)))?;
    history.extend_from_slice(&made_of_domain(region, 1, made(1, 0, 0)))?;
    history.extend_from_slice(&made_of_domain(Request::AllocMw { pd: 0 }, 2, made(2, 0, 0)))?;
    history.extend_from_slice(&window_bound())?;
    history.extend_from_slice(&destroyed(1, 0, Request::DeallocMw { mw: 2 }, 2, 0))?;
    history.push(Entry::Tear { file: 0, by: 10 })?;
    history.extend_from_slice(&goes(1, 0))?;
    history.extend_from_slice(&goes(0, 0))?;
    history.push(Entry::Closed { file: 0 })?;
    Ok(history)
}

/// A device is pulled, and the husk of its domain is destroyed.
fn pulled(alloc: Global) -> Result<Vec<Entry>, AllocError> {
    let mut history = Vec::new(alloc);
    history.push(opens(1, 0, 1, Answer::Ok))?;
    history.extend_from_slice(&alloc_pd(1, 0, 0, made(0, 0, 0)))?;
    history.push(Entry::Unplug { device: 1 })?;
    history.push(Entry::Tear { file: 0, by: 9 })?;
    history.extend_from_slice(&goes(0, 0))?;
    history.push(Entry::Dissociated { file: 0 })?;
    history.extend_from_slice(&destroyed(1, 0, Request::DeallocPd { pd: 0 }, 0, 0))?;
    history.extend_from_slice(&asked_for_event(Answer::Event))?;
    history.push(Entry::Tear { file: 0, by: 1 })?;
    history.push(Entry::Closed { file: 0 })?;
    Ok(history)
}

/// Plays a whole history, and gives what is left at its end.
fn played(
    alloc: Global,
    by: u32,
    history: &[Entry],
) -> Result<(List<Entry>, List<Pool<PlainDeed>>), Fail> {
    let mut player = Player::new(alloc)?;
    for entry in history.iter() {
        if !player.plays(by, *entry)? {
            return Err(Fail::from("an entry isn't made"));
        }
    }
    match player.ends() {
        None => Err(Fail::from("it is not over")),
        Some(parts) => Ok(parts),
    }
}

/// How many deeds of a pool are at the generation 0, and at the generation 1. None where one is out.
fn generations(alloc: Global, pool: Pool<PlainDeed>) -> Result<Option<(usize, usize)>, AllocError> {
    if !pool.has_all() {
        return Ok(None);
    }
    let deeds = pool.deeds(alloc)?;
    let old = deeds
        .as_slice()
        .iter()
        .filter(|d| d.generation == 1)
        .count();
    let new = deeds
        .as_slice()
        .iter()
        .filter(|d| d.generation == 0)
        .count();
    Ok(Some((new, old)))
}

#[test]
fn a_history_is_kept_as_it_is_played(rt: HostRuntime) -> Result<(), Fail> {
    let alloc = rt.alloc();
    let histories = [
        (10, destroyed_and_torn(alloc)?),
        (9, pulled(alloc)?),
        (10, bound_and_gone(alloc)?),
    ];
    for (by, history) in histories.iter() {
        assert_eq!(rt; first_bad(alloc, history.as_slice())?, None);
        let (kept, _) = played(alloc, *by, history.as_slice())?;
        assert_eq!(rt; kept.as_slice(), history.as_slice());
    }
    Ok(())
}

#[test]
fn all_deeds_are_home_after_a_history(rt: HostRuntime) -> Result<(), Fail> {
    let alloc = rt.alloc();
    let history = destroyed_and_torn(alloc)?;
    let (_, pools) = played(alloc, 10, history.as_slice())?;
    assert_eq!(rt; pools.len(), 8);
    for (place, pool) in pools.into_vec().into_iter().enumerate() {
        let old = match pool.kind() {
            Kind::Pd => 1,
            Kind::Mr => 2,
            _ => 0,
        };
        assert_eq!(rt; pool.kind().place(), place);
        assert_eq!(rt; generations(alloc, pool)?, Some((64 - old, old)));
    }
    Ok(())
}

#[test]
fn the_graph_is_read_beside_a_create(rt: HostRuntime) -> Result<(), Fail> {
    own_stands_apart();
    names_its_actor();
    let history = destroyed_and_torn(rt.alloc())?;
    let mut player = Player::new(rt.alloc())?;
    for entry in history.as_slice().iter().take(11) {
        assert!(rt; player.plays(10, *entry)?, "{entry:?}");
    }
    let graph = &player.graph;
    assert_eq!(rt; graph.made(), 1);
    assert_eq!(rt; graph.phase_of(0), FilePhase::Open);
    assert_eq!(rt; graph.device_of(0), 0);
    assert_eq!(rt; graph.published(0, 0), graph.object_with(0));
    assert_eq!(rt; graph.published(0, 1), None);
    assert_eq!(rt; graph.least_free(0), Some(2));
    assert_eq!(rt; graph.home_cell(Kind::Pd), Some(1));
    assert_eq!(rt; graph.call_of(1).is_some(), true);
    assert_eq!(rt; graph.calls_on(0), 1);
    assert_eq!(rt; graph.calls_on(1), 0);
    assert!(rt; graph.has_others(2, 0));
    assert!(rt; !graph.has_users(0));
    assert!(rt; !graph.is_excluded(0));
    assert!(rt; !graph.is_quiet(0));
    assert!(rt; !graph.has_event(0));
    assert!(rt; !graph.is_unplugged(0));
    assert!(rt; !graph.has_doomed(0));
    assert!(rt; graph.has_standing(0));
    assert_eq!(rt; graph.newest_free(0), graph.object_with(0));
    assert_eq!(rt; graph.spare(1), 20_000);
    assert_eq!(rt; graph.spare(9), 0);
    assert_eq!(rt; graph.torn_by(10), None);
    Ok(())
}
