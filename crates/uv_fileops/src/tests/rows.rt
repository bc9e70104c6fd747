//! Opens, enters and acts, each with what it comes to.

use super::plays::Saw;
use super::scenes::{Scene, first_other};
use std::alloc::{AllocError, Global};
use std::test::Fail;
use uv_machine::{Answer, Word};
use uv_num::{Errno, Kind, QpAttrs, QpState, Request};

const LOOKED: Scene = Scene::Sees(Saw::Went(Word::Look));

const FREED: Scene = Scene::Sees(Saw::Went(Word::Free));

fn opens(client: u32, file: u32, device: u32, refusal: Option<Errno>) -> Scene {
    Scene::Opens {
        client,
        file,
        device,
        refusal,
    }
}

fn refused(word: Word, errno: Errno) -> [Scene; 2] {
    [
        Scene::Sees(Saw::Refused(word, errno)),
        Scene::Sees(Saw::Ended(Answer::Refused(errno))),
    ]
}

/// Binds window 1 to region 2.
fn binds(offset: u64, length: u64) -> Request {
    Request::BindMw {
        mw: 1,
        mr: Some(2),
        offset,
        length,
        access: 4,
    }
}

/// A whole call that binds.
fn bound(request: Request, answer: Answer) -> [Scene; 8] {
    [
        Scene::Asks(request, None),
        LOOKED,
        LOOKED,
        Scene::Sees(Saw::Touch(Kind::Mw, 0, 0)),
        Scene::Acts(None, Some(answer)),
        FREED,
        FREED,
        Scene::Sees(Saw::Ended(answer)),
    ]
}

/// Unbinds window 1.
fn unbinds(length: u64) -> Request {
    Request::BindMw {
        mw: 1,
        mr: None,
        offset: 0,
        length,
        access: 0,
    }
}

/// A whole call that looks at one object and acts on its cell.
fn acted(request: Request, kind: Kind, found: Option<QpState>, answer: Answer) -> [Scene; 6] {
    [
        Scene::Asks(request, None),
        LOOKED,
        Scene::Sees(Saw::Touch(kind, 0, 0)),
        Scene::Acts(found, Some(answer)),
        FREED,
        Scene::Sees(Saw::Ended(answer)),
    ]
}

fn moves(to: u64) -> Request {
    Request::ModifyQp {
        qp: 2,
        to,
        attrs: QpAttrs::none(),
    }
}

fn opening(alloc: Global) -> Result<Vec<Scene>, AllocError> {
    let mut scenes = Vec::new(alloc);
    scenes.push(Scene::Asks(Request::AllocPd, Some(Errno::BadF)))?;
    scenes.push(opens(1, 0, 0, None))?;
    scenes.push(opens(1, 0, 0, Some(Errno::Inval)))?;
    scenes.push(opens(2, 15, 1, None))?;
    scenes.push(Scene::Unplugs)?;
    scenes.push(opens(1, 1, 0, Some(Errno::Io)))?;
    scenes.push(opens(1, 0, 0, Some(Errno::Inval)))?;
    scenes.push(Scene::Asks(Request::AllocPd, Some(Errno::Io)))?;
    scenes.push(Scene::Asks(Request::QueryQp { qp: 3 }, Some(Errno::Io)))?;
    scenes.push(Scene::Asks(Request::DeallocPd { pd: 0 }, None))?;
    Ok(scenes)
}

fn lacking(alloc: Global) -> Result<Vec<Scene>, AllocError> {
    let mut scenes = Vec::new(alloc);
    scenes.push(Scene::Spares(1, 20_000))?;
    scenes.push(Scene::Lacks(Request::AllocPd, Errno::BadF))?;
    scenes.push(Scene::Spares(1, 19_999))?;
    scenes.push(opens(1, 0, 0, None))?;
    scenes.push(Scene::Lacks(Request::AllocPd, Errno::NoMem))?;
    scenes.push(Scene::Spares(1, 19_998))?;
    scenes.push(Scene::Spares(2, 20_000))?;
    Ok(scenes)
}

fn looking(alloc: Global) -> Result<Vec<Scene>, AllocError> {
    let mut scenes = Vec::new(alloc);
    scenes.push(opens(1, 0, 0, None))?;
    scenes.push(Scene::Asks(Request::GetAsync, None))?;
    scenes.extend_from_slice(&refused(Word::Act, Errno::Again))?;
    scenes.push(Scene::Rests)?;
    scenes.push(Scene::Creates(Request::AllocPd))?;
    scenes.push(Scene::Asks(Request::QueryQp { qp: 7 }, None))?;
    scenes.extend_from_slice(&refused(Word::Look, Errno::NoEnt))?;
    scenes.push(Scene::Asks(Request::QueryQp { qp: 0 }, None))?;
    scenes.extend_from_slice(&refused(Word::Look, Errno::Inval))?;
    scenes.push(Scene::Asks(Request::QueryQp { qp: 0 }, None))?;
    scenes.push(Scene::Unplugs)?;
    scenes.extend_from_slice(&refused(Word::Look, Errno::Inval))?;
    Ok(scenes)
}

fn binding(alloc: Global) -> Result<Vec<Scene>, AllocError> {
    let region = Request::RegMr {
        pd: 0,
        length: 4_096,
        access: 17,
    };
    let inval = Answer::Refused(Errno::Inval);
    let mut scenes = Vec::new(alloc);
    scenes.push(opens(1, 0, 0, None))?;
    scenes.push(Scene::Creates(Request::AllocPd))?;
    scenes.push(Scene::Creates(Request::AllocMw { pd: 0 }))?;
    scenes.push(Scene::Creates(region))?;
    scenes.extend_from_slice(&bound(binds(0, 4_097), inval))?;
    scenes.extend_from_slice(&bound(binds(1, 4_096), inval))?;
    scenes.extend_from_slice(&bound(binds(0, 0), inval))?;
    scenes.extend_from_slice(&bound(binds(0, 4_096), Answer::Ok))?;
    scenes.push(Scene::IsUsed(2))?;
    Ok(scenes)
}

fn unbinding(alloc: Global) -> Result<Vec<Scene>, AllocError> {
    let inval = Answer::Refused(Errno::Inval);
    let mut scenes = Vec::new(alloc);
    scenes.push(opens(1, 0, 0, None))?;
    scenes.push(Scene::Creates(Request::AllocPd))?;
    scenes.push(Scene::Creates(Request::AllocMw { pd: 0 }))?;
    scenes.extend_from_slice(&acted(unbinds(1), Kind::Mw, None, inval))?;
    scenes.extend_from_slice(&acted(unbinds(0), Kind::Mw, None, Answer::Ok))?;
    scenes.push(Scene::Asks(unbinds(0), None))?;
    scenes.push(Scene::Unplugs)?;
    scenes.extend_from_slice(&refused(Word::Look, Errno::Io))?;
    Ok(scenes)
}

fn moving(alloc: Global) -> Result<Vec<Scene>, AllocError> {
    let queue = Request::CreateCq {
        depth: 8,
        channel: None,
    };
    let pair = Request::CreateQp {
        pd: 0,
        send_cq: 1,
        recv_cq: 1,
        srq: None,
        service: 2,
        send_depth: 4,
        recv_depth: 4,
    };
    let asked = Answer::State {
        state: QpState::Init,
        index: 0,
    };
    let inval = Answer::Refused(Errno::Inval);
    let reset = Some(QpState::Reset);
    let init = Some(QpState::Init);
    let [ask, look, touch, act, free, end] = acted(moves(6), Kind::Qp, init, Answer::Ok);
    let mut scenes = Vec::new(alloc);
    scenes.push(opens(1, 0, 0, None))?;
    scenes.push(Scene::Creates(Request::AllocPd))?;
    scenes.push(Scene::Creates(queue))?;
    scenes.push(Scene::Creates(pair))?;
    scenes.extend_from_slice(&acted(Request::QueryQp { qp: 2 }, Kind::Qp, init, asked))?;
    scenes.extend_from_slice(&acted(moves(3), Kind::Qp, reset, inval))?;
    scenes.extend_from_slice(&[ask, look, touch])?;
    scenes.push(Scene::Acts(None, None))?;
    scenes.extend_from_slice(&[act, free, end])?;
    Ok(scenes)
}

#[test]
fn opens_and_enters_are_refused_in_their_order(rt: HostRuntime) -> Result<(), Fail> {
    let scenes = opening(rt.alloc())?;
    assert_eq!(rt; first_other(rt.alloc(), scenes.as_slice())?, None);
    Ok(())
}

#[test]
fn a_call_without_memory_is_refused_in_what_is_set_aside(rt: HostRuntime) -> Result<(), Fail> {
    let scenes = lacking(rt.alloc())?;
    assert_eq!(rt; first_other(rt.alloc(), scenes.as_slice())?, None);
    Ok(())
}

#[test]
fn events_and_looks_are_refused_in_their_order(rt: HostRuntime) -> Result<(), Fail> {
    let scenes = looking(rt.alloc())?;
    assert_eq!(rt; first_other(rt.alloc(), scenes.as_slice())?, None);
    Ok(())
}

#[test]
fn a_window_is_bound_within_its_region(rt: HostRuntime) -> Result<(), Fail> {
    let scenes = binding(rt.alloc())?;
    assert_eq!(rt; first_other(rt.alloc(), scenes.as_slice())?, None);
    Ok(())
}

#[test]
fn a_window_is_unbound_where_nothing_is_given_and_the_device_is_there(
    rt: HostRuntime,
) -> Result<(), Fail> {
    let scenes = unbinding(rt.alloc())?;
    assert_eq!(rt; first_other(rt.alloc(), scenes.as_slice())?, None);
    Ok(())
}

#[test]
fn a_queue_pair_is_asked_and_moved_from_the_state_that_is_found(
    rt: HostRuntime,
) -> Result<(), Fail> {
    let scenes = moving(rt.alloc())?;
    assert_eq!(rt; first_other(rt.alloc(), scenes.as_slice())?, None);
    Ok(())
}
