//! What histories on a core show.

use super::plays::{Saw, Turn, does, ends, first_odd, new_core};
use crate::{Core, Torn, Used};
use std::test::Fail;
use uv_machine::{Answer, Word, first_bad};
use uv_num::{Errno, KINDS, Kind, Request};
use uv_pool::Deed;
use uv_pool::plain::PlainDeed;

const REG_MR: Request = Request::RegMr {
    pd: 0,
    length: 4_096,
    access: 0,
};

fn call(request: Request) -> Turn {
    Turn::Call {
        client: 1,
        file: 0,
        request,
    }
}

pub(super) fn made(handle: u32, index: u32, generation: u32) -> Saw {
    Saw::Ended(Answer::Made {
        handle,
        index,
        generation,
    })
}

pub(super) fn refused(errno: Errno) -> Saw {
    Saw::Ended(Answer::Refused(errno))
}

fn used(object: u32, kind: Kind, index: u32, generation: u32) -> Saw {
    Saw::Used(Some(Used {
        object,
        kind,
        index,
        generation,
    }))
}

pub(super) fn killed(object: u32, kind: Kind, handle: u32) -> Saw {
    Saw::Killed {
        object,
        kind,
        handle,
    }
}

const OPEN: Turn = Turn::Open {
    client: 1,
    file: 0,
    device: 0,
};

const STEP: Turn = Turn::Step { client: 2 };

#[test]
fn what_is_used_is_destroyed_after_its_user(rt: HostRuntime) -> Result<(), Fail> {
    let mut core = new_core(rt.alloc())?;
    let turns = [
        (Turn::Device { file: 0 }, Saw::Device(None)),
        (OPEN, Saw::Done),
        (OPEN, Saw::Refused(Errno::Inval)),
        (Turn::Device { file: 0 }, Saw::Device(Some(0))),
        (call(Request::AllocPd), made(0, 0, 0)),
        (call(REG_MR), made(1, 0, 0)),
        (
            Turn::Use {
                object: 1,
                place: 0,
            },
            used(0, Kind::Pd, 0, 0),
        ),
        (
            Turn::Use {
                object: 1,
                place: 1,
            },
            Saw::Used(None),
        ),
        (
            Turn::Use {
                object: 0,
                place: 0,
            },
            Saw::Used(None),
        ),
        (call(Request::DeallocPd { pd: 0 }), refused(Errno::Busy)),
        (call(Request::DeregMr { mr: 1 }), Saw::Ended(Answer::Ok)),
        (
            Turn::Use {
                object: 1,
                place: 0,
            },
            Saw::Used(None),
        ),
        (call(Request::DeallocPd { pd: 0 }), Saw::Ended(Answer::Ok)),
        (call(Request::DeallocPd { pd: 0 }), refused(Errno::NoEnt)),
        (call(Request::AllocPd), made(0, 1, 0)),
        (Turn::Spare { client: 1 }, Saw::Spare(20_000)),
        (
            Turn::Refuse {
                client: 1,
                file: 0,
                request: Request::AllocPd,
            },
            Saw::Refused(Errno::NoMem),
        ),
        (
            Turn::Refuse {
                client: 1,
                file: 3,
                request: Request::AllocPd,
            },
            Saw::Refused(Errno::BadF),
        ),
        (Turn::Spare { client: 1 }, Saw::Spare(19_998)),
        (Turn::Spare { client: 2 }, Saw::Spare(20_000)),
    ];
    assert_eq!(rt; first_odd(&mut core, rt.alloc(), &turns), None);
    Ok(())
}

const BIND: Request = Request::BindMw {
    mw: 1,
    mr: Some(2),
    offset: 0,
    length: 64,
    access: 0,
};

#[test]
fn a_pulled_devices_file_is_torn_down_and_then_closed(rt: HostRuntime) -> Result<(), Fail> {
    let mut core = new_core(rt.alloc())?;
    let begins = [
        (OPEN, Saw::Done),
        (
            Turn::Open {
                client: 2,
                file: 1,
                device: 1,
            },
            Saw::Done,
        ),
        (call(Request::AllocPd), made(0, 0, 0)),
        (call(Request::AllocMw { pd: 0 }), made(1, 0, 0)),
        (
            call(Request::RegMr {
                pd: 0,
                length: 4_096,
                access: 16,
            }),
            made(2, 0, 0),
        ),
        (
            Turn::Enter {
                client: 2,
                file: 0,
                request: BIND,
            },
            Saw::Done,
        ),
        (STEP, Saw::Went(Word::Look)),
        (STEP, Saw::Went(Word::Look)),
        (STEP, Saw::Acted(Kind::Mw, 0, 0, Answer::Ok)),
        (call(Request::DeallocPd { pd: 0 }), refused(Errno::Busy)),
        (STEP, Saw::Went(Word::Free)),
        (STEP, Saw::Went(Word::Free)),
        (STEP, Saw::Ended(Answer::Ok)),
        (
            Turn::Use {
                object: 1,
                place: 1,
            },
            used(2, Kind::Mr, 0, 0),
        ),
        (
            Turn::Enter {
                client: 2,
                file: 0,
                request: Request::AllocPd,
            },
            Saw::Done,
        ),
        (STEP, Saw::Went(Word::Reserve)),
    ];
    assert_eq!(rt; first_odd(&mut core, rt.alloc(), &begins), None);
    let tears = [
        (Turn::Tear { device: 0, file: 0 }, Saw::Barred),
        (Turn::Unplug { device: 0 }, Saw::Done),
        (Turn::Unplug { device: 0 }, Saw::Refused(Errno::Io)),
        (
            Turn::Tear { device: 0, file: 1 },
            Saw::Torn(Torn::Refused(Errno::BadF)),
        ),
        (Turn::Tear { device: 0, file: 0 }, Saw::Torn(Torn::Began)),
        (Turn::Sweep { by: 9, file: 0 }, Saw::NotYet(1)),
        (Turn::Close { by: 1, file: 0 }, Saw::Torn(Torn::NotYet(9))),
        (STEP, Saw::Planted(3, Kind::Pd)),
        (STEP, Saw::Went(Word::Commit)),
        (STEP, made(3, 1, 0)),
        (Turn::Sweep { by: 9, file: 0 }, killed(3, Kind::Pd, 3)),
        (Turn::Sweep { by: 9, file: 0 }, killed(1, Kind::Mw, 1)),
        (Turn::Sweep { by: 9, file: 0 }, killed(2, Kind::Mr, 2)),
        (Turn::Sweep { by: 9, file: 0 }, killed(0, Kind::Pd, 0)),
        (Turn::Sweep { by: 9, file: 0 }, Saw::Done),
        (
            Turn::Use {
                object: 1,
                place: 0,
            },
            Saw::Used(None),
        ),
        (Turn::Device { file: 0 }, Saw::Device(Some(0))),
        (call(Request::DeallocPd { pd: 0 }), Saw::Ended(Answer::Ok)),
        (call(Request::GetAsync), Saw::Ended(Answer::Event)),
        (call(Request::GetAsync), refused(Errno::Io)),
        (Turn::Close { by: 1, file: 0 }, Saw::Torn(Torn::Began)),
        (Turn::Sweep { by: 1, file: 0 }, Saw::Done),
        (Turn::Close { by: 10, file: 1 }, Saw::Torn(Torn::Began)),
        (Turn::Sweep { by: 10, file: 1 }, Saw::Done),
    ];
    assert_eq!(rt; first_odd(&mut core, rt.alloc(), &tears), None);
    let Some((history, pools)) = ends(core) else {
        return Err(Fail::from("a file is not over"));
    };
    assert_eq!(rt; first_bad(rt.alloc(), history.as_slice())?, None);
    assert_eq!(rt; pools.len(), KINDS);
    Ok(())
}

#[test]
fn the_65th_domain_finds_no_cell(rt: HostRuntime) -> Result<(), Fail> {
    let mut core = new_core(rt.alloc())?;
    assert_eq!(rt; does(&mut core, rt.alloc(), OPEN), Saw::Done);
    for index in 0..64 {
        assert_eq!(rt;
            does(&mut core, rt.alloc(), call(Request::AllocPd)),
            made(index, index, 0)
        );
    }
    assert_eq!(rt;
        does(&mut core, rt.alloc(), call(Request::AllocPd)),
        refused(Errno::NoSpc)
    );
    Ok(())
}

fn sent<T: Send>(value: T) -> T {
    value
}

/// A core may go to another thread where its deeds may.
fn crosses<D: Deed + Send>(core: Core<D>) -> Core<D> {
    sent(core)
}

#[test]
fn a_core_goes_to_another_thread(rt: HostRuntime) -> Result<(), Fail> {
    let core: Core<PlainDeed> = crosses(new_core(rt.alloc())?);
    assert_eq!(rt; core.spare(8), 20_000);
    Ok(())
}
