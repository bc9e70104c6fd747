//! What actors do to a core in turn, each where it may, and what it comes to.

ghost use Rattle.uv_graph.specs.Conditions.{IsClient};

use super::are::{
    are_over, comes_planted, has_pulled, is_client, is_closer, may_finish, may_release, may_step,
    may_sweep, touched,
};
use crate::{Core, Progress, Swept, Torn, Used};
use std::alloc::{AllocError, Global};
use uv_machine::{Answer, Entry, Readers, Word};
use uv_num::{DEVICES, DRIVER, Errno, FILES, Kind, List, Request};
use uv_pool::Pool;
use uv_pool::plain::{PlainDeed, full_pools};

/// What an actor does.
#[derive(Clone, Copy, Debug, PartialEq)]
pub enum Turn {
    Open {
        client: u32,
        file: u32,
        device: u32,
    },
    Enter {
        client: u32,
        file: u32,
        request: Request,
    },
    Refuse {
        client: u32,
        file: u32,
        request: Request,
    },
    /// The client's call makes its next step, with what its deed is handed out for.
    Step {
        client: u32,
    },
    /// The client makes a whole call.
    Call {
        client: u32,
        file: u32,
        request: Request,
    },
    Unplug {
        device: u32,
    },
    Close {
        by: u32,
        file: u32,
    },
    Tear {
        device: u32,
        file: u32,
    },
    /// The actor makes the next turn of a teardown, and releases what it kills.
    Sweep {
        by: u32,
        file: u32,
    },
    Use {
        object: u32,
        place: u32,
    },
    Device {
        file: u32,
    },
    Spare {
        client: u32,
    },
}

/// What that comes to.
#[derive(Clone, Copy, Debug, PartialEq)]
pub enum Saw {
    Done,
    Refused(Errno),
    Went(Word),
    Stopped(Word, Errno),
    Planted(u32, Kind),
    Acted(Kind, u32, u32, Answer),
    Retired(u32, Kind),
    Ended(Answer),
    Torn(Torn),
    Killed {
        object: u32,
        kind: Kind,
        handle: u32,
    },
    NotYet(u32),
    Used(Option<Used>),
    Device(Option<u32>),
    Spare(u32),
    /// The actor may not do it now.
    Barred,
}

/// What all deeds keep of their objects here.
const KEPT: u64 = 3;

pub fn new_core(alloc: Global) -> Result<Core<PlainDeed>, AllocError> {
    Core::new(alloc, full_pools(alloc)?)
}

fn told(done: Result<(), Errno>) -> Saw {
    match done {
        Ok(()) => Saw::Done,
        Err(errno) => Saw::Refused(errno),
    }
}

fn opens(core: &mut Core<PlainDeed>, alloc: Global, client: u32, file: u32, device: u32) -> Saw {
    if !is_client(client) || file as usize >= FILES || device as usize >= DEVICES {
        return Saw::Barred;
    }
    told(core.open(alloc, client, file, device))
}

fn enters(
    core: &mut Core<PlainDeed>,
    alloc: Global,
    client: u32,
    file: u32,
    request: Request,
) -> Saw {
    if !is_client(client) || file as usize >= FILES || core.graph.call_of(client).is_some() {
        return Saw::Barred;
    }
    told(core.enter(alloc, client, file, &request))
}

fn refuses(core: &mut Core<PlainDeed>, client: u32, file: u32, request: Request) -> Saw {
    if !is_client(client) || file as usize >= FILES || core.graph.call_of(client).is_some() {
        return Saw::Barred;
    }
    if core.spare(client) == 0 {
        return Saw::Barred;
    }
    Saw::Refused(core.refuse(client, file, &request))
}

/// Plants the deed that a step handed out, and gives it back.
fn plants(
    core: &mut Core<PlainDeed>,
    client: u32,
    deed: PlainDeed,
    object: u32,
    kind: Kind,
) -> Saw {
    let mut deed = deed;
    if let Some(out) = core.graph.out_of(client) {
        if deed.plant(out.identity).is_err() {
            return Saw::Barred;
        }
    }
    if !comes_planted(core, client, &deed) {
        return Saw::Barred;
    }
    core.planted(client, deed);
    Saw::Planted(object, kind)
}

/// Buries the deed that a step handed out, and gives it back.
fn retires(core: &mut Core<PlainDeed>, client: u32, deed: PlainDeed, object: u32, kind: Kind) -> Saw
    requires { IsClient client }
{
    let mut deed = deed;
    deed.bury();
    if !may_finish(core, client, &deed) {
        return Saw::Barred;
    }
    core.finish(client, deed, KEPT);
    Saw::Retired(object, kind)
}

fn acts(core: &mut Core<PlainDeed>, client: u32, kind: Kind, index: u32, generation: u32) -> Saw
    requires { IsClient client }
{
    match touched(core, client) {
        None => Saw::Barred,
        Some(found) => Saw::Acted(kind, index, generation, core.act(client, found)),
    }
}

fn steps(core: &mut Core<PlainDeed>, client: u32) -> Saw {
    if !is_client(client) || !may_step(core, client) {
        return Saw::Barred;
    }
    match core.step(client) {
        Progress::Went(word) => Saw::Went(word),
        Progress::Refused(word, errno) => Saw::Stopped(word, errno),
        Progress::Plant { deed, object, kind } => plants(core, client, deed, object, kind),
        Progress::Touch {
            kind,
            index,
            generation,
        } => acts(core, client, kind, index, generation),
        Progress::Retire { deed, object, kind } => retires(core, client, deed, object, kind),
        Progress::Ended(answer) => Saw::Ended(answer),
    }
}

fn is_last(saw: Saw) -> bool {
    matches!(saw, Saw::Ended(_) | Saw::Barred)
}

/// A whole call: what its exit answers, or its enter where that is refused.
fn calls(
    core: &mut Core<PlainDeed>,
    alloc: Global,
    client: u32,
    file: u32,
    request: Request,
) -> Saw {
    let entered = enters(core, alloc, client, file, request);
    if entered != Saw::Done {
        return entered;
    }
    for _turn in 0..16 {
        let saw = steps(core, client);
        if is_last(saw) {
            return saw;
        }
    }
    Saw::Barred
}

fn closes(core: &mut Core<PlainDeed>, by: u32, file: u32) -> Saw {
    if !is_closer(by) || file as usize >= FILES || core.graph.torn_by(by).is_some() {
        return Saw::Barred;
    }
    Saw::Torn(core.close(by, file))
}

fn unplugs(core: &mut Core<PlainDeed>, device: u32) -> Saw {
    if device as usize >= DEVICES {
        return Saw::Barred;
    }
    told(core.unplug(device))
}

fn tears(core: &mut Core<PlainDeed>, device: u32, file: u32) -> Saw {
    if device as usize >= DEVICES || file as usize >= FILES {
        return Saw::Barred;
    }
    if !has_pulled(core, device) || core.graph.torn_by(DRIVER).is_some() {
        return Saw::Barred;
    }
    Saw::Torn(core.tear(device, file))
}

/// Buries the deed that a sweep handed out, and gives it back.
fn releases(core: &mut Core<PlainDeed>, by: u32, file: u32, deed: PlainDeed) -> bool {
    let mut deed = deed;
    deed.bury();
    if !may_release(core, by, file, &deed) {
        return false;
    }
    core.gone(by, file, deed, KEPT);
    true
}

fn sweeps(core: &mut Core<PlainDeed>, by: u32, file: u32) -> Saw {
    if !may_sweep(core, by, file) {
        return Saw::Barred;
    }
    match core.sweep(by, file) {
        Swept::Done => Saw::Done,
        Swept::NotYet(calls) => Saw::NotYet(calls),
        Swept::Kill {
            deed,
            object,
            kind,
            handle,
        } => {
            if releases(core, by, file, deed) {
                Saw::Killed {
                    object,
                    kind,
                    handle,
                }
            } else {
                Saw::Barred
            }
        }
    }
}

/// An actor does this.
pub fn does(core: &mut Core<PlainDeed>, alloc: Global, turn: Turn) -> Saw {
    match turn {
        Turn::Open {
            client,
            file,
            device,
        } => opens(core, alloc, client, file, device),
        Turn::Enter {
            client,
            file,
            request,
        } => enters(core, alloc, client, file, request),
        Turn::Refuse {
            client,
            file,
            request,
        } => refuses(core, client, file, request),
        Turn::Step { client } => steps(core, client),
        Turn::Call {
            client,
            file,
            request,
        } => calls(core, alloc, client, file, request),
        Turn::Unplug { device } => unplugs(core, device),
        Turn::Close { by, file } => closes(core, by, file),
        Turn::Tear { device, file } => tears(core, device, file),
        Turn::Sweep { by, file } => sweeps(core, by, file),
        Turn::Use { object, place } => Saw::Used(core.used(object, place)),
        Turn::Device { file } => Saw::Device(core.device(file)),
        Turn::Spare { client } => Saw::Spare(core.spare(client)),
    }
}

/// The first turn that comes to something else than it says, with what it comes to.
pub fn first_odd(
    core: &mut Core<PlainDeed>,
    alloc: Global,
    turns: &[(Turn, Saw)],
) -> Option<(Turn, Saw)> {
    for turn in turns {
        let saw = does(core, alloc, turn.0);
        if saw != turn.1 {
            return Some((turn.0, saw));
        }
    }
    None
}

/// The history and the pools, where all files are over.
pub fn ends(core: Core<PlainDeed>) -> Option<(List<Entry>, List<Pool<PlainDeed>>)> {
    if are_over(&core) {
        Some(core.history())
    } else {
        None
    }
}
