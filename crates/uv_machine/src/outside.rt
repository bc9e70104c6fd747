//! The outside rule: when the entries may come that no call makes by itself.

ghost use Rattle.std.specs.Prelude.{◌≡◌, ◌↔◌, IsTrue};
ghost use Rattle.uv_machine.specs.Outside.{MayAnswer, open_refusal, act_needs_device, needs_device, enter_refusal, may_tear, may_sweep, is_object, may_kill_in, may_kill_object, may_kill, may_go_object, may_go, may_dissociate, may_close};
ghost use Rattle.uv_machine.specs.States.{is_fresh, is_open, is_callable, is_tearing, is_removing, is_dissociated, is_closing};

use crate::entry::Answer;
use crate::file::FilePhase;
use crate::object::Object;
use crate::readers::Readers;
use uv_num::{Act, DRIVER, Errno, Request, Role};

impl FilePhase {
    /// Whether the file was never opened.
    pub fn is_fresh(self) -> bool
        ensures { result ≡ is_fresh self }
    {
        match self {
            FilePhase::Fresh => true,
            FilePhase::Open
            | FilePhase::Tearing { .. }
            | FilePhase::Dissociated
            | FilePhase::Closed => false,
        }
    }

    /// Whether the file is open.
    pub fn is_open(self) -> bool
        ensures { result ≡ is_open self }
    {
        match self {
            FilePhase::Open => true,
            FilePhase::Fresh
            | FilePhase::Tearing { .. }
            | FilePhase::Dissociated
            | FilePhase::Closed => false,
        }
    }

    /// Whether calls may enter on the file.
    pub fn is_callable(self) -> bool
        ensures { result ≡ is_callable self }
    {
        match self {
            FilePhase::Open | FilePhase::Dissociated => true,
            FilePhase::Fresh | FilePhase::Tearing { .. } | FilePhase::Closed => false,
        }
    }

    /// Whether an actor is tearing the file down.
    pub fn is_tearing(self) -> bool
        ensures { result ≡ is_tearing self }
    {
        match self {
            FilePhase::Tearing { .. } => true,
            FilePhase::Fresh | FilePhase::Open | FilePhase::Dissociated | FilePhase::Closed =>
                false,
        }
    }

    /// Whether the driver is tearing the file down.
    pub fn is_removing(self) -> bool
        ensures { result ≡ is_removing self }
    {
        match self {
            FilePhase::Tearing { by } => by == DRIVER,
            FilePhase::Fresh | FilePhase::Open | FilePhase::Dissociated | FilePhase::Closed =>
                false,
        }
    }

    /// Whether the driver is through with the file.
    pub fn is_dissociated(self) -> bool
        ensures { result ≡ is_dissociated self }
    {
        match self {
            FilePhase::Dissociated => true,
            FilePhase::Fresh | FilePhase::Open | FilePhase::Tearing { .. } | FilePhase::Closed =>
                false,
        }
    }

    /// Whether an actor other than the driver is tearing the file down.
    pub fn is_closing(self) -> bool
        ensures { result ≡ is_closing self }
    {
        match self {
            FilePhase::Tearing { by } => by != DRIVER,
            FilePhase::Fresh | FilePhase::Open | FilePhase::Dissociated | FilePhase::Closed =>
                false,
        }
    }
}

/// The errno with which an open of a file on a device is refused, if it is; want of memory aside.
pub fn open_refusal<V: Readers>(view: &V, file: u32, device: u32) -> Option<Errno>
    ensures { result ≡ open_refusal (V.state view.now) file device }
{
    if !view.phase_of(file).is_fresh() {
        return Some(Errno::Inval);
    }
    if view.is_unplugged(device) {
        Some(Errno::Io)
    } else {
        None
    }
}

/// The errno with which a request on a file is refused at its enter, if it is; want of memory aside.
pub fn enter_refusal<V: Readers>(view: &V, file: u32, request: Request) -> Option<Errno>
    ensures { result ≡ enter_refusal (V.state view.now) file request }
{
    if !view.phase_of(file).is_callable() {
        return Some(Errno::BadF);
    }
    if view.is_unplugged(view.device_of(file)) && needs_device(request.role()) {
        Some(Errno::Io)
    } else {
        None
    }
}

/// Whether an actor may begin to tear a file down.
pub fn may_tear<V: Readers>(view: &V, file: u32, by: u32) -> bool
    ensures { result ≡ may_tear (V.state view.now) file by }
{
    if by == DRIVER {
        view.phase_of(file).is_open() && view.is_unplugged(view.device_of(file))
    } else {
        view.phase_of(file).is_callable()
    }
}

fn is_swept<V: Readers>(view: &V, file: u32) -> bool
    ensures { result ≡ may_sweep (V.state view.now) file }
{
    view.phase_of(file).is_tearing() && view.is_quiet(file)
}

fn may_kill_in<V: Readers>(view: &V, id: u32, file: u32) -> bool
    ensures { result ≡ may_kill_in (V.state view.now) id file }
{
    is_swept(view, file) && !view.has_doomed(file) && is_object(view.newest_free(file), id)
}

/// Whether a teardown may take an object out of use.
pub fn may_kill<V: Readers>(view: &V, id: u32) -> bool
    ensures { result ≡ may_kill (V.state view.now) id }
{
    match view.object_with(id) {
        None => false,
        Some(x) => may_kill_in(view, id, x.file),
    }
}

/// Whether a teardown may release an object.
pub fn may_go<V: Readers>(view: &V, id: u32) -> bool
    ensures { result ≡ may_go (V.state view.now) id }
{
    match view.object_with(id) {
        None => false,
        Some(x) => x.phase.is_doomed() && is_swept(view, x.file),
    }
}

/// Whether the driver may be through with a file: all its objects are husks.
pub fn may_dissociate<V: Readers>(view: &V, file: u32) -> bool
    ensures { result ≡ may_dissociate (V.state view.now) file }
{
    view.phase_of(file).is_removing() && view.is_quiet(file) && !view.has_standing(file)
}

/// Whether a file may be closed: all its objects are husks.
pub fn may_close<V: Readers>(view: &V, file: u32) -> bool
    ensures { result ≡ may_close (V.state view.now) file }
{
    view.phase_of(file).is_closing() && view.is_quiet(file) && !view.has_standing(file)
}

pub(crate) fn needs_device(role: Role) -> bool
    ensures { result ≡ needs_device role }
{
    match role {
        Role::Creates(_) => true,
        Role::Destroys(_) => false,
        Role::Acts(act) => act_needs_device(act),
    }
}

fn act_needs_device(act: Act) -> bool
    ensures { result ≡ act_needs_device act }
{
    match act {
        Act::Modify { .. } | Act::Query | Act::Bind { .. } | Act::Unbind { .. } => true,
        Act::Async => false,
    }
}

fn is_object(x: Option<Object>, id: u32) -> bool
    ensures { result ≡ is_object id x }
{
    match x {
        None => false,
        Some(x) => x.id == id,
    }
}

/// Whether an entry may have this answer where it would be refused so, if at all.
pub fn may_answer(refusal: Option<Errno>, answer: Answer) -> bool
    ensures { IsTrue result ↔ MayAnswer refusal answer }
{
    match refusal {
        Some(errno) => answer == Answer::Refused(errno),
        None => answer == Answer::Ok || answer == Answer::Refused(Errno::NoMem),
    }
}
