//! What the lines of a script ask of the site, each form in one row.

ghost use Rattle.std.specs.Prelude.{◌≡◌, ◌<◌, find};
ghost use Rattle.std.specs.Option.{option_copied};
ghost use Rattle.uv_script.specs.Ranges.{MayDo};
ghost use Rattle.uv_run.specs.Asking.{call_of_verb, destroy_request, handle_if, request_by, task_of};
ghost use Rattle.uv_run.specs.Ranges.{IsInDeed};
ghost use Rattle.uv_run.specs.Stand.{given, handle_of};

use crate::flight::Task;
use crate::replies::Replies;
use uv_num::{Errno, Kind, Request};
use uv_schema::check;
use uv_script::{Deed, Handle, Verb};

/// The handle that a word stands for, after these replies.
fn handle_of(replies: &Replies, handle: Handle) -> u32
    ensures { result ≡ handle_of replies.now handle }
{
    match handle {
        Handle::Number(number) => number,
        Handle::Name(line) => replies.given(line),
    }
}

fn handle_if(replies: &Replies, handle: Option<Handle>) -> Option<u32>
    ensures { result ≡ handle_if replies.now handle }
{
    match handle {
        None => None,
        Some(handle) => Some(handle_of(replies, handle)),
    }
}

/// The request that destroys an object of a kind.
fn destroy_request(kind: Kind, handle: u32) -> Request
    ensures { result ≡ destroy_request kind handle }
{
    match kind {
        Kind::Pd => Request::DeallocPd { pd: handle },
        Kind::Channel => Request::DestroyChannel { channel: handle },
        Kind::Cq => Request::DestroyCq { cq: handle },
        Kind::Qp => Request::DestroyQp { qp: handle },
        Kind::Srq => Request::DestroySrq { srq: handle },
        Kind::Ah => Request::DestroyAh { ah: handle },
        Kind::Mr => Request::DeregMr { mr: handle },
        Kind::Mw => Request::DeallocMw { mw: handle },
    }
}

/// The request of a call, after these replies.
fn request_by(replies: &Replies, verb: Verb) -> Request
    ensures { result ≡ request_by replies.now verb }
{
    match verb {
        Verb::AllocPd => Request::AllocPd,
        Verb::CreateChannel => Request::CreateChannel,
        Verb::CreateCq { depth, channel } => Request::CreateCq {
            depth,
            channel: handle_if(replies, channel),
        },
        Verb::CreateSrq { pd, depth } => Request::CreateSrq {
            pd: handle_of(replies, pd),
            depth,
        },
        Verb::CreateQp {
            pd,
            send_cq,
            recv_cq,
            srq,
            service,
            send_depth,
            recv_depth,
        } => Request::CreateQp {
            pd: handle_of(replies, pd),
            send_cq: handle_of(replies, send_cq),
            recv_cq: handle_of(replies, recv_cq),
            srq: handle_if(replies, srq),
            service,
            send_depth,
            recv_depth,
        },
        Verb::CreateAh { pd, device } => Request::CreateAh {
            pd: handle_of(replies, pd),
            device,
        },
        Verb::RegMr { pd, length, access } => Request::RegMr {
            pd: handle_of(replies, pd),
            length,
            access,
        },
        Verb::AllocMw { pd } => Request::AllocMw {
            pd: handle_of(replies, pd),
        },
        Verb::Destroy { kind, object } => destroy_request(kind, handle_of(replies, object)),
        Verb::BindMw {
            mw,
            mr,
            offset,
            length,
            access,
        } => Request::BindMw {
            mw: handle_of(replies, mw),
            mr: handle_if(replies, mr),
            offset,
            length,
            access,
        },
        Verb::GetAsync => Request::GetAsync,
    }
}

fn call_of_verb(file: u32, request: Request, checked: Result<(), Errno>) -> Result<Task, Errno>
    ensures { result ≡ call_of_verb file request checked }
{
    match checked {
        Ok(()) => Ok(Task::Calls { file, request }),
        Err(errno) => Err(errno),
    }
}

/// What a line asks of the site after these replies, or its refusal before anything begins.
pub fn task_of(replies: &Replies, deed: Deed) -> Result<Task, Errno>
    ensures { result ≡ task_of replies.now deed }
{
    match deed {
        Deed::Open { file, device } => Ok(Task::Opens { file, device }),
        Deed::Call { file, verb } => {
            let request = request_by(replies, verb);
            call_of_verb(file, request, check(&request))
        }
        Deed::Refused(errno) => Err(errno),
        Deed::Close { file } => Ok(Task::Closes { file }),
        Deed::Unplug { device } => Ok(Task::Unplugs { device }),
    }
}
