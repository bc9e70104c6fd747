//! The requests whose lines are built.

ghost use Rattle.std.specs.Prelude.{◌≡◌};
ghost use Rattle.std.specs.Option.{option_map};
ghost use Rattle.uv_script.specs.Built.{verb_for, destroy};
ghost use Rattle.uv_script.specs.declared.form.Handle.TheVariants.{Number};

use crate::{Handle, Verb};
use uv_num::{Kind, Request};

/// What a line asks for that makes this request, its handles by their numbers; none where no line of today makes it.
pub(crate) fn verb_for(request: Request) -> Option<Verb>
    ensures { result ≡ verb_for request }
{
    match request {
        Request::AllocPd => Some(Verb::AllocPd),
        Request::DeallocPd { pd } => destroy(Kind::Pd, pd),
        Request::CreateChannel => Some(Verb::CreateChannel),
        Request::DestroyChannel { channel } => destroy(Kind::Channel, channel),
        Request::CreateCq { depth, channel } => Some(Verb::CreateCq {
            depth,
            channel: numbered(channel),
        }),
        Request::DestroyCq { cq } => destroy(Kind::Cq, cq),
        Request::CreateQp {
            pd,
            send_cq,
            recv_cq,
            srq,
            service,
            send_depth,
            recv_depth,
        } => Some(Verb::CreateQp {
            pd: Handle::Number(pd),
            send_cq: Handle::Number(send_cq),
            recv_cq: Handle::Number(recv_cq),
            srq: numbered(srq),
            service,
            send_depth,
            recv_depth,
        }),
        Request::DestroyQp { qp } => destroy(Kind::Qp, qp),
        Request::ModifyQp { .. } | Request::QueryQp { .. } => None,
        Request::CreateSrq { pd, depth } => Some(Verb::CreateSrq {
            pd: Handle::Number(pd),
            depth,
        }),
        Request::DestroySrq { srq } => destroy(Kind::Srq, srq),
        Request::CreateAh { pd, device } => Some(Verb::CreateAh {
            pd: Handle::Number(pd),
            device,
        }),
        Request::DestroyAh { ah } => destroy(Kind::Ah, ah),
        Request::RegMr { pd, length, access } => Some(Verb::RegMr {
            pd: Handle::Number(pd),
            length,
            access,
        }),
        Request::DeregMr { mr } => destroy(Kind::Mr, mr),
        Request::AllocMw { pd } => Some(Verb::AllocMw {
            pd: Handle::Number(pd),
        }),
        Request::DeallocMw { mw } => destroy(Kind::Mw, mw),
        Request::BindMw {
            mw,
            mr,
            offset,
            length,
            access,
        } => Some(Verb::BindMw {
            mw: Handle::Number(mw),
            mr: numbered(mr),
            offset,
            length,
            access,
        }),
        Request::GetAsync => Some(Verb::GetAsync),
    }
}

fn destroy(kind: Kind, object: u32) -> Option<Verb>
    ensures { result ≡ destroy kind object }
{
    Some(Verb::Destroy {
        kind,
        object: Handle::Number(object),
    })
}

fn numbered(handle: Option<u32>) -> Option<Handle>
    ensures { result ≡ option_map Number handle }
{
    Some(Handle::Number(handle?))
}
