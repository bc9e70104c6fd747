//! Actors, objects and requests in plain words.

use std::alloc::AllocError;
use uv_machine::Object;
use uv_num::{DRIVER, ENDER, Request};

/// Writes who acts: a client, the driver, or the end of the script.
pub fn put_actor(text: &mut String, actor: u32) -> Result<(), AllocError> {
    if actor == DRIVER {
        text.push_str("drv")
    } else if actor == ENDER {
        text.push_str("end")
    } else {
        write!(text, "c{actor}")
    }
}

/// Writes an object, by its kind, its number and its file.
pub fn put_object(text: &mut String, x: &Object) -> Result<(), AllocError> {
    write!(text, "{} {} of f{}", x.kind.name(), x.handle, x.file)
}

/// The word of a request, as scripts have it.
pub fn request_word(request: &Request) -> &'static str {
    match request {
        Request::AllocPd => "alloc_pd",
        Request::DeallocPd { .. } => "dealloc_pd",
        Request::CreateChannel => "create_channel",
        Request::DestroyChannel { .. } => "destroy_channel",
        Request::CreateCq { .. } => "create_cq",
        Request::DestroyCq { .. } => "destroy_cq",
        Request::CreateQp { .. } => "create_qp",
        Request::DestroyQp { .. } => "destroy_qp",
        Request::ModifyQp { .. } => "modify_qp",
        Request::QueryQp { .. } => "query_qp",
        Request::CreateSrq { .. } => "create_srq",
        Request::DestroySrq { .. } => "destroy_srq",
        Request::CreateAh { .. } => "create_ah",
        Request::DestroyAh { .. } => "destroy_ah",
        Request::RegMr { .. } => "reg_mr",
        Request::DeregMr { .. } => "dereg_mr",
        Request::AllocMw { .. } => "alloc_mw",
        Request::DeallocMw { .. } => "dealloc_mw",
        Request::BindMw { .. } => "bind_mw",
        Request::GetAsync => "get_async",
    }
}
