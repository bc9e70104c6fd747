//! The check of a request.

ghost use Rattle.std.specs.Prelude.{◌≡◌};
ghost use Rattle.uv_num.specs.Ranges.{is_in_range};
ghost use Rattle.uv_schema.specs.Check.{checked};

use crate::attributes::attrs_in_range;
use crate::numbers::{is_device, is_queue_depth, is_service, is_state, is_within};
use crate::rights::{is_region_access, is_window_access};
use uv_num::{CQ_DEPTH, Errno, REGION_BYTES, Request};

/// Whether each number of a request is in its range. Handles have 32 bits, and each is.
fn is_in_range(request: &Request) -> bool
    ensures { result ≡ is_in_range request.now }
{
    match *request {
        Request::CreateCq { depth, .. } => is_within(1, CQ_DEPTH as u64, depth),
        Request::CreateQp {
            service,
            send_depth,
            recv_depth,
            ..
        } => is_service(service) && is_queue_depth(send_depth) && is_queue_depth(recv_depth),
        Request::ModifyQp { to, attrs, .. } => is_state(to) && attrs_in_range(&attrs),
        Request::CreateSrq { depth, .. } => is_queue_depth(depth),
        Request::CreateAh { device, .. } => is_device(device),
        Request::RegMr { length, access, .. } => {
            is_within(1, REGION_BYTES as u64, length) && is_region_access(access)
        }
        Request::BindMw { access, .. } => is_window_access(access),
        Request::AllocPd
        | Request::DeallocPd { .. }
        | Request::CreateChannel
        | Request::DestroyChannel { .. }
        | Request::DestroyCq { .. }
        | Request::DestroyQp { .. }
        | Request::QueryQp { .. }
        | Request::DestroySrq { .. }
        | Request::DestroyAh { .. }
        | Request::DeregMr { .. }
        | Request::AllocMw { .. }
        | Request::DeallocMw { .. }
        | Request::GetAsync => true,
    }
}

/// Whether a request may enter the machine: `Inval` where a number of it is out of its range. It takes no memory, and
/// looks at no object.
///
/// The ranges stand in `docs/FORMATS.md`. Which of them are Linux's is said there too.
pub fn check(request: &Request) -> Result<(), Errno>
    ensures { result ≡ checked request.now }
{
    if is_in_range(request) {
        Ok(())
    } else {
        Err(Errno::Inval)
    }
}
