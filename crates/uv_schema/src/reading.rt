//! From a call to the request that it asks for.

ghost use Rattle.std.specs.Prelude.{◌≡◌};
ghost use Rattle.uv_schema.specs.Reading.{request_of, unless};
ghost use Rattle.uv_schema.specs.Refusals.{method_refusal};
ghost use Rattle.uv_schema.specs.Values.{request_in};

use crate::building::request_in;
use crate::checking::check;
use crate::method::Method;
use crate::refusing::{first_refusal, has_missing, has_wide};
use uv_attr::{Attr, Call};
use uv_num::{Errno, Request};

#[cfg(test)]
mod tests;

/// The request that a call asks for, or the first of four steps that refuses it, in this order: no method has the
/// object's and the method's number (EPROTONOSUPPORT); attribute by attribute from the first, one that the method
/// doesn't have and that is mandatory (EPROTONOSUPPORT), or one that it has and that isn't 8 bytes long (EINVAL); an
/// attribute that has to be given is missing (EINVAL); a value is out of its range (EINVAL). An attribute that the
/// method doesn't have and that isn't mandatory is passed over. No memory is taken.
///
/// The first three steps are those of Linux's `uverbs_ioctl.c` (`ib_uverbs_cmd_verbs`, `uverbs_set_attr` and
/// `ib_uverbs_run_method`), but for the length of a handle, which is 0 there. The numbers of methods and attributes are
/// this project's own.
pub fn request_of(call: &Call) -> Result<Request, Errno>
    ensures { result ≡ request_of call.now }
{
    match Method::numbered(call.object, call.method) {
        None => Err(Errno::ProtoNoSupport),
        Some(method) => read(method, call.attrs.as_slice()),
    }
}

fn read(method: Method, attrs: &[Attr]) -> Result<Request, Errno>
    ensures { result ≡ unless (method_refusal method attrs.now) (request_in method attrs.now) }
{
    if let Some(errno) = first_refusal(method.wanted(), attrs) {
        return Err(errno);
    }
    if has_missing(method, attrs) {
        return Err(Errno::Inval);
    }
    if has_wide(method, attrs) {
        return Err(Errno::Inval);
    }
    let request = request_in(method, attrs);
    check(&request)?;
    Ok(request)
}
