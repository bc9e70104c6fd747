//! From command bytes to the request that they ask for.

ghost use Rattle.std.specs.Prelude.{◌≡◌, IfOk, Ok, Some};
ghost use Rattle.uv_attr.specs.declared.fault.CallFault.{CallFault};
ghost use Rattle.uv_attr.specs.Refusal.{bytes_refusal};
ghost use Rattle.uv_schema.specs.Commands.{command_of};

use crate::reading::request_of;
use std::alloc::{AllocError, Global};
use uv_attr::{CallFault, decode_call};
use uv_num::{Errno, Request};

#[cfg(test)]
mod tests;

/// The request that command bytes ask for, or the errno that they are refused with: first as bytes, by
/// `uv_attr::decode_call`, and then as a call, by `request_of`. Only where memory runs out there is no answer; bytes that are refused
/// as bytes take none, and are always answered.
pub fn command(alloc: Global, bytes: &[u8]) -> Result<Result<Request, Errno>, AllocError>
    ensures refused { (fault : CallFault) → bytes_refusal bytes.now ≡ Some fault → result ≡ Ok (command_of bytes.now) }
    ensures answer { IfOk result (λ answer. answer ≡ command_of bytes.now) }
{
    match decode_call(alloc, bytes) {
        Ok(call) => Ok(request_of(&call)),
        Err(CallFault::Inval) => Ok(Err(Errno::Inval)),
        Err(CallFault::ProtoNoSupport) => Ok(Err(Errno::ProtoNoSupport)),
        Err(CallFault::NoMemory) => Err(AllocError),
    }
}
