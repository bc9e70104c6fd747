//! From bytes to a call.

ghost use Rattle.std.specs.Prelude.{◌≡◌, ◌≤◌, ◌+◌, ◌*◌, length, map, IfOk, IfErr, OnOk, Some, None, Err};
ghost use Rattle.uv_attr.specs.declared.call.TheConstants.{ATTR_BYTES, HEADER_BYTES};
ghost use Rattle.uv_attr.specs.declared.fault.CallFault.{CallFault};
ghost use Rattle.uv_attr.specs.declared.fault.CallFault.TheVariants.{NoMemory};
ghost use Rattle.uv_attr.specs.Command.{IsCommand};
ghost use Rattle.uv_attr.specs.Reading.{attr_count, raw_of, raws, attr_of, call_in};
ghost use Rattle.uv_attr.specs.Refusal.{bytes_refusal};

use crate::call::{ATTR_BYTES, Attr, Call, HEADER_BYTES};
use crate::fault::CallFault;
use crate::fields::{u16_at, u32_at, u64_at};
use crate::refusing::refusal;
use std::alloc::{AllocError, Global};
use uv_num::List;

fn attr_at(bytes: &[u8]) -> Attr
    requires { ATTR_BYTES ≤ length bytes.now }
    ensures { result ≡ attr_of (raw_of bytes.now) }
{
    let flags = u16_at(bytes, 4);
    Attr {
        id: u16_at(bytes, 0),
        len: u16_at(bytes, 2),
        mandatory: flags % 2 == 1,
        output: flags / 2 % 2 == 1,
        value: u64_at(bytes, 8),
    }
}

fn attrs_at(alloc: Global, count: usize, bytes: &[u8]) -> Result<List<Attr>, AllocError>
    requires { ATTR_BYTES * count ≤ length bytes.now }
    ensures { IfOk result (λ attrs. attrs ≡ map attr_of (raws count bytes.now)) }
{
    let mut attrs = List::new(alloc);
    let mut rest = bytes;
    for _ in 0..count {
        attrs.push(attr_at(rest))?;
        let (_, others) = rest.split_at(ATTR_BYTES);
        rest = others;
    }
    Ok(attrs)
}

fn call_at(alloc: Global, bytes: &[u8]) -> Result<Call, AllocError>
    requires { HEADER_BYTES + ATTR_BYTES * attr_count bytes.now ≤ length bytes.now }
    ensures { IfOk result (λ call. call ≡ call_in bytes.now) }
{
    let count = u16_at(bytes, 6) as usize;
    let (_, rows) = bytes.split_at(HEADER_BYTES);
    let attrs = attrs_at(alloc, count, rows)?;
    Ok(Call {
        object: u16_at(bytes, 2),
        method: u16_at(bytes, 4),
        driver: u32_at(bytes, 16),
        attrs,
    })
}

fn read_call(alloc: Global, bytes: &[u8]) -> Result<Call, CallFault>
    ensures refused { (fault : CallFault) → bytes_refusal bytes.now ≡ Some fault → result ≡ Err fault }
    ensures memory { bytes_refusal bytes.now ≡ None → IfErr result (λ fault. fault ≡ NoMemory) }
    ensures taken { IfErr result (λ fault. fault ≡ NoMemory → bytes_refusal bytes.now ≡ None) }
    ensures accepted { OnOk result (bytes_refusal bytes.now ≡ None) }
    ensures read { IfOk result (λ call. call ≡ call_in bytes.now) }
{
    if let Some(fault) = refusal(bytes) {
        return Err(fault);
    }
    call_at(alloc, bytes).map_err(|_| CallFault::NoMemory)
}

/// The call that bytes are, or the first of the five cases that refuses them, in this order: fewer bytes than
/// a header; a length that isn't the attributes' or the bytes'; a reserved field that isn't 0; more than
/// `MOST_ATTRS` attributes; an attribute with an unknown flag, with attr_data or with an id that stood before.
/// The third is EPROTONOSUPPORT and the others EINVAL. Bytes that are refused take no memory.
///
/// The header is that of `ib_uverbs_ioctl` in Linux's `uverbs_ioctl.c`; the order is this project's own.
pub fn decode_call(alloc: Global, bytes: &[u8]) -> Result<Call, CallFault>
    ensures refused { (fault : CallFault) → bytes_refusal bytes.now ≡ Some fault → result ≡ Err fault }
    ensures memory { bytes_refusal bytes.now ≡ None → IfErr result (λ fault. fault ≡ NoMemory) }
    ensures taken { IfErr result (λ fault. fault ≡ NoMemory → bytes_refusal bytes.now ≡ None) }
    ensures read { IfOk result (λ call. call ≡ call_in bytes.now) }
    ensures command { IfOk result (λ call. IsCommand bytes.now call) }
{
    read_call(alloc, bytes)
}
