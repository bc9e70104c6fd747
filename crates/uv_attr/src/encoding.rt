//! From a call to its bytes.

ghost use Rattle.std.specs.Prelude.{◌≡◌, ◌≤◌, ◌++◌, ◌==◌, false, length, IfOk, OnOk};
ghost use Rattle.std.specs.List.{list_any};
ghost use Rattle.uv_attr.specs.declared.call.TheConstants.{MOST_ATTRS};
ghost use Rattle.uv_attr.specs.Command.{attr_flags, attr_bytes, header_bytes, call_bytes, repeats, attr_ids};

use crate::call::{ATTR_BYTES, Attr, Call, HEADER_BYTES};
use crate::fields::{put_u16, put_u32, put_u64};
use std::alloc::{AllocError, Global};
use uv_num::Bytes;

fn flags_of(attr: &Attr) -> u16
    ensures { result ≡ attr_flags attr.now }
{
    let mandatory = if attr.mandatory { 1 } else { 0 };
    let output = if attr.output { 2 } else { 0 };
    mandatory + output
}

fn put_attr(out: &mut Bytes, attr: &Attr) -> Result<(), AllocError>
    ensures { OnOk result (out.new.bytes ≡ out.old.bytes ++ attr_bytes attr.now) }
{
    put_u16(out, attr.id)?;
    put_u16(out, attr.len)?;
    put_u16(out, flags_of(attr))?;
    put_u16(out, 0)?;
    put_u64(out, attr.value)?;
    Ok(())
}

fn put_header(out: &mut Bytes, call: &Call) -> Result<(), AllocError>
    requires { length call.now.attrs ≤ MOST_ATTRS }
    ensures { OnOk result (out.new.bytes ≡ out.old.bytes ++ header_bytes call.now) }
{
    let count = call.attrs.len();
    put_u16(out, (HEADER_BYTES + ATTR_BYTES * count) as u16)?;
    put_u16(out, call.object)?;
    put_u16(out, call.method)?;
    put_u16(out, count as u16)?;
    put_u64(out, 0)?;
    put_u32(out, call.driver)?;
    put_u32(out, 0)?;
    Ok(())
}

/// The bytes of a call of at most `MOST_ATTRS` attributes, each with an id of its own.
pub fn encode_call(alloc: Global, call: &Call) -> Result<Bytes, AllocError>
    requires few { length call.now.attrs ≤ MOST_ATTRS }
    requires distinct { repeats (attr_ids call.now.attrs) ≡ false }
    ensures { IfOk result (λ out. out.bytes ≡ call_bytes call.now) }
{
    let mut out = Bytes::with_room(alloc, HEADER_BYTES + ATTR_BYTES * call.attrs.len())?;
    put_header(&mut out, call)?;
    for attr in call.attrs.as_slice() {
        put_attr(&mut out, attr)?;
    }
    Ok(out)
}

fn has_id(attrs: &[Attr], id: u16) -> bool
    ensures { result ≡ list_any (λ other. other == id) (attr_ids attrs.now) }
{
    attrs.iter().map(|attr| attr.id).any(|other| other == id)
}

/// Whether two attributes have one id. A call of which this is true has no bytes.
pub fn repeats_id(attrs: &[Attr]) -> bool
    ensures { result ≡ repeats (attr_ids attrs.now) }
{
    let mut rest = attrs;
    while let [first, others @ ..] = rest {
        if has_id(others, first.id) {
            return true;
        }
        rest = others;
    }
    false
}
