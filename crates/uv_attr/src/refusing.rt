//! The five cases in which bytes are refused, in their order. None of them takes memory.

ghost use Rattle.std.specs.Prelude.{◌≡◌, ◌≢◌, ◌≤◌, ◌*◌, ◌==◌, length, IfSome};
ghost use Rattle.std.specs.List.{list_any};
ghost use Rattle.uv_attr.specs.declared.call.TheConstants.{ATTR_BYTES, HEADER_BYTES};
ghost use Rattle.uv_attr.specs.declared.fault.CallFault.TheVariants.{NoMemory};
ghost use Rattle.uv_attr.specs.Command.{repeats};
ghost use Rattle.uv_attr.specs.Reading.{raw_of, raws, raws_of};
ghost use Rattle.uv_attr.specs.Refusal.{is_misstated, has_reserved, is_malformed, raw_ids, has_wrong, bytes_refusal};

use crate::call::{ATTR_BYTES, HEADER_BYTES, KNOWN_FLAGS, MOST_ATTRS};
use crate::fault::CallFault;
use crate::fields::{u16_at, u32_at, u64_at};

fn is_misstated(bytes: &[u8]) -> bool
    requires { HEADER_BYTES ≤ length bytes.now }
    ensures { result ≡ is_misstated bytes.now }
{
    let stated = u16_at(bytes, 0) as usize;
    let count = u16_at(bytes, 6) as usize;
    stated != HEADER_BYTES + ATTR_BYTES * count || stated != bytes.len()
}

/// Whether a reserved field of the header isn't 0.
pub fn has_reserved(bytes: &[u8]) -> bool
    requires { HEADER_BYTES ≤ length bytes.now }
    ensures { result ≡ has_reserved bytes.now }
{
    u64_at(bytes, 8) != 0 || u32_at(bytes, 20) != 0
}

fn is_malformed(bytes: &[u8]) -> bool
    requires { ATTR_BYTES ≤ length bytes.now }
    ensures { result ≡ is_malformed (raw_of bytes.now) }
{
    u16_at(bytes, 4) > KNOWN_FLAGS || u16_at(bytes, 6) != 0
}

fn has_malformed(count: usize, bytes: &[u8]) -> bool
    requires { ATTR_BYTES * count ≤ length bytes.now }
    ensures { result ≡ list_any is_malformed (raws count bytes.now) }
{
    let mut rest = bytes;
    for _ in 0..count {
        if is_malformed(rest) {
            return true;
        }
        let (_, others) = rest.split_at(ATTR_BYTES);
        rest = others;
    }
    false
}

fn stands_in(id: u16, count: usize, bytes: &[u8]) -> bool
    requires { ATTR_BYTES * count ≤ length bytes.now }
    ensures { result ≡ list_any (λ other. other == id) (raw_ids (raws count bytes.now)) }
{
    let mut rest = bytes;
    for _ in 0..count {
        if u16_at(rest, 0) == id {
            return true;
        }
        let (_, others) = rest.split_at(ATTR_BYTES);
        rest = others;
    }
    false
}

/// Whether an id stands twice among so many attributes.
pub fn repeats_raw(count: usize, bytes: &[u8]) -> bool
    requires { ATTR_BYTES * count ≤ length bytes.now }
    ensures { result ≡ repeats (raw_ids (raws count bytes.now)) }
{
    let mut rest = bytes;
    for done in 0..count {
        let id = u16_at(rest, 0);
        let (_, others) = rest.split_at(ATTR_BYTES);
        if stands_in(id, count - (done + 1), others) {
            return true;
        }
        rest = others;
    }
    false
}

fn has_wrong(count: usize, bytes: &[u8]) -> bool
    requires { ATTR_BYTES * count ≤ length bytes.now }
    ensures { result ≡ has_wrong (raws count bytes.now) }
{
    has_malformed(count, bytes) || repeats_raw(count, bytes)
}

/// Why the bytes are refused, if they are.
pub fn refusal(bytes: &[u8]) -> Option<CallFault>
    ensures refused { result ≡ bytes_refusal bytes.now }
    ensures named { IfSome result (λ fault. fault ≢ NoMemory) }
{
    if bytes.len() < HEADER_BYTES {
        return Some(CallFault::Inval);
    }
    if is_misstated(bytes) {
        return Some(CallFault::Inval);
    }
    if has_reserved(bytes) {
        return Some(CallFault::ProtoNoSupport);
    }
    let count = u16_at(bytes, 6);
    if count > MOST_ATTRS {
        return Some(CallFault::Inval);
    }
    let (_, rows) = bytes.split_at(HEADER_BYTES);
    if has_wrong(count as usize, rows) {
        return Some(CallFault::Inval);
    }
    None
}
