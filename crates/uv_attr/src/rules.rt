//! Which rule refuses bytes: the tests of the refusal, told by name. None of them takes memory.

ghost use Rattle.std.specs.Prelude.{◌≡◌, ◌≤◌, ◌*◌, length};
ghost use Rattle.uv_attr.specs.declared.call.TheConstants.{ATTR_BYTES};
ghost use Rattle.uv_attr.specs.Reading.{raw_of, raws};
ghost use Rattle.uv_attr.specs.RuleNames.{raw_rule, raws_rule, wrong_rule, bytes_rule};

use crate::call::{ATTR_BYTES, HEADER_BYTES, KNOWN_FLAGS, MOST_ATTRS};
use crate::fields::u16_at;
use crate::refusing::{has_reserved, repeats_raw};
use crate::rule::BytesRule;

fn raw_rule(bytes: &[u8]) -> Option<BytesRule>
    requires { ATTR_BYTES ≤ length bytes.now }
    ensures { result ≡ raw_rule (raw_of bytes.now) }
{
    if u16_at(bytes, 4) > KNOWN_FLAGS {
        return Some(BytesRule::Flags);
    }
    if u16_at(bytes, 6) != 0 {
        return Some(BytesRule::Data);
    }
    None
}

fn raws_rule(count: usize, bytes: &[u8]) -> Option<BytesRule>
    requires { ATTR_BYTES * count ≤ length bytes.now }
    ensures { result ≡ raws_rule (raws count bytes.now) }
{
    let mut rest = bytes;
    for _ in 0..count {
        if let Some(rule) = raw_rule(rest) {
            return Some(rule);
        }
        let (_, others) = rest.split_at(ATTR_BYTES);
        rest = others;
    }
    None
}

fn wrong_rule(count: usize, bytes: &[u8]) -> Option<BytesRule>
    requires { ATTR_BYTES * count ≤ length bytes.now }
    ensures { result ≡ wrong_rule (raws count bytes.now) }
{
    if let Some(rule) = raws_rule(count, bytes) {
        return Some(rule);
    }
    if repeats_raw(count, bytes) {
        return Some(BytesRule::Twice);
    }
    None
}

/// The rule that refuses the bytes, if one does: `decode_call` refuses them with its fault. Of the attributes the first that is
/// malformed tells its rule, and one that stands twice is told where none is.
pub fn bytes_rule(bytes: &[u8]) -> Option<BytesRule>
    ensures { result ≡ bytes_rule bytes.now }
{
    if bytes.len() < HEADER_BYTES {
        return Some(BytesRule::Header);
    }
    let stated = u16_at(bytes, 0) as usize;
    let count = u16_at(bytes, 6);
    if stated != HEADER_BYTES + ATTR_BYTES * count as usize {
        return Some(BytesRule::Length);
    }
    if stated != bytes.len() {
        return Some(BytesRule::Count);
    }
    if has_reserved(bytes) {
        return Some(BytesRule::Reserved);
    }
    if count > MOST_ATTRS {
        return Some(BytesRule::Attrs);
    }
    let (_, rows) = bytes.split_at(HEADER_BYTES);
    wrong_rule(count as usize, rows)
}

#[cfg(test)]
mod tests;
