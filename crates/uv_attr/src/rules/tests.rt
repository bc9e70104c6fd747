use super::*;
use crate::decoding::decode_call;
use crate::rule::BYTES_RULES;
use std::process::Abort;
use std::test::Fail;
use uv_num::Errno;

/// Two optional attributes, 1 and 2, of method 2 of object 1.
const TWO: [u8; 56] = [
    0x38, 0, 1, 0, 2, 0, 2, 0, 0, 0, 0, 0, 0, 0, 0, 0, 0, 0, 0, 0, 0, 0, 0, 0, 1, 0, 8, 0, 0, 0, 0,
    0, 0, 0, 0, 0, 0, 0, 0, 0, 2, 0, 8, 0, 0, 0, 0, 0, 0, 0, 0, 0, 0, 0, 0, 0,
];

/// The rule that refuses `TWO` with some bytes changed.
fn told(rt: &impl Abort, writes: &[(usize, u8)]) -> Option<BytesRule> {
    let mut bytes = TWO;
    for (at, byte) in writes {
        assert!(rt; *at < bytes.len());
        bytes[*at] = *byte;
    }
    bytes_rule(&bytes)
}

#[test]
fn each_rule_is_told(rt: HostRuntime) -> Result<(), Fail> {
    assert_eq!(rt; told(&rt, &[]), None);
    assert_eq!(rt; bytes_rule(&TWO[..23]), Some(BytesRule::Header));
    assert_eq!(rt; bytes_rule(&TWO[..55]), Some(BytesRule::Count));
    assert_eq!(rt; told(&rt, &[(0, 0x28)]), Some(BytesRule::Length));
    assert_eq!(rt; told(&rt, &[(15, 1)]), Some(BytesRule::Reserved));
    assert_eq!(rt; told(&rt, &[(44, 4)]), Some(BytesRule::Flags));
    assert_eq!(rt; told(&rt, &[(47, 1)]), Some(BytesRule::Data));
    assert_eq!(rt; told(&rt, &[(40, 1)]), Some(BytesRule::Twice));
    // The first attribute that is malformed, and its flags first.
    assert_eq!(rt; told(&rt, &[(30, 1), (44, 4)]), Some(BytesRule::Data));
    assert_eq!(rt; told(&rt, &[(46, 1), (44, 4)]), Some(BytesRule::Flags));
    let mut many = Vec::new(rt.alloc());
    many.extend_from_slice(&[0x28, 2, 1, 0, 2, 0, 33, 0])?;
    many.resize(24 + 16 * 33, 0)?;
    assert_eq!(rt; bytes_rule(&many), Some(BytesRule::Attrs));
    assert_eq!(rt;
        decode_call(rt.alloc(), &many).err(),
        Some(BytesRule::Attrs.fault())
    );
    Ok(())
}

#[test]
fn keys_of_bytes_differ(rt: HostRuntime) -> Result<(), Fail> {
    for (place, rule) in BYTES_RULES.iter().enumerate() {
        for (other, second) in BYTES_RULES.iter().enumerate() {
            assert_eq!(rt; rule.key() == second.key(), place == other);
        }
    }
    assert_eq!(rt; BytesRule::Reserved.key(), "bytes-reserved");
    assert_eq!(rt; BytesRule::Reserved.errno(), Errno::ProtoNoSupport);
    assert_eq!(rt;
        BytesRule::Twice.source(),
        "uverbs_ioctl.c, uverbs_set_attr"
    );
    Ok(())
}
