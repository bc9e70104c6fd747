use super::*;
use std::alloc::Global;
use std::process::Abort;
use std::test::Fail;
use uv_num::List;

/// Destroys domain 0: object 1, method 2, attribute 1 of 8 bytes, mandatory, with value 0.
const DESTROY: [u8; 40] = [
    0x28, 0, 1, 0, 2, 0, 1, 0, 0, 0, 0, 0, 0, 0, 0, 0, 0, 0, 0, 0, 0, 0, 0, 0, 1, 0, 8, 0, 1, 0, 0,
    0, 0, 0, 0, 0, 0, 0, 0, 0,
];

/// The bytes of `DESTROY` with some of them changed.
fn changed(rt: &impl Abort, alloc: Global, writes: &[(usize, u8)]) -> Result<Vec<u8>, Fail> {
    let mut bytes = Vec::from_slice(alloc, &DESTROY)?;
    for (at, byte) in writes {
        assert!(rt; *at < bytes.len());
        bytes[*at] = *byte;
    }
    Ok(bytes)
}

fn attr(id: u16) -> Attr {
    Attr {
        id,
        len: 8,
        mandatory: true,
        output: false,
        value: 0,
    }
}

/// What bytes are refused with.
fn refused(alloc: Global, bytes: &[u8]) -> Option<CallFault> {
    decode_call(alloc, bytes).err()
}

#[test]
fn a_destroy_is_read_and_written(rt: HostRuntime) -> Result<(), Fail> {
    let call = decode_call(rt.alloc(), &DESTROY)?;
    let wanted = Call {
        object: 1,
        method: 2,
        driver: 0,
        attrs: List::from_slice(rt.alloc(), &[attr(1)])?,
    };
    assert_eq!(rt; call, wanted);
    assert!(rt; wanted.attrs.len() <= 32);
    assert!(rt; !repeats_id(wanted.attrs.as_slice()));
    assert_eq!(rt;
        encode_call(rt.alloc(), &wanted)?.as_slice(),
        DESTROY.as_slice()
    );
    Ok(())
}

#[test]
fn each_field_has_its_place(rt: HostRuntime) -> Result<(), Fail> {
    let bytes = [
        0x38, 0, 0x12, 0x34, 0x56, 0x78, 2, 0, 0, 0, 0, 0, 0, 0, 0, 0, 1, 2, 3, 4, 0, 0, 0, 0,
        0x9a, 0xbc, 0xde, 0xf0, 2, 0, 0, 0, 1, 2, 3, 4, 5, 6, 7, 8, 7, 0, 0, 0, 3, 0, 0, 0, 0, 0,
        0, 0, 0, 0, 0, 0x80,
    ];
    let first = Attr {
        id: 0xbc9a,
        len: 0xf0de,
        mandatory: false,
        output: true,
        value: 0x0807_0605_0403_0201,
    };
    let second = Attr {
        id: 7,
        len: 0,
        mandatory: true,
        output: true,
        value: 0x8000_0000_0000_0000,
    };
    let wanted = Call {
        object: 0x3412,
        method: 0x7856,
        driver: 0x0403_0201,
        attrs: List::from_slice(rt.alloc(), &[first, second])?,
    };
    assert_eq!(rt; decode_call(rt.alloc(), &bytes)?, wanted);
    assert!(rt; wanted.attrs.len() <= 32);
    assert!(rt; !repeats_id(wanted.attrs.as_slice()));
    assert_eq!(rt;
        encode_call(rt.alloc(), &wanted)?.as_slice(),
        bytes.as_slice()
    );
    Ok(())
}

#[test]
fn each_case_refuses_alone(rt: HostRuntime) -> Result<(), Fail> {
    // The length, the number of attributes, both reserved fields, the flags and attr_data of the attribute.
    let rows = [
        (0, 0x27, CallFault::Inval),
        (0, 0x29, CallFault::Inval),
        (1, 1, CallFault::Inval),
        (6, 0, CallFault::Inval),
        (6, 2, CallFault::Inval),
        (7, 0x10, CallFault::Inval),
        (8, 1, CallFault::ProtoNoSupport),
        (15, 0x80, CallFault::ProtoNoSupport),
        (20, 1, CallFault::ProtoNoSupport),
        (23, 0x80, CallFault::ProtoNoSupport),
        (28, 4, CallFault::Inval),
        (29, 1, CallFault::Inval),
        (30, 1, CallFault::Inval),
        (31, 1, CallFault::Inval),
    ];
    for (at, byte, fault) in rows.iter() {
        let bytes = changed(&rt, rt.alloc(), &[(*at, *byte)])?;
        assert_eq!(rt; refused(rt.alloc(), &bytes), Some(*fault), "byte {at}");
    }
    Ok(())
}

#[test]
fn other_bytes_refuse_nothing(rt: HostRuntime) -> Result<(), Fail> {
    // Object, method, driver, the attribute's id, len, known flags and value.
    for at in [2, 3, 4, 5, 16, 17, 18, 19, 24, 25, 26, 27, 32, 39].iter() {
        let bytes = changed(&rt, rt.alloc(), &[(*at, 0xff)])?;
        assert_eq!(rt; refused(rt.alloc(), &bytes), None, "byte {at}");
    }
    for flags in 0..4u8 {
        let bytes = changed(&rt, rt.alloc(), &[(28, flags)])?;
        assert_eq!(rt; refused(rt.alloc(), &bytes), None, "flags {flags}");
    }
    Ok(())
}

#[test]
fn the_first_case_that_applies_answers(rt: HostRuntime) -> Result<(), Fail> {
    // Too short, though a reserved field is used: EINVAL.
    let mut bytes = changed(&rt, rt.alloc(), &[(8, 1)])?;
    bytes.truncate(23);
    assert_eq!(rt; refused(rt.alloc(), &bytes), Some(CallFault::Inval));
    // A wrong length, though a reserved field is used: EINVAL.
    let bytes = changed(&rt, rt.alloc(), &[(0, 0x29), (8, 1)])?;
    assert_eq!(rt; refused(rt.alloc(), &bytes), Some(CallFault::Inval));
    // A reserved field, though a flag is unknown: EPROTONOSUPPORT.
    let bytes = changed(&rt, rt.alloc(), &[(20, 1), (28, 4)])?;
    assert_eq!(rt;
        refused(rt.alloc(), &bytes),
        Some(CallFault::ProtoNoSupport)
    );
    Ok(())
}

#[test]
fn every_prefix_is_refused(rt: HostRuntime) {
    for len in 0..40 {
        assert_eq!(rt;
            refused(rt.alloc(), &DESTROY[..len]),
            Some(CallFault::Inval),
            "{len} bytes"
        );
    }
}

/// The bytes of a command with so many attributes, whose ids count up from 1.
fn many(alloc: Global, count: u8) -> Result<Vec<u8>, Fail> {
    let mut bytes = Vec::new(alloc);
    let length = (24 + 16 * count as u16).to_le_bytes();
    bytes.extend_from_slice(&[length[0], length[1], 1, 0, 1, 0, count, 0])?;
    bytes.extend_from_slice(&[0; 16])?;
    for id in 0..count {
        bytes.extend_from_slice(&[id, 0, 8, 0, 0, 0, 0, 0, 0, 0, 0, 0, 0, 0, 0, 0])?;
    }
    Ok(bytes)
}

#[test]
fn a_command_has_at_most_32_attributes(rt: HostRuntime) -> Result<(), Fail> {
    let most = many(rt.alloc(), 32)?;
    assert_eq!(rt; decode_call(rt.alloc(), &most)?.attrs.len(), 32);
    let mut over = many(rt.alloc(), 33)?;
    assert_eq!(rt; refused(rt.alloc(), &over), Some(CallFault::Inval));
    // A reserved field comes before the number of attributes.
    assert!(rt; over.len() > 8);
    over[8] = 1;
    assert_eq!(rt; refused(rt.alloc(), &over), Some(CallFault::ProtoNoSupport));
    Ok(())
}

#[test]
fn an_id_stands_once(rt: HostRuntime) -> Result<(), Fail> {
    let mut bytes = many(rt.alloc(), 3)?;
    assert_eq!(rt; refused(rt.alloc(), &bytes), None);
    assert!(rt; bytes.len() > 56);
    bytes[56] = 0;
    assert_eq!(rt; refused(rt.alloc(), &bytes), Some(CallFault::Inval));
    assert!(rt; repeats_id(&[attr(1), attr(2), attr(1)]));
    Ok(())
}

#[test]
fn a_fault_names_its_errno(rt: HostRuntime) -> Result<(), Fail> {
    let text = format!(in rt.alloc(); "{}", CallFault::ProtoNoSupport)?;
    assert!(rt; text.as_str().contains("EPROTONOSUPPORT"));
    Ok(())
}
