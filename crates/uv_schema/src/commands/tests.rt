//! Command bytes, changed in each way.

use crate::command;
use std::alloc::Global;
use std::process::Abort;
use std::test::Fail;
use uv_num::{Errno, Request};

/// Destroys domain 0: object 1, method 2, attribute 1 of 8 bytes, mandatory, with value 0.
const DESTROY: [u8; 40] = [
    0x28, 0, 1, 0, 2, 0, 1, 0, 0, 0, 0, 0, 0, 0, 0, 0, 0, 0, 0, 0, 0, 0, 0, 0, 1, 0, 8, 0, 1, 0, 0,
    0, 0, 0, 0, 0, 0, 0, 0, 0,
];

/// The bytes of `DESTROY` with some of them changed.
fn changed(rt: &impl Abort, alloc: Global, writes: &[(usize, u8)]) -> Result<Vec<u8>, Fail> {
    let mut bytes = Vec::from_slice(alloc, &DESTROY)?;
    for (at, byte) in writes {
        assert!(rt; *at < bytes.len());
        bytes[*at] = *byte;
    }
    Ok(bytes)
}

const DOMAIN: Result<Request, Errno> = Ok(Request::DeallocPd { pd: 0 });

const INVAL: Result<Request, Errno> = Err(Errno::Inval);

const PROTO: Result<Request, Errno> = Err(Errno::ProtoNoSupport);

#[test]
fn every_prefix_is_refused(rt: HostRuntime) -> Result<(), Fail> {
    let unknown = changed(&rt, rt.alloc(), &[(2, 9)])?;
    assert_eq!(rt; command(rt.alloc(), unknown.as_slice())?, PROTO);
    assert_eq!(rt; unknown.len(), 40);
    for len in 0..40 {
        assert_eq!(rt; command(rt.alloc(), &DESTROY[..len])?, INVAL, "{len} bytes");
        assert_eq!(rt; command(rt.alloc(), &unknown[..len])?, INVAL, "{len} bytes");
    }
    assert_eq!(rt; command(rt.alloc(), &DESTROY)?, DOMAIN);
    Ok(())
}

/// A byte's answer where all that may stand at its place is what stands in `DESTROY`.
fn only(wanted: u8, byte: u8, other: Result<Request, Errno>) -> Result<Request, Errno> {
    if byte == wanted { DOMAIN } else { other }
}

/// The answer to `DESTROY` with this byte at a place of the header.
fn in_header(at: usize, byte: u8) -> Result<Request, Errno> {
    match (at, byte) {
        // The length, of 40 bytes, and the number of attributes.
        (0, _) => only(40, byte, INVAL),
        (1, _) | (7, _) => only(0, byte, INVAL),
        (6, _) => only(1, byte, INVAL),
        // The object: method 2 of 2 and of 8 has attribute 1 too, and destroys a channel or a window.
        (2, 2) => Ok(Request::DestroyChannel { channel: 0 }),
        (2, 8) => Ok(Request::DeallocMw { mw: 0 }),
        (2, _) => only(1, byte, PROTO),
        // The method: method 1 of a domain has no attribute, and one is mandatory.
        (4, _) => only(2, byte, PROTO),
        (3, _) | (5, _) => only(0, byte, PROTO),
        // The driver.
        (16..=19, _) => DOMAIN,
        // The reserved fields.
        _ => only(0, byte, PROTO),
    }
}

/// The answer to `DESTROY` with this byte at a place of its attribute.
fn in_attribute(at: usize, byte: u8) -> Result<Request, Errno> {
    match (at, byte) {
        // The number, the length, the flags and attr_data.
        (24, _) => only(1, byte, PROTO),
        (25, _) => only(0, byte, PROTO),
        (26, _) => only(8, byte, INVAL),
        (28, 0..=3) => DOMAIN,
        (27..=31, _) => only(0, byte, INVAL),
        // The value, of which 32 bits are a handle.
        (32, _) => Ok(Request::DeallocPd {
            pd: u32::from(byte),
        }),
        (33, _) => Ok(Request::DeallocPd {
            pd: u32::from(byte) * 0x100,
        }),
        (34, _) => Ok(Request::DeallocPd {
            pd: u32::from(byte) * 0x1_0000,
        }),
        (35, _) => Ok(Request::DeallocPd {
            pd: u32::from(byte) * 0x100_0000,
        }),
        _ => only(0, byte, INVAL),
    }
}

#[test]
fn each_byte_has_its_rule(rt: HostRuntime) -> Result<(), Fail> {
    for at in 0..DESTROY.len() {
        for byte in [0, 1, 2, 8, 255].iter() {
            let wanted = if at < 24 {
                in_header(at, *byte)
            } else {
                in_attribute(at, *byte)
            };
            let bytes = changed(&rt, rt.alloc(), &[(at, *byte)])?;
            let told = command(rt.alloc(), bytes.as_slice())?;
            assert_eq!(rt; told, wanted, "{byte} at byte {at}");
        }
    }
    Ok(())
}

#[test]
fn bytes_are_refused_before_calls(rt: HostRuntime) -> Result<(), Fail> {
    // The last write of a row changes nothing where two are enough.
    let rows = [
        // A flag that isn't known, though the method or the attribute isn't known either: EINVAL.
        ([(28, 4), (4, 9), (39, 0)], INVAL),
        ([(28, 5), (24, 9), (39, 0)], INVAL),
        // attr_data, and a wrong length.
        ([(30, 1), (2, 9), (39, 0)], INVAL),
        ([(0, 41), (2, 9), (39, 0)], INVAL),
        // A reserved field that is used, though the length of the attribute or its value is wrong: EPROTONOSUPPORT.
        ([(8, 1), (26, 4), (39, 0)], PROTO),
        ([(20, 1), (36, 1), (39, 0)], PROTO),
        // The same, though the method's attribute is missing.
        ([(20, 1), (24, 9), (28, 0)], PROTO),
        ([(39, 0), (24, 9), (28, 0)], INVAL),
    ];
    for (writes, wanted) in rows.iter() {
        let bytes = changed(&rt, rt.alloc(), writes)?;
        assert_eq!(rt;
            command(rt.alloc(), bytes.as_slice())?,
            *wanted,
            "of {writes:?}"
        );
    }
    Ok(())
}

#[test]
fn too_many_attributes_come_before_the_method(rt: HostRuntime) -> Result<(), Fail> {
    for (count, wanted) in [(32, PROTO), (33, INVAL)] {
        let mut bytes = Vec::new(rt.alloc());
        let length = (24 + 16 * count as u16).to_le_bytes();
        bytes.extend_from_slice(&[length[0], length[1], 9, 0, 9, 0, count, 0])?;
        bytes.extend_from_slice(&[0; 16])?;
        for id in 0..count {
            bytes.extend_from_slice(&[id, 0, 8, 0, 0, 0, 0, 0, 0, 0, 0, 0, 0, 0, 0, 0])?;
        }
        assert_eq!(rt;
            command(rt.alloc(), bytes.as_slice())?,
            wanted,
            "of {count}"
        );
    }
    Ok(())
}
