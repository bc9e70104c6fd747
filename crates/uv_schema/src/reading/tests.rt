//! Every row of the method table, and the order in which calls are refused.

use crate::{command, request_of};
use std::alloc::{AllocError, Global};
use std::process::Abort;
use std::test::Fail;
use uv_attr::{Attr, Call, decode_call, encode_call, repeats_id};
use uv_num::{Errno, List, QpAttrs, Request};

/// A mandatory attribute of 8 bytes.
fn attr(id: u16, value: u64) -> Attr {
    Attr {
        id,
        len: 8,
        mandatory: true,
        output: false,
        value,
    }
}

/// The call of a method with these attributes.
fn call(alloc: Global, object: u16, method: u16, attrs: &[Attr]) -> Result<Call, AllocError> {
    Ok(Call {
        object,
        method,
        driver: 0,
        attrs: List::from_slice(alloc, attrs)?,
    })
}

/// The call is the request, and so are its bytes.
fn is_request(
    rt: &impl Abort,
    alloc: Global,
    numbers: (u16, u16),
    values: &[(u16, u64)],
    request: Request,
) -> Result<(), Fail> {
    let mut attrs = List::new(alloc);
    for (id, value) in values {
        attrs.push(attr(*id, *value))?;
    }
    let call = call(alloc, numbers.0, numbers.1, attrs.as_slice())?;
    assert_eq!(rt; request_of(&call), Ok(request));
    assert!(rt; call.attrs.len() <= 32);
    assert!(rt; !repeats_id(call.attrs.as_slice()));
    let bytes = encode_call(alloc, &call)?;
    assert_eq!(rt; decode_call(alloc, bytes.as_slice())?, call);
    assert_eq!(rt; command(alloc, bytes.as_slice())?, Ok(request));
    Ok(())
}

#[test]
fn rows_without_other_numbers_than_a_handle(rt: HostRuntime) -> Result<(), Fail> {
    let none = [
        ((1, 1), Request::AllocPd),
        ((2, 1), Request::CreateChannel),
        ((16, 1), Request::GetAsync),
    ];
    for (numbers, request) in none.iter() {
        is_request(&rt, rt.alloc(), *numbers, &[], *request)?;
    }
    let one = [
        ((1, 2), Request::DeallocPd { pd: 7 }),
        ((2, 2), Request::DestroyChannel { channel: 7 }),
        ((3, 2), Request::DestroyCq { cq: 7 }),
        ((4, 2), Request::DestroyQp { qp: 7 }),
        ((4, 4), Request::QueryQp { qp: 7 }),
        ((5, 2), Request::DestroySrq { srq: 7 }),
        ((6, 2), Request::DestroyAh { ah: 7 }),
        ((7, 2), Request::DeregMr { mr: 7 }),
        ((8, 1), Request::AllocMw { pd: 7 }),
        ((8, 2), Request::DeallocMw { mw: 7 }),
    ];
    for (numbers, request) in one.iter() {
        is_request(&rt, rt.alloc(), *numbers, &[(1, 7)], *request)?;
    }
    Ok(())
}

#[test]
fn rows_of_creates(rt: HostRuntime) -> Result<(), Fail> {
    let cq = Request::CreateCq {
        depth: 9,
        channel: None,
    };
    is_request(&rt, rt.alloc(), (3, 1), &[(1, 9)], cq)?;
    let cq = Request::CreateCq {
        depth: 9,
        channel: Some(4),
    };
    is_request(&rt, rt.alloc(), (3, 1), &[(1, 9), (2, 4)], cq)?;
    let srq = Request::CreateSrq { pd: 3, depth: 128 };
    is_request(&rt, rt.alloc(), (5, 1), &[(1, 3), (2, 128)], srq)?;
    let ah = Request::CreateAh { pd: 3, device: 1 };
    is_request(&rt, rt.alloc(), (6, 1), &[(1, 3), (2, 1)], ah)?;
    let mr = Request::RegMr {
        pd: 3,
        length: 65_536,
        access: 31,
    };
    is_request(&rt, rt.alloc(), (7, 1), &[(1, 3), (2, 65_536), (3, 31)], mr)
}

#[test]
fn rows_of_queue_pairs(rt: HostRuntime) -> Result<(), Fail> {
    let values = [(1, 11), (2, 12), (3, 13), (4, 14), (5, 2), (6, 16), (7, 17)];
    let qp = Request::CreateQp {
        pd: 11,
        send_cq: 12,
        recv_cq: 13,
        srq: Some(14),
        service: 2,
        send_depth: 16,
        recv_depth: 17,
    };
    is_request(&rt, rt.alloc(), (4, 1), &values, qp)?;
    let values = [(7, 17), (6, 16), (5, 4), (3, 13), (2, 12), (1, 11)];
    let qp = Request::CreateQp {
        pd: 11,
        send_cq: 12,
        recv_cq: 13,
        srq: None,
        service: 4,
        send_depth: 16,
        recv_depth: 17,
    };
    is_request(&rt, rt.alloc(), (4, 1), &values, qp)
}

#[test]
fn rows_of_modifies(rt: HostRuntime) -> Result<(), Fail> {
    let values = [
        (1, 5),
        (2, 3),
        (3, 15),
        (4, 0),
        (5, 1),
        (6, 60),
        (7, 1),
        (8, 256),
        (9, 9),
        (10, 6),
        (11, 7),
        (12, 120),
        (13, 13),
        (14, 14),
        (15, 150),
        (16, 16),
        (17, 170),
    ];
    let attrs = QpAttrs {
        access: Some(15),
        pkey: Some(0),
        port: Some(1),
        qkey: Some(60),
        dev: Some(1),
        mtu: Some(256),
        timeout: Some(9),
        retry: Some(6),
        rnr: Some(7),
        rqpsn: Some(120),
        mra: Some(13),
        rnrtimer: Some(14),
        sqpsn: Some(150),
        mdra: Some(16),
        dqpn: Some(170),
    };
    let all = Request::ModifyQp {
        qp: 5,
        to: 3,
        attrs,
    };
    is_request(&rt, rt.alloc(), (4, 3), &values, all)?;
    let none = Request::ModifyQp {
        qp: 5,
        to: 0,
        attrs: QpAttrs::none(),
    };
    is_request(&rt, rt.alloc(), (4, 3), &[(1, 5), (2, 0)], none)
}

#[test]
fn rows_of_windows(rt: HostRuntime) -> Result<(), Fail> {
    let values = [(1, 1), (2, 2), (3, u64::MAX), (4, u64::MAX), (5, 6)];
    let bind = Request::BindMw {
        mw: 1,
        mr: Some(2),
        offset: u64::MAX,
        length: u64::MAX,
        access: 6,
    };
    is_request(&rt, rt.alloc(), (8, 3), &values, bind)?;
    let bind = Request::BindMw {
        mw: 1,
        mr: None,
        offset: 0,
        length: 0,
        access: 0,
    };
    is_request(
        &rt,
        rt.alloc(),
        (8, 3),
        &[(1, 1), (3, 0), (4, 0), (5, 0)],
        bind,
    )
}

/// What a call of these numbers and attributes is answered with.
fn answer(
    alloc: Global,
    object: u16,
    method: u16,
    attrs: &[Attr],
) -> Result<Result<Request, Errno>, AllocError> {
    let call = call(alloc, object, method, attrs)?;
    Ok(request_of(&call))
}

/// An attribute that isn't mandatory.
fn optional(id: u16, len: u16) -> Attr {
    Attr {
        mandatory: false,
        len,
        ..attr(id, 0)
    }
}

#[test]
fn no_other_numbers_are_a_method(rt: HostRuntime) -> Result<(), Fail> {
    let numbers = [
        (0, 1),
        (1, 0),
        (1, 3),
        (2, 3),
        (3, 3),
        (4, 0),
        (4, 5),
        (5, 3),
        (6, 3),
        (7, 3),
        (8, 4),
        (9, 1),
        (15, 1),
        (16, 0),
        (16, 2),
        (257, 1),
        (1, 257),
        (u16::MAX, u16::MAX),
    ];
    for (object, method) in numbers.iter() {
        // Whatever the attributes are.
        let attrs = [attr(1, 1 << 32), optional(1, 7)];
        assert_eq!(rt;
            answer(rt.alloc(), *object, *method, &attrs)?,
            Err(Errno::ProtoNoSupport),
            "of {object} and {method}"
        );
    }
    Ok(())
}

#[test]
fn attributes_that_a_method_does_not_have(rt: HostRuntime) -> Result<(), Fail> {
    let pd = Ok(Request::DeallocPd { pd: 7 });
    let given = attr(1, 7);
    for id in [0, 2, 9, u16::MAX].iter() {
        let attrs = [given, attr(*id, 0)];
        let refused = Err(Errno::ProtoNoSupport);
        assert_eq!(rt; answer(rt.alloc(), 1, 2, &attrs)?, refused, "of {id}");
        // Passed over where it isn't mandatory, of whatever length.
        let attrs = [optional(*id, 3), given];
        assert_eq!(rt; answer(rt.alloc(), 1, 2, &attrs)?, pd, "of {id}");
    }
    // One of the method needn't be mandatory.
    let attrs = [optional(1, 8)];
    assert_eq!(rt;
        answer(rt.alloc(), 1, 2, &attrs)?,
        Ok(Request::DeallocPd { pd: 0 })
    );
    Ok(())
}

#[test]
fn attributes_that_a_method_has(rt: HostRuntime) -> Result<(), Fail> {
    let refused = Err(Errno::Inval);
    for len in [0, 4, 7, 9, 264, u16::MAX].iter() {
        let attrs = [Attr {
            len: *len,
            ..attr(1, 7)
        }];
        assert_eq!(rt; answer(rt.alloc(), 1, 2, &attrs)?, refused, "of {len}");
    }
    assert_eq!(rt; answer(rt.alloc(), 1, 2, &[])?, refused, "missing");
    // Each of the attributes that have to be given is asked for.
    let all = [
        attr(1, 0),
        attr(2, 0),
        attr(3, 0),
        attr(5, 2),
        attr(6, 1),
        attr(7, 1),
    ];
    assert!(rt; answer(rt.alloc(), 4, 1, &all)?.is_ok());
    for left_out in all.iter() {
        let mut others = List::new(rt.alloc());
        for one in all.iter() {
            if one.id != left_out.id {
                others.push(*one)?;
            }
        }
        assert_eq!(rt; answer(rt.alloc(), 4, 1, others.as_slice())?, refused);
    }
    Ok(())
}

#[test]
fn handles_have_32_bits(rt: HostRuntime) -> Result<(), Fail> {
    let most = u64::from(u32::MAX);
    let pd = Ok(Request::DeallocPd { pd: u32::MAX });
    let refused = Err(Errno::Inval);
    assert_eq!(rt; answer(rt.alloc(), 1, 2, &[attr(1, most)])?, pd);
    assert_eq!(rt; answer(rt.alloc(), 1, 2, &[attr(1, most + 1)])?, refused);
    // One that may be left out is no wider.
    let attrs = [attr(1, 1), attr(2, most)];
    assert!(rt; answer(rt.alloc(), 3, 1, &attrs)?.is_ok());
    let attrs = [attr(1, 1), attr(2, most + 1)];
    assert_eq!(rt; answer(rt.alloc(), 3, 1, &attrs)?, refused);
    // Other ranges are those of the request.
    assert_eq!(rt; answer(rt.alloc(), 3, 1, &[attr(1, 0)])?, refused);
    assert_eq!(rt; answer(rt.alloc(), 3, 1, &[attr(1, 1_025)])?, refused);
    Ok(())
}

#[test]
fn the_first_step_that_refuses_answers(rt: HostRuntime) -> Result<(), Fail> {
    let unknown = attr(9, 0);
    let short = Attr {
        len: 7,
        ..attr(1, 0)
    };
    let wide = attr(1, 1 << 32);
    let rows = [
        // An attribute that isn't known before a wrong length, and behind one.
        ([unknown, short], Errno::ProtoNoSupport),
        ([short, unknown], Errno::Inval),
        // An attribute that isn't known, though one is missing.
        ([unknown, optional(8, 8)], Errno::ProtoNoSupport),
        ([optional(8, 8), unknown], Errno::ProtoNoSupport),
        // An attribute that isn't known, though a handle is too wide.
        ([unknown, wide], Errno::ProtoNoSupport),
        ([wide, unknown], Errno::ProtoNoSupport),
    ];
    for (attrs, errno) in rows.iter() {
        assert_eq!(rt; answer(rt.alloc(), 1, 2, attrs)?, Err(*errno));
    }
    // An attribute that isn't known, though a number is out of its range.
    let attrs = [attr(1, 0), unknown];
    assert_eq!(rt;
        answer(rt.alloc(), 3, 1, &attrs)?,
        Err(Errno::ProtoNoSupport)
    );
    Ok(())
}
