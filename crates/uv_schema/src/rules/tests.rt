//! Each rule of calls, requests and command bytes, told once.

use super::*;
use crate::rule::CALL_RULES;
use std::test::Fail;
use uv_attr::BytesRule;
use uv_num::{Errno, List, QpAttrs};

/// An attribute of a number, a length and a value, mandatory.
fn attr(id: u16, len: u16, value: u64) -> Attr {
    Attr {
        id,
        len,
        mandatory: true,
        output: false,
        value,
    }
}

/// The rule that refuses a call.
fn told(
    alloc: Global,
    numbers: (u16, u16),
    attrs: &[Attr],
) -> Result<Option<CallRule>, AllocError> {
    let call = Call {
        object: numbers.0,
        method: numbers.1,
        driver: 0,
        attrs: List::from_slice(alloc, attrs)?,
    };
    Ok(call_rule(&call))
}

#[test]
fn each_rule_of_a_call_is_told(rt: HostRuntime) -> Result<(), Fail> {
    let rows = [
        ((9, 1), attr(1, 8, 0), Some(CallRule::MethodUnknown)),
        ((1, 2), attr(2, 8, 0), Some(CallRule::AttrUnknown)),
        ((1, 2), attr(1, 7, 0), Some(CallRule::AttrHandle)),
        ((3, 1), attr(1, 7, 1), Some(CallRule::AttrLength)),
        ((5, 1), attr(1, 8, 1), Some(CallRule::AttrMissing)),
        ((1, 2), attr(1, 8, 1 << 32), Some(CallRule::RangeHandle)),
        ((3, 1), attr(1, 8, 0), Some(CallRule::RangeCq)),
        ((3, 1), attr(1, 8, 1), None),
    ];
    for (numbers, attr, rule) in rows.iter() {
        assert_eq!(rt; told(rt.alloc(), *numbers, &[*attr])?, *rule);
    }
    Ok(())
}

#[test]
fn each_range_has_its_rule(rt: HostRuntime) {
    let qp = |service: u64, send_depth: u64, recv_depth: u64| Request::CreateQp {
        pd: 0,
        send_cq: 0,
        recv_cq: 0,
        srq: None,
        service,
        send_depth,
        recv_depth,
    };
    assert_eq!(rt; request_rule(&qp(2, 1, 128)), None);
    assert_eq!(rt; request_rule(&qp(3, 0, 0)), Some(CallRule::RangeService));
    assert_eq!(rt; request_rule(&qp(2, 0, 0)), Some(CallRule::RangeSends));
    assert_eq!(rt; request_rule(&qp(4, 1, 129)), Some(CallRule::RangeReceives));
    let region = |length: u64, access: u64| Request::RegMr {
        pd: 0,
        length,
        access,
    };
    assert_eq!(rt; request_rule(&region(1, 31)), None);
    assert_eq!(rt; request_rule(&region(0, 32)), Some(CallRule::RangeLength));
    assert_eq!(rt; request_rule(&region(1, 34)), Some(CallRule::RangeRights));
    assert_eq!(rt; request_rule(&region(1, 2)), Some(CallRule::RangeWrite));
    let modify = |to: u64, attrs: QpAttrs| Request::ModifyQp { qp: 0, to, attrs };
    let mut attrs = QpAttrs::none();
    attrs.port = Some(2);
    assert_eq!(rt; request_rule(&modify(4, attrs)), Some(CallRule::RangeState));
    assert_eq!(rt;
        request_rule(&modify(1, attrs)),
        Some(CallRule::RangeModify)
    );
    assert_eq!(rt;
        request_rule(&Request::CreateSrq { pd: 0, depth: 129 }),
        Some(CallRule::RangeSrq)
    );
    assert_eq!(rt;
        request_rule(&Request::CreateAh { pd: 0, device: 2 }),
        Some(CallRule::RangeDevice)
    );
    let window = Request::BindMw {
        mw: 0,
        mr: None,
        offset: 0,
        length: 0,
        access: 1,
    };
    assert_eq!(rt; request_rule(&window), Some(CallRule::RangeWindow));
}

#[test]
fn bytes_are_refused_before_their_call(rt: HostRuntime) -> Result<(), Fail> {
    // Object 9, method 2, no attribute; then a reserved field of it is used.
    let mut bytes = [
        0x18, 0, 9, 0, 2, 0, 0, 0, 0, 0, 0, 0, 0, 0, 0, 0, 0, 0, 0, 0, 0, 0, 0, 0,
    ];
    let unknown = CommandRule::Call(CallRule::MethodUnknown);
    assert_eq!(rt; command_rule(rt.alloc(), &bytes)?, Some(unknown));
    assert_eq!(rt; unknown.key(), "method-unknown");
    bytes[8] = 1;
    let reserved = CommandRule::Bytes(BytesRule::Reserved);
    assert_eq!(rt; command_rule(rt.alloc(), &bytes)?, Some(reserved));
    assert_eq!(rt; reserved.errno(), Errno::ProtoNoSupport);
    assert_eq!(rt; reserved.source(), "uverbs_ioctl.c, ib_uverbs_ioctl");
    Ok(())
}

#[test]
fn keys_of_calls_differ(rt: HostRuntime) {
    for (place, rule) in CALL_RULES.iter().enumerate() {
        for (other, second) in CALL_RULES.iter().enumerate() {
            assert_eq!(rt; rule.key() == second.key(), place == other);
        }
    }
}
