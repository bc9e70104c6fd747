//! Each range by its ends and by what lies just outside them, for every request and every attribute.

use crate::check;
use std::process::Abort;
use uv_num::{Errno, QpAttr, QpAttrs, Request};

const TOP: u64 = u64::MAX;

/// The requests are in range.
fn are_taken(rt: &impl Abort, requests: &[Request]) {
    for request in requests {
        assert_eq!(rt; check(request), Ok(()));
    }
}

/// The requests are out of range.
fn are_refused(rt: &impl Abort, requests: &[Request]) {
    for request in requests {
        assert_eq!(rt; check(request), Err(Errno::Inval));
    }
}

/// A completion queue of a depth.
fn cq(depth: u64) -> Request {
    Request::CreateCq {
        depth,
        channel: Some(u32::MAX),
    }
}

/// A queue pair of a service, with the depths of its two queues.
fn qp(service: u64, send_depth: u64, recv_depth: u64) -> Request {
    Request::CreateQp {
        pd: u32::MAX,
        send_cq: u32::MAX,
        recv_cq: u32::MAX,
        srq: Some(u32::MAX),
        service,
        send_depth,
        recv_depth,
    }
}

/// A move to a state, with attributes.
fn modify(to: u64, attrs: QpAttrs) -> Request {
    Request::ModifyQp {
        qp: u32::MAX,
        to,
        attrs,
    }
}

/// A shared receive queue of a depth.
fn srq(depth: u64) -> Request {
    Request::CreateSrq {
        pd: u32::MAX,
        depth,
    }
}

/// An address handle to a device.
fn ah(device: u64) -> Request {
    Request::CreateAh {
        pd: u32::MAX,
        device,
    }
}

/// A region of a length, with rights.
fn mr(length: u64, access: u64) -> Request {
    Request::RegMr {
        pd: u32::MAX,
        length,
        access,
    }
}

/// A binding with rights.
fn bind(access: u64) -> Request {
    Request::BindMw {
        mw: u32::MAX,
        mr: Some(u32::MAX),
        offset: TOP,
        length: TOP,
        access,
    }
}

#[test]
fn requests_that_have_handles_alone_are_taken(rt: HostRuntime) {
    let handle = u32::MAX;
    are_taken(
        &rt,
        &[
            Request::AllocPd,
            Request::DeallocPd { pd: handle },
            Request::CreateChannel,
            Request::DestroyChannel { channel: handle },
            Request::DestroyCq { cq: handle },
            Request::DestroyQp { qp: handle },
            Request::QueryQp { qp: handle },
            Request::DestroySrq { srq: handle },
            Request::DestroyAh { ah: handle },
            Request::DeregMr { mr: handle },
            Request::AllocMw { pd: handle },
            Request::DeallocMw { mw: handle },
            Request::GetAsync,
        ],
    );
}

#[test]
fn completion_queues_are_1_to_1024_deep(rt: HostRuntime) {
    are_taken(&rt, &[cq(1), cq(1_024)]);
    are_refused(&rt, &[cq(0), cq(1_025), cq(TOP)]);
}

#[test]
fn queue_pairs_have_one_of_two_services(rt: HostRuntime) {
    are_taken(&rt, &[qp(2, 1, 1), qp(4, 1, 1)]);
    are_refused(
        &rt,
        &[
            qp(0, 1, 1),
            qp(1, 1, 1),
            qp(3, 1, 1),
            qp(5, 1, 1),
            qp(TOP, 1, 1),
        ],
    );
}

#[test]
fn the_queues_of_a_pair_are_1_to_128_deep(rt: HostRuntime) {
    are_taken(&rt, &[qp(2, 1, 128), qp(2, 128, 1)]);
    are_refused(&rt, &[qp(2, 0, 1), qp(2, 129, 1), qp(2, TOP, 1)]);
    are_refused(&rt, &[qp(2, 1, 0), qp(2, 1, 129), qp(2, 1, TOP)]);
}

#[test]
fn shared_queues_are_1_to_128_deep(rt: HostRuntime) {
    are_taken(&rt, &[srq(1), srq(128)]);
    are_refused(&rt, &[srq(0), srq(129), srq(TOP)]);
}

#[test]
fn address_handles_lead_to_one_of_two_devices(rt: HostRuntime) {
    are_taken(&rt, &[ah(0), ah(1)]);
    are_refused(&rt, &[ah(2), ah(TOP)]);
}

#[test]
fn regions_have_1_to_65536_bytes(rt: HostRuntime) {
    are_taken(&rt, &[mr(1, 0), mr(65_536, 0)]);
    are_refused(&rt, &[mr(0, 0), mr(65_537, 0), mr(TOP, 0)]);
}

#[test]
fn regions_have_five_rights(rt: HostRuntime) {
    are_taken(
        &rt,
        &[
            mr(1, 0),
            mr(1, 1),
            mr(1, 4),
            mr(1, 16),
            mr(1, 20),
            mr(1, 31),
        ],
    );
    are_refused(&rt, &[mr(1, 32), mr(1, 33), mr(1, 1 << 63), mr(1, TOP)]);
}

#[test]
fn others_change_a_region_only_where_its_owner_may(rt: HostRuntime) {
    are_taken(&rt, &[mr(1, 3), mr(1, 9), mr(1, 11)]);
    are_refused(&rt, &[mr(1, 2), mr(1, 8), mr(1, 10), mr(1, 6), mr(1, 30)]);
}

#[test]
fn windows_have_the_rights_to_write_and_to_read(rt: HostRuntime) {
    are_taken(&rt, &[bind(0), bind(2), bind(4), bind(6)]);
    are_refused(
        &rt,
        &[bind(1), bind(8), bind(16), bind(7), bind(32), bind(TOP)],
    );
}

#[test]
fn bindings_take_any_range_and_unbind_too(rt: HostRuntime) {
    let unbind = Request::BindMw {
        mw: 0,
        mr: None,
        offset: 0,
        length: 0,
        access: 0,
    };
    are_taken(&rt, &[unbind, bind(6)]);
}

#[test]
fn moves_go_to_one_of_five_states(rt: HostRuntime) {
    for to in [0, 1, 2, 3, 6] {
        are_taken(&rt, &[modify(to, QpAttrs::none())]);
    }
    for to in [4, 5, 7, TOP] {
        are_refused(&rt, &[modify(to, QpAttrs::none())]);
    }
}

/// Values that a modify takes for an attribute, and values that it refuses.
fn ranges(rt: &impl Abort, name: QpAttr, taken: &[u64], refused: &[u64]) {
    for value in taken {
        are_taken(rt, &[modify(1, QpAttrs::none().with(name, *value))]);
    }
    for value in refused {
        are_refused(rt, &[modify(1, QpAttrs::none().with(name, *value))]);
    }
}

#[test]
fn attributes_of_the_port_have_their_ranges(rt: HostRuntime) {
    ranges(&rt, QpAttr::Access, &[0, 1, 2, 4, 8, 15], &[16, 17, TOP]);
    ranges(&rt, QpAttr::Pkey, &[0], &[1, TOP]);
    ranges(&rt, QpAttr::Port, &[1], &[0, 2, TOP]);
    ranges(&rt, QpAttr::Qkey, &[0, 0xffff_ffff], &[0x1_0000_0000, TOP]);
}

#[test]
fn attributes_of_the_path_have_their_ranges(rt: HostRuntime) {
    ranges(&rt, QpAttr::Dev, &[0, 1], &[2, TOP]);
    ranges(
        &rt,
        QpAttr::Mtu,
        &[256, 512, 1_024, 2_048, 4_096],
        &[0, 1, 128, 255, 257, 768, 4_097, 8_192, TOP],
    );
    ranges(&rt, QpAttr::Dqpn, &[0, 0xff_ffff], &[0x100_0000, TOP]);
}

#[test]
fn attributes_of_resending_have_their_ranges(rt: HostRuntime) {
    ranges(&rt, QpAttr::Timeout, &[0, 31], &[32, TOP]);
    ranges(&rt, QpAttr::Retry, &[0, 7], &[8, TOP]);
    ranges(&rt, QpAttr::Rnr, &[0, 7], &[8, TOP]);
    ranges(&rt, QpAttr::RnrTimer, &[0, 31], &[32, TOP]);
}

#[test]
fn attributes_of_the_order_have_their_ranges(rt: HostRuntime) {
    ranges(&rt, QpAttr::Rqpsn, &[0, 0xff_ffff], &[0x100_0000, TOP]);
    ranges(&rt, QpAttr::Sqpsn, &[0, 0xff_ffff], &[0x100_0000, TOP]);
    ranges(&rt, QpAttr::Mra, &[1, 16], &[0, 17, TOP]);
    ranges(&rt, QpAttr::Mdra, &[1, 16], &[0, 17, TOP]);
}

#[test]
fn one_attribute_out_of_its_range_is_enough(rt: HostRuntime) {
    let attrs = QpAttrs::none().with(QpAttr::Pkey, 0).with(QpAttr::Port, 1);
    are_taken(&rt, &[modify(1, attrs.with(QpAttr::Access, 0))]);
    are_refused(&rt, &[modify(1, attrs.with(QpAttr::Access, 16))]);
    are_refused(&rt, &[modify(4, attrs)]);
}
