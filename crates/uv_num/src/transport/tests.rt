//! The moves of a queue pair beside a table of their own: each row has two states by their numbers, the attributes
//! that have to be given, and those that may be given beside them.

use crate::QpAttr::{
    Access, Dev, Dqpn, Mdra, Mra, Mtu, Pkey, Port, Qkey, Retry, Rnr, RnrTimer, Rqpsn, Sqpsn,
    Timeout,
};
use crate::{Errno, QP_ATTRS, QpAttr, QpAttrs, QpState, modify};
use std::process::Abort;

const STATES: [QpState; 5] = [
    QpState::Reset,
    QpState::Init,
    QpState::Rtr,
    QpState::Rts,
    QpState::Err,
];

type Columns = (&'static [QpAttr], &'static [QpAttr]);

/// The row of a reliable connection.
fn rc_row(from: u32, to: u32) -> Option<Columns> {
    match (from, to) {
        (0, 0) | (1, 0) | (2, 0) | (3, 0) | (6, 0) => Some((&[], &[])),
        (1, 6) | (2, 6) | (3, 6) | (6, 6) => Some((&[], &[])),
        (0, 1) => Some((&[Access, Pkey, Port], &[])),
        (1, 2) => Some((&[Dev, Mtu, Rqpsn, RnrTimer, Mdra, Dqpn], &[Access, Pkey])),
        (2, 3) => Some((&[Timeout, Retry, Rnr, Mra, Sqpsn], &[Access, RnrTimer])),
        _ => None,
    }
}

/// The row of a datagram service, and of every number that is no service's.
fn ud_row(from: u32, to: u32) -> Option<Columns> {
    match (from, to) {
        (0, 0) | (1, 0) | (2, 0) | (3, 0) | (6, 0) => Some((&[], &[])),
        (1, 6) | (2, 6) | (3, 6) | (6, 6) => Some((&[], &[])),
        (0, 1) => Some((&[Pkey, Port, Qkey], &[])),
        (1, 2) => Some((&[], &[Pkey, Qkey])),
        (2, 3) => Some((&[Sqpsn], &[Qkey])),
        _ => None,
    }
}

/// Attributes with a value for each of these names.
fn given(names: &[QpAttr]) -> QpAttrs {
    let mut attrs = QpAttrs::none();
    for name in names {
        attrs = attrs.with(*name, 1);
    }
    attrs
}

/// Attributes with a value for each of these names but one.
fn given_but(names: &[QpAttr], left_out: QpAttr) -> QpAttrs {
    let mut attrs = QpAttrs::none();
    for name in names {
        if *name != left_out {
            attrs = attrs.with(*name, 1);
        }
    }
    attrs
}

/// What the row says of the required attributes with this one beside them.
fn answer_with(columns: Columns, to: QpState, name: QpAttr) -> Result<QpState, Errno> {
    if columns.0.contains(&name) || columns.1.contains(&name) {
        Ok(to)
    } else {
        Err(Errno::Inval)
    }
}

/// A move that the table has: it takes the required attributes, none less, and no others but the optional ones.
fn meets_its_row(rt: &impl Abort, service: u64, from: QpState, to: QpState, columns: Columns) {
    let number = u64::from(to.number());
    let exact = given(columns.0);
    assert_eq!(rt; modify(service, from, number, &exact), Ok(to));
    for name in columns.0 {
        let short = given_but(columns.0, *name);
        assert_eq!(rt; modify(service, from, number, &short), Err(Errno::Inval));
    }
    for name in QP_ATTRS.iter() {
        let more = exact.with(*name, 1);
        assert_eq!(rt;
            modify(service, from, number, &more),
            answer_with(columns, to, *name)
        );
    }
}

/// A move that the table doesn't have: it is refused, whatever is given.
fn has_no_row(rt: &impl Abort, service: u64, from: QpState, to: u64) {
    let all = given(QP_ATTRS.as_slice());
    assert_eq!(rt;
        modify(service, from, to, &QpAttrs::none()),
        Err(Errno::Inval)
    );
    assert_eq!(rt; modify(service, from, to, &all), Err(Errno::Inval));
    for name in QP_ATTRS.iter() {
        let one = given([*name].as_slice());
        assert_eq!(rt; modify(service, from, to, &one), Err(Errno::Inval));
    }
}

#[test]
fn a_reliable_connection_moves_by_its_columns(rt: HostRuntime) {
    for from in STATES.iter() {
        for to in STATES.iter() {
            match rc_row(from.number(), to.number()) {
                Some(columns) => meets_its_row(&rt, 2, *from, *to, columns),
                None => has_no_row(&rt, 2, *from, u64::from(to.number())),
            }
        }
    }
}

#[test]
fn every_other_service_moves_by_the_columns_of_datagrams(rt: HostRuntime) {
    for service in [4, 3, 0, u64::MAX].iter() {
        for from in STATES.iter() {
            for to in STATES.iter() {
                match ud_row(from.number(), to.number()) {
                    Some(columns) => meets_its_row(&rt, *service, *from, *to, columns),
                    None => has_no_row(&rt, *service, *from, u64::from(to.number())),
                }
            }
        }
    }
}

#[test]
fn all_that_is_optional_may_be_given_at_once(rt: HostRuntime) {
    let connected = given(&[Dev, Mtu, Rqpsn, RnrTimer, Mdra, Dqpn, Access, Pkey]);
    let datagrams = given(&[Pkey, Qkey]);
    assert_eq!(rt; modify(2, QpState::Init, 2, &connected), Ok(QpState::Rtr));
    assert_eq!(rt; modify(4, QpState::Init, 2, &datagrams), Ok(QpState::Rtr));
}

#[test]
fn numbers_of_no_state_are_refused(rt: HostRuntime) {
    for from in STATES.iter() {
        for to in [4, 5, 7, u64::MAX].iter() {
            has_no_row(&rt, 2, *from, *to);
            has_no_row(&rt, 4, *from, *to);
        }
    }
}
