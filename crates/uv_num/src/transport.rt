//! The moves of a queue pair from state to state: the table of `qp_state_table` in Linux's `core/verbs.c`, which
//! `ib_modify_qp_is_ok` reads, less the states and attributes that this project leaves out.

ghost use Rattle.std.specs.Prelude.{◌≡◌};
ghost use Rattle.std.specs.List.{list_all, list_any};
ghost use Rattle.uv_num.specs.Attrs.{is_given};
ghost use Rattle.uv_num.specs.Modify.{fits_move, is_allowed, is_listed, meets_row, modify_of, move_of, moved, rc_optional, rc_required, ud_optional, ud_required};

use crate::QpAttr::{
    Access, Dev, Dqpn, Mdra, Mra, Mtu, Pkey, Port, Qkey, Retry, Rnr, RnrTimer, Rqpsn, Sqpsn,
    Timeout,
};
use crate::{Errno, QP_ATTRS, QpAttr, QpAttrs, QpState, Service};

/// A row of the table: a move that a queue pair can make.
#[derive(Clone, Copy, Debug, PartialEq, Eq)]
enum Move {
    /// From RESET to INIT.
    ResetToInit,
    /// From INIT to RTR.
    InitToRtr,
    /// From RTR to RTS.
    RtrToRts,
    /// From any state to RESET.
    AnyToReset,
    /// From any state but RESET to ERR.
    AnyToErr,
}

/// The row of two states, if they have one.
fn move_between(from: QpState, to: QpState) -> Option<Move>
    ensures { result ≡ move_of from to }
{
    match (from, to) {
        (QpState::Reset, QpState::Init) => Some(Move::ResetToInit),
        (QpState::Init, QpState::Rtr) => Some(Move::InitToRtr),
        (QpState::Rtr, QpState::Rts) => Some(Move::RtrToRts),
        (_, QpState::Reset) => Some(Move::AnyToReset),
        (QpState::Reset, QpState::Err) => None,
        (_, QpState::Err) => Some(Move::AnyToErr),
        _ => None,
    }
}

/// What a reliable connection has to give.
fn required_of_rc(row: Move) -> &'static [QpAttr]
    ensures { result.now ≡ rc_required row }
{
    match row {
        Move::ResetToInit => &[Pkey, Port, Access],
        Move::InitToRtr => &[Dev, Mtu, Dqpn, Rqpsn, Mdra, RnrTimer],
        Move::RtrToRts => &[Sqpsn, Timeout, Retry, Rnr, Mra],
        Move::AnyToReset | Move::AnyToErr => &[],
    }
}

/// What a reliable connection may give beside that.
fn optional_of_rc(row: Move) -> &'static [QpAttr]
    ensures { result.now ≡ rc_optional row }
{
    match row {
        Move::InitToRtr => &[Access, Pkey],
        Move::RtrToRts => &[Access, RnrTimer],
        Move::ResetToInit | Move::AnyToReset | Move::AnyToErr => &[],
    }
}

/// What a datagram service has to give.
fn required_of_ud(row: Move) -> &'static [QpAttr]
    ensures { result.now ≡ ud_required row }
{
    match row {
        Move::ResetToInit => &[Pkey, Port, Qkey],
        Move::RtrToRts => &[Sqpsn],
        Move::InitToRtr | Move::AnyToReset | Move::AnyToErr => &[],
    }
}

/// What a datagram service may give beside that.
fn optional_of_ud(row: Move) -> &'static [QpAttr]
    ensures { result.now ≡ ud_optional row }
{
    match row {
        Move::InitToRtr => &[Pkey, Qkey],
        Move::RtrToRts => &[Qkey],
        Move::ResetToInit | Move::AnyToReset | Move::AnyToErr => &[],
    }
}

/// Whether an attribute stands in a list.
fn is_listed(names: &[QpAttr], name: QpAttr) -> bool
    ensures { result ≡ is_listed names.now name }
{
    names.iter().any(|other| other.place() == name.place())
}

/// Whether an attribute isn't given, or stands in one of two lists.
fn is_allowed(attrs: &QpAttrs, required: &[QpAttr], optional: &[QpAttr], name: QpAttr) -> bool
    ensures { result ≡ is_allowed attrs.now required.now optional.now name }
{
    attrs.get(name).is_none() || is_listed(required, name) || is_listed(optional, name)
}

/// Whether each of these attributes is given.
fn has_all(attrs: &QpAttrs, required: &[QpAttr]) -> bool
    ensures { result ≡ list_all (is_given attrs.now) required.now }
{
    required.iter().all(|name| attrs.get(*name).is_some())
}

/// Whether each attribute that is given stands in one of two lists.
fn has_no_other(attrs: &QpAttrs, required: &[QpAttr], optional: &[QpAttr]) -> bool
    ensures { result ≡ list_all (is_allowed attrs.now required.now optional.now) QP_ATTRS }
{
    QP_ATTRS
        .iter()
        .all(|name| is_allowed(attrs, required, optional, *name))
}

/// Whether the attributes meet a row's columns.
fn meets_row(attrs: &QpAttrs, required: &[QpAttr], optional: &[QpAttr]) -> bool
    ensures { result ≡ meets_row attrs.now required.now optional.now }
{
    has_all(attrs, required) && has_no_other(attrs, required, optional)
}

/// Whether the attributes are those of a move.
fn fits_move(service: u64, row: Move, attrs: &QpAttrs) -> bool
    ensures { result ≡ fits_move service row attrs.now }
{
    if service == u64::from(Service::Rc.number()) {
        meets_row(attrs, required_of_rc(row), optional_of_rc(row))
    } else {
        meets_row(attrs, required_of_ud(row), optional_of_ud(row))
    }
}

/// The new state by the row of two states.
fn moved(service: u64, from: QpState, to: QpState, attrs: &QpAttrs) -> Result<QpState, Errno>
    ensures { result ≡ moved service (move_of from to) to attrs.now }
{
    match move_between(from, to) {
        Some(row) if fits_move(service, row, attrs) => Ok(to),
        Some(_) | None => Err(Errno::Inval),
    }
}

/// The new state of a queue pair that is told to leave one state for another.
///
/// `service` is the number of its service, 2 for a reliable connection; every other number is read as that of a
/// datagram service. `to` is the number of the new state (`enum ib_qp_state` of `rdma/ib_verbs.h`). `Inval` comes
/// where no state has that number, where the table has no such move, where a required attribute is missing, and
/// where one is given that is neither required nor optional. The values aren't looked at: their ranges stand in
/// `specs/Ranges.antt`.
pub fn modify(service: u64, from: QpState, to: u64, attrs: &QpAttrs) -> Result<QpState, Errno>
    ensures { result ≡ modify_of service from to attrs.now }
{
    match QpState::from_number(to) {
        Some(to) => moved(service, from, to, attrs),
        None => Err(Errno::Inval),
    }
}

#[cfg(test)]
mod tests;
