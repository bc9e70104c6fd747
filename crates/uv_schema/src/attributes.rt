//! The ranges of the attributes of a modify.

ghost use Rattle.std.specs.Prelude.{◌≡◌};
ghost use Rattle.uv_num.specs.Ranges.{attr_in_range, attrs_in_range, given_in_range};

use crate::numbers::{is_device, is_mtu, is_within};
use crate::rights::is_qp_access;
use uv_num::{
    MOST_READS, MOST_RETRIES, MOST_TIME, PKEYS, PORTS, PSNS, QKEYS, QP_ATTRS, QP_NUMBERS, QpAttr,
    QpAttrs,
};

/// Whether a value is in the range of an attribute.
fn attr_in_range(name: QpAttr, value: u64) -> bool
    ensures { result ≡ attr_in_range name value }
{
    match name {
        QpAttr::Access => is_qp_access(value),
        QpAttr::Pkey => value < PKEYS,
        QpAttr::Port => is_within(1, PORTS, value),
        QpAttr::Qkey => value < QKEYS,
        QpAttr::Dev => is_device(value),
        QpAttr::Mtu => is_mtu(value),
        QpAttr::Timeout | QpAttr::RnrTimer => value <= MOST_TIME,
        QpAttr::Retry | QpAttr::Rnr => value <= MOST_RETRIES,
        QpAttr::Rqpsn | QpAttr::Sqpsn => value < PSNS,
        QpAttr::Mra | QpAttr::Mdra => is_within(1, MOST_READS, value),
        QpAttr::Dqpn => value < QP_NUMBERS,
    }
}

/// Whether an attribute is in its range, where it is given.
fn given_in_range(attrs: &QpAttrs, name: QpAttr) -> bool
    ensures { result ≡ given_in_range attrs.now name }
{
    match attrs.get(name) {
        Some(value) => attr_in_range(name, value),
        None => true,
    }
}

/// Whether each attribute that is given is in its range.
pub fn attrs_in_range(attrs: &QpAttrs) -> bool
    ensures { result ≡ attrs_in_range attrs.now }
{
    QP_ATTRS.iter().all(|name| given_in_range(attrs, *name))
}
