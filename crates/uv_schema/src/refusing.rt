//! Why a call of a method is refused. None of it takes memory.

ghost use Rattle.std.specs.Prelude.{◌≡◌};
ghost use Rattle.uv_schema.specs.Refusals.{attr_refusal, attrs_refusal, has_missing, has_wanted, has_wide, is_missing, is_wide};

use crate::ids::VALUE_BYTES;
use crate::method::{Method, Wanted};
use crate::values::{is_given, value};
use uv_attr::Attr;
use uv_num::{Errno, MOST_HANDLE};

/// Whether one of these attributes has the number.
pub(crate) fn has_wanted(wanted: &[Wanted], id: u16) -> bool
    ensures { result ≡ has_wanted wanted.now id }
{
    wanted.iter().any(|one| one.id() == id)
}

fn attr_refusal(wanted: &[Wanted], attr: Attr) -> Option<Errno>
    ensures { result ≡ attr_refusal wanted.now attr }
{
    if has_wanted(wanted, attr.id) {
        if attr.len == VALUE_BYTES {
            None
        } else {
            Some(Errno::Inval)
        }
    } else if attr.mandatory {
        Some(Errno::ProtoNoSupport)
    } else {
        None
    }
}

/// What the first attribute that is refused is refused with.
pub(crate) fn first_refusal(wanted: &[Wanted], attrs: &[Attr]) -> Option<Errno>
    ensures { result ≡ attrs_refusal wanted.now attrs.now }
{
    for attr in attrs {
        if let Some(errno) = attr_refusal(wanted, *attr) {
            return Some(errno);
        }
    }
    None
}

fn is_missing(attrs: &[Attr], wanted: Wanted) -> bool
    ensures { result ≡ is_missing attrs.now wanted }
{
    wanted.is_required() && !is_given(attrs, wanted.id())
}

/// Whether an attribute that has to be given is missing.
pub(crate) fn has_missing(method: Method, attrs: &[Attr]) -> bool
    ensures { result ≡ has_missing method attrs.now }
{
    method.wanted().iter().any(|one| is_missing(attrs, *one))
}

fn is_wide(attrs: &[Attr], wanted: Wanted) -> bool
    ensures { result ≡ is_wide attrs.now wanted }
{
    wanted.is_handle() && value(attrs, wanted.id()) > MOST_HANDLE
}

/// Whether a value is no handle where a handle is wanted.
pub(crate) fn has_wide(method: Method, attrs: &[Attr]) -> bool
    ensures { result ≡ has_wide method attrs.now }
{
    method.wanted().iter().any(|one| is_wide(attrs, *one))
}
