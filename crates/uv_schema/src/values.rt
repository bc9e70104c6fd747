//! What the attributes of a call say.

ghost use Rattle.std.specs.Prelude.{◌≡◌, ◌<◌, ◌^◌, is_some};
ghost use Rattle.std.specs.Option.{option_copied};
ghost use Rattle.uv_schema.specs.Values.{attr_in, given_in, value_in};

use uv_attr::Attr;

fn attr(attrs: &[Attr], id: u16) -> Option<&Attr>
    ensures { option_copied result ≡ attr_in attrs.now id }
{
    attrs.iter().find(|attr| attr.id == id)
}

/// Whether an attribute is given.
pub(crate) fn is_given(attrs: &[Attr], id: u16) -> bool
    ensures { result ≡ is_some (attr_in attrs.now id) }
{
    attr(attrs, id).is_some()
}

/// The value of an attribute, if it is given.
pub(crate) fn given(attrs: &[Attr], id: u16) -> Option<u64>
    ensures { result ≡ given_in attrs.now id }
{
    let attr = attr(attrs, id)?;
    Some(attr.value)
}

/// The value of an attribute, and 0 where it isn't given.
pub(crate) fn value(attrs: &[Attr], id: u16) -> u64
    ensures { result ≡ value_in attrs.now id }
{
    given(attrs, id).unwrap_or(0)
}

/// The handle that an attribute gives.
pub(crate) fn handle(attrs: &[Attr], id: u16) -> u32
    requires { value_in attrs.now id < 2 ^ 32 }
    ensures { result ≡ value_in attrs.now id }
{
    value(attrs, id) as u32
}

/// The handle that an attribute gives, if it is given.
pub(crate) fn given_handle(attrs: &[Attr], id: u16) -> Option<u32>
    requires { value_in attrs.now id < 2 ^ 32 }
    ensures { result ≡ given_in attrs.now id }
{
    let value = given(attrs, id)?;
    Some(value as u32)
}
