//! Calls and their attributes.

use uv_num::List;

/// The bytes of a header: `struct ib_uverbs_ioctl_hdr` of `rdma/rdma_user_ioctl_cmds.h`.
pub const HEADER_BYTES: usize = 24;

/// The bytes of an attribute: `struct ib_uverbs_attr` of `rdma/rdma_user_ioctl_cmds.h`.
pub const ATTR_BYTES: usize = 16;

/// The most attributes of a call. This project's own: Linux has as many as fit a page.
pub const MOST_ATTRS: u16 = 32;

/// The flags that are known, all set: `UVERBS_ATTR_F_MANDATORY` and `UVERBS_ATTR_F_VALID_OUTPUT`.
pub const KNOWN_FLAGS: u16 = 3;

const _: () = prove!(HEADER_BYTES == 24);

const _: () = prove!(ATTR_BYTES == 16);

const _: () = prove!(MOST_ATTRS == 32);

const _: () = prove!(KNOWN_FLAGS == 3);

/// An attribute of a call, as `struct ib_uverbs_attr`.
#[derive(Clone, Copy, Debug, PartialEq, Eq)]
pub struct Attr {
    /// Which of the method's attributes it is, `attr_id`.
    pub id: u16,
    /// How many bytes the value has, `len`.
    pub len: u16,
    /// Whether the method has to know it, `UVERBS_ATTR_F_MANDATORY`.
    pub mandatory: bool,
    /// Whether the kernel writes it, `UVERBS_ATTR_F_VALID_OUTPUT`.
    pub output: bool,
    /// The value, `data`.
    pub value: u64,
}

/// A call: the method of an object, with its attributes.
#[derive(Clone, Debug, Drop, PartialEq)]
pub struct Call {
    /// The type of the object, `object_id`.
    pub object: u16,
    /// The method of that type, `method_id`.
    pub method: u16,
    /// Which driver the caller thinks of, `driver_id`. It has no effect here.
    pub driver: u32,
    /// The attributes, in the order of the bytes.
    pub attrs: List<Attr>,
}
