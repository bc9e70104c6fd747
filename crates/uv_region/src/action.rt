//! Actions on a region, and the tests that they have to pass.

ghost use Rattle.std.specs.Prelude.{◌≡◌, ◌+◌, ◌<◌, nat_le};
ghost use Rattle.uv_region.specs.Actions.{plain, is_read};
ghost use Rattle.uv_region.specs.Refusals.{demand_of, is_inside, has_its_right, is_in_window, passes, why_name};

use crate::rights::Rights;
use uv_num::Bytes;

/// What an action does with the bytes, and on whose side: the owner's own process and queue pairs act locally, and
/// the other side of a connection acts by RDMA READ and RDMA WRITE.
#[derive(Clone, Copy, Debug, PartialEq)]
pub enum Access {
    /// The bytes go out: a part of a send, or a peek.
    LocalRead,
    /// Bytes come in: a receive, the answer of a read, or a poke. Needs `IB_ACCESS_LOCAL_WRITE`.
    LocalWrite,
    /// The bytes answer an RDMA READ. Needs `IB_ACCESS_REMOTE_READ` of the region, or of the window.
    RemoteRead,
    /// An RDMA WRITE brings bytes. Needs `IB_ACCESS_REMOTE_WRITE` of the region, or of the window.
    RemoteWrite,
}

/// The test that an action fails first. They are made in this order, which is this project's own: `lookup_mr` of
/// `rxe_mr.c` looks at the domain and the right together, and `mr_check_range` at the bounds after them. For a window
/// `rxe_lookup_mw` of `rxe_mw.c` looks at its domain and right, and its range isn't tested there, but that of its region.
#[derive(Clone, Copy, Debug, PartialEq)]
pub enum Why {
    /// It doesn't lie in the region.
    Bounds,
    /// The region doesn't give the right. Not tested of an action that comes through a window.
    Right,
    /// Its protection domain isn't the region's.
    Domain,
    /// The window that it comes through has another range, not the right, or another protection domain.
    Window,
}

/// A bound memory window, as an action comes through it.
#[derive(Clone, Copy, Debug, PartialEq)]
pub struct Window {
    /// The id of the window.
    pub object: u32,
    /// The id of its protection domain.
    pub domain: u32,
    /// Where its range begins in the region, in bytes.
    pub offset: u64,
    /// How long the range is, in bytes.
    pub length: u64,
    /// What it gives: reads and writes by the other side.
    pub rights: Rights,
}

/// A read or a write of a region.
#[derive(Debug, Drop)]
pub struct Action {
    pub kind: Access,
    /// Where it begins. The first byte of a region has address 0 (this project's own).
    pub offset: u64,
    /// How many bytes it reads or writes.
    pub length: u32,
    /// What a write writes. Of a read that was made, what it read.
    pub bytes: Bytes,
    /// The id of the queue pair that acts, `NONE` for a client's own poke or peek.
    pub qp: u32,
    /// The id of the protection domain that it acts for.
    pub domain: u32,
    /// The window that it comes through.
    pub window: Option<Window>,
}

impl Access {
    /// Whether it reads. The others write.
    pub fn is_read(self) -> bool
        ensures { result ≡ is_read self }
    {
        match self {
            Access::LocalRead | Access::RemoteRead => true,
            Access::LocalWrite | Access::RemoteWrite => false,
        }
    }
}

impl Why {
    /// The word that reports print for it. This project's own.
    pub fn name(self) -> &'static str
        ensures { result.now ≡ why_name self }
    {
        match self {
            Why::Bounds => "bounds",
            Why::Right => "right",
            Why::Domain => "domain",
            Why::Window => "window",
        }
    }
}

/// What the tests look at in an action.
#[derive(Clone, Copy, Debug, PartialEq)]
pub(crate) struct Demand {
    pub(crate) kind: Access,
    pub(crate) offset: u64,
    pub(crate) length: u32,
    pub(crate) domain: u32,
    pub(crate) window: Option<Window>,
}

impl Action {
    /// What the tests look at in it.
    pub(crate) fn demand(&self) -> Demand
        ensures { result ≡ demand_of (plain self.now) }
    {
        Demand {
            kind: self.kind,
            offset: self.offset,
            length: self.length,
            domain: self.domain,
            window: self.window,
        }
    }
}

impl Demand {
    /// Whether it lies inside a length.
    pub(crate) fn is_inside(self, size: u32) -> bool
        ensures { result ≡ is_inside size self }
    {
        u128::from(self.offset) + u128::from(self.length) <= u128::from(size)
    }

    /// Whether its right is there, which through a window isn't the region's to give.
    pub(crate) fn has_its_right(self, rights: Rights) -> bool
        ensures { result ≡ has_its_right rights self.kind self.window }
    {
        match self.window {
            None => rights.gives(self.kind),
            Some(_) => true,
        }
    }

    /// Whether the window that it comes through lets it pass.
    pub(crate) fn passes(self) -> bool
        ensures { result ≡ passes self.window self }
    {
        match self.window {
            None => true,
            Some(window) => {
                self.is_in(window)
                    && window.rights.gives_through_window(self.kind)
                    && window.domain == self.domain
            }
        }
    }

    /// Whether it lies in a window's range.
    fn is_in(self, window: Window) -> bool
        ensures { result ≡ is_in_window window self }
    {
        let end = u128::from(window.offset) + u128::from(window.length);
        window.offset <= self.offset && u128::from(self.offset) + u128::from(self.length) <= end
    }
}
