//! Requests, and the table that says what each one does to the object graph.

ghost use Rattle.std.specs.Prelude.{◌≡◌, ◌↔◌, IsTrue};
ghost use Rattle.uv_num.specs.Request.{binds, destroys, role_of};

use crate::{Kind, QpAttrs};

/// A request that a client makes on a file. Handles are 32 bits wide and other numbers 64, as they come: the ranges
/// of each request stand in `specs/Ranges.antt`. Names are those of Linux's commands (`uverbs_cmd.c` and
/// `uverbs_std_types_*.c`).
#[derive(Clone, Copy, Debug, PartialEq, Eq)]
pub enum Request {
    /// Makes a protection domain.
    AllocPd,
    /// Destroys a protection domain.
    DeallocPd {
        /// The domain's handle.
        pd: u32,
    },
    /// Makes a completion channel.
    CreateChannel,
    /// Destroys a completion channel.
    DestroyChannel {
        /// The channel's handle.
        channel: u32,
    },
    /// Makes a completion queue.
    CreateCq {
        /// The most completions that it holds, 1 to 1,024.
        depth: u64,
        /// The handle of the channel that it tells of completions, if any.
        channel: Option<u32>,
    },
    /// Destroys a completion queue.
    DestroyCq {
        /// The queue's handle.
        cq: u32,
    },
    /// Makes a queue pair.
    CreateQp {
        /// The domain's handle.
        pd: u32,
        /// The handle of the queue for completions of sends.
        send_cq: u32,
        /// The handle of the queue for completions of receives.
        recv_cq: u32,
        /// The handle of the shared receive queue, if it has one.
        srq: Option<u32>,
        /// The service's number: 2 for a reliable connection, 4 for datagrams.
        service: u64,
        /// The most sends that are posted at once, 1 to 128.
        send_depth: u64,
        /// The most receives that are posted at once, 1 to 128.
        recv_depth: u64,
    },
    /// Destroys a queue pair.
    DestroyQp {
        /// The pair's handle.
        qp: u32,
    },
    /// Takes a queue pair to another state.
    ModifyQp {
        /// The pair's handle.
        qp: u32,
        /// The new state's number.
        to: u64,
        /// The attributes that go with it.
        attrs: QpAttrs,
    },
    /// Asks for the state and the number of a queue pair.
    QueryQp {
        /// The pair's handle.
        qp: u32,
    },
    /// Makes a shared receive queue.
    CreateSrq {
        /// The domain's handle.
        pd: u32,
        /// The most receives that are posted at once, 1 to 128.
        depth: u64,
    },
    /// Destroys a shared receive queue.
    DestroySrq {
        /// The queue's handle.
        srq: u32,
    },
    /// Makes an address handle.
    CreateAh {
        /// The domain's handle.
        pd: u32,
        /// The device that it leads to, 0 or 1.
        device: u64,
    },
    /// Destroys an address handle.
    DestroyAh {
        /// The address handle's handle.
        ah: u32,
    },
    /// Registers a memory region.
    RegMr {
        /// The domain's handle.
        pd: u32,
        /// Its length in bytes, 1 to 65,536.
        length: u64,
        /// Its rights, as `REGION_ACCESS` has them.
        access: u64,
    },
    /// Deregisters a memory region.
    DeregMr {
        /// The region's handle.
        mr: u32,
    },
    /// Makes a memory window.
    AllocMw {
        /// The domain's handle.
        pd: u32,
    },
    /// Destroys a memory window.
    DeallocMw {
        /// The window's handle.
        mw: u32,
    },
    /// Binds a memory window to a range of a region, or unbinds it.
    BindMw {
        /// The window's handle.
        mw: u32,
        /// The region's handle; none unbinds.
        mr: Option<u32>,
        /// Where the range begins, in bytes from the region's begin.
        offset: u64,
        /// The range's length in bytes.
        length: u64,
        /// The window's rights, as `WINDOW_ACCESS` has them.
        access: u64,
    },
    /// Takes the oldest asynchronous event of the file.
    GetAsync,
}

/// A handle that a request names, and the kind that its object has to have.
#[derive(Clone, Copy, Debug, PartialEq, Eq)]
pub struct Ask {
    /// The kind that is wanted.
    pub kind: Kind,
    /// The handle, a number of the file's table.
    pub handle: u32,
}

/// What a request does that neither makes nor destroys an object.
#[derive(Clone, Copy, Debug, PartialEq, Eq)]
pub enum Act {
    /// It takes a queue pair to another state.
    Modify {
        /// The new state's number.
        to: u64,
        /// The attributes that go with it.
        attrs: QpAttrs,
    },
    /// It tells a queue pair's state.
    Query,
    /// It binds a window to a range of a region.
    Bind {
        /// Where the range begins, in bytes from the region's begin.
        offset: u64,
        /// The range's length in bytes.
        length: u64,
        /// The window's rights.
        access: u64,
    },
    /// It unbinds a window. What it gives has to be 0.
    Unbind {
        /// An offset.
        offset: u64,
        /// A length.
        length: u64,
        /// Rights.
        access: u64,
    },
    /// It takes an event.
    Async,
}

/// What a request does to the object graph.
#[derive(Clone, Copy, Debug, PartialEq, Eq)]
pub enum Role {
    /// It makes an object of this kind.
    Creates(Kind),
    /// It destroys the object that is asked for.
    Destroys(Ask),
    /// It does this with objects that stay.
    Acts(Act),
}

/// The destroy of the object of this kind and handle.
fn destroys(kind: Kind, handle: u32) -> Role
    ensures { result ≡ destroys kind handle }
{
    Role::Destroys(Ask { kind, handle })
}

/// A window is bound to the region that is named, else it is unbound.
fn binds(mr: Option<u32>, offset: u64, length: u64, access: u64) -> Act
    ensures { result ≡ binds mr offset length access }
{
    match mr {
        None => Act::Unbind {
            offset,
            length,
            access,
        },
        Some(_) => Act::Bind {
            offset,
            length,
            access,
        },
    }
}

impl Request {
    /// What the request does to the object graph.
    pub fn role(self) -> Role
        ensures { result ≡ role_of self }
    {
        match self {
            Request::AllocPd => Role::Creates(Kind::Pd),
            Request::DeallocPd { pd } => destroys(Kind::Pd, pd),
            Request::CreateChannel => Role::Creates(Kind::Channel),
            Request::DestroyChannel { channel } => destroys(Kind::Channel, channel),
            Request::CreateCq { .. } => Role::Creates(Kind::Cq),
            Request::DestroyCq { cq } => destroys(Kind::Cq, cq),
            Request::CreateQp { .. } => Role::Creates(Kind::Qp),
            Request::DestroyQp { qp } => destroys(Kind::Qp, qp),
            Request::ModifyQp { to, attrs, .. } => Role::Acts(Act::Modify { to, attrs }),
            Request::QueryQp { .. } => Role::Acts(Act::Query),
            Request::CreateSrq { .. } => Role::Creates(Kind::Srq),
            Request::DestroySrq { srq } => destroys(Kind::Srq, srq),
            Request::CreateAh { .. } => Role::Creates(Kind::Ah),
            Request::DestroyAh { ah } => destroys(Kind::Ah, ah),
            Request::RegMr { .. } => Role::Creates(Kind::Mr),
            Request::DeregMr { mr } => destroys(Kind::Mr, mr),
            Request::AllocMw { .. } => Role::Creates(Kind::Mw),
            Request::DeallocMw { mw } => destroys(Kind::Mw, mw),
            Request::BindMw {
                mr,
                offset,
                length,
                access,
                ..
            } => Role::Acts(binds(mr, offset, length, access)),
            Request::GetAsync => Role::Acts(Act::Async),
        }
    }

    /// Whether the two are the same request with the same fields.
    pub fn is_same(self, other: Request) -> bool
        ensures { IsTrue result ↔ (self ≡ other) }
    {
        self == other
    }
}

#[cfg(test)]
mod tests {
    use super::*;
    use crate::QpAttr;
    use std::test::Fail;

    #[test]
    fn requests_create_and_destroy(rt: HostRuntime) -> Result<(), Fail> {
        let ask = Ask {
            kind: Kind::Pd,
            handle: 7,
        };
        assert_eq!(rt; Request::AllocPd.role(), Role::Creates(Kind::Pd));
        assert_eq!(rt; Request::DeallocPd { pd: 7 }.role(), Role::Destroys(ask));
        Ok(())
    }

    #[test]
    fn what_neither_creates_nor_destroys_acts(rt: HostRuntime) -> Result<(), Fail> {
        assert_eq!(rt; Request::QueryQp { qp: 1 }.role(), Role::Acts(Act::Query));
        assert_eq!(rt; Request::GetAsync.role(), Role::Acts(Act::Async));
        Ok(())
    }

    #[test]
    fn requests_differ_by_any_field(rt: HostRuntime) {
        let attrs = QpAttrs::none().with(QpAttr::Port, 1);
        let one = Request::ModifyQp {
            qp: 1,
            to: 1,
            attrs,
        };
        let other = Request::ModifyQp {
            qp: 1,
            to: 1,
            attrs: attrs.with(QpAttr::Pkey, 0),
        };
        assert!(rt; one.is_same(one));
        assert!(rt; !one.is_same(other));
        assert!(rt; !one.is_same(Request::QueryQp { qp: 1 }));
    }
}
