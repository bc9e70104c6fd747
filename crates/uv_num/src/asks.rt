//! Short lists of asks, held in place: what a request looks at.

ghost use Rattle.std.specs.Prelude.{◌≡◌, [], ◌∷◌, length, slice_get};
ghost use Rattle.uv_num.specs.Looks.{asks_of, asked, asked_if, looks_of};

use crate::{Ask, Kind, Request};

/// At most four asks, in order: as many as any request looks at. This project's own.
#[derive(Clone, Copy, Debug, PartialEq, Eq)]
pub enum Asks {
    /// No asks.
    Empty,
    /// One ask.
    One(Ask),
    /// Two asks.
    Two(Ask, Ask),
    /// Three asks.
    Three(Ask, Ask, Ask),
    /// Four asks.
    Four(Ask, Ask, Ask, Ask),
}

impl Asks {
    /// How many asks there are, at most 4.
    pub fn len(self) -> usize
        ensures { result ≡ length (asks_of self) }
    {
        match self {
            Asks::Empty => 0,
            Asks::One(..) => 1,
            Asks::Two(..) => 2,
            Asks::Three(..) => 3,
            Asks::Four(..) => 4,
        }
    }

    /// The ask at a place, if there is one.
    pub fn get(self, place: usize) -> Option<Ask>
        ensures { result ≡ slice_get (asks_of self) place }
    {
        match self {
            Asks::Empty => None,
            Asks::One(a) => [a].get(place).copied(),
            Asks::Two(a, b) => [a, b].get(place).copied(),
            Asks::Three(a, b, c) => [a, b, c].get(place).copied(),
            Asks::Four(a, b, c, d) => [a, b, c, d].get(place).copied(),
        }
    }
}

fn asked(kind: Kind, handle: u32) -> Ask
    ensures { result ≡ asked kind handle }
{
    Ask { kind, handle }
}

fn asked_if(kind: Kind, handle: Option<u32>) -> Asks
    ensures { asks_of result ≡ asked_if kind handle }
{
    match handle {
        None => Asks::Empty,
        Some(handle) => Asks::One(asked(kind, handle)),
    }
}

fn asked_with(kind: Kind, handle: u32, more: Kind, other: Option<u32>) -> Asks
    ensures { asks_of result ≡ asked kind handle ∷ asked_if more other }
{
    let first = asked(kind, handle);
    match other {
        None => Asks::One(first),
        Some(other) => Asks::Two(first, asked(more, other)),
    }
}

fn asked_by_pair(pd: u32, send_cq: u32, recv_cq: u32, srq: Option<u32>) -> Asks
    ensures { asks_of result ≡ asked Kind.Pd pd ∷ asked Kind.Cq send_cq ∷ asked Kind.Cq recv_cq ∷ asked_if Kind.Srq srq }
{
    let pd = asked(Kind::Pd, pd);
    let send = asked(Kind::Cq, send_cq);
    let receive = asked(Kind::Cq, recv_cq);
    match srq {
        None => Asks::Three(pd, send, receive),
        Some(srq) => Asks::Four(pd, send, receive, asked(Kind::Srq, srq)),
    }
}

impl Request {
    /// What the request looks at, in the order of its arguments: each handle that it names, but for the one that it
    /// destroys. These are the lookups with the shared lock (`rdma_lookup_get_uobject`).
    pub fn looks(self) -> Asks
        ensures { asks_of result ≡ looks_of self }
    {
        match self {
            Request::AllocPd | Request::CreateChannel | Request::GetAsync => Asks::Empty,
            Request::DeallocPd { .. }
            | Request::DestroyChannel { .. }
            | Request::DestroyCq { .. }
            | Request::DestroyQp { .. }
            | Request::DestroySrq { .. }
            | Request::DestroyAh { .. }
            | Request::DeregMr { .. }
            | Request::DeallocMw { .. } => Asks::Empty,
            Request::CreateCq { channel, .. } => asked_if(Kind::Channel, channel),
            Request::CreateQp {
                pd,
                send_cq,
                recv_cq,
                srq,
                ..
            } => asked_by_pair(pd, send_cq, recv_cq, srq),
            Request::ModifyQp { qp, .. } | Request::QueryQp { qp } => Asks::One(asked(
                Kind::Qp,
                qp,
            )),
            Request::CreateSrq { pd, .. }
            | Request::CreateAh { pd, .. }
            | Request::RegMr { pd, .. }
            | Request::AllocMw { pd } => Asks::One(asked(Kind::Pd, pd)),
            Request::BindMw { mw, mr, .. } => asked_with(Kind::Mw, mw, Kind::Mr, mr),
        }
    }
}

#[cfg(test)]
mod tests {
    use super::*;
    use crate::QpAttrs;
    use std::process::Abort;

    /// What a request looks at: kinds and handles, the first one first.
    type Wanted = [Option<(Kind, u32)>; 4];

    const NOTHING: Wanted = [None, None, None, None];

    const MAKES: [(Request, Wanted); 8] = [
        (Request::AllocPd, NOTHING),
        (Request::CreateChannel, NOTHING),
        (
            Request::CreateCq {
                depth: 9,
                channel: Some(1),
            },
            [Some((Kind::Channel, 1)), None, None, None],
        ),
        (
            Request::CreateQp {
                pd: 1,
                send_cq: 2,
                recv_cq: 3,
                srq: Some(4),
                service: 9,
                send_depth: 9,
                recv_depth: 9,
            },
            [
                Some((Kind::Pd, 1)),
                Some((Kind::Cq, 2)),
                Some((Kind::Cq, 3)),
                Some((Kind::Srq, 4)),
            ],
        ),
        (
            Request::CreateSrq { pd: 1, depth: 9 },
            [Some((Kind::Pd, 1)), None, None, None],
        ),
        (
            Request::CreateAh { pd: 1, device: 9 },
            [Some((Kind::Pd, 1)), None, None, None],
        ),
        (
            Request::RegMr {
                pd: 1,
                length: 9,
                access: 9,
            },
            [Some((Kind::Pd, 1)), None, None, None],
        ),
        (
            Request::AllocMw { pd: 1 },
            [Some((Kind::Pd, 1)), None, None, None],
        ),
    ];

    const DESTROYS: [Request; 8] = [
        Request::DeallocPd { pd: 1 },
        Request::DestroyChannel { channel: 1 },
        Request::DestroyCq { cq: 1 },
        Request::DestroyQp { qp: 1 },
        Request::DestroySrq { srq: 1 },
        Request::DestroyAh { ah: 1 },
        Request::DeregMr { mr: 1 },
        Request::DeallocMw { mw: 1 },
    ];

    /// The requests whose optional handle isn't given.
    const SHORT: [(Request, Wanted); 3] = [
        (
            Request::CreateCq {
                depth: 9,
                channel: None,
            },
            NOTHING,
        ),
        (
            Request::CreateQp {
                pd: 1,
                send_cq: 2,
                recv_cq: 3,
                srq: None,
                service: 9,
                send_depth: 9,
                recv_depth: 9,
            },
            [
                Some((Kind::Pd, 1)),
                Some((Kind::Cq, 2)),
                Some((Kind::Cq, 3)),
                None,
            ],
        ),
        (
            Request::BindMw {
                mw: 1,
                mr: None,
                offset: 9,
                length: 9,
                access: 9,
            },
            [Some((Kind::Mw, 1)), None, None, None],
        ),
    ];

    fn looks_at(rt: &impl Abort, request: Request, wanted: Wanted) {
        let looks = request.looks();
        for (place, ask) in wanted.iter().enumerate() {
            let wanted = ask.map(|(kind, handle)| Ask { kind, handle });
            assert_eq!(rt; looks.get(place), wanted);
        }
        assert_eq!(rt; looks.get(wanted.len()), None);
    }

    #[test]
    fn creates_look_at_what_they_will_use(rt: HostRuntime) {
        for (request, wanted) in MAKES.iter() {
            looks_at(&rt, *request, *wanted);
        }
    }

    #[test]
    fn handles_that_are_not_given_are_not_looked_at(rt: HostRuntime) {
        for (request, wanted) in SHORT.iter() {
            looks_at(&rt, *request, *wanted);
        }
    }

    #[test]
    fn destroys_look_at_nothing(rt: HostRuntime) {
        for request in DESTROYS.iter() {
            looks_at(&rt, *request, NOTHING);
            assert_eq!(rt; request.looks().len(), 0);
        }
    }

    #[test]
    fn what_acts_looks_at_what_it_acts_on(rt: HostRuntime) {
        let bind = Request::BindMw {
            mw: 1,
            mr: Some(2),
            offset: 9,
            length: 9,
            access: 9,
        };
        let modify = Request::ModifyQp {
            qp: 1,
            to: 9,
            attrs: QpAttrs::none(),
        };
        let pair = [Some((Kind::Qp, 1)), None, None, None];
        looks_at(&rt, modify, pair);
        looks_at(&rt, Request::QueryQp { qp: 1 }, pair);
        looks_at(&rt, Request::GetAsync, NOTHING);
        looks_at(
            &rt,
            bind,
            [Some((Kind::Mw, 1)), Some((Kind::Mr, 2)), None, None],
        );
        assert_eq!(rt; bind.looks().len(), 2);
    }
}
