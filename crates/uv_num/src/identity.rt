//! What an object is known by.

ghost use Rattle.std.specs.Prelude.{◌≡◌, ◌↔◌, IsTrue};

use crate::{Ids, Kind, Request};

/// What an object is known by, from its making to its release: plain data that pools, guards and histories carry.
/// This project's own.
#[derive(Clone, Copy, Debug, PartialEq, Eq)]
pub struct Identity {
    /// Its number in the order of making, from 0, never used again.
    pub id: u32,
    /// Its kind.
    pub kind: Kind,
    /// The request that made it.
    pub request: Request,
    /// The objects that it uses.
    pub uses: Ids,
}

impl Identity {
    /// Whether the two are equal in every part.
    pub fn is_same(self, other: Identity) -> bool
        ensures { IsTrue result ↔ (self ≡ other) }
    {
        have_same_ids(self, other) && have_same_making(self, other)
    }
}

fn have_same_ids(one: Identity, other: Identity) -> bool
    ensures { IsTrue result ↔ ((one.id ≡ other.id) × (one.uses ≡ other.uses)) }
{
    one.id == other.id && one.uses == other.uses
}

fn have_same_making(one: Identity, other: Identity) -> bool
    ensures { IsTrue result ↔ ((one.kind ≡ other.kind) × (one.request ≡ other.request)) }
{
    one.request.is_same(other.request) && one.kind == other.kind
}

#[cfg(test)]
mod tests {
    use super::*;
    use std::test::Fail;

    #[test]
    fn identities_differ_by_any_part(rt: HostRuntime) -> Result<(), Fail> {
        let one = Identity {
            id: 3,
            kind: Kind::Mr,
            request: Request::AllocPd,
            uses: Ids::one(2),
        };
        let other = Identity {
            uses: Ids::one(1),
            ..one
        };
        let elsewhere = Identity {
            request: Request::AllocMw { pd: 2 },
            ..one
        };
        assert!(rt; one.is_same(one));
        assert!(rt; !one.is_same(other));
        assert!(rt; !one.is_same(elsewhere));
        Ok(())
    }
}
