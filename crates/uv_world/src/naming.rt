//! Names and links, which contents get as they are planted.

ghost use Rattle.std.specs.Prelude.{◌≡◌, ◌<◌, []};
ghost use Rattle.uv_num.specs.declared.limits.TheConstants.{CELLS};
ghost use Rattle.uv_world.specs.Moving.{region_named, window_named, ring_linked, shared_named, pair_linked, address_named};
ghost use Rattle.uv_world.specs.Owing.{IsUnusedPair};

use crate::content::{Addressed, Belled, Connected, Shared, Windowed};
use uv_machine::Spot;
use uv_region::Region;

pub(crate) fn region_named(region: Region, spot: Spot) -> Region
    requires { region.actions ≡ [] }
    ensures { result ≡ region_named spot region }
{
    let mut region = region;
    region.name(spot.object, spot.domain);
    region
}

pub(crate) fn window_named(window: Windowed, spot: Spot) -> Windowed
    ensures { result ≡ window_named spot window }
{
    Windowed {
        object: spot.object,
        domain: spot.domain,
        bound: window.bound,
    }
}

pub(crate) fn ring_linked(ring: Belled, spot: Spot) -> Belled
    ensures { result ≡ ring_linked spot ring }
{
    Belled {
        ring: ring.ring,
        channel: spot.links.channel,
    }
}

pub(crate) fn shared_named(queue: Shared, spot: Spot) -> Shared
    ensures { result ≡ shared_named spot queue }
{
    let Shared {
        object: _,
        domain: _,
        works,
        posted,
    } = queue;
    Shared {
        object: spot.object,
        domain: spot.domain,
        works,
        posted,
    }
}

pub(crate) fn pair_linked(pair: Connected, spot: Spot) -> Connected
    requires cell { spot.index < CELLS }
    requires unused { IsUnusedPair pair.qp }
    ensures { result ≡ pair_linked spot pair }
{
    let mut qp = pair.qp;
    qp.name(spot.object, spot.domain, spot.index, spot.device);
    Connected {
        qp,
        send: spot.links.send,
        receive: spot.links.receive,
        shared: spot.links.shared,
    }
}

pub(crate) fn address_named(ah: Addressed, spot: Spot) -> Addressed
    ensures { result ≡ address_named spot ah }
{
    Addressed {
        object: spot.object,
        domain: spot.domain,
        device: ah.device,
    }
}
