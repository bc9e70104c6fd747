//! Pieces of regions.

ghost use Rattle.std.specs.Prelude.{◌≡◌, ◌<◌, ◌^◌, Some};
ghost use Rattle.uv_region.specs.Actions.{plain};
ghost use Rattle.uv_region.specs.Lent.{reached_allows, acting, demanded, via};
ghost use Rattle.uv_region.specs.Refusals.{refusal_by};
ghost use Rattle.uv_region.specs.Registered.{terms_of};

use crate::action::{Access, Action, Demand, Why, Window};
use crate::region::Region;
use uv_num::Bytes;

/// A piece of the region of a key. Its offset is that of a part of a work and of a place in it, or a remote address and
/// what went before, added in numbers that don't wrap: so it may lie beyond every region.
#[derive(Clone, Copy, Debug, PartialEq, Eq)]
pub struct Piece {
    /// The key of the region, or of a window on it.
    pub key: u32,
    /// Where it begins, in bytes from the first one of the region.
    pub offset: u128,
    /// How many bytes it has.
    pub length: u32,
}

/// The first test that an action on a piece fails, where its region is reached through a window. A piece that begins beyond
/// the region is refused before its offset is cut to the 64 bits of an action.
pub(crate) fn refusal(
    region: &Region,
    window: Option<Window>,
    kind: Access,
    piece: Piece,
    domain: u32,
) -> Option<Why>
    ensures { result ≡ refusal_by (terms_of region.now) (demanded kind piece domain window) }
{
    if piece.offset > u128::from(region.length()) {
        return Some(Why::Bounds);
    }
    let demand = Demand {
        kind,
        offset: piece.offset as u64,
        length: piece.length,
        domain,
        window,
    };
    region.refusal(demand)
}

/// Whether a region that is reached through a window lets an action on a piece pass.
pub(crate) fn allows(
    region: &Region,
    window: Option<Window>,
    kind: Access,
    piece: Piece,
    domain: u32,
) -> bool
    ensures { result ≡ reached_allows (Some (region.now, window)) kind piece domain }
{
    refusal(region, window, kind, piece, domain).is_none()
}

/// The action on a piece that lies in a region.
pub(crate) fn action_on(
    kind: Access,
    piece: Piece,
    bytes: Bytes,
    qp: u32,
    domain: u32,
    window: Option<Window>,
) -> Action
    requires { piece.offset < 2 ^ 64 }
    ensures action { plain result ≡ via window (acting kind piece bytes.bytes qp domain) }
{
    Action {
        kind,
        offset: piece.offset as u64,
        length: piece.length,
        bytes,
        qp,
        domain,
        window,
    }
}
