//! What an object is known by.

ghost use Rattle.std.specs.Prelude.{◌≡◌};
ghost use Rattle.uv_graph.specs.Lives.{as_made, identity_of};

use uv_machine::Object;
use uv_num::{Identity, Ids};

/// What an object is known by that used these when it was made. This project's own.
pub(crate) fn as_made(x: Object, uses: Ids) -> Identity
    ensures { result ≡ as_made uses x }
{
    Identity {
        id: x.id,
        kind: x.kind,
        request: x.request,
        uses,
    }
}

/// What a new object is known by: what its cell is planted for. Whatever the object uses later, it stays known so. This
/// project's own.
pub fn identity_of(x: Object) -> Identity
    ensures { result ≡ identity_of x }
{
    as_made(x, x.uses)
}
