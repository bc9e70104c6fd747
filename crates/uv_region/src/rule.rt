//! The rules of an access by a key, by name. Each has a key that tells it from every other, and the place whose rule it is.

ghost use Rattle.std.specs.Prelude.{◌≡◌};
ghost use Rattle.uv_region.specs.Rules.{access_key, access_source, tested_rule};

use crate::action::Why;

/// A rule of an access by a key, of a part of a work or of a remote range. What it asks for stands beside its name. They are tried
/// in this order; the last four are the tests of an action on a region.
#[derive(Clone, Copy, Debug, PartialEq, Eq)]
pub enum AccessRule {
    /// A region is live under the key, or a window that is bound to one.
    Unknown,
    /// It lies in the region.
    Bounds,
    /// The region gives the right to it. Not asked of one through a window.
    Right,
    /// The region is of its protection domain.
    Domain,
    /// The window that it comes through has it in its range, gives the right to it, and is of its protection domain.
    Window,
}

impl AccessRule {
    /// Its key: lower-case words and a hyphen.
    pub fn key(self) -> &'static str
        ensures { result.now ≡ access_key self }
    {
        match self {
            AccessRule::Unknown => "key-unknown",
            AccessRule::Bounds => "key-bounds",
            AccessRule::Right => "key-right",
            AccessRule::Domain => "key-domain",
            AccessRule::Window => "key-window",
        }
    }

    /// Whose rule it is: files and functions of Linux, in the folder `drivers/infiniband/sw/rxe`.
    pub fn source(self) -> &'static str
        ensures { result.now ≡ access_source self }
    {
        match self {
            AccessRule::Unknown => "rxe_mr.c, lookup_mr; rxe_mw.c, rxe_lookup_mw",
            AccessRule::Bounds => "rxe_mr.c, mr_check_range",
            AccessRule::Right => "rxe_mr.c, lookup_mr",
            AccessRule::Domain => "rxe_mr.c, lookup_mr",
            AccessRule::Window => "rxe_mw.c, rxe_lookup_mw",
        }
    }
}

/// The rule of a test.
pub(crate) fn tested_rule(why: Why) -> AccessRule
    ensures { result ≡ tested_rule why }
{
    match why {
        Why::Bounds => AccessRule::Bounds,
        Why::Right => AccessRule::Right,
        Why::Domain => AccessRule::Domain,
        Why::Window => AccessRule::Window,
    }
}
