//! Access rights as sets.

ghost use Rattle.std.specs.Prelude.{⊤, ◌≡◌, [], ◌∷◌, codes};
ghost use Rattle.uv_num.specs.declared.access.TheConstants.{ACCESS_LOCAL_WRITE, ACCESS_REMOTE_WRITE, ACCESS_REMOTE_READ, ACCESS_REMOTE_ATOMIC, ACCESS_MW_BIND};
ghost use Rattle.uv_region.specs.Refusals.{region_gives, window_gives};

use crate::action::Access;
use bitflags::{Flag, Flags, bitflag_items};
use uv_num::{
    ACCESS_LOCAL_WRITE, ACCESS_MW_BIND, ACCESS_REMOTE_ATOMIC, ACCESS_REMOTE_READ,
    ACCESS_REMOTE_WRITE,
};

/// The rights of a region or of a window: a set of the bits of `enum ib_access_flags` of Linux (`rdma/ib_verbs.h`).
/// Bits beyond the five that are named are kept, without effect.
#[derive(Clone, Copy, Debug, PartialEq, Eq)]
pub struct Rights(pub u8);

bitflag_items! {
    impl Rights: u8 {
        const LOCAL_WRITE = ACCESS_LOCAL_WRITE as u8;
        const REMOTE_WRITE = ACCESS_REMOTE_WRITE as u8;
        const REMOTE_READ = ACCESS_REMOTE_READ as u8;
        const REMOTE_ATOMIC = ACCESS_REMOTE_ATOMIC as u8;
        const MW_BIND = ACCESS_MW_BIND as u8;
    }
}

impl Flags for Rights {
    type Bits = u8;

    ghost exact = { ⊤ };

    ghost table = { (codes "LOCAL_WRITE", ACCESS_LOCAL_WRITE)
        ∷ (codes "REMOTE_WRITE", ACCESS_REMOTE_WRITE)
        ∷ (codes "REMOTE_READ", ACCESS_REMOTE_READ)
        ∷ (codes "REMOTE_ATOMIC", ACCESS_REMOTE_ATOMIC)
        ∷ (codes "MW_BIND", ACCESS_MW_BIND) ∷ [] };

    ghost set_of = { λ r. r.0 };

    fn flags<'a>() -> &'a [Flag<Rights>] {
        Rights::FLAGS
    }

    fn bits(&self) -> u8 {
        self.0
    }

    fn from_bits_retain(bits: u8) -> Rights {
        Rights(bits)
    }
}

impl Rights {
    /// Whether a region with these rights gives an access. A local read needs no right.
    pub(crate) fn gives(self, kind: Access) -> bool
        ensures { result ≡ region_gives self kind }
    {
        match kind {
            Access::LocalRead => true,
            Access::LocalWrite => self.contains(Rights::LOCAL_WRITE),
            Access::RemoteRead => self.contains(Rights::REMOTE_READ),
            Access::RemoteWrite => self.contains(Rights::REMOTE_WRITE),
        }
    }

    /// Whether a window with these rights gives an access. It gives no local one.
    pub(crate) fn gives_through_window(self, kind: Access) -> bool
        ensures { result ≡ window_gives self kind }
    {
        match kind {
            Access::LocalRead | Access::LocalWrite => false,
            Access::RemoteRead => self.contains(Rights::REMOTE_READ),
            Access::RemoteWrite => self.contains(Rights::REMOTE_WRITE),
        }
    }
}
