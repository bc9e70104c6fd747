//! What stands at a handle number.

ghost use Rattle.std.specs.Prelude.{◌≡◌};
ghost use Rattle.uv_handles.specs.Table.{is_free, object_of};

/// What stands at a handle number of a file (`rdma_core.c`, an entry of `ufile->idr`).
#[derive(Clone, Copy, Debug, PartialEq, Eq)]
pub enum Slot {
    /// Nothing.
    Free,
    /// The number is set aside for a call whose object isn't published yet: `idr` holds NULL.
    Reserved,
    /// The object with this id is found under the number.
    Published(u32),
}

impl Slot {
    /// Whether nothing stands there.
    pub(crate) fn is_free(self) -> bool
        ensures { result ≡ is_free self }
    {
        match self {
            Slot::Free => true,
            Slot::Reserved | Slot::Published(_) => false,
        }
    }

    /// The object that is published there.
    pub(crate) fn object(self) -> Option<u32>
        ensures { result ≡ object_of self }
    {
        match self {
            Slot::Free | Slot::Reserved => None,
            Slot::Published(object) => Some(object),
        }
    }
}
