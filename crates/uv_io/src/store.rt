//! Bytes with an end to their room.
ghost use Rattle.std.specs.Prelude.{◌≡◌, [], ◌++◌, ◌-◌, ◌≤◌, min, length, take, IfOk};

use std::alloc::{AllocError, Global};
use std::marker::Model;

/// Bytes with an end to their room, all of which they have from the making on.
#[derive(Drop)]
pub struct Store {
    bytes: Vec<u8>,
    room: usize,
}

impl Model for Store {
    ghost use Rattle.std.specs.Prelude.{◌≤◌, vec_len};
    ghost use Rattle.std.specs.Vec.{vec_capacity};
    ghost use Rattle.uv_io.specs.Memory.{Bounded};

    ghost Value = { Bounded };

    ghost view = { λ s. record { bytes = s.bytes.items; room = s.room } };

    ghost invariant = { λ s. (vec_len s.bytes ≤ s.room) × (s.room ≤ vec_capacity s.bytes) };
}

impl Store {
    pub fn new(alloc: Global, room: usize) -> Result<Store, AllocError>
        ensures { IfOk result (λ s. s ≡ record { bytes = []; room = room }) }
    {
        Ok(Store {
            bytes: Vec::with_capacity(alloc, room)?,
            room,
        })
    }

    pub fn bytes(&self) -> &[u8]
        ensures { result.now ≡ self.now.bytes }
    {
        self.bytes.as_slice()
    }

    /// Takes the first bytes of a piece, as many as there is room for. It takes no memory.
    pub fn take(&mut self, piece: &[u8]) -> usize
        ensures count { result ≡ min (length piece.now) (self.old.room - length self.old.bytes) }
        ensures bytes { self.new ≡ record self.old { bytes = self.old.bytes ++ take result piece.now } }
        ensures within { length self.new.bytes ≤ self.new.room }
    {
        let count = piece.len().min(self.room - self.bytes.len());
        match self.bytes.extend_from_slice(&piece[..count]) {
            Ok(()) => count,
            Err(_) => unreachable!(),
        }
    }
}
