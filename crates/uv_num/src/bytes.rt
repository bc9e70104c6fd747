//! Buffers of bytes.

ghost use Rattle.std.specs.Prelude.{◌≡◌, [], ◌∷◌, ◌++◌, ◌<◌, ◌≤◌, ◌+◌, ◌==◌, length, IfOk, OnOk, OnErr};

use std::alloc::{AllocError, Global};
use std::marker::Model;

/// Bytes, which contracts see beside a number, spare: how many more they take without memory.
#[derive(Debug, Drop)]
pub struct Bytes {
    items: Vec<u8>,
}

impl Model for Bytes {
    ghost use Rattle.std.specs.Prelude.{◌-◌};
    ghost use Rattle.std.specs.Vec.{vec_len, vec_capacity};
    ghost use Rattle.uv_num.specs.Filled.{Filled};

    ghost Value = { Filled };

    ghost view = { λ b. record { bytes = b.items.items; spare = vec_capacity b.items - vec_len b.items } };
}

impl Bytes {
    ghost use Rattle.std.specs.Borrow.{sem};
    ghost use Rattle.uv_num.specs.BytesLending.{lends_bytes};

    /// No bytes, with spare for so many.
    pub fn with_room(alloc: Global, room: usize) -> Result<Bytes, AllocError>
        ensures empty { IfOk result (λ b. b.bytes ≡ []) }
        ensures spare { IfOk result (λ b. room ≤ b.spare) }
    {
        Ok(Bytes {
            items: Vec::with_capacity(alloc, room)?,
        })
    }

    /// A vector's bytes. It takes no memory.
    pub fn from_vec(items: Vec<u8>) -> Bytes
        ensures { result.bytes ≡ items.items }
    {
        Bytes { items }
    }

    /// The vector of the bytes. It takes no memory.
    pub fn into_vec(self) -> Vec<u8>
        ensures { result.items ≡ self.bytes }
    {
        let Bytes { items } = self;
        items
    }

    /// How many bytes there are.
    pub fn len(&self) -> usize
        ensures { result ≡ length self.now.bytes }
    {
        self.items.len()
    }

    /// Whether there are no bytes.
    pub fn is_empty(&self) -> bool
        ensures { result ≡ (length self.now.bytes == 0) }
    {
        self.items.is_empty()
    }

    /// The bytes.
    pub fn as_slice(&self) -> &[u8]
        ensures { result.now ≡ self.now.bytes }
    {
        self.items.as_slice()
    }

    /// The bytes, to be changed in place. Their number stays, and so does the spare.
    pub fn as_mut_slice(&mut self) -> &mut [u8]
        ensures* writes_back { sem 𝓛 (lends_bytes self.entry result) }
        ensures value { result.now ≡ self.old.bytes }
    {
        self.items.as_mut_slice()
    }

    /// Puts a byte behind the others, for which there is spare. It takes no memory.
    pub fn put(&mut self, byte: u8)
        requires { 0 < self.old.spare }
        ensures bytes { self.new.bytes ≡ self.old.bytes ++ byte ∷ [] }
        ensures spare { self.old.spare ≤ self.new.spare + 1 }
    {
        match self.items.push(byte) {
            Ok(()) => {}
            Err(_) => unreachable!(),
        }
    }

    /// Puts a piece behind the bytes, for which there is spare. It takes no memory.
    pub fn put_all(&mut self, piece: &[u8])
        requires { length piece.now ≤ self.old.spare }
        ensures bytes { self.new.bytes ≡ self.old.bytes ++ piece.now }
        ensures spare { self.old.spare ≤ self.new.spare + length piece.now }
    {
        match self.items.extend_from_slice(piece) {
            Ok(()) => {}
            Err(_) => unreachable!(),
        }
    }

    /// Lets all bytes go. They become spare.
    pub fn clear(&mut self)
        ensures bytes { self.new.bytes ≡ [] }
        ensures spare { length self.old.bytes + self.old.spare ≤ self.new.spare }
    {
        self.items.clear();
    }

    /// Puts a byte behind the others. On an error the bytes are as they were.
    pub fn push(&mut self, byte: u8) -> Result<(), AllocError>
        ensures ok { OnOk result (self.new.bytes ≡ self.old.bytes ++ byte ∷ []) }
        ensures err { OnErr result (self.new.bytes ≡ self.old.bytes) }
    {
        self.items.push(byte)?;
        Ok(())
    }

    /// Puts a piece behind the bytes. On an error the bytes are as they were.
    pub fn extend(&mut self, piece: &[u8]) -> Result<(), AllocError>
        ensures ok { OnOk result (self.new.bytes ≡ self.old.bytes ++ piece.now) }
        ensures err { OnErr result (self.new.bytes ≡ self.old.bytes) }
    {
        self.items.extend_from_slice(piece)?;
        Ok(())
    }
}

#[cfg(test)]
mod tests {
    use super::*;
    use std::test::Fail;

    #[test]
    fn bytes_are_put_behind_one_another(rt: HostRuntime) -> Result<(), Fail> {
        let mut bytes = Bytes::with_room(rt.alloc(), 1)?;
        assert!(rt; bytes.is_empty());
        bytes.put(1);
        bytes.push(2)?;
        bytes.extend(&[3, 4])?;
        for byte in bytes.as_mut_slice() {
            *byte ^= 8;
        }
        assert_eq!(rt; bytes.len(), 4);
        assert_eq!(rt; bytes.as_slice(), [9, 10, 11, 12].as_slice());
        Ok(())
    }

    #[test]
    fn bytes_are_put_into_their_spare(rt: HostRuntime) -> Result<(), Fail> {
        let mut bytes = Bytes::with_room(rt.alloc(), 3)?;
        bytes.put_all(&[7, 8]);
        let mut again = Bytes::from_vec(bytes.into_vec());
        assert_eq!(rt; again.len(), 2);
        again.clear();
        assert!(rt; again.is_empty());
        Ok(())
    }
}
