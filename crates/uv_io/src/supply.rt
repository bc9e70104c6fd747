//! Bytes that are given from the front.
ghost use Rattle.std.specs.Prelude.{◌≡◌, ◌++◌, min, length, take};

use std::marker::Model;
use uv_num::Bytes;

/// Bytes that are given from the front, which contracts see as the bytes left.
#[derive(Drop)]
pub struct Supply {
    bytes: Bytes,
    at: usize,
}

impl Model for Supply {
    ghost use Rattle.std.specs.Prelude.{ℕ, List, ◌≤◌, length, drop};

    ghost Value = { List ℕ };

    ghost view = { λ s. drop s.at s.bytes.bytes };

    ghost invariant = { λ s. s.at ≤ length s.bytes.bytes };
}

impl Supply {
    pub fn new(bytes: Bytes) -> Supply
        ensures { result ≡ bytes.bytes }
    {
        Supply { bytes, at: 0 }
    }

    /// Gives the first bytes left, as many as there are and the buffer has places.
    pub fn give(&mut self, buf: &mut [u8]) -> usize
        ensures count { result ≡ min (length buf.old) (length self.old) }
        ensures bytes { self.old ≡ take result buf.new ++ self.new }
    {
        let count = copy_front(&self.bytes.as_slice()[self.at..], buf);
        self.at += count;
        count
    }
}

/// Copies the first bytes, as many as there are and the buffer has places.
fn copy_front(from: &[u8], buf: &mut [u8]) -> usize
    ensures count { result ≡ min (length buf.old) (length from.now) }
    ensures bytes { take result buf.new ≡ take result from.now }
{
    let count = buf.len().min(from.len());
    buf[..count].copy_from_slice(&from[..count]);
    count
}
