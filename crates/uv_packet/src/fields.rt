//! Big-endian numbers at their places in bytes.

ghost use Rattle.std.specs.Prelude.{◌≡◌, ◌+◌, ◌^◌, ◌<◌, ◌≤◌, [], ◌∷◌, ◌++◌, length};
ghost use Rattle.byteorder.specs.Endian.{big_bytes};
ghost use Rattle.uv_packet.specs.Fields.{field};
ghost use Rattle.uv_packet.specs.Room.{KeepsRoom};

use byteorder::{BigEndian, ByteOrder};
use uv_num::Bytes;

/// The number of 2 bytes that begins at a place.
#[tactic(auto, unfolding(crate::specs::Fields::field))]
pub fn u16_at(bytes: &[u8], at: usize) -> u16
    requires { at + 2 ≤ length bytes.now }
    ensures { result ≡ field 2 at bytes.now }
{
    BigEndian::read_u16(&bytes[at..])
}

/// The number of 3 bytes that begins at a place.
#[tactic(auto, unfolding(crate::specs::Fields::field))]
pub fn u24_at(bytes: &[u8], at: usize) -> u32
    requires { at + 3 ≤ length bytes.now }
    ensures { result ≡ field 3 at bytes.now }
{
    BigEndian::read_u24(&bytes[at..])
}

/// The number of 4 bytes that begins at a place.
#[tactic(auto, unfolding(crate::specs::Fields::field))]
pub fn u32_at(bytes: &[u8], at: usize) -> u32
    requires { at + 4 ≤ length bytes.now }
    ensures { result ≡ field 4 at bytes.now }
{
    BigEndian::read_u32(&bytes[at..])
}

/// The number of 8 bytes that begins at a place.
#[tactic(auto, unfolding(crate::specs::Fields::field))]
pub fn u64_at(bytes: &[u8], at: usize) -> u64
    requires { at + 8 ≤ length bytes.now }
    ensures { result ≡ field 8 at bytes.now }
{
    BigEndian::read_u64(&bytes[at..])
}

/// Puts a byte behind the others, for which there is spare.
pub fn put_u8(out: &mut Bytes, byte: u8)
    requires { 1 ≤ out.old.spare }
    ensures bytes { out.new.bytes ≡ out.old.bytes ++ byte ∷ [] }
    ensures spare { out.old.spare ≤ out.new.spare + 1 }
    ensures kept { KeepsRoom out.old out.new }
{
    out.put(byte);
}

/// Puts a number of 2 bytes behind the others, for which there is spare.
pub fn put_u16(out: &mut Bytes, number: u16)
    requires { 2 ≤ out.old.spare }
    ensures fits { number < 2 ^ 16 }
    ensures bytes { out.new.bytes ≡ out.old.bytes ++ big_bytes 2 number }
    ensures spare { out.old.spare ≤ out.new.spare + 2 }
    ensures kept { KeepsRoom out.old out.new }
{
    let mut piece = [0; 2];
    BigEndian::write_u16(&mut piece, number);
    out.put_all(&piece);
}

/// Puts a number of 3 bytes behind the others, for which there is spare.
pub fn put_u24(out: &mut Bytes, number: u32)
    requires fits { number < 2 ^ 24 }
    requires room { 3 ≤ out.old.spare }
    ensures bytes { out.new.bytes ≡ out.old.bytes ++ big_bytes 3 number }
    ensures spare { out.old.spare ≤ out.new.spare + 3 }
    ensures kept { KeepsRoom out.old out.new }
{
    let mut piece = [0; 3];
    BigEndian::write_u24(&mut piece, number);
    out.put_all(&piece);
}

/// Puts a number of 4 bytes behind the others, for which there is spare.
pub fn put_u32(out: &mut Bytes, number: u32)
    requires { 4 ≤ out.old.spare }
    ensures fits { number < 2 ^ 32 }
    ensures bytes { out.new.bytes ≡ out.old.bytes ++ big_bytes 4 number }
    ensures spare { out.old.spare ≤ out.new.spare + 4 }
    ensures kept { KeepsRoom out.old out.new }
{
    let mut piece = [0; 4];
    BigEndian::write_u32(&mut piece, number);
    out.put_all(&piece);
}

/// Puts a number of 8 bytes behind the others, for which there is spare.
pub fn put_u64(out: &mut Bytes, number: u64)
    requires { 8 ≤ out.old.spare }
    ensures fits { number < 2 ^ 64 }
    ensures bytes { out.new.bytes ≡ out.old.bytes ++ big_bytes 8 number }
    ensures spare { out.old.spare ≤ out.new.spare + 8 }
    ensures kept { KeepsRoom out.old out.new }
{
    let mut piece = [0; 8];
    BigEndian::write_u64(&mut piece, number);
    out.put_all(&piece);
}
