//! Little-endian numbers at their places in bytes.

ghost use Rattle.std.specs.Prelude.{◌≡◌, ◌+◌, ◌≤◌, ◌++◌, length, OnOk};
ghost use Rattle.std.specs.Int.{w16, w32, w64, to_le_bytes};
ghost use Rattle.uv_attr.specs.Fields.{field_at};

use byteorder::{ByteOrder, LittleEndian};
use std::alloc::AllocError;
use uv_num::Bytes;

/// The number of 2 bytes that begins at a place.
#[tactic(auto, unfolding(crate::specs::Fields::field_at))]
pub fn u16_at(bytes: &[u8], at: usize) -> u16
    requires { at + 2 ≤ length bytes.now }
    ensures { result ≡ field_at w16 at bytes.now }
{
    LittleEndian::read_u16(&bytes[at..])
}

/// The number of 4 bytes that begins at a place.
#[tactic(auto, unfolding(crate::specs::Fields::field_at))]
pub fn u32_at(bytes: &[u8], at: usize) -> u32
    requires { at + 4 ≤ length bytes.now }
    ensures { result ≡ field_at w32 at bytes.now }
{
    LittleEndian::read_u32(&bytes[at..])
}

/// The number of 8 bytes that begins at a place.
#[tactic(auto, unfolding(crate::specs::Fields::field_at))]
pub fn u64_at(bytes: &[u8], at: usize) -> u64
    requires { at + 8 ≤ length bytes.now }
    ensures { result ≡ field_at w64 at bytes.now }
{
    LittleEndian::read_u64(&bytes[at..])
}

/// Puts a number of 2 bytes behind the others.
pub fn put_u16(out: &mut Bytes, number: u16) -> Result<(), AllocError>
    ensures { OnOk result (out.new.bytes ≡ out.old.bytes ++ to_le_bytes w16 number) }
{
    let mut piece = [0; 2];
    LittleEndian::write_u16(&mut piece, number);
    out.extend(&piece)
}

/// Puts a number of 4 bytes behind the others.
pub fn put_u32(out: &mut Bytes, number: u32) -> Result<(), AllocError>
    ensures { OnOk result (out.new.bytes ≡ out.old.bytes ++ to_le_bytes w32 number) }
{
    let mut piece = [0; 4];
    LittleEndian::write_u32(&mut piece, number);
    out.extend(&piece)
}

/// Puts a number of 8 bytes behind the others.
pub fn put_u64(out: &mut Bytes, number: u64) -> Result<(), AllocError>
    ensures { OnOk result (out.new.bytes ≡ out.old.bytes ++ to_le_bytes w64 number) }
{
    let mut piece = [0; 8];
    LittleEndian::write_u64(&mut piece, number);
    out.extend(&piece)
}
