//! What the bits of a BTH's bytes are worth: the masks of `rxe_hdr.h` in Linux.

/// SE in the second byte, `BTH_SE_MASK`.
pub const SOLICITED: u8 = 128;

/// M in the second byte, `BTH_MIG_MASK`.
pub const MIGRATED: u8 = 64;

/// One byte of pad in the second byte, in `BTH_PAD_MASK`. Below it is the version, `BTH_TVER_MASK`.
pub const PAD: u8 = 16;

/// How many numbers of pad bytes there are: 0 to 3.
pub const PADS: u8 = 4;

/// A in the ninth byte, `BTH_ACK_MASK`.
pub const ACK: u8 = 128;

/// What stands behind the headers, payload and pad, is a multiple of so many bytes.
pub const UNIT: usize = 4;
