//! The syndromes of acknowledges: IBA volume 1, 9.7.5.1 and 9.7.5.2.

ghost use Rattle.std.specs.Prelude.{◌≡◌};
ghost use Rattle.uv_packet.specs.Syndromes.{nak_told, syndrome_told};

/// The syndrome of an acknowledge, with no limit of credits (`AETH_ACK_UNLIMITED`, `rxe_hdr.h`).
pub const ACK: u8 = 0x1f;

/// The syndrome of a receiver that isn't ready, to which the code of the wait is added (`AETH_RNR_NAK`, `rxe_hdr.h`).
pub const RNR: u8 = 0x20;

/// The syndrome of a PSN sequence error (`AETH_NAK_PSN_SEQ_ERROR`, `rxe_hdr.h`).
pub const NAK_SEQUENCE: u8 = 0x60;

/// The syndrome of an invalid request (`AETH_NAK_INVALID_REQ`, `rxe_hdr.h`).
pub const NAK_INVALID: u8 = 0x61;

/// The syndrome of a remote access error (`AETH_NAK_REM_ACC_ERR`, `rxe_hdr.h`).
pub const NAK_ACCESS: u8 = 0x62;

/// The syndrome of a remote operational error (`AETH_NAK_REM_OP_ERR`, `rxe_hdr.h`).
pub const NAK_OPERATION: u8 = 0x63;

/// What a syndrome tells (`check_ack`, `rxe_comp.c`).
#[derive(Clone, Copy, Debug, PartialEq, Eq)]
pub enum Syndrome {
    /// All up to the packet has come.
    Acknowledged,
    /// The packet found no receive. The wait that is asked for isn't told here, since nothing measures time.
    NotReady,
    /// A packet before it is missing.
    Sequence,
    /// The request is refused as invalid.
    Invalid,
    /// A region refuses the request.
    Access,
    /// The responder couldn't carry it out.
    Operation,
    /// A kind or a code that is ignored. This project's own: to `rxe` it is an error.
    Unknown,
}

/// What a syndrome tells: bits 6 and 5 are its kind, and bits 4 to 0 the code of a NAK. Bit 7 is ignored, which is this
/// project's own.
pub fn told_by(syndrome: u8) -> Syndrome
    ensures { result ≡ syndrome_told syndrome }
{
    let kind = syndrome / 32 % 4;
    if kind == 0 {
        Syndrome::Acknowledged
    } else if kind == 1 {
        Syndrome::NotReady
    } else if kind == 3 {
        nak_told(syndrome % 32)
    } else {
        Syndrome::Unknown
    }
}

fn nak_told(code: u8) -> Syndrome
    ensures { result ≡ nak_told code }
{
    if code == 0 {
        Syndrome::Sequence
    } else if code == 1 {
        Syndrome::Invalid
    } else if code == 2 {
        Syndrome::Access
    } else if code == 3 {
        Syndrome::Operation
    } else {
        Syndrome::Unknown
    }
}
