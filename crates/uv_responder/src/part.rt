//! What a request of a connection is a part of.

ghost use Rattle.std.specs.Prelude.{◌≡◌};
ghost use Rattle.uv_responder.specs.Parts.{some_part, part_of};

use uv_packet::Opcode;

/// What a message asks for.
#[derive(Clone, Copy, Debug, PartialEq, Eq)]
pub enum Asks {
    /// That its bytes go to the next receive.
    Sends,
    /// That its bytes go to a range that it names.
    Writes,
    /// That it be told the bytes of a range that it names.
    Reads,
    /// As a send, and that a key be invalid from then on. It isn't done here.
    Invalidates,
}

/// What a packet is of its message. A read is a message of one packet.
#[derive(Clone, Copy, Debug, PartialEq, Eq)]
pub struct Part {
    /// What the message asks for.
    pub asks: Asks,
    /// Whether the message begins with it.
    pub first: bool,
    /// Whether the message ends with it.
    pub last: bool,
    /// Whether it has an immediate.
    pub imm: bool,
}

fn some_part(asks: Asks, first: bool, last: bool, imm: bool) -> Option<Part>
    ensures { result ≡ some_part asks first last imm }
{
    Some(Part {
        asks,
        first,
        last,
        imm,
    })
}

/// The part that a request of an opcode is; None exactly where the opcode is a response or a datagram (IBA volume 1, 9.2.1;
/// `rxe_opcode.c`).
pub fn part_of(opcode: Opcode) -> Option<Part>
    ensures { result ≡ part_of opcode }
{
    match opcode {
        Opcode::SendFirst => some_part(Asks::Sends, true, false, false),
        Opcode::SendMiddle => some_part(Asks::Sends, false, false, false),
        Opcode::SendLast => some_part(Asks::Sends, false, true, false),
        Opcode::SendLastWithImmediate => some_part(Asks::Sends, false, true, true),
        Opcode::SendOnly => some_part(Asks::Sends, true, true, false),
        Opcode::SendOnlyWithImmediate => some_part(Asks::Sends, true, true, true),
        Opcode::WriteFirst => some_part(Asks::Writes, true, false, false),
        Opcode::WriteMiddle => some_part(Asks::Writes, false, false, false),
        Opcode::WriteLast => some_part(Asks::Writes, false, true, false),
        Opcode::WriteLastWithImmediate => some_part(Asks::Writes, false, true, true),
        Opcode::WriteOnly => some_part(Asks::Writes, true, true, false),
        Opcode::WriteOnlyWithImmediate => some_part(Asks::Writes, true, true, true),
        Opcode::ReadRequest => some_part(Asks::Reads, true, true, false),
        Opcode::SendLastWithInvalidate => some_part(Asks::Invalidates, false, true, false),
        Opcode::SendOnlyWithInvalidate => some_part(Asks::Invalidates, true, true, false),
        Opcode::ReadResponseFirst
        | Opcode::ReadResponseMiddle
        | Opcode::ReadResponseLast
        | Opcode::ReadResponseOnly
        | Opcode::Acknowledge
        | Opcode::UdSendOnly
        | Opcode::UdSendOnlyWithImmediate => None,
    }
}
