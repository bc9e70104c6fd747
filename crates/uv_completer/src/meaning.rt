//! What a packet says to the requester.

ghost use Rattle.std.specs.Prelude.{◌≡◌};
ghost use Rattle.uv_packet.specs.Packets.{content_of};
ghost use Rattle.uv_completer.specs.declared.meaning.Meaning.TheVariants as Meaning;
ghost use Rattle.uv_completer.specs.Meanings.{aeth_meaning, meaning_of, opcode_meaning};

use uv_packet::{Aeth, Opcode, Packet, Syndrome, told_by};

/// What a packet says to the requester.
#[derive(Clone, Copy, Debug, PartialEq, Eq)]
pub enum Meaning {
    /// Nothing.
    Nothing,
    /// What became of a request.
    Tells(Syndrome),
    /// Bytes of a read.
    Returned {
        /// Whether they are the first of those that were asked for.
        first: bool,
        /// Whether they are the last.
        last: bool,
    },
}

/// What a packet says: an acknowledge what its syndrome says, and a response to a read by its opcode alone. A request says
/// nothing.
pub(crate) fn meaning_of(packet: &Packet) -> Meaning
    ensures { result ≡ meaning_of (content_of packet.now) }
{
    match Opcode::from_number(packet.opcode) {
        None => Meaning::Nothing,
        Some(opcode) => opcode_meaning(opcode, packet.aeth),
    }
}

fn opcode_meaning(opcode: Opcode, aeth: Option<Aeth>) -> Meaning
    ensures { result ≡ opcode_meaning opcode aeth }
{
    match opcode {
        Opcode::ReadResponseFirst => returned(true, false),
        Opcode::ReadResponseMiddle => returned(false, false),
        Opcode::ReadResponseLast => returned(false, true),
        Opcode::ReadResponseOnly => returned(true, true),
        Opcode::Acknowledge => aeth_meaning(aeth),
        Opcode::SendFirst
        | Opcode::SendMiddle
        | Opcode::SendLast
        | Opcode::SendLastWithImmediate
        | Opcode::SendOnly
        | Opcode::SendOnlyWithImmediate
        | Opcode::WriteFirst
        | Opcode::WriteMiddle
        | Opcode::WriteLast
        | Opcode::WriteLastWithImmediate
        | Opcode::WriteOnly
        | Opcode::WriteOnlyWithImmediate
        | Opcode::ReadRequest
        | Opcode::SendLastWithInvalidate
        | Opcode::SendOnlyWithInvalidate
        | Opcode::UdSendOnly
        | Opcode::UdSendOnlyWithImmediate => Meaning::Nothing,
    }
}

fn returned(first: bool, last: bool) -> Meaning
    ensures { result ≡ Meaning.Returned first last }
{
    Meaning::Returned { first, last }
}

fn aeth_meaning(aeth: Option<Aeth>) -> Meaning
    ensures { result ≡ aeth_meaning aeth }
{
    match aeth {
        None => Meaning::Nothing,
        Some(aeth) => Meaning::Tells(told_by(aeth.syndrome)),
    }
}
