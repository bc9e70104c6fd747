//! What each row of the table does, as plain data.

ghost use Rattle.std.specs.Prelude.{◌≡◌, ◌≤◌, ◌+◌, length, IfSome};
ghost use Rattle.uv_packet.specs.Packets.{content_of};
ghost use Rattle.uv_qp.specs.Pairs.{IsMessage, IsResponding};
ghost use Rattle.uv_responder.specs.declared.judging.Judgement.TheVariants as Judgement;
ghost use Rattle.uv_responder.specs.Judging.{bytes_got};
ghost use Rattle.uv_responder.specs.Passing.{IsReadable};
ghost use Rattle.uv_responder.specs.Plans.{accepting, asking_once, bytes_written, ended_by, some_ending, failing_receive, gone_on, message_begun, row_plan, psns_of, reading_begun, reading_from, refusing, rereading, saying, write_begins, write_goes_on};

use crate::answering::{Told, psn_before, telling, telling_if};
use crate::judging::{Judgement, bytes_got, reth_of, takes_receive};
use crate::part::{Asks, Part};
use uv_num::PSNS;
use uv_packet::{ACK, NAK_ACCESS, NAK_INVALID, NAK_OPERATION, NAK_SEQUENCE, Packet, RNR};
use uv_qp::{Message, Qp, Reading, Responder, TurnWord, packets_in};
use uv_wr::Status;

/// How a receive ends.
#[derive(Clone, Copy, Debug, PartialEq, Eq)]
pub(crate) struct Ending {
    /// Its status.
    pub status: Status,
    /// The length of the message, 0 where it failed.
    pub length: u32,
    /// The immediate of the message, if it has one.
    pub imm: Option<u32>,
}

/// What a row does.
#[derive(Clone, Copy, Debug, PartialEq, Eq)]
pub(crate) struct Plan {
    /// The word for it.
    pub word: TurnWord,
    /// What is answered, if anything.
    pub told: Option<Told>,
    /// Whether a receive is taken from its queue.
    pub takes: bool,
    /// Whether the payload is written.
    pub writes: bool,
    /// Whether the queue pair breaks.
    pub breaks: bool,
    /// How the receive of the message ends, if it does.
    pub ends: Option<Ending>,
    /// Where the responder stands then. Answers have its MSN.
    pub responder: Responder,
}

/// How many PSNs an accepted packet takes.
fn psns_of(asks: Asks, packet: &Packet, qp: &Qp) -> u32
    requires { IsReadable asks (content_of packet.now) }
    ensures psns { result ≡ psns_of asks (content_of packet.now) qp.now }
    ensures few { result ≤ 64 }
{
    match asks {
        Asks::Reads => packets_in(qp.mtu(), reth_of(packet).length),
        Asks::Sends | Asks::Writes | Asks::Invalidates => 1,
    }
}

fn write_goes_on(message: Option<Message>, size: u32) -> Option<Message>
    requires message { IfSome message IsMessage }
    requires size { size ≤ 4096 }
    ensures { result ≡ write_goes_on message size }
{
    match message {
        Some(Message::Write { key, at, got, left }) => Some(Message::Write {
            key,
            at,
            got: got + size,
            left: left.saturating_sub(size),
        }),
        Some(Message::Send { .. }) | None => None,
    }
}

fn write_begins(packet: &Packet) -> Option<Message>
    requires { length packet.now.payload.bytes ≤ 4096 }
    ensures { result ≡ write_begins (content_of packet.now) }
{
    let reth = reth_of(packet);
    let size = packet.payload.len() as u32;
    Some(Message::Write {
        key: reth.key,
        at: reth.at,
        got: size,
        left: reth.length.saturating_sub(size),
    })
}

fn send_goes_on(message: Option<Message>, size: u32) -> u32
    requires message { IfSome message IsMessage }
    requires size { size ≤ 4096 }
    ensures { result ≡ bytes_got message + size }
{
    match message {
        Some(Message::Send { got }) => got + size,
        Some(Message::Write { .. }) | None => size,
    }
}

fn write_length(message: Option<Message>, size: u32) -> u32
    requires message { IfSome message IsMessage }
    requires size { size ≤ 4096 }
    ensures { result ≡ bytes_written message + size }
{
    match message {
        Some(Message::Write { got, .. }) => got + size,
        Some(Message::Send { .. }) | None => size,
    }
}

/// The message that is in progress after a packet that isn't its last.
fn message_begun(part: Part, packet: &Packet, responder: Responder) -> Option<Message>
    requires size { length packet.now.payload.bytes ≤ 4096 }
    requires ranges { IsResponding responder }
    ensures { result ≡ message_begun part part.asks (content_of packet.now) responder }
{
    let size = packet.payload.len() as u32;
    match part.asks {
        Asks::Sends => Some(Message::Send {
            got: send_goes_on(responder.message, size),
        }),
        Asks::Writes => {
            if part.first {
                write_begins(packet)
            } else {
                write_goes_on(responder.message, size)
            }
        }
        Asks::Reads | Asks::Invalidates => None,
    }
}

fn reading_from(packet: &Packet) -> Reading
    ensures { result ≡ reading_from (content_of packet.now) }
{
    let reth = reth_of(packet);
    Reading {
        key: reth.key,
        at: reth.at,
        length: reth.length,
        psn: packet.psn,
        sent: 0,
    }
}

fn reading_begun(asks: Asks, packet: &Packet, responder: Responder) -> Option<Reading>
    ensures { result ≡ reading_begun asks (content_of packet.now) responder }
{
    match asks {
        Asks::Reads => Some(reading_from(packet)),
        Asks::Sends | Asks::Writes | Asks::Invalidates => responder.reading,
    }
}

/// Where the responder stands after a packet that is accepted.
fn gone_on(part: Part, packet: &Packet, qp: &Qp) -> Responder
    requires size { length packet.now.payload.bytes ≤ 4096 }
    requires readable { IsReadable part.asks (content_of packet.now) }
    ensures { result ≡ gone_on part (content_of packet.now) qp.now }
{
    let responder = qp.responder();
    Responder {
        expected: (responder.expected + psns_of(part.asks, packet, qp)) % PSNS as u32,
        msn: if part.last {
            (responder.msn + 1) % PSNS as u32
        } else {
            responder.msn
        },
        told: false,
        message: if part.last {
            None
        } else {
            message_begun(part, packet, responder)
        },
        reading: reading_begun(part.asks, packet, responder),
    }
}

pub(crate) fn some_ending(status: Status, length: u32, imm: Option<u32>) -> Option<Ending>
    ensures { result ≡ some_ending status length imm }
{
    Some(Ending {
        status,
        length,
        imm,
    })
}

/// How the receive ends that an accepted packet has, if it does.
fn ended_by(part: Part, packet: &Packet, responder: Responder) -> Option<Ending>
    requires size { length packet.now.payload.bytes ≤ 4096 }
    requires ranges { IsResponding responder }
    ensures { result ≡ ended_by part part.asks (content_of packet.now) responder }
{
    let size = packet.payload.len() as u32;
    match part.asks {
        Asks::Sends => {
            if part.last {
                some_ending(
                    Status::Success,
                    send_goes_on(responder.message, size),
                    packet.imm,
                )
            } else {
                None
            }
        }
        Asks::Writes => {
            if part.last && part.imm {
                some_ending(
                    Status::Success,
                    write_length(responder.message, size),
                    packet.imm,
                )
            } else {
                None
            }
        }
        Asks::Reads | Asks::Invalidates => None,
    }
}

/// Nothing changes but what is told.
pub(crate) fn saying(word: TurnWord, told: Option<Told>, qp: &Qp) -> Plan
    ensures { result ≡ saying word told qp.now }
{
    Plan {
        word,
        told,
        takes: false,
        writes: false,
        breaks: false,
        ends: None,
        responder: qp.responder(),
    }
}

/// The queue pair breaks.
fn refusing(word: TurnWord, syndrome: u8, packet: &Packet, qp: &Qp) -> Plan
    ensures { result ≡ refusing word syndrome (content_of packet.now) qp.now }
{
    Plan {
        breaks: true,
        ..saying(word, telling(syndrome, packet.psn), qp)
    }
}

/// The queue pair breaks, and the receive of the message fails.
fn failing_receive(
    word: TurnWord,
    syndrome: u8,
    status: Status,
    part: Part,
    packet: &Packet,
    qp: &Qp,
) -> Plan
    ensures { result ≡ failing_receive word syndrome status part (content_of packet.now) qp.now }
{
    Plan {
        takes: takes_receive(part),
        ends: some_ending(status, 0, None),
        responder: Responder {
            message: None,
            ..qp.responder()
        },
        ..refusing(word, syndrome, packet, qp)
    }
}

fn accepting(part: Part, packet: &Packet, qp: &Qp) -> Plan
    requires size { length packet.now.payload.bytes ≤ 4096 }
    requires readable { IsReadable part.asks (content_of packet.now) }
    ensures { result ≡ accepting part (content_of packet.now) qp.now }
{
    Plan {
        word: TurnWord::Accepted,
        told: telling_if(packet.ack, ACK, packet.psn),
        takes: takes_receive(part),
        writes: true,
        breaks: false,
        ends: ended_by(part, packet, qp.responder()),
        responder: gone_on(part, packet, qp),
    }
}

/// A read is answered, in place of any other.
fn rereading(packet: &Packet, qp: &Qp) -> Plan
    ensures { result ≡ rereading (content_of packet.now) qp.now }
{
    Plan {
        responder: Responder {
            reading: Some(reading_from(packet)),
            ..qp.responder()
        },
        ..saying(TurnWord::Duplicate, None, qp)
    }
}

/// What is missing is told, once until a packet is accepted.
fn asking_once(qp: &Qp) -> Plan
    ensures { result ≡ asking_once qp.now }
{
    let responder = qp.responder();
    Plan {
        responder: Responder {
            told: true,
            ..responder
        },
        ..saying(
            TurnWord::Sequence,
            telling_if(!responder.told, NAK_SEQUENCE, responder.expected),
            qp,
        )
    }
}

/// What a row does.
pub(crate) fn row_plan(judgement: Judgement, part: Part, packet: &Packet, qp: &Qp) -> Plan
    requires size { length packet.now.payload.bytes ≤ 4096 }
    requires readable { judgement ≡ Judgement.Accepted → IsReadable part.asks (content_of packet.now) }
    ensures { result ≡ row_plan judgement part (content_of packet.now) qp.now }
{
    match judgement {
        Judgement::Duplicate => {
            let before = psn_before(qp.responder().expected);
            saying(TurnWord::Duplicate, telling_if(packet.ack, ACK, before), qp)
        }
        Judgement::Reread => rereading(packet, qp),
        Judgement::Stale => saying(TurnWord::Dropped, None, qp),
        Judgement::Ahead => asking_once(qp),
        Judgement::Busy => saying(TurnWord::Dropped, None, qp),
        Judgement::Invalid => refusing(TurnWord::Invalid, NAK_INVALID, packet, qp),
        Judgement::NotReady => {
            let told = telling(RNR + qp.rnr_timer(), packet.psn);
            saying(TurnWord::NotReady, told, qp)
        }
        Judgement::Denied => refusing(TurnWord::Access, NAK_ACCESS, packet, qp),
        Judgement::TooLong => failing_receive(
            TurnWord::Invalid,
            NAK_INVALID,
            Status::LocLenErr,
            part,
            packet,
            qp,
        ),
        Judgement::Unplaced => failing_receive(
            TurnWord::Operation,
            NAK_OPERATION,
            Status::LocProtErr,
            part,
            packet,
            qp,
        ),
        Judgement::Accepted => accepting(part, packet, qp),
    }
}
