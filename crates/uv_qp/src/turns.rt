//! What comes of a turn.

ghost use Rattle.std.specs.Prelude.{◌≡◌};
ghost use Rattle.uv_qp.specs.TurnWords.{turn_word_name};

use uv_num::List;
use uv_packet::Packet;
use uv_wr::Completion;

/// The word for what a turn did. This project's own.
#[derive(Clone, Copy, Debug, PartialEq, Eq)]
pub enum TurnWord {
    /// A response packet of a read went out.
    Answered,
    /// The queue pair broke at a work, a read that it answered, or its last resend.
    Failed,
    /// A work of a broken queue pair was flushed.
    Flushed,
    /// A request packet went out.
    Sent,
    /// What the action needs isn't live.
    Dead,
    /// A packet that means nothing here.
    Dropped,
    /// A request that came before.
    Duplicate,
    /// A request whose PSN is ahead.
    Sequence,
    /// A request that is refused as invalid.
    Invalid,
    /// A request that finds no receive.
    NotReady,
    /// A request that a region refuses.
    Access,
    /// A message whose receive can't be filled.
    Operation,
    /// A request that was carried out.
    Accepted,
    /// A response that nothing waits for.
    Ignored,
    /// An acknowledge.
    Acked,
    /// A NAK.
    Nak,
    /// A response packet of a read.
    Response,
    /// A requester that waited goes on.
    Woken,
    /// A requester sends again.
    Resent,
}

impl TurnWord {
    /// The word, as reports print it.
    pub fn name(self) -> &'static str
        ensures { result.now ≡ turn_word_name self }
    {
        match self {
            TurnWord::Answered => "answered",
            TurnWord::Failed => "failed",
            TurnWord::Flushed => "flushed",
            TurnWord::Sent => "sent",
            TurnWord::Dead => "dead",
            TurnWord::Dropped => "dropped",
            TurnWord::Duplicate => "duplicate",
            TurnWord::Sequence => "sequence",
            TurnWord::Invalid => "invalid",
            TurnWord::NotReady => "notready",
            TurnWord::Access => "access",
            TurnWord::Operation => "operation",
            TurnWord::Accepted => "accepted",
            TurnWord::Ignored => "ignored",
            TurnWord::Acked => "acked",
            TurnWord::Nak => "nak",
            TurnWord::Response => "response",
            TurnWord::Woken => "woken",
            TurnWord::Resent => "resent",
        }
    }
}

/// What came of a turn.
#[derive(Debug, Drop)]
pub enum TurnDone {
    /// It was made.
    Turned {
        /// What it did.
        word: TurnWord,
        /// The device that the packets go to, 0 where there is none.
        to: u32,
        /// The packets that go out, in order.
        packets: List<Packet>,
        /// How works ended, in order, as the lists of the queue pair tell too.
        completions: List<Completion>,
    },
    /// There was nothing to do.
    Idle,
    /// Out of memory. Nothing has changed.
    NoMemory,
}
