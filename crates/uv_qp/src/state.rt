//! The transport state of a queue pair, as plain data.

ghost use Rattle.std.specs.Prelude.{◌≡◌};
ghost use Rattle.uv_qp.specs.Moves.{expecting, starting};

/// What a queue pair is known by.
#[derive(Clone, Copy, Debug, PartialEq, Eq)]
pub struct Names {
    /// The id of its object.
    pub object: u32,
    /// The id of its protection domain.
    pub domain: u32,
    /// The index of its cell, below `CELLS`. Its number is `FIRST_QP_NUMBER` more.
    pub index: u32,
    /// The device that it is of.
    pub device: u32,
}

/// Where a requester stands (`struct rxe_req_info`, `struct rxe_comp_info`, `rxe_verbs.h`). The places count packets from
/// the first packet of the oldest work in the send queue, so no place wraps; Linux has PSNs there. The order is
/// `una`, `next`, `high`, and no place is beyond the last packet of the queue.
#[derive(Clone, Copy, Debug, PartialEq, Eq)]
pub struct Requester {
    /// The PSN of that first packet, below `PSNS`.
    pub base: u32,
    /// The place of the oldest packet that isn't acknowledged (`comp.psn`).
    pub una: u32,
    /// The place of the packet that is sent next (`req.psn`).
    pub next: u32,
    /// One more than the last place that was sent since the queue pair came to RTS. What stands from `una` to here is
    /// outstanding.
    pub high: u32,
    /// The place from which the last read request asked, at most `high`. It tells which of its responses is the first.
    pub asked: u32,
    /// Whether it waits for a tick, since the peer wasn't ready (`req.wait_for_rnr_timer`).
    pub paused: bool,
    /// How many resends for want of an answer are used, at most `MOST_RETRIES`. Linux counts down (`comp.retry_cnt`).
    pub retried: u32,
    /// How many resends for want of a receive at the peer are used, at most `MOST_RETRIES`. Linux counts down
    /// (`comp.rnr_retry`).
    pub unready: u32,
}

/// A message that has begun and hasn't ended.
#[derive(Clone, Copy, Debug, PartialEq, Eq)]
pub enum Message {
    /// A send, of which so many bytes have come. The queue pair holds the receive that it fills.
    Send {
        got: u32,
    },
    /// A write of the region or window of a key, from the place `at` on: so many bytes have come, and so many are left.
    Write {
        key: u32,
        at: u64,
        got: u32,
        left: u32,
    },
}

/// A read that is being answered (`struct resp_res`, `rxe_verbs.h`).
#[derive(Clone, Copy, Debug, PartialEq, Eq)]
pub struct Reading {
    /// The key of the region or window.
    pub key: u32,
    /// The place of the first byte.
    pub at: u64,
    /// The bytes of all responses, at most `WORK_BYTES`.
    pub length: u32,
    /// The PSN of the first response, below `PSNS`.
    pub psn: u32,
    /// How many responses were sent, at most `WORK_PACKETS`.
    pub sent: u32,
}

/// Where a responder stands (`struct rxe_resp_info`, `rxe_verbs.h`).
#[derive(Clone, Copy, Debug, PartialEq, Eq)]
pub struct Responder {
    /// The PSN that is expected next (`resp.psn`), below `PSNS`.
    pub expected: u32,
    /// How many messages have ended (`resp.msn`), modulo `PSNS`.
    pub msn: u32,
    /// Whether a PSN sequence error was told since the last packet that was accepted (`resp.sent_psn_nak`).
    pub told: bool,
    /// The message that is in progress, if one is.
    pub message: Option<Message>,
    /// The read that is being answered, if one is.
    pub reading: Option<Reading>,
}

/// A requester that has sent nothing, and numbers its packets from a PSN on.
pub(crate) fn starting(psn: u32) -> Requester
    ensures { result ≡ starting psn }
{
    Requester {
        base: psn,
        una: 0,
        next: 0,
        high: 0,
        asked: 0,
        paused: false,
        retried: 0,
        unready: 0,
    }
}

/// A responder to which nothing has come, and which expects a PSN.
pub(crate) fn expecting(psn: u32) -> Responder
    ensures { result ≡ expecting psn }
{
    Responder {
        expected: psn,
        msn: 0,
        told: false,
        message: None,
        reading: None,
    }
}
