//! What a responder answers.

ghost use Rattle.std.specs.Prelude.{◌≡◌, ◌<◌, ◌+◌, ◌-◌, ◌%◌, IfOk, map};
ghost use Rattle.uv_num.specs.declared.limits.TheConstants.{PSNS};
ghost use Rattle.uv_packet.specs.Packets.{content_of};
ghost use Rattle.uv_responder.specs.Answers.{acknowledge, answer_packets, answers_to, psn_before, telling, telling_if};

use std::alloc::{AllocError, Global};
use uv_num::{Bytes, List, PSNS};
use uv_packet::{Aeth, Opcode, Packet};
use uv_qp::DEFAULT_PKEY;

/// A syndrome, and the PSN that it is told of.
#[derive(Clone, Copy, Debug, PartialEq, Eq)]
pub struct Told {
    /// The syndrome.
    pub syndrome: u8,
    /// The PSN, below `PSNS`.
    pub psn: u32,
}

pub(crate) fn telling(syndrome: u8, psn: u32) -> Option<Told>
    ensures { result ≡ telling syndrome psn }
{
    Some(Told { syndrome, psn })
}

pub(crate) fn telling_if(asked: bool, syndrome: u8, psn: u32) -> Option<Told>
    ensures { result ≡ telling_if asked syndrome psn }
{
    if asked { telling(syndrome, psn) } else { None }
}

/// The PSN before another.
pub(crate) fn psn_before(psn: u32) -> u32
    requires { psn < PSNS }
    ensures { result ≡ psn_before psn }
{
    (psn + (PSNS as u32 - 1)) % PSNS as u32
}

fn acknowledge(alloc: Global, dest: u32, msn: u32, told: Told) -> Packet
    ensures { content_of result ≡ acknowledge dest msn told }
{
    Packet {
        opcode: Opcode::Acknowledge.number(),
        solicited: false,
        migrated: false,
        pkey: DEFAULT_PKEY,
        dest,
        ack: false,
        psn: told.psn,
        reth: None,
        aeth: Some(Aeth {
            syndrome: told.syndrome,
            msn,
        }),
        imm: None,
        ieth: None,
        deth: None,
        payload: Bytes::from_vec(Vec::new(alloc)),
    }
}

/// The packets of an answer: one, or none.
pub(crate) fn answer_packets(
    alloc: Global,
    dest: u32,
    msn: u32,
    told: Option<Told>,
) -> Result<List<Packet>, AllocError>
    ensures { IfOk result (λ packets. map content_of packets ≡ answer_packets dest msn told) }
{
    let mut packets = List::new(alloc);
    if let Some(told) = told {
        packets.push(acknowledge(alloc, dest, msn, told))?;
    }
    Ok(packets)
}

/// The device that they go to, and 0 where there is none.
pub(crate) fn answers_to(device: u32, told: Option<Told>) -> u32
    ensures { result ≡ answers_to device told }
{
    match told {
        Some(_) => device,
        None => 0,
    }
}
