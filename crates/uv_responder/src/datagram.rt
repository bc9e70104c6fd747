//! What a datagram is that came in.

ghost use Rattle.std.specs.Prelude.{◌≡◌, ◌≤◌, length};
ghost use Rattle.std.specs.Option.{option_copied};
ghost use Rattle.uv_packet.specs.Packets.{content_of};
ghost use Rattle.uv_responder.specs.Datagrams.{arrival_of, datagram_plan, ending_datagram, has_qkey};

use crate::judging::{fits_receive, is_let};
use crate::planning::{Ending, Plan, saying, some_ending};
use uv_packet::{Deth, Packet};
use uv_qp::{Qp, Responder, TurnWord};
use uv_region::Regions;
use uv_wr::{RecvWork, Status};

/// The row of the rule that a datagram meets.
#[derive(Clone, Copy, Debug, PartialEq, Eq)]
pub enum Arrival {
    /// Its Q_Key is another, or no receive waits that it fits.
    Unwanted,
    /// A region of its receive isn't there, or refuses it.
    Misplaced,
    /// It is taken.
    Welcome,
}

fn has_qkey(deth: Option<Deth>, qkey: u32) -> bool
    ensures { result ≡ has_qkey deth qkey }
{
    match deth {
        Some(deth) => deth.qkey == qkey,
        None => false,
    }
}

/// The first row that applies. `next` is the receive that it would take. It takes no memory.
pub fn receive_datagram(
    packet: &Packet,
    qp: &Qp,
    regions: &Regions,
    next: Option<&RecvWork>,
) -> Arrival
    requires { length packet.now.payload.bytes ≤ 4096 }
    ensures { result ≡ arrival_of (content_of packet.now) qp.now regions.now (option_copied next.entry) }
{
    let size = packet.payload.len() as u32;
    if !has_qkey(packet.deth, qp.qkey()) {
        return Arrival::Unwanted;
    }
    if next.is_none() {
        return Arrival::Unwanted;
    }
    if !fits_receive(0, size, next) {
        return Arrival::Unwanted;
    }
    if !is_let(regions, qp.domain(), 0, size, next) {
        return Arrival::Misplaced;
    }
    Arrival::Welcome
}

fn ending_datagram(word: TurnWord, breaks: bool, ends: Option<Ending>, qp: &Qp) -> Plan
    ensures { result ≡ ending_datagram word breaks ends qp.now }
{
    Plan {
        takes: qp.held().is_none(),
        writes: !breaks,
        breaks,
        ends,
        responder: Responder {
            message: None,
            ..qp.responder()
        },
        ..saying(word, None, qp)
    }
}

/// What a row does.
pub(crate) fn datagram_plan(arrival: Arrival, packet: &Packet, qp: &Qp) -> Plan
    requires { length packet.now.payload.bytes ≤ 4096 }
    ensures { result ≡ datagram_plan arrival (content_of packet.now) qp.now }
{
    match arrival {
        Arrival::Unwanted => saying(TurnWord::Dropped, None, qp),
        Arrival::Misplaced => {
            let ends = some_ending(Status::LocProtErr, 0, None);
            ending_datagram(TurnWord::Operation, true, ends, qp)
        }
        Arrival::Welcome => {
            let size = packet.payload.len() as u32;
            let ends = some_ending(Status::Success, size, packet.imm);
            ending_datagram(TurnWord::Accepted, false, ends, qp)
        }
    }
}
