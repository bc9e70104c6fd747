//! Which packets a queue pair lets in.

ghost use Rattle.std.specs.Prelude.{◌≡◌};
ghost use Rattle.uv_qp.specs.Gate.{is_connected, is_opcode_of, is_response, takes_packet};

use uv_num::{QpState, Service};
use uv_packet::Opcode;

/// The partition key of all packets: the default partition, as a full member (`IB_DEFAULT_PKEY_FULL`, `rdma/ib_mad.h`).
pub const DEFAULT_PKEY: u16 = 0xffff;

const _: () = prove!(DEFAULT_PKEY == 65_535);

/// Whether an opcode is a response, 0x0d to 0x11: what the responder of one queue pair tells the requester of another.
pub fn is_response(opcode: Opcode) -> bool
    ensures { result ≡ is_response opcode }
{
    match opcode {
        Opcode::ReadResponseFirst
        | Opcode::ReadResponseMiddle
        | Opcode::ReadResponseLast
        | Opcode::ReadResponseOnly
        | Opcode::Acknowledge => true,
        Opcode::SendFirst
        | Opcode::SendMiddle
        | Opcode::SendLast
        | Opcode::SendLastWithImmediate
        | Opcode::SendOnly
        | Opcode::SendOnlyWithImmediate
        | Opcode::WriteFirst
        | Opcode::WriteMiddle
        | Opcode::WriteLast
        | Opcode::WriteLastWithImmediate
        | Opcode::WriteOnly
        | Opcode::WriteOnlyWithImmediate
        | Opcode::ReadRequest
        | Opcode::SendLastWithInvalidate
        | Opcode::SendOnlyWithInvalidate
        | Opcode::UdSendOnly
        | Opcode::UdSendOnlyWithImmediate => false,
    }
}

/// Whether an opcode is one of the reliable connection.
fn is_connected(opcode: Opcode) -> bool
    ensures { result ≡ is_connected opcode }
{
    match opcode {
        Opcode::UdSendOnly | Opcode::UdSendOnlyWithImmediate => false,
        Opcode::SendFirst
        | Opcode::SendMiddle
        | Opcode::SendLast
        | Opcode::SendLastWithImmediate
        | Opcode::SendOnly
        | Opcode::SendOnlyWithImmediate
        | Opcode::WriteFirst
        | Opcode::WriteMiddle
        | Opcode::WriteLast
        | Opcode::WriteLastWithImmediate
        | Opcode::WriteOnly
        | Opcode::WriteOnlyWithImmediate
        | Opcode::ReadRequest
        | Opcode::ReadResponseFirst
        | Opcode::ReadResponseMiddle
        | Opcode::ReadResponseLast
        | Opcode::ReadResponseOnly
        | Opcode::Acknowledge
        | Opcode::SendLastWithInvalidate
        | Opcode::SendOnlyWithInvalidate => true,
    }
}

/// Whether an opcode is one of a service.
pub(crate) fn is_opcode_of(service: Service, opcode: Opcode) -> bool
    ensures { result ≡ is_opcode_of service opcode }
{
    match service {
        Service::Rc => is_connected(opcode),
        Service::Ud => !is_connected(opcode),
    }
}

/// Whether a state takes a request, or a response.
pub(crate) fn takes_packet(state: QpState, response: bool) -> bool
    ensures { result ≡ takes_packet state response }
{
    match state {
        QpState::Reset | QpState::Init | QpState::Err => false,
        QpState::Rtr => !response,
        QpState::Rts => true,
    }
}
