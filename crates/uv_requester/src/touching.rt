//! What a send turn reads. Nothing is changed here, and no memory is taken.

ghost use Rattle.std.specs.Prelude.{◌≡◌};
ghost use Rattle.uv_num.specs.declared.qp.QpState.TheVariants as QpState;
ghost use Rattle.uv_qp.specs.Pairs.{mtu_of, next_send};
ghost use Rattle.uv_requester.specs.SendPlaces.{located};
ghost use Rattle.uv_requester.specs.Sends.{next_request};
ghost use Rattle.uv_requester.specs.Touching.{datagram_touches, place_touches, response_touches, send_touches, service_touches, state_touches};

use crate::answering::{answered_read, response_pieces};
use crate::segment::pieces_at;
use crate::send_places::locate;
use crate::sending::{is_too_long, is_waiting};
use uv_num::{QpState, Service};
use uv_qp::{PieceList, Qp, pieces};

/// Where the bytes of the next response lie, where a read is answered: in the region of its remote key. There is no piece where
/// the response has no bytes.
pub fn response_touches(qp: &Qp) -> PieceList
    ensures { result ≡ response_touches qp.now }
{
    match answered_read(qp) {
        None => pieces(&[], 0, 0),
        Some(reading) => response_pieces(qp.mtu(), reading),
    }
}

/// Where the bytes lie of the packet that the next send turn makes of a work, in regions of its parts. There is no piece where
/// the turn makes none, or does something else first.
pub fn send_touches(qp: &Qp) -> PieceList
    ensures { result ≡ send_touches qp.now }
{
    match answered_read(qp) {
        None => state_touches(qp),
        Some(_) => pieces(&[], 0, 0),
    }
}

fn state_touches(qp: &Qp) -> PieceList
    ensures { result ≡ state_touches qp.now qp.now.state }
{
    match qp.state() {
        QpState::Rts => service_touches(qp),
        QpState::Reset | QpState::Init | QpState::Rtr | QpState::Err => pieces(&[], 0, 0),
    }
}

fn service_touches(qp: &Qp) -> PieceList
    ensures { result ≡ service_touches qp.now qp.now.service }
{
    match qp.service() {
        Service::Rc => request_touches(qp),
        Service::Ud => datagram_touches(qp),
    }
}

fn request_touches(qp: &Qp) -> PieceList
    ensures { result ≡ place_touches qp.now (next_request qp.now) }
{
    if is_waiting(qp) {
        return pieces(&[], 0, 0);
    }
    match locate(qp.mtu(), qp.sends().as_slice(), qp.requester().next) {
        None => pieces(&[], 0, 0),
        Some((place, at)) => match qp.sends().at(place) {
            None => pieces(&[], 0, 0),
            Some(work) => pieces_at(qp.mtu(), work, at),
        },
    }
}

fn datagram_touches(qp: &Qp) -> PieceList
    ensures { result ≡ datagram_touches (mtu_of qp.now) (next_send qp.now) }
{
    match qp.next_send() {
        None => pieces(&[], 0, 0),
        Some(work) => {
            if is_too_long(work) {
                pieces(&[], 0, 0)
            } else {
                pieces_at(qp.mtu(), work, 0)
            }
        }
    }
}
