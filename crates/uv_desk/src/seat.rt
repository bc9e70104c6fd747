//! A seat, seen as a plain value.
use crate::machine::Machine;
use crate::plays::Chair;
use std::marker::Model;

/// A seat at a desk. It is moved to the thread that makes its turns.
#[derive(Drop)]
pub struct DeskSeat<M: Machine> {
    pub(crate) number: u32,
    pub(crate) chair: Chair<M>,
}

impl<M: Machine> Model for DeskSeat<M> {
    ghost use Rattle.uv_desk.specs.Seats.{Placed, placed, IsPlaced};

    ghost Value = { Placed M.Entry M.Own };

    ghost view = { λ s. placed s.chair };

    ghost invariant = { λ s. IsPlaced s.number s.chair.me };
}
