//! A seat of a guard, seen as a plain value.

ghost use Rattle.std.specs.Prelude.{◌≡◌, ◌++◌, ◌∷◌, [], length, map, option_to_list};
ghost use Rattle.uv_guard.specs.Seated.{PlacedSeat, seated, AreOwn};

use crate::celled::Celled;
use crate::place::Place;
use std::marker::Model;

/// A seat, with a place at each cell of its guard. Give one to each thread.
#[derive(Drop)]
pub struct GuardSeat<T: Celled> {
    number: u32,
    pub(crate) places: Vec<Place<T>>,
}

impl<T: Celled> Model for GuardSeat<T> {
    ghost use Rattle.uv_guard.specs.Seated.{Seated, seated, AreOwn};

    ghost Value = { Seated T };

    ghost view = { λ s. seated s.number s.places.items };

    ghost invariant = { λ s. AreOwn s.number s.places.items };
}

impl<T: Celled> GuardSeat<T> {
    /// The seat with these places.
    pub(crate) fn of(number: u32, places: Vec<Place<T>>) -> GuardSeat<T>
        requires { AreOwn number places.items }
        ensures { result ≡ seated number places.items }
    {
        GuardSeat { number, places }
    }

    /// The seat's number, by which it stands in what `close` tells.
    pub fn number(&self) -> u32
        ensures { result ≡ self.now.number }
    {
        self.number
    }

    pub(crate) fn into_places(self) -> Vec<Place<T>>
        ensures { (seated self.number result.items ≡ self) × AreOwn self.number result.items }
    {
        let GuardSeat { number: _, places } = self;
        places
    }
}
