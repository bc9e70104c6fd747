//! The smallest value for a cell: a register that is only added to. It is the page's example, and what the tests run.

ghost use Rattle.uv_num.specs.declared.limits.TheConstants.{CELLS};
ghost use Rattle.uv_guard.specs.Registers.{IsLater, more, Adds};
ghost use Rattle.std.specs.Prelude.{◌≡◌, ◌<◌, Some, None, slice_get};

use crate::cell::Entering;
use crate::celled::Celled;
use crate::guard::Guard;
use crate::seat::GuardSeat;

/// A number that never falls, and whose it is.
#[derive(Drop)]
pub struct Register {
    pub name: u32,
    pub value: u64,
}

impl Celled for Register {
    ghost use Rattle.std.specs.Prelude.{◌≡◌};
    ghost use Rattle.uv_num.specs.declared.limits.TheConstants.{CELLS};
    ghost use Rattle.uv_guard.specs.Registers.{name_of, IsLater, later_same, later_further};

    type Identity = u32;

    ghost identity = { name_of };

    ghost goes_on = { IsLater };

    ghost same = { later_same };

    ghost further = { later_further };

    ghost itself = { λ x y later. later.0 };
}

impl Register {
    /// The register with one more. The largest number stays.
    fn more(self) -> Register
        ensures more { result ≡ more self }
        ensures later { IsLater self result }
    {
        Register {
            name: self.name,
            value: self.value.saturating_add(1),
        }
    }
}

/// Tries to add one to the register of a cell, and answers what it is then.
pub fn add(
    guard: &Guard<Register>,
    seat: &mut GuardSeat<Register>,
    index: u32,
    generation: u32,
) -> Entering<u64>
    requires guard { seat.old.guard ≡ guard.now }
    requires index { index < CELLS }
    requires out { slice_get seat.old.held index ≡ Some None }
    ensures { Adds index generation seat.old result seat.new }
{
    match guard.enter(seat, index, generation) {
        Entering::Entered(register) => {
            let register = register.more();
            let value = register.value;
            guard.leave(seat, index, register);
            Entering::Entered(value)
        }
        Entering::Dead(life) => Entering::Dead(life),
        Entering::Taken(turn) => Entering::Taken(turn),
    }
}
