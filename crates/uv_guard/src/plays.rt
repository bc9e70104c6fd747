//! The rule of a cell, and what each kind of step tells.

use crate::celled::Celled;
use crate::view::View;
use atomic_table::{Join, Play, Split, TableRule};

pub struct Guarded;

impl<T: Celled> TableRule<Option<T>, View<T>, ()> for Guarded {
    ghost use Rattle.uv_guard.specs.Rule.{IsGuarded};
    ghost use Rattle.uv_guard.specs.Steps.{first_view};

    ghost holds = { λ _. IsGuarded T.goes_on };

    ghost first = { λ _. first_view };
}

/// A seat reads a word, and no more.
pub struct See;

impl<T> Play<Option<T>, View<T>> for See {
    ghost use Rattle.std.specs.Prelude.{◌≡◌, [], ◌∷◌};
    ghost use Rattle.uv_guard.specs.Words.{found_at};
    ghost use Rattle.uv_guard.specs.Steps.{finding};

    ghost then = { λ st m n m'. m' ≡ finding m (found_at st.word n ∷ []) };
}

/// A seat reads one word more.
pub struct Read;

impl<T> Play<Option<T>, View<T>> for Read {
    ghost use Rattle.std.specs.Prelude.{◌≡◌};
    ghost use Rattle.uv_guard.specs.Words.{found_at};
    ghost use Rattle.uv_guard.specs.Steps.{finding_more};

    ghost then = { λ st m n m'. m' ≡ finding_more m (found_at st.word n) };
}

/// A seat sets its reference bit.
pub struct Refer;

impl<T> Play<Option<T>, View<T>> for Refer {
    ghost use Rattle.uv_guard.specs.Steps.{referred};

    ghost then = { λ st m n m'. referred m n m' };
}

/// A seat clears its reference bit.
pub struct Unrefer;

impl<T> Play<Option<T>, View<T>> for Unrefer {
    ghost use Rattle.uv_guard.specs.Steps.{unreferred};

    ghost then = { λ st m n m'. unreferred m m' };
}

/// A seat takes the turn, where the word is what it read.
pub struct Turn;

impl<T: Celled> Play<Option<T>, View<T>> for Turn {
    ghost use Rattle.uv_guard.specs.Steps.{turned};

    ghost then = { turned T.goes_on };
}

/// The seat with the turn gives it back.
pub struct Give;

impl<T> Play<Option<T>, View<T>> for Give {
    ghost use Rattle.uv_guard.specs.Steps.{gave};

    ghost then = { λ st m n m'. gave m m' };
}

/// A deed at home takes the empty slot.
pub struct Fill;

impl<T> Play<Option<T>, View<T>> for Fill {
    ghost use Rattle.uv_guard.specs.Steps.{filled};

    ghost then = { λ st m n m'. filled m m' };
}

/// The deed sets LIVE.
pub struct Plant;

impl<T> Play<Option<T>, View<T>> for Plant {
    ghost use Rattle.uv_guard.specs.Steps.{planted};

    ghost then = { λ st m n m'. planted m m' };
}

/// The deed sets DYING.
pub struct Doom;

impl<T> Play<Option<T>, View<T>> for Doom {
    ghost use Rattle.uv_guard.specs.Steps.{doomed};

    ghost then = { λ st m n m'. doomed m m' };
}

/// A doomed deed looks for reference bits, and takes the value out where there are none.
pub struct Look;

impl<T: Celled> Play<Option<T>, View<T>> for Look {
    ghost use Rattle.uv_guard.specs.Steps.{looked};

    ghost then = { λ st m n m'. looked T.goes_on m n m' };
}

/// The deed writes the next generation.
pub struct Bury;

impl<T> Play<Option<T>, View<T>> for Bury {
    ghost use Rattle.uv_guard.specs.Steps.{buried};

    ghost then = { λ st m n m'. buried m m' };
}

/// The deed makes a seat.
pub struct Further;

impl<T> Split<View<T>> for Further {
    ghost use Rattle.uv_guard.specs.Steps.{one_given, seat_view};

    ghost left = { one_given };

    ghost right = { λ v. seat_view v.given };
}

/// The deed's plantings and lives go to a seat.
pub struct Tell;

impl<T> Split<View<T>> for Tell {
    ghost use Rattle.uv_guard.specs.Steps.{teller};

    ghost left = { λ v. v };

    ghost right = { teller };
}

impl<T> Join<View<T>> for Tell {
    ghost use Rattle.uv_guard.specs.Steps.{told_by, gone_view};

    ghost both = { told_by };

    ghost spent = { gone_view };
}

/// The deed takes in what a seat knew.
pub struct Whole;

impl<T> Join<View<T>> for Whole {
    ghost use Rattle.uv_guard.specs.Steps.{with_kept, kept_of, gone_view};

    ghost both = { λ v w. with_kept v (kept_of w) };

    ghost spent = { gone_view };
}
