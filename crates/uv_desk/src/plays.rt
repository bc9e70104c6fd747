//! The rule of a desk's table, and what each kind of step tells.
use crate::machine::Machine;
use crate::view::View;
use atomic_table::{Join, Play, Seat, Shared, Split, TableRule};
use std::marker::PhantomData;
use std::snapshot::Snapshot;

/// The words are the next ticket (0) and the ticket that is served (1), both modulo 2^64; the one slot holds the
/// machine, while no seat has it.
pub struct InTurn<M> {
    machine: PhantomData<M>,
}

/// The shared part of a desk's table.
pub type Board<M: Machine> = Shared<Option<M>, View<M, M::Entry, M::Own>, Snapshot<M>, InTurn<M>>;

/// A seat of a desk's table.
pub type Chair<M: Machine> = Seat<Option<M>, View<M, M::Entry, M::Own>>;

impl<M: Machine> TableRule<Option<M>, View<M, M::Entry, M::Own>, Snapshot<M>> for InTurn<M> {
    ghost use Rattle.uv_desk.specs.Views.{newcomer};
    ghost use Rattle.uv_desk.specs.Rule.{Ordered};

    ghost holds = { λ key. Ordered M.history M.own M.names key.value };

    ghost first = { λ key. newcomer key.value (M.history key.value) (M.own key.value 0) };
}

/// The next ticket is the seat's.
pub struct Draw;

impl<M, E, O> Play<Option<M>, View<M, E, O>> for Draw {
    ghost use Rattle.uv_desk.specs.Plays.{drew};

    ghost then = { drew };
}

/// Where the seat's ticket is served, the machine is the seat's.
pub struct Look<M> {
    machine: PhantomData<M>,
}

impl<M: Machine> Play<Option<M>, View<M, M::Entry, M::Own>> for Look<M> {
    ghost use Rattle.uv_desk.specs.Plays.{looked};

    ghost then = { looked M.history M.own M.names };
}

/// The machine is back, and the next ticket is served.
pub struct PassOn<M> {
    machine: PhantomData<M>,
}

impl<M: Machine> Play<Option<M>, View<M, M::Entry, M::Own>> for PassOn<M> {
    ghost use Rattle.uv_desk.specs.Plays.{passed};

    ghost then = { λ st m n m'. passed M.history M.own M.names m m' };
}

/// What the seat was told is known to begin the log.
pub struct Learn<M> {
    machine: PhantomData<M>,
}

impl<M: Machine> Play<Option<M>, View<M, M::Entry, M::Own>> for Learn<M> {
    ghost use Rattle.uv_desk.specs.Plays.{learned};

    ghost then = { λ st m n m'. learned M.names m m' };
}

/// The first seat makes another.
pub struct Further<M> {
    machine: PhantomData<M>,
}

impl<M: Machine> Split<View<M, M::Entry, M::Own>> for Further<M> {
    ghost use Rattle.std.specs.Prelude.{◌+◌};
    ghost use Rattle.uv_desk.specs.Views.{further};

    ghost left = { λ v. record v { next = v.next + 1; whole = v.whole + 1 } };

    ghost right = { λ v. further M.own v v.start };
}

/// What a seat has seen goes to another, by a guest that knows nothing else.
pub struct Tell;

impl<M, E, O> Split<View<M, E, O>> for Tell {
    ghost use Rattle.uv_desk.specs.Views.{guest};

    ghost left = { λ v. v };

    ghost right = { λ v. guest v.seen };
}

impl<M, E, O> Join<View<M, E, O>> for Tell {
    ghost use Rattle.std.specs.Prelude.{[]};
    ghost use Rattle.uv_desk.specs.Views.{guest};

    ghost both = { λ v w. record v { told = w.seen } };

    ghost spent = { guest [] };
}

/// The first seat takes in another, with its number and what it had seen and owned.
pub struct Whole;

impl<M, E, O> Join<View<M, E, O>> for Whole {
    ghost use Rattle.std.specs.Prelude.{[]};
    ghost use Rattle.uv_desk.specs.Views.{guest, kept, with_kept};

    ghost both = { λ v w. with_kept v (kept w) w.number };

    ghost spent = { guest [] };
}
