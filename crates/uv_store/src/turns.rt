//! What an entry makes of a call, an object and a cell, where the whole effect isn't the machine's own.

ghost use Rattle.std.specs.Prelude.{◌≡◌};
ghost use Rattle.uv_machine.specs.Objects.{live_from, doomed_from, bound_uses};
ghost use Rattle.uv_store.specs.Turning.{buried_with, call_turned};

use uv_machine::{Answer, Binding, Cell, Change, InFlight, Object, PLAN_STEPS, Phase, Pool};
use uv_num::{Changes, Ids, KINDS, MOST_GENERATION, change_at};

/// What a step makes of its call.
#[derive(Clone, Copy, Debug)]
pub(crate) enum CallTurn {
    /// Its step goes on.
    GoesOn,
    /// A number is set aside for it, if one is free.
    SetsAside(Option<u32>),
    /// It holds no object alone any more.
    LetsGo,
    /// Its act came to this.
    Tells(Answer),
}

impl CallTurn {
    fn turn(self, call: &mut InFlight)
        ensures { call.new ≡ call_turned self call.old }
    {
        if call.place < PLAN_STEPS {
            call.place += 1;
        }
        match self {
            CallTurn::GoesOn => {}
            CallTurn::SetsAside(number) => call.reserved = number,
            CallTurn::LetsGo => call.locked = None,
            CallTurn::Tells(answer) => call.outcome = answer,
        }
    }
}

impl Changes<Option<InFlight>> for CallTurn {
    ghost use Rattle.std.specs.Prelude.{option_map};
    ghost use Rattle.uv_store.specs.Turning.{call_turned};

    ghost changed = { λ turn. option_map (call_turned turn) };

    fn change(self, slot: &mut Option<InFlight>) {
        if let Some(call) = slot {
            self.turn(call);
        }
    }
}

/// A change of an object.
#[derive(Clone, Copy, Debug)]
pub(crate) struct ObjectTurn(pub Change);

fn live(phase: Phase) -> Phase
    ensures { result ≡ live_from phase }
{
    match phase {
        Phase::Made | Phase::Live => Phase::Live,
        Phase::Doomed => Phase::Doomed,
        Phase::Husk => Phase::Husk,
    }
}

fn doomed(phase: Phase) -> Phase
    ensures { result ≡ doomed_from phase }
{
    match phase {
        Phase::Made => Phase::Made,
        Phase::Live | Phase::Doomed => Phase::Doomed,
        Phase::Husk => Phase::Husk,
    }
}

/// What a window uses that is bound so.
pub(crate) fn bound_uses(binding: Option<Binding>, uses: Ids) -> Ids
    ensures { result ≡ bound_uses binding uses }
{
    match binding {
        None => uses.first_alone(),
        Some(binding) => uses.first_alone().and(binding.region),
    }
}

impl Changes<Object> for ObjectTurn {
    ghost use Rattle.uv_machine.specs.Objects.{with_change};

    ghost changed = { λ turn. with_change turn.0 };

    fn change(self, x: &mut Object) {
        match self.0 {
            Change::ToLive => x.phase = live(x.phase),
            Change::ToDoomed => x.phase = doomed(x.phase),
            Change::ToHusk => {
                x.phase = Phase::Husk;
                x.uses = Ids::Empty;
                x.binding = None;
            }
            Change::ToBound(binding) => {
                x.uses = bound_uses(binding, x.uses);
                x.binding = binding;
            }
        }
    }
}

/// The burial of a cell.
#[derive(Clone, Copy, Debug)]
struct CellBurial;

impl Changes<Cell> for CellBurial {
    ghost use Rattle.uv_machine.specs.Cells.{buried};

    ghost changed = { λ _. buried };

    fn change(self, cell: &mut Cell) {
        if cell.generation < MOST_GENERATION {
            cell.generation += 1;
            cell.home = true;
        }
    }
}

/// The burial of the cell at this index of a pool.
#[derive(Clone, Copy, Debug)]
pub(crate) struct Burial(pub u32);

impl Changes<Pool> for Burial {
    ghost use Rattle.uv_machine.specs.Cells.{buried_at};

    ghost changed = { λ burial. buried_at burial.0 };

    fn change(self, pool: &mut Pool) {
        change_at(&mut pool.cells, self.0 as usize, CellBurial);
    }
}

/// Buries the cell of an object that is doomed. That of a husk was buried before.
pub(crate) fn bury_if_doomed(pools: &mut [Pool; KINDS], x: Object)
    ensures { pools.new ≡ buried_with x pools.old }
{
    if x.phase.is_doomed() {
        change_at(pools, x.kind.place(), Burial(x.index));
    }
}
