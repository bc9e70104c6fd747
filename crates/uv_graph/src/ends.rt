//! The beginning and the end of a graph.

ghost use Rattle.std.specs.Prelude.{◌≡◌, ◌*◌, IfOk, length};
ghost use Rattle.uv_num.specs.declared.limits.TheConstants.{CELLS, KINDS};
ghost use Rattle.uv_machine.specs.Laws.{IsIdle};
ghost use Rattle.uv_machine.specs.Histories.{IsLegal, state_of};
ghost use Rattle.uv_pool.specs.Filled.{AreNewPools};
ghost use Rattle.uv_machine.specs.Files.{AreOver};
ghost use Rattle.uv_graph.specs.Hands.{AreHomePools};
ghost use Rattle.uv_graph.specs.Begins.{IsFresh, HoldsNone, UsesNone};

use crate::graph::Graph;
use std::alloc::{AllocError, Global};
use uv_machine::{Entry, Log};
use uv_num::{ACTOR_PLACES, CELLS, CLIENTS, Ids, KINDS, List, SCRIPT_LINES};
use uv_pool::{Deed, Pool};

/// The refused entries of a client that a new graph has room for: as many as a script has lines.
pub const SPARES: u32 = SCRIPT_LINES as u32;

/// The refused entries of all clients.
const ALL_SPARES: usize = CLIENTS as usize * SCRIPT_LINES;

/// By actor: the clients have theirs, and place 0, the driver and the end of the script have none.
const FIRST_SPARES: [u32; ACTOR_PLACES] = [
    0, SPARES, SPARES, SPARES, SPARES, SPARES, SPARES, SPARES, SPARES, 0, 0,
];

/// No planted deeds.
fn none_held<D: Deed>(alloc: Global) -> Result<List<Option<D>>, AllocError>
    ensures size { IfOk result (λ h. length h ≡ KINDS * CELLS) }
    ensures none { IfOk result (λ h. HoldsNone h) }
{
    let mut held = List::new(alloc);
    for _turn in 0..KINDS * CELLS {
        held.push(None)?;
    }
    Ok(held)
}

/// Nothing that objects used: none was made.
fn none_used(alloc: Global) -> Result<List<Ids>, AllocError>
    ensures size { IfOk result (λ u. length u ≡ KINDS * CELLS) }
    ensures none { IfOk result (λ u. UsesNone u) }
{
    let mut uses = List::new(alloc);
    for _turn in 0..KINDS * CELLS {
        uses.push(Ids::Empty)?;
    }
    Ok(uses)
}

impl<D: Deed> Graph<D> {
    /// The graph in which nothing has happened, with room for both devices to be pulled and for `SPARES` refused entries
    /// of each client.
    pub fn new(alloc: Global, pools: List<Pool<D>>) -> Result<Graph<D>, AllocError>
        requires { AreNewPools D.facts pools }
        ensures { IfOk result (λ g. IsFresh g) }
    {
        let mut log = Log::new(alloc)?;
        log.widen(ALL_SPARES)?;
        let held = none_held(alloc)?;
        let uses = none_used(alloc)?;
        Ok(Graph {
            log,
            spares: FIRST_SPARES,
            outs: [None; ACTOR_PLACES],
            kills: [None; ACTOR_PLACES],
            pools,
            held,
            uses,
        })
    }

    /// The stored history, and the pools with all their deeds. It takes no memory.
    pub fn into_parts(self) -> (List<Entry>, List<Pool<D>>)
        requires idle { IsIdle (state_of self.history) }
        requires over { AreOver (state_of self.history) }
        ensures history { result.0 ≡ self.history }
        ensures legal { IsLegal self.history }
        ensures pools { AreHomePools D.facts result.1 self.history }
    {
        let Graph { log, pools, .. } = self;
        (log.into_history(), pools)
    }
}
