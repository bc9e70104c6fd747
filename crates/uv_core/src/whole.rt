//! The core: how it begins and ends, and what is true of it between two calls.

ghost use Rattle.std.specs.Prelude.{◌≡◌, IfOk};
ghost use Rattle.uv_machine.specs.Histories.{IsLegal, state_of};
ghost use Rattle.uv_machine.specs.Files.{AreOver};
ghost use Rattle.uv_pool.specs.Filled.{AreNewPools};
ghost use Rattle.uv_graph.specs.Begins.{IsFresh};
ghost use Rattle.uv_graph.specs.Hands.{AreHomePools};
ghost use Rattle.uv_graph.specs.Kept.{spare_of};
ghost use Rattle.uv_graph.specs.Owns.{AreOut, NamesItsActor, OwnStandsApart};

use std::alloc::{AllocError, Global};
use std::marker::Model;
use uv_graph::{Graph, names_its_actor, own_stands_apart};
use uv_machine::Entry;
use uv_machine::laws::over_is_idle;
use uv_num::List;
use uv_pool::{Deed, Pool};

/// The object core (`drivers/infiniband/core`, `rdma_core.c` and `uverbs_main.c`): the objects of all files with their
/// handles, what calls hold, and the deeds of all cells. Contracts see its stored history, of which its state is the
/// replay, and what each actor has set aside or in its hands.
#[derive(Drop)]
pub struct Core<D: Deed + Drop> {
    pub(crate) graph: Graph<D>,
}

impl<D: Deed + Drop> Model for Core<D> {
    ghost use Rattle.uv_graph.specs.Kept.{Kept};

    ghost Value = { Kept };

    ghost view = { λ core. core.graph };
}

impl<D: Deed> Core<D> {
    /// A core in which nothing has happened, over eight full pools in the order of the kinds, of deeds that were never
    /// planted. It has room for 20,000 refused entries of each client, and for both devices to be pulled.
    pub fn new(alloc: Global, pools: List<Pool<D>>) -> Result<Core<D>, AllocError>
        requires { AreNewPools D.facts pools }
        ensures { IfOk result (λ core. IsFresh core) }
    {
        Ok(Core {
            graph: Graph::new(alloc, pools)?,
        })
    }

    /// The refused entries of a client that the history has room for. At 0 an open or an enter may answer ENOMEM and leave
    /// no entry. This project's own.
    pub fn spare(&self, client: u32) -> u32
        ensures { result ≡ spare_of self.now client }
    {
        self.graph.spare(client)
    }

    /// The stored history, and the pools with all their deeds, none of them planted. Each file was never opened or is
    /// closed, so no call is in flight. It takes no memory. This project's own.
    pub fn history(self) -> (List<Entry>, List<Pool<D>>)
        requires { AreOver (state_of self.history) }
        ensures history { result.0 ≡ self.history }
        ensures legal { IsLegal self.history }
        ensures pools { AreHomePools D.facts result.1 self.history }
    {
        over_is_idle();
        self.graph.is_legal();
        self.graph.into_parts()
    }
}

/// What is true of a graph between two calls, and the laws by which a call leaves other actors' own parts. It does nothing.
pub(crate) fn stands<D: Deed>(graph: &Graph<D>)
    ensures legal { IsLegal graph.now.history }
    ensures outs { AreOut graph.now }
    ensures apart { OwnStandsApart }
    ensures named { NamesItsActor }
{
    graph.is_legal();
    graph.are_out();
    own_stands_apart();
    names_its_actor();
}
