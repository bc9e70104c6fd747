//! The world: the object core, what its objects hold, and the deeds that are out.

ghost use Rattle.std.specs.Prelude.{◌≡◌, IfOk};
ghost use Rattle.uv_graph.specs.Begins.{IsFresh};
ghost use Rattle.uv_world.specs.Seating.{IsWorld, stage_of};
ghost use Rattle.uv_world.specs.Stages.{first_stage};

use crate::cells::empty_slots;
use crate::contents::Contents;
use std::alloc::{AllocError, Global};
use uv_core::Core;
use uv_num::{ACTOR_PLACES, List};
use uv_pool::plain::{PlainDeed, full_pools};

/// An object that a teardown has taken out of use and not yet released.
#[derive(Drop)]
pub struct Doomed {
    /// Its id.
    pub object: u32,
    /// The deed of its cell, buried.
    pub deed: PlainDeed,
}

/// The object core with what its objects hold. Every entry of the core's history goes through it, so contents are made,
/// planted, changed, taken out and closed as the entries say. This project's own.
#[derive(Drop)]
pub struct World {
    pub core: Core<PlainDeed>,
    pub contents: Contents,
    /// By actor, the deed of the object that its destroy has taken out of use, buried.
    pub retired: List<Option<PlainDeed>>,
    /// By actor, what its teardown has taken out of use.
    pub doomed: List<Option<Doomed>>,
}

impl World {
    /// A world in which nothing has happened.
    pub fn new(alloc: Global) -> Result<World, AllocError>
        ensures stage { IfOk result (λ w. stage_of w ≡ first_stage) }
        ensures world { IfOk result IsWorld }
        ensures fresh { IfOk result (λ w. IsFresh w.core) }
    {
        Ok(World {
            core: Core::new(alloc, full_pools(alloc)?)?,
            contents: Contents::new(alloc)?,
            retired: empty_slots(alloc, ACTOR_PLACES)?,
            doomed: empty_slots(alloc, ACTOR_PLACES)?,
        })
    }
}
