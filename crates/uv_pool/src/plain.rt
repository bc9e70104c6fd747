//! Deeds of cells without contents, and full pools of them: for tests, and for a program whose cells hold nothing yet.

ghost use Rattle.std.specs.Prelude.{◌≡◌, ◌<◌, ◌↔◌, List, Some, None, false, IsTrue, IsOk, IfOk, OnOk, OnErr};
ghost use Rattle.uv_num.specs.declared.limits.TheConstants.{CELLS, KINDS};
ghost use Rattle.uv_num.specs.Kind.{kind_place};
ghost use Rattle.uv_pool.specs.declared.deed.Life.{Life};
ghost use Rattle.uv_pool.specs.Deeds.{IsNewDeed, IsPlantedFor, IsBuried, IsBehind, after_planting, after_burial};
ghost use Rattle.uv_pool.specs.Filled.{AreNewPools, IsNewPool};
ghost use Rattle.uv_pool.specs.Homes.{AreOfCells, full_homes, has_all};

use crate::{Deed, Life, Pool};
use std::alloc::{AllocError, Global};
use uv_num::{CELLS, Identity, KINDS, Kind, List, MOST_GENERATION};

/// The deed of a cell that holds nothing: it knows only what was done with the cell. This project's own.
#[derive(Drop)]
pub struct PlainDeed {
    /// The kind of the objects that the cell is for.
    pub kind: Kind,
    /// The index of the cell among those of its kind.
    pub index: u32,
    /// How often the cell was buried.
    pub generation: u32,
    /// Whether the cell was buried at its last generation.
    pub spent: bool,
    /// The object that the cell is planted for, where it is planted.
    pub identity: Option<Identity>,
    /// The lives of the cell, in order, where the deed keeps them.
    pub lives: Option<List<Life>>,
    ghost in_range: { index < CELLS },
}

impl Deed for PlainDeed {
    ghost use Rattle.uv_pool.specs.Plain.{plain_facts};

    ghost facts = { plain_facts };

    fn kind(&self) -> Kind {
        self.kind
    }

    fn index(&self) -> u32 {
        self.index
    }

    fn generation(&self) -> u32 {
        self.generation
    }

    fn spent(&self) -> bool {
        self.spent
    }
}

impl PlainDeed {
    ghost use Rattle.uv_pool.specs.Plain.{plain_facts, IsSilentFor, IsSilentAfter};

    /// The deed of a cell that was never planted. It keeps the lives of its cell where it is given a list for them.
    pub fn new(kind: Kind, index: u32, lives: Option<List<Life>>) -> PlainDeed
        requires { index < CELLS }
        ensures { plain_facts result ≡ record { kind = kind; index = index; generation = 0; spent = false; planted = false; identity = None; lives = lives } }
    {
        PlainDeed {
            kind,
            index,
            generation: 0,
            spent: false,
            identity: None,
            lives,
        }
    }

    /// Plants the cell for an object. It takes memory only where the deed keeps lives; on an error nothing changes.
    pub fn plant(&mut self, identity: Identity) -> Result<(), AllocError>
        ensures ok { OnOk result (plain_facts self.new ≡ after_planting identity (plain_facts self.old)) }
        ensures err { OnErr result (plain_facts self.new ≡ plain_facts self.old) }
        ensures silent { self.old.lives ≡ None → IsOk result }
    {
        if let Some(lives) = &mut self.lives {
            lives.push(Life {
                generation: self.generation,
                identity,
            })?;
        }
        self.identity = Some(identity);
        Ok(())
    }

    /// Buries what the cell holds: the deed goes on to the next generation, or is spent.
    pub fn bury(&mut self)
        ensures { plain_facts self.new ≡ after_burial (plain_facts self.old) }
    {
        self.identity = None;
        if MOST_GENERATION <= self.generation {
            self.spent = true;
        } else {
            self.generation += 1;
        }
    }

    /// Whether the deed keeps no lives and its cell is planted for this object, at this index and generation.
    pub fn is_planted_for(&self, identity: Identity, index: u32, generation: u32) -> bool
        ensures exact { IsTrue result ↔ IsSilentFor (plain_facts self.now) identity index generation }
        ensures any { (lives : List Life) → IsTrue result → IsPlantedFor (plain_facts self.now) identity index generation lives }
    {
        self.is_silent_of(identity.kind, index)
            && self.has_identity(identity)
            && self.generation == generation
            && !self.spent
    }

    /// Whether the deed keeps no lives and its cell was buried at this generation.
    pub fn is_buried(&self, kind: Kind, index: u32, generation: u32) -> bool
        ensures exact { IsTrue result ↔ IsSilentAfter (plain_facts self.now) kind index generation }
        ensures any { (lives : List Life) → IsTrue result → IsBuried (plain_facts self.now) kind index generation lives }
    {
        self.is_silent_of(kind, index) && self.identity.is_none() && self.is_behind(generation)
    }

    fn is_silent_of(&self, kind: Kind, index: u32) -> bool
        ensures { IsTrue result ↔ ((self.now.lives ≡ None) × (self.now.kind ≡ kind) × (self.now.index ≡ index)) }
    {
        self.lives.is_none() && self.kind == kind && self.index == index
    }

    fn has_identity(&self, identity: Identity) -> bool
        ensures { IsTrue result ↔ (self.now.identity ≡ Some identity) }
    {
        match self.identity {
            None => false,
            Some(own) => own.is_same(identity),
        }
    }

    fn is_behind(&self, generation: u32) -> bool
        ensures { IsTrue result ↔ IsBehind (plain_facts self.now) generation }
    {
        if MOST_GENERATION <= generation {
            self.generation == generation && self.spent
        } else {
            self.generation == generation + 1 && !self.spent
        }
    }
}

/// The pools of all kinds, in their order, each with all its deeds, which keep no lives.
pub fn full_pools(alloc: Global) -> Result<List<Pool<PlainDeed>>, AllocError>
    ensures { IfOk result (λ pools. AreNewPools ⟦<PlainDeed as Deed>⟧.facts pools) }
{
    pools_of(alloc, false)
}

/// The pools of all kinds, in their order, each with all its deeds, which keep the lives of their cells.
pub fn full_pools_with_lives(alloc: Global) -> Result<List<Pool<PlainDeed>>, AllocError>
    ensures { IfOk result (λ pools. AreNewPools ⟦<PlainDeed as Deed>⟧.facts pools) }
{
    pools_of(alloc, true)
}

/// The pool of a kind, with all its deeds.
pub fn full_pool(alloc: Global, kind: Kind, with_lives: bool) -> Result<Pool<PlainDeed>, AllocError>
    ensures new { IfOk result (λ p. IsNewPool ⟦<PlainDeed as Deed>⟧.facts (kind_place kind) p) }
    ensures home { IfOk result (λ p. IsTrue (has_all p)) }
{
    let pool = Pool::new(alloc, new_deeds(alloc, kind, with_lives)?)?;
    Ok(pool)
}

fn pools_of(alloc: Global, with_lives: bool) -> Result<List<Pool<PlainDeed>>, AllocError>
    ensures { IfOk result (λ pools. AreNewPools ⟦<PlainDeed as Deed>⟧.facts pools) }
{
    let mut pools = List::new(alloc);
    for place in 0..KINDS {
        pools.push(full_pool(alloc, kind_at(place), with_lives)?)?;
    }
    Ok(pools)
}

fn new_deeds(alloc: Global, kind: Kind, with_lives: bool) -> Result<List<PlainDeed>, AllocError>
    ensures cells { IfOk result (λ deeds. AreOfCells ⟦<PlainDeed as Deed>⟧.facts kind deeds) }
    ensures new { IfOk result (λ deeds. IsNewPool ⟦<PlainDeed as Deed>⟧.facts (kind_place kind) (full_homes kind deeds)) }
{
    let mut deeds = List::new(alloc);
    for index in 0..CELLS as u32 {
        deeds.push(new_deed(alloc, kind, index, with_lives))?;
    }
    Ok(deeds)
}

fn new_deed(alloc: Global, kind: Kind, index: u32, with_lives: bool) -> PlainDeed
    requires { index < CELLS }
    ensures kind { result.kind ≡ kind }
    ensures index { result.index ≡ index }
    ensures new { IsNewDeed (⟦<PlainDeed as Deed>⟧.facts result) (kind_place kind) index }
{
    if with_lives {
        PlainDeed::new(kind, index, Some(List::new(alloc)))
    } else {
        PlainDeed::new(kind, index, None)
    }
}

/// The kind with this place.
fn kind_at(place: usize) -> Kind
    requires { place < KINDS }
    ensures { kind_place result ≡ place }
{
    match place {
        0 => Kind::Pd,
        1 => Kind::Channel,
        2 => Kind::Cq,
        3 => Kind::Qp,
        4 => Kind::Srq,
        5 => Kind::Ah,
        6 => Kind::Mr,
        _ => Kind::Mw,
    }
}
