//! The deeds of a kind.

ghost use Rattle.std.specs.Prelude.{◌≡◌, ◌<◌, ◌+◌, length, slice_get, map, position, take, drop, option_map, slice_index_or, None, IfOk, IfSome, IsTrue};
ghost use Rattle.std.specs.List.{list_all};
ghost use Rattle.std.specs.Option.{is_some};
ghost use Rattle.uv_num.specs.declared.kind.Kind.{Kind};
ghost use Rattle.uv_num.specs.declared.limits.TheConstants.{CELLS};
ghost use Rattle.uv_pool.specs.Homes.{IsOfCell, AreOfCells, IsPool, IsOutOf, IsDrawn, IsHomeAt, is_drawable, is_out_at, has_all, home_place, deed_at, deed_at_if, full_homes, deed_drawn, drawn_if, brought};

use crate::Deed;
use std::alloc::{AllocError, Global};
use std::marker::Model;
use uv_num::{CELLS, Kind, List};

/// The deeds of a kind, by the indices of their cells: each is home or out. This project's own.
#[derive(Drop)]
pub struct Pool<D: Deed> {
    kind: Kind,
    deeds: List<Option<D>>,
    next: usize,
}

impl<D: Deed> Model for Pool<D> {
    ghost use Rattle.uv_pool.specs.Homes.{Homes, IsPool};

    ghost Value = { Homes D };

    ghost view = { λ p. record { kind = p.kind; deeds = p.deeds; next = p.next } };

    ghost invariant = { λ p. IsPool D.facts (record { kind = p.kind; deeds = p.deeds; next = p.next }) };
}

impl<D: Deed> Pool<D> {
    /// A pool of these deeds, one for each cell of their kind, in the order of the cells. All are home, and the first one
    /// is drawn first. On an error the deeds are dropped.
    pub fn new(alloc: Global, deeds: List<D>) -> Result<Pool<D>, AllocError>
        requires { (kind : Kind) × AreOfCells D.facts kind deeds }
        ensures deeds { IfOk result (λ p. p ≡ full_homes p.kind deeds) }
        ensures kind { IfOk result (λ p. AreOfCells D.facts p.kind deeds) }
        ensures home { IfOk result (λ p. IsTrue (has_all p)) }
    {
        let kind = first_kind(deeds.as_slice());
        Ok(Pool {
            kind,
            deeds: List::from_vec(all_home(alloc, deeds.into_vec())?),
            next: 0,
        })
    }

    /// Takes the deed out that is next: the first one that is home and not spent at or behind the place behind the last
    /// choice, else the first one before it. None exactly where no deed is home, and then nothing changes.
    pub fn draw(&mut self) -> Option<D>
        ensures deed { result ≡ deed_at_if self.old (home_place D.facts self.old) }
        ensures pool { self.new ≡ drawn_if (home_place D.facts self.old) self.old }
        ensures some { is_some result ≡ is_some (home_place D.facts self.old) }
        ensures own { IfSome result (λ d. IsDrawn D.facts self.old d) }
        ensures out { IfSome result (λ d. IsOutOf D.facts self.new d) }
    {
        match self.home_place() {
            None => None,
            Some(place) => self.take_out(place),
        }
    }

    /// Brings a deed home to the place of its cell. A spent one stays there for good.
    pub fn home(&mut self, deed: D)
        requires { IsOutOf D.facts self.old deed }
        ensures { self.new ≡ brought ((D.facts deed).index) deed self.old }
    {
        let place = deed.index() as usize;
        *self.deeds.item_mut(place) = Some(deed);
    }

    /// All deeds, in the order of their cells, spent ones among them. On an error the deeds are dropped.
    pub fn deeds(self, alloc: Global) -> Result<List<D>, AllocError>
        requires { IsTrue (has_all self) }
        ensures deeds { IfOk result (λ ds. map Some ds ≡ self.deeds) }
        ensures cells { IfOk result (λ ds. AreOfCells D.facts self.kind ds) }
    {
        let Pool { deeds, .. } = self;
        Ok(List::from_vec(all_of(alloc, deeds.into_vec())?))
    }

    /// The kind of the objects that the deeds' cells are for. What is true of every pool is told with it.
    pub fn kind(&self) -> Kind
        ensures kind { result ≡ self.now.kind }
        ensures pool { IsPool D.facts self.now }
    {
        self.kind
    }

    /// Whether the deed of the cell with this index is out.
    pub fn is_out(&self, index: u32) -> bool
        ensures { result ≡ is_out_at self.now index }
    {
        (index as usize) < CELLS && self.deeds.as_slice()[index as usize].is_none()
    }

    /// Whether no deed is out.
    pub fn has_all(&self) -> bool
        ensures { result ≡ has_all self.now }
    {
        self.deeds.as_slice().iter().all(|slot| slot.is_some())
    }

    fn take_out(&mut self, place: usize) -> Option<D>
        requires { place < CELLS }
        ensures deed { result ≡ deed_at self.old place }
        ensures pool { self.new ≡ deed_drawn place self.old }
        ensures own { IfSome result (λ d. IsOfCell D.facts self.old.kind place d) }
    {
        let deed = self.deeds.item_mut(place).take();
        self.next = (place + 1) % CELLS;
        deed
    }

    fn home_place(&self) -> Option<usize>
        ensures place { result ≡ home_place D.facts self.now }
        ensures within { IfSome result (λ i. i < CELLS) }
        ensures home { IfSome result (λ i. IsHomeAt D.facts self.now.deeds i) }
    {
        match self.home_behind() {
            Some(place) => Some(place),
            None => self.home_before(),
        }
    }

    fn home_behind(&self) -> Option<usize>
        ensures place { result ≡ option_map (λ i. self.now.next + i) (position (is_drawable D.facts) (drop self.now.next self.now.deeds)) }
        ensures within { IfSome result (λ i. i < CELLS) }
        ensures home { IfSome result (λ i. IsHomeAt D.facts self.now.deeds i) }
    {
        match first_home_behind(self.deeds.as_slice(), self.next) {
            None => None,
            Some(i) => Some(self.next + i),
        }
    }

    fn home_before(&self) -> Option<usize>
        ensures place { result ≡ position (is_drawable D.facts) (take self.now.next self.now.deeds) }
        ensures within { IfSome result (λ i. i < CELLS) }
        ensures home { IfSome result (λ i. IsHomeAt D.facts self.now.deeds i) }
    {
        first_home_among(self.deeds.as_slice(), self.next)
    }
}

fn first_home_behind<D: Deed>(deeds: &[Option<D>], next: usize) -> Option<usize>
    ensures place { result ≡ position (is_drawable D.facts) (drop next deeds.now) }
    ensures home { IfSome result (λ i. IsHomeAt D.facts deeds.now (next + i)) }
{
    deeds.iter().skip(next).position(|slot| is_home(slot))
}

fn first_home_among<D: Deed>(deeds: &[Option<D>], count: usize) -> Option<usize>
    ensures place { result ≡ position (is_drawable D.facts) (take count deeds.now) }
    ensures home { IfSome result (λ i. IsHomeAt D.facts deeds.now i) }
{
    deeds.iter().take(count).position(|slot| is_home(slot))
}

fn is_home<D: Deed>(slot: &Option<D>) -> bool
    ensures { result ≡ is_drawable D.facts slot.now }
{
    match slot {
        None => false,
        Some(deed) => !deed.spent(),
    }
}

fn first_kind<D: Deed>(deeds: &[D]) -> Kind
    requires { (kind : Kind) × AreOfCells D.facts kind deeds.now }
    ensures { AreOfCells D.facts result deeds.now }
{
    deeds[0].kind()
}

fn all_home<D: Deed>(alloc: Global, deeds: Vec<D>) -> Result<Vec<Option<D>>, AllocError>
    ensures { IfOk result (λ slots. slots.items ≡ map Some deeds.items) }
{
    let mut slots = Vec::with_capacity(alloc, deeds.len())?;
    for deed in deeds {
        slots.push(Some(deed))?;
    }
    Ok(slots)
}

fn all_of<D: Deed>(alloc: Global, slots: Vec<Option<D>>) -> Result<Vec<D>, AllocError>
    requires { IsTrue (list_all is_some slots.items) }
    ensures { IfOk result (λ deeds. map Some deeds.items ≡ slots.items) }
{
    let mut deeds = Vec::with_capacity(alloc, slots.len())?;
    for slot in slots {
        match slot {
            Some(deed) => deeds.push(deed)?,
            None => unreachable!(),
        }
    }
    Ok(deeds)
}
