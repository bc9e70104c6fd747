//! The regions that are lent to one packet action.

ghost use Rattle.std.specs.Prelude.{◌≡◌, ◌+◌, ◌<◌, ◌≤◌, ◌++◌, length, slice_get, slice_set, true, option_map, MatchOption, OnOk, OnErr};
ghost use Rattle.std.specs.FinMap as map;
ghost use Rattle.std.specs.Ordering.{nat_cmp};
ghost use Rattle.uv_num.specs.declared.limits.TheConstants.{LENT_REGIONS};
ghost use Rattle.uv_region.specs.Actions.{is_read};
ghost use Rattle.uv_region.specs.Refusals.{IsAllowed};
ghost use Rattle.uv_region.specs.Rules.{access_rule, reached_rule};
ghost use Rattle.uv_region.specs.Registered.{terms_of};
ghost use Rattle.uv_region.specs.Acting.{length_read, read_by, after_action, spent};
ghost use Rattle.uv_region.specs.Lent.{entries_of, has_key, reached_at, reached_allows, lent_allows, lent_after, lent_with_room, lent_with_rooms, lent_bytes, StaysKnown, acting, via, MayAct};

use crate::action::{Access, Window};
use crate::piece::{Piece, action_on, allows, refusal};
use crate::region::Region;
use crate::rule::{AccessRule, tested_rule};
use std::alloc::{AllocError, Global};
use std::marker::Model;
use uv_num::{Bytes, LENT_REGIONS};

/// A region under its key.
#[derive(Drop)]
struct Keyed {
    key: u32,
    region: Region,
    window: Option<Window>,
}

/// At most `LENT_REGIONS` regions under different keys, each with the window that it is reached through. Contracts see
/// the map from keys to both. It takes no memory but that of the regions' room. A key that isn't there is one that isn't
/// live, so no call but `put` has a condition on that alone.
#[derive(Drop)]
pub struct Regions {
    places: [Option<Keyed>; LENT_REGIONS],
}

impl Model for Regions {
    ghost use Rattle.std.specs.FinMap as map;
    ghost use Rattle.uv_region.specs.Lent.{Lent, coded_lent, entries_of, IsLent};

    ghost Value = { Lent };

    ghost coded = { coded_lent };

    ghost view = { λ r. map.from_entries (entries_of r.places) };

    ghost invariant = { λ r. IsLent r.places };
}

impl Regions {
    /// No regions.
    pub fn new() -> Regions
        ensures { result ≡ map.empty }
    {
        Regions {
            places: [None, None, None, None, None, None],
        }
    }

    /// Puts a region, with the window that it is reached through, under a key that has none.
    pub fn put(&mut self, key: u32, region: Region, window: Option<Window>)
        requires room { map.len self.old < LENT_REGIONS }
        requires apart { map.get self.old key ≡ None }
        ensures { self.new ≡ map.insert self.old key (region, window) }
    {
        let at = empty_place(&self.places);
        self.places[at] = Some(Keyed {
            key,
            region,
            window,
        });
    }

    /// Takes the region of a key, with the window that it is reached through, if there is one.
    pub fn take(&mut self, key: u32) -> Option<(Region, Option<Window>)>
        ensures taken { result ≡ map.get self.old key }
        ensures rest { self.new ≡ map.remove self.old key }
    {
        match place_of(&self.places, key) {
            Some(at) => take_at(&mut self.places, at),
            None => None,
        }
    }

    /// Whether the region of a piece's key is there, and an action of this kind on the piece may be made for a domain.
    pub fn allows(&self, kind: Access, piece: Piece, domain: u32) -> bool
        ensures { result ≡ lent_allows self.now kind piece domain }
    {
        match place_of(&self.places, piece.key) {
            Some(at) => place_allows(&self.places[at], kind, piece, domain),
            None => false,
        }
    }

    /// The rule that an action of this kind on a piece doesn't meet, if there is one; none exactly where `allows` lets it pass.
    pub fn access_rule(&self, kind: Access, piece: Piece, domain: u32) -> Option<AccessRule>
        ensures { result ≡ access_rule self.now kind piece domain }
    {
        match place_of(&self.places, piece.key) {
            Some(at) => place_rule(&self.places[at], kind, piece, domain),
            None => Some(AccessRule::Unknown),
        }
    }

    /// Takes room for so many actions on the region of a key, if it is there.
    pub fn reserve(&mut self, alloc: Global, key: u32, more: u32) -> Result<(), AllocError>
        ensures ok { OnOk result (self.new ≡ lent_with_room self.old key more) }
        ensures err { OnErr result (self.new ≡ self.old) }
    {
        let _ = &self.places;
        match self.take(key) {
            Some((region, window)) => {
                let mut region = region;
                match region.reserve(alloc, more) {
                    Ok(()) => {
                        self.put(key, region, window);
                        Ok(())
                    }
                    Err(AllocError) => {
                        self.put(key, region, window);
                        Err(AllocError)
                    }
                }
            }
            None => Ok(()),
        }
    }

    /// Takes room for so many actions on the region of each piece, if it is there: as many as there are pieces are enough
    /// for one on each. Where memory runs out after some of them, nothing that counts of the regions has changed.
    #[tactic(auto, using(crate::proofs::Reaching::stays_by_room, crate::proofs::Reaching::stays_itself))]
    pub fn reserve_all(
        &mut self,
        alloc: Global,
        pieces: &[Piece],
        more: u32,
    ) -> Result<(), AllocError>
        ensures ok { OnOk result (self.new ≡ lent_with_rooms self.old pieces.now more) }
        ensures err { OnErr result (StaysKnown self.old self.new) }
    {
        for piece in pieces {
            self.reserve(alloc, piece.key, more)?;
        }
        Ok(())
    }

    /// Makes an action on a piece that is allowed and for which there is room. It takes no memory. A read fills `out`,
    /// and what `bytes` holds doesn't matter then.
    pub fn act(
        &mut self,
        kind: Access,
        piece: Piece,
        bytes: Bytes,
        qp: u32,
        domain: u32,
        out: &mut [u8],
    )
        requires ready { MayAct self.old piece.key (acting kind piece bytes.bytes qp domain) }
        requires some { 0 < piece.length }
        requires whole { length bytes.bytes ≡ piece.length }
        requires out { length out.old ≡ length_read (acting kind piece bytes.bytes qp domain) }
        ensures lent { self.new ≡ lent_after self.old piece.key (acting kind piece bytes.bytes qp domain) }
        ensures out { out.new ≡ lent_bytes self.old piece.key (acting kind piece bytes.bytes qp domain) }
    {
        let _ = &self.places;
        match self.take(piece.key) {
            Some((region, window)) => {
                let mut region = region;
                act_on(&mut region, window, kind, piece, bytes, qp, domain, out);
                self.put(piece.key, region, window);
            }
            None => unreachable!(),
        }
    }

    /// Makes a read of a piece that is allowed and for which there is room, and puts the bytes that it reads after those of
    /// a payload, which has spare for them. It takes no memory. The journal keeps `held`, which has the length of the
    /// piece; what it holds before doesn't matter.
    pub fn read(
        &mut self,
        kind: Access,
        piece: Piece,
        held: Bytes,
        qp: u32,
        domain: u32,
        payload: &mut Bytes,
    )
        requires reads { is_read kind ≡ true }
        requires ready { MayAct self.old piece.key (acting kind piece held.bytes qp domain) }
        requires some { 0 < piece.length }
        requires whole { length held.bytes ≡ piece.length }
        requires spare { piece.length ≤ payload.old.spare }
        ensures lent { self.new ≡ lent_after self.old piece.key (acting kind piece held.bytes qp domain) }
        ensures payload { payload.new.bytes ≡ payload.old.bytes ++ lent_bytes self.old piece.key (acting kind piece held.bytes qp domain) }
        ensures spare { payload.old.spare ≤ payload.new.spare + piece.length }
    {
        let _ = &self.places;
        match self.take(piece.key) {
            Some((region, window)) => {
                let mut region = region;
                read_on(&mut region, window, kind, piece, held, qp, domain, payload);
                self.put(piece.key, region, window);
            }
            None => unreachable!(),
        }
    }
}

/// Makes an action that is allowed on a piece of a region, through a window.
fn act_on(
    region: &mut Region,
    window: Option<Window>,
    kind: Access,
    piece: Piece,
    bytes: Bytes,
    qp: u32,
    domain: u32,
    out: &mut [u8],
)
    requires allowed { IsAllowed (terms_of region.old) (via window (acting kind piece bytes.bytes qp domain)) }
    requires room { 0 < region.old.spare }
    requires some { 0 < piece.length }
    requires whole { length bytes.bytes ≡ piece.length }
    requires out { length out.old ≡ length_read (acting kind piece bytes.bytes qp domain) }
    ensures region { region.new ≡ spent (after_action region.old (via window (acting kind piece bytes.bytes qp domain))) }
    ensures out { out.new ≡ read_by (acting kind piece bytes.bytes qp domain) region.old.bytes }
{
    // What is allowed lies inside the region, whose length bounds its offset.
    let _most = region.length();
    region.act_reserved(action_on(kind, piece, bytes, qp, domain, window), out);
}

/// Makes a read that is allowed on a piece of a region, through a window.
fn read_on(
    region: &mut Region,
    window: Option<Window>,
    kind: Access,
    piece: Piece,
    held: Bytes,
    qp: u32,
    domain: u32,
    payload: &mut Bytes,
)
    requires reads { is_read kind ≡ true }
    requires allowed { IsAllowed (terms_of region.old) (via window (acting kind piece held.bytes qp domain)) }
    requires room { 0 < region.old.spare }
    requires some { 0 < piece.length }
    requires whole { length held.bytes ≡ piece.length }
    requires spare { piece.length ≤ payload.old.spare }
    ensures region { region.new ≡ spent (after_action region.old (via window (acting kind piece held.bytes qp domain))) }
    ensures payload { payload.new.bytes ≡ payload.old.bytes ++ read_by (acting kind piece held.bytes qp domain) region.old.bytes }
    ensures spare { payload.old.spare ≤ payload.new.spare + piece.length }
{
    let _most = region.length();
    region.read_reserved(action_on(kind, piece, held, qp, domain, window), payload);
}

fn place_allows(place: &Option<Keyed>, kind: Access, piece: Piece, domain: u32) -> bool
    ensures { result ≡ reached_allows (reached_at place.now) kind piece domain }
{
    match place {
        Some(keyed) => allows(&keyed.region, keyed.window, kind, piece, domain),
        None => false,
    }
}

fn place_rule(place: &Option<Keyed>, kind: Access, piece: Piece, domain: u32) -> Option<AccessRule>
    ensures { result ≡ reached_rule (reached_at place.now) kind piece domain }
{
    match place {
        Some(keyed) => match refusal(&keyed.region, keyed.window, kind, piece, domain) {
            Some(why) => Some(tested_rule(why)),
            None => None,
        },
        None => Some(AccessRule::Unknown),
    }
}

/// The first place that is empty, where one is.
fn empty_place(places: &[Option<Keyed>]) -> usize
    requires { length (entries_of places.now) < length places.now }
    ensures empty { slice_get places.now result ≡ Some None }
    ensures within { result < length places.now }
{
    for at in 0..places.len() {
        if places[at].is_none() {
            return at;
        }
    }
    unreachable!()
}

/// The place of the region of a key.
fn place_of(places: &[Option<Keyed>], key: u32) -> Option<usize>
    ensures { MatchOption result (map.find nat_cmp key (entries_of places.now) ≡ None) (λ at. option_map (has_key key) (slice_get places.now at) ≡ Some true) }
{
    for at in 0..places.len() {
        if has_key(&places[at], key) {
            return Some(at);
        }
    }
    None
}

fn has_key(place: &Option<Keyed>, key: u32) -> bool
    ensures { result ≡ has_key key place.now }
{
    match place {
        Some(keyed) => key == keyed.key,
        None => false,
    }
}

/// Takes what stands at a place.
fn take_at(places: &mut [Option<Keyed>], at: usize) -> Option<(Region, Option<Window>)>
    requires { at < length places.old }
    ensures taken { option_map reached_at (slice_get places.old at) ≡ Some result }
    ensures rest { places.new ≡ slice_set places.old at None }
{
    match places[at].take() {
        Some(
            Keyed {
                key: _,
                region,
                window,
            },
        ) => Some((region, window)),
        None => None,
    }
}
