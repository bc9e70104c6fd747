//! Pokes and peeks: a client's own writes and reads of a region.

ghost use Rattle.std.specs.Prelude.{◌≡◌, ◌<◌, ◌≤◌, Some, length};
ghost use Rattle.uv_num.specs.declared.limits.TheConstants.{NONE, WORK_BYTES};
ghost use Rattle.uv_region.specs.Actions.{PlainAction, plain};
ghost use Rattle.uv_world.specs.Holdings.{held_of};
ghost use Rattle.uv_world.specs.Named.{OnlyContents, cells_under, stage_holding, value_named};
ghost use Rattle.uv_world.specs.Owing.{IsHoused};
ghost use Rattle.uv_world.specs.Poking.{ActAnswers, held_acted, peek_of, poke_of, region_acted};
ghost use Rattle.uv_world.specs.Seating.{IsWorld, stage_of};

use crate::cells::Cell;
use crate::contents::Contents;
use crate::world::World;
use std::alloc::{AllocError, Global};
use uv_num::{Bytes, List, NONE};
use uv_region::{Access, ActTried, Acted, Action, Region, action_bytes};

/// An action of a client itself: of no queue pair, and through no window.
fn own_action(kind: Access, offset: u64, length: u32, bytes: Bytes, domain: u32) -> Action
    ensures { plain result ≡ record { kind = kind; offset = offset; length = length; bytes = bytes.bytes; qp = NONE; domain = domain; window = None } }
{
    Action {
        kind,
        offset,
        length,
        bytes,
        qp: NONE,
        domain,
        window: None,
    }
}

/// Writes to a region. The tests come before the memory of the copy.
fn poke_region(region: &mut Region, alloc: Global, offset: u64, bytes: &[u8]) -> ActTried
    requires some { 0 < length bytes.now }
    requires most { length bytes.now ≤ WORK_BYTES }
    ensures answer { ActAnswers (poke_of offset bytes.now) (Some region.old) result }
    ensures region { region.new ≡ region_acted (poke_of offset bytes.now) result region.old }
{
    let length = bytes.len() as u32;
    let none = Bytes::from_vec(Vec::new(alloc));
    let ask = own_action(Access::LocalWrite, offset, length, none, region.domain());
    if let Some(why) = region.test(&ask) {
        return ActTried::Denied(why);
    }
    match action_bytes(alloc, bytes) {
        Err(AllocError) => ActTried::NoMemory,
        Ok(copy) => {
            let action = own_action(Access::LocalWrite, offset, length, copy, region.domain());
            match region.act(alloc, &action) {
                Acted::Done(told) => ActTried::Did(told),
                Acted::Denied(why) => ActTried::Denied(why),
                Acted::NoMemory => ActTried::NoMemory,
            }
        }
    }
}

/// Reads a region.
fn peek_region(region: &mut Region, alloc: Global, offset: u64, length: u32) -> ActTried
    requires some { 0 < length }
    ensures answer { ActAnswers (peek_of offset length) (Some region.old) result }
    ensures region { region.new ≡ region_acted (peek_of offset length) result region.old }
{
    let none = Bytes::from_vec(Vec::new(alloc));
    let action = own_action(Access::LocalRead, offset, length, none, region.domain());
    match region.act(alloc, &action) {
        Acted::Done(told) => ActTried::Did(told),
        Acted::Denied(why) => ActTried::Denied(why),
        Acted::NoMemory => ActTried::NoMemory,
    }
}

fn poke(
    regions: &mut List<Cell<Region>>,
    alloc: Global,
    mr: (u32, u32),
    offset: u64,
    bytes: &[u8],
) -> ActTried
    requires some { 0 < length bytes.now }
    requires most { length bytes.now ≤ WORK_BYTES }
    ensures answer { ActAnswers (poke_of offset bytes.now) (value_named regions.old mr) result }
    ensures regions { regions.new ≡ cells_under regions.old mr (region_acted (poke_of offset bytes.now) result) }
{
    let (index, generation) = mr;
    let at = index as usize;
    if at < regions.len() {
        let cell = regions.item_mut(at);
        if cell.generation == generation {
            if let Some(region) = &mut cell.value {
                return poke_region(region, alloc, offset, bytes);
            }
        }
    }
    ActTried::Dead(0)
}

fn peek(
    regions: &mut List<Cell<Region>>,
    alloc: Global,
    mr: (u32, u32),
    offset: u64,
    length: u32,
) -> ActTried
    requires some { 0 < length }
    ensures answer { ActAnswers (peek_of offset length) (value_named regions.old mr) result }
    ensures regions { regions.new ≡ cells_under regions.old mr (region_acted (peek_of offset length) result) }
{
    let (index, generation) = mr;
    let at = index as usize;
    if at < regions.len() {
        let cell = regions.item_mut(at);
        if cell.generation == generation {
            if let Some(region) = &mut cell.value {
                return peek_region(region, alloc, offset, length);
            }
        }
    }
    ActTried::Dead(0)
}

/// Pokes and peeks.
impl Contents {
    /// Writes to a region.
    pub fn poke(&mut self, alloc: Global, mr: (u32, u32), offset: u64, bytes: &[u8]) -> ActTried
        requires some { 0 < length bytes.now }
        requires most { length bytes.now ≤ WORK_BYTES }
        requires housed { IsHoused self.old }
        ensures answer { ActAnswers (poke_of offset bytes.now) (value_named (held_of self.old).regions mr) result }
        ensures held { held_of self.new ≡ held_acted (held_of self.old) mr (poke_of offset bytes.now) result }
        ensures housed { IsHoused self.new }
    {
        poke(&mut self.regions, alloc, mr, offset, bytes)
    }

    /// Reads a region.
    pub fn peek(&mut self, alloc: Global, mr: (u32, u32), offset: u64, length: u32) -> ActTried
        requires some { 0 < length }
        requires housed { IsHoused self.old }
        ensures answer { ActAnswers (peek_of offset length) (value_named (held_of self.old).regions mr) result }
        ensures held { held_of self.new ≡ held_acted (held_of self.old) mr (peek_of offset length) result }
        ensures housed { IsHoused self.new }
    {
        peek(&mut self.regions, alloc, mr, offset, length)
    }
}

/// Pokes and peeks. A region is named by the index and the generation of its cell. `Dead(0)` comes exactly where the cell isn't
/// live under that generation, and `Again` never. `Denied` has the first test that fails, by the region's own rights. Out of
/// memory is met last, and then nothing has changed.
impl World {
    /// Writes 1 to `WORK_BYTES` bytes to a region, from an offset on, as its owner's process does. The action is the newest of the
    /// region's journal. This project's own: in Linux a process writes to its memory itself.
    pub fn poke(&mut self, alloc: Global, mr: (u32, u32), offset: u64, bytes: &[u8]) -> ActTried
        requires some { 0 < length bytes.now }
        requires most { length bytes.now ≤ WORK_BYTES }
        requires world { IsWorld self.old }
        ensures answer { ActAnswers (poke_of offset bytes.now) (value_named (held_of self.old.contents).regions mr) result }
        ensures stage { stage_of self.new ≡ stage_holding (stage_of self.old) (held_acted (held_of self.old.contents) mr (poke_of offset bytes.now) result) }
        ensures only { OnlyContents self.old self.new }
        ensures world { IsWorld self.new }
    {
        self.contents.poke(alloc, mr, offset, bytes)
    }

    /// Reads 1 to `WORK_BYTES` bytes of a region, from an offset on, as its owner's process does. The action is the newest of the
    /// region's journal, with the bytes that it read. This project's own.
    pub fn peek(&mut self, alloc: Global, mr: (u32, u32), offset: u64, length: u32) -> ActTried
        requires some { 0 < length }
        requires most { length ≤ WORK_BYTES }
        requires world { IsWorld self.old }
        ensures answer { ActAnswers (peek_of offset length) (value_named (held_of self.old.contents).regions mr) result }
        ensures stage { stage_of self.new ≡ stage_holding (stage_of self.old) (held_acted (held_of self.old.contents) mr (peek_of offset length) result) }
        ensures only { OnlyContents self.old self.new }
        ensures world { IsWorld self.new }
    {
        self.contents.peek(alloc, mr, offset, length)
    }
}
