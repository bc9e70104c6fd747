//! Regions.

ghost use Rattle.std.specs.Prelude.{◌≡◌, ◌+◌, ◌<◌, ◌≤◌, [], ◌++◌, length, max, IfOk, OnOk, OnErr, true, false};
ghost use Rattle.uv_num.specs.declared.limits.TheConstants.{REGION_BYTES};
ghost use Rattle.uv_region.specs.Actions.{plain, is_read};
ghost use Rattle.uv_region.specs.Refusals.{first_refusal, refusal_by, IsAllowed};
ghost use Rattle.uv_region.specs.Registered.{terms_of};
ghost use Rattle.uv_region.specs.Journals.{plain_journal, journal_of, IsJournalOf};
ghost use Rattle.uv_region.specs.Acting.{read_by, length_read, journalled, fresh, after_action, spent, ActGives};

use crate::action::{Action, Demand, Why};
use crate::bytes::{apply, journalled, read_by, read_into};
use crate::journal::Journal;
use crate::rights::Rights;
use std::alloc::{AllocError, Global};
use std::marker::Model;
use uv_num::{Bytes, List, Stock};

/// What came of an action.
#[derive(Debug, Drop)]
pub enum Acted {
    /// It was made. These are the bytes that it read, none where it wrote.
    Done(Bytes),
    /// It isn't allowed. The region is as it was.
    Denied(Why),
    /// There was no memory. The region is as it was.
    NoMemory,
}

/// What became of a client's own read or write of a region, a peek or a poke, where another may have the region.
#[derive(Debug, Drop)]
pub enum ActTried {
    /// It was made. These are the bytes that it read, none where it wrote.
    Did(Bytes),
    /// It isn't allowed.
    Denied(Why),
    /// Another has the region; the number is the word under which it was found taken. A later try may find it free.
    Again(u64),
    /// The region isn't live, or is another than the one that was named; the number is the word that was found.
    Dead(u64),
    /// Memory ran out.
    NoMemory,
}

/// The bytes of a memory region, with the journal of all that was done to them. Contracts see the bytes, the journal
/// and a number, spare: how many more actions may be made without memory.
#[derive(Drop)]
pub struct Region {
    object: u32,
    domain: u32,
    size: u32,
    rights: Rights,
    bytes: Vec<u8>,
    actions: Stock<Action>,
}

impl Model for Region {
    ghost use Rattle.uv_region.specs.Registered.{Registered, registered};
    ghost use Rattle.uv_region.specs.Journals.{IsKept};

    ghost Value = { Registered };

    ghost view = { λ r. registered r.object r.domain r.size r.rights r.bytes.items r.actions };

    ghost invariant = { λ r. IsKept (registered r.object r.domain r.size r.rights r.bytes.items r.actions) };
}

impl Region {
    /// A region of zeros, to which nothing was done. Its object and its domain may be told later, by `name`.
    pub fn new(
        alloc: Global,
        object: u32,
        domain: u32,
        length: u32,
        rights: Rights,
    ) -> Result<Region, AllocError>
        requires { length ≤ REGION_BYTES }
        ensures { IfOk result (λ r. r ≡ fresh object domain length rights) }
    {
        Ok(Region {
            object,
            domain,
            size: length,
            rights,
            bytes: vec![in alloc; 0u8; length as usize]?,
            actions: Stock::new(alloc),
        })
    }

    /// Tells a region to which nothing was done its object and its domain. It takes no memory.
    pub fn name(&mut self, object: u32, domain: u32)
        requires { self.old.actions ≡ [] }
        ensures { self.new ≡ record self.old { object = object; domain = domain } }
    {
        self.object = object;
        self.domain = domain;
    }

    /// The id of the region.
    pub fn object(&self) -> u32
        ensures { result ≡ self.now.object }
    {
        self.object
    }

    /// The id of its protection domain.
    pub fn domain(&self) -> u32
        ensures { result ≡ self.now.domain }
    {
        self.domain
    }

    /// How many bytes it has.
    pub fn length(&self) -> u32
        ensures length { result ≡ self.now.length }
        ensures bytes { result ≡ length self.now.bytes }
        ensures most { result ≤ REGION_BYTES }
    {
        self.size
    }

    /// Its rights.
    pub fn rights(&self) -> Rights
        ensures { result ≡ self.now.rights }
    {
        self.rights
    }

    /// How many actions were made. They are the region's journal so far.
    pub fn made(&self) -> u64
        ensures count { result ≡ length self.now.actions }
        ensures journal { IsJournalOf self.now (journal_of self.now) }
    {
        self.actions.len() as u64
    }

    /// The first test that an action fails: bounds, right, domain, window.
    pub fn test(&self, action: &Action) -> Option<Why>
        ensures { result ≡ first_refusal (terms_of self.now) (plain action.now) }
    {
        self.refusal(action.demand())
    }

    /// The first test that fails of an action that demands this.
    pub(crate) fn refusal(&self, demand: Demand) -> Option<Why>
        ensures { result ≡ refusal_by (terms_of self.now) demand }
    {
        if !demand.is_inside(self.size) {
            return Some(Why::Bounds);
        }
        if !demand.has_its_right(self.rights) {
            return Some(Why::Right);
        }
        if self.domain != demand.domain {
            return Some(Why::Domain);
        }
        if !demand.passes() {
            return Some(Why::Window);
        }
        None
    }

    /// Takes room for so many actions, where there is less. The memory is that of the allocator which the region was
    /// made with.
    pub fn reserve(&mut self, alloc: Global, more: u32) -> Result<(), AllocError>
        ensures ok { OnOk result (self.new ≡ record self.old { spare = max self.old.spare more }) }
        ensures err { OnErr result (self.new ≡ self.old) }
    {
        let more = more as usize;
        let room = self.actions.room();
        if room < more {
            self.actions.widen(more - room)?;
        }
        Ok(())
    }

    /// Makes an action if the tests let it pass. A write brings as many bytes as its length says; those of a read don't
    /// matter.
    pub fn act(&mut self, alloc: Global, action: &Action) -> Acted
        requires some { 0 < action.now.length }
        requires whole { is_read action.now.kind ≡ false → length action.now.bytes.bytes ≡ action.now.length }
        ensures { ActGives self.old (plain action.now) result self.new }
    {
        match self.test(action) {
            Some(why) => Acted::Denied(why),
            None => self.act_allowed(alloc, action),
        }
    }

    /// Makes an action that the tests let pass.
    fn act_allowed(&mut self, alloc: Global, action: &Action) -> Acted
        requires some { 0 < action.now.length }
        requires whole { is_read action.now.kind ≡ false → length action.now.bytes.bytes ≡ action.now.length }
        requires allowed { IsAllowed (terms_of self.old) (plain action.now) }
        ensures { ActGives self.old (plain action.now) result self.new }
    {
        match self.prepare(alloc, action) {
            Err(_) => Acted::NoMemory,
            Ok((copy, told)) => {
                let mut told = told;
                self.act_reserved(copy, told.as_mut_slice());
                Acted::Done(told)
            }
        }
    }

    /// Takes all the memory of an action: its copy as the journal will hold it, the bytes that it reads, and its room.
    fn prepare(&mut self, alloc: Global, action: &Action) -> Result<(Action, Bytes), AllocError>
        requires whole { is_read action.now.kind ≡ false → length action.now.bytes.bytes ≡ action.now.length }
        requires allowed { IsAllowed (terms_of self.old) (plain action.now) }
        ensures copy { IfOk result (λ p. plain p.0 ≡ journalled (plain action.now) self.old.bytes) }
        ensures told { IfOk result (λ p. p.1.bytes ≡ read_by (plain action.now) self.old.bytes) }
        ensures whole { IfOk result (λ p. length p.0.bytes.bytes ≡ p.0.length) }
        ensures count { IfOk result (λ p. length p.1.bytes ≡ length_read (plain p.0)) }
        ensures ok { OnOk result (self.new ≡ record self.old { spare = self.old.spare + 1 }) }
        ensures err { OnErr result (self.new ≡ self.old) }
    {
        let copy = journalled(alloc, self.bytes.as_slice(), action)?;
        let told = read_by(alloc, self.bytes.as_slice(), action)?;
        self.actions.widen(1)?;
        Ok((copy, told))
    }

    /// Makes an action that is allowed. It takes no memory. A read fills `out`, and its bytes in the journal, with what
    /// it read; what they held before doesn't matter.
    pub fn act_reserved(&mut self, action: Action, out: &mut [u8])
        requires room { 0 < self.old.spare }
        requires some { 0 < action.length }
        requires whole { length action.bytes.bytes ≡ action.length }
        requires allowed { IsAllowed (terms_of self.old) (plain action) }
        requires out { length out.old ≡ length_read (plain action) }
        ensures region { self.new ≡ spent (after_action self.old (plain action)) }
        ensures out { out.new ≡ read_by (plain action) self.old.bytes }
    {
        let made = apply(self.bytes.as_mut_slice(), action, out);
        self.actions.put(made);
    }

    /// Makes a read that is allowed, and puts the bytes that it reads after those of a payload, which has spare for them.
    /// It takes no memory. What the action's own bytes hold before doesn't matter.
    pub fn read_reserved(&mut self, action: Action, payload: &mut Bytes)
        requires room { 0 < self.old.spare }
        requires some { 0 < action.length }
        requires reads { is_read action.kind ≡ true }
        requires whole { length action.bytes.bytes ≡ action.length }
        requires allowed { IsAllowed (terms_of self.old) (plain action) }
        requires spare { action.length ≤ payload.old.spare }
        ensures region { self.new ≡ spent (after_action self.old (plain action)) }
        ensures payload { payload.new.bytes ≡ payload.old.bytes ++ read_by (plain action) self.old.bytes }
        ensures spare { payload.old.spare ≤ payload.new.spare + action.length }
    {
        let read = read_into(self.bytes.as_slice(), action, payload);
        self.actions.put(read);
    }

    /// The journal of all that was done. It takes no memory.
    pub fn close(self) -> Journal
        ensures { IsJournalOf self (plain_journal result) }
    {
        let Region {
            object,
            domain,
            size,
            rights,
            bytes: _,
            actions,
        } = self;
        Journal {
            object,
            domain,
            length: size,
            rights,
            actions: List::from_vec(actions.into_vec()),
        }
    }
}
