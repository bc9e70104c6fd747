//! The store: the state beside what is kept of it, and its readers.

ghost use Rattle.std.specs.Prelude.{◌≡◌, IfOk};
ghost use Rattle.uv_machine.specs.States.{start, can_go, newest_free};
ghost use Rattle.std.specs.Option.{option_copied};
ghost use Rattle.uv_store.specs.Marks.{stood_mark};
ghost use Rattle.uv_store.specs.Stored.{IsLegalState};

use crate::counts::has_count;
use crate::holds::{has_beside, is_alone, is_used};
use crate::mark::Mark;
use crate::places::{mark_of, with_id};
use crate::tables;
use std::alloc::{AllocError, Global};
use std::marker::Model;
use uv_handles::Handles;
use uv_machine::{FilePhase, Generations, InFlight, Object, Readers, State};
use uv_num::{FILES, Kind, List, MOST_OBJECTS, Room};

/// The machine's data, as a kernel keeps it. Contracts see the machine's state.
#[derive(Drop)]
pub struct Store {
    pub(crate) state: State,
    /// The marks of the objects, at their places.
    pub(crate) marks: Room<Mark, MOST_OBJECTS>,
    /// The handle tables of the files.
    pub(crate) tables: List<Handles>,
    /// By file, how many objects are doomed.
    pub(crate) doomed: [u32; FILES],
    /// By file, how many objects have not been released.
    pub(crate) standing: [u32; FILES],
}

impl Model for Store {
    ghost use Rattle.uv_machine.specs.declared.state.State.{State};
    ghost use Rattle.uv_store.specs.Stored.{IsStored};

    ghost Value = { State };

    ghost view = { λ s. s.state };

    ghost invariant = { λ s. IsStored s.state s.marks s.tables s.doomed s.standing };
}

impl Store {
    /// The store in which nothing has happened. Nothing else takes memory.
    pub fn new(alloc: Global) -> Result<Store, AllocError>
        ensures { IfOk result (λ m. m ≡ start) }
    {
        Ok(Store {
            state: State::new(alloc)?,
            marks: Room::new(alloc)?,
            tables: tables::empty_tables(alloc)?,
            doomed: [0; FILES],
            standing: [0; FILES],
        })
    }

    /// The machine's state.
    pub fn state(&self) -> &State
        ensures { result.now ≡ self.now }
    {
        &self.state
    }

    fn mark_of(&self, id: u32) -> Option<Mark>
        ensures mark { result ≡ stood_mark self.now id }
        ensures legal { IsLegalState self.now }
    {
        mark_of(&self.state.objects, &self.marks, id)
    }

    fn can_go(&self, file: u32, x: &Object) -> bool
        ensures { result ≡ can_go self.now file x.now }
    {
        x.file == file && x.phase.is_live() && !self.has_users(x.id)
    }

    fn newest_free_at(&self, file: u32) -> Option<&Object>
        ensures { option_copied result ≡ newest_free self.now file }
    {
        self.state
            .objects
            .as_slice()
            .iter()
            .rev()
            .find(|x| self.can_go(file, x))
    }
}

impl Readers for Store {
    ghost state = { λ m. m };

    fn call_of(&self, actor: u32) -> Option<InFlight> {
        self.state.call_of(actor)
    }

    fn is_quiet(&self, file: u32) -> bool {
        self.state.is_quiet(file)
    }

    fn object_with(&self, id: u32) -> Option<Object> {
        with_id(&self.state.objects, id)
    }

    fn published(&self, file: u32, number: u32) -> Option<Object> {
        match tables::look(&self.tables, file, number) {
            None => None,
            Some(id) => self.object_with(id),
        }
    }

    fn has_users(&self, id: u32) -> bool {
        is_used(self.mark_of(id))
    }

    fn is_excluded(&self, id: u32) -> bool {
        is_alone(self.mark_of(id))
    }

    fn has_others(&self, actor: u32, id: u32) -> bool {
        has_beside(self.mark_of(id), self.state.call_of(actor), id)
    }

    fn least_free(&self, file: u32) -> Option<u32> {
        tables::least_free(&self.tables, file)
    }

    fn made(&self) -> u32 {
        self.state.made
    }

    fn home_cell(&self, kind: Kind) -> Option<u32> {
        self.state.home_cell(kind)
    }

    fn phase_of(&self, file: u32) -> FilePhase {
        self.state.phase_of(file)
    }

    fn device_of(&self, file: u32) -> u32 {
        self.state.device_of(file)
    }

    fn has_event(&self, file: u32) -> bool {
        self.state.has_event(file)
    }

    fn is_unplugged(&self, device: u32) -> bool {
        self.state.is_unplugged(device)
    }

    fn newest_free(&self, file: u32) -> Option<Object> {
        self.newest_free_at(file).copied()
    }

    fn has_doomed(&self, file: u32) -> bool {
        has_count(&self.doomed, file)
    }

    fn has_standing(&self, file: u32) -> bool {
        has_count(&self.standing, file)
    }
}

impl Generations for Store {
    fn generation_of(&self, kind: Kind, index: u32) -> u32 {
        self.state.generation_of(kind, index)
    }
}
