//! The machine's state: devices, files, objects, calls in flight and cells.

ghost use Rattle.std.specs.Prelude.{◌≡◌, IfOk};
ghost use Rattle.uv_machine.specs.States.{start};

use crate::call::InFlight;
use crate::file::{File, FilePhase};
use crate::object::Object;
use crate::pool::{Cell, Pool};
use std::alloc::{AllocError, Global};
use uv_num::{ACTOR_PLACES, CELLS, DEVICES, FILES, KINDS, MOST_OBJECTS, Room};

/// The state of the machine.
#[derive(Drop)]
pub struct State {
    /// For each device, whether it is plugged in.
    pub plugged: [bool; DEVICES],
    /// The files by their numbers.
    pub files: [File; FILES],
    /// The objects, oldest first.
    pub objects: Room<Object, MOST_OBJECTS>,
    /// How many objects were ever made: the id of the next one.
    pub made: u32,
    /// The calls in flight by the number of their actor. No actor has the number 0.
    pub calls: [Option<InFlight>; ACTOR_PLACES],
    /// The cells by the places of their kinds.
    pub pools: [Pool; KINDS],
}

impl State {
    /// The state in which nothing has happened.
    #[tactic(auto, unfolding(crate::specs::States::start, crate::specs::Cells::full_pool))]
    pub fn new(alloc: Global) -> Result<State, AllocError>
        ensures { IfOk result (λ m. m ≡ start) }
    {
        let fresh = File {
            phase: FilePhase::Fresh,
            device: 0,
            client: 0,
            event: false,
        };
        let pool = Pool {
            cells: [Cell {
                generation: 0,
                home: true,
            }; CELLS],
            next: 0,
        };
        Ok(State {
            plugged: [true; DEVICES],
            files: [fresh; FILES],
            objects: Room::new(alloc)?,
            made: 0,
            calls: [None; ACTOR_PLACES],
            pools: [pool; KINDS],
        })
    }
}
