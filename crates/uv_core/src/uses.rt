//! What is read of the core: what an object uses, and the device of a file.

ghost use Rattle.std.specs.Prelude.{◌≡◌};
ghost use Rattle.uv_machine.specs.Histories.{state_of};
ghost use Rattle.uv_core.specs.Devices.{device_told};
ghost use Rattle.uv_core.specs.Uses.{UsedGives, use_at};

use crate::whole::Core;
use uv_graph::Graph;
use uv_machine::{FilePhase, Readers};
use uv_num::Kind;
use uv_pool::Deed;

/// An object that another one uses. This project's own.
#[derive(Clone, Copy, Debug, PartialEq, Eq)]
pub struct Used {
    /// Its id.
    pub object: u32,
    pub kind: Kind,
    /// Its cell among those of its kind, and the generation under which it has the cell.
    pub index: u32,
    pub generation: u32,
}

/// The id of what an object uses at a place.
fn use_at<D: Deed>(graph: &Graph<D>, object: u32, place: u32) -> Option<u32>
    ensures { result ≡ use_at (state_of graph.now.history) object place }
{
    graph.is_legal();
    match graph.object_with(object) {
        None => None,
        Some(x) => x.uses.get(place as usize),
    }
}

impl<D: Deed> Core<D> {
    /// What an object uses at a place, from 0, in the order in which its request names them; a bound window uses its
    /// region after its domain. None exactly where the object isn't there, is a husk, or has no use at that place. It
    /// takes no memory and makes no entry. This project's own.
    pub fn used(&self, object: u32, place: u32) -> Option<Used>
        ensures { UsedGives (state_of self.now.history) object place result }
    {
        self.graph.is_legal();
        match use_at(&self.graph, object, place) {
            None => None,
            Some(id) => match self.graph.object_with(id) {
                None => unreachable!(),
                Some(x) => Some(Used {
                    object: id,
                    kind: x.kind,
                    index: x.index,
                    generation: x.generation,
                }),
            },
        }
    }

    /// The device of a file, whatever became of it. None exactly where the file was never opened. It takes no memory and
    /// makes no entry. This project's own.
    pub fn device(&self, file: u32) -> Option<u32>
        ensures { result ≡ device_told (state_of self.now.history) file }
    {
        match self.graph.phase_of(file) {
            FilePhase::Fresh => None,
            FilePhase::Open
            | FilePhase::Tearing { .. }
            | FilePhase::Dissociated
            | FilePhase::Closed => Some(self.graph.device_of(file)),
        }
    }
}
