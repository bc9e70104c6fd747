//! What the rules read, in the plain state.

ghost use Rattle.std.specs.Prelude.{◌≡◌, find};
ghost use Rattle.std.specs.List.{list_any, enumerate_from};
ghost use Rattle.std.specs.Option.{option_copied};
ghost use Rattle.uv_machine.specs.Objects.{has_id, is_published_at};
ghost use Rattle.uv_machine.specs.Plans.{locks, is_call_on};
ghost use Rattle.uv_machine.specs.States.{can_go, newest_free, holds_beside};

use crate::call::{InFlight, holds, is_call_on, locks};
use crate::file::FilePhase;
use crate::marks;
use crate::object::Object;
use crate::readers::Readers;
use crate::state::State;
use uv_num::Kind;

impl Readers for State {
    ghost state = { λ m. m };

    fn call_of(&self, actor: u32) -> Option<InFlight> {
        match self.calls.get(actor as usize) {
            None => None,
            Some(slot) => *slot,
        }
    }

    fn is_quiet(&self, file: u32) -> bool {
        !any_on(&self.calls, file)
    }

    fn object_with(&self, id: u32) -> Option<Object> {
        with_id(self.objects.as_slice(), id).copied()
    }

    fn published(&self, file: u32, number: u32) -> Option<Object> {
        published_at(self.objects.as_slice(), file, number).copied()
    }

    fn has_users(&self, id: u32) -> bool {
        self.objects.as_slice().iter().any(|x| x.uses_object(id))
    }

    fn is_excluded(&self, id: u32) -> bool {
        any_locks(&self.calls, id)
    }

    fn has_others(&self, actor: u32, id: u32) -> bool {
        are_held_beside(&self.calls, actor as usize, id)
    }

    fn least_free(&self, file: u32) -> Option<u32> {
        marks::least_free(self.objects.as_slice(), &self.calls, file)
    }

    fn made(&self) -> u32 {
        self.made
    }

    fn home_cell(&self, kind: Kind) -> Option<u32> {
        self.pools[kind.place()].home_index()
    }

    fn phase_of(&self, file: u32) -> FilePhase {
        match self.files.get(file as usize) {
            None => FilePhase::Fresh,
            Some(x) => x.phase,
        }
    }

    fn device_of(&self, file: u32) -> u32 {
        match self.files.get(file as usize) {
            None => 0,
            Some(x) => x.device,
        }
    }

    fn has_event(&self, file: u32) -> bool {
        match self.files.get(file as usize) {
            None => false,
            Some(x) => x.event,
        }
    }

    fn is_unplugged(&self, device: u32) -> bool {
        !self.plugged.get(device as usize).copied().unwrap_or(false)
    }

    fn newest_free(&self, file: u32) -> Option<Object> {
        self.newest_free_at(file).copied()
    }

    fn has_doomed(&self, file: u32) -> bool {
        self.objects.as_slice().iter().any(|x| x.is_doomed_in(file))
    }

    fn has_standing(&self, file: u32) -> bool {
        self.objects
            .as_slice()
            .iter()
            .any(|x| x.is_standing_in(file))
    }
}

impl State {
    fn can_go(&self, file: u32, x: &Object) -> bool
        ensures { result ≡ can_go self.now file x.now }
    {
        x.file == file && x.phase.is_live() && !self.has_users(x.id)
    }

    fn newest_free_at(&self, file: u32) -> Option<&Object>
        ensures { option_copied result ≡ newest_free self.now file }
    {
        self.objects
            .as_slice()
            .iter()
            .rev()
            .find(|x| self.can_go(file, x))
    }
}

fn any_on(calls: &[Option<InFlight>], file: u32) -> bool
    ensures { result ≡ list_any (is_call_on file) calls.now }
{
    calls.iter().any(|slot| is_call_on(*slot, file))
}

fn any_locks(calls: &[Option<InFlight>], id: u32) -> bool
    ensures { result ≡ list_any (locks id) calls.now }
{
    calls.iter().any(|slot| locks(*slot, id))
}

fn with_id(objects: &[Object], id: u32) -> Option<&Object>
    ensures { option_copied result ≡ find (has_id id) objects.now }
{
    objects.iter().find(|x| x.id == id)
}

fn published_at(objects: &[Object], file: u32, number: u32) -> Option<&Object>
    ensures { option_copied result ≡ find (is_published_at file number) objects.now }
{
    objects.iter().find(|x| x.is_published_at(file, number))
}

fn are_held_beside(calls: &[Option<InFlight>], actor: usize, id: u32) -> bool
    ensures { result ≡ list_any (holds_beside actor id) (enumerate_from 0 calls.now) }
{
    calls
        .iter()
        .enumerate()
        .any(|(i, slot)| i != actor && holds(*slot, id))
}
