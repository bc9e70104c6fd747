//! The handle table of a file.

ghost use Rattle.std.specs.Prelude.{◌≡◌, ◌<◌, length, slice_set, IfOk, IfSome, IsTrue};
ghost use Rattle.uv_num.specs.declared.limits.TheConstants.{HANDLES};
ghost use Rattle.uv_handles.specs.Table.{slot_in, is_reserved_in, is_published_in, published_in, least_free_in, empty_table, reserved_if, published_at, freed_at};

use crate::Slot;
use std::alloc::{AllocError, Global};
use std::marker::Model;
use uv_num::{HANDLES, List};

/// The handles of a file, 0 to `HANDLES - 1`, each with what stands at it.
///
/// A create reserves a number, publishes its object under it at its commit, or gives it up at its abort; a lookup finds
/// published objects alone (`rdma_core.c`, `rdma_alloc_begin_uobject`, `rdma_alloc_commit_uobject`,
/// `rdma_alloc_abort_uobject`, `rdma_lookup_get_uobject`). Only its making takes memory.
#[derive(Drop)]
pub struct Handles {
    slots: List<Slot>,
}

impl Model for Handles {
    ghost use Rattle.std.specs.Prelude.{List, ◌≡◌, length};
    ghost use Rattle.uv_num.specs.declared.limits.TheConstants.{HANDLES};
    ghost use Rattle.uv_handles.specs.declared.slot.Slot.{Slot};

    ghost Value = { List Slot };

    ghost view = { λ h. h.slots };

    ghost invariant = { λ h. length h.slots ≡ HANDLES };
}

impl Handles {
    /// A table in which no number is taken.
    #[tactic(auto, unfolding(crate::specs::Table::empty_table))]
    pub fn new(alloc: Global) -> Result<Handles, AllocError>
        ensures { IfOk result (λ h. h ≡ empty_table) }
    {
        Ok(Handles {
            slots: List::filled(alloc, Slot::Free, HANDLES)?,
        })
    }

    /// Sets the least number aside that isn't taken (`rdma_core.c`, `idr_add_uobj`). None exactly where all `HANDLES`
    /// numbers are taken, and then nothing changes.
    pub fn reserve(&mut self) -> Option<u32>
        ensures number { result ≡ least_free_in self.old }
        ensures table { self.new ≡ reserved_if (least_free_in self.old) self.old }
        ensures aside { IfSome result (λ n. IsTrue (is_reserved_in self.new n)) }
        ensures size { length self.old ≡ HANDLES }
    {
        let found = self.least_free();
        match found {
            None => {}
            Some(number) => self.put(number, Slot::Reserved),
        }
        found
    }

    /// Publishes an object under a number that is set aside (`rdma_core.c`, `rdma_alloc_commit_uobject`).
    pub fn publish(&mut self, number: u32, object: u32)
        requires { IsTrue (is_reserved_in self.old number) }
        ensures { self.new ≡ published_at number object self.old }
    {
        self.put(number, Slot::Published(object));
    }

    /// Gives a number up that is set aside (`rdma_core.c`, `rdma_alloc_abort_uobject`).
    pub fn abort(&mut self, number: u32)
        requires { IsTrue (is_reserved_in self.old number) }
        ensures { self.new ≡ freed_at number self.old }
    {
        self.put(number, Slot::Free);
    }

    /// The object that is published under a number (`rdma_core.c`, `lookup_get_idr_uobject`).
    pub fn look(&self, number: u32) -> Option<u32>
        ensures { result ≡ published_in self.now number }
    {
        self.at(number).object()
    }

    /// Takes a published object's number away, which is free then (`rdma_core.c`, `remove_handle_idr_uobject`).
    pub fn remove(&mut self, handle: u32)
        requires { IsTrue (is_published_in self.old handle) }
        ensures { self.new ≡ freed_at handle self.old }
    {
        self.put(handle, Slot::Free);
    }

    /// Takes all numbers away, which are free then: the file is closed (`rdma_core.c`, `uverbs_destroy_ufile_hw`).
    #[tactic(auto, unfolding(crate::specs::Table::empty_table))]
    pub fn clear(&mut self)
        ensures { self.new ≡ empty_table }
    {
        self.slots.as_mut_slice().fill(Slot::Free);
    }

    fn at(&self, number: u32) -> Slot
        ensures { result ≡ slot_in self.now number }
    {
        let place = number as usize;
        let slots = self.slots.as_slice();
        if place < slots.len() {
            slots[place]
        } else {
            Slot::Free
        }
    }

    fn put(&mut self, number: u32, slot: Slot)
        requires { number < length self.old }
        ensures { self.new ≡ slice_set self.old number slot }
    {
        *self.slots.item_mut(number as usize) = slot;
    }

    /// The least number that isn't taken, which a create would get now. None exactly where all `HANDLES` are taken.
    pub fn least_free(&self) -> Option<u32>
        ensures number { result ≡ least_free_in self.now }
        ensures within { IfSome result (λ n. n < length self.now) }
        ensures size { length self.now ≡ HANDLES }
    {
        match first_free(self.slots.as_slice()) {
            None => None,
            Some(number) => Some(number as u32),
        }
    }
}

fn first_free(slots: &[Slot]) -> Option<usize>
    ensures number { result ≡ least_free_in slots.now }
    ensures within { IfSome result (λ n. n < length slots.now) }
{
    slots.iter().position(|slot| slot.is_free())
}

#[cfg(test)]
mod tests {
    use super::*;
    use std::test::Fail;

    fn made(table: &mut Handles, object: u32) -> Option<u32> {
        let number = table.reserve()?;
        table.publish(number, object);
        Some(number)
    }

    fn given_up(table: &mut Handles) -> Option<u32> {
        let number = table.reserve()?;
        table.abort(number);
        Some(number)
    }

    fn destroyed(table: &mut Handles, handle: u32) -> Option<u32> {
        let object = table.look(handle)?;
        table.remove(handle);
        Some(object)
    }

    #[test]
    fn the_least_free_number_is_given_out(rt: HostRuntime) -> Result<(), Fail> {
        let mut table = Handles::new(rt.alloc())?;
        assert_eq!(rt; made(&mut table, 70), Some(0));
        assert_eq!(rt; made(&mut table, 71), Some(1));
        assert_eq!(rt; made(&mut table, 72), Some(2));
        assert_eq!(rt; destroyed(&mut table, 1), Some(71));
        assert_eq!(rt; table.reserve(), Some(1));
        assert_eq!(rt; table.reserve(), Some(3));
        Ok(())
    }

    #[test]
    fn a_number_that_is_given_up_is_given_out_again(rt: HostRuntime) -> Result<(), Fail> {
        let mut table = Handles::new(rt.alloc())?;
        assert_eq!(rt; given_up(&mut table), Some(0));
        assert_eq!(rt; made(&mut table, 70), Some(0));
        assert_eq!(rt; given_up(&mut table), Some(1));
        assert_eq!(rt; table.look(0), Some(70));
        assert_eq!(rt; table.look(1), None);
        Ok(())
    }

    #[test]
    fn an_object_is_found_from_its_publishing_to_its_removal(rt: HostRuntime) -> Result<(), Fail> {
        let mut table = Handles::new(rt.alloc())?;
        assert_eq!(rt; table.look(0), None);
        assert_eq!(rt; table.reserve(), Some(0));
        assert_eq!(rt; table.look(0), None);
        assert_eq!(rt; made(&mut table, 70), Some(1));
        assert_eq!(rt; table.look(1), Some(70));
        assert_eq!(rt; destroyed(&mut table, 1), Some(70));
        assert_eq!(rt; table.look(1), None);
        assert_eq!(rt; destroyed(&mut table, 1), None);
        Ok(())
    }

    #[test]
    fn a_file_that_is_closed_has_no_handles(rt: HostRuntime) -> Result<(), Fail> {
        let mut table = Handles::new(rt.alloc())?;
        assert_eq!(rt; made(&mut table, 70), Some(0));
        assert_eq!(rt; table.reserve(), Some(1));
        assert_eq!(rt; table.least_free(), Some(2));
        table.clear();
        assert_eq!(rt; table.look(0), None);
        assert_eq!(rt; table.least_free(), Some(0));
        Ok(())
    }

    #[test]
    fn a_file_has_256_handles(rt: HostRuntime) -> Result<(), Fail> {
        let mut table = Handles::new(rt.alloc())?;
        for object in 0..256 {
            assert_eq!(rt; made(&mut table, object), Some(object));
        }
        assert_eq!(rt; table.reserve(), None);
        assert_eq!(rt; table.look(255), Some(255));
        assert_eq!(rt; table.look(256), None);
        assert_eq!(rt; table.look(4_294_967_295), None);
        assert_eq!(rt; destroyed(&mut table, 200), Some(200));
        assert_eq!(rt; table.reserve(), Some(200));
        assert_eq!(rt; table.reserve(), None);
        Ok(())
    }
}
