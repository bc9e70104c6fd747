//! Lists with room for a constant number of items.

ghost use Rattle.std.specs.Prelude.{◌≡◌, [], ◌∷◌, ◌++◌, ◌<◌, ◌≤◌, ◌==◌, nat_le, length, slice_get, remove, IfOk, IsSome, ◌↔◌, option_to_list};
ghost use Rattle.std.specs.Option.{option_copied};
ghost use Rattle.std.specs.List.{insert};
ghost use Rattle.std.specs.List.Retain.{IsFiltered};
ghost use Rattle.std.specs.Fn.{CalledAt};

use std::alloc::{AllocError, Global};
use std::marker::Model;

/// A list with room for `MOST` items from its making on, which contracts see as the list of its items. Only its making
/// takes memory.
#[derive(Debug, Drop)]
pub struct Room<T, const MOST: usize> {
    items: Vec<T>,
}

impl<T, const MOST: usize> Model for Room<T, MOST> {
    ghost use Rattle.std.specs.Prelude.{List, ◌≤◌};
    ghost use Rattle.std.specs.Coded.{coded_list};
    ghost use Rattle.std.specs.Vec.{vec_capacity};

    ghost Value = { List T };

    ghost coded = { coded_list T.code };

    ghost view = { λ r. r.items.items };

    ghost invariant = { λ r. MOST ≤ vec_capacity r.items };
}

impl<T, const MOST: usize> Room<T, MOST> {
    ghost use Rattle.std.specs.Borrow.{sem};
    ghost use Rattle.uv_num.specs.RoomLending.{lends_slice, lends_item};

    /// The empty room.
    pub fn new(alloc: Global) -> Result<Room<T, MOST>, AllocError>
        ensures { IfOk result (λ r. r ≡ []) }
    {
        Ok(Room {
            items: Vec::with_capacity(alloc, MOST)?,
        })
    }

    /// How many items there are.
    pub fn len(&self) -> usize
        ensures { result ≡ length self.now }
    {
        self.items.len()
    }

    /// Whether there are no items.
    pub fn is_empty(&self) -> bool
        ensures { result ≡ (length self.now == 0) }
    {
        self.items.is_empty()
    }

    /// Whether there are `MOST` items or more, so that none may be put.
    pub fn is_full(&self) -> bool
        ensures { result ≡ nat_le MOST (length self.now) }
    {
        self.items.len() >= MOST
    }

    /// The items.
    pub fn as_slice(&self) -> &[T]
        ensures { result.now ≡ self.now }
    {
        self.items.as_slice()
    }

    /// The items, to be changed in place. Their number stays.
    pub fn as_mut_slice(&mut self) -> &mut [T]
        ensures* writes_back { sem 𝓛 (lends_slice T.row MOST.row self.entry result) }
        ensures value { result.now ≡ self.old }
    {
        self.items.as_mut_slice()
    }

    /// The item at a place, to be changed.
    pub fn item_mut(&mut self, at: usize) -> &mut T
        requires { at < length self.old }
        ensures* writes_back { sem 𝓛 (lends_item T.row MOST.row self.entry at result) }
        ensures value { slice_get self.old at ≡ Some result.now }
    {
        &mut self.items[at]
    }

    /// The item at a place, if there is one.
    pub fn get(&self, at: usize) -> Option<&T>
        ensures { option_copied result ≡ slice_get self.now at }
    {
        self.items.as_slice().get(at)
    }

    /// Takes the item at a place out.
    pub fn remove(&mut self, at: usize) -> T
        requires { at < length self.old }
        ensures item { slice_get self.old at ≡ Some result }
        ensures rest { self.new ≡ remove self.old at }
    {
        self.items.remove(at)
    }

    /// Takes the last item out, if there is one.
    pub fn pop(&mut self) -> Option<T>
        ensures items { self.old ≡ self.new ++ option_to_list result }
        ensures some { IsSome result ↔ (0 < length self.old) }
    {
        self.items.pop()
    }

    /// The vector of the items.
    pub fn into_vec(self) -> Vec<T>
        ensures { result.items ≡ self }
    {
        let Room { items } = self;
        items
    }
}

impl<T: Drop, const MOST: usize> Room<T, MOST> {
    /// Puts an item behind the others.
    pub fn put(&mut self, item: T)
        requires { length self.old < MOST }
        ensures { self.new ≡ self.old ++ item ∷ [] }
    {
        match self.items.push(item) {
            Ok(()) => {}
            Err(_) => unreachable!(),
        }
    }

    /// Puts an item at a place, before the one that stands there.
    pub fn insert(&mut self, at: usize, item: T)
        requires place { at ≤ length self.old }
        requires room { length self.old < MOST }
        ensures { self.new ≡ insert self.old at item }
    {
        match self.items.insert(at, item) {
            Ok(()) => {}
            Err(_) => unreachable!(),
        }
    }

    /// Lets all items go.
    pub fn clear(&mut self)
        ensures { self.new ≡ [] }
    {
        self.items.clear();
    }

    /// Keeps the items that a test passes, in their order.
    pub fn retain<F: FnMut(&T) -> bool>(&mut self, f: F)
        requires { F.IsAlwaysCallable f }
        ensures { IsFiltered (CalledAt F.FnMut) f self.old self.new }
    {
        self.items.retain(f);
    }
}

#[cfg(test)]
mod tests {
    use super::*;
    use std::test::Fail;

    #[test]
    fn a_room_takes_as_many_as_it_says(rt: HostRuntime) -> Result<(), Fail> {
        let mut room: Room<u32, 2> = Room::new(rt.alloc())?;
        assert!(rt; room.is_empty());
        room.put(4);
        assert!(rt; !room.is_full());
        room.put(5);
        assert!(rt; room.is_full());
        assert_eq!(rt; room.len(), 2);
        assert_eq!(rt; room.get(1), Some(&5));
        Ok(())
    }

    #[test]
    fn a_room_is_changed_in_place(rt: HostRuntime) -> Result<(), Fail> {
        let mut room: Room<u32, 2> = Room::new(rt.alloc())?;
        room.put(4);
        room.put(5);
        *room.item_mut(1) = 9;
        room.as_mut_slice().reverse();
        assert_eq!(rt; room.as_slice(), [9, 4].as_slice());
        Ok(())
    }

    #[test]
    fn a_room_gives_items_up(rt: HostRuntime) -> Result<(), Fail> {
        let mut room: Room<u32, 2> = Room::new(rt.alloc())?;
        room.put(4);
        room.put(5);
        assert_eq!(rt; room.remove(0), 4);
        assert_eq!(rt; room.pop(), Some(5));
        room.insert(0, 7);
        room.insert(0, 8);
        assert_eq!(rt; room.as_slice(), [8, 7].as_slice());
        room.retain(|item| *item != 6);
        room.clear();
        assert!(rt; room.into_vec().is_empty());
        Ok(())
    }
}
