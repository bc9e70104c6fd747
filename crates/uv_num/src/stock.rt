//! Lists with a counted room.

ghost use Rattle.std.specs.Prelude.{◌≡◌, [], ◌∷◌, ◌++◌, ◌<◌, ◌+◌, ◌==◌, length, slice_get, remove, IfOk, OnOk, OnErr};
ghost use Rattle.std.specs.Option.{option_copied};
ghost use Rattle.std.specs.List.Retain.{IsFiltered};
ghost use Rattle.std.specs.Fn.{CalledAt};

use std::alloc::{AllocError, Global};
use std::marker::Model;

/// A list beside a number, its room: how many more items may be put without memory. Only `widen` takes memory. A
/// buffer's own capacity grows as the allocator likes, so the room is counted apart from it, exactly.
#[derive(Debug, Drop)]
pub struct Stock<T> {
    items: Vec<T>,
    room: usize,
}

impl<T> Model for Stock<T> {
    ghost use Rattle.std.specs.Prelude.{◌+◌, ◌≤◌};
    ghost use Rattle.std.specs.Vec.{vec_len, vec_capacity};
    ghost use Rattle.uv_num.specs.Stocked.{Stocked};

    ghost Value = { Stocked T };

    ghost view = { λ s. record { items = s.items.items; room = s.room } };

    ghost invariant = { λ s. vec_len s.items + s.room ≤ vec_capacity s.items };
}

impl<T> Stock<T> {
    ghost use Rattle.std.specs.Borrow.{sem};
    ghost use Rattle.uv_num.specs.StockLending.{lends_slice, lends_item};

    /// No items, and no room. It takes no memory.
    pub fn new(alloc: Global) -> Stock<T>
        ensures items { result.items ≡ [] }
        ensures room { result.room ≡ 0 }
    {
        Stock {
            items: Vec::new(alloc),
            room: 0,
        }
    }

    /// Takes room for so many more items. The buffer at least doubles where it has to grow, so many small widenings
    /// cost linear time in all. On an error nothing changes.
    pub fn widen(&mut self, more: usize) -> Result<(), AllocError>
        ensures items { self.new.items ≡ self.old.items }
        ensures ok { OnOk result (self.new.room ≡ self.old.room + more) }
        ensures err { OnErr result (self.new.room ≡ self.old.room) }
    {
        match self.room.checked_add(more) {
            None => Err(AllocError),
            Some(room) => {
                self.items.reserve(room)?;
                self.room = room;
                Ok(())
            }
        }
    }

    /// How many more items may be put.
    pub fn room(&self) -> usize
        ensures { result ≡ self.now.room }
    {
        self.room
    }

    /// How many items there are.
    pub fn len(&self) -> usize
        ensures { result ≡ length self.now.items }
    {
        self.items.len()
    }

    /// Whether there are no items.
    pub fn is_empty(&self) -> bool
        ensures { result ≡ (length self.now.items == 0) }
    {
        self.items.is_empty()
    }

    /// The items.
    pub fn as_slice(&self) -> &[T]
        ensures { result.now ≡ self.now.items }
    {
        self.items.as_slice()
    }

    /// The items, to be changed in place. Their number stays, and so does the room.
    pub fn as_mut_slice(&mut self) -> &mut [T]
        ensures* writes_back { sem 𝓛 (lends_slice T.row self.entry result) }
        ensures value { result.now ≡ self.old.items }
    {
        self.items.as_mut_slice()
    }

    /// The item at a place, if there is one.
    pub fn get(&self, at: usize) -> Option<&T>
        ensures { option_copied result ≡ slice_get self.now.items at }
    {
        self.items.as_slice().get(at)
    }

    /// The item at a place, to be changed.
    pub fn item_mut(&mut self, at: usize) -> &mut T
        requires { at < length self.old.items }
        ensures* writes_back { sem 𝓛 (lends_item T.row self.entry at result) }
        ensures value { slice_get self.old.items at ≡ Some result.now }
    {
        &mut self.items[at]
    }

    /// Takes the item at a place out. The room stays.
    pub fn remove(&mut self, at: usize) -> T
        requires { at < length self.old.items }
        ensures item { slice_get self.old.items at ≡ Some result }
        ensures rest { self.new.items ≡ remove self.old.items at }
        ensures room { self.new.room ≡ self.old.room }
    {
        self.items.remove(at)
    }

    /// The vector of the items. It takes no memory.
    pub fn into_vec(self) -> Vec<T>
        ensures { result.items ≡ self.items }
    {
        let Stock { items, room: _ } = self;
        items
    }
}

impl<T: Drop> Stock<T> {
    /// Puts an item behind the others, for which there is room. It takes no memory.
    pub fn put(&mut self, item: T)
        requires { 0 < self.old.room }
        ensures items { self.new.items ≡ self.old.items ++ item ∷ [] }
        ensures room { self.new.room + 1 ≡ self.old.room }
    {
        match self.items.push(item) {
            Ok(()) => {}
            Err(_) => unreachable!(),
        }
        self.room -= 1;
    }

    /// Lets all items go. The room stays.
    pub fn clear(&mut self)
        ensures items { self.new.items ≡ [] }
        ensures room { self.new.room ≡ self.old.room }
    {
        self.items.clear();
    }

    /// Keeps the items that a test passes, in their order. The room stays.
    pub fn retain<F: FnMut(&T) -> bool>(&mut self, f: F)
        requires { F.IsAlwaysCallable f }
        ensures items { IsFiltered (CalledAt F.FnMut) f self.old.items self.new.items }
        ensures room { self.new.room ≡ self.old.room }
    {
        self.items.retain(f);
    }
}

#[cfg(test)]
mod tests {
    use super::*;
    use std::test::Fail;

    #[test]
    fn a_stock_counts_its_room(rt: HostRuntime) -> Result<(), Fail> {
        let mut stock = Stock::new(rt.alloc());
        assert!(rt; stock.is_empty());
        stock.widen(2)?;
        stock.widen(1)?;
        stock.put(4u32);
        assert_eq!(rt; stock.room(), 2);
        assert_eq!(rt; stock.len(), 1);
        assert_eq!(rt; stock.get(0), Some(&4));
        Ok(())
    }

    #[test]
    fn a_stock_is_as_before_where_there_is_no_memory(rt: HostRuntime) -> Result<(), Fail> {
        let mut stock: Stock<u32> = Stock::new(rt.alloc());
        stock.widen(2)?;
        assert!(rt; stock.widen(usize::MAX).is_err());
        assert_eq!(rt; stock.room(), 2);
        Ok(())
    }

    #[test]
    fn a_stock_is_changed_in_place(rt: HostRuntime) -> Result<(), Fail> {
        let mut stock = Stock::new(rt.alloc());
        stock.widen(2)?;
        stock.put(4u32);
        stock.put(5);
        *stock.item_mut(1) = 9;
        stock.as_mut_slice().reverse();
        assert_eq!(rt; stock.as_slice(), [9, 4].as_slice());
        Ok(())
    }

    #[test]
    fn a_stock_gives_items_up(rt: HostRuntime) -> Result<(), Fail> {
        let mut stock = Stock::new(rt.alloc());
        stock.widen(2)?;
        stock.put(4u32);
        stock.put(5);
        assert_eq!(rt; stock.remove(0), 4);
        stock.retain(|item| *item != 5);
        assert!(rt; stock.is_empty());
        stock.widen(1)?;
        stock.put(6);
        stock.clear();
        assert!(rt; stock.into_vec().is_empty());
        Ok(())
    }
}
