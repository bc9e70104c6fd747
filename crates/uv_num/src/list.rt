//! Lists that grow.

ghost use Rattle.std.specs.Prelude.{◌≡◌, [], ◌∷◌, ◌++◌, ◌<◌, ◌==◌, length, slice_get, remove, replicate, IfOk, OnOk, OnErr, IsSome, ◌↔◌, option_to_list};
ghost use Rattle.std.specs.Option.{option_copied};
ghost use Rattle.std.specs.List.{AllZip};
ghost use Rattle.std.specs.List.Retain.{IsFiltered};
ghost use Rattle.std.specs.Fn.{CalledAt};
ghost use Rattle.std.specs.Cmp.Lexicographic.{pointwise, lists_per};

use std::alloc::{AllocError, Global};
use std::marker::Model;

/// A list, which contracts see as the list of its items. It takes memory as it grows.
#[derive(Debug, Drop)]
pub struct List<T> {
    items: Vec<T>,
}

impl<T> Model for List<T> {
    ghost use Rattle.std.specs.Prelude.{List};
    ghost use Rattle.std.specs.Coded.{coded_list};

    ghost Value = { List T };

    ghost coded = { coded_list T.code };

    ghost view = { λ it. it.items.items };
}

impl<T: PartialEq> PartialEq for List<T> {
    ghost eq = { λ a b. pointwise T.eq a b };

    ghost laws = { lists_per T.laws };

    fn eq(&self, other: &List<T>) -> bool {
        self.items == other.items
    }
}

impl<T: Clone> Clone for List<T> {
    ghost is_clone = { λ a b. AllZip T.is_clone a b };

    fn clone(&self) -> Result<List<T>, AllocError> {
        Ok(List {
            items: self.items.clone()?,
        })
    }
}

impl<T> List<T> {
    ghost use Rattle.std.specs.Borrow.{sem};
    ghost use Rattle.uv_num.specs.ListLending.{lends_slice, lends_item};

    /// The empty list. It takes no memory.
    pub fn new(alloc: Global) -> List<T>
        ensures { result ≡ [] }
    {
        List {
            items: Vec::new(alloc),
        }
    }

    /// The list of a vector's items. It takes no memory.
    pub fn from_vec(items: Vec<T>) -> List<T>
        ensures { result ≡ items.items }
    {
        List { items }
    }

    /// The vector of the items. It takes no memory.
    pub fn into_vec(self) -> Vec<T>
        ensures { result.items ≡ self }
    {
        let List { items } = self;
        items
    }

    /// How many items there are.
    pub fn len(&self) -> usize
        ensures { result ≡ length self.now }
    {
        self.items.len()
    }

    /// Whether there are no items.
    pub fn is_empty(&self) -> bool
        ensures { result ≡ (length self.now == 0) }
    {
        self.items.is_empty()
    }

    /// The items.
    pub fn as_slice(&self) -> &[T]
        ensures { result.now ≡ self.now }
    {
        self.items.as_slice()
    }

    /// The items, to be changed in place. Their number stays.
    pub fn as_mut_slice(&mut self) -> &mut [T]
        ensures* writes_back { sem 𝓛 (lends_slice T.row self.entry result) }
        ensures value { result.now ≡ self.old }
    {
        self.items.as_mut_slice()
    }

    /// The item at a place, if there is one.
    pub fn get(&self, at: usize) -> Option<&T>
        ensures { option_copied result ≡ slice_get self.now at }
    {
        self.items.as_slice().get(at)
    }

    /// The item at a place, to be changed.
    pub fn item_mut(&mut self, at: usize) -> &mut T
        requires { at < length self.old }
        ensures* writes_back { sem 𝓛 (lends_item T.row self.entry at result) }
        ensures value { slice_get self.old at ≡ Some result.now }
    {
        &mut self.items[at]
    }

    /// Takes the last item out, if there is one.
    pub fn pop(&mut self) -> Option<T>
        ensures items { self.old ≡ self.new ++ option_to_list result }
        ensures some { IsSome result ↔ (0 < length self.old) }
    {
        self.items.pop()
    }

    /// Takes the item at a place out.
    pub fn remove(&mut self, at: usize) -> T
        requires { at < length self.old }
        ensures item { slice_get self.old at ≡ Some result }
        ensures rest { self.new ≡ remove self.old at }
    {
        self.items.remove(at)
    }
}

impl<T: Drop> List<T> {
    /// Puts an item behind the others. On an error the list is as it was, and the item is dropped.
    pub fn push(&mut self, item: T) -> Result<(), AllocError>
        ensures ok { OnOk result (self.new ≡ self.old ++ item ∷ []) }
        ensures err { OnErr result (self.new ≡ self.old) }
    {
        self.items.push(item)?;
        Ok(())
    }

    /// Lets all items go. The memory stays.
    pub fn clear(&mut self)
        ensures { self.new ≡ [] }
    {
        self.items.clear();
    }

    /// Keeps the items that a test passes, in their order.
    pub fn retain<F: FnMut(&T) -> bool>(&mut self, f: F)
        requires { F.IsAlwaysCallable f }
        ensures { IsFiltered (CalledAt F.FnMut) f self.old self.new }
    {
        self.items.retain(f);
    }
}

impl<T: Copy> List<T> {
    /// A list of a slice's items.
    pub fn from_slice(alloc: Global, piece: &[T]) -> Result<List<T>, AllocError>
        ensures { IfOk result (λ xs. xs ≡ piece.now) }
    {
        Ok(List {
            items: Vec::from_slice(alloc, piece)?,
        })
    }

    /// Puts a slice's items behind the others. On an error the list is as it was.
    pub fn extend(&mut self, piece: &[T]) -> Result<(), AllocError>
        ensures ok { OnOk result (self.new ≡ self.old ++ piece.now) }
        ensures err { OnErr result (self.new ≡ self.old) }
    {
        self.items.extend_from_slice(piece)
    }

    /// A list of one item so many times.
    pub fn filled(alloc: Global, item: T, count: usize) -> Result<List<T>, AllocError>
        ensures { IfOk result (λ xs. xs ≡ replicate count item) }
    {
        let mut items = Vec::with_capacity(alloc, count)?;
        for _turn in 0..count {
            items.push(item)?;
        }
        Ok(List { items })
    }
}

#[cfg(test)]
mod tests {
    use super::*;
    use std::test::Fail;

    #[test]
    fn a_list_keeps_what_is_pushed(rt: HostRuntime) -> Result<(), Fail> {
        let mut list = List::new(rt.alloc());
        assert!(rt; list.is_empty());
        list.push(4u32)?;
        list.push(5)?;
        assert_eq!(rt; list.len(), 2);
        assert_eq!(rt; list.get(1), Some(&5));
        assert_eq!(rt; list.get(2), None);
        assert_eq!(rt; list.clone()?, list);
        Ok(())
    }

    #[test]
    fn a_list_is_changed_in_place(rt: HostRuntime) -> Result<(), Fail> {
        let mut list = List::from_vec([4u32, 5, 6].to_vec(rt.alloc())?);
        *list.item_mut(1) = 9;
        list.as_mut_slice().reverse();
        assert_eq!(rt; list.as_slice(), [6, 9, 4].as_slice());
        Ok(())
    }

    #[test]
    fn a_list_gives_items_up(rt: HostRuntime) -> Result<(), Fail> {
        let mut list = List::from_vec([4u32, 5, 6].to_vec(rt.alloc())?);
        assert_eq!(rt; list.remove(0), 4);
        list.retain(|item| *item != 6);
        assert_eq!(rt; list.into_vec().as_slice(), [5].as_slice());
        Ok(())
    }

    #[test]
    fn a_list_is_made_of_copies(rt: HostRuntime) -> Result<(), Fail> {
        let mut list = List::filled(rt.alloc(), 7u8, 2)?;
        list.extend(&[8])?;
        assert_eq!(rt; list, List::from_slice(rt.alloc(), &[7, 7, 8])?);
        assert_eq!(rt; list.pop(), Some(8));
        list.clear();
        assert!(rt; list.is_empty());
        Ok(())
    }
}
