//! A change at one place of a slice, where there is such a place.

ghost use Rattle.std.specs.Prelude.{◌≡◌};
ghost use Rattle.uv_num.specs.Place.{at_place};

/// A change of an item. This project's own.
pub trait Changes<T> {
    /// The item after the change.
    ghost changed: { Self → T → T };

    fn change(self, item: &mut T)
        ensures { item.new ≡ changed self item.old };
}

/// A change to a value, whatever stood there. This project's own.
#[derive(Drop)]
pub struct Put<T>(pub T);

impl<T: Drop> Changes<T> for Put<T> {
    ghost changed = { λ put _. put.0 };

    fn change(self, item: &mut T) {
        *item = self.0;
    }
}

/// Makes a change at a place. Where there is no such place, nothing changes.
pub fn change_at<T, C: Changes<T> + Drop>(items: &mut [T], at: usize, change: C)
    ensures { items.new ≡ at_place items.old at (C.changed change) }
{
    if at < items.len() {
        change.change(&mut items[at]);
    }
}

#[cfg(test)]
mod tests {
    use super::*;
    use std::test::Fail;

    #[test]
    fn an_item_is_changed_where_there_is_one(rt: HostRuntime) -> Result<(), Fail> {
        let mut items = [1u32, 2];
        change_at(&mut items, 1, Put(7));
        assert_eq!(rt; items, [1, 7]);
        change_at(&mut items, 2, Put(9));
        assert_eq!(rt; items, [1, 7]);
        Ok(())
    }
}
