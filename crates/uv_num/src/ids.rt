//! Short lists of ids, held in place.

ghost use Rattle.std.specs.Prelude.{◌≡◌, [], ◌∷◌, ◌++◌, ◌<◌, ◌==◌, length, slice_get, drop};
ghost use Rattle.std.specs.List.{list_any};
ghost use Rattle.uv_num.specs.Ids.{ids_of, ids_and, ids_behind, first_alone, is_number};

/// At most four ids of objects, in order: as many as any request looks at. This project's own.
#[derive(Clone, Copy, Debug, PartialEq, Eq)]
pub enum Ids {
    /// No ids.
    Empty,
    /// One id.
    One(u32),
    /// Two ids.
    Two(u32, u32),
    /// Three ids.
    Three(u32, u32, u32),
    /// Four ids.
    Four(u32, u32, u32, u32),
}

impl Ids {
    /// No ids.
    pub fn none() -> Ids
        ensures { ids_of result ≡ [] }
    {
        Ids::Empty
    }

    /// One id.
    pub fn one(id: u32) -> Ids
        ensures { ids_of result ≡ id ∷ [] }
    {
        Ids::One(id)
    }

    /// The ids with one more behind them.
    pub fn put(self, id: u32) -> Ids
        requires { length (ids_of self) < 4 }
        ensures { ids_of result ≡ ids_of self ++ id ∷ [] }
    {
        match self {
            Ids::Empty => Ids::One(id),
            Ids::One(a) => Ids::Two(a, id),
            Ids::Two(a, b) => Ids::Three(a, b, id),
            Ids::Three(a, b, c) => Ids::Four(a, b, c, id),
            Ids::Four(..) => unreachable!(),
        }
    }

    /// The ids with one more behind them. Four have no room for another and stay.
    pub fn and(self, id: u32) -> Ids
        ensures { result ≡ ids_and self id }
    {
        match self {
            Ids::Empty => Ids::One(id),
            Ids::One(a) => Ids::Two(a, id),
            Ids::Two(a, b) => Ids::Three(a, b, id),
            Ids::Three(a, b, c) => Ids::Four(a, b, c, id),
            Ids::Four(a, b, c, d) => Ids::Four(a, b, c, d),
        }
    }

    /// The ids behind the first one.
    pub fn behind(self) -> Ids
        ensures { result ≡ ids_behind self }
    {
        match self {
            Ids::Empty | Ids::One(_) => Ids::Empty,
            Ids::Two(_, next) => Ids::One(next),
            Ids::Three(_, b, c) => Ids::Two(b, c),
            Ids::Four(_, b, c, d) => Ids::Three(b, c, d),
        }
    }

    /// The first id alone.
    pub fn first_alone(self) -> Ids
        ensures { result ≡ first_alone self }
    {
        match self {
            Ids::Empty => Ids::Empty,
            Ids::One(a) | Ids::Two(a, _) | Ids::Three(a, _, _) | Ids::Four(a, _, _, _) => Ids::One(
                a,
            ),
        }
    }

    /// How many ids there are, at most 4.
    pub fn len(self) -> usize
        ensures { result ≡ length (ids_of self) }
    {
        match self {
            Ids::Empty => 0,
            Ids::One(..) => 1,
            Ids::Two(..) => 2,
            Ids::Three(..) => 3,
            Ids::Four(..) => 4,
        }
    }

    /// Whether there are no ids.
    pub fn is_empty(self) -> bool
        ensures { result ≡ (length (ids_of self) == 0) }
    {
        self.len() == 0
    }

    /// Whether this id is among them.
    pub fn contains(self, id: u32) -> bool
        ensures { result ≡ list_any (is_number id) (ids_of self) }
    {
        match self {
            Ids::Empty => false,
            Ids::One(a) => a == id,
            Ids::Two(a, b) => a == id || b == id,
            Ids::Three(a, b, c) => a == id || b == id || c == id,
            Ids::Four(a, b, c, d) => a == id || b == id || c == id || d == id,
        }
    }

    /// The ids without the first one, if there is one.
    pub fn without_first(self) -> Ids
        ensures { ids_of result ≡ drop 1 (ids_of self) }
    {
        match self {
            Ids::Empty | Ids::One(_) => Ids::Empty,
            Ids::Two(_, b) => Ids::One(b),
            Ids::Three(_, b, c) => Ids::Two(b, c),
            Ids::Four(_, b, c, d) => Ids::Three(b, c, d),
        }
    }

    /// The first id, if there is one.
    pub fn first(self) -> Option<u32>
        ensures { result ≡ slice_get (ids_of self) 0 }
    {
        match self {
            Ids::Empty => None,
            Ids::One(a) | Ids::Two(a, _) | Ids::Three(a, _, _) | Ids::Four(a, _, _, _) => Some(a),
        }
    }

    /// The id at a place, if there is one.
    pub fn get(self, place: usize) -> Option<u32>
        ensures { result ≡ slice_get (ids_of self) place }
    {
        match self {
            Ids::Empty => None,
            Ids::One(a) => [a].get(place).copied(),
            Ids::Two(a, b) => [a, b].get(place).copied(),
            Ids::Three(a, b, c) => [a, b, c].get(place).copied(),
            Ids::Four(a, b, c, d) => [a, b, c, d].get(place).copied(),
        }
    }
}

#[cfg(test)]
mod tests {
    use super::*;
    use std::test::Fail;

    #[test]
    fn ids_keep_their_order(rt: HostRuntime) -> Result<(), Fail> {
        let ids = Ids::none().put(5).put(6).put(7).put(8);
        assert_eq!(rt; ids.len(), 4);
        assert!(rt; !ids.is_empty());
        assert!(rt; ids.contains(8));
        assert!(rt; !ids.contains(9));
        assert_eq!(rt; ids.first(), Some(5));
        assert_eq!(rt; ids.get(2), Some(7));
        assert_eq!(rt; ids.get(4), None);
        assert_eq!(rt; ids.without_first().first(), Some(6));
        assert_eq!(rt; Ids::one(5).without_first(), Ids::Empty);
        Ok(())
    }
}
