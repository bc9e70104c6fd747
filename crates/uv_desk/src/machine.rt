//! What stands behind a desk.
ghost use Rattle.std.specs.Prelude.{◌≡◌, ◌≢◌, ℕ, ◌≤◌, List, ◌++◌, length, Option};
ghost use Rattle.uv_order.specs.Names.{NameOnly};

/// A machine that keeps its history, and holds a part of its own for each seat.
pub trait Machine {
    type Input;

    type Output;

    /// One entry of the history.
    type Entry;

    /// What the machine holds for one seat, which no other seat's call changes. No value of it is made.
    type Own;

    /// The entries so far.
    ghost history: { Self → List Self.Entry };

    /// A seat's own part.
    ghost own: { Self → ℕ → Self.Own };

    /// The seat that an entry names, if it names one.
    ghost names: { Self.Entry → Option ℕ };

    /// The condition of `apply`, on the own part of its seat alone.
    ghost may: { Self.Own → Self.Input → Type 0 };

    /// At this history, a seat with this own part: what the input may give, which entries it may make, and the own
    /// part after it.
    ghost answers: { List Self.Entry → ℕ → Self.Own → Self.Input → Self.Output → List Self.Entry → Self.Own → Type 0 };

    /// One turn of a seat: at most one entry, which names that seat or none.
    fn apply(&mut self, seat: u32, input: Self::Input) -> Self::Output
        requires { may (own self.old seat) input }
        ensures answer { (made : List Self.Entry) × (length made ≤ 1) × NameOnly names seat made × (history self.new ≡ history self.old ++ made) × answers (history self.old) seat (own self.old seat) input result made (own self.new seat) }
        ensures others { (n : ℕ) → n ≢ seat → own self.new n ≡ own self.old n };
}
