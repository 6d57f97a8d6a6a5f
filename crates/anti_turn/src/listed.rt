ghost use Rattle.std.specs.Prelude.{ℕ, ◌≤◌, List, ◌++◌};

/// A value that stands for a list of entries, each of which has the number of the seat that added it. It has no method: proofs alone read
/// the list.
pub trait Listed {
    /// What an entry is.
    type Entry;
    /// What of the value never changes.
    type Fixed;

    // The entries, in their order.
    ghost list: { Self → List Self.Entry };

    // The number of the seat that added an entry.
    ghost by: { Self.Entry → ℕ };

    // What stays as it was when the turn was made.
    ghost fixed: { Self → Self.Fixed };

    // How far the list has got, for each mark.
    ghost mark: { Self.Fixed → ℕ → List Self.Entry → ℕ };

    // It never falls as the list grows.
    ghost rises: { (part : Self.Fixed) (word : ℕ) (xs ys : List Self.Entry) → mark part word xs ≤ mark part word (xs ++ ys) };
}
