//! What a value must mean to lie under the lock.

/// A value that stands for a history. It has meanings alone, for proofs, and no code.
pub trait Chronicle {
    /// What never changes of the value. No value of this type is made.
    type Givens;
    /// What the history consists of.
    type Entry;

    ghost use Rattle.std.specs.Prelude.{ℕ, List, Option};

    // What the value was made with.
    ghost givens: { Self → Self.Givens };

    // The history for which the value stands.
    ghost history: { Self → List Self.Entry };

    // The connection to which an entry belongs, or none.
    ghost owner: { Self.Entry → Option ℕ };
}
