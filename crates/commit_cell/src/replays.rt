//! What a value has to say of itself before it can be shared.
ghost use Rattle.std.specs.Prelude.{ℕ, List};

/// A value that a history of entries leads to.
pub trait Replays: Drop {
    /// One change of the value, as the history has it.
    type Entry;

    // The last value stands for the history, from the first one, the opening.
    ghost stands: { Self → List Self.Entry → Self → Type 0 };

    // The number of the pass that made the entry.
    ghost number: { Self.Entry → ℕ };

    // How many entries that pass had made before.
    ghost serial: { Self.Entry → ℕ };
}
