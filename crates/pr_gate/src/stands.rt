//! What a value has to say of itself to stand in a gate.
ghost use Rattle.std.specs.Prelude.{ℕ, List};

/// A value that stands for a list of entries, the oldest first.
///
/// The trait has no function: its members exist in proofs alone. An entry is what one turn did, as
/// data without functions.
pub trait Stands {
    /// What one turn did, and which pass made it. The last one lies beside the value in the gate.
    type Entry: Drop + Send;

    /// What no turn changes, as the configuration that the value began with.
    type Ground;

    // The number of the pass that an entry names.
    ghost number: { Self.Entry → ℕ };

    // The ground of a value.
    ghost ground: { Self → Self.Ground };

    // The value is as these entries, one after the other, left it.
    ghost stands: { Self → List Self.Entry → Type 0 };
}
