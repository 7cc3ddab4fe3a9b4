//! The values that a hall can hold.
ghost use Rattle.std.specs.Prelude.{◌≡◌, ℕ, ◌^◌, ◌<◌, List, length};

/// A value with a history that only grows.
pub trait Counted: Drop {
    /// What no turn changes.
    type Fixed;

    // The history, each entry as three numbers. The holder adds at most one in a turn.
    ghost entries: { Self → List (ℕ × ℕ × ℕ) };

    ghost fixed: { Self → Self.Fixed };

    /// The length of the history, which is below 2^62.
    fn count(&self) -> u64
        ensures count { result ≡ length (entries self.now) }
        ensures short { result < 2 ^ 62 };
}
