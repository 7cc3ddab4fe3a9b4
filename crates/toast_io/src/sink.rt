// What takes bytes.
ghost use Rattle.std.specs.Prelude.{◌≡◌, ℕ, List, length, Option, IfOk, OnErr};
ghost use Rattle.std.specs.Io.{WritesAtMost};
ghost use Rattle.std.specs.Io.KnownBytes.{WriteAppends};
ghost use Rattle.toast_io.specs.Faults.{NeverFalls, HasRisen};

use crate::Failed;

/// What takes bytes, as a file or a list in memory.
pub trait Sink {
    /// The bytes that were written, where they are told.
    ghost written: { Self → Option (List ℕ) };

    /// How often a write has failed: a `u64` that never falls. At its last value it stays, and
    /// there it counts as risen.
    ghost faults: { Self → ℕ };

    /// Writes the first bytes of a piece, and answers how many. After `Failed` none was written.
    fn write(&mut self, piece: &[u8]) -> Result<usize, Failed>
        ensures bound { WritesAtMost result piece.now }
        ensures bytes { WriteAppends (written self.old) (written self.new) result piece.now }
        // To take nothing of a longer piece is to fail.
        ensures progress { IfOk result (λ count. count ≡ 0 → length piece.now ≡ 0) }
        ensures count { NeverFalls (faults self.old) (faults self.new) }
        ensures cause { OnErr result (HasRisen (faults self.old) (faults self.new)) };
}
