// What gives bytes.
ghost use Rattle.std.specs.Prelude.{ℕ, List, Option, OnErr};
ghost use Rattle.std.specs.Io.{ReadsAtMost};
ghost use Rattle.std.specs.Io.KnownBytes.{ReadConsumes};
ghost use Rattle.toast_io.specs.Faults.{NeverFalls, HasRisen};

use crate::Failed;

/// What gives bytes, as a file or a list in memory.
pub trait Source {
    /// The bytes that are not yet read, where they are told.
    ghost left: { Self → Option (List ℕ) };

    /// How often a read has failed: a `u64` that never falls. At its last value it stays, and
    /// there it counts as risen.
    ghost faults: { Self → ℕ };

    /// Reads into the front of `buf`, and answers how many bytes. For a buffer that is not empty,
    /// 0 means the end. After `Failed` nothing was taken.
    fn read(&mut self, buf: &mut [u8]) -> Result<usize, Failed>
        ensures bound { ReadsAtMost result buf.new }
        // Where told, the bytes given are the first of those left, which are none after an answer of 0
        // for a buffer that is not empty.
        ensures bytes { ReadConsumes (left self.old) (left self.new) result buf.new }
        ensures count { NeverFalls (faults self.old) (faults self.new) }
        ensures cause { OnErr result (HasRisen (faults self.old) (faults self.new)) };
}
