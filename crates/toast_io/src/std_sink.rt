// A sink over a writer of std.
ghost use Rattle.std.specs.Prelude.{◌≡◌, IfOk, OnErr, OnOk, length};
ghost use Rattle.std.specs.Io.{WritesAtMost};
ghost use Rattle.std.specs.Io.KnownBytes.{WriteAppends};
ghost use Rattle.toast_io.specs.Faults.{HasRisen, NeverFalls, next_count};

use crate::{Failed, Sink};
use std::io::Write;
use std::marker::Model;

/// A sink over a writer of std, with a count of its failures.
///
/// It tells the bytes that were written where the writer tells them, and so nothing of them for
/// standard output. Each error of the writer counts as a failure, also one that a signal caused, and
/// so does a write that takes nothing of a piece that is not empty.
#[derive(Debug, Drop)]
pub struct StdSink<W> {
    writer: W,
    failures: u64,
}

impl<W> Model for StdSink<W> {
    ghost use Rattle.toast_io.specs.StdParts.{Counted};

    ghost Value = { Counted W };

    ghost view = { λ s. record { inner = s.writer; failures = s.failures } };
}

impl<W: Write> StdSink<W> {
    /// A sink over this writer, which has not failed yet.
    pub fn new(writer: W) -> StdSink<W>
        ensures { result ≡ record { inner = writer; failures = 0 } }
    {
        StdSink {
            writer,
            failures: 0,
        }
    }
}

impl<W: Write> Sink for StdSink<W> {
    ghost written = { λ s. W.contents s.inner };

    ghost faults = { λ s. s.failures };

    fn write(&mut self, piece: &[u8]) -> Result<usize, Failed>
        ensures bound { WritesAtMost result piece.now }
        ensures bytes { WriteAppends (W.contents self.old.inner) (W.contents self.new.inner) result piece.now }
        ensures progress { IfOk result (λ count. count ≡ 0 → length piece.now ≡ 0) }
        ensures count { NeverFalls self.old.failures self.new.failures }
        ensures cause { OnErr result (HasRisen self.old.failures self.new.failures) }

        // Each failure is counted, and nothing else.
        ensures ok { OnOk result (self.new.failures ≡ self.old.failures) }
        ensures err { OnErr result (self.new.failures ≡ next_count self.old.failures) }
    {
        match self.writer.write(piece) {
            Ok(count) if count > 0 || piece.is_empty() => Ok(count),
            _ => {
                self.failures = self.failures.saturating_add(1);
                Err(Failed)
            }
        }
    }
}
