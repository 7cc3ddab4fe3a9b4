// A source over a reader of std.
ghost use Rattle.std.specs.Prelude.{◌≡◌, OnErr, OnOk};
ghost use Rattle.std.specs.Io.{ReadsAtMost};
ghost use Rattle.std.specs.Io.KnownBytes.{ReadConsumes};
ghost use Rattle.toast_io.specs.Faults.{HasRisen, NeverFalls, next_count};

use crate::{Failed, Source};
use std::io::Read;
use std::marker::Model;

/// A source over a reader of std, with a count of its failures.
///
/// It tells the bytes that are left where the reader tells them, and so nothing of them for standard
/// input. Each error of the reader counts as a failure, also one that a signal caused.
#[derive(Debug, Drop)]
pub struct StdSource<R> {
    reader: R,
    failures: u64,
}

impl<R> Model for StdSource<R> {
    ghost use Rattle.toast_io.specs.StdParts.{Counted};

    ghost Value = { Counted R };

    ghost view = { λ s. record { inner = s.reader; failures = s.failures } };
}

impl<R: Read> StdSource<R> {
    /// A source over this reader, which has not failed yet.
    pub fn new(reader: R) -> StdSource<R>
        ensures { result ≡ record { inner = reader; failures = 0 } }
    {
        StdSource {
            reader,
            failures: 0,
        }
    }
}

impl<R: Read> Source for StdSource<R> {
    ghost left = { λ s. R.remaining s.inner };

    ghost faults = { λ s. s.failures };

    fn read(&mut self, buf: &mut [u8]) -> Result<usize, Failed>
        ensures bound { ReadsAtMost result buf.new }
        ensures bytes { ReadConsumes (R.remaining self.old.inner) (R.remaining self.new.inner) result buf.new }
        ensures count { NeverFalls self.old.failures self.new.failures }
        ensures cause { OnErr result (HasRisen self.old.failures self.new.failures) }

        // Each failure is counted, and nothing else.
        ensures ok { OnOk result (self.new.failures ≡ self.old.failures) }
        ensures err { OnErr result (self.new.failures ≡ next_count self.old.failures) }
    {
        match self.reader.read(buf) {
            Ok(count) => Ok(count),
            Err(_) => {
                self.failures = self.failures.saturating_add(1);
                Err(Failed)
            }
        }
    }
}
