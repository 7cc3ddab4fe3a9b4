// A source in memory.
ghost use Rattle.std.specs.Prelude.{◌≡◌, ◌<◌, ◌≤◌, ◌↔◌, [], Contains, IfOk, IsErr, List, OnErr, Some, drop, length, min, take, ℕ};
ghost use Rattle.std.specs.Io.{ReadsAtMost};
ghost use Rattle.std.specs.Io.KnownBytes.{ReadConsumes};
ghost use Rattle.toast_io.specs.Faults.{NeverFalls, HasRisen};
ghost use Rattle.toast_io.specs.MemSource.{after_read, after_failed_read};

use crate::{Bytes, CallList, Failed, Source};
use std::alloc::Global;
use std::marker::Model;

/// A source over bytes in memory, which gives them in pieces and fails at chosen calls.
///
/// Calls are numbered from 0. The last number of a `u64` stands for that call and every later one.
#[derive(Debug, Drop)]
pub struct MemSource {
    alloc: Global,
    bytes: Bytes,
    at: usize,
    piece: usize,
    fails: CallList,
    calls: u64,
    failures: u64,
}

impl Model for MemSource {
    ghost use Rattle.std.specs.Prelude.{◌≤◌, ◌<◌, drop, length};
    ghost use Rattle.toast_io.specs.MemSource.{SourceInMemory};

    ghost Value = { SourceInMemory };

    ghost view = { λ s. record { unread = drop s.at s.bytes; piece = s.piece; fails = s.fails; calls = s.calls; failures = s.failures } };

    ghost invariant = { λ s. (s.at ≤ length s.bytes) × (0 < s.piece) };
}

impl MemSource {
    /// A source of these bytes, at most `piece` of them in a call. The calls whose numbers are in
    /// `fails` fail and take nothing.
    pub fn new(alloc: Global, bytes: Bytes, piece: usize, fails: CallList) -> MemSource
        requires { 1 ≤ piece }
        ensures { result ≡ record { unread = bytes; piece = piece; fails = fails; calls = 0; failures = 0 } }
    {
        MemSource {
            alloc,
            bytes,
            at: 0,
            piece,
            fails,
            calls: 0,
            failures: 0,
        }
    }
}

impl Source for MemSource {
    ghost left = { λ s. Some s.unread };

    ghost faults = { λ s. s.failures };

    fn read(&mut self, buf: &mut [u8]) -> Result<usize, Failed>
        ensures bound { ReadsAtMost result buf.new }
        ensures bytes { ReadConsumes (Some self.old.unread) (Some self.new.unread) result buf.new }
        ensures count { NeverFalls self.old.failures self.new.failures }
        ensures cause { OnErr result (HasRisen self.old.failures self.new.failures) }

        // Which calls fail, how much the others give, and what each leaves.
        ensures fails { IsErr result ↔ Contains self.old.fails self.old.calls }
        ensures gives { IfOk result (λ n. n ≡ min self.old.piece (min (length buf.old) (length self.old.unread))) }
        ensures ok { IfOk result (λ n. self.new ≡ after_read self.old n) }
        ensures err { OnErr result (self.new ≡ after_failed_read self.old) }
    {
        let number = self.calls;
        self.calls = number.saturating_add(1);
        if self.fails.as_slice().contains(&number) {
            self.failures = self.failures.saturating_add(1);
            return Err(Failed);
        }
        let rest = &self.bytes.as_slice()[self.at..];
        let count = self.piece.min(buf.len()).min(rest.len());
        buf[..count].copy_from_slice(&rest[..count]);
        self.at += count;
        Ok(count)
    }
}
