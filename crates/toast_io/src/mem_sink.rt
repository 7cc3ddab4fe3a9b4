// A sink in memory.
ghost use Rattle.std.specs.Prelude.{◌≡◌, ◌≤◌, ◌↔◌, [], IfOk, IsErr, OnErr, Some, length, min};
ghost use Rattle.std.specs.Io.{WritesAtMost};
ghost use Rattle.std.specs.Io.KnownBytes.{WriteAppends};
ghost use Rattle.toast_io.specs.Faults.{NeverFalls, HasRisen};
ghost use Rattle.toast_io.specs.MemSink.{IsRefused, after_failed_write, after_write};

use crate::{CallList, Failed, Sink};
use std::alloc::{AllocError, Global};
use std::marker::Model;

/// A sink into memory, which takes a bounded number of bytes and fails at chosen calls.
///
/// Calls are numbered from 0. The last number of a `u64` stands for that call and every later one.
#[derive(Debug, Drop)]
pub struct MemSink {
    bytes: Vec<u8>,
    room: usize,
    fails: CallList,
    calls: u64,
    failures: u64,
}

impl Model for MemSink {
    ghost use Rattle.std.specs.Prelude.{◌≤◌, ◌+◌, vec_len, vec_capacity};
    ghost use Rattle.toast_io.specs.MemSink.{SinkInMemory};

    ghost Value = { SinkInMemory };

    ghost view = { λ s. record { bytes = s.bytes.items; room = s.room; fails = s.fails; calls = s.calls; failures = s.failures } };

    ghost invariant = { λ s. vec_len s.bytes + s.room ≤ vec_capacity s.bytes };
}

impl MemSink {
    /// An empty sink that takes `room` bytes, whose memory it reserves. The calls whose numbers are
    /// in `fails` fail and take nothing, and so does one whose piece is not empty once no room is left.
    pub fn new(alloc: Global, room: usize, fails: CallList) -> Result<MemSink, AllocError>
        ensures { IfOk result (λ sink. sink ≡ record { bytes = []; room = room; fails = fails; calls = 0; failures = 0 }) }
    {
        let bytes = Vec::with_capacity(alloc, room)?;
        Ok(MemSink {
            bytes,
            room,
            fails,
            calls: 0,
            failures: 0,
        })
    }

    /// The bytes that were written.
    pub fn written(&self) -> &[u8]
        ensures { result.now ≡ self.now.bytes }
    {
        self.bytes.as_slice()
    }
}

impl Sink for MemSink {
    ghost written = { λ s. Some s.bytes };

    ghost faults = { λ s. s.failures };

    fn write(&mut self, piece: &[u8]) -> Result<usize, Failed>
        ensures bound { WritesAtMost result piece.now }
        ensures bytes { WriteAppends (Some self.old.bytes) (Some self.new.bytes) result piece.now }
        ensures progress { IfOk result (λ count. count ≡ 0 → length piece.now ≡ 0) }
        ensures count { NeverFalls self.old.failures self.new.failures }
        ensures cause { OnErr result (HasRisen self.old.failures self.new.failures) }

        // Which calls fail, how much the others take, and what each leaves.
        ensures refused { IsErr result ↔ IsRefused self.old piece.now }
        ensures takes { IfOk result (λ count. count ≡ min self.old.room (length piece.now)) }
        ensures ok { IfOk result (λ count. self.new ≡ after_write self.old piece.now count) }
        ensures err { OnErr result (self.new ≡ after_failed_write self.old) }
    {
        let number = self.calls;
        self.calls = number.saturating_add(1);
        let count = self.room.min(piece.len());
        let takes_nothing = count == 0 && !piece.is_empty();
        if takes_nothing || self.fails.as_slice().contains(&number) {
            self.failures = self.failures.saturating_add(1);
            return Err(Failed);
        }
        match self.bytes.extend_from_slice(&piece[..count]) {
            Ok(()) => {}
            Err(_) => unreachable!(),
        }
        self.room -= count;
        Ok(count)
    }
}
