//! The log.

ghost use Rattle.std.specs.Prelude.{◌≡◌, ◌≤◌, ◌<◌, ◌+◌, ◌-◌, ◌++◌, ◌∷◌, [], length, OnErr, OnOk, slice_get, vec_capacity, vec_len};
ghost use Rattle.std.specs.Option.{option_copied};

use crate::entry::LogEntry;
use std::alloc::{AllocError, Global};
use std::marker::Model;

/// The log: its entries in the order in which they were made, and room for the end entries that
/// transactions will add.
///
/// Contracts see the entries, and for how many ends room is kept. Other room they do not see.
#[derive(Debug, Drop)]
pub struct Log {
    entries: Vec<LogEntry>,
    ends: usize,
}

impl Model for Log {
    ghost use Rattle.std.specs.Prelude.{◌≤◌, ◌+◌, vec_capacity, vec_len};
    ghost use Rattle.change_log.specs.Logs.{LogState};

    ghost Value = { LogState };

    ghost view = { λ log. record { entries = log.entries.items; ends = log.ends } };

    ghost invariant = { λ log. vec_len log.entries + log.ends ≤ vec_capacity log.entries };
}

impl Log {
    /// An empty log, which takes no memory yet.
    pub fn new(alloc: Global) -> Log
        ensures entries { result.entries ≡ [] }
        ensures ends { result.ends ≡ 0 }
    {
        Log {
            entries: Vec::new(alloc),
            ends: 0,
        }
    }

    /// Keeps room for one end entry more, so that `append_end` takes no memory for it.
    ///
    /// Where there is no memory, all is as before.
    pub fn reserve_end(&mut self) -> Result<(), AllocError>
        ensures ok { OnOk result (self.new ≡ record self.old { ends = self.old.ends + 1 }) }
        ensures err { OnErr result (self.new ≡ self.old) }
    {
        let ends = self.ends.checked_add(1).ok_or(AllocError)?;
        self.entries.reserve(ends)?;
        self.ends = ends;
        Ok(())
    }

    /// Gives up the room that is kept for one end.
    pub fn give_up_end(&mut self)
        requires { 1 ≤ self.old.ends }
        ensures { self.new ≡ record self.old { ends = self.old.ends - 1 } }
    {
        self.ends -= 1;
    }

    /// Makes room for one entry besides the ends, so that the next `append` takes no memory if no
    /// other call changes the log before it.
    pub fn reserve(&mut self) -> Result<(), AllocError>
        ensures { self.new ≡ self.old }
    {
        let more = self.ends.checked_add(1).ok_or(AllocError)?;
        self.entries.reserve(more)?;
        Ok(())
    }

    /// Adds an entry, and keeps the room for the ends.
    ///
    /// Where there is no memory, the entry is dropped and all is as before.
    pub fn append(&mut self, entry: LogEntry) -> Result<(), AllocError>
        ensures ok { OnOk result (self.new ≡ record self.old { entries = self.old.entries ++ entry ∷ [] }) }
        ensures err { OnErr result (self.new ≡ self.old) }
    {
        let room = self.ends.checked_add(1).ok_or(AllocError)?;
        self.entries.reserve(room)?;
        push_kept(&mut self.entries, entry);
        Ok(())
    }

    /// Adds an end entry, for which room is kept.
    pub fn append_end(&mut self, end: LogEntry)
        requires { 1 ≤ self.old.ends }
        ensures { self.new ≡ record self.old { entries = self.old.entries ++ end ∷ []; ends = self.old.ends - 1 } }
    {
        self.ends -= 1;
        push_kept(&mut self.entries, end);
    }

    /// The number of entries.
    pub fn len(&self) -> usize
        ensures { result ≡ length self.now.entries }
    {
        self.entries.len()
    }

    /// The entry at a place, counted from 0, if there is one.
    pub fn at(&self, n: usize) -> Option<&LogEntry>
        ensures { option_copied result ≡ slice_get self.now.entries n }
    {
        self.entries.get(n)
    }
}

/// Adds an entry for which there is room.
fn push_kept(entries: &mut Vec<LogEntry>, entry: LogEntry)
    requires { vec_len entries.old < vec_capacity entries.old }
    ensures items { entries.new.items ≡ entries.old.items ++ entry ∷ [] }
    ensures len { vec_len entries.new ≡ vec_len entries.old + 1 }
    ensures capacity { vec_capacity entries.old ≤ vec_capacity entries.new }
{
    match entries.push(entry) {
        Ok(()) => {}
        Err(_) => unreachable!(),
    }
}
