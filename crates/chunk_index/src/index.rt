//! The index.

ghost use Rattle.std.specs.Prelude.{◌≡◌, ◌<◌, [], Contains, None, length, nat_lt, slice_get, IfOk, IfSome, OnErr, OnOk};
ghost use Rattle.std.specs.List.Sorted.{IsSorted};
ghost use Rattle.slot_page.specs.Tids.{tid_cmp};
ghost use Rattle.chunk_index.specs.Entries.{of_id, wanted_of, with_entry};
ghost use Rattle.chunk_index.specs.Leaves.{leaf_at};
ghost use Rattle.chunk_index.specs.Pinned.{pin_of, without_pin};
ghost use Rattle.chunk_index.specs.Indexes.{IsIndex, after_batch, after_sweep, batch_of, bounds_with, sweep_answer};

use crate::TidList;
use crate::entry::{Batch, Entry, Swept};
use crate::leaves::Leaves;
use crate::pins::Pins;
use crate::wanted::Wanted;
use std::alloc::{AllocError, Global};
use std::marker::Model;

/// The index of a table's chunks.
///
/// Contracts see the entries in order, the bounds of the leaves after the first, and the pins.
#[derive(Debug, Drop)]
pub struct ChunkIndex {
    leaves: Leaves,
    pins: Pins,
}

impl Model for ChunkIndex {
    ghost use Rattle.chunk_index.specs.Indexes.{Index, IsIndex};

    ghost Value = { Index };

    ghost view = { λ index. record { entries = index.leaves.entries; bounds = index.leaves.bounds; pins = index.pins } };

    ghost invariant = { λ index. IsIndex (record { entries = index.leaves.entries; bounds = index.leaves.bounds; pins = index.pins }) };
}

impl ChunkIndex {
    /// An index with no entry, whose first leaf is there.
    pub fn new(alloc: Global) -> Result<Self, AllocError>
        ensures empty { IfOk result (λ index. index ≡ record { entries = []; bounds = []; pins = [] }) }
        ensures sound { IfOk result IsIndex }
    {
        Ok(ChunkIndex {
            leaves: Leaves::new(alloc)?,
            pins: Pins::new(alloc),
        })
    }

    /// Adds an entry that is not there. A leaf that it gives too many entries is split, and a pin of it stays
    /// with the lower part. Where there is no memory, the index stays.
    pub fn insert(&mut self, e: Entry) -> Result<(), AllocError>
        requires { Contains self.old.entries e → ⊥ }
        ensures entries { OnOk result (self.new.entries ≡ with_entry self.old.entries e) }
        ensures bounds { OnOk result (self.new.bounds ≡ bounds_with self.old.bounds self.old.entries e) }
        ensures pins { self.new.pins ≡ self.old.pins }
        ensures unchanged { OnErr result (self.new ≡ self.old) }
        ensures sound { IsIndex self.new }
    {
        self.leaves.insert(e)?;
        Ok(())
    }

    /// The entries of a value with numbers from `from` up to `to` and, where `after` is given, beyond it:
    /// all of the first leaf that has one. That leaf is then pinned for the session, which has no pin yet.
    /// Where no entry is wanted, nothing is pinned. Where there is no memory, the index stays.
    pub fn batch(
        &mut self,
        value_id: u32,
        from: u32,
        to: u32,
        after: Option<Entry>,
        session: u16,
    ) -> Result<Batch, AllocError>
        requires { pin_of self.old.pins session ≡ None }
        ensures entries { IfOk result (λ batch. batch.entries ≡ batch_of self.old.bounds (wanted_of value_id from to after self.old.entries)) }
        ensures more { IfOk result (λ batch. batch.more ≡ nat_lt (length batch.entries) (length (wanted_of value_id from to after self.old.entries))) }
        ensures pinned { OnOk result (self.new ≡ after_batch self.old session (wanted_of value_id from to after self.old.entries)) }
        ensures unchanged { OnErr result (self.new ≡ self.old) }
        ensures sound { IsIndex self.new }
    {
        let wanted = Wanted {
            value_id,
            from,
            to,
            after,
        };
        let (batch, leaf) = self.leaves.batch(&wanted)?;
        if batch.entries.is_empty() {
            return Ok(batch);
        }
        self.pins.pin(session, leaf)?;
        Ok(batch)
    }

    /// Drops a session's pin, if it has one.
    pub fn unpin(&mut self, session: u16)
        ensures dropped { self.new ≡ record self.old { pins = without_pin self.old.pins session } }
        ensures sound { IsIndex self.new }
    {
        self.pins.unpin(session);
    }

    /// The n-th entry of a value, counted from 0, in order. It takes time logarithmic in the number of
    /// leaves, and for a value of many leaves reads the length of each leaf up to the entry.
    pub fn nth_of(&self, value_id: u32, n: usize) -> Option<Entry>
        ensures entry { result ≡ slice_get (of_id value_id self.now.entries) n }
        ensures within { IfSome result (λ _. n < usize.MAX) }
        ensures sound { IsIndex self.now }
    {
        self.leaves.nth_of(value_id, n)
    }

    /// Takes the entries away whose tids are listed from the leaf that `from` lies in, or from the first
    /// one. The tids are in order. A leaf that a session has pinned stays as it is. A leaf other than the
    /// first that is left empty is gone, and the leaf before it has its range.
    pub fn sweep_leaf(&mut self, from: Option<Entry>, dead: &TidList) -> Swept
        requires { IsSorted tid_cmp dead.now }
        ensures answer { result ≡ sweep_answer self.old (leaf_at self.old.bounds from) dead.now }
        ensures swept { self.new ≡ after_sweep self.old (leaf_at self.old.bounds from) dead.now }
        ensures sound { IsIndex self.new }
    {
        let leaf = self.leaves.leaf_at(&from);
        if let Some(holder) = self.pins.holder(&leaf) {
            return Swept::Pinned { holder };
        }
        let (count, next) = self.leaves.sweep(&from, dead);
        let removed = count as u64;
        match next {
            Some(from) => Swept::Next { from, removed },
            None => Swept::End { removed },
        }
    }
}
