//! The store.

ghost use Rattle.std.specs.Prelude.{◌≡◌, ◌≤◌, ◌<◌, ◌++◌, [], Some, None, Contains, count_by, length, nat_lt, IfOk, OnErr, OnOk};
ghost use Rattle.std.specs.List.Sorted.{IsSorted};
ghost use Rattle.slot_page.specs.Tids.{tid_cmp};
ghost use Rattle.slot_page.specs.Slots.{IsDead, IsNormal};
ghost use Rattle.slot_page.specs.Pages.{page_at, put_tid, slot_of, with_put_on, written};
ghost use Rattle.slot_page.specs.declared.line.LinePointer.{LinePointer};
ghost use Rattle.chunk_relation.specs.Chunks.{chunk_tuple_size, is_newly_dead, new_chunk};
ghost use Rattle.slice_fetch.specs.Spans.{chunk_size};
ghost use Rattle.slot_page.specs.DeadSlots.{dead_tids};
ghost use Rattle.chunk_relation.specs.Relations.{AreAssigned, with_ended, with_pruned};
ghost use Rattle.chunk_index.specs.Entries.{wanted_of, with_entry};
ghost use Rattle.chunk_index.specs.Leaves.{leaf_at};
ghost use Rattle.chunk_index.specs.Pinned.{pin_of, without_pin};
ghost use Rattle.chunk_index.specs.Indexes.{after_batch, after_sweep, batch_of, bounds_with, sweep_answer};
ghost use Rattle.toast_store.specs.Stores.{IsStore, IsUnnamed, NamesChunk};

use chunk_index::{Batch, ChunkIndex, Entry, Swept};
use chunk_relation::ChunkRel;
use slot_page::{Tid, TidList};
use std::alloc::{AllocError, Global};
use std::marker::Model;
use value_ids::IdTest;
use xact_status::XactTable;

/// A table's values out of line: a relation of chunks, and the index that names them.
///
/// Contracts see both parts. Each entry of the index names a chunk of its id and number or a dead slot,
/// and no two entries name one slot.
#[derive(Debug, Drop)]
pub struct ToastStore {
    rel: ChunkRel,
    index: ChunkIndex,
}

impl Model for ToastStore {
    ghost use Rattle.toast_store.specs.Stores.{IsStore, Store};

    ghost Value = { Store };

    ghost view = { λ store. record { rel = store.rel; index = store.index } };

    ghost invariant = { λ store. IsStore (record { rel = store.rel; index = store.index }) };
}

impl ToastStore {
    /// A store whose relation has this id, with no chunk and no entry. The error is for want of memory.
    pub fn new(alloc: Global, rel_id: u32) -> Result<Self, AllocError>
        ensures empty { IfOk result (λ store. store ≡ record { rel = record { rel_id = rel_id; pages = [] }; index = record { entries = []; bounds = []; pins = [] } }) }
        ensures sound { IfOk result IsStore }
    {
        Ok(ToastStore {
            rel: ChunkRel::new(alloc, rel_id),
            index: ChunkIndex::new(alloc)?,
        })
    }

    /// What is true of each store, told where a proof needs it; it does nothing.
    pub(crate) fn facts(&self)
        ensures { IsStore self.now }
    {
        let _ = &self.rel;
    }

    /// The relation of the chunks.
    pub fn rel(&self) -> &ChunkRel
        ensures rel { result.now ≡ self.now.rel }
        ensures sound { IsStore self.now }
    {
        &self.rel
    }

    /// The index.
    pub fn index(&self) -> &ChunkIndex
        ensures index { result.now ≡ self.now.index }
        ensures sound { IsStore self.now }
    {
        &self.index
    }

    /// Puts a chunk, of 1 to 1,996 bytes, on the lowest page where it fits, else on a new one, and
    /// answers its tid. Where there is no memory, the store stays.
    pub fn put_chunk(
        &mut self,
        value_id: u32,
        seq: u32,
        inserter: u64,
        bytes: &[u8],
    ) -> Result<Tid, AllocError>
        requires least { 1 ≤ length bytes.now }
        requires most { length bytes.now ≤ chunk_size }
        ensures tid { IfOk result (λ tid. tid ≡ put_tid (chunk_tuple_size (length bytes.now)) self.old.rel.pages) }
        ensures put { OnOk result (self.new ≡ record self.old { rel = record self.old.rel { pages = with_put_on (chunk_tuple_size (length bytes.now)) (new_chunk value_id seq inserter bytes.now) self.old.rel.pages } }) }
        ensures unchanged { OnErr result (self.new ≡ self.old) }
        ensures sound { IsStore self.new }
    {
        let tid = self.rel.put_chunk(value_id, seq, inserter, bytes)?;
        Ok(tid)
    }

    /// Marks the chunk at a tid as ended by a transaction, whatever ended it before.
    pub fn set_ender(&mut self, tid: Tid, xid: u64)
        requires { IsNormal (slot_of self.old.rel.pages tid) }
        ensures ended { self.new ≡ record self.old { rel = record self.old.rel { pages = with_ended xid self.old.rel.pages tid } } }
        ensures sound { IsStore self.new }
    {
        self.rel.set_ender(tid, xid);
    }

    /// Makes the slots of a page dead whose chunks no reader can see under a horizon, adds the tids of
    /// all the page's dead slots to a list, in order, and answers how many are new. Where there is no
    /// memory, the store and the list stay.
    pub fn prune_page(
        &mut self,
        page: u64,
        xacts: &XactTable,
        horizon: u64,
        dead: &mut TidList,
    ) -> Result<u32, AllocError>
        requires there { page < length self.old.rel.pages }
        requires assigned { AreAssigned xacts.now self.old.rel.pages }
        ensures count { IfOk result (λ count. count ≡ count_by (is_newly_dead xacts.now horizon) (page_at self.old.rel.pages page)) }
        ensures pruned { OnOk result (self.new ≡ record self.old { rel = record self.old.rel { pages = with_pruned xacts.now horizon self.old.rel.pages page } }) }
        ensures gathered { OnOk result (dead.new ≡ dead.old ++ dead_tids page (page_at self.new.rel.pages page)) }
        ensures unchanged { OnErr result (self.new ≡ self.old) }
        ensures list { OnErr result (dead.new ≡ dead.old) }
        ensures sound { IsStore self.new }
    {
        let count = self.rel.prune_page(page, xacts, horizon, dead)?;
        Ok(count)
    }

    /// Frees a dead slot, which no entry names any more, for another chunk.
    pub fn reap(&mut self, tid: Tid)
        requires dead { IsDead (slot_of self.old.rel.pages tid) }
        requires unnamed { IsUnnamed self.old.index.entries tid }
        ensures freed { self.new ≡ record self.old { rel = record self.old.rel { pages = written self.old.rel.pages tid LinePointer.Unused } } }
        ensures sound { IsStore self.new }
    {
        self.rel.reap(tid);
    }

    /// Adds an entry that is not there, of a chunk that no entry names yet. Where there is no memory, the
    /// store stays.
    pub fn insert(&mut self, e: Entry) -> Result<(), AllocError>
        requires absent { Contains self.old.index.entries e → ⊥ }
        requires names { NamesChunk self.old.rel.pages e }
        requires unnamed { IsUnnamed self.old.index.entries e.tid }
        ensures rel { self.new.rel ≡ self.old.rel }
        ensures entries { OnOk result (self.new.index.entries ≡ with_entry self.old.index.entries e) }
        ensures bounds { OnOk result (self.new.index.bounds ≡ bounds_with self.old.index.bounds self.old.index.entries e) }
        ensures pins { self.new.index.pins ≡ self.old.index.pins }
        ensures unchanged { OnErr result (self.new ≡ self.old) }
        ensures sound { IsStore self.new }
    {
        self.index.insert(e)?;
        Ok(())
    }

    /// The entries of a value with numbers from `from` up to `to` and, where `after` is given, beyond it:
    /// all of the first leaf that has one. That leaf is then pinned for the session, which has no pin yet.
    /// Where no entry is wanted, nothing is pinned. Where there is no memory, the store stays.
    pub fn batch(
        &mut self,
        value_id: u32,
        from: u32,
        to: u32,
        after: Option<Entry>,
        session: u16,
    ) -> Result<Batch, AllocError>
        requires { pin_of self.old.index.pins session ≡ None }
        ensures entries { IfOk result (λ batch. batch.entries ≡ batch_of self.old.index.bounds (wanted_of value_id from to after self.old.index.entries)) }
        ensures more { IfOk result (λ batch. batch.more ≡ nat_lt (length batch.entries) (length (wanted_of value_id from to after self.old.index.entries))) }
        ensures pinned { OnOk result (self.new ≡ record self.old { index = after_batch self.old.index session (wanted_of value_id from to after self.old.index.entries) }) }
        ensures unchanged { OnErr result (self.new ≡ self.old) }
        ensures sound { IsStore self.new }
    {
        let batch = self.index.batch(value_id, from, to, after, session)?;
        Ok(batch)
    }

    /// Drops a session's pin, if it has one.
    pub fn unpin(&mut self, session: u16)
        ensures dropped { self.new ≡ record self.old { index = record self.old.index { pins = without_pin self.old.index.pins session } } }
        ensures sound { IsStore self.new }
    {
        self.index.unpin(session);
    }

    /// Takes the entries away whose tids are listed from the leaf that `from` lies in, or from the first
    /// one. The tids are in order. A leaf that a session has pinned stays as it is.
    pub fn sweep_leaf(&mut self, from: Option<Entry>, dead: &TidList) -> Swept
        requires { IsSorted tid_cmp dead.now }
        ensures answer { result ≡ sweep_answer self.old.index (leaf_at self.old.index.bounds from) dead.now }
        ensures swept { self.new ≡ record self.old { index = after_sweep self.old.index (leaf_at self.old.index.bounds from) dead.now } }
        ensures sound { IsStore self.new }
    {
        self.index.sweep_leaf(from, dead)
    }
}

impl IdTest for ToastStore {
    ghost use Rattle.toast_store.specs.Stores.{is_used};

    ghost is_used = { λ store id. is_used store id };

    /// Whether an id is used: an entry of it names a chunk.
    fn used(&self, id: u32) -> bool {
        let mut n = 0;
        while let Some(entry) = self.index.nth_of(id, n) {
            if self.rel.chunk_at(entry.tid).is_some() {
                return true;
            }
            n += 1;
        }
        false
    }
}
