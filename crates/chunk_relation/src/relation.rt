//! The relation.

ghost use Rattle.std.specs.Prelude.{◌≡◌, ◌≤◌, ◌<◌, ◌++◌, [], count_by, length, IfOk, OnOk, OnErr};
ghost use Rattle.std.specs.Option.{option_map};
ghost use Rattle.slot_page.specs.Slots.{IsDead, IsNormal, most_slots};
ghost use Rattle.slot_page.specs.Pages.{page_at, put_tid, slot_of, with_put_on, written};
ghost use Rattle.slot_page.specs.declared.line.LinePointer.{LinePointer};
ghost use Rattle.chunk_relation.specs.Chunks.{chunk_shown, chunk_tuple_size, is_newly_dead, new_chunk};
ghost use Rattle.slice_fetch.specs.Spans.{chunk_size};
ghost use Rattle.slot_page.specs.DeadSlots.{dead_tids};
ghost use Rattle.chunk_relation.specs.Relations.{AreAssigned, chunk_of, with_ended, with_pruned};

use crate::TidList;
use crate::chunk::{Chunk, ChunkView};
use heap_prune::prune_page;
use slot_page::{PageList, Tid};
use std::alloc::{AllocError, Global};
use std::marker::Model;
use toast_io::Bytes;
use xact_status::XactTable;

/// How many bytes a chunk's tuple has more than its data: the header of a tuple, the value's id, the
/// chunk's number and the header of the data.
const OVERHEAD: u16 = 36;

/// The relation of a table's chunks.
///
/// Contracts see its id and its pages, each as the list of its slots with what stands in them; so they
/// see a map from tids to chunks.
#[derive(Debug, Drop)]
pub struct ChunkRel {
    rel_id: u32,
    pages: PageList<Chunk>,
}

impl Model for ChunkRel {
    ghost use Rattle.chunk_relation.specs.Relations.{Relation};

    ghost Value = { Relation };

    ghost view = { λ rel. record { rel_id = rel.rel_id; pages = rel.pages } };
}

impl ChunkRel {
    /// A relation with this id and no page, which takes no memory yet.
    pub fn new(alloc: Global, rel_id: u32) -> Self
        ensures { result ≡ record { rel_id = rel_id; pages = [] } }
    {
        ChunkRel {
            rel_id,
            pages: PageList::new(alloc),
        }
    }

    /// The relation's id, which a pointer to a value names.
    pub fn rel_id(&self) -> u32
        ensures { result ≡ self.now.rel_id }
    {
        self.rel_id
    }

    /// The number of pages.
    pub fn pages(&self) -> u64
        ensures { result ≡ length self.now.pages }
    {
        self.pages.len()
    }

    /// The number of slots of a page, unused ones included: at most 291.
    pub fn slots(&self, page: u64) -> u16
        requires { page < length self.now.pages }
        ensures count { result ≡ length (page_at self.now.pages page) }
        ensures most { result ≤ most_slots }
    {
        self.pages.page(page).len()
    }

    /// Puts a chunk, of 1 to 1,996 bytes, on the lowest page where it fits, else on a new one, and
    /// answers its tid. Where there is no memory, the relation stays.
    pub fn put_chunk(
        &mut self,
        value_id: u32,
        seq: u32,
        inserter: u64,
        bytes: &[u8],
    ) -> Result<Tid, AllocError>
        requires least { 1 ≤ length bytes.now }
        requires most { length bytes.now ≤ chunk_size }
        ensures tid { IfOk result (λ tid. tid ≡ put_tid (chunk_tuple_size (length bytes.now)) self.old.pages) }
        ensures put { OnOk result (self.new ≡ record self.old { pages = with_put_on (chunk_tuple_size (length bytes.now)) (new_chunk value_id seq inserter bytes.now) self.old.pages }) }
        ensures unchanged { OnErr result (self.new ≡ self.old) }
    {
        let size = OVERHEAD + bytes.len() as u16;
        let chunk = Chunk {
            value_id,
            seq,
            inserter,
            ender: None,
            bytes: Bytes::from_slice(self.pages.allocator(), bytes)?,
        };
        self.pages.put(size, chunk)
    }

    /// The chunk at a tid, if there is one.
    pub fn chunk_at(&self, tid: Tid) -> Option<ChunkView<'_>>
        ensures { option_map chunk_shown result ≡ chunk_of self.now tid }
    {
        let chunk = self.pages.get(tid)?;
        Some(chunk.view())
    }

    /// Marks the chunk at a tid as ended by a transaction, whatever ended it before.
    pub fn set_ender(&mut self, tid: Tid, xid: u64)
        requires { IsNormal (slot_of self.old.pages tid) }
        ensures { self.new ≡ record self.old { pages = with_ended xid self.old.pages tid } }
    {
        match self.pages.get_mut(tid) {
            Some(chunk) => chunk.ender = Some(xid),
            None => unreachable!(),
        }
    }

    /// Makes the slots of a page dead whose chunks no reader can see under a horizon, adds the tids of
    /// all the page's dead slots to a list, in order, and answers how many are new. Where there is no
    /// memory, the relation and the list stay.
    pub fn prune_page(
        &mut self,
        page: u64,
        xacts: &XactTable,
        horizon: u64,
        dead: &mut TidList,
    ) -> Result<u32, AllocError>
        requires there { page < length self.old.pages }
        requires assigned { AreAssigned xacts.now self.old.pages }

        // What Ok answers, and what is then pruned and gathered.
        ensures count { IfOk result (λ count. count ≡ count_by (is_newly_dead xacts.now horizon) (page_at self.old.pages page)) }
        ensures pruned { OnOk result (self.new ≡ record self.old { pages = with_pruned xacts.now horizon self.old.pages page }) }
        ensures gathered { OnOk result (dead.new ≡ dead.old ++ dead_tids page (page_at self.new.pages page)) }

        // Where there is no memory, all is as before.
        ensures unchanged { OnErr result (self.new ≡ self.old) }
        ensures list { OnErr result (dead.new ≡ dead.old) }
    {
        prune_page(&mut self.pages, page, xacts, horizon, dead)
    }

    /// Frees a dead slot for another chunk.
    pub fn reap(&mut self, tid: Tid)
        requires { IsDead (slot_of self.old.pages tid) }
        ensures { self.new ≡ record self.old { pages = written self.old.pages tid LinePointer.Unused } }
    {
        self.pages.page_mut(tid.page).make_unused(tid.slot);
    }
}
