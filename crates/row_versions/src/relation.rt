//! The relation.

ghost use Rattle.std.specs.Prelude.{◌≡◌, ◌≢◌, ℕ, ◌≤◌, ◌<◌, ◌++◌, true, false, Contains, count_by, length, slice_get, IfNone, IfOk, IfSome, IsTrue, OnErr, OnOk, option_copied};
ghost use Rattle.std.specs.List.Sorted.{IsSorted};
ghost use Rattle.slot_page.specs.declared.line.Tid.{Tid};
ghost use Rattle.slot_page.specs.DeadSlots.{dead_tids};
ghost use Rattle.slot_page.specs.NextItems.{IsEmptyFrom, IsNextItem};
ghost use Rattle.slot_page.specs.Pages.{page_at, put_tid, slot_of};
ghost use Rattle.slot_page.specs.Slots.{IsDead, IsNormal, most_slots};
ghost use Rattle.slot_page.specs.Tids.{tid_cmp};
ghost use Rattle.snapshot_registry.specs.Snapshots.{is_registered};
ghost use Rattle.tuple_layout.specs.Sizes.{largest_tuple};
ghost use Rattle.row_versions.specs.Versions.{is_newly_dead, new_version, stamped_version};
ghost use Rattle.row_versions.specs.Keys.{entry_cmp, names_one_of};
ghost use Rattle.row_versions.specs.Relations.{AreAssigned, IsRelation, is_current_row, is_seen, no_versions, version_in, versions_of, with_ended, with_pruned, with_reaped, with_version, without_entries};
ghost use Rattle.row_versions.specs.declared.keys.KeyEntry.{KeyEntry};

use crate::TidList;
use crate::keys::{KeyEntry, entries_of, entry_of, insert_entry, remove_entries};
use crate::reads::{first_current, first_seen, nth_version};
use crate::version::Version;
use heap_prune::prune_page;
use slot_page::{PageList, Tid};
use snapshot_registry::{SnapId, SnapRegistry};
use std::alloc::{AllocError, Global};
use std::marker::Model;
use tuple_layout::{Bytes, Schema};
use xact_status::{Stamp, XactTable};

/// The rows of a table, as versions.
///
/// Contracts see the table's schema, the pages, each as the list of its slots with what stands in them,
/// so a map from tids to versions, and the entries of the key map, which are asked for membership.
#[derive(Debug, Drop)]
pub struct RowVersions {
    schema: Schema,
    pages: PageList<Version>,
    entries: Vec<KeyEntry>,
}

impl Model for RowVersions {
    ghost use Rattle.row_versions.specs.Relations.{IsRelation, Relation};

    ghost Value = { Relation };

    ghost view = { λ rel. record { schema = rel.schema; pages = rel.pages; entries = rel.entries.items } };

    ghost invariant = { λ rel. IsRelation (record { schema = rel.schema; pages = rel.pages; entries = rel.entries.items }) };
}

impl RowVersions {
    /// A relation of this schema with no version, which takes no memory yet.
    pub fn new(alloc: Global, schema: Schema) -> Self
        ensures empty { result ≡ no_versions schema }
        ensures sound { IsRelation result }
    {
        RowVersions {
            schema,
            pages: PageList::new(alloc),
            entries: Vec::new(alloc),
        }
    }

    /// The schema of the table.
    pub fn schema(&self) -> &Schema
        ensures schema { result.now ≡ self.now.schema }
        ensures sound { IsRelation self.now }
    {
        &self.schema
    }

    /// The number of pages.
    pub fn pages(&self) -> u64
        ensures count { result ≡ length self.now.pages }
        ensures sound { IsRelation self.now }
    {
        self.pages.len()
    }

    /// The number of slots of a page, unused ones included: at most 291.
    pub fn slots(&self, page: u64) -> u16
        requires { page < length self.now.pages }
        ensures count { result ≡ length (page_at self.now.pages page) }
        ensures most { result ≤ most_slots }
    {
        self.pages.page(page).len()
    }

    /// Puts a version of the row at a key, a tuple of 24 to 8,160 bytes, on the lowest page where it
    /// fits, else on a new one, and answers its tid. Where there is no memory, the relation stays.
    pub fn put_version(&mut self, key: i64, inserter: u64, tuple: Bytes) -> Result<Tid, AllocError>
        requires least { 24 ≤ length tuple }
        requires most { length tuple ≤ largest_tuple }

        // What Ok answers, and what it puts.
        ensures tid { IfOk result (λ tid. tid ≡ put_tid (length tuple) self.old.pages) }
        ensures put { OnOk result (self.new ≡ with_version self.old (new_version key inserter tuple)) }

        // Where there is no memory, all is as before.
        ensures unchanged { OnErr result (self.new ≡ self.old) }

        // What a caller needs to go on.
        ensures sound { IsRelation self.new }
    {
        let stamp = Stamp {
            inserter,
            ender: None,
        };
        self.put_copy(key, stamp, tuple)
    }

    /// Puts a copy of a version of the row at a key, with the transactions that put and ended the version
    /// and a tuple of its own. All else is as for `put_version`.
    pub fn put_copy(&mut self, key: i64, stamp: Stamp, tuple: Bytes) -> Result<Tid, AllocError>
        requires least { 24 ≤ length tuple }
        requires most { length tuple ≤ largest_tuple }

        // What Ok answers, and what it puts.
        ensures tid { IfOk result (λ tid. tid ≡ put_tid (length tuple) self.old.pages) }
        ensures put { OnOk result (self.new ≡ with_version self.old (stamped_version key stamp tuple)) }

        // Where there is no memory, all is as before.
        ensures unchanged { OnErr result (self.new ≡ self.old) }

        // What a caller needs to go on.
        ensures sound { IsRelation self.new }
    {
        let size = tuple.len() as u16;
        self.entries.reserve(1)?;
        let version = Version::new(&key, stamp, tuple);
        let tid = self.pages.put(size, version)?;
        insert_entry(&mut self.entries, entry_of(&key, tid));
        Ok(tid)
    }

    /// The version at a tid, if there is one.
    pub fn version_at(&self, tid: Tid) -> Option<&Version>
        ensures version { option_copied result ≡ version_in self.now tid }
        ensures sound { IsRelation self.now }
    {
        self.pages.get(tid)
    }

    /// The tid of the first version from a place on, by page and then by slot, if there is one. It looks
    /// at no slot before that place.
    pub fn next_version(&self, from: Tid) -> Option<Tid>
        ensures found { IfSome result (IsNextItem self.now.pages from) }
        ensures none { IfNone result (IsEmptyFrom self.now.pages from) }
    {
        self.pages.next_item(from)
    }

    /// The tid of a version of the row at a key, counted from 0 in the order of tids, if there are as
    /// many. It takes time logarithmic in the number of all versions and linear in that of the key.
    pub fn version_of(&self, key: i64, n: usize) -> Option<Tid>
        ensures { result ≡ slice_get (versions_of self.now key) n }
    {
        nth_version(&self.pages, entries_of(&self.entries, &key), n)
    }

    /// The tid of the version of the row at a key that a reader with the snapshot `snap` and with the
    /// xid `own`, if it has one, sees, if it sees one: the first of them. It takes time logarithmic in
    /// the number of all versions and linear in that of the key.
    pub fn seen_row(
        &self,
        key: i64,
        snap: SnapId,
        snaps: &SnapRegistry,
        xacts: &XactTable,
        own: Option<u64>,
    ) -> Option<Tid>
        requires registered { IsTrue (is_registered snaps.now snap) }
        requires assigned { AreAssigned xacts.now self.now.pages }
        ensures seen { IfSome result (λ tid. is_seen xacts.now snaps.now snap own self.now key tid ≡ true) }
        ensures none { IfNone result ((tid : Tid) →
            is_seen xacts.now snaps.now snap own self.now key tid ≡ false) }
    {
        let entries = entries_of(&self.entries, &key);
        first_seen(&self.pages, entries, snap, snaps, xacts, own)
    }

    /// The tid of the version of the row at a key that is there at this moment for a transaction with the
    /// xid `own`, or for one without an xid, if one is: the first of them. No snapshot is asked; it is
    /// what a statement of a read committed transaction sees, and what stands in the way of an insert. It
    /// takes time logarithmic in the number of all versions and linear in that of the key.
    pub fn current_row(&self, key: i64, xacts: &XactTable, own: Option<u64>) -> Option<Tid>
        requires { AreAssigned xacts.now self.now.pages }
        ensures there { IfSome result (λ tid. is_current_row xacts.now own self.now key tid ≡ true) }
        ensures none { IfNone result ((tid : Tid) → is_current_row xacts.now own self.now key tid ≡ false) }
    {
        let entries = entries_of(&self.entries, &key);
        first_current(&self.pages, entries, xacts, own)
    }

    /// Marks the version at a tid as ended by a transaction, whatever ended it before.
    pub fn set_ender(&mut self, tid: Tid, xid: u64)
        requires { IsNormal (slot_of self.old.pages tid) }
        ensures ended { self.new ≡ with_ended xid self.old tid }
        ensures sound { IsRelation self.new }
    {
        match self.pages.get_mut(tid) {
            Some(version) => version.ender = Some(xid),
            None => unreachable!(),
        }
    }

    /// Makes the slots of a page dead whose versions no reader can see under a horizon, adds the tids of
    /// all the page's dead slots to a list, in order, and answers how many are new. Where there is no
    /// memory, the relation and the list stay.
    pub fn prune_page(
        &mut self,
        page: u64,
        xacts: &XactTable,
        horizon: u64,
        dead: &mut TidList,
    ) -> Result<u32, AllocError>
        requires there { page < length self.old.pages }
        requires assigned { AreAssigned xacts.now self.old.pages }

        // What Ok answers, and what is then pruned and gathered.
        ensures count { IfOk result (λ count.
            count ≡ count_by (is_newly_dead xacts.now horizon) (page_at self.old.pages page)) }
        ensures pruned { OnOk result (self.new ≡ with_pruned xacts.now horizon self.old page) }
        ensures gathered { OnOk result (dead.new ≡ dead.old ++ dead_tids page (page_at self.new.pages page)) }

        // Where there is no memory, all is as before.
        ensures unchanged { OnErr result (self.new ≡ self.old) }
        ensures list { OnErr result (dead.new ≡ dead.old) }

        // What a caller needs to go on.
        ensures sound { IsRelation self.new }
    {
        prune_page(&mut self.pages, page, xacts, horizon, dead)
    }

    /// Takes the entries of the key map away that name one of these dead slots, and answers how many
    /// they were. The tids are in order. It takes time linear in the number of entries and logarithmic
    /// in that of the tids.
    pub fn unindex(&mut self, dead: &TidList) -> u64
        requires sorted { IsSorted tid_cmp dead.now }
        requires dead { (tid : Tid) → Contains dead.now tid → IsDead (slot_of self.old.pages tid) }
        ensures removed { self.new ≡ without_entries self.old dead.now }
        ensures count { result ≡ count_by (names_one_of dead.now) self.old.entries }
        ensures sound { IsRelation self.new }
    {
        remove_entries(&mut self.entries, dead)
    }

    /// Frees a dead slot, which no entry of the key map names, for another version.
    pub fn reap(&mut self, tid: Tid)
        requires dead { IsDead (slot_of self.old.pages tid) }
        requires unnamed { (entry : KeyEntry) → Contains self.old.entries entry → entry.tid ≢ tid }
        ensures freed { self.new ≡ with_reaped self.old tid }
        ensures sound { IsRelation self.new }
    {
        self.pages.page_mut(tid.page).make_unused(tid.slot);
    }
}
