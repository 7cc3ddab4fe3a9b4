//! A leaf with its entries.

ghost use Rattle.std.specs.Prelude.{◌≡◌, ◌==◌, ◌&&◌, ◌≤◌, ◌+◌, [], Contains, None, false, length, not, filter, slice_get, take, drop, IfOk, OnErr, OnOk};
ghost use Rattle.std.specs.Option.{is_some, option_map_or};
ghost use Rattle.std.specs.List.Sorted.{IsSorted, IsStrictlySortedBy};
ghost use Rattle.slot_page.specs.Tids.{is_listed, tid_cmp};
ghost use Rattle.chunk_index.specs.Entries.{comes_before, entry_cmp, reaches, with_entry};
ghost use Rattle.chunk_index.specs.Leaves.{is_from};
ghost use Rattle.chunk_index.specs.Places.{last_passes};

use crate::TidList;
use crate::entry::{Entry, LEAF_ENTRIES, LOWER_ENTRIES};
use crate::wanted::Wanted;
use slot_page::is_listed;
use std::alloc::{AllocError, Global};
use std::marker::Model;

/// A leaf of the index: its bound, which the first leaf has not, and its entries in order.
#[derive(Debug, Drop)]
pub(crate) struct LeafNode {
    bound: Option<Entry>,
    entries: Vec<Entry>,
}

impl Model for LeafNode {
    ghost use Rattle.chunk_index.specs.Nodes.{Node};

    ghost Value = { Node };

    ghost view = { λ node. record { bound = node.bound; entries = node.entries.items } };
}

/// The n-th of some entries, counted from 0.
fn nth(entries: &[Entry], n: usize) -> Option<Entry>
    ensures { result ≡ slice_get entries.now n }
{
    entries.get(n).copied()
}

/// The entries from a place on.
fn from_place(entries: &[Entry], place: usize) -> &[Entry]
    requires { place ≤ length entries.now }
    ensures { result.now ≡ drop place entries.now }
{
    &entries[place..]
}

/// The same entries in memory of their own, with room for so many.
fn copy_of(alloc: Global, entries: &[Entry], room: usize) -> Result<Vec<Entry>, AllocError>
    ensures { IfOk result (λ copy. copy.items ≡ entries.now) }
{
    let mut copy = Vec::with_capacity(alloc, room)?;
    copy.extend_from_slice(entries)?;
    Ok(copy)
}

/// Puts an entry that is not there in its place. Where there is no memory, nothing changes.
fn put(entries: &mut Vec<Entry>, e: Entry) -> Result<(), AllocError>
    requires absent { Contains entries.old.items e → ⊥ }
    requires sorted { IsStrictlySortedBy entry_cmp entries.old.items }
    ensures put { OnOk result (entries.new.items ≡ with_entry entries.old.items e) }
    ensures unchanged { OnErr result (entries.new.items ≡ entries.old.items) }
{
    match entries.binary_search(&e) {
        Ok(_) => unreachable!(),
        Err(place) => entries.insert(place, e)?,
    }
    Ok(())
}

impl LeafNode {
    /// The first leaf, with no entry.
    pub(crate) fn first(alloc: Global) -> Result<Self, AllocError>
        ensures { IfOk result (λ node. node ≡ record { bound = None; entries = [] }) }
    {
        Ok(LeafNode {
            bound: None,
            entries: Vec::with_capacity(alloc, LEAF_ENTRIES)?,
        })
    }

    /// The least entry that may lie in it; the first leaf has none.
    pub(crate) fn bound(&self) -> Option<Entry>
        ensures { result ≡ self.now.bound }
    {
        self.bound
    }

    /// Its entries in place.
    pub(crate) fn entries(&self) -> &[Entry]
        ensures { result.now ≡ self.now.entries }
    {
        self.entries.as_slice()
    }

    /// The n-th of its entries, counted from 0.
    pub(crate) fn get(&self, n: usize) -> Option<Entry>
        ensures { result ≡ slice_get self.now.entries n }
    {
        nth(&self.entries, n)
    }

    /// Whether it is a leaf no more: it has a bound and no entry.
    pub(crate) fn is_gone(&self) -> bool
        ensures { result ≡ (is_some self.now.bound && (length self.now.entries == 0)) }
    {
        self.bound.is_some() && self.entries.is_empty()
    }

    /// How many entries it has.
    pub(crate) fn len(&self) -> usize
        ensures { result ≡ length self.now.entries }
    {
        self.entries.len()
    }

    /// Whether an entry is at or beyond its bound.
    pub(crate) fn begins_by(&self, e: &Entry) -> bool
        ensures { result ≡ is_from self.now.bound e.now }
    {
        match &self.bound {
            Some(bound) => !e.cmp(bound).is_lt(),
            None => true,
        }
    }

    /// Whether its last entry lies before all that are wanted.
    pub(crate) fn is_passed(&self, wanted: &Wanted) -> bool
        ensures { result ≡ last_passes (comes_before wanted.now.value_id wanted.now.from wanted.now.after) self.now.entries }
    {
        match self.entries.last() {
            Some(last) => wanted.is_ahead(last),
            None => true,
        }
    }

    /// Whether its first entry does not lie beyond all that are wanted.
    pub(crate) fn is_reached(&self, wanted: &Wanted) -> bool
        ensures { result ≡ option_map_or (reaches wanted.now.value_id wanted.now.to) (slice_get self.now.entries 0) false }
    {
        match self.entries.first() {
            Some(first) => wanted.reaches(first),
            None => false,
        }
    }

    /// Adds an entry that is not there. Where there is no memory, the leaf stays.
    pub(crate) fn insert(&mut self, e: Entry) -> Result<(), AllocError>
        requires absent { Contains self.old.entries e → ⊥ }
        requires sorted { IsStrictlySortedBy entry_cmp self.old.entries }
        ensures added { OnOk result (self.new ≡ record self.old { entries = with_entry self.old.entries e }) }
        ensures unchanged { OnErr result (self.new ≡ self.old) }
    {
        put(&mut self.entries, e)
    }

    /// The two leaves of a full one and an entry that is not there: the lower keeps the bound.
    pub(crate) fn split(&self, e: Entry) -> Result<(LeafNode, LeafNode), AllocError>
        requires absent { Contains self.now.entries e → ⊥ }
        requires sorted { IsStrictlySortedBy entry_cmp self.now.entries }
        requires full { LEAF_ENTRIES ≤ length self.now.entries }
        ensures lower { IfOk result (λ parts. parts.0 ≡ record self.now { entries = take LOWER_ENTRIES (with_entry self.now.entries e) }) }
        ensures upper { IfOk result (λ parts. parts.1 ≡ record { bound = slice_get (with_entry self.now.entries e) LOWER_ENTRIES; entries = drop LOWER_ENTRIES (with_entry self.now.entries e) }) }
    {
        let alloc = *self.entries.allocator();
        let mut entries = copy_of(alloc, &self.entries, LEAF_ENTRIES + 1)?;
        put(&mut entries, e)?;
        let upper = LeafNode {
            bound: nth(&entries, LOWER_ENTRIES),
            entries: copy_of(alloc, from_place(&entries, LOWER_ENTRIES), LEAF_ENTRIES)?,
        };
        entries.truncate(LOWER_ENTRIES);
        let lower = LeafNode {
            bound: self.bound,
            entries,
        };
        Ok((lower, upper))
    }

    /// Takes the entries away whose tids are listed, and says how many.
    pub(crate) fn sweep(&mut self, dead: &TidList) -> usize
        requires { IsSorted tid_cmp dead.now }
        ensures swept { self.new ≡ record self.old { entries = filter (λ e. not (is_listed dead.now e.tid)) self.old.entries } }
        ensures counted { result + length self.new.entries ≡ length self.old.entries }
    {
        let before = self.entries.len();
        self.entries
            .retain(|entry| !is_listed(dead.as_slice(), &entry.tid));
        before - self.entries.len()
    }
}
