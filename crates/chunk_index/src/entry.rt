//! Entries, and what the calls of the index answer.

ghost use Rattle.std.specs.Prelude.{◌≡◌, [], false};

use list_facts::ListOf;
use slot_page::Tid;
use std::alloc::Global;

/// An entry: a chunk of the value with this id lies at the tid. Entries are ordered by their fields.
#[derive(Clone, Copy, Debug, PartialEq, Eq, PartialOrd, Ord)]
pub struct Entry {
    pub value_id: u32,
    /// Which piece of the value it is, counted from 0.
    pub seq: u32,
    pub tid: Tid,
}

/// How many entries a leaf has at most.
pub const LEAF_ENTRIES: usize = 64;

/// How many entries the lower leaf keeps when a leaf is split.
pub const LOWER_ENTRIES: usize = 33;

/// A list of entries.
pub type EntryList = ListOf<Entry>;

/// Entries of one leaf that were wanted, in order.
#[derive(Debug, Drop)]
pub struct Batch {
    pub entries: EntryList,
    /// Whether a wanted entry is left beyond them.
    pub more: bool,
}

impl Batch {
    /// No entry, where none is wanted.
    pub(crate) fn none(alloc: Global) -> Self
        ensures { result ≡ record { entries = []; more = false } }
    {
        Batch {
            entries: EntryList::new(alloc),
            more: false,
        }
    }
}

/// A session and the leaf that it has pinned. A leaf is named by its least bound; the first leaf has none.
#[derive(Clone, Copy, Debug, PartialEq, Eq)]
pub struct Pin {
    pub session: u16,
    pub leaf: Option<Entry>,
}

/// What became of the sweep of a leaf.
#[derive(Clone, Copy, Debug, PartialEq, Eq)]
pub enum Swept {
    /// It is swept of so many entries, and the next leaf has this bound.
    Next { from: Entry, removed: u64 },
    /// It is swept of so many entries, and was the last one.
    End { removed: u64 },
    /// It is pinned, by this session and perhaps by greater ones, and stays as it is.
    Pinned { holder: u16 },
}
