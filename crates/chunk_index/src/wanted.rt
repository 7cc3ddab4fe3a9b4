//! Which entries are asked for, and where they lie among all.

ghost use Rattle.std.specs.Prelude.{◌≡◌, ◌≤◌, None, true, false, length};
ghost use Rattle.std.specs.List.Sorted.{IsPartitionPoint, IsStrictlySortedBy};
ghost use Rattle.chunk_index.specs.Entries.{comes_before, entry_cmp, falls_short, is_after, reaches, wanted_of};

use crate::entry::Entry;

/// The entries of a value with numbers from `from` up to `to` and, where `after` is given, beyond it.
#[derive(Clone, Copy, Debug)]
pub(crate) struct Wanted {
    pub(crate) value_id: u32,
    pub(crate) from: u32,
    pub(crate) to: u32,
    pub(crate) after: Option<Entry>,
}

/// Whether an entry is beyond another one, if that is given.
fn is_after(after: &Option<Entry>, entry: &Entry) -> bool
    ensures { result ≡ is_after after.now entry.now }
{
    match after {
        Some(after) => entry.cmp(after).is_gt(),
        None => true,
    }
}

/// Whether an entry lies before those of a value with numbers from `from` on.
fn falls_short(value_id: u32, from: u32, entry: &Entry) -> bool
    ensures { result ≡ falls_short value_id from entry.now }
{
    entry.value_id < value_id || entry.value_id == value_id && entry.seq < from
}

impl Wanted {
    /// All entries of a value.
    pub(crate) fn all_of(value_id: u32) -> Self
        ensures { result ≡ record { value_id = value_id; from = 0; to = u32.MAX; after = None } }
    {
        Wanted {
            value_id,
            from: 0,
            to: u32::MAX,
            after: None,
        }
    }

    /// Whether an entry lies before all that are wanted.
    pub(crate) fn is_ahead(&self, entry: &Entry) -> bool
        ensures { result ≡ comes_before self.now.value_id self.now.from self.now.after entry.now }
    {
        falls_short(self.value_id, self.from, entry) || !is_after(&self.after, entry)
    }

    /// Whether an entry does not lie beyond all that are wanted.
    pub(crate) fn reaches(&self, entry: &Entry) -> bool
        ensures { result ≡ reaches self.now.value_id self.now.to entry.now }
    {
        entry.value_id < self.value_id || entry.value_id == self.value_id && entry.seq <= self.to
    }

    /// How many entries lie before those that are wanted. It takes time logarithmic in their number.
    pub(crate) fn start(&self, entries: &[Entry]) -> usize
        requires { IsStrictlySortedBy entry_cmp entries.now }
        ensures start { IsPartitionPoint (λ e. comes_before self.now.value_id self.now.from self.now.after e ≡ true) (λ e. comes_before self.now.value_id self.now.from self.now.after e ≡ false) entries.now result }
        ensures within { result ≤ length entries.now }
    {
        entries.partition_point(|entry| self.is_ahead(entry))
    }

    /// How many of the entries from the first wanted one on are wanted. It takes time logarithmic in their number.
    fn count(&self, entries: &[Entry]) -> usize
        requires { IsStrictlySortedBy entry_cmp entries.now }
        ensures count { IsPartitionPoint (λ e. reaches self.now.value_id self.now.to e ≡ true) (λ e. reaches self.now.value_id self.now.to e ≡ false) entries.now result }
        ensures within { result ≤ length entries.now }
    {
        entries.partition_point(|entry| self.reaches(entry))
    }

    /// The wanted ones of entries that are in order, in place.
    pub(crate) fn among<'a>(&self, entries: &'a [Entry]) -> &'a [Entry]
        requires { IsStrictlySortedBy entry_cmp entries.now }
        ensures { result.now ≡ wanted_of self.now.value_id self.now.from self.now.to self.now.after entries.now }
    {
        let rest = &entries[self.start(entries)..];
        &rest[..self.count(rest)]
    }
}
