//! The key map: an entry for each version, in the order of keys and then of tids.

ghost use Rattle.std.specs.Prelude.{◌≡◌, ◌<◌, length, not, filter, count_by, vec_capacity, vec_len};
ghost use Rattle.std.specs.List.Sorted.{IsSorted, IsStrictlySortedBy};
ghost use Rattle.std.specs.Ordering.{int_cmp, is_le, is_lt};
ghost use Rattle.slot_page.specs.Tids.{tid_cmp};
ghost use Rattle.row_versions.specs.Keys.{entry, entry_cmp, has_key, names_one_of, with_entry};

use crate::TidList;
use slot_page::{Tid, is_listed};

/// Which tid has, or had, a version of the row at a key.
#[derive(Clone, Copy, Debug, PartialEq, Eq, PartialOrd, Ord)]
pub struct KeyEntry {
    pub key: i64,
    pub tid: Tid,
}

// A key goes by reference into a function of its own, whose proof then knows its range.
pub(crate) fn entry_of(key: &i64, tid: Tid) -> KeyEntry
    ensures { result ≡ entry key.now tid }
{
    KeyEntry { key: *key, tid }
}

fn is_less(entry: &KeyEntry, other: &KeyEntry) -> bool
    ensures { result ≡ is_lt (entry_cmp entry.now other.now) }
{
    entry < other
}

fn is_below(entry: &KeyEntry, key: &i64) -> bool
    ensures { result ≡ is_lt (int_cmp entry.now.key key.now) }
{
    entry.key < *key
}

fn is_up_to(entry: &KeyEntry, key: &i64) -> bool
    ensures { result ≡ is_le (int_cmp entry.now.key key.now) }
{
    entry.key <= *key
}

/// The entries of keys up to a key.
fn entries_up_to<'a>(entries: &'a [KeyEntry], key: &i64) -> &'a [KeyEntry]
    requires { IsStrictlySortedBy entry_cmp entries.now }
    ensures { result.now ≡ filter (λ entry. is_le (int_cmp entry.key key.now)) entries.now }
{
    &entries[..entries.partition_point(|entry| is_up_to(entry, key))]
}

/// The entries of keys from a key on.
fn entries_from<'a>(entries: &'a [KeyEntry], key: &i64) -> &'a [KeyEntry]
    requires { IsStrictlySortedBy entry_cmp entries.now }
    ensures { result.now ≡ filter (λ entry. not (is_lt (int_cmp entry.key key.now))) entries.now }
{
    &entries[entries.partition_point(|entry| is_below(entry, key))..]
}

/// The entries of a key, which stand together.
pub(crate) fn entries_of<'a>(entries: &'a [KeyEntry], key: &i64) -> &'a [KeyEntry]
    requires { IsStrictlySortedBy entry_cmp entries.now }
    ensures { result.now ≡ filter (has_key key.now) entries.now }
{
    entries_from(entries_up_to(entries, key), key)
}

/// Puts an entry at its place, where there is room for it.
pub(crate) fn insert_entry(entries: &mut Vec<KeyEntry>, entry: KeyEntry)
    requires room { vec_len entries.old < vec_capacity entries.old }
    requires sorted { IsStrictlySortedBy entry_cmp entries.old.items }
    ensures { entries.new.items ≡ with_entry entries.old.items entry }
{
    let at = entries.partition_point(|other| is_less(other, &entry));
    match entries.insert(at, entry) {
        Ok(()) => {}
        Err(_) => unreachable!(),
    }
}

/// Takes the entries away that name one of these tids, which are in order, and answers how many they were.
pub(crate) fn remove_entries(entries: &mut Vec<KeyEntry>, dead: &TidList) -> u64
    requires { IsSorted tid_cmp dead.now }
    ensures kept { entries.new.items ≡ filter (λ entry. not (names_one_of dead.now entry)) entries.old.items }
    ensures count { result ≡ count_by (names_one_of dead.now) entries.old.items }
{
    let before = entries.len();
    entries.retain(|entry| !is_listed(dead.as_slice(), &entry.tid));
    (before - entries.len()) as u64
}
