//! What is read of pages through the entries of a key.

ghost use Rattle.std.specs.Prelude.{◌≡◌, find, map, slice_get, IsTrue, option_copied};
ghost use Rattle.slot_page.specs.Pages.{item_in, slot_of};
ghost use Rattle.snapshot_registry.specs.Snapshots.{is_registered};
ghost use Rattle.row_versions.specs.Versions.{version_stamp};
ghost use Rattle.heap_prune.specs.Lines.{IsLineAssigned};
ghost use Rattle.row_versions.specs.Relations.{AreAssigned, is_current_at, is_seen_at, with_versions};

use crate::keys::KeyEntry;
use crate::version::Version;
use heap_prune::Stamped;
use slot_page::{PageList, Tid};
use snapshot_registry::{SnapId, SnapRegistry};
use xact_status::XactTable;

/// The n-th tid, from 0, of those that the entries name, at which there is a version.
pub(crate) fn nth_version(pages: &PageList<Version>, entries: &[KeyEntry], n: usize) -> Option<Tid>
    ensures { result ≡ slice_get (with_versions pages.now entries.now) n }
{
    let mut left = n;
    for entry in entries {
        if pages.get(entry.tid).is_some() {
            if left == 0 {
                return Some(entry.tid);
            }
            left -= 1;
        }
    }
    None
}

/// Whether a reader sees the version at a tid, if there is one.
fn sees(
    pages: &PageList<Version>,
    tid: Tid,
    snap: SnapId,
    snaps: &SnapRegistry,
    xacts: &XactTable,
    own: Option<u64>,
) -> bool
    requires registered { IsTrue (is_registered snaps.now snap) }
    requires assigned { IsLineAssigned version_stamp xacts.now (slot_of pages.now tid) }
    ensures { result ≡ is_seen_at xacts.now snaps.now snap own pages.now tid }
{
    match pages.get(tid) {
        Some(version) => snaps.sees(snap, xacts, version.inserter, version.ender, own),
        None => false,
    }
}

/// The first tid, of those that the entries name, at which a reader sees the version.
pub(crate) fn first_seen(
    pages: &PageList<Version>,
    entries: &[KeyEntry],
    snap: SnapId,
    snaps: &SnapRegistry,
    xacts: &XactTable,
    own: Option<u64>,
) -> Option<Tid>
    requires registered { IsTrue (is_registered snaps.now snap) }
    requires assigned { AreAssigned xacts.now pages.now }
    ensures { result ≡ find (is_seen_at xacts.now snaps.now snap own pages.now) (map (λ entry. entry.tid) entries.now) }
{
    for entry in entries {
        if sees(pages, entry.tid, snap, snaps, xacts, own) {
            return Some(entry.tid);
        }
    }
    None
}

/// Whether the version at a tid, if there is one, is there at this moment for a transaction with the xid
/// `own`, or for one without an xid.
fn is_current(pages: &PageList<Version>, tid: Tid, xacts: &XactTable, own: Option<u64>) -> bool
    requires { IsLineAssigned version_stamp xacts.now (slot_of pages.now tid) }
    ensures { result ≡ is_current_at xacts.now own pages.now tid }
{
    match pages.get(tid) {
        Some(version) => xacts.is_current(version.stamp(), own),
        None => false,
    }
}

/// The first tid, of those that the entries name, at which the version is there at this moment.
pub(crate) fn first_current(
    pages: &PageList<Version>,
    entries: &[KeyEntry],
    xacts: &XactTable,
    own: Option<u64>,
) -> Option<Tid>
    requires { AreAssigned xacts.now pages.now }
    ensures { result ≡ find (is_current_at xacts.now own pages.now) (map (λ entry. entry.tid) entries.now) }
{
    for entry in entries {
        if is_current(pages, entry.tid, xacts, own) {
            return Some(entry.tid);
        }
    }
    None
}
