//! The way from version to version.

ghost use Rattle.std.specs.Prelude.{◌≡◌, ◌<◌, true, is_some, length};
ghost use Rattle.slot_page.specs.Pages.{item_in};
ghost use Rattle.slot_page.specs.Slots.{most_slots};
ghost use Rattle.xact_status.specs.Versions.{is_live};
ghost use Rattle.row_versions.specs.Versions.{IsVersionAssigned};
ghost use Rattle.row_versions.specs.Relations.{AreAssigned};
ghost use Rattle.rewrite_facts.specs.Copies.{is_chosen, next_place};
ghost use Rattle.rewrite_full.specs.Moves.{ArePassed, IsStop};

use row_versions::{RowVersions, Version};
use slot_page::Tid;
use snapshot_registry::SnapRegistry;
use xact_status::XactTable;

/// Whether a version is there now, for all: its inserter has committed, and it has no ender, or one that has aborted.
fn is_live(version: &Version, xacts: &XactTable) -> bool
    requires { IsVersionAssigned xacts.now version.now }
    ensures { result ≡ is_live xacts.now version.now.inserter version.now.ender }
{
    if !xacts.has_committed(version.inserter) {
        return false;
    }
    match version.ender {
        Some(ender) => xacts.has_aborted(ender),
        None => true,
    }
}

/// Whether a version is copied: it is live, or a registered snapshot sees it.
fn is_chosen(version: &Version, xacts: &XactTable, snaps: &SnapRegistry) -> bool
    requires { IsVersionAssigned xacts.now version.now }
    ensures { result ≡ is_chosen xacts.now snaps.now version.now }
{
    is_live(version, xacts) || snaps.seen_by_any(xacts, version.inserter, version.ender)
}

/// The place after that of a version.
pub(crate) fn next_place(rows: &RowVersions, tid: Tid) -> Tid
    requires { is_some (item_in rows.now.pages tid) ≡ true }
    ensures place { result ≡ next_place tid }
    ensures page { tid.page < length rows.now.pages }
    ensures slot { tid.slot < most_slots }
{
    let slots = rows.slots(tid.page);
    if tid.slot >= slots {
        unreachable!()
    }
    Tid {
        page: tid.page,
        slot: tid.slot + 1,
    }
}

/// The first place from one on of a version that is copied; where there is none, one from which on no version stands.
pub(crate) fn next_chosen(
    rows: &RowVersions,
    xacts: &XactTable,
    snaps: &SnapRegistry,
    from: Tid,
) -> Tid
    requires { AreAssigned xacts.now rows.now.pages }
    ensures passed { ArePassed xacts.now snaps.now rows.now.pages from result }
    ensures stop { IsStop xacts.now snaps.now rows.now.pages result }
{
    let mut here = from;
    while let Some(tid) = rows.next_version(here) {
        let Some(version) = rows.version_at(tid) else {
            unreachable!()
        };
        if is_chosen(version, xacts, snaps) {
            return tid;
        }
        here = next_place(rows, tid);
    }
    here
}
