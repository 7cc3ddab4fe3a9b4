//! The version step.

ghost use Rattle.std.specs.Prelude.{◌≡◌, ◌≤◌, [], IfOk, OnErr, OnOk, length};
ghost use Rattle.slot_page.specs.Slots.{IsNormal};
ghost use Rattle.slot_page.specs.Pages.{slot_of};
ghost use Rattle.write_steps.specs.Dropped.{dropped_of};
ghost use Rattle.write_steps.specs.Writes.{ended_by, old_cells, put_by, row_entry, with_logged};
ghost use Rattle.write_steps.specs.Standing.{AreSized, CanForm, IsOldThere};
ghost use Rattle.row_versions.specs.Relations.{with_ended, with_version};
ghost use Rattle.row_versions.specs.Versions.{new_version};
ghost use Rattle.tuple_layout.specs.Sizes.{largest_tuple};

use crate::dropped::dropped_of;
use crate::next::taken;
use crate::stage::{OldRow, Owner, PointerList};
use change_log::{Log, LogEntry};
use row_versions::RowVersions;
use std::alloc::{AllocError, Global};
use tuple_layout::{Bytes, Cell, Stored, form_tuple};

/// The cells of an old row, if there is one.
fn old_cells(old: &Option<OldRow>) -> &[Cell]
    ensures { result.now ≡ old_cells old.now }
{
    match old {
        Some(old) => old.stored.cells.as_slice(),
        None => &[],
    }
}

/// The log entry of a row that is put, by the row before it.
fn row_entry(owner: Owner, old: &Option<OldRow>, new: Stored) -> LogEntry
    ensures { result ≡ row_entry owner old.now new }
{
    match old {
        Some(old) => LogEntry::Update {
            xid: owner.xid,
            table: owner.table,
            from: old.stored.key,
            to: new.key,
            cells: new.cells,
        },
        None => LogEntry::Insert {
            xid: owner.xid,
            table: owner.table,
            key: new.key,
            cells: new.cells,
        },
    }
}

/// Puts a version of the row at a key. Where there is no memory, the rows stay.
// A key goes by reference into a function of its own, whose proof then knows its range.
fn put_version(rows: &mut RowVersions, key: &i64, xid: u64, tuple: Bytes) -> Result<(), AllocError>
    requires least { 24 ≤ length tuple }
    requires most { length tuple ≤ largest_tuple }
    ensures put { OnOk result (rows.new ≡ with_version rows.old (new_version key.now xid tuple)) }
    ensures unchanged { OnErr result (rows.new ≡ rows.old) }
{
    let _ = rows.put_version(*key, xid, tuple)?;
    Ok(())
}

/// Ends an old version, if there is one.
fn end_old(rows: &mut RowVersions, old: &Option<OldRow>, xid: u64)
    requires { IsOldThere rows.old old.now }
    ensures { rows.new ≡ ended_by xid rows.old old.now }
{
    if let Some(old) = old {
        rows.set_ender(old.tid, xid);
    }
}

/// Puts the new version, ends the old one, if there is one, and logs the change; answers the pointers that
/// are dropped. All that can be refused comes first: where there is no memory, all is as before.
pub(crate) fn put(
    alloc: Global,
    owner: Owner,
    old: &Option<OldRow>,
    new: &mut Stored,
    rows: &mut RowVersions,
    log: &mut Log,
) -> Result<PointerList, AllocError>
    requires there { IsOldThere rows.old old.now }
    requires fits { CanForm rows.old new.old }
    ensures dropped { IfOk result (λ dropped. dropped ≡ dropped_of (old_cells old.now) new.old.cells) }
    ensures sized { IfOk result AreSized }
    ensures rows { OnOk result (rows.new ≡ ended_by owner.xid (put_by owner.xid rows.old new.old) old.now) }
    ensures log { OnOk result (log.new ≡ with_logged log.old (row_entry owner old.now new.old)) }
    ensures new_stays { OnErr result (new.new ≡ new.old) }
    ensures rows_stay { OnErr result (rows.new ≡ rows.old) }
    ensures log_stays { OnErr result (log.new ≡ log.old) }
{
    let tuple = form_tuple(alloc, rows.schema(), new)?;
    let dropped = dropped_of(alloc, old_cells(old), new.cells.as_slice())?;
    log.reserve_end()?;
    if let Err(fault) = put_version(rows, &new.key, owner.xid, tuple) {
        log.give_up_end();
        return Err(fault);
    }
    end_old(rows, old, owner.xid);
    log.append_end(row_entry(owner, old, taken(alloc, new)));
    Ok(dropped)
}

/// Ends the old version and logs that the row is taken away; answers the pointers that are dropped. All that
/// can be refused comes first: where there is no memory, all is as before.
pub(crate) fn remove(
    alloc: Global,
    owner: Owner,
    old: &OldRow,
    rows: &mut RowVersions,
    log: &mut Log,
) -> Result<PointerList, AllocError>
    requires { IsNormal (slot_of rows.old.pages old.now.tid) }
    ensures dropped { IfOk result (λ dropped. dropped ≡ dropped_of old.now.stored.cells []) }
    ensures sized { IfOk result AreSized }
    ensures rows { OnOk result (rows.new ≡ with_ended owner.xid rows.old old.now.tid) }
    ensures log { OnOk result (log.new ≡ with_logged log.old (LogEntry.Delete owner.xid owner.table old.now.stored.key)) }
    ensures rows_stay { OnErr result (rows.new ≡ rows.old) }
    ensures log_stays { OnErr result (log.new ≡ log.old) }
{
    let dropped = dropped_of(alloc, old.stored.cells.as_slice(), &[])?;
    log.append(LogEntry::Delete {
        xid: owner.xid,
        table: owner.table,
        key: old.stored.key,
    })?;
    rows.set_ender(old.tid, owner.xid);
    Ok(dropped)
}
