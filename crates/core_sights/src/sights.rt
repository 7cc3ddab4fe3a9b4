//! The row that a session sees, whether a key is taken, and whether a row has changed.

ghost use Rattle.std.specs.Prelude.{◌≡◌, ◌||◌, IfOk, Some, is_some};
ghost use Rattle.std.specs.Option.{option_map};
ghost use Rattle.core_parts.specs.Found.{as_old};
ghost use Rattle.core_state.specs.State.{IsTableOf, seat_of, snapshot_of as its_snapshot, table_at as its_table};
ghost use Rattle.core_state.specs.Views.{row_seen as seen_row};
ghost use Rattle.core_looks.specs.Due.{has_changed as changed_since, row_now as there_now};
ghost use Rattle.core_sights.specs.Now.{is_there_now as there_now_at};
ghost use Rattle.core_sights.specs.Ready.{CanLook};

use core_parts::CoreParts;
use core_parts::takes::{snapshot_of, xid_of};
use slot_page::Tid;
use snapshot_registry::SnapId;
use std::alloc::AllocError;
use table_state::{FoundRow, Table};

/// The table with a number.
fn table_at(core: &CoreParts, table: u16) -> &Table
    requires { IsTableOf core.now.tables table }
    ensures { result.now ≡ its_table core.now.tables table }
{
    &core.tables[usize::from(table) - 1]
}

/// The row that is there now for a session at a key of a table. The error is for want of memory.
fn row_now(
    core: &CoreParts,
    session: u16,
    table: u16,
    key: &i64,
) -> Result<Option<FoundRow>, AllocError>
    requires { CanLook core.now session table }
    ensures { IfOk result (λ found. option_map as_old found ≡ there_now core.now session table key.now) }
{
    let own = xid_of(&core.state(session));
    table_at(core, table).current_row(core.alloc, *key, &core.xacts, own)
}

/// The row that a session sees at a key of a table by its transaction's snapshot. The error is for want of
/// memory.
fn row_shown(
    core: &CoreParts,
    session: u16,
    table: u16,
    key: &i64,
    snapshot: SnapId,
) -> Result<Option<FoundRow>, AllocError>
    requires look { CanLook core.now session table }
    requires snapshot { its_snapshot (seat_of core.now session).state ≡ Some snapshot }
    ensures { IfOk result (λ found. option_map as_old found ≡ seen_row core.now session table key.now) }
{
    let own = xid_of(&core.state(session));
    table_at(core, table).seen_row(core.alloc, *key, snapshot, &core.snaps, &core.xacts, own)
}

/// Whether the version at a tid is the row that is there now for a session at a key of a table.
fn is_there_now(core: &CoreParts, session: u16, table: u16, key: &i64, tid: Tid) -> bool
    requires { CanLook core.now session table }
    ensures { result ≡ there_now_at core.now session table key.now tid }
{
    let own = xid_of(&core.state(session));
    match table_at(core, table)
        .rows
        .current_row(*key, &core.xacts, own)
    {
        Some(row) => row == tid,
        None => false,
    }
}

/// The row that a session's reads find at a key of a table. The error is for want of memory.
pub fn row_seen(
    core: &CoreParts,
    session: u16,
    table: u16,
    key: &i64,
) -> Result<Option<FoundRow>, AllocError>
    requires { CanLook core.now session table }
    ensures { IfOk result (λ found. option_map as_old found ≡ seen_row core.now session table key.now) }
{
    match snapshot_of(&core.state(session)) {
        Some(snapshot) => row_shown(core, session, table, key, snapshot),
        None => row_now(core, session, table, key),
    }
}

/// Whether a row is at a key of a table: there now, or found by the session's reads. The error is for want
/// of memory.
// Without a snapshot the reads find what is there now.
pub fn is_taken(core: &CoreParts, session: u16, table: u16, key: &i64) -> Result<bool, AllocError>
    requires { CanLook core.now session table }
    ensures { IfOk result (λ taken. taken ≡ (is_some (there_now core.now session table key.now) || is_some (seen_row core.now session table key.now))) }
{
    let now = row_now(core, session, table, key)?;
    if now.is_some() {
        return Ok(true);
    }
    match snapshot_of(&core.state(session)) {
        Some(snapshot) => {
            let shown = row_shown(core, session, table, key, snapshot)?;
            Ok(shown.is_some())
        }
        None => Ok(false),
    }
}

/// Whether a row that the session's reads found has changed since its transaction's snapshot, if it has one:
/// it is then not the row that is there now.
// What the session has claimed it sees as it is now, so that no claim needs to be looked up.
pub fn has_changed(core: &CoreParts, session: u16, table: u16, key: &i64, found: &FoundRow) -> bool
    requires look { CanLook core.now session table }
    requires seen { seen_row core.now session table key.now ≡ Some (as_old found.now) }
    ensures { result ≡ changed_since core.now session table key.now (as_old found.now) }
{
    match snapshot_of(&core.state(session)) {
        Some(_) => !is_there_now(core, session, table, key, found.tid),
        None => false,
    }
}
