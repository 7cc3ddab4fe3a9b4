//! What a session takes at a command's moment: locks, snapshots and an xid.

ghost use Rattle.std.specs.Prelude.{◌≡◌, ◌<◌, ℕ, true, None, Some, IfOk, OnErr, OnOk};
ghost use Rattle.std.specs.Option.{unwrap_or};
ghost use Rattle.xact_status.specs.Xacts.{after_assign, next_xid};
ghost use Rattle.snapshot_registry.specs.Snapshots.{holders_at, is_registered};
ghost use Rattle.lock_table.specs.Locks.{IsFirstInWay, after_asking, granted, row_lock, table_lock};
ghost use Rattle.core_state.specs.Begun.{own_snapshot};
ghost use Rattle.core_state.specs.Lines.{once_assigned, once_kept, with_snapshot as snapshotted, with_xid as assigned};
ghost use Rattle.core_state.specs.State.{is_repeatable as reads_repeatably, snapshot_of as its_snapshot, xid_of as its_xid};
ghost use Rattle.core_parts.specs.Takes.{copied_snaps, copied_state, handle_snaps, id_for_handle, locked, once_asked, read_snaps};
ghost use Rattle.lock_table.specs.declared.lock.LockMode.TheVariants as modes;

use crate::parts::CoreParts;
use change_log::Log;
use command_set::Level;
use core_state::seat::State;
use lock_table::{ClaimFault, LockFault, Locks};
use snapshot_registry::{SnapId, SnapRegistry};
use std::alloc::AllocError;
use xact_status::XactTable;

/// The xid of a session's transaction, if it has one.
pub fn xid_of(state: &State) -> Option<u64>
    ensures { result ≡ its_xid state.now }
{
    match state {
        State::Open { xid, .. } => *xid,
        State::Outside | State::Failed => None,
    }
}

/// The snapshot of a session's transaction, if it has one.
pub fn snapshot_of(state: &State) -> Option<SnapId>
    ensures { result ≡ its_snapshot state.now }
{
    match state {
        State::Open { snapshot, .. } => *snapshot,
        State::Outside | State::Failed => None,
    }
}

/// Whether a session is in an open transaction that reads repeatably.
pub fn is_repeatable(state: &State) -> bool
    ensures { result ≡ reads_repeatably state.now }
{
    match state {
        State::Open { level, .. } => match level {
            Level::Rc => false,
            Level::Rr => true,
        },
        State::Outside | State::Failed => false,
    }
}

/// The state of a transaction once it has a snapshot.
fn with_snapshot(state: State, snapshot: SnapId) -> State
    ensures { result ≡ snapshotted state snapshot }
{
    match state {
        State::Open { level, xid, .. } => State::Open {
            level,
            xid,
            snapshot: Some(snapshot),
        },
        State::Outside => State::Outside,
        State::Failed => State::Failed,
    }
}

/// The state of a transaction once it has an xid.
fn with_xid(state: State, xid: u64) -> State
    ensures { result ≡ assigned state xid }
{
    match state {
        State::Open {
            level,
            snapshot,
            ..
        } => State::Open {
            level,
            xid: Some(xid),
            snapshot,
        },
        State::Outside => State::Outside,
        State::Failed => State::Failed,
    }
}

/// A session uses a table, which no session locks for more.
fn use_table(locks: &mut Locks, session: u16, table: u16) -> Result<(), AllocError>
    requires { IsFirstInWay locks.old session (table_lock table modes.Use) None }
    ensures ok { OnOk result (locks.new ≡ granted locks.old session (table_lock table modes.Use)) }
    ensures err { OnErr result (locks.new ≡ locks.old) }
{
    match locks.use_table(session, table) {
        Ok(()) => Ok(()),
        Err(LockFault::Memory) => Err(AllocError),
        Err(LockFault::Locked { .. }) => unreachable!(),
    }
}

/// A session claims a key of a table: the other session that has claimed it, or none and it is claimed.
fn claim(locks: &mut Locks, session: u16, table: u16, key: &i64) -> Result<Option<u16>, AllocError>
    ensures other { IfOk result (IsFirstInWay locks.old session (row_lock table key.now)) }
    ensures after { IfOk result (λ other. locks.new ≡ after_asking locks.old session (row_lock table key.now) other) }
    ensures err { OnErr result (locks.new ≡ locks.old) }
{
    match locks.claim(session, table, *key) {
        Ok(()) => Ok(None),
        Err(ClaimFault::Busy { session }) => Ok(Some(session)),
        Err(ClaimFault::Memory) => Err(AllocError),
    }
}

/// A repeatable read transaction that has no snapshot takes one.
pub fn take_copy(
    state: &mut State,
    snaps: &mut SnapRegistry,
    xacts: &XactTable,
) -> Result<(), AllocError>
    ensures state { OnOk result (state.new ≡ copied_state state.old snaps.old) }
    ensures snaps { OnOk result (snaps.new ≡ copied_snaps state.old snaps.old xacts.now) }
    ensures state_stays { OnErr result (state.new ≡ state.old) }
    ensures snaps_stay { OnErr result (snaps.new ≡ snaps.old) }
{
    if is_repeatable(state) && snapshot_of(state).is_none() {
        let snapshot = snaps.take(xacts)?;
        *state = with_snapshot(*state, snapshot);
    }
    Ok(())
}

/// The snapshot that a read takes for itself: none under repeatable read, whose transaction has one.
pub fn take_for_read(
    state: &mut State,
    snaps: &mut SnapRegistry,
    xacts: &XactTable,
) -> Result<Option<SnapId>, AllocError>
    ensures own { IfOk result (λ own. own ≡ own_snapshot snaps.old state.old) }
    ensures state { OnOk result (state.new ≡ copied_state state.old snaps.old) }
    ensures snaps { OnOk result (snaps.new ≡ read_snaps state.old snaps.old xacts.now) }
    ensures state_stays { OnErr result (state.new ≡ state.old) }
    ensures snaps_stay { OnErr result (snaps.new ≡ snaps.old) }
{
    if is_repeatable(state) {
        take_copy(state, snaps, xacts)?;
        return Ok(None);
    }
    let snapshot = snaps.take(xacts)?;
    Ok(Some(snapshot))
}

/// The snapshot that a handle keeps: one of its own under read committed, else its transaction's, which
/// then has a holder more.
pub fn take_for_handle(
    state: &mut State,
    snaps: &mut SnapRegistry,
    xacts: &XactTable,
) -> Result<SnapId, AllocError>
    requires { (id : ℕ) → its_snapshot state.old ≡ Some id → (is_registered snaps.old id ≡ true) × (holders_at snaps.old id < u32.MAX) }
    ensures id { IfOk result (λ id. id ≡ id_for_handle (copied_state state.old snaps.old) (copied_snaps state.old snaps.old xacts.now)) }
    ensures state { OnOk result (state.new ≡ copied_state state.old snaps.old) }
    ensures snaps { OnOk result (snaps.new ≡ handle_snaps (copied_state state.old snaps.old) (copied_snaps state.old snaps.old xacts.now) xacts.now) }
    ensures state_stays { OnErr result (state.new ≡ state.old) }
    ensures snaps_stay { OnErr result (snaps.new ≡ snaps.old) }
{
    take_copy(state, snaps, xacts)?;
    match snapshot_of(state) {
        Some(snapshot) => {
            snaps.share(snapshot);
            Ok(snapshot)
        }
        None => {
            let snapshot = snaps.take(xacts)?;
            Ok(snapshot)
        }
    }
}

/// A session's transaction that has no xid gets one, with room for its end in the log.
fn assign(xacts: &mut XactTable, log: &mut Log, session: u16) -> Result<u64, AllocError>
    ensures xid { IfOk result (λ xid. xid ≡ next_xid xacts.old) }
    ensures xacts { OnOk result (xacts.new ≡ after_assign xacts.old session) }
    ensures log { OnOk result (log.new ≡ once_kept log.old None) }
    ensures xacts_stay { OnErr result (xacts.new ≡ xacts.old) }
    ensures log_stays { OnErr result (log.new ≡ log.old) }
{
    log.reserve_end()?;
    match xacts.assign(session) {
        Ok(xid) => Ok(xid),
        Err(fault) => {
            log.give_up_end();
            Err(fault)
        }
    }
}

/// The xid of a session's transaction, which gets one if it has none.
pub fn take_xid(
    state: &mut State,
    xacts: &mut XactTable,
    log: &mut Log,
    session: u16,
) -> Result<u64, AllocError>
    ensures xid { IfOk result (λ xid. xid ≡ unwrap_or (its_xid state.old) (next_xid xacts.old)) }
    ensures state { OnOk result (state.new ≡ assigned state.old (unwrap_or (its_xid state.old) (next_xid xacts.old))) }
    ensures xacts { OnOk result (xacts.new ≡ once_assigned xacts.old session (its_xid state.old)) }
    ensures log { OnOk result (log.new ≡ once_kept log.old (its_xid state.old)) }
    ensures state_stays { OnErr result (state.new ≡ state.old) }
    ensures xacts_stay { OnErr result (xacts.new ≡ xacts.old) }
    ensures log_stays { OnErr result (log.new ≡ log.old) }
{
    match xid_of(state) {
        Some(xid) => Ok(xid),
        None => {
            let xid = assign(xacts, log, session)?;
            *state = with_xid(*state, xid);
            Ok(xid)
        }
    }
}

impl CoreParts {
    /// A session uses a table, to the end of its transaction.
    pub fn use_table(&mut self, session: u16, table: u16) -> Result<(), AllocError>
        requires { IsFirstInWay self.old.locks session (table_lock table modes.Use) None }
        ensures ok { OnOk result (self.new ≡ locked self.old session table) }
        ensures err { OnErr result (self.new ≡ self.old) }
    {
        use_table(&mut self.locks, session, table)?;
        Ok(())
    }

    /// A session claims a key of a table, to the end of its transaction: the other session that has claimed
    /// it, or none and it is claimed.
    pub fn claim(&mut self, session: u16, table: u16, key: &i64) -> Result<Option<u16>, AllocError>
        ensures other { IfOk result (IsFirstInWay self.old.locks session (row_lock table key.now)) }
        ensures after { IfOk result (λ other. self.new ≡ once_asked self.old session table key.now other) }
        ensures err { OnErr result (self.new ≡ self.old) }
    {
        let other = claim(&mut self.locks, session, table, key)?;
        Ok(other)
    }
}
