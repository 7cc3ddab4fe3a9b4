//! The ends of transactions.

ghost use Rattle.std.specs.Prelude.{◌≡◌, ◌≤◌, ◌==◌, ℕ, List, [], Contains, Some, count_by, length, map, option_to_list, true};
ghost use Rattle.std.specs.Option.{option_map};
ghost use Rattle.xact_status.specs.Xacts.{is_running};
ghost use Rattle.snapshot_registry.specs.Snapshots.{holders_at, is_registered};
ghost use Rattle.core_state.specs.Lines.{after_commit_of, after_end_of, after_failing, after_giving_up, failed_state as failed, once_aborted, once_committed, once_ended, once_released, once_unpinned};
ghost use Rattle.core_state.specs.State.{IsTableOf, IsSession, job_snapshot as snapshot_in, job_table as table_in, seat_of, uses_of, xid_of as its_xid};
ghost use Rattle.core_parts.specs.Ends.{CanEnd, CanLeave, CanRelease, after_leaving};

use crate::parts::CoreParts;
use crate::takes::{snapshot_of, xid_of};
use change_log::{Log, LogEntry};
use core_state::seat::{Handle, HandleList, Job, Seat, State};
use snapshot_registry::{SnapId, SnapRegistry};
use std::alloc::Global;
use table_state::Table;
use xact_status::XactTable;

/// What a session is in once an open transaction of it has failed.
fn failed_state(state: State) -> State
    ensures { result ≡ failed state }
{
    match state {
        State::Open { .. } => State::Failed,
        State::Outside => State::Outside,
        State::Failed => State::Failed,
    }
}

/// Commits a session's transaction, if it has an xid, for whose end the log has room.
fn commit_xact(xacts: &mut XactTable, log: &mut Log, xid: Option<u64>)
    requires runs { (own : ℕ) → xid ≡ Some own → is_running xacts.old own ≡ true }
    requires room { (own : ℕ) → xid ≡ Some own → 1 ≤ log.old.ends }
    ensures xacts { xacts.new ≡ once_committed xacts.old xid }
    ensures log { log.new ≡ once_ended log.old (option_map LogEntry.Commit xid) }
{
    if let Some(xid) = xid {
        let _ = xacts.commit(xid);
        log.append_end(LogEntry::Commit { xid });
    }
}

/// Aborts a session's transaction, if it has an xid, for whose end the log has room.
fn abort_xact(xacts: &mut XactTable, log: &mut Log, xid: Option<u64>)
    requires runs { (own : ℕ) → xid ≡ Some own → is_running xacts.old own ≡ true }
    requires room { (own : ℕ) → xid ≡ Some own → 1 ≤ log.old.ends }
    ensures xacts { xacts.new ≡ once_aborted xacts.old xid }
    ensures log { log.new ≡ once_ended log.old (option_map LogEntry.Abort xid) }
{
    if let Some(xid) = xid {
        xacts.abort(xid);
        log.append_end(LogEntry::Abort { xid });
    }
}

/// Gives up a use of a snapshot, if there is one.
pub fn release(snaps: &mut SnapRegistry, snapshot: Option<SnapId>)
    requires { CanRelease snaps.old (option_to_list snapshot) }
    ensures { snaps.new ≡ once_released snaps.old (option_to_list snapshot) }
{
    if let Some(snapshot) = snapshot {
        snaps.release(snapshot);
    }
}

/// Gives up the uses of snapshots that handles make.
fn release_handles(snaps: &mut SnapRegistry, handles: &[Handle])
    requires { CanRelease snaps.old (map (λ handle. handle.snapshot) handles.now) }
    ensures { snaps.new ≡ once_released snaps.old (map (λ handle. handle.snapshot) handles.now) }
{
    for handle in handles {
        snaps.release(handle.snapshot);
    }
}

/// Gives up every use of a snapshot that a session makes.
fn release_uses(snaps: &mut SnapRegistry, seat: &Seat)
    requires { CanRelease snaps.old (uses_of seat.now) }
    ensures { snaps.new ≡ once_released snaps.old (uses_of seat.now) }
{
    release(snaps, snapshot_of(&seat.state));
    release(snaps, job_snapshot(&seat.job));
    release_handles(snaps, seat.handles.as_slice());
}

/// The snapshot that a job holds by itself.
fn job_snapshot(job: &Job) -> Option<SnapId>
    ensures { result ≡ snapshot_in job.now }
{
    match job {
        Job::Reading { snapshot, .. } => *snapshot,
        Job::Idle | Job::Submitted(_) | Job::Writing { .. } => None,
    }
}

/// The table that a job works on.
pub fn job_table(job: &Job) -> Option<u16>
    ensures { result ≡ table_in job.now }
{
    match job {
        Job::Reading { table, .. } | Job::Writing { table, .. } => Some(*table),
        Job::Idle | Job::Submitted(_) => None,
    }
}

/// Drops a session's pin in the table that its job works on, if there is one.
fn unpin(tables: &mut [Table], session: u16, table: Option<u16>)
    requires { (t : ℕ) → table ≡ Some t → IsTableOf tables.old t }
    ensures { tables.new ≡ once_unpinned tables.old session table }
{
    if let Some(table) = table {
        tables[usize::from(table) - 1].toast.unpin(session);
    }
}

/// The seat of a session that is in this, and has nothing else.
fn left_seat(alloc: Global, state: State) -> Seat
    ensures { result ≡ record { state = state; handles = []; job = Job.Idle } }
{
    Seat {
        state,
        handles: HandleList::new(alloc),
        job: Job::Idle,
    }
}

impl CoreParts {
    /// Gives up all that a session holds, whose transaction has ended, and leaves it in this.
    fn end(&mut self, session: u16, state: State)
        requires { CanLeave self.old session }
        ensures { self.new ≡ after_leaving self.old session state }
    {
        let at = usize::from(session - 1);
        release_uses(&mut self.snaps, &self.seats[at]);
        unpin(&mut self.tables, session, job_table(&self.seats[at].job));
        self.ids.release(session);
        self.locks.end(session);
        self.seats[at] = left_seat(self.alloc, state);
    }

    /// Commits a session's open transaction, and gives up all that it holds.
    pub fn end_committed(&mut self, session: u16)
        requires { CanEnd self.old session }
        ensures { self.new ≡ after_commit_of self.old session }
    {
        let xid = xid_of(&self.state(session));
        commit_xact(&mut self.xacts, &mut self.log, xid);
        self.end(session, State::Outside);
    }

    /// Ends a session's transaction without a commit, and gives up all that it holds. The session is then
    /// in this.
    pub fn give_up(&mut self, session: u16, state: State)
        requires { CanEnd self.old session }
        ensures { self.new ≡ after_giving_up self.old session state }
    {
        let xid = xid_of(&self.state(session));
        abort_xact(&mut self.xacts, &mut self.log, xid);
        self.end(session, state);
    }

    /// Ends a session's command, and its open transaction as a failed one.
    pub fn fail(&mut self, session: u16)
        requires { CanEnd self.old session }
        ensures { self.new ≡ after_failing self.old session }
    {
        let state = failed_state(self.state(session));
        self.give_up(session, state);
    }
}
