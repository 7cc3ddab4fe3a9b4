//! The moments of handles.

ghost use Rattle.std.specs.Prelude.{◌≡◌, ◌≤◌, IfOk, None, OnErr, OnOk, true};
ghost use Rattle.std.specs.Option.{option_copied};
ghost use Rattle.command_set.specs.declared.Command.TheVariants as commands;
ghost use Rattle.snapshot_registry.specs.Snapshots.{is_registered};
ghost use Rattle.core_state.specs.Begun.{held_size as size_held};
ghost use Rattle.core_state.specs.Commands.{IsColumnIn, IsFitting};
ghost use Rattle.core_state.specs.Lines.{after_open};
ghost use Rattle.core_state.specs.State.{IsSession, IsTableOf, handle_of as named, schemas_of, seat_of, table_at};
ghost use Rattle.core_state.specs.Views.{row_seen as seen_row};
ghost use Rattle.core_parts.specs.Moments.{HasAsked, IsCutShort, IsMade};
ghost use Rattle.core_parts.specs.Takes.{without_named};
ghost use Rattle.core_sights.specs.Ready.{IsReady};
ghost use Rattle.core_reading.specs.Handles.{BeginsFetch, CanKeep, InTransaction, once_opened, seat_with, slice_read as read_of_slice, snaps_with, value_due};
ghost use Rattle.core_reading.specs.Reads.{CanBegin, IsInside};

use crate::moments::{first_refusal, looked, reply_now};
use crate::names::seats_fit;
use crate::spans::span_of;
use command_set::Reply;
use core_parts::CoreParts;
use core_parts::handles::{handle_of, taken_handles, with_handle, without_handle};
use core_parts::rows::{cell_at, held_in, held_size};
use core_parts::takes::take_for_handle;
use core_sights::row_seen;
use core_state::advance::Advance;
use core_state::seat::{Handle, HandleList, Job, Seat};
use read_steps::{Held, ReadJob};
use snapshot_registry::{SnapId, SnapRegistry};
use std::alloc::{AllocError, Global};
use std::mem;
use xact_status::XactTable;

/// The handle of a name that a session has open, if it has one.
fn kept_at(core: &CoreParts, session: u16, handle: u16) -> Option<&Handle>
    requires { IsSession core.now.seats session }
    ensures { option_copied result ≡ named (seat_of core.now session).handles handle }
{
    handle_of(
        core.seats[usize::from(session - 1)].handles.as_slice(),
        handle,
    )
}

/// The value of a column of the row that a session sees at a key, as a handle keeps it; or the reply that
/// there is none. The error is for want of memory.
fn value_seen(
    core: &CoreParts,
    session: u16,
    table: u16,
    key: &i64,
    column: u16,
) -> Result<Result<Held, Reply>, AllocError>
    requires inside { IsInside core.now session table }
    requires fits { IsColumnIn (schemas_of core.now.tables) table column }
    ensures { IfOk result (λ value. value ≡ value_due (seen_row core.now session table key.now) column) }
{
    let Some(row) = row_seen(core, session, table, key)? else {
        return Ok(Err(Reply::Absent));
    };
    match held_in(cell_at(row.stored, column)) {
        Some(held) => Ok(Ok(held)),
        None => Ok(Err(Reply::Null)),
    }
}

/// Keeps a value by a handle of a session, with the snapshot that it is read by. After want of memory all is
/// as before.
fn keep(
    alloc: Global,
    seat: &mut Seat,
    snaps: &mut SnapRegistry,
    xacts: &XactTable,
    name: u16,
    table: u16,
    held: Held,
) -> Result<(), AllocError>
    requires { CanKeep seat.old snaps.old name }
    ensures seat { OnOk result (seat.new ≡ seat_with seat.old snaps.old xacts.now name table held) }
    ensures snaps { OnOk result (snaps.new ≡ snaps_with seat.old snaps.old xacts.now) }
    ensures seat_stays { OnErr result (seat.new ≡ seat.old) }
    ensures snaps_stay { OnErr result (snaps.new ≡ snaps.old) }
{
    let handles = taken_handles(alloc, &mut seat.handles)?;
    match take_for_handle(&mut seat.state, snaps, xacts) {
        Ok(snapshot) => {
            let handle = Handle {
                name,
                snapshot,
                table,
                held,
            };
            seat.handles = with_handle(handles, handle);
            Ok(())
        }
        Err(fault) => {
            seat.handles = HandleList::from_vec(handles);
            Err(fault)
        }
    }
}

/// Opens a handle on a value of a table that is used.
fn open_used(
    core: &mut CoreParts,
    session: u16,
    handle: u16,
    table: u16,
    held: Held,
) -> Result<Advance, AllocError>
    requires session { IsSession core.old.seats session }
    requires keeps { CanKeep (seat_of core.old session) core.old.snaps handle }
    ensures ok { OnOk result (core.new ≡ once_opened core.old session handle table held) }
    ensures told { IfOk result (λ advance. advance ≡ Advance.Done Reply.Okay) }
    ensures err { OnErr result (core.new ≡ core.old) }
{
    let seat = &mut core.seats[usize::from(session - 1)];
    keep(
        core.alloc,
        seat,
        &mut core.snaps,
        &core.xacts,
        handle,
        table,
        held,
    )?;
    Ok(Advance::Done(Reply::Okay))
}

/// Uses a table, and opens a handle on a value of it. After want of memory only locks may have been asked
/// for.
fn open_value(
    core: &mut CoreParts,
    session: u16,
    handle: u16,
    table: u16,
    held: Held,
) -> Result<Advance, AllocError>
    requires ready { IsReady core.old session }
    requires new { named (seat_of core.old session).handles handle ≡ None }
    ensures ok { OnOk result (core.new ≡ after_open core.old session table handle held) }
    ensures told { IfOk result (λ advance. advance ≡ Advance.Done Reply.Okay) }
    ensures err { OnErr result (HasAsked core.old session core.new) }
{
    seats_fit(core.seats.as_slice());
    core.use_table(session, table)?;
    let advance = open_used(core, session, handle, table, held)?;
    Ok(advance)
}

/// Opens a handle of a new name in an open transaction.
fn open_new(
    core: &mut CoreParts,
    session: u16,
    handle: u16,
    table: u16,
    key: &i64,
    column: u16,
) -> Result<Advance, AllocError>
    requires inside { IsInside core.old session table }
    requires new { named (seat_of core.old session).handles handle ≡ None }
    requires fits { IsFitting (schemas_of core.old.tables) (commands.Open handle table key.now column) }
    ensures ok { IfOk result (IsMade core.old session (commands.Open handle table key.now column) core.new) }
    ensures err { OnErr result (IsCutShort core.old session core.new) }
{
    match value_seen(core, session, table, key, column)? {
        Ok(held) => {
            let advance = open_value(core, session, handle, table, held)?;
            Ok(advance)
        }
        Err(reply) => {
            let advance = looked(core, session, table, reply)?;
            Ok(advance)
        }
    }
}

/// Opens a handle in an open transaction.
fn open_inside(
    core: &mut CoreParts,
    session: u16,
    handle: u16,
    table: u16,
    key: &i64,
    column: u16,
) -> Result<Advance, AllocError>
    requires inside { IsInside core.old session table }
    requires fits { IsFitting (schemas_of core.old.tables) (commands.Open handle table key.now column) }
    ensures ok { IfOk result (IsMade core.old session (commands.Open handle table key.now column) core.new) }
    ensures err { OnErr result (IsCutShort core.old session core.new) }
{
    match kept_at(core, session, handle) {
        Some(_) => Ok(core.refuse(session, Reply::HandleThere)),
        None => {
            let advance = open_new(core, session, handle, table, key, column)?;
            Ok(advance)
        }
    }
}

/// Opens a handle on a column's value, which it keeps until it is closed or its transaction ends. The error
/// is for want of memory.
pub fn open(
    core: &mut CoreParts,
    session: u16,
    handle: u16,
    table: u16,
    key: &i64,
    column: u16,
) -> Result<Advance, AllocError>
    requires ready { IsReady core.old session }
    requires fits { IsFitting (schemas_of core.old.tables) (commands.Open handle table key.now column) }
    ensures ok { IfOk result (IsMade core.old session (commands.Open handle table key.now column) core.new) }
    ensures err { OnErr result (IsCutShort core.old session core.new) }
{
    match first_refusal(core.state(session)) {
        Some(refusal) => Ok(Advance::Done(refusal)),
        None => {
            let advance = open_inside(core, session, handle, table, key, column)?;
            Ok(advance)
        }
    }
}

/// The read of a slice of a kept value; none where the offset is negative. The error is for want of memory.
fn slice_read(
    alloc: Global,
    held: &Held,
    offset: &i32,
    length: &i32,
    session: u16,
) -> Result<Option<ReadJob>, AllocError>
    requires { size_held held.now ≤ 65536 }
    ensures { IfOk result (λ read. read ≡ read_of_slice session offset.now length.now held.now) }
{
    let Some(span) = span_of(held_size(held), offset, length) else {
        return Ok(None);
    };
    let read = ReadJob::held(alloc, held, span, session)?;
    Ok(Some(read))
}

/// Goes on with a fetch past its moment, or answers it where it needs nothing of the store.
fn begin_fetch(
    core: &mut CoreParts,
    session: u16,
    table: u16,
    read: ReadJob,
) -> Result<Advance, AllocError>
    requires ready { IsReady core.old session }
    requires of_table { IsTableOf core.old.tables table }
    requires can { CanBegin (table_at core.old.tables table).toast read }
    ensures ok { IfOk result (BeginsFetch core.old session table read core.new) }
    ensures err { OnErr result (core.new ≡ core.old) }
{
    if read.needs_store() {
        let job = Job::Reading {
            table,
            snapshot: None,
            read,
        };
        core.set_job(session, job);
        return Ok(Advance::More);
    }
    let reply = reply_now(core, table, read)?;
    Ok(Advance::Done(reply))
}

/// Fetches a part of a handle's value in an open transaction.
fn fetch_inside(
    core: &mut CoreParts,
    session: u16,
    handle: u16,
    offset: &i32,
    length: &i32,
) -> Result<Advance, AllocError>
    requires { InTransaction core.old session }
    ensures ok { IfOk result (IsMade core.old session (commands.Fetch handle offset.now length.now) core.new) }
    ensures err { OnErr result (core.new ≡ core.old) }
{
    let Some(kept) = kept_at(core, session, handle) else {
        return Ok(core.refuse(session, Reply::NoHandle));
    };
    let table = kept.table;
    let Some(read) = slice_read(core.alloc, &kept.held, offset, length, session)? else {
        return Ok(core.refuse(session, Reply::BadOffset));
    };
    let advance = begin_fetch(core, session, table, read)?;
    Ok(advance)
}

/// Fetches a part of a handle's value. The error is for want of memory.
pub fn fetch(
    core: &mut CoreParts,
    session: u16,
    handle: u16,
    offset: &i32,
    length: &i32,
) -> Result<Advance, AllocError>
    requires ready { IsReady core.old session }
    ensures ok { IfOk result (IsMade core.old session (commands.Fetch handle offset.now length.now) core.new) }
    ensures err { OnErr result (IsCutShort core.old session core.new) }
{
    match first_refusal(core.state(session)) {
        Some(refusal) => Ok(Advance::Done(refusal)),
        None => {
            let advance = fetch_inside(core, session, handle, offset, length)?;
            Ok(advance)
        }
    }
}

/// Gives a session's handle up, and its use of this snapshot.
fn give_back(core: &mut CoreParts, session: u16, handle: u16, snapshot: SnapId)
    requires session { IsSession core.old.seats session }
    requires used { is_registered core.old.snaps snapshot ≡ true }
    ensures { core.new ≡ without_named core.old session handle snapshot }
{
    core.snaps.release(snapshot);
    let seat = &mut core.seats[usize::from(session - 1)];
    let handles = mem::replace(&mut seat.handles, HandleList::new(core.alloc));
    seat.handles = without_handle(handles, handle);
}

/// Closes a handle in an open transaction.
fn close_inside(core: &mut CoreParts, session: u16, handle: u16) -> Advance
    requires { InTransaction core.old session }
    ensures { IsMade core.old session (commands.Close handle) core.new result }
{
    match kept_at(core, session, handle) {
        Some(kept) => {
            let snapshot = kept.snapshot;
            give_back(core, session, handle, snapshot);
            Advance::Done(Reply::Okay)
        }
        None => core.refuse(session, Reply::NoHandle),
    }
}

/// Closes a handle.
pub fn close(core: &mut CoreParts, session: u16, handle: u16) -> Advance
    requires ready { IsReady core.old session }
    ensures { IsMade core.old session (commands.Close handle) core.new result }
{
    match first_refusal(core.state(session)) {
        Some(refusal) => Advance::Done(refusal),
        None => close_inside(core, session, handle),
    }
}
