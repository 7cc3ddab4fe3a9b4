//! The changes of a session, each with its columns.

ghost use Rattle.change_stream.specs.Sets.{out_beside};
ghost use Rattle.change_stream.specs.Streams.{kept_by, last_out, outs_with, put_by, puts_at, unset, written_as};
ghost use Rattle.command_set.specs.Plain.{value_set};
ghost use Rattle.command_set.specs.Replies.{schema_of};
ghost use Rattle.plain_stream.specs.States.{next_written, outs_in};
ghost use Rattle.std.specs.Option.{option_copied, option_map_or};
ghost use Rattle.std.specs.Prelude.{◌≡◌, [], IfOk, is_some};

use crate::outs::{OutLog, columns_at, storages_of};
use crate::pushed::out_beside;
use change_stream::{ColumnList, Written, WrittenList};
use command_set::changes::place_of;
use command_set::rows::is_same;
use command_set::state::Change;
use command_set::{Command, SchemaList, Script, Set};
use list_facts::ListOf;
use plain_program::changes::{insertion, movement, removal, replacement};
use std::alloc::{AllocError, Global};
use tuple_layout::{Place, Row};

fn copy_of(change: &Change) -> Result<Change, AllocError>
    ensures { IfOk result (λ copy. copy ≡ change.now) }
{
    match change {
        Change::Insert { table, key, row } => {
            let row = row.clone()?;
            Ok(insertion(table, key, row))
        }
        Change::Update { table, key, row } => {
            let row = row.clone()?;
            Ok(replacement(table, key, row))
        }
        Change::Move {
            table,
            from,
            to,
            row,
        } => {
            let row = row.clone()?;
            Ok(movement(table, from, to, row))
        }
        Change::Remove { table, key } => Ok(removal(table, key)),
    }
}

/// Whether a change puts a row at a place.
fn puts_at(change: &Change, place: &Place) -> bool
    ensures { result ≡ puts_at change.now place.now }
{
    match change {
        Change::Insert { table, key, .. } => is_same(place, &place_of(table, key)),
        Change::Update { table, key, .. } => is_same(place, &place_of(table, key)),
        Change::Move { table, to, .. } => is_same(place, &place_of(table, to)),
        Change::Remove { .. } => false,
    }
}

/// The columns that the last of these changes which puts a row at a place leaves out of line there.
fn last_out<'a>(written: &'a [Written], place: &Place) -> Option<&'a ColumnList>
    ensures { option_copied result ≡ last_out written.now place.now }
{
    let mut last = None;
    for change in written {
        if puts_at(&change.change, place) {
            last = Some(&change.out);
        }
    }
    last
}

/// The columns that are out of line at a place after these changes.
fn outs_with(
    alloc: Global,
    schemas: &SchemaList,
    outs: &OutLog,
    written: &[Written],
    place: &Place,
) -> Result<ColumnList, AllocError>
    ensures { IfOk result (λ columns. columns ≡ outs_with (outs_in schemas.now outs.now.items) written.now place.now) }
{
    match last_out(written, place) {
        Some(columns) => ListOf::from_slice(alloc, columns.as_slice()),
        None => columns_at(alloc, schemas, outs, place),
    }
}

/// Whether an update sets a column.
fn is_set(sets: &[Set], column: u16) -> bool
    ensures { result ≡ is_some (value_set sets.now column) }
{
    for set in sets {
        if set.column == column {
            return true;
        }
    }
    false
}

/// The columns of these that an update does not set.
fn unset(alloc: Global, sets: &[Set], columns: &[u16]) -> Result<ColumnList, AllocError>
    ensures { IfOk result (λ left. left ≡ unset sets.now columns.now) }
{
    let mut left = ListOf::new(alloc);
    for column in columns {
        if !is_set(sets, *column) {
            left.push(*column)?;
        }
    }
    Ok(left)
}

/// The columns at a place that an update there keeps out of line.
fn kept_at(
    alloc: Global,
    schemas: &SchemaList,
    outs: &OutLog,
    written: &[Written],
    place: &Place,
    sets: &[Set],
) -> Result<ColumnList, AllocError>
    ensures { IfOk result (λ kept. kept ≡ unset sets.now (outs_with (outs_in schemas.now outs.now.items) written.now place.now)) }
{
    let columns = outs_with(alloc, schemas, outs, written, place)?;
    unset(alloc, sets, columns.as_slice())
}

/// The columns that a command's change keeps out of line.
pub fn kept_by(
    alloc: Global,
    schemas: &SchemaList,
    outs: &OutLog,
    written: &[Written],
    command: &Command,
) -> Result<ColumnList, AllocError>
    ensures { IfOk result (λ kept. kept ≡ kept_by command.now (outs_with (outs_in schemas.now outs.now.items) written.now)) }
{
    match command {
        Command::Update { table, key, sets } => {
            let place = place_of(table, key);
            kept_at(alloc, schemas, outs, written, &place, sets.as_slice())
        }
        Command::Rekey {
            table,
            from,
            sets,
            ..
        } => {
            let place = place_of(table, from);
            kept_at(alloc, schemas, outs, written, &place, sets.as_slice())
        }
        _ => Ok(ListOf::new(alloc)),
    }
}

/// The columns that are out of line after a change that keeps these; none where it puts no row.
fn out_of(
    alloc: Global,
    schemas: &SchemaList,
    change: &Change,
    kept: &[u16],
) -> Result<ColumnList, AllocError>
    ensures { IfOk result (λ out. out ≡ option_map_or (λ put. out_beside (schema_of schemas.now put.0.table).storages put.1 kept.now) (put_by change.now) []) }
{
    match change {
        Change::Insert { table, row, .. }
        | Change::Update { table, row, .. }
        | Change::Move { table, row, .. } => {
            out_beside(alloc, storages_of(schemas, *table), row, kept)
        }
        Change::Remove { .. } => Ok(ListOf::new(alloc)),
    }
}

/// A change with its columns, where it keeps these.
fn written_as(
    alloc: Global,
    script: &Script,
    change: &Change,
    kept: &[u16],
) -> Result<Written, AllocError>
    ensures { IfOk result (λ written. written ≡ written_as script.now change.now kept.now) }
{
    let out = out_of(alloc, &script.schemas, change, kept)?;
    let kept = ListOf::from_slice(alloc, kept)?;
    let change = copy_of(change)?;
    Ok(Written { change, kept, out })
}

/// A session's changes that are left of those before, and behind them those that are new, which keep these
/// columns.
pub fn next_written(
    alloc: Global,
    script: &Script,
    written: WrittenList,
    left: &[Change],
    kept: &[u16],
) -> Result<WrittenList, AllocError>
    ensures { IfOk result (λ all. all ≡ next_written script.now kept.now written left.now) }
{
    let before = written.len().min(left.len());
    let mut all = written;
    all.truncate(left.len());
    let new = &left[before..];
    for change in new {
        let written = written_as(alloc, script, change, kept)?;
        all.push(written)?;
    }
    Ok(all)
}
