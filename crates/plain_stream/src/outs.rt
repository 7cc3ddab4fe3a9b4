//! Which columns of committed rows are out of line, as a log of what has changed it, the newest first.

ghost use Rattle.change_stream.specs.Sets.{out_beside};
ghost use Rattle.command_set.specs.Replies.{schema_of};
ghost use Rattle.plain_stream.specs.States.{outs_by, outs_in, tells};
ghost use Rattle.std.specs.FinMap as map;
ghost use Rattle.std.specs.Option.{option_copied, option_map_or};
ghost use Rattle.std.specs.Prelude.{◌≡◌, ◌≤◌, [], IfOk, length};

use crate::pushed::out_beside;
use change_stream::ColumnList;
use command_set::SchemaList;
use command_set::rows::{RowMap, is_same};
use command_set::values::nth;
use list_facts::ListOf;
use std::alloc::{AllocError, Global};
use std::collections::VecDeque;
use tuple_layout::{Place, Row, Storage};

/// What has changed which columns are out of line.
#[derive(Drop)]
pub enum OutEdit {
    /// A row with these columns out of line was put at a place.
    Put { place: Place, columns: ColumnList },
    /// A table was written anew, when these were the committed rows.
    Rewritten { table: u16, rows: RowMap },
}

/// What has changed which columns are out of line, the newest first.
pub type OutLog = VecDeque<OutEdit>;

/// The storages of a table's columns; none where there is no table.
pub fn storages_of(schemas: &SchemaList, table: u16) -> &[Storage]
    ensures all { result.now ≡ (schema_of schemas.now table).storages }
    ensures few { length result.now ≤ 8 }
{
    match nth(schemas.as_slice(), usize::from(table)) {
        Some(schema) => schema.storages(),
        None => &[],
    }
}

/// The columns of a row that are out of line once its table is written anew; none where there is no row.
fn anew(
    alloc: Global,
    schemas: &SchemaList,
    table: u16,
    row: Option<&Row>,
) -> Result<ColumnList, AllocError>
    ensures { IfOk result (λ columns. columns ≡ option_map_or (λ row. out_beside (schema_of schemas.now table).storages row []) (option_copied row.entry) []) }
{
    match row {
        None => Ok(ListOf::new(alloc)),
        Some(row) => out_beside(alloc, storages_of(schemas, table), row, &[]),
    }
}

/// Whether an edit tells of a place.
fn tells(edit: &OutEdit, place: &Place) -> bool
    ensures { result ≡ tells edit.now place.now }
{
    match edit {
        OutEdit::Put { place: other, .. } => is_same(place, other),
        OutEdit::Rewritten { table, .. } => *table == place.table,
    }
}

/// The columns that an edit leaves out of line at a place of which it tells.
fn columns_by(
    alloc: Global,
    schemas: &SchemaList,
    edit: &OutEdit,
    place: &Place,
) -> Result<ColumnList, AllocError>
    ensures { IfOk result (λ columns. columns ≡ outs_by schemas.now edit.now place.now) }
{
    match edit {
        OutEdit::Put { columns, .. } => ListOf::from_slice(alloc, columns.as_slice()),
        OutEdit::Rewritten { rows, .. } => anew(alloc, schemas, place.table, rows.get(place)),
    }
}

/// The columns that are out of line at a place.
pub fn columns_at(
    alloc: Global,
    schemas: &SchemaList,
    log: &OutLog,
    place: &Place,
) -> Result<ColumnList, AllocError>
    ensures { IfOk result (λ columns. columns ≡ outs_in schemas.now log.now.items place.now) }
{
    for edit in log {
        if tells(edit, place) {
            return columns_by(alloc, schemas, edit, place);
        }
    }
    Ok(ListOf::new(alloc))
}
