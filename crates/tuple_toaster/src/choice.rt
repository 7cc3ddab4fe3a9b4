//! Choosing the columns that go out of line.

ghost use Rattle.std.specs.Prelude.{◌≡◌, ◌≤◌, ◌<◌, ◌+◌, ◌^◌, length, IfErr, IfOk, IsOk};
ghost use Rattle.std.specs.List.{All};
ghost use Rattle.tuple_layout.specs.Sizes.{column_end, is_missing, largest_tuple};
ghost use Rattle.tuple_layout.specs.Tuples.{IsWithinLimits, cell_width, cell_widths};
ghost use Rattle.tuple_toaster.specs.Pushed.{all_moved_size, pushed, size_with, width_besides};

use crate::columns::OutColumns;
use crate::largest::largest;
use thiserror::Error;
use tuple_layout::{
    Cell, KEY_SIZE, LARGEST_TUPLE, POINTER_SIZE, Schema, Storage, column_end, header_size,
};

/// So many bytes a tuple is to take at most, if columns can go out of line (TOAST_TUPLE_TARGET).
pub const TUPLE_TARGET: usize = 2032;

/// A tuple is too large for a page, whatever goes out of line.
#[derive(Clone, Copy, Debug, PartialEq, Eq, Error)]
#[error("a tuple takes {size} bytes with every column out of line that may go out")]
pub struct RowTooBig {
    /// Its size in bytes with every column out of line that may go out.
    pub size: usize,
}

/// Whether a column is null and none of `out`.
fn is_null_besides(out: &OutColumns, column: u16, cell: &Cell) -> bool
    ensures { result ≡ is_missing (width_besides out.now column (cell_width cell.now)) }
{
    !out.contains(column) && matches!(cell, Cell::Null)
}

/// Where a column's data end, if the data before them end at `at` and the columns of `out` are out of
/// line too.
fn end_besides(out: &OutColumns, column: u16, storage: Storage, at: usize, cell: &Cell) -> usize
    requires place { at ≤ 2 ^ 32 }
    requires limits { IsWithinLimits cell.now }
    ensures end { result ≡ column_end storage at (width_besides out.now column (cell_width cell.now)) }
    ensures bound { result ≤ at + 65543 }
{
    if out.contains(column) {
        return at + POINTER_SIZE;
    }
    column_end(storage, at, cell)
}

/// How many bytes the row's tuple takes when the columns of `out` are out of line too.
fn size_with(schema: &Schema, cells: &[Cell], out: &OutColumns) -> usize
    requires one_each { length cells.now ≡ length schema.now.storages }
    requires limits { All IsWithinLimits cells.now }
    ensures { result ≡ size_with schema.now.storages (cell_widths cells.now) out.now }
{
    let mut column = 0;
    let mut has_null = false;
    let mut end = KEY_SIZE;
    for (storage, cell) in schema.storages().iter().zip(cells) {
        column += 1;
        has_null |= is_null_besides(out, column, cell);
        end = end_besides(out, column, *storage, end, cell);
    }
    header_size(cells.len() + 1, has_null) + end
}

/// The columns that go out: the largest, and again the largest, until the tuple takes at most
/// `target` bytes or none is left.
fn choose(schema: &Schema, cells: &[Cell], target: usize) -> OutColumns
    requires one_each { length cells.now ≡ length schema.now.storages }
    requires limits { All IsWithinLimits cells.now }
    ensures { result ≡ pushed schema.now.storages (cell_widths cells.now) target }
{
    let mut out = OutColumns::new();
    while size_with(schema, cells, &out) > target {
        let Some((column, _)) = largest(schema, cells, &out) else {
            break;
        };
        out.push(column);
    }
    out
}

/// The columns of a row that go out of line so that its tuple takes at most `target` bytes, in the
/// order in which they are chosen: the largest first, and of equal ones the first.
///
/// A column may go out if it is EXTERNAL, inline and has at least 21 bytes. Pointers stay. Where all
/// that may go out does not do, all of it goes out.
///
/// # Errors
/// `RowTooBig` exactly where the tuple then takes more than `LARGEST_TUPLE` bytes.
pub fn plan(schema: &Schema, cells: &[Cell], target: usize) -> Result<OutColumns, RowTooBig>
    requires one_each { length cells.now ≡ length schema.now.storages }
    requires limits { All IsWithinLimits cells.now }
    ensures columns { IfOk result (λ out. out ≡ pushed schema.now.storages (cell_widths cells.now) target) }
    ensures fits { let columns = pushed schema.now.storages (cell_widths cells.now) target in IsOk result → size_with schema.now.storages (cell_widths cells.now) columns ≤ largest_tuple }
    ensures size { let columns = pushed schema.now.storages (cell_widths cells.now) target in IfErr result (λ fault. fault.size ≡ size_with schema.now.storages (cell_widths cells.now) columns) }
    ensures too_big { IfErr result (λ fault. largest_tuple < fault.size) }
    ensures all_out { target ≤ largest_tuple → IfErr result (λ fault. fault.size ≡ all_moved_size schema.now.storages (cell_widths cells.now)) }
{
    let out = choose(schema, cells, target);
    let size = size_with(schema, cells, &out);
    if size > LARGEST_TUPLE {
        return Err(RowTooBig { size });
    }
    Ok(out)
}

/// How many bytes the row's tuple takes with every column out of line that may go out.
pub fn all_moved_size(schema: &Schema, cells: &[Cell]) -> usize
    requires one_each { length cells.now ≡ length schema.now.storages }
    requires limits { All IsWithinLimits cells.now }
    ensures { result ≡ all_moved_size schema.now.storages (cell_widths cells.now) }
{
    let out = choose(schema, cells, 0);
    size_with(schema, cells, &out)
}
