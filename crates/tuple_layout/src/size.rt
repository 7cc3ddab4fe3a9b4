//! How many bytes a row's tuple takes.

ghost use Rattle.std.specs.Prelude.{◌≡◌, ◌≤◌, ◌<◌, ◌^◌, ◌+◌, length};
ghost use Rattle.std.specs.List.{All};
ghost use Rattle.tuple_layout.specs.Sizes.{aligned, is_short, may_go_out, inline_end, column_end, header_size};
ghost use Rattle.tuple_layout.specs.Tuples.{IsWithinLimits, cell_width, row_size};

use crate::cell::Cell;
use crate::header::has_null;
use crate::{Schema, Storage};

/// What a tuple's header takes before its bitmap, in bytes.
pub(crate) const FIXED_HEADER_SIZE: usize = 23;

/// The largest tuple that fits on a page, in bytes (MaxHeapTupleSize, rounded down to 8).
pub const LARGEST_TUPLE: usize = 8160;

/// What a pointer to a value out of line takes, in bytes.
pub const POINTER_SIZE: usize = 18;

/// What a row's key takes, in bytes.
pub const KEY_SIZE: usize = 8;

/// The longest value that has a header of one byte, in bytes.
const LONGEST_SHORT: usize = 126;

/// The shortest value that may go out of line, in bytes.
const LEAST_OUT: usize = 21;

/// Whether an inline value of so many bytes has a header of one byte: its column is not PLAIN and it has
/// at most 126 bytes.
pub fn is_short(storage: Storage, length: usize) -> bool
    ensures { result ≡ is_short storage length }
{
    storage == Storage::External && length <= LONGEST_SHORT
}

/// Whether an inline value of so many bytes may go out of line: its column is EXTERNAL and it has at
/// least 21 bytes.
pub fn may_go_out(storage: Storage, length: usize) -> bool
    ensures { result ≡ may_go_out storage length }
{
    storage == Storage::External && length >= LEAST_OUT
}

/// How many zeros stand before a datum that is aligned, if the data before it end at `at`.
pub(crate) fn padding(at: usize) -> usize
    ensures aligned { at + result ≡ aligned at }
    ensures few { result ≤ 3 }
{
    (4 - at % 4) % 4
}

/// Where an inline value of so many bytes ends, if the data before it end at `at`.
fn inline_end(storage: Storage, at: usize, length: usize) -> usize
    requires place { at ≤ 2 ^ 32 }
    requires limit { length ≤ 65536 }
    ensures { result ≡ inline_end storage at length }
{
    if is_short(storage, length) {
        at + 1 + length
    } else {
        at + padding(at) + 4 + length
    }
}

/// Where a column's data end, counted from the start of a tuple's data, if the data before them end
/// at `at`, which is at most 2 to the 32nd. A null takes no data, and a pointer 18 bytes.
pub fn column_end(storage: Storage, at: usize, cell: &Cell) -> usize
    requires place { at ≤ 2 ^ 32 }
    requires limits { IsWithinLimits cell.now }
    ensures end { result ≡ column_end storage at (cell_width cell.now) }
    ensures bound { result ≤ at + 65543 }
{
    match cell {
        Cell::Null => at,
        Cell::Inline(value) => inline_end(storage, at, value.len()),
        Cell::Out(_) => at + POINTER_SIZE,
    }
}

/// How many bytes the header of a tuple takes that has so many columns, at most 9 with the key
/// counted: a multiple of 8.
pub fn header_size(columns: usize, has_null: bool) -> usize
    requires { columns ≤ 9 }
    ensures { result ≡ header_size columns has_null }
{
    let bitmap = if has_null { columns.div_ceil(8) } else { 0 };
    (FIXED_HEADER_SIZE + bitmap).div_ceil(8) * 8
}

/// How many bytes the tuple of a row with these cells takes, which are one for each column.
pub fn row_size(schema: &Schema, cells: &[Cell]) -> usize
    requires one_each { length cells.now ≡ length schema.now.storages }
    requires limits { All IsWithinLimits cells.now }
    ensures { result ≡ row_size schema.now.storages cells.now }
{
    let mut end = KEY_SIZE;
    for (storage, cell) in schema.storages().iter().zip(cells) {
        end = column_end(*storage, end, cell);
    }
    header_size(cells.len() + 1, has_null(cells)) + end
}
