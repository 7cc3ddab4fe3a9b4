//! The columns of a row that is read.

ghost use Rattle.std.specs.Prelude.{◌≡◌, ◌≤◌, ◌<◌, [], IfSome, length, vec_capacity};
ghost use Rattle.slice_fetch.specs.Spans.{bytes_in};
ghost use Rattle.read_steps.specs.Columns.{IsWithin, is_out, next_out, pointer_in, row_in, value_in};

use command_set::Row;
use list_facts::ListOf;
use slice_fetch::Span;
use std::alloc::Global;
use tuple_layout::{Bytes, Cell, CellList, Pointer};

/// The pointer of a value out of line that has bytes.
fn pointer_in(cell: &Cell) -> Option<Pointer>
    ensures { result ≡ pointer_in cell.now }
{
    match cell {
        Cell::Out(pointer) if pointer.size > 0 => Some(*pointer),
        Cell::Null | Cell::Inline(_) | Cell::Out(_) => None,
    }
}

/// Whether a value is out of line.
pub(crate) fn is_out(cell: &Cell) -> bool
    ensures { result ≡ is_out cell.now }
{
    matches!(cell, Cell::Out(_))
}

/// The bytes of a span of a value.
pub(crate) fn part_of<'a>(value: &'a Bytes, span: Span) -> &'a [u8]
    requires { IsWithin span (length value.now) }
    ensures { result.now ≡ bytes_in span value.now }
{
    &value.as_slice()[span.start as usize..span.end as usize]
}

/// The first such pointer of a row's columns, and its place, from 0.
pub(crate) fn next_out(cells: &[Cell]) -> Option<(usize, Pointer)>
    ensures next { result ≡ next_out cells.now }
    ensures there { IfSome result (λ found. found.0 < length cells.now) }
{
    for (at, cell) in cells.iter().enumerate() {
        if let Some(pointer) = pointer_in(cell) {
            return Some((at, pointer));
        }
    }
    None
}

/// The value of a column that has no such pointer.
fn value_in(alloc: Global, cell: Cell) -> Option<Bytes>
    ensures { result ≡ value_in cell }
{
    match cell {
        Cell::Null => None,
        Cell::Inline(value) => Some(value),
        Cell::Out(_) => Some(Bytes::new(alloc)),
    }
}

/// The row of columns that have none, where there is room for their values.
pub(crate) fn row_in(alloc: Global, cells: CellList, mut room: Vec<Option<Bytes>>) -> Row
    requires empty { room.items ≡ [] }
    requires room { length cells ≤ vec_capacity room }
    ensures { result ≡ row_in cells }
{
    for cell in cells.into_vec() {
        match room.push(value_in(alloc, cell)) {
            Ok(()) => {}
            Err(_) => unreachable!(),
        }
    }
    ListOf::from_vec(room)
}
