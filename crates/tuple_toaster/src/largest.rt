//! The largest column that may still go out of line.

ghost use Rattle.std.specs.Prelude.{◌≡◌, ◌≤◌, length};
ghost use Rattle.tuple_layout.specs.Tuples.{cell_width, cell_widths};
ghost use Rattle.tuple_toaster.specs.Pushed.{eligible_from, moved};
ghost use Rattle.tuple_toaster.specs.Largest.{candidate, candidate_besides, first_of, longer};

use crate::columns::OutColumns;
use tuple_layout::{Cell, Schema, Storage, may_go_out};

/// A column and the length of its value, if it may go out.
fn candidate(column: u16, storage: Storage, cell: &Cell) -> Option<(u16, usize)>
    ensures { result ≡ candidate column storage (cell_width cell.now) }
{
    match cell {
        Cell::Inline(value) => {
            if may_go_out(storage, value.len()) {
                Some((column, value.len()))
            } else {
                None
            }
        }
        Cell::Null | Cell::Out(_) => None,
    }
}

/// The same, if the column is none of `out`.
fn candidate_besides(
    out: &OutColumns,
    column: u16,
    storage: Storage,
    cell: &Cell,
) -> Option<(u16, usize)>
    ensures { result ≡ candidate_besides out.now column storage (cell_width cell.now) }
{
    if out.contains(column) {
        return None;
    }
    candidate(column, storage, cell)
}

/// The longer of two columns, of equal ones the first.
fn longer(first: Option<(u16, usize)>, second: Option<(u16, usize)>) -> Option<(u16, usize)>
    ensures { result ≡ longer first second }
{
    match (first, second) {
        (None, second) => second,
        (first, None) => first,
        (Some(first), Some(second)) => {
            if second.1 <= first.1 {
                Some(first)
            } else {
                Some(second)
            }
        }
    }
}

/// The largest column that may go out and is none of `out`, of equal ones the first, with its length.
pub(crate) fn largest(schema: &Schema, cells: &[Cell], out: &OutColumns) -> Option<(u16, usize)>
    requires { length cells.now ≡ length schema.now.storages }
    ensures first { result ≡ first_of (eligible_from 1 schema.now.storages (moved out.now (cell_widths cells.now))) }
    ensures few { length schema.now.storages ≤ 8 }
{
    let mut column = 0;
    let mut best = None;
    for (storage, cell) in schema.storages().iter().zip(cells) {
        column += 1;
        best = longer(best, candidate_besides(out, column, *storage, cell));
    }
    best
}
