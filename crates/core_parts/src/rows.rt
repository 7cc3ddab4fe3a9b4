//! The row that a write puts, and the parts of values that a read wants.

ghost use Rattle.std.specs.Prelude.{◌≡◌, ◌≤◌, IfOk, length, map};
ghost use Rattle.std.specs.Option.{option_copied, option_map_or};
ghost use Rattle.command_set.specs.Plain.{value_set as set_in};
ghost use Rattle.core_state.specs.Begun.{cell_in_line as in_line, cell_size, cells_with as with_sets, held_size as size_held, inserted_row as row_inserted, updated_row as row_updated};
ghost use Rattle.read_steps.specs.Reads.{cell_of};
ghost use Rattle.core_parts.specs.Found.{held_found, size_found};

use crate::copies::{copy_of_cell, copy_of_value};
use command_set::{Row, Set, SetList};
use read_steps::Held;
use std::alloc::{AllocError, Global};
use tuple_layout::{Bytes, Cell, CellList, Stored};

/// A value in line, or a null.
fn cell_in_line(value: Option<Bytes>) -> Cell
    ensures { result ≡ in_line value }
{
    match value {
        Some(value) => Cell::Inline(value),
        None => Cell::Null,
    }
}

/// The cells of a new row.
fn cells_of_row(alloc: Global, row: Row) -> Result<CellList, AllocError>
    ensures { IfOk result (λ cells. cells ≡ map in_line row) }
{
    let mut cells = CellList::new(alloc);
    for value in row.into_vec() {
        cells.push(cell_in_line(value))?;
    }
    Ok(cells)
}

/// The row of an insert.
pub fn inserted_row(alloc: Global, key: &i64, row: Row) -> Result<Stored, AllocError>
    ensures { IfOk result (λ stored. stored ≡ row_inserted key.now row) }
{
    let cells = cells_of_row(alloc, row)?;
    Ok(Stored { key: *key, cells })
}

/// What an update sets a column to, if it sets it.
fn value_set(sets: &[Set], column: usize) -> Option<&Option<Bytes>>
    ensures { option_copied result ≡ set_in sets.now column }
{
    for set in sets {
        if usize::from(set.column) == column {
            return Some(&set.value);
        }
    }
    None
}

/// A column's cell after an update.
fn cell_after(sets: &[Set], column: usize, cell: &Cell) -> Result<Cell, AllocError>
    ensures { IfOk result (λ made. made ≡ option_map_or in_line (set_in sets.now column) cell.now) }
{
    match value_set(sets, column) {
        Some(value) => {
            let value = copy_of_value(value)?;
            Ok(cell_in_line(value))
        }
        None => {
            let cell = copy_of_cell(cell)?;
            Ok(cell)
        }
    }
}

/// The cells after an update: the columns that it does not set keep theirs.
fn cells_with(alloc: Global, cells: &[Cell], sets: &[Set]) -> Result<CellList, AllocError>
    ensures { IfOk result (λ made. made ≡ with_sets cells.now sets.now) }
{
    let mut made = CellList::new(alloc);
    for (at, cell) in cells.iter().enumerate() {
        made.push(cell_after(sets, at + 1, cell)?)?;
    }
    Ok(made)
}

/// The row of an update or a rekey.
pub fn updated_row(
    alloc: Global,
    old: &Stored,
    key: &i64,
    sets: &SetList,
) -> Result<Stored, AllocError>
    ensures { IfOk result (λ stored. stored ≡ row_updated old.now key.now sets.now) }
{
    let cells = cells_with(alloc, old.cells.as_slice(), sets.as_slice())?;
    Ok(Stored { key: *key, cells })
}

/// How many bytes the value of a column has; none where it is null.
pub fn size_of_cell(cell: &Cell) -> Option<u32>
    requires { cell_size cell.now ≤ 65536 }
    ensures { result ≡ size_found cell.now }
{
    match cell {
        Cell::Null => None,
        Cell::Inline(value) => Some(value.len() as u32),
        Cell::Out(pointer) => Some(pointer.size),
    }
}

/// How many bytes a kept value has.
pub fn held_size(held: &Held) -> u32
    requires { size_held held.now ≤ 65536 }
    ensures { result ≡ size_held held.now }
{
    match held {
        Held::Inline(value) => value.len() as u32,
        Held::Out(pointer) => pointer.size,
    }
}

/// The value of a column as a handle keeps it; none where it is null.
pub fn held_in(cell: Cell) -> Option<Held>
    ensures { result ≡ held_found cell }
{
    match cell {
        Cell::Null => None,
        Cell::Inline(value) => Some(Held::Inline(value)),
        Cell::Out(pointer) => Some(Held::Out(pointer)),
    }
}

/// The cell of a column, from 1.
pub fn cell_at(stored: Stored, column: u16) -> Cell
    requires from_one { 1 ≤ column }
    requires within { column ≤ length stored.cells }
    ensures { result ≡ cell_of stored.cells column }
{
    stored.cells.into_vec().swap_remove(usize::from(column) - 1)
}
