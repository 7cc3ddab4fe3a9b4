//! What is sent of a row.

ghost use Rattle.std.specs.Prelude.{◌≡◌, IfOk, OnErr, Some, [], map, filter_map};
ghost use Rattle.std.specs.List.{list_any};
ghost use Rattle.stream_wire.specs.Spelling.{AreColumns};
ghost use Rattle.decode_stream.specs.Decoding.{cell_fault, column_of, first, sent_value, size_fault};
ghost use Rattle.indexmap.specs.IndexMap.{get};
ghost use Rattle.decode_stream.specs.States.{AreCells, found_in, same_name, value_name};
ghost use Rattle.decode_stream.specs.Steps.{Tells};
ghost use Rattle.decode_stream.specs.Rows.{IsTaken, planned, planned_of, pointed, points_to};

use crate::fault::DecodeFault;
use crate::gathered::{Gathered, ValueName, Values};
use list_facts::ListOf;
use std::alloc::{AllocError, Global};
use stream_wire::{Sent, SentList};
use tuple_layout::{Cell, Pointer};

/// The name of the value that a row of a table points to.
fn name_of(table: u16, p: &Pointer) -> ValueName
    ensures { result ≡ value_name table p.now.value_id }
{
    ValueName {
        table,
        value_id: p.value_id,
    }
}

/// Whether one of the cells points to the value with this id.
fn is_pointed_to(cells: &[Cell], value_id: u32) -> bool
    ensures { result ≡ list_any (points_to value_id) cells.now }
{
    cells.iter().any(|cell| matches!(cell, Cell::Out(p) if p.value_id == value_id))
}

/// The fault of a gathered value that has another length than its pointer says.
fn wrong_size(value: &Gathered, wanted: u32) -> Option<DecodeFault>
    ensures { result ≡ size_fault (Some value.now) wanted }
{
    let got = value.len();
    if got == wanted {
        None
    } else {
        Some(DecodeFault::SizeOf { got, wanted })
    }
}

/// The fault of a value by its name, if it was gathered.
fn fault_of_size(values: &Values, name: &ValueName, wanted: u32) -> Option<DecodeFault>
    ensures { result ≡ size_fault (get same_name values.now name.now) wanted }
{
    match values.get(name) {
        Some(value) => wrong_size(value, wanted),
        None => None,
    }
}

/// The fault of a cell: its value was gathered with another length than its pointer says.
fn fault_of_cell(values: &Values, table: u16, cell: &Cell) -> Option<DecodeFault>
    ensures { result ≡ cell_fault (found_in values.now.entries) table cell.now }
{
    match cell {
        Cell::Out(p) => fault_of_size(values, &name_of(table, p), p.size),
        _ => None,
    }
}

/// The first such fault of a row's cells.
fn first_size_fault(values: &Values, table: u16, cells: &[Cell]) -> Option<DecodeFault>
    ensures { result ≡ first (filter_map (cell_fault (found_in values.now.entries) table) cells.now) }
{
    for cell in cells {
        if let Some(fault) = fault_of_cell(values, table, cell) {
            return Some(fault);
        }
    }
    None
}

/// A copy of what was gathered of a value.
fn copied(values: &Values, name: &ValueName) -> Result<Sent, AllocError>
    ensures { IfOk result (λ column. column ≡ sent_value (get same_name values.now name.now)) }
{
    match values.get(name) {
        Some(value) => Ok(Sent::Value(value.copy()?)),
        None => Ok(Sent::Unchanged),
    }
}

/// What is sent of a cell before gathered values are moved to their columns: one that an earlier cell
/// points to as well is copied.
fn plan_cell(values: &Values, table: u16, before: &[Cell], cell: &Cell) -> Result<Sent, AllocError>
    ensures { IfOk result (λ column. column ≡ planned_of (found_in values.now.entries) table before.now cell.now) }
{
    match cell {
        Cell::Null => Ok(Sent::Null),
        Cell::Inline(value) => Ok(Sent::Value(value.clone()?)),
        Cell::Out(p) => {
            if is_pointed_to(before, p.value_id) {
                copied(values, &name_of(table, p))
            } else {
                Ok(Sent::Unchanged)
            }
        }
    }
}

/// What is sent of a row's cells before gathered values are moved to their columns.
fn plan(alloc: Global, values: &Values, table: u16, cells: &[Cell]) -> Result<SentList, AllocError>
    ensures { IfOk result (λ columns. columns ≡ planned (found_in values.now.entries) table [] cells.now) }
{
    let mut columns = ListOf::new(alloc);
    for (i, cell) in cells.iter().enumerate() {
        columns.push(plan_cell(values, table, &cells[..i], cell)?)?;
    }
    Ok(columns)
}

/// Takes what was gathered of the value that a cell points to.
fn taken(values: &mut Values, table: u16, cell: &Cell) -> Option<Gathered>
    ensures value { result ≡ pointed (found_in values.old.entries) table cell.now }
    ensures left { IsTaken (found_in values.old.entries) (found_in values.new.entries) table cell.now }
{
    match cell {
        Cell::Out(p) => values.swap_remove(&name_of(table, p)),
        _ => None,
    }
}

/// Moves the gathered values to the first columns that they belong to.
fn fill(columns: &mut SentList, values: &mut Values, table: u16, cells: &[Cell])
    requires { columns.old ≡ planned (found_in values.old.entries) table [] cells.now }
    ensures { columns.new ≡ map (column_of (found_in values.old.entries) table) cells.now }
{
    for (i, cell) in cells.iter().enumerate() {
        if let Some(value) = taken(values, table, cell) {
            columns.set(i, Sent::Value(value.into_bytes()));
        }
    }
}

/// What is sent of a row's cells, by the values that were gathered, which are taken. Where it is
/// refused or there is no memory, they stay.
pub(crate) fn columns_of(
    alloc: Global,
    values: &mut Values,
    table: u16,
    cells: &[Cell],
) -> Result<SentList, DecodeFault>
    requires { AreCells cells.now }
    ensures ok { IfOk result (λ columns. columns ≡ map (column_of (found_in values.old.entries) table) cells.now) }
    ensures range { IfOk result AreColumns }
    ensures fault { Tells (first (filter_map (cell_fault (found_in values.old.entries) table) cells.now)) result }
    ensures err { OnErr result (values.new.entries ≡ values.old.entries) }
{
    if let Some(fault) = first_size_fault(values, table, cells) {
        return Err(fault);
    }
    let mut columns = plan(alloc, values, table, cells)?;
    fill(&mut columns, values, table, cells);
    Ok(columns)
}
