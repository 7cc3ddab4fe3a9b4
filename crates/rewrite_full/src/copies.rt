//! The copy of a version: how it begins, and how its values are read.

ghost use Rattle.std.specs.Prelude.{◌≡◌, ◌≤◌, ◌<◌, ℕ, Some, IfNone, IfOk, IfSome, List, length, map, slice_get};
ghost use Rattle.std.specs.List.{All};
ghost use Rattle.external_pointer.specs.declared.external.Pointer.{Pointer};
ghost use Rattle.tuple_layout.specs.declared.cell.Cell.TheVariants.{Out};
ghost use Rattle.tuple_layout.specs.Schemas.{HasColumns};
ghost use Rattle.tuple_layout.specs.Sizes.{largest_tuple};
ghost use Rattle.tuple_layout.specs.Tuples.{IsWithinLimits, cell_widths};
ghost use Rattle.tuple_toaster.specs.Pushed.{all_moved_size, pushed, tuple_target};
ghost use Rattle.table_state.specs.Tables.{IsStored};
ghost use Rattle.rewrite_facts.specs.Copies.{id_of};
ghost use Rattle.rewrite_full.specs.Moves.{FitsOnceOut, HaveNoPointer, IsNextOf, copy_of};

use external_pointer::Pointer;
use rewrite_facts::{IdList, RewriteStage, RowCopy};
use row_versions::Version;
use slice_fetch::Span;
use std::alloc::{AllocError, Global};
use toast_store::Fetch;
use tuple_layout::{Cell, Schema, TupleFault, read_tuple};
use tuple_toaster::{OutColumns, TUPLE_TARGET, plan};
use xact_status::Stamp;

/// The id of a column's value, if that is out of line.
fn id_of(cell: &Cell) -> Option<u32>
    ensures { result ≡ id_of cell.now }
{
    match cell {
        Cell::Out(pointer) => Some(pointer.value_id),
        Cell::Null | Cell::Inline(_) => None,
    }
}

/// Those of a row's columns, in order.
fn ids_of(alloc: Global, cells: &[Cell]) -> Result<IdList, AllocError>
    ensures { IfOk result (λ ids. ids ≡ map id_of cells.now) }
{
    let mut ids = IdList::new(alloc);
    for cell in cells {
        ids.push(id_of(cell))?;
    }
    Ok(ids)
}

/// The copy of a version, before its first value is read.
pub(crate) fn copy_of(
    alloc: Global,
    schema: &Schema,
    version: &Version,
) -> Result<RowCopy, AllocError>
    requires { IsStored schema.now.storages version.now.key version.now.tuple }
    ensures { IfOk result (λ copy. copy ≡ copy_of schema.now.storages version.now) }
{
    let stored = match read_tuple(alloc, schema, version.tuple.as_slice()) {
        Ok(stored) => stored,
        Err(fault) => match fault {
            TupleFault::Memory => return Err(AllocError),
            _ => unreachable!(),
        },
    };
    let ids = ids_of(alloc, stored.cells.as_slice())?;
    Ok(RowCopy {
        key: version.key,
        stamp: Stamp {
            inserter: version.inserter,
            ender: version.ender,
        },
        ids,
        cells: stored.cells,
    })
}

/// The first pointer of a row's cells, with the place of its column.
fn first_out(cells: &[Cell]) -> Option<(usize, Pointer)>
    ensures some { IfSome result (λ found. slice_get cells.now found.0 ≡ Some (Out found.1)) }
    ensures none { IfNone result (HaveNoPointer cells.now) }
{
    for (at, cell) in cells.iter().enumerate() {
        if let Cell::Out(pointer) = cell {
            return Some((at, *pointer));
        }
    }
    None
}

/// The columns that go out of a row all of whose values are inline and which fits on a page with all out that may go.
fn columns_of(schema: &Schema, cells: &[Cell]) -> OutColumns
    requires one_each { length cells.now ≡ length schema.now.storages }
    requires limits { All IsWithinLimits cells.now }
    requires fits { FitsOnceOut schema.now.storages cells.now }
    ensures { result ≡ pushed schema.now.storages (cell_widths cells.now) tuple_target }
{
    if cells.len() > schema.storages().len() {
        unreachable!()
    }
    match plan(schema, cells, TUPLE_TARGET) {
        Ok(columns) => columns,
        Err(_) => unreachable!(),
    }
}

/// Where the copy of a version goes on: it reads the first value that is still out of line, or, with none left, it
/// puts the columns that go out.
pub(crate) fn next_of(
    alloc: Global,
    session: u16,
    schema: &Schema,
    copy: RowCopy,
) -> Result<RewriteStage, AllocError>
    requires one_each { length copy.cells ≡ length schema.now.storages }
    requires limits { All IsWithinLimits copy.cells }
    requires fits { HaveNoPointer copy.cells → FitsOnceOut schema.now.storages copy.cells }
    ensures { IfOk result (IsNextOf schema.now.storages session copy) }
{
    let Some((at, pointer)) = first_out(copy.cells.as_slice()) else {
        let columns = columns_of(schema, copy.cells.as_slice());
        return Ok(RewriteStage::Placing {
            copy,
            columns,
            at: 0,
        });
    };
    let span = Span {
        start: 0,
        end: pointer.size,
    };
    let fetch = Fetch::new(alloc, pointer, span, session)?;
    Ok(RewriteStage::Reading { copy, at, fetch })
}
