//! What a write is next to do.

ghost use Rattle.std.specs.Prelude.{◌≡◌, ◌≤◌, length, slice_get};
ghost use Rattle.tuple_layout.specs.declared.cell.Cell.TheVariants.{Null};
ghost use Rattle.write_steps.specs.Writes.{answer_at, bytes_of, cell_of, marking_from, saving_from, with_cell};
ghost use Rattle.write_steps.specs.Standing.{AreSized, CanGoOut, CanPush, IsColumn, IsWriteStage};

use crate::stage::{OldRow, Owner, PointerList, WriteStage, WriteStep};
use std::alloc::Global;
use std::mem;
use toast_store::{Mark, Save};
use tuple_layout::{Bytes, Cell, CellList, Stored};
use tuple_toaster::OutColumns;

/// A row, with its cells taken out of where it stood.
pub(crate) fn taken(alloc: Global, stored: &mut Stored) -> Stored
    ensures { result ≡ stored.old }
{
    Stored {
        key: stored.key,
        cells: mem::replace(&mut stored.cells, CellList::new(alloc)),
    }
}

/// A row with another cell in a column, and the cell that stood there.
pub(crate) fn with_cell(stored: Stored, column: u16, cell: Cell) -> (Stored, Cell)
    requires { IsColumn stored column }
    ensures row { result.0 ≡ with_cell stored column cell }
    ensures cell { result.1 ≡ cell_of stored.cells column }
{
    let mut cells = stored.cells.into_vec();
    let before = mem::replace(&mut cells[usize::from(column) - 1], cell);
    let stored = Stored {
        key: stored.key,
        cells: CellList::from_vec(cells),
    };
    (stored, before)
}

/// The bytes of a value that may go out.
fn bytes_of(cell: Cell) -> Bytes
    requires { CanGoOut cell }
    ensures bytes { result ≡ bytes_of cell }
    ensures least { 21 ≤ length result }
    ensures most { length result ≤ 65536 }
{
    match cell {
        Cell::Inline(value) => value,
        Cell::Null | Cell::Out(_) => unreachable!(),
    }
}

/// The column at a place of a plan, if there is one.
fn column_at(plan: &OutColumns, at: usize) -> Option<u16>
    ensures { result ≡ slice_get plan.now at }
{
    plan.as_slice().get(at).copied()
}

/// Where a write stands that is next to save the column at a place of its plan, whose value it takes out of
/// the row; with no column left, it is next to make its version step.
pub(crate) fn saving_from(
    alloc: Global,
    owner: Owner,
    old: Option<OldRow>,
    new: Stored,
    plan: OutColumns,
    at: usize,
) -> WriteStage
    requires { CanPush new plan at }
    ensures stage { result ≡ saving_from owner old new plan at }
    ensures own { IsWriteStage owner result }
{
    let Some(column) = column_at(&plan, at) else {
        return WriteStage::Put { old, new, plan };
    };
    let (new, cell) = with_cell(new, column, Cell::Null);
    let save = Save::new(alloc, owner.table, owner.session, owner.xid, bytes_of(cell));
    WriteStage::Saving {
        old,
        new,
        plan,
        at,
        save,
    }
}

/// Where a write stands that is next to mark the dropped pointer at a place; with none left, it is over.
pub(crate) fn marking_from(owner: Owner, dropped: PointerList, at: usize) -> WriteStage
    requires { AreSized dropped }
    ensures stage { result ≡ marking_from owner dropped at }
    ensures own { IsWriteStage owner result }
{
    if at >= dropped.len() {
        return WriteStage::Over;
    }
    let mark = Mark::new(dropped.as_slice()[at], owner.xid, owner.session);
    WriteStage::Marking { dropped, at, mark }
}

/// What a step answers, by where the write stands then.
pub(crate) fn answer_at(stage: &WriteStage) -> WriteStep
    ensures { result ≡ answer_at stage.now }
{
    match stage {
        WriteStage::Over => WriteStep::Done,
        WriteStage::Saving { .. }
        | WriteStage::Put { .. }
        | WriteStage::Remove { .. }
        | WriteStage::Marking { .. } => WriteStep::More,
    }
}
