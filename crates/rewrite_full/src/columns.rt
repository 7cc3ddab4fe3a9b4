//! The columns of a copy that go out.

ghost use Rattle.std.specs.Prelude.{◌≡◌, ◌≤◌, ◌<◌, ◌-◌, ℕ, Some, None, true, false, IfNone, IfSome, length, slice_get};
ghost use Rattle.external_pointer.specs.Spelling.{IsInRange};
ghost use Rattle.tuple_layout.specs.declared.cell.Cell.TheVariants.{Inline, Null, Out};
ghost use Rattle.toast_store.specs.Stores.{is_used};
ghost use Rattle.rewrite_facts.specs.Copies.{id_at};
ghost use Rattle.rewrite_facts.specs.Rewrites.{is_used_in, with_cell};
ghost use Rattle.rewrite_full.specs.Moves.{HasInline, IsPointerOf, IsSharedAt, IsUnshared};

use external_pointer::Pointer;
use rewrite_facts::RowCopy;
use std::mem;
use toast_store::ToastStore;
use tuple_layout::{Bytes, Cell, CellList};
use tuple_toaster::OutColumns;
use value_ids::IdTest;

/// Which ids are used in either of two stores.
#[derive(Clone, Copy)]
pub(crate) struct Both<'a> {
    pub(crate) old: &'a ToastStore,
    pub(crate) new: &'a ToastStore,
}

impl IdTest for Both<'_> {
    ghost use Rattle.rewrite_facts.specs.Rewrites.{is_used_in};

    ghost is_used = { λ both. is_used_in both.old.now both.new.now };

    fn used(&self, id: u32) -> bool {
        self.old.used(id) || self.new.used(id)
    }
}

/// The column at a place of some, if there is one.
pub(crate) fn column_at(columns: &OutColumns, at: usize) -> Option<u16>
    ensures { result ≡ slice_get columns.now at }
{
    columns.as_slice().get(at).copied()
}

/// The id that the old value of a column has, if that was out of line.
pub(crate) fn id_at(copy: &RowCopy, column: u16) -> Option<u32>
    requires { 1 ≤ column }
    ensures { result ≡ id_at copy.now.ids (column - 1) }
{
    match copy.ids.get(usize::from(column) - 1) {
        Some(id) => *id,
        None => None,
    }
}

/// A copy with another cell in a column, and the cell that stood there.
fn with_cell(copy: RowCopy, column: u16, cell: Cell) -> (RowCopy, Cell)
    requires from { 1 ≤ column }
    requires there { column - 1 < length copy.cells }
    ensures copy { result.0 ≡ with_cell copy column cell }
    ensures cell { slice_get copy.cells (column - 1) ≡ Some result.1 }
{
    let mut cells = copy.cells.into_vec();
    let before = mem::replace(&mut cells[usize::from(column) - 1], cell);
    let copy = RowCopy {
        key: copy.key,
        stamp: copy.stamp,
        ids: copy.ids,
        cells: CellList::from_vec(cells),
    };
    (copy, before)
}

/// The bytes of an inline value, and the copy without them.
pub(crate) fn taken(copy: RowCopy, column: u16) -> (RowCopy, Bytes)
    requires { HasInline copy column }
    ensures copy { result.0 ≡ with_cell copy column Null }
    ensures value { slice_get copy.cells (column - 1) ≡ Some (Inline result.1) }
    ensures least { 1 ≤ length result.1 }
    ensures most { length result.1 ≤ 65536 }
{
    let (copy, cell) = with_cell(copy, column, Cell::Null);
    match cell {
        Cell::Inline(value) => (copy, value),
        Cell::Null | Cell::Out(_) => unreachable!(),
    }
}

/// A copy with a pointer in a column.
pub(crate) fn with_pointer(copy: RowCopy, column: u16, pointer: Pointer) -> RowCopy
    requires from { 1 ≤ column }
    requires there { column - 1 < length copy.cells }
    ensures { result ≡ with_cell copy column (Out pointer) }
{
    let (copy, _) = with_cell(copy, column, Cell::Out(pointer));
    copy
}

/// The pointer of an inline value under an id in a toast relation.
pub(crate) fn pointer_of(copy: &RowCopy, column: u16, value_id: u32, toast_rel: u32) -> Pointer
    requires { HasInline copy.now column }
    ensures pointer { IsPointerOf copy.now column value_id toast_rel result }
    ensures in_range { IsInRange result }
{
    match copy.cells.as_slice()[usize::from(column) - 1] {
        Cell::Inline(ref value) => Pointer {
            size: value.len() as u32,
            value_id,
            toast_rel,
        },
        Cell::Null | Cell::Out(_) => unreachable!(),
    }
}

/// The column at a place of some and the id of its old value, if the new store uses that id.
pub(crate) fn next_shared(
    toast: &ToastStore,
    copy: &RowCopy,
    columns: &OutColumns,
    at: usize,
) -> Option<(u16, u32)>
    requires { (column : ℕ) → slice_get columns.now at ≡ Some column → 1 ≤ column }
    ensures some { IfSome result (IsSharedAt toast.now copy.now columns.now at) }
    ensures none { IfNone result (IsUnshared toast.now copy.now columns.now at) }
{
    let column = column_at(columns, at)?;
    let id = id_at(copy, column)?;
    if toast.used(id) {
        Some((column, id))
    } else {
        None
    }
}
