//! The pointers that a new row does not keep.

ghost use Rattle.std.specs.Prelude.{◌≡◌, IfOk, Some, None};
ghost use Rattle.std.specs.Option.{option_copied, unwrap_or};
ghost use Rattle.tuple_layout.specs.declared.cell.Cell.TheVariants.{Null};
ghost use Rattle.write_steps.specs.Dropped.{dropped_at, dropped_of, keeps, same_pointer};

use crate::stage::PointerList;
use std::alloc::{AllocError, Global};
use tuple_layout::{Cell, Pointer};

/// Whether two pointers are one.
fn is_same(p: &Pointer, q: &Pointer) -> bool
    ensures { result ≡ same_pointer p.now q.now }
{
    p.size == q.size && p.value_id == q.value_id && p.toast_rel == q.toast_rel
}

/// Whether a column, if it is there, has this pointer.
fn keeps(pointer: &Pointer, cell: Option<&Cell>) -> bool
    ensures { result ≡ keeps pointer.now (unwrap_or (option_copied cell.entry) Null) }
{
    match cell {
        Some(Cell::Out(other)) => is_same(pointer, other),
        Some(Cell::Null) | Some(Cell::Inline(_)) | None => false,
    }
}

/// The pointer of an old column, if its value has bytes and the new column, if it is there, does not keep it.
fn dropped_at(cell: &Cell, new: Option<&Cell>) -> Option<Pointer>
    ensures { result ≡ dropped_at cell.now (unwrap_or (option_copied new.entry) Null) }
{
    match cell {
        Cell::Out(pointer) if pointer.size > 0 && !keeps(pointer, new) => Some(*pointer),
        Cell::Null | Cell::Inline(_) | Cell::Out(_) => None,
    }
}

/// The pointers of an old row's columns that the new row's do not keep, in order.
pub(crate) fn dropped_of(
    alloc: Global,
    cells: &[Cell],
    news: &[Cell],
) -> Result<PointerList, AllocError>
    ensures { IfOk result (λ dropped. dropped ≡ dropped_of cells.now news.now) }
{
    let mut dropped = PointerList::new(alloc);
    for (at, cell) in cells.iter().enumerate() {
        if let Some(pointer) = dropped_at(cell, news.get(at)) {
            dropped.push(pointer)?;
        }
    }
    Ok(dropped)
}
