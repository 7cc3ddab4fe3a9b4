//! Places counted from 1, the values of a row, and a row with some of them set anew.

ghost use Rattle.command_set.specs.Plain.{nth, row_with, value_at, value_set};
ghost use Rattle.std.specs.Option.{option_copied, unwrap_or};
ghost use Rattle.std.specs.Prelude.{◌≡◌, IfOk};

use crate::{Set, SetList};
use list_facts::ListOf;
use std::alloc::{AllocError, Global};
use tuple_layout::{Bytes, Row};

/// What stands at a place of a list, counted from 1; nothing at 0, and past the end.
pub fn nth<T>(items: &[T], place: usize) -> Option<&T>
    ensures { option_copied result ≡ nth items.now place }
{
    match place.checked_sub(1) {
        Some(at) => items.get(at),
        None => None,
    }
}

/// The value of a column, from 1; none where it is null or there is no such column.
pub fn value_at(row: &Row, column: u16) -> Option<&Bytes>
    ensures { option_copied result ≡ value_at row.now column }
{
    match nth(row.as_slice(), usize::from(column)) {
        Some(value) => value.as_ref(),
        None => None,
    }
}

// What an update sets a column to, from 1.
fn value_set<'a>(sets: &'a [Set], column: usize) -> Option<&'a Option<Bytes>>
    ensures { option_copied result ≡ value_set sets.now column }
{
    for set in sets {
        if usize::from(set.column) == column {
            return Some(&set.value);
        }
    }
    None
}

// A copy of what a column, from 1, has after an update.
fn value_after(
    sets: &[Set],
    column: usize,
    value: &Option<Bytes>,
) -> Result<Option<Bytes>, AllocError>
    ensures { IfOk result (λ copy. copy ≡ unwrap_or (value_set sets.now column) value.now) }
{
    let copy = value_set(sets, column).unwrap_or(value).clone()?;
    Ok(copy)
}

/// The row with these columns set and the others as they were.
pub fn row_with(alloc: Global, row: &Row, sets: &SetList) -> Result<Row, AllocError>
    ensures { IfOk result (λ made. made ≡ row_with row.now sets.now) }
{
    let mut made = ListOf::new(alloc);
    let values = row.as_slice();
    let sets = sets.as_slice();
    for (at, value) in values.iter().enumerate() {
        let value = value_after(sets, at + 1, value)?;
        made.push(value)?;
    }
    Ok(made)
}
