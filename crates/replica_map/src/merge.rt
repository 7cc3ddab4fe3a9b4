//! A row and what is sent of its columns.

ghost use Rattle.std.specs.Prelude.{◌≡◌, length, IfOk, None, Some, position};
ghost use Rattle.replica_map.specs.Applies.{is_unchanged, new_row, row_with, sent_value};

use list_facts::ListOf;
use std::alloc::{AllocError, Global};
use stream_wire::Sent;
use tuple_layout::{Bytes, Row};

/// The place of the first column that is sent as unchanged, from 0.
pub(crate) fn first_unchanged(columns: &[Sent]) -> Option<usize>
    ensures { result ≡ position is_unchanged columns.now }
{
    columns
        .iter()
        .position(|column| matches!(column, Sent::Unchanged))
}

fn copy_of(value: &Option<Bytes>) -> Result<Option<Bytes>, AllocError>
    ensures { IfOk result (λ copy. copy ≡ value.now) }
{
    let copy = value.clone()?;
    Ok(copy)
}

fn some_copy_of(value: &Bytes) -> Result<Option<Bytes>, AllocError>
    ensures { IfOk result (λ copy. copy ≡ Some value.now) }
{
    let copy = value.clone()?;
    Ok(Some(copy))
}

/// A column's value after it is sent.
fn value_of(old: &Option<Bytes>, column: &Sent) -> Result<Option<Bytes>, AllocError>
    ensures { IfOk result (λ value. value ≡ sent_value old.now column.now) }
{
    match column {
        Sent::Null => Ok(None),
        Sent::Unchanged => copy_of(old),
        Sent::Value(value) => some_copy_of(value),
    }
}

/// The row of columns none of which has an old value.
pub(crate) fn row_of_new(alloc: Global, columns: &[Sent]) -> Result<Row, AllocError>
    ensures { IfOk result (λ row. row ≡ new_row columns.now) }
{
    let mut row = ListOf::new(alloc);
    for column in columns {
        row.push(value_of(&None, column)?)?;
    }
    Ok(row)
}

/// A row after as many columns are sent.
pub(crate) fn merged(
    alloc: Global,
    old: &[Option<Bytes>],
    columns: &[Sent],
) -> Result<Row, AllocError>
    requires { length old.now ≡ length columns.now }
    ensures { IfOk result (λ row. row ≡ row_with old.now columns.now) }
{
    let mut row = ListOf::new(alloc);
    for (i, column) in columns.iter().enumerate() {
        row.push(value_of(&old[i], column)?)?;
    }
    Ok(row)
}
