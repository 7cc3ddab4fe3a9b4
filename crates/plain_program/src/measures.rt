//! How large a row's tuple is, and parts of values.

ghost use Rattle.plain_program.specs.Words.{data_end_all_out, natural, slice_from};
ghost use Rattle.std.specs.List.{list_any};
ghost use Rattle.std.specs.Option.{option_copied, unwrap_or};
ghost use Rattle.std.specs.Prelude.{◌≡◌, ◌<◌, ◌≤◌, ◌+◌, ◌^◌, [], IfOk, IfSome, Some, is_none, length};
ghost use Rattle.tuple_layout.specs.Sizes.{all_out_size, column_end, header_size, is_eligible, width};
ghost use Rattle.tuple_layout.specs.Slices.{slice};

use list_facts::ListOf;
use std::alloc::{AllocError, Global};
use tuple_layout::{Bytes, KEY_SIZE, POINTER_SIZE, Row, Storage, is_short, may_go_out};

/// The part of a value that is asked for, in bytes. A negative length leads to the value's end.
#[derive(Clone, Copy)]
pub struct Span {
    pub offset: i32,
    pub length: i32,
}

/// The part from an offset on, of this length.
pub fn span_of(offset: &i32, length: &i32) -> Span
    ensures { result ≡ record { offset = offset.now; length = length.now } }
{
    Span {
        offset: *offset,
        length: *length,
    }
}

/// The bytes of a value; none where there is none.
pub fn bytes_of(value: Option<&Bytes>) -> &[u8]
    ensures { result.now ≡ unwrap_or (option_copied value.entry) [] }
{
    match value {
        Some(bytes) => bytes.as_slice(),
        None => &[],
    }
}

// A number that is not negative.
fn natural(number: &i32) -> Option<usize>
    ensures number { result ≡ natural number.now }
    ensures small { IfSome result (λ n. n < 2147483648) }
{
    if *number < 0 {
        None
    } else {
        Some(*number as usize)
    }
}

// The bytes from an offset on, so many, or all where no length is given or it leads past the last place.
fn slice_from(bytes: &[u8], offset: usize, length: Option<usize>) -> &[u8]
    requires { offset < 2147483648 }
    ensures { result.now ≡ slice_from bytes.now offset length }
{
    let rest = &bytes[offset.min(bytes.len())..];
    match length {
        None => rest,
        Some(length) => {
            if length > 2147483647 - offset {
                rest
            } else {
                &rest[..length.min(rest.len())]
            }
        }
    }
}

/// A copy of a part of a value; of no bytes where the offset is negative.
pub fn slice(alloc: Global, bytes: &[u8], span: &Span) -> Result<Bytes, AllocError>
    ensures { IfOk result (λ part. part ≡ slice bytes.now span.now.offset span.now.length) }
{
    match natural(&span.offset) {
        None => Ok(ListOf::new(alloc)),
        Some(offset) => {
            let part = ListOf::from_slice(alloc, slice_from(bytes, offset, natural(&span.length)))?;
            Ok(part)
        }
    }
}

// Where a value ends, out of line where it may be, if the data before it end at this place.
fn bytes_end(storage: Storage, at: u128, bytes: &[u8]) -> u128
    requires { at < 2 ^ 100 }
    ensures end { result ≡ column_end storage at (width (Some bytes.now) (is_eligible storage (Some bytes.now))) }
    ensures near { result ≤ at + 2 ^ 65 }
{
    let length = bytes.len();
    if may_go_out(storage, length) {
        at + POINTER_SIZE as u128
    } else if is_short(storage, length) {
        at + 1 + length as u128
    } else {
        (at + 3) / 4 * 4 + 4 + length as u128
    }
}

// Where a column's data end, out of line where they may be, if the data before them end at this place.
fn column_end(storage: Storage, at: u128, value: &Option<Bytes>) -> u128
    requires { at < 2 ^ 100 }
    ensures end { result ≡ column_end storage at (width value.now (is_eligible storage value.now)) }
    ensures near { result ≤ at + 2 ^ 65 }
{
    match value {
        None => at,
        Some(bytes) => bytes_end(storage, at, bytes.as_slice()),
    }
}

// Where a row's data end, each value out of line that may be.
fn data_end(schema: &[Storage], row: &[Option<Bytes>]) -> u128
    requires { length schema.now ≤ 8 }
    ensures end { result ≡ data_end_all_out 8 schema.now row.now }
    ensures small { result < 2 ^ 100 }
{
    let mut at = KEY_SIZE as u128;
    for (column, storage) in schema.iter().enumerate() {
        match row.get(column) {
            None => return at,
            Some(value) => at = column_end(*storage, at, value),
        }
    }
    at
}

// The size of the header of a tuple with so many columns, the key counted.
fn header_size(columns: usize, has_null: bool) -> u128
    requires { columns ≤ 9 }
    ensures size { result ≡ header_size columns has_null }
    ensures small { result ≤ 32 }
{
    let bits: u128 = if has_null {
        (columns as u128 + 7) / 8
    } else {
        0
    };
    (23 + bits + 7) / 8 * 8
}

// Whether a value is null.
fn has_null(row: &[Option<Bytes>]) -> bool
    ensures { result ≡ list_any is_none row.now }
{
    row.iter().any(|value| value.is_none())
}

/// The size of a row's tuple, in bytes, with every column out of line that may be.
pub fn all_out_size(schema: &[Storage], row: &Row) -> u128
    requires { length schema.now ≤ 8 }
    ensures { result ≡ all_out_size schema.now row.now }
{
    let values = row.as_slice();
    header_size(schema.len() + 1, has_null(values)) + data_end(schema, values)
}
