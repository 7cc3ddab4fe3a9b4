//! Which columns of a row go out of line when it is written.

ghost use Rattle.change_stream.specs.Sets.{out_beside};
ghost use Rattle.std.specs.List.{insert, list_any};
ghost use Rattle.std.specs.Prelude.{◌≡◌, ◌<◌, ◌≤◌, ◌+◌, ◌^◌, ℕ, Bool, IfOk, length, nat_le};
ghost use Rattle.tuple_layout.specs.Sizes.{column_end, data_end_from, inline_end, is_missing, width, widths};
ghost use Rattle.tuple_toaster.specs.Pushed.{eligible_from, is_among, moved, pushed, put_before, size_with, tuple_target, width_besides, with_column};

use change_stream::ColumnList;
use list_facts::ListOf;
use std::alloc::{AllocError, Global};
use tuple_layout::{
    Bytes, KEY_SIZE, POINTER_SIZE, Row, Storage, header_size, is_short, may_go_out,
};
use tuple_toaster::TUPLE_TARGET;

/// A column, from 1, and the length of its value in bytes.
type Candidate = (u16, usize);

/// Whether a column, from 1, is one of these.
pub fn is_among(columns: &[u16], column: usize) -> bool
    ensures { result ≡ is_among columns.now column }
{
    columns.iter().any(|other| usize::from(*other) == column)
}

/// Where an inline value of this length ends, if the data before it end at `at`.
fn inline_end(storage: Storage, at: u128, length: usize) -> u128
    requires { at < 2 ^ 100 }
    ensures end { result ≡ inline_end storage at length }
    ensures near { result ≤ at + 2 ^ 65 }
{
    if is_short(storage, length) {
        at + 1 + length as u128
    } else {
        (at + 3) / 4 * 4 + 4 + length as u128
    }
}

/// Where a column's data end, if the data before them end at `at` and the columns of `kept` and of `out` are
/// out of line.
fn column_end(
    storage: Storage,
    at: u128,
    column: usize,
    value: &Option<Bytes>,
    kept: &[u16],
    out: &[u16],
) -> u128
    requires { at < 2 ^ 100 }
    ensures end { result ≡ column_end storage at (width_besides out.now column (width value.now (is_among kept.now column))) }
    ensures near { result ≤ at + 2 ^ 65 }
{
    if is_among(out, column) {
        return at + POINTER_SIZE as u128;
    }
    match value {
        None => at,
        Some(bytes) => {
            if is_among(kept, column) {
                at + POINTER_SIZE as u128
            } else {
                inline_end(storage, at, bytes.len())
            }
        }
    }
}

/// Where a row's data end, if the columns of `kept` and of `out` are out of line.
fn data_end(schema: &[Storage], row: &[Option<Bytes>], kept: &[u16], out: &[u16]) -> u128
    requires { length schema.now ≤ 8 }
    ensures end { result ≡ data_end_from 8 schema.now (moved out.now (widths row.now (is_among kept.now))) }
    ensures small { result < 2 ^ 100 }
{
    let mut at = KEY_SIZE as u128;
    for (column, storage) in schema.iter().enumerate() {
        match row.get(column) {
            None => return at,
            Some(value) => at = column_end(*storage, at, column + 1, value, kept, out),
        }
    }
    at
}

/// Whether a column is null and none of `out`.
fn is_null_besides(out: &[u16], column: usize, value: &Option<Bytes>) -> bool
    ensures { (kept : Bool) → result ≡ is_missing (width_besides out.now column (width value.now kept)) }
{
    value.is_none() && !is_among(out, column)
}

/// Whether some column is null and none of `out`.
fn has_null(row: &[Option<Bytes>], out: &[u16]) -> bool
    ensures { (kept : ℕ → Bool) → result ≡ list_any is_missing (moved out.now (widths row.now kept)) }
{
    for (at, value) in row.iter().enumerate() {
        if is_null_besides(out, at + 1, value) {
            return true;
        }
    }
    false
}

/// Whether the row's tuple takes at most as many bytes as is the target, if the columns of `kept` and of `out`
/// are out of line.
fn fits(schema: &[Storage], row: &[Option<Bytes>], kept: &[u16], out: &[u16]) -> bool
    requires { length schema.now ≤ 8 }
    ensures { result ≡ nat_le (size_with schema.now (widths row.now (is_among kept.now)) out.now) tuple_target }
{
    let header = header_size(schema.len() + 1, has_null(row, out));
    header as u128 + data_end(schema, row, kept, out) <= TUPLE_TARGET as u128
}

/// How many candidates at the front are longer than this size.
fn place_for(candidates: &[Candidate], size: usize) -> usize
    ensures within { result ≤ length candidates.now }
    ensures put { (column : ℕ) → put_before (column, size) candidates.now ≡ insert candidates.now result (column, size) }
{
    for (at, other) in candidates.iter().enumerate() {
        if other.1 <= size {
            return at;
        }
    }
    candidates.len()
}

/// Candidates with one more, which stands before the first that is no longer.
fn put_before(
    candidate: Candidate,
    candidates: Vec<Candidate>,
) -> Result<Vec<Candidate>, AllocError>
    ensures { IfOk result (λ all. all.items ≡ put_before candidate candidates.items) }
{
    let at = place_for(&candidates, candidate.1);
    let mut all = candidates;
    all.insert(at, candidate)?;
    Ok(all)
}

/// Candidates with a column more, if its value is inline and may go out.
fn with_column(
    column: u16,
    storage: Storage,
    value: &Option<Bytes>,
    kept: &[u16],
    candidates: Vec<Candidate>,
) -> Result<Vec<Candidate>, AllocError>
    ensures { IfOk result (λ all. all.items ≡ with_column column storage (width value.now (is_among kept.now column)) candidates.items) }
{
    match value {
        None => Ok(candidates),
        Some(bytes) => {
            if is_among(kept, usize::from(column)) || !may_go_out(storage, bytes.len()) {
                return Ok(candidates);
            }
            put_before((column, bytes.len()), candidates)
        }
    }
}

/// The columns that may go out beside those of `kept`, the longest first, and of equal ones the first.
fn candidates(
    alloc: Global,
    schema: &[Storage],
    row: &[Option<Bytes>],
    kept: &[u16],
) -> Result<Vec<Candidate>, AllocError>
    requires { length schema.now ≤ 8 }
    ensures { IfOk result (λ all. all.items ≡ eligible_from 1 schema.now (widths row.now (is_among kept.now))) }
{
    let mut all = Vec::new(alloc);
    let mut at = schema.len().min(row.len());
    while at > 0 {
        at -= 1;
        all = with_column(at as u16 + 1, schema[at], &row[at], kept, all)?;
    }
    Ok(all)
}

/// The columns that go out beside those of `kept`: the first of those that may, until the tuple takes at most
/// as many bytes as is the target, or all of them.
fn pushed(
    alloc: Global,
    schema: &[Storage],
    row: &[Option<Bytes>],
    kept: &[u16],
) -> Result<ColumnList, AllocError>
    requires { length schema.now ≤ 8 }
    ensures { IfOk result (λ out. out ≡ pushed schema.now (widths row.now (is_among kept.now)) tuple_target) }
{
    let candidates = candidates(alloc, schema, row, kept)?;
    let mut out = ListOf::new(alloc);
    for candidate in &candidates {
        if fits(schema, row, kept, out.as_slice()) {
            return Ok(out);
        }
        out.push(candidate.0)?;
    }
    Ok(out)
}

/// The columns of a row that are out of line when it is written and those of `kept` stay there.
pub fn out_beside(
    alloc: Global,
    schema: &[Storage],
    row: &Row,
    kept: &[u16],
) -> Result<ColumnList, AllocError>
    requires { length schema.now ≤ 8 }
    ensures { IfOk result (λ out. out ≡ out_beside schema.now row.now kept.now) }
{
    let more = pushed(alloc, schema, row.as_slice(), kept)?;
    let mut out = ListOf::from_slice(alloc, kept)?;
    out.extend_from_slice(more.as_slice())?;
    Ok(out)
}
