//! Reading a stored row from the bytes of a tuple.

ghost use Rattle.std.specs.Prelude.{◌≡◌, ◌≢◌, ◌≤◌, ◌<◌, ◌+◌, ◌*◌, ◌^◌, ◌/◌, ◌%◌, ◌==◌, ℕ, length, drop, take, IfErr, IfOk, MatchResult, None, Some};
ghost use Rattle.std.specs.Int.{w16, from_le_bytes};
ghost use Rattle.tuple_layout.specs.Tuples.{HasTuple, key_bytes, tuple};
ghost use Rattle.tuple_layout.specs.Faults.{IsFault, HasHeader, bitmap_in, end_of, is_present, start_in};
ghost use Rattle.tuple_layout.specs.Reading.{HoldsFirst, IsColumn, IsColumnFault, IsColumnsFault};
ghost use Rattle.tuple_layout.specs.StoredRows.{stored_in};
ghost use Rattle.tuple_layout.specs.declared.cell.Stored.{Stored};
ghost use Rattle.tuple_layout.specs.declared.fault.TupleFault.{TupleFault};

use crate::cell::{Cell, CellList, Stored};
use crate::fault::TupleFault;
use crate::header::{BITMAP_AT, COLUMNS_AT, DATA_START_AT, FLAGS_AT, header_of};
use crate::read_cell::{CellFault, read_cell};
use crate::size::{FIXED_HEADER_SIZE, KEY_SIZE, header_size};
use crate::{Schema, Storage};
use std::alloc::Global;

/// The two bytes at `at` as a number, the low one first.
fn u16_at(bytes: &[u8], at: usize) -> u16
    requires { at + 2 ≤ length bytes.now }
    ensures { result ≡ from_le_bytes w16 (drop at bytes.now) }
{
    u16::from_le_bytes([bytes[at], bytes[at + 1]])
}

/// Reads the header's numbers, and gives where the data begin, if there is a whole key.
fn read_front(schema: &Schema, bytes: &[u8]) -> Result<usize, TupleFault>
    ensures header { IfOk result (λ start. HasHeader schema.now.storages bytes.now × (start ≡ start_in bytes.now)) }
    ensures key { IfOk result (λ start. start + 8 ≤ length bytes.now) }
    ensures fault { IfErr result (IsFault schema.now.storages bytes.now) }
    ensures few { length schema.now.storages ≤ 8 }
{
    let columns = schema.storages().len() + 1;
    if bytes.len() < FIXED_HEADER_SIZE {
        return Err(TupleFault::Short {
            need: FIXED_HEADER_SIZE,
        });
    }
    let has_null = u16_at(bytes, FLAGS_AT) & 1 == 1;
    let start = bytes[DATA_START_AT] as usize;
    if u16_at(bytes, COLUMNS_AT) as usize != columns || start != header_size(columns, has_null) {
        return Err(TupleFault::BadHeader);
    }
    if bytes.len() < start {
        return Err(TupleFault::Short { need: start });
    }
    if bytes.len() < start + KEY_SIZE {
        return Err(TupleFault::BadColumn { column: 0 });
    }
    Ok(start)
}

/// The bitmap, where there is one.
fn read_bitmap(bytes: &[u8]) -> Option<u16>
    requires { 25 ≤ length bytes.now }
    ensures { result ≡ bitmap_in bytes.now }
{
    if u16_at(bytes, FLAGS_AT) & 1 == 1 {
        Some(u16_at(bytes, BITMAP_AT))
    } else {
        None
    }
}

/// Whether a column is not null by the bitmap, the key being column 0.
fn is_present(bitmap: Option<u16>, column: u16) -> bool
    requires { column ≤ 8 }
    ensures { result ≡ is_present bitmap column }
{
    match bitmap {
        None => true,
        Some(bits) => bits >> column & 1 == 1,
    }
}

/// Reads a column at the front of `rest`, and how many bytes it takes, if the data before it end at
/// `at`.
fn read_column(
    alloc: Global,
    column: u16,
    storage: Storage,
    there: bool,
    rest: &[u8],
    at: usize,
) -> Result<(Cell, usize), TupleFault>
    ensures found { IfOk result (λ x. IsColumn storage at rest.now there x.0 (drop x.1 rest.now)) }
    ensures within { IfOk result (λ x. x.1 ≤ length rest.now) }
    ensures fault { IfErr result (IsColumnFault column storage at rest.now there) }
{
    if !there {
        return Ok((Cell::Null, 0));
    }
    match read_cell(alloc, storage, rest, at) {
        Ok(read) => Ok(read),
        Err(CellFault::Compressed) => Err(TupleFault::Compressed { column }),
        Err(CellFault::Bad) => Err(TupleFault::BadColumn { column }),
        Err(CellFault::Memory) => Err(TupleFault::Memory),
    }
}

/// Reads the cells of all columns from the data, and where they end in them.
fn read_columns(
    alloc: Global,
    schema: &Schema,
    bitmap: Option<u16>,
    body: &[u8],
) -> Result<(CellList, usize), TupleFault>
    requires { 8 ≤ length body.now }
    ensures found { IfOk result (λ x. HoldsFirst schema.now.storages bitmap body.now x.0 (drop x.1 body.now)) }
    ensures all { IfOk result (λ x. length x.0 ≡ length schema.now.storages) }
    ensures few { IfOk result (λ x. length x.0 ≤ 8) }
    ensures end { IfOk result (λ x. (x.1 ≡ end_of schema.now.storages x.0) × (x.1 ≤ length body.now)) }
    ensures fault { IfErr result (IsColumnsFault schema.now.storages bitmap body.now) }
{
    let mut cells = CellList::new(alloc);
    let mut at = KEY_SIZE;
    for storage in schema.storages() {
        let column = cells.len() as u16 + 1;
        let there = is_present(bitmap, column);
        let (_, rest) = body.split_at(at);
        let (cell, size) = read_column(alloc, column, *storage, there, rest, at)?;
        cells.push(cell)?;
        at += size;
    }
    Ok((cells, at))
}

/// The key at the front of the data, in two's complement with the low byte first.
fn read_key(body: &[u8]) -> i64
    requires { 8 ≤ length body.now }
    ensures { take 8 body.now ≡ key_bytes result }
{
    let bits = u64::from_le_bytes([
        body[0], body[1], body[2], body[3], body[4], body[5], body[6], body[7],
    ]);
    bits.cast_signed()
}

/// Reads the parts of a tuple from left to right.
fn read_parts(alloc: Global, schema: &Schema, bytes: &[u8]) -> Result<Stored, TupleFault>
    ensures found { IfOk result (λ stored. HasTuple schema.now.storages stored × (bytes.now ≡ tuple schema.now.storages stored)) }
    ensures fault { IfErr result (IsFault schema.now.storages bytes.now) }
    ensures few { length schema.now.storages ≤ 8 }
{
    let start = read_front(schema, bytes)?;
    let (front, body) = bytes.split_at(start);
    let (cells, end) = read_columns(alloc, schema, read_bitmap(bytes), body)?;
    let rest = body.len() - end;
    if rest > 0 {
        return Err(TupleFault::Rest { at: start + end });
    }
    let (header, size) = header_of(cells.as_slice());
    if front != &header[..size] {
        return Err(TupleFault::BadHeader);
    }
    let key = read_key(body);
    Ok(Stored { key, cells })
}

/// Reads the stored row that these bytes are the tuple of.
///
/// A fault is the first check that fails. Pointers are read in a PLAIN column too, and inline values
/// of any length.
pub fn read_tuple(alloc: Global, schema: &Schema, bytes: &[u8]) -> Result<Stored, TupleFault>
    // What is read has these bytes, and what has these bytes is read: the round trip.
    ensures found { IfOk result (λ stored. HasTuple schema.now.storages stored × (bytes.now ≡ tuple schema.now.storages stored)) }
    ensures again { (stored : Stored) → HasTuple schema.now.storages stored → bytes.now ≡ tuple schema.now.storages stored → result ≢ Err TupleFault.Memory → result ≡ Ok stored }

    // The same by the function that finds the row in the bytes.
    ensures row { MatchResult result (λ stored. stored_in schema.now.storages bytes.now ≡ Some stored) (λ f. f ≢ TupleFault.Memory → stored_in schema.now.storages bytes.now ≡ None) }

    // Each fault comes exactly where its check is the first that fails.
    ensures fault { IfErr result (IsFault schema.now.storages bytes.now) }
    ensures fault_only { (f : TupleFault) → f ≢ TupleFault.Memory → IsFault schema.now.storages bytes.now f → result ≢ Err TupleFault.Memory → result ≡ Err f }
{
    read_parts(alloc, schema, bytes)
}
