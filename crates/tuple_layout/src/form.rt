//! Writing a stored row as the bytes of a tuple.

ghost use Rattle.std.specs.Prelude.{◌≡◌, ◌≤◌, ◌<◌, ◌^◌, ◌+◌, ◌++◌, length, IfOk, OnOk, vec_len};
ghost use Rattle.std.specs.List.{All};
ghost use Rattle.tuple_layout.specs.Tuples.{IsWithinLimits, cell_bytes, inline_bytes, key_bytes, padding, row_size, tuple};

use crate::cell::{Cell, Stored};
use crate::header::header_of;
use crate::size::{KEY_SIZE, POINTER_SIZE, column_end, is_short, padding, row_size};
use crate::{Bytes, Schema, Storage};
use external_pointer::write_pointer;
use std::alloc::{AllocError, Global};
use varlena_form::{write_plain, write_short};

/// Appends the zeros up to the next multiple of 4.
fn put_padding(at: usize, out: &mut Vec<u8>) -> Result<(), AllocError>
    ensures { OnOk result (out.new.items ≡ out.old.items ++ padding at) }
{
    out.extend_from_slice(&[0; 3][..padding(at)])?;
    Ok(())
}

/// Appends an inline value, if the data before it end at `at`.
fn put_inline(
    storage: Storage,
    at: usize,
    value: &[u8],
    out: &mut Vec<u8>,
) -> Result<(), AllocError>
    requires { length value.now ≤ 65536 }
    ensures { OnOk result (out.new.items ≡ out.old.items ++ inline_bytes storage at value.now) }
{
    if is_short(storage, value.len()) {
        write_short(value, out)?;
        return Ok(());
    }
    put_padding(at, out)?;
    write_plain(value, out)?;
    Ok(())
}

/// Appends a cell, if the data before it end at `at`.
fn put_cell(storage: Storage, at: usize, cell: &Cell, out: &mut Vec<u8>) -> Result<(), AllocError>
    requires place { at ≤ 2 ^ 32 }
    requires limits { IsWithinLimits cell.now }
    ensures { OnOk result (out.new.items ≡ out.old.items ++ cell_bytes storage at cell.now) }
{
    match cell {
        Cell::Null => Ok(()),
        Cell::Inline(value) => {
            put_inline(storage, at, value.as_slice(), out)?;
            Ok(())
        }
        Cell::Out(pointer) => {
            let mut bytes = [0; POINTER_SIZE];
            write_pointer(pointer, &mut bytes);
            out.extend_from_slice(&bytes)?;
            Ok(())
        }
    }
}

/// Appends a key, in two's complement with the low byte first.
fn put_key(key: &i64, out: &mut Vec<u8>) -> Result<(), AllocError>
    ensures { OnOk result (out.new.items ≡ out.old.items ++ key_bytes key.now) }
{
    out.extend_from_slice(&key.cast_unsigned().to_le_bytes())?;
    Ok(())
}

/// Appends the tuple of a stored row.
fn put_tuple(schema: &Schema, stored: &Stored, out: &mut Vec<u8>) -> Result<(), AllocError>
    requires one_each { length stored.now.cells ≡ length schema.now.storages }
    requires limits { All IsWithinLimits stored.now.cells }
    ensures tuple { OnOk result (out.new.items ≡ out.old.items ++ tuple schema.now.storages stored.now) }
    ensures few { OnOk result (length schema.now.storages ≤ 8) }
{
    let cells = stored.cells.as_slice();
    let storages = schema.storages();
    let (header, data_start) = header_of(cells);
    out.extend_from_slice(&header[..data_start])?;
    put_key(&stored.key, out)?;
    let mut at = KEY_SIZE;
    for (storage, cell) in storages.iter().zip(cells) {
        put_cell(*storage, at, cell, out)?;
        at = column_end(*storage, at, cell);
    }
    Ok(())
}

/// The tuple of a stored row, which has a cell for each column, in a buffer of its size.
pub fn form_tuple(alloc: Global, schema: &Schema, stored: &Stored) -> Result<Bytes, AllocError>
    requires one_each { length stored.now.cells ≡ length schema.now.storages }
    requires limits { All IsWithinLimits stored.now.cells }
    ensures tuple { IfOk result (λ bytes. bytes ≡ tuple schema.now.storages stored.now) }
    ensures size { IfOk result (λ bytes. length bytes ≡ row_size schema.now.storages stored.now.cells) }
{
    let size = row_size(schema, stored.cells.as_slice());
    let mut out = Vec::with_capacity(alloc, size)?;
    put_tuple(schema, stored, &mut out)?;
    Ok(Bytes::from_vec(out))
}
