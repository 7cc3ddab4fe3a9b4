ghost use Rattle.std.specs.Prelude.{IsTrue};
ghost use Rattle.std.specs.List.{All};
ghost use Rattle.tuple_layout.specs.Tuples.{IsWithinLimits};

use super::*;
use std::alloc::{AllocError, Global};
use std::test::Fail;

fn columns_of(made: &Result<Schema, SchemaFault>) -> usize {
    match made {
        Ok(schema) => schema.storages().len(),
        Err(_) => 0,
    }
}

#[test]
fn a_table_has_one_to_eight_columns(rt: HostRuntime) {
    let alloc = rt.alloc();
    let nine = [Storage::External; 9];
    for columns in 1..9 {
        let made = Schema::new(alloc, &nine[..columns]);
        assert_eq!(rt; columns_of(&made), columns);
    }
    for columns in [0, 9] {
        let made = Schema::new(alloc, &nine[..columns]);
        assert!(rt; matches!(&made, Err(SchemaFault::Count { got }) if *got == columns));
    }
}

#[test]
fn the_bitmap_of_nine_columns_takes_two_bytes(rt: HostRuntime) {
    assert_eq!(rt; header_size(9, false), 24);
    assert_eq!(rt; header_size(8, true), 24);
    assert_eq!(rt; header_size(9, true), 32);
}

fn keeps_limit(cell: &Cell) -> bool
    ensures { IsTrue result → IsWithinLimits cell.now }
{
    match cell {
        Cell::Null => true,
        Cell::Inline(value) => value.len() <= 65_536,
        Cell::Out(pointer) => pointer.size <= 1_073_741_819,
    }
}

fn keep_limits(cells: &[Cell]) -> bool
    ensures { IsTrue result → All IsWithinLimits cells.now }
{
    for cell in cells {
        if !keeps_limit(cell) {
            return false;
        }
    }
    true
}

/// The size of a row, and its tuple.
fn formed(alloc: Global, schema: &Schema, stored: &Stored) -> Result<(usize, Bytes), Fail> {
    let cells = stored.cells.as_slice();
    if cells.len() != schema.storages().len() || !keep_limits(cells) {
        return Err(Fail::new("no row of this schema"));
    }
    let size = row_size(schema, cells);
    let bytes = form_tuple(alloc, schema, stored)?;
    Ok((size, bytes))
}

fn inline(alloc: Global, len: usize) -> Result<Cell, AllocError> {
    let value = vec![in alloc; 7; len]?;
    Ok(Cell::Inline(Bytes::from_vec(value)))
}

fn out() -> Cell {
    Cell::Out(Pointer {
        size: 2500,
        value_id: 16_384,
        toast_rel: 8193,
    })
}

/// The size of a row of two columns.
fn size_of_two(
    alloc: Global,
    storages: [Storage; 2],
    first: Cell,
    second: Cell,
) -> Result<usize, Fail> {
    let schema = Schema::new(alloc, &storages)?;
    let mut cells = CellList::new(alloc);
    cells.push(first)?;
    cells.push(second)?;
    let (size, bytes) = formed(alloc, &schema, &Stored { key: 1, cells })?;
    if bytes.len() != size {
        return Err(Fail::new("a tuple of another size"));
    }
    Ok(size)
}

#[test]
fn sizes_of_one_column(rt: HostRuntime) -> Result<(), Fail> {
    let alloc = rt.alloc();
    for (len, want) in [(1996, 2032), (1997, 2033), (126, 159), (127, 163)] {
        let first = inline(alloc, len)?;
        let size = size_of_two(
            alloc,
            [Storage::External, Storage::External],
            first,
            Cell::Null,
        )?;
        assert_eq!(rt; size, want, "at {len}");
    }
    Ok(())
}

#[test]
fn sizes_of_two_columns(rt: HostRuntime) -> Result<(), Fail> {
    let alloc = rt.alloc();
    let both = [Storage::External, Storage::External];
    let mixed = [Storage::External, Storage::Plain];
    assert_eq!(rt;
        size_of_two(alloc, both, inline(alloc, 1500)?, inline(alloc, 1500)?)?,
        3040
    );
    assert_eq!(rt;
        size_of_two(alloc, both, out(), inline(alloc, 1500)?)?,
        1556
    );
    assert_eq!(rt;
        size_of_two(alloc, mixed, inline(alloc, 20)?, inline(alloc, 2100)?)?,
        2160
    );
    assert_eq!(rt;
        size_of_two(alloc, mixed, inline(alloc, 21)?, inline(alloc, 2100)?)?,
        2160
    );
    assert_eq!(rt;
        size_of_two(alloc, mixed, out(), inline(alloc, 2100)?)?,
        2156
    );
    Ok(())
}

/// A row of these columns: a null, a pointer, a long value, and short ones.
fn row_of(alloc: Global, columns: usize) -> Result<Stored, AllocError> {
    let mut cells = CellList::new(alloc);
    for column in 0..columns {
        let cell = match column {
            0 => Cell::Null,
            1 => out(),
            2 => inline(alloc, 127)?,
            _ => inline(alloc, 3)?,
        };
        cells.push(cell)?;
    }
    Ok(Stored { key: -5, cells })
}

/// Whether bytes are refused, or are the tuple of what is read of them.
fn is_judged(alloc: Global, schema: &Schema, bytes: &[u8]) -> Result<bool, Fail> {
    match read_tuple(alloc, schema, bytes) {
        Ok(stored) => {
            let (_, again) = formed(alloc, schema, &stored)?;
            Ok(again.as_slice() == bytes)
        }
        Err(TupleFault::Memory) => Err(Fail::new("no memory")),
        Err(_) => Ok(true),
    }
}

/// Whether bytes are judged with each other byte at a place.
fn are_judged_at(
    alloc: Global,
    schema: &Schema,
    bytes: &mut [u8],
    at: usize,
) -> Result<bool, Fail> {
    for difference in 1..=255 {
        flip(bytes, at, difference);
        if !is_judged(alloc, schema, bytes)? {
            return Ok(false);
        }
        flip(bytes, at, difference);
    }
    Ok(true)
}

fn flip(bytes: &mut [u8], at: usize, difference: u8) {
    if let Some(byte) = bytes.get_mut(at) {
        *byte ^= difference;
    }
}

fn each_change_is_judged(alloc: Global, columns: usize) -> Result<bool, Fail> {
    let storages = [Storage::External; 8];
    let Some(storages) = storages.get(..columns) else {
        return Ok(false);
    };
    let schema = Schema::new(alloc, storages)?;
    let (_, bytes) = formed(alloc, &schema, &row_of(alloc, columns)?)?;
    let mut bytes = bytes.into_vec();
    for at in 0..bytes.len() {
        if !are_judged_at(alloc, &schema, &mut bytes, at)? {
            return Ok(false);
        }
    }
    Ok(true)
}

#[test]
fn a_changed_byte_is_refused_or_spells_another_row(rt: HostRuntime) -> Result<(), Fail> {
    let alloc = rt.alloc();
    for columns in [1, 2, 3, 4, 8] {
        assert!(rt; each_change_is_judged(alloc, columns)?, "at {columns}");
    }
    Ok(())
}

/// The bytes of the row with key 1 and the short value 010203.
const SMALLEST: [u8; 36] = [
    0, 0, 0, 0, 0, 0, 0, 0, 0, 0, 0, 0, 0, 0, 0, 0, 0, 0, 2, 0, 2, 0, 24, 0, 1, 0, 0, 0, 0, 0, 0,
    0, 9, 1, 2, 3,
];

#[test]
fn the_smallest_row_as_bytes(rt: HostRuntime) -> Result<(), Fail> {
    let alloc = rt.alloc();
    let schema = Schema::new(alloc, &[Storage::External])?;
    let mut cells = CellList::new(alloc);
    cells.push(Cell::Inline(Bytes::from_slice(alloc, &[1, 2, 3])?))?;
    let stored = Stored { key: 1, cells };
    let (size, bytes) = formed(alloc, &schema, &stored)?;
    assert_eq!(rt; size, 36);
    assert!(rt; bytes.as_slice() == &SMALLEST[..]);
    assert!(rt; read_tuple(alloc, &schema, &SMALLEST)? == stored);
    Ok(())
}

/// The fault of the smallest row's first bytes with another byte at a place.
fn fault_of(
    alloc: Global,
    storage: Storage,
    len: usize,
    at: usize,
    byte: u8,
) -> Result<TupleFault, Fail> {
    let schema = Schema::new(alloc, &[storage])?;
    let mut bytes = SMALLEST;
    if let Some(place) = bytes.get_mut(at) {
        *place = byte;
    }
    match bytes
        .get(..len)
        .map(|front| read_tuple(alloc, &schema, front))
    {
        Some(Err(fault)) => Ok(fault),
        _ => Err(Fail::new("no fault")),
    }
}

#[test]
fn faults_in_their_order(rt: HostRuntime) -> Result<(), Fail> {
    let rows = [
        (22, 18, 9, TupleFault::Short { need: 23 }),
        (23, 18, 9, TupleFault::BadHeader),
        (23, 0, 0, TupleFault::Short { need: 24 }),
        (31, 0, 1, TupleFault::BadColumn { column: 0 }),
        (32, 0, 1, TupleFault::BadColumn { column: 1 }),
        (36, 32, 18, TupleFault::BadColumn { column: 1 }),
        (36, 32, 7, TupleFault::Rest { at: 35 }),
        (36, 0, 1, TupleFault::BadHeader),
        (36, 20, 0, TupleFault::BadHeader),
    ];
    for (len, at, byte, want) in rows {
        let fault = fault_of(rt.alloc(), Storage::External, len, at, byte)?;
        assert_eq!(rt; fault, want, "at {len} {at} {byte}");
    }
    let short_in_plain = fault_of(rt.alloc(), Storage::Plain, 36, 0, 0)?;
    assert_eq!(rt; short_in_plain, TupleFault::BadColumn { column: 1 });
    Ok(())
}

/// The fault of a tuple with the smallest row's header and key, of so many byte strings, which these bytes are.
fn fault_in(alloc: Global, columns: u8, data: &[u8]) -> Result<TupleFault, Fail> {
    let storages = [Storage::External; 2];
    let Some(storages) = storages.get(..columns as usize) else {
        return Err(Fail::new("too many columns"));
    };
    let schema = Schema::new(alloc, storages)?;
    let mut tuple = Vec::new(alloc);
    tuple.extend_from_slice(&SMALLEST[..18])?;
    tuple.push(columns.wrapping_add(1))?;
    tuple.extend_from_slice(&SMALLEST[19..32])?;
    tuple.extend_from_slice(data)?;
    match read_tuple(alloc, &schema, &tuple) {
        Err(fault) => Ok(fault),
        Ok(_) => Err(Fail::new("no fault")),
    }
}

#[test]
fn a_compressed_datum_is_named_wherever_it_stands(rt: HostRuntime) -> Result<(), Fail> {
    for (columns, data, column) in [
        // inline, where the data are aligned as they are
        (1, [30, 0, 0, 0, 1, 2, 3].as_slice(), 1),
        // inline, behind two bytes of padding
        (2, &[5, 9, 0, 0, 30, 0, 0, 0, 1, 2, 3], 2),
        // as a pointer to 50 stored bytes of 96
        (
            1,
            &[1, 18, 100, 0, 0, 0, 50, 0, 0, 0, 0, 64, 0, 0, 1, 32, 0, 0],
            1,
        ),
        (
            2,
            &[
                5, 9, 1, 18, 100, 0, 0, 0, 50, 0, 0, 0, 0, 64, 0, 0, 1, 32, 0, 0,
            ],
            2,
        ),
    ] {
        let fault = fault_in(rt.alloc(), columns, data)?;
        assert_eq!(rt; fault, TupleFault::Compressed { column });
    }
    // padding that is not zero, and a pointer cut short
    for data in [
        [5, 9, 0, 1, 30, 0, 0, 0, 1, 2, 3].as_slice(),
        &[
            5, 9, 1, 18, 100, 0, 0, 0, 50, 0, 0, 0, 0, 64, 0, 0, 1, 32, 0,
        ],
    ] {
        let fault = fault_in(rt.alloc(), 2, data)?;
        assert_eq!(rt; fault, TupleFault::BadColumn { column: 2 });
    }
    Ok(())
}
