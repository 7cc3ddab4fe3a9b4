ghost use Rattle.std.specs.Prelude.{IsTrue};
ghost use Rattle.std.specs.List.{All};
ghost use Rattle.tuple_layout.specs.Tuples.{IsWithinLimits};

use super::*;
use std::alloc::{AllocError, Global};
use std::test::Fail;
use tuple_layout::{Bytes, Cell, CellList, LARGEST_TUPLE, Pointer, Schema, Storage, header_size};

fn keeps_limit(cell: &Cell) -> bool
    ensures { IsTrue result → IsWithinLimits cell.now }
{
    match cell {
        Cell::Null => true,
        Cell::Inline(value) => value.len() <= 65_536,
        Cell::Out(pointer) => pointer.size <= 1_073_741_819,
    }
}

fn keep_limits(cells: &[Cell]) -> bool
    ensures { IsTrue result → All IsWithinLimits cells.now }
{
    for cell in cells {
        if !keeps_limit(cell) {
            return false;
        }
    }
    true
}

/// A column of a test: null, or a value of so many bytes, inline or out of line.
#[derive(Clone, Copy, Debug, PartialEq, Eq)]
enum Column {
    Null,
    Inline(usize),
    Out,
}

fn cell_of(alloc: Global, column: Column) -> Result<Cell, AllocError> {
    match column {
        Column::Null => Ok(Cell::Null),
        Column::Inline(len) => {
            let value = vec![in alloc; 7; len]?;
            Ok(Cell::Inline(Bytes::from_vec(value)))
        }
        Column::Out => Ok(Cell::Out(Pointer {
            size: 2500,
            value_id: 16_384,
            toast_rel: 8193,
        })),
    }
}

fn cells_of(alloc: Global, columns: &[Column]) -> Result<CellList, AllocError> {
    let mut cells = CellList::new(alloc);
    for column in columns {
        cells.push(cell_of(alloc, *column)?)?;
    }
    Ok(cells)
}

/// What is planned for a row, and its size with all out of line that may go.
fn planned(
    alloc: Global,
    storages: &[Storage],
    columns: &[Column],
    target: usize,
) -> Result<(Result<OutColumns, RowTooBig>, usize), Fail> {
    let schema = Schema::new(alloc, storages)?;
    let cells = cells_of(alloc, columns)?;
    let cells = cells.as_slice();
    if cells.len() != schema.storages().len() || !keep_limits(cells) {
        return Err(Fail::new("no row of this schema"));
    }
    Ok((plan(&schema, cells, target), all_moved_size(&schema, cells)))
}

/// Whether these columns are planned, in this order.
fn plans(
    alloc: Global,
    storages: &[Storage],
    columns: &[Column],
    want: &[u16],
) -> Result<bool, Fail> {
    let (plan, _) = planned(alloc, storages, columns, 2032)?;
    match plan {
        Ok(out) => Ok(out.as_slice() == want),
        Err(_) => Ok(false),
    }
}

const MIXED: [Storage; 2] = [Storage::External, Storage::Plain];

const BOTH: [Storage; 2] = [Storage::External, Storage::External];

#[test]
fn the_first_of_the_largest_goes_out(rt: HostRuntime) -> Result<(), Fail> {
    let alloc = rt.alloc();
    let one = [Storage::External];
    assert!(rt; plans(alloc, &one, &[Column::Inline(1996)], &[])?);
    assert!(rt; plans(alloc, &one, &[Column::Inline(1997)], &[1])?);
    assert!(rt;
        plans(
            alloc,
            &BOTH,
            &[Column::Inline(1500), Column::Inline(1500)],
            &[1]
        )?
    );
    assert!(rt;
        plans(
            alloc,
            &BOTH,
            &[Column::Inline(1500), Column::Inline(1501)],
            &[2]
        )?
    );
    assert!(rt;
        plans(
            alloc,
            &BOTH,
            &[Column::Inline(2100), Column::Inline(2101)],
            &[2, 1]
        )?
    );
    Ok(())
}

#[test]
fn small_plain_and_stored_columns_stay(rt: HostRuntime) -> Result<(), Fail> {
    let alloc = rt.alloc();
    assert!(rt; plans(alloc, &BOTH, &[Column::Out, Column::Inline(1997)], &[2])?);
    assert!(rt;
        plans(
            alloc,
            &MIXED,
            &[Column::Inline(20), Column::Inline(2100)],
            &[]
        )?
    );
    assert!(rt;
        plans(
            alloc,
            &MIXED,
            &[Column::Inline(21), Column::Inline(2100)],
            &[1]
        )?
    );
    Ok(())
}

#[test]
fn a_row_may_be_too_big(rt: HostRuntime) -> Result<(), Fail> {
    let alloc = rt.alloc();
    for (len, too_big) in [(8124, false), (8125, true)] {
        let (plan, all_out) = planned(alloc, &[Storage::Plain], &[Column::Inline(len)], 2032)?;
        assert_eq!(rt; all_out, len + 36);
        assert_eq!(rt; matches!(&plan, Err(RowTooBig { size: 8161 })), too_big);
        assert_eq!(rt; plan.is_ok(), !too_big);
    }
    Ok(())
}

/// Where a column's data end, worked out on lengths alone.
fn end_of(storage: Storage, at: usize, column: Column) -> usize {
    match column {
        Column::Null => at,
        Column::Out => at.saturating_add(18),
        Column::Inline(len) if storage == Storage::External && len <= 126 => {
            at.saturating_add(len.saturating_add(1))
        }
        Column::Inline(len) => {
            let start = at.saturating_add(3) / 4;
            start
                .saturating_mul(4)
                .saturating_add(len.saturating_add(4))
        }
    }
}

fn size_of(storages: [Storage; 2], columns: [Column; 2]) -> usize {
    let has_null = columns[0] == Column::Null || columns[1] == Column::Null;
    let first = end_of(storages[0], 8, columns[0]);
    header_size(3, has_null).saturating_add(end_of(storages[1], first, columns[1]))
}

fn movable(storage: Storage, column: Column) -> Option<usize> {
    match (storage, column) {
        (Storage::External, Column::Inline(len)) if len >= 21 => Some(len),
        _ => None,
    }
}

/// The columns that go out of a row of two, by the order of their lengths and the shortest prefix.
fn wanted(storages: [Storage; 2], columns: [Column; 2]) -> &'static [u16] {
    let order: &'static [u16] = match (
        movable(storages[0], columns[0]),
        movable(storages[1], columns[1]),
    ) {
        (None, None) => &[],
        (Some(_), None) => &[1],
        (None, Some(_)) => &[2],
        (Some(a), Some(b)) if b > a => &[2, 1],
        (Some(_), Some(_)) => &[1, 2],
    };
    if size_of(storages, columns) <= 2032 {
        return &[];
    }
    let after = match order {
        [1, ..] => [Column::Out, columns[1]],
        [2, ..] => [columns[0], Column::Out],
        _ => columns,
    };
    match order {
        [1, 2] if size_of(storages, after) <= 2032 => &[1],
        [2, 1] if size_of(storages, after) <= 2032 => &[2],
        _ => order,
    }
}

/// Whether what is planned for a row of two columns is what is wanted.
fn agrees(alloc: Global, storages: [Storage; 2], columns: [Column; 2]) -> Result<bool, Fail> {
    let (plan, all_out) = planned(alloc, &storages, &columns, 2032)?;
    let want = wanted(storages, columns);
    match plan {
        Ok(out) => Ok(all_out <= LARGEST_TUPLE && out.as_slice() == want),
        Err(fault) => Ok(all_out > LARGEST_TUPLE && fault.size == all_out),
    }
}

const EDGES: [Column; 14] = [
    Column::Null,
    Column::Out,
    Column::Inline(0),
    Column::Inline(20),
    Column::Inline(21),
    Column::Inline(126),
    Column::Inline(127),
    Column::Inline(128),
    Column::Inline(1000),
    Column::Inline(1996),
    Column::Inline(1997),
    Column::Inline(2040),
    Column::Inline(8124),
    Column::Inline(8125),
];

fn agree_with_each_second(
    alloc: Global,
    storages: [Storage; 2],
    first: Column,
) -> Result<bool, Fail> {
    for second in EDGES {
        if !agrees(alloc, storages, [first, second])? {
            return Ok(false);
        }
    }
    Ok(true)
}

#[test]
fn all_pairs_at_the_edges(rt: HostRuntime) -> Result<(), Fail> {
    for first in EDGES {
        for storages in [BOTH, MIXED, [Storage::Plain, Storage::External]] {
            assert!(rt;
                agree_with_each_second(rt.alloc(), storages, first)?,
                "at {first:?}"
            );
        }
    }
    Ok(())
}

#[test]
fn all_lengths_around_the_target(rt: HostRuntime) -> Result<(), Fail> {
    for len in 2000..2041 {
        for storages in [BOTH, MIXED, [Storage::Plain, Storage::External]] {
            assert!(rt;
                agree_with_each_second(rt.alloc(), storages, Column::Inline(len))?,
                "at {len}"
            );
        }
    }
    Ok(())
}
