use command_set::changes::{is_among, names_place, place_of, with_keys};
use command_set::rows::{HandleMap, RowMap};
use command_set::state::{Change, ChangeList, Plain, Session, Transaction};
use command_set::values::{row_with, value_at};
use command_set::{Bytes, Level, Row, Set, SetList};
use list_facts::ListOf;
use std::alloc::{AllocError, Global};

// A value of one byte.
fn value(alloc: Global, byte: u8) -> Result<Bytes, AllocError> {
    let bytes = ListOf::from_slice(alloc, &[byte])?;
    Ok(bytes)
}

// A row whose first value is one byte, and whose second is null.
fn row(alloc: Global, byte: u8) -> Result<Row, AllocError> {
    let mut row = ListOf::new(alloc);
    row.push(Some(value(alloc, byte)?))?;
    row.push(None)?;
    Ok(row)
}

// The first byte of a column; none where it is null.
fn first_byte(row: &Row, column: u16) -> Option<u8> {
    value_at(row, column)?.get(0).copied()
}

// The first byte of the row at a key of table 1; none where there is no row.
fn byte_at(rows: &RowMap, key: i64) -> Option<u8> {
    first_byte(rows.get(&place_of(&1, &key))?, 1)
}

// The key's row is moved to another key, with this byte.
fn movement(alloc: Global, from: i64, to: i64, byte: u8) -> Result<ChangeList, AllocError> {
    let mut changes = ListOf::new(alloc);
    let row = row(alloc, byte)?;
    changes.push(Change::Move {
        table: 1,
        from,
        to,
        row,
    })?;
    Ok(changes)
}

// Rows with one row, at key 1 of table 1.
fn one_row(alloc: Global, byte: u8) -> Result<RowMap, AllocError> {
    let mut rows = RowMap::new(alloc);
    rows.put(place_of(&1, &1), row(alloc, byte)?)?;
    Ok(rows)
}

#[test]
fn a_map_has_its_newest_rows(rt: HostRuntime) -> Result<(), AllocError> {
    let alloc = rt.alloc();
    let mut rows = one_row(alloc, 7)?;
    rows.put(place_of(&1, &1), row(alloc, 8)?)?;
    let copy = rows.clone()?;
    rows.take_away(place_of(&1, &1))?;
    assert_eq!(rt; byte_at(&copy, 1), Some(8));
    assert_eq!(rt; byte_at(&rows, 1), None);
    assert_eq!(rt;
        first_byte(&copy.row_at(alloc, &place_of(&1, &1))?, 1),
        Some(8)
    );
    assert!(rt; copy.row_at(alloc, &place_of(&2, &1))?.is_empty());
    Ok(())
}

#[test]
fn a_name_keeps_its_newest_value(rt: HostRuntime) -> Result<(), AllocError> {
    let alloc = rt.alloc();
    let mut handles = HandleMap::new(alloc);
    handles.put(1, value(alloc, 7)?)?;
    handles.put(2, value(alloc, 8)?)?;
    handles.take_away(2)?;
    assert_eq!(rt;
        handles.get(1).and_then(|bytes| bytes.get(0).copied()),
        Some(7)
    );
    assert!(rt; handles.get(2).is_none());
    Ok(())
}

#[test]
fn a_transaction_sees_its_copy(rt: HostRuntime) -> Result<(), AllocError> {
    let alloc = rt.alloc();
    let mut store = Plain::first(alloc, 1)?;
    store.latest.put(place_of(&1, &5), row(alloc, 9)?)?;
    let mut transaction = Transaction::begin(alloc, Level::Rr);
    transaction.base = Some(one_row(alloc, 7)?);
    transaction.changes = movement(alloc, 1, 2, 8)?;
    let view = store.view_of(&transaction)?;
    let now = store.now_of(&transaction)?;
    for (key, seen, there) in [(1, None, None), (2, Some(8), Some(8)), (5, None, Some(9))] {
        assert_eq!(rt; byte_at(&view, key), seen, "at {key}");
        assert_eq!(rt; byte_at(&now, key), there, "at {key}");
    }
    Ok(())
}

#[test]
fn a_move_names_both_keys(rt: HostRuntime) -> Result<(), AllocError> {
    let alloc = rt.alloc();
    let changes = movement(alloc, 1, 2, 8)?;
    let places = with_keys(ListOf::new(alloc), changes.as_slice())?;
    for (key, named) in [(1, true), (2, true), (3, false)] {
        let place = place_of(&1, &key);
        assert_eq!(rt; is_among(places.as_slice(), &place), named, "at {key}");
        assert_eq!(rt; names_place(changes.as_slice(), &place), named, "at {key}");
    }
    Ok(())
}

#[test]
fn a_session_is_replaced(rt: HostRuntime) -> Result<(), AllocError> {
    let alloc = rt.alloc();
    let mut store = Plain::first(alloc, 2)?;
    store.set_session(2, Session::Failed);
    store.set_session(3, Session::Failed);
    for (number, outside, failed) in [(1, true, false), (2, false, true), (3, true, false)] {
        assert_eq!(rt; store.is_outside(number), outside, "session {number}");
        assert_eq!(rt; store.is_failed(number), failed, "session {number}");
    }
    Ok(())
}

#[test]
fn a_session_has_its_transaction(rt: HostRuntime) -> Result<(), AllocError> {
    let alloc = rt.alloc();
    let mut store = Plain::first(alloc, 2)?;
    store.set_session(2, Session::Open(Transaction::begin(alloc, Level::Rr)));
    let nothing = Transaction::begin(alloc, Level::Rc);
    assert!(rt; store.transaction_or(1, &nothing).level == Level::Rc);
    assert!(rt; store.transaction_or(2, &nothing).level == Level::Rr);
    Ok(())
}

#[test]
fn an_update_sets_its_columns(rt: HostRuntime) -> Result<(), AllocError> {
    let alloc = rt.alloc();
    let mut sets: SetList = ListOf::new(alloc);
    sets.push(Set {
        column: 2,
        value: Some(value(alloc, 8)?),
    })?;
    let made = row_with(alloc, &row(alloc, 7)?, &sets)?;
    for (column, byte) in [(1, Some(7)), (2, Some(8)), (3, None)] {
        assert_eq!(rt; first_byte(&made, column), byte, "column {column}");
    }
    Ok(())
}
