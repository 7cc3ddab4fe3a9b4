//! Tests of the look-ups: on versions of every kind, on a row with a null, an inline value and one out of
//! line, and beside the plain store's maps.

ghost use Rattle.std.specs.Prelude.{◌≡◌, ◌≤◌, IfOk, OnErr, OnOk, length};
ghost use Rattle.row_versions.specs.Relations.{AreAssigned, with_version};
ghost use Rattle.row_versions.specs.Versions.{new_version};
ghost use Rattle.tuple_layout.specs.Sizes.{largest_tuple};
ghost use Rattle.xact_status.specs.Xacts.{next_xid};
ghost use Rattle.table_state.specs.Tables.{AreStored, IsStored};

use crate::shots::Shot;
use row_versions::RowVersions;
use slot_page::Tid;
use std::alloc::{AllocError, Global};
use std::process::Abort;
use std::test::Fail;
use table_state::{FoundRow, Table};
use tuple_layout::{
    Bytes, Cell, LARGEST_TUPLE, Pointer, Schema, Storage, Stored, TupleFault, read_tuple,
};
use xact_status::XactTable;

/// A table without a row.
fn empty(alloc: Global, xacts: &XactTable, storages: &[Storage]) -> Result<Table, Fail>
    ensures assigned { IfOk result (λ table. AreAssigned xacts.now table.rows.pages) }
    ensures stored { IfOk result AreStored }
{
    let schema = Schema::new(alloc, storages)?;
    Ok(Table::new(alloc, schema, 1)?)
}

/// The row whose tuple has these bytes.
fn row_of(
    rt: &impl Abort,
    alloc: Global,
    schema: &Schema,
    tuple: &[u8],
) -> Result<Stored, TupleFault>
    ensures { IfOk result (λ stored. IsStored schema.now.storages stored.key tuple.now) }
{
    assert!(rt; schema.storages().len() <= 8);
    let stored = read_tuple(alloc, schema, tuple)?;
    Ok(stored)
}

/// Puts a version of the row at a key. Where there is no memory, the rows stay.
// A key goes by reference into a function of its own, whose proof then knows its range.
fn put_version(rows: &mut RowVersions, key: &i64, xid: u64, tuple: Bytes) -> Result<(), AllocError>
    requires least { 24 ≤ length tuple }
    requires most { length tuple ≤ largest_tuple }
    ensures put { OnOk result (rows.new ≡ with_version rows.old (new_version key.now xid tuple)) }
    ensures unchanged { OnErr result (rows.new ≡ rows.old) }
{
    let _tid = rows.put_version(*key, xid, tuple)?;
    Ok(())
}

/// Puts a version of the row at a key, whose tuple has these bytes.
fn put_row(
    rt: &impl Abort,
    alloc: Global,
    table: &mut Table,
    xacts: &XactTable,
    xid: u64,
    key: &i64,
    tuple: &[u8],
) -> Result<(), AllocError>
    requires row { IsStored table.old.rows.schema.storages key.now tuple.now }
    requires assigned { AreAssigned xacts.now table.old.rows.pages }
    requires stored { AreStored table.old }
    ensures assigned { AreAssigned xacts.now table.new.rows.pages }
    ensures stored { AreStored table.new }
{
    assert!(rt; 3 <= xid);
    assert!(rt; xid < xacts.next());
    assert!(rt; 24 <= tuple.len());
    assert!(rt; tuple.len() <= LARGEST_TUPLE);
    let bytes = Bytes::from_slice(alloc, tuple)?;
    put_version(&mut table.rows, key, xid, bytes)?;
    Ok(())
}

/// Puts a version of the row whose tuple has these bytes.
fn put(
    rt: &impl Abort,
    alloc: Global,
    table: &mut Table,
    xacts: &XactTable,
    xid: u64,
    tuple: &[u8],
) -> Result<(), Fail>
    requires assigned { AreAssigned xacts.now table.old.rows.pages }
    requires stored { AreStored table.old }
    ensures assigned { AreAssigned xacts.now table.new.rows.pages }
    ensures stored { AreStored table.new }
{
    let row = row_of(rt, alloc, table.rows.schema(), tuple)?;
    put_row(rt, alloc, table, xacts, xid, &row.key, tuple)?;
    Ok(())
}

/// Ends the version at a tid for a transaction, if there is one.
fn end(rt: &impl Abort, table: &mut Table, xacts: &XactTable, tid: Tid, ender: Option<u64>)
    requires assigned { AreAssigned xacts.now table.old.rows.pages }
    requires stored { AreStored table.old }
    ensures assigned { AreAssigned xacts.now table.new.rows.pages }
    ensures stored { AreStored table.new }
{
    let Some(xid) = ender else {
        return;
    };
    assert!(rt; 3 <= xid);
    assert!(rt; xid < xacts.next());
    assert!(rt; table.rows.version_at(tid).is_some());
    table.rows.set_ender(tid, xid);
}

/// The row at a key, by a snapshot or by what is there now.
fn found(
    alloc: Global,
    table: &Table,
    xacts: &XactTable,
    shot: Option<&Shot>,
    key: i64,
    own: Option<u64>,
) -> Result<Option<FoundRow>, AllocError>
    requires assigned { AreAssigned xacts.now table.now.rows.pages }
    requires stored { AreStored table.now }
{
    match shot {
        Some(shot) => table.seen_row(alloc, key, shot.id, &shot.registry, xacts, own),
        None => table.current_row(alloc, key, xacts, own),
    }
}

/// Transactions 3, which has aborted, 4 and 5, which have committed, 6 and 7, which run, and a snapshot that
/// was taken between the two commits.
fn five_xacts(rt: &impl Abort, alloc: Global) -> Result<(XactTable, Shot), AllocError>
    ensures { IfOk result (λ made. next_xid made.0 ≡ 8) }
{
    let mut xacts = XactTable::new(alloc);
    let aborted = xacts.assign(1)?;
    let early = xacts.assign(2)?;
    let late = xacts.assign(3)?;
    let _running = xacts.assign(4)?;
    let _running = xacts.assign(5)?;
    assert!(rt; xacts.running().contains(&aborted));
    xacts.abort(aborted);
    assert!(rt; xacts.running().contains(&early));
    let _number = xacts.commit(early);
    let shot = Shot::take(alloc, &xacts)?;
    assert!(rt; xacts.running().contains(&late));
    let _number = xacts.commit(late);
    assert_eq!(rt; xacts.next(), 8);
    Ok((xacts, shot))
}

/// The tuple of the row with the key 7 of a table of three columns: null; the bytes 9 and 10; a value of
/// 2,500 bytes out of line, with the id 16,384.
const THREE_COLUMNS: [u8; 53] = [
    0, 0, 0, 0, 0, 0, 0, 0, 0, 0, 0, 0, 0, 0, 0, 0, 0, 0, // fixed
    4, 0, 7, 0, 24, // columns, flags, where the data begin
    0x0d, // which are not null
    7, 0, 0, 0, 0, 0, 0, 0, // the key
    7, 9, 10, // inline, in the short form
    0x01, 0x12, 0xc8, 0x09, 0, 0, 0xc4, 0x09, 0, 0, 0, 0x40, 0, 0, 0x01, 0x20, 0, 0, // the pointer
];

/// Whether a look-up has found that row.
fn is_three_columns(row: &FoundRow) -> bool {
    let pointer = Pointer {
        size: 2500,
        value_id: 16384,
        toast_rel: 8193,
    };
    row.stored.key == 7
        && match row.stored.cells.as_slice() {
            [Cell::Null, Cell::Inline(value), Cell::Out(out)] => {
                value.as_slice() == [9, 10].as_slice() && *out == pointer
            }
            _ => false,
        }
}

/// What a look-up finds of a version by who put it and who ended it, for each reader.
fn find_each(
    rt: &impl Abort,
    alloc: Global,
    table: &Table,
    xacts: &XactTable,
    shot: &Shot,
    stamp: (u64, Option<u64>),
) -> Result<(), Fail>
    requires assigned { AreAssigned xacts.now table.now.rows.pages }
    requires stored { AreStored table.now }
{
    let (inserter, ender) = stamp;
    // With the snapshot or without; the reader's own xid; whose changes there are for it.
    let readers: [(bool, Option<u64>, &[u64]); 6] = [
        (true, None, &[4]),
        (true, Some(6), &[4, 6]),
        (true, Some(7), &[4, 7]),
        (false, None, &[4, 5]),
        (false, Some(6), &[4, 5, 6]),
        (false, Some(7), &[4, 5, 7]),
    ];
    for (by_snapshot, own, counts) in &readers {
        let shot = if *by_snapshot { Some(shot) } else { None };
        let row = found(alloc, table, xacts, shot, 7, *own)?;
        let ended = ender.is_some_and(|ender| counts.contains(&ender));
        assert!(rt; row.is_some() == (counts.contains(&inserter) && !ended));
        assert!(rt; row.is_none_or(|row| is_three_columns(&row)));
        assert!(rt; found(alloc, table, xacts, shot, 8, *own)?.is_none());
    }
    Ok(())
}

#[test]
fn a_version_is_found_by_who_put_and_who_ended_it(rt: HostRuntime) -> Result<(), Fail> {
    let alloc = rt.alloc();
    let (xacts, shot) = five_xacts(&rt, alloc)?;
    let storages = [Storage::Plain, Storage::External, Storage::External];
    for inserter in 3..8 {
        for ender in 2..8 {
            let mut table = empty(alloc, &xacts, &storages)?;
            put(&rt, alloc, &mut table, &xacts, inserter, &THREE_COLUMNS)?;
            let ender = if ender < 3 { None } else { Some(ender) };
            end(&rt, &mut table, &xacts, Tid { page: 0, slot: 0 }, ender);
            find_each(&rt, alloc, &table, &xacts, &shot, (inserter, ender))?;
        }
    }
    Ok(())
}

/// Small histories of transactions with the xids 3, 4 and 5 on the keys 0 and 1, which are written x and y.
/// A digit says whose the letters after it are: x puts another row at its key, X takes the row there away,
/// + commits, - aborts. At s a snapshot is taken.
const HISTORIES: [&str; 17] = [
    "3x4y3xxsX-4+5xYX 3x4y3X+4+s5xx 3y4xx+s5xX3Y+5xXx+ 3ysy4x+3Yxx+5y 3x+s4yY5xX",
    "3xX+4y5xx4Yy5+s 3yxxsX+4Yx-5yy 3yyysY+4yyxxx 3y+4Ys5x4yy+5Yyx 3xyY+s4yyy 3xy+4Y5xs+4yyxXxX",
    "3x-4xs+5xy+ 3yxs+4x-5XYxy- 3xxX4ys+3y+ 3y4x3Y+4xxX-5yxysX 3x+4Xy+5ys+ 3x4y3Xx4Ysy+5Y3x5y",
    "3yxsy-4x+5x 3xxyXyx-4xs+5xxy 3yY4xxsxx+5Xx3+ 3yYs+4xyxyyy 3x4y3X4y3+s4y 3ysx+4XyY 3xsy+4x-",
    "3y+s4xXYxxXyx 3xXs+4y5xxX 3ys4xx3y4x3y+ 3ysyYx-4yY5x 3y4xsx3+4yyX-5xyyx 3y+s4y5xx4y5+4xxXY",
    "3xsX-4yyy+5xxXx 3x4ys3X4y+3xy 3yx+4x5Y4-5yXxy-s 3yx+s4yYx 3xyXs-4yY+5xy 3xsxyX-4x5y",
    "3ysy4xx+5x+3- 3x+4yX+s5y 3yxysy-4x5y4x5y4Xx 3yyYy4xsx3+4+5y 3y4xs3+4xx 3xyYsyYX+",
    "3x+s4Xx5y+4yy 3y+4xXx5y-4Yyxxys 3yYsxXxx+4x5y+4xY 3y+s4Y5x+4xx 3xyyXys+ 3yY-4xx5yy4xx+5ys+",
    "3x+4X5y-4yyYxsy+ 3x4y3+4x-5X-s 3xs+4xX+5y- 3yyxsxyXx+4Y5X 3ysyy+4Y 3xx+4yY+5xs+",
    "3yYy-4y5x4ys 3yyY+4xxs+5y 3ysxXxyyY-4x5y4X 3x+s4XyyyyYy 3xXxs4y3-5x+4yxXyx 3xxyXxYs-4x5y4x",
    "3y4x3+s4YxXxyYy 3x+s4y5x+4x- 3yY+4y5x4+5xysxy 3x4yYs+3xx 3x+4xxsyxY-5yx+ 3x4ys3+4-5yxxX",
    "3xx-4x5y+4Y-s 3xyyy+4y5xs+4xxx 3yY+4ys5x4+5- 3y+4YxX-5Yy+s 3x4y3x+4y-5x-s",
    "3yy+4x5Y4x5+4yY+s 3xyYsxX-4xX5y-4yx 3yY+4y+s5xXy+ 3xXxy+4x5y4XxX5y+s 3xx4y+s5Y+3yXx",
    "3yy+4xY-5xs+ 3yxysy+4yx+5yxXx 3xxXysyxX-4y 3y+4yYx+5xxXysy 3y-4x5yy4-5Ys 3yxsxy+4X+5yYx+",
    "3y+4Yxxxs 3yx-4yxyYsxy 3xx4y-3X+5ysxy 3y+s4xYXyYxx- 3yY+4xx5yys 3y-4xsy+5X+ 3x-4x+5xx-s",
    "3yY-4y+5YxxXs+ 3yYs+4y+ 3xy+4xX5YyY4+s5xy 3ys+4x+5Yyy+ 3xyyYsx+4yxXyY+ 3xXsx4y3+5x4-5x",
    "3y4x+3YsX+5xXyY 3yysx-4y5xxX4Y 3xsyyY-4x-5xx 3yxxsYy-4x+5y 3yyyYxsyy-4x",
];

/// What the plain store has at the two keys.
type Map = [Option<u8>; 2];

/// What a transaction has changed at each key: nothing, or to what.
type Changes = [Option<Option<u8>>; 2];

/// The rows of a map once some changes are made.
fn fold(changes: &Changes, map: &Map) -> Map {
    [changes[0].unwrap_or(map[0]), changes[1].unwrap_or(map[1])]
}

/// The plain store: what has committed, what had when the snapshot was taken, which keys commits have
/// changed since, and the changes of the transactions.
#[derive(Drop)]
struct Plain {
    latest: Map,
    base: Map,
    since: [bool; 2],
    changes: [Changes; 3],
}

impl Plain {
    fn new() -> Plain {
        Plain {
            latest: [None; 2],
            base: [None; 2],
            since: [false; 2],
            changes: [[None; 2]; 3],
        }
    }

    /// Makes one act of a transaction, which puts a value where it puts one.
    fn act(&mut self, who: usize, act: u8, value: u8) {
        let Some(changes) = self.changes.get_mut(who) else {
            return;
        };
        match act {
            b'x' => changes[0] = Some(Some(value)),
            b'X' => changes[0] = Some(None),
            b'y' => changes[1] = Some(Some(value)),
            b'Y' => changes[1] = Some(None),
            b'+' => {
                self.latest = fold(changes, &self.latest);
                self.since = [
                    self.since[0] || changes[0].is_some(),
                    self.since[1] || changes[1].is_some(),
                ];
                *changes = [None; 2];
            }
            b'-' => *changes = [None; 2],
            b's' => {
                self.base = self.latest;
                self.since = [false; 2];
            }
            _ => {}
        }
    }
}

/// The tuple of a row with a key and, in its one column, one byte.
fn tuple_of(key: u8, value: u8) -> [u8; 34] {
    let mut tuple = [0; 34];
    tuple[18] = 2;
    tuple[20] = 2;
    tuple[22] = 24;
    tuple[24] = key;
    tuple[32] = 5;
    tuple[33] = value;
    tuple
}

/// The byte of the row that a look-up has found, if it has.
fn value_of(row: Option<FoundRow>) -> Option<u8> {
    match row?.stored.cells.as_slice() {
        [Cell::Inline(value)] => value.as_slice().first().copied(),
        _ => None,
    }
}

/// Gives a transaction its xid, if it has none yet.
fn start(table: &Table, xacts: &mut XactTable, xid: u64) -> Result<(), Fail>
    requires { AreAssigned xacts.old table.now.rows.pages }
    ensures { AreAssigned xacts.new table.now.rows.pages }
{
    if xid == xacts.next() {
        let _xid = xacts.assign(1)?;
    }
    Ok(())
}

/// Commits a transaction, or aborts it.
fn finish(rt: &impl Abort, table: &Table, xacts: &mut XactTable, xid: u64, commits: bool)
    requires { AreAssigned xacts.old table.now.rows.pages }
    ensures { AreAssigned xacts.new table.now.rows.pages }
{
    assert!(rt; xacts.running().contains(&xid));
    if commits {
        let _number = xacts.commit(xid);
    } else {
        xacts.abort(xid);
    }
}

/// Puts another row at a key, or takes the row there away; what was there for the transaction has ended.
fn change(
    rt: &impl Abort,
    alloc: Global,
    table: &mut Table,
    xacts: &XactTable,
    xid: u64,
    key: u8,
    value: Option<u8>,
) -> Result<(), Fail>
    requires assigned { AreAssigned xacts.now table.old.rows.pages }
    requires stored { AreStored table.old }
    ensures assigned { AreAssigned xacts.now table.new.rows.pages }
    ensures stored { AreStored table.new }
{
    let old = table.current_row(alloc, i64::from(key), xacts, Some(xid))?;
    if let Some(old) = old {
        end(rt, table, xacts, old.tid, Some(xid));
    }
    if let Some(value) = value {
        let tuple = tuple_of(key, value);
        put(rt, alloc, table, xacts, xid, &tuple)?;
    }
    Ok(())
}

/// Makes one act of a transaction, as the plain store does.
fn act(
    rt: &impl Abort,
    alloc: Global,
    table: &mut Table,
    xacts: &mut XactTable,
    xid: u64,
    act: u8,
    value: u8,
) -> Result<(), Fail>
    requires assigned { AreAssigned xacts.old table.old.rows.pages }
    requires stored { AreStored table.old }
    ensures assigned { AreAssigned xacts.new table.new.rows.pages }
    ensures stored { AreStored table.new }
{
    match act {
        b'x' => change(rt, alloc, table, xacts, xid, 0, Some(value)),
        b'X' => change(rt, alloc, table, xacts, xid, 0, None),
        b'y' => change(rt, alloc, table, xacts, xid, 1, Some(value)),
        b'Y' => change(rt, alloc, table, xacts, xid, 1, None),
        b'+' | b'-' => {
            finish(rt, table, xacts, xid, act == b'+');
            Ok(())
        }
        _ => start(table, xacts, xid),
    }
}

/// Compares each world's row at a key with the plain store's.
fn compare(
    rt: &impl Abort,
    alloc: Global,
    table: &Table,
    xacts: &XactTable,
    shot: Option<&Shot>,
    plain: &Plain,
    key: u8,
) -> Result<(), Fail>
    requires assigned { AreAssigned xacts.now table.now.rows.pages }
    requires stored { AreStored table.now }
{
    let (at, key) = (usize::from(key), i64::from(key));
    let latest = found(alloc, table, xacts, None, key, None)?;
    assert!(rt; value_of(latest) == plain.latest.get(at).copied().flatten());
    if let Some(shot) = shot {
        let shown = found(alloc, table, xacts, Some(shot), key, None)?;
        assert!(rt; value_of(shown) == plain.base.get(at).copied().flatten());
    }
    for (changes, xid) in plain.changes.iter().zip(3..6) {
        if !xacts.running().contains(&xid) {
            continue;
        }
        let now = found(alloc, table, xacts, None, key, Some(xid))?;
        assert!(rt; value_of(now) == fold(changes, &plain.latest).get(at).copied().flatten());
        // What a transaction changes by its snapshot no other has changed since.
        if shot.is_some() && plain.since.get(at) == Some(&false) {
            let view = found(alloc, table, xacts, shot, key, Some(xid))?;
            assert!(rt; value_of(view) == fold(changes, &plain.base).get(at).copied().flatten());
        }
    }
    Ok(())
}

/// Makes the acts of a history, and compares all worlds after each.
fn run(rt: &impl Abort, alloc: Global, history: &[u8]) -> Result<(), Fail> {
    let mut xacts = XactTable::new(alloc);
    let mut table = empty(alloc, &xacts, &[Storage::External])?;
    let mut plain = Plain::new();
    let mut shot = None;
    let mut xid = 0;
    for (value, letter) in history.iter().enumerate() {
        let (letter, value) = (*letter, (value % 256) as u8);
        if letter.is_ascii_digit() {
            xid = u64::from(letter - b'0');
        }
        if letter == b's' {
            shot = Some(Shot::take(alloc, &xacts)?);
        }
        act(rt, alloc, &mut table, &mut xacts, xid, letter, value)?;
        plain.act((xid as usize).saturating_sub(3), letter, value);
        compare(rt, alloc, &table, &xacts, shot.as_ref(), &plain, 0)?;
        compare(rt, alloc, &table, &xacts, shot.as_ref(), &plain, 1)?;
    }
    Ok(())
}

#[test]
fn the_worlds_of_a_hundred_histories_are_the_plain_stores_maps(
    rt: HostRuntime,
) -> Result<(), Fail> {
    let alloc = rt.alloc();
    let mut count: u32 = 0;
    for line in HISTORIES {
        for history in line.as_bytes().split(|letter| *letter == b' ') {
            run(&rt, alloc, history)?;
            count = count.saturating_add(1);
        }
    }
    assert!(rt; count == 100);
    Ok(())
}
