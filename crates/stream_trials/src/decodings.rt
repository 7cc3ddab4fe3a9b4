ghost use Rattle.std.specs.Prelude.{◌≡◌, ◌≤◌, None, true, length, IfOk};
ghost use Rattle.stream_wire.specs.Spelling.{IsTable};
ghost use Rattle.decode_stream.specs.Decoding.{chunk_bytes};
ghost use Rattle.decode_stream.specs.States.{AreCells, Fits, IsDecodable, IsShortCell};

use decode_stream::{
    DecodeFault, Decoder, Log, LogEntry, Message, TransactionList, decode_all, decode_log,
};
use list_facts::ListOf;
use std::alloc::{AllocError, Global};
use std::process::Abort;
use std::test::Fail;
use std::thread::Threads;
use stream_wire::write_message;
use tuple_layout::{Bytes, Cell, CellList, Pointer};

/// A column of a row.
#[derive(Clone, Copy)]
enum Part<'a> {
    Null,
    In(&'a [u8]),
    /// The value with this id and size.
    Out(u32, u32),
}

/// An entry of the log, on table 1, with its xid first.
#[derive(Clone, Copy)]
enum Line<'a> {
    /// A value's id, a chunk's place and its bytes.
    Chunk(u64, u32, u32, &'a [u8]),
    Insert(u64, i64, &'a [Part<'a>]),
    Update(u64, i64, i64, &'a [Part<'a>]),
    Delete(u64, i64),
    Commit(u64),
    Abort(u64),
}

fn cells_of(alloc: Global, parts: &[Part]) -> Result<CellList, AllocError> {
    let mut cells = ListOf::new(alloc);
    for part in parts {
        cells.push(match part {
            Part::Null => Cell::Null,
            Part::In(value) => Cell::Inline(Bytes::from_slice(alloc, value)?),
            Part::Out(value_id, size) => Cell::Out(Pointer {
                size: *size,
                value_id: *value_id,
                toast_rel: 8193,
            }),
        })?;
    }
    Ok(cells)
}

fn entry_of(alloc: Global, line: &Line) -> Result<LogEntry, AllocError> {
    let table = 1;
    Ok(match *line {
        Line::Chunk(xid, value_id, seq, bytes) => LogEntry::Chunk {
            xid,
            table,
            value_id,
            seq,
            bytes: Bytes::from_slice(alloc, bytes)?,
        },
        Line::Insert(xid, key, parts) => LogEntry::Insert {
            xid,
            table,
            key,
            cells: cells_of(alloc, parts)?,
        },
        Line::Update(xid, from, to, parts) => LogEntry::Update {
            xid,
            table,
            from,
            to,
            cells: cells_of(alloc, parts)?,
        },
        Line::Delete(xid, key) => LogEntry::Delete { xid, table, key },
        Line::Commit(xid) => LogEntry::Commit { xid },
        Line::Abort(xid) => LogEntry::Abort { xid },
    })
}

fn is_table(table: u16) -> bool
    ensures { result ≡ true → IsTable table }
{
    table >= 1 && table <= 16
}

fn is_short(cell: &Cell) -> bool
    ensures { result ≡ true → IsShortCell cell.now }
{
    match cell {
        Cell::Null => true,
        Cell::Inline(value) => value.len() <= 65_536,
        Cell::Out(p) => p.size <= 65_536,
    }
}

fn are_cells(cells: &CellList) -> bool
    ensures { result ≡ true → AreCells cells.now }
{
    cells.len() >= 1 && cells.len() <= 8 && cells.as_slice().iter().all(is_short)
}

/// Whether an entry is within its ranges, and short.
fn is_small(e: &LogEntry) -> bool
    ensures ranged { result ≡ true → Fits (λ table value_id. None) e.now }
    ensures short { result ≡ true → length (chunk_bytes e.now) ≤ 1000 }
{
    match e {
        LogEntry::Chunk { table, bytes, .. } => is_table(*table) && bytes.len() <= 1000,
        LogEntry::Insert { table, cells, .. } | LogEntry::Update { table, cells, .. } => {
            is_table(*table) && are_cells(cells)
        }
        LogEntry::Delete { table, .. } => is_table(*table),
        _ => true,
    }
}

/// An entry that is within its ranges, and short.
fn small_of(rt: &impl Abort, alloc: Global, line: &Line) -> Result<LogEntry, AllocError>
    ensures ranged { IfOk result (λ e. Fits (λ table value_id. None) e) }
    ensures short { IfOk result (λ e. length (chunk_bytes e) ≤ 1000) }
{
    let e = entry_of(alloc, line)?;
    assert!(rt; is_small(&e));
    Ok(e)
}

/// The log of a few short entries.
fn logged(rt: &impl Abort, alloc: Global, lines: &[Line]) -> Result<Log, AllocError>
    ensures { IfOk result (λ log. IsDecodable log.entries) }
{
    let mut log = Log::new(alloc);
    for line in lines {
        let e = small_of(rt, alloc, line)?;
        assert!(rt; log.len() < 1000);
        log.append(e)?;
    }
    Ok(log)
}

/// The bytes of a stream of transactions.
fn stream_of(alloc: Global, sent: &TransactionList) -> Result<Bytes, AllocError> {
    let mut out = Bytes::new(alloc);
    for transaction in sent.as_slice() {
        let number = transaction.number();
        write_message(alloc, &Message::Begin { number }, &mut out)?;
        for change in transaction.changes() {
            write_message(alloc, change, &mut out)?;
        }
        write_message(alloc, &Message::Commit { number }, &mut out)?;
    }
    Ok(out)
}

fn sends<R: Abort + Threads + Sync>(
    rt: &R,
    alloc: Global,
    lines: &[Line],
    want: &[u8],
) -> Result<(), Fail> {
    let log = logged(rt, alloc, lines)?;
    let sent = decode_log(alloc, &log)?;
    assert!(rt; stream_of(alloc, &sent)?.as_slice() == want);
    for workers in [1, 2, 3, 64] {
        let sent = decode_all(rt, alloc, &log, workers)?;
        assert!(rt; stream_of(alloc, &sent)?.as_slice() == want);
    }
    Ok(())
}

fn refuses<R: Abort + Threads + Sync>(
    rt: &R,
    alloc: Global,
    lines: &[Line],
    want: DecodeFault,
) -> Result<(), AllocError> {
    let log = logged(rt, alloc, lines)?;
    assert!(rt; decode_log(alloc, &log).err() == Some(want));
    for workers in [1, 2, 3, 64] {
        assert!(rt; decode_all(rt, alloc, &log, workers).err() == Some(want));
    }
    Ok(())
}

#[test]
fn values_are_put_together(rt: HostRuntime) -> Result<(), Fail> {
    let alloc = rt.alloc();
    let small = [Line::Insert(3, 1, &[Part::In(&[1, 2, 3])]), Line::Commit(3)];
    let want = [
        0x42, 0, 0, 0, 1, 0x49, 0, 1, 0, 0, 0, 0, 0, 0, 0, 1, 0, 1, 0x62, 0, 0, 0, 3, 1, 2, 3,
        0x43, 0, 0, 0, 1,
    ];
    sends(&rt, alloc, &small, &want)?;
    // A value in two chunks; the next update keeps it, and another sets it to equal bytes.
    let kept = [
        Line::Chunk(3, 16384, 0, b"ab"),
        Line::Chunk(3, 16384, 1, b"c"),
        Line::Insert(3, 1, &[Part::Out(16384, 3), Part::In(&[1])]),
        Line::Commit(3),
        Line::Update(4, 1, 1, &[Part::Out(16384, 3), Part::In(&[2])]),
        Line::Commit(4),
        Line::Chunk(5, 16385, 0, b"abc"),
        Line::Update(5, 1, 1, &[Part::Out(16385, 3), Part::In(&[2])]),
        Line::Commit(5),
    ];
    let want = [
        0x42, 0, 0, 0, 1, 0x49, 0, 1, 0, 0, 0, 0, 0, 0, 0, 1, 0, 2, 0x62, 0, 0, 0, 3, 0x61, 0x62,
        0x63, 0x62, 0, 0, 0, 1, 1, 0x43, 0, 0, 0, 1, 0x42, 0, 0, 0, 2, 0x55, 0, 1, 0, 0, 0, 0, 0,
        0, 0, 1, 0, 2, 0x75, 0x62, 0, 0, 0, 1, 2, 0x43, 0, 0, 0, 2, 0x42, 0, 0, 0, 3, 0x55, 0, 1,
        0, 0, 0, 0, 0, 0, 0, 1, 0, 2, 0x62, 0, 0, 0, 3, 0x61, 0x62, 0x63, 0x62, 0, 0, 0, 1, 2,
        0x43, 0, 0, 0, 3,
    ];
    sends(&rt, alloc, &kept, &want)
}

#[test]
fn transactions_are_apart(rt: HostRuntime) -> Result<(), Fail> {
    let alloc = rt.alloc();
    let interleaved = [
        Line::Chunk(3, 16384, 0, b"x"),
        Line::Chunk(4, 16385, 0, b"y"),
        Line::Insert(4, 2, &[Part::Out(16385, 1)]),
        Line::Insert(3, 1, &[Part::Out(16384, 1)]),
        Line::Commit(4),
        Line::Commit(3),
    ];
    let want = [
        0x42, 0, 0, 0, 1, 0x49, 0, 1, 0, 0, 0, 0, 0, 0, 0, 2, 0, 1, 0x62, 0, 0, 0, 1, 0x79, 0x43,
        0, 0, 0, 1, 0x42, 0, 0, 0, 2, 0x49, 0, 1, 0, 0, 0, 0, 0, 0, 0, 1, 0, 1, 0x62, 0, 0, 0, 1,
        0x78, 0x43, 0, 0, 0, 2,
    ];
    sends(&rt, alloc, &interleaved, &want)?;
    // One is rolled back, two commit no change, and one does not end.
    let ended = [
        Line::Chunk(3, 16384, 0, b"x"),
        Line::Insert(3, 1, &[Part::Out(16384, 1)]),
        Line::Abort(3),
        Line::Commit(4),
        Line::Chunk(5, 16385, 0, b"y"),
        Line::Commit(5),
        Line::Delete(6, 7),
        Line::Insert(7, 2, &[Part::Null]),
        Line::Commit(7),
    ];
    let want = [
        0x42, 0, 0, 0, 1, 0x49, 0, 1, 0, 0, 0, 0, 0, 0, 0, 2, 0, 1, 0x6e, 0x43, 0, 0, 0, 1,
    ];
    sends(&rt, alloc, &ended, &want)
}

/// Nothing of a transaction is left behind its end, so its xid can stand for another.
#[test]
fn an_end_leaves_nothing(rt: HostRuntime) -> Result<(), Fail> {
    let alloc = rt.alloc();
    let rolled_back = [
        Line::Insert(3, 1, &[Part::In(b"x")]),
        Line::Chunk(3, 16384, 0, b"y"),
        Line::Abort(3),
        Line::Insert(3, 9, &[Part::Null]),
        Line::Commit(3),
    ];
    let want = [
        0x42, 0, 0, 0, 1, 0x49, 0, 1, 0, 0, 0, 0, 0, 0, 0, 9, 0, 1, 0x6e, 0x43, 0, 0, 0, 1,
    ];
    sends(&rt, alloc, &rolled_back, &want)?;
    let committed = [
        Line::Insert(7, 2, &[Part::Null]),
        Line::Chunk(7, 16384, 0, b"y"),
        Line::Commit(7),
        Line::Chunk(7, 16384, 0, b"z"),
        Line::Delete(7, 2),
        Line::Commit(7),
    ];
    let want = [
        0x42, 0, 0, 0, 1, 0x49, 0, 1, 0, 0, 0, 0, 0, 0, 0, 2, 0, 1, 0x6e, 0x43, 0, 0, 0, 1, 0x42,
        0, 0, 0, 2, 0x44, 0, 1, 0, 0, 0, 0, 0, 0, 0, 2, 0x43, 0, 0, 0, 2,
    ];
    sends(&rt, alloc, &committed, &want)
}

#[test]
fn columns_of_changes(rt: HostRuntime) -> Result<(), Fail> {
    let alloc = rt.alloc();
    // A value that the next change does not use is dropped.
    let dropped = [
        Line::Chunk(3, 16384, 0, b"x"),
        Line::Delete(3, 9),
        Line::Update(3, 1, 1, &[Part::Out(16384, 1)]),
        Line::Commit(3),
    ];
    let want = [
        0x42, 0, 0, 0, 1, 0x44, 0, 1, 0, 0, 0, 0, 0, 0, 0, 9, 0x55, 0, 1, 0, 0, 0, 0, 0, 0, 0, 1,
        0, 1, 0x75, 0x43, 0, 0, 0, 1,
    ];
    sends(&rt, alloc, &dropped, &want)?;
    // A move, and two columns of one value.
    let moved = [
        Line::Update(3, 1, -5, &[Part::Out(16384, 1)]),
        Line::Chunk(3, 16385, 0, b"x"),
        Line::Insert(3, 2, &[Part::Out(16385, 1), Part::Out(16385, 1)]),
        Line::Commit(3),
    ];
    let want = [
        0x42, 0, 0, 0, 1, 0x4b, 0, 1, 0, 0, 0, 0, 0, 0, 0, 1, 0xff, 0xff, 0xff, 0xff, 0xff, 0xff,
        0xff, 0xfb, 0, 1, 0x75, 0x49, 0, 1, 0, 0, 0, 0, 0, 0, 0, 2, 0, 2, 0x62, 0, 0, 0, 1, 0x78,
        0x62, 0, 0, 0, 1, 0x78, 0x43, 0, 0, 0, 1,
    ];
    sends(&rt, alloc, &moved, &want)
}

/// The sessions of "Logical Decoding Examples", with each data as its row's only column: a table is
/// made, which changes no row; two rows in one transaction; two rows in one of their own each; a row
/// that is prepared and then committed; and one that is prepared and then rolled back. Our log has no
/// prepare.
#[test]
fn the_sessions_of_logical_decoding_examples(rt: HostRuntime) -> Result<(), Fail> {
    let lines = [
        Line::Commit(10297),
        Line::Insert(10298, 1, &[Part::In(b"1")]),
        Line::Insert(10298, 2, &[Part::In(b"2")]),
        Line::Commit(10298),
        Line::Insert(10299, 3, &[Part::In(b"3")]),
        Line::Commit(10299),
        Line::Insert(10300, 4, &[Part::In(b"4")]),
        Line::Commit(10300),
        Line::Insert(10301, 5, &[Part::In(b"5")]),
        Line::Commit(10301),
        Line::Insert(10302, 6, &[Part::In(b"6")]),
        Line::Abort(10302),
    ];
    let want = [
        0x42, 0, 0, 0, 1, 0x49, 0, 1, 0, 0, 0, 0, 0, 0, 0, 1, 0, 1, 0x62, 0, 0, 0, 1, 0x31, 0x49,
        0, 1, 0, 0, 0, 0, 0, 0, 0, 2, 0, 1, 0x62, 0, 0, 0, 1, 0x32, 0x43, 0, 0, 0, 1, 0x42, 0, 0,
        0, 2, 0x49, 0, 1, 0, 0, 0, 0, 0, 0, 0, 3, 0, 1, 0x62, 0, 0, 0, 1, 0x33, 0x43, 0, 0, 0, 2,
        0x42, 0, 0, 0, 3, 0x49, 0, 1, 0, 0, 0, 0, 0, 0, 0, 4, 0, 1, 0x62, 0, 0, 0, 1, 0x34, 0x43,
        0, 0, 0, 3, 0x42, 0, 0, 0, 4, 0x49, 0, 1, 0, 0, 0, 0, 0, 0, 0, 5, 0, 1, 0x62, 0, 0, 0, 1,
        0x35, 0x43, 0, 0, 0, 4,
    ];
    sends(&rt, rt.alloc(), &lines, &want)
}

/// The first example of the page of `test_decoding`, with its ids as keys: two rows are inserted, and
/// then deleted in another transaction.
#[test]
fn the_example_of_test_decoding(rt: HostRuntime) -> Result<(), Fail> {
    let lines = [
        Line::Insert(691, 2, &[Part::In(b"arg")]),
        Line::Insert(691, 3, &[Part::In(b"demo")]),
        Line::Commit(691),
        Line::Delete(692, 2),
        Line::Delete(692, 3),
        Line::Commit(692),
    ];
    let want = [
        0x42, 0, 0, 0, 1, 0x49, 0, 1, 0, 0, 0, 0, 0, 0, 0, 2, 0, 1, 0x62, 0, 0, 0, 3, 0x61, 0x72,
        0x67, 0x49, 0, 1, 0, 0, 0, 0, 0, 0, 0, 3, 0, 1, 0x62, 0, 0, 0, 4, 0x64, 0x65, 0x6d, 0x6f,
        0x43, 0, 0, 0, 1, 0x42, 0, 0, 0, 2, 0x44, 0, 1, 0, 0, 0, 0, 0, 0, 0, 2, 0x44, 0, 1, 0, 0,
        0, 0, 0, 0, 0, 3, 0x43, 0, 0, 0, 2,
    ];
    sends(&rt, rt.alloc(), &lines, &want)
}

#[test]
fn the_first_fault(rt: HostRuntime) -> Result<(), AllocError> {
    let alloc = rt.alloc();
    let order = DecodeFault::ChunkOrder { got: 0, wanted: 1 };
    let twice = [
        Line::Chunk(3, 16384, 0, b"a"),
        Line::Chunk(3, 16384, 0, b"a"),
    ];
    refuses(&rt, alloc, &twice, order)?;
    // It stands in a transaction that does not end, before another's.
    let size = DecodeFault::SizeOf { got: 2, wanted: 3 };
    let several = [
        Line::Insert(5, 1, &[Part::Null]),
        Line::Commit(5),
        Line::Chunk(4, 16384, 0, b"ab"),
        Line::Insert(4, 1, &[Part::Out(16384, 3), Part::Out(16384, 1)]),
        Line::Chunk(3, 16385, 7, b"a"),
        Line::Commit(3),
    ];
    refuses(&rt, alloc, &several, size)
}

#[test]
fn a_fault_is_answered_again(rt: HostRuntime) -> Result<(), AllocError> {
    let alloc = rt.alloc();
    let mut decoder = Decoder::new(alloc)?;
    let chunk = small_of(&rt, alloc, &Line::Chunk(3, 16384, 1, &[0xaa]))?;
    let fault = Some(DecodeFault::ChunkOrder { got: 1, wanted: 0 });
    assert!(rt; decoder.feed(&chunk).err() == fault);
    assert!(rt; decoder.given() == 0);
    assert!(rt; decoder.feed(&LogEntry::Commit { xid: 4 }).err() == fault);
    Ok(())
}

#[test]
fn a_fault_after_a_transaction(rt: HostRuntime) -> Result<(), Fail> {
    let alloc = rt.alloc();
    let mut decoder = Decoder::new(alloc)?;
    let insert = small_of(&rt, alloc, &Line::Insert(3, 1, &[Part::Null]))?;
    let chunk = small_of(&rt, alloc, &Line::Chunk(4, 16384, 1, &[0xaa]))?;
    assert!(rt; decoder.feed(&insert)?.is_none());
    assert!(rt; decoder.given() == 0);
    let Some(transaction) = decoder.feed(&LogEntry::Commit { xid: 3 })? else {
        return Err(Fail::new("no transaction"));
    };
    assert!(rt; transaction.number() == 1);
    assert!(rt; decoder.given() == 1);
    let fault = Some(DecodeFault::ChunkOrder { got: 1, wanted: 0 });
    assert!(rt; decoder.feed(&chunk).err() == fault);
    assert!(rt; decoder.given() == 1);
    assert!(rt; decoder.feed(&LogEntry::Abort { xid: 3 }).err() == fault);
    assert!(rt; decoder.given() == 1);
    Ok(())
}
