//! Tests of reads: of rows, of parts of their columns and of kept values, and of one value between the events
//! of other sessions.

ghost use Rattle.std.specs.Prelude.{◌≡◌, IfOk, IsSome, None, OnOk, length};
ghost use Rattle.xact_status.specs.Xacts.{Xacts};
ghost use Rattle.chunk_index.specs.Pinned.{pin_of};
ghost use Rattle.toast_store.specs.Between.{Pins};
ghost use Rattle.toast_store.specs.Fetches.{new_fetch};
ghost use Rattle.read_steps.specs.Columns.{IsWithin, LiesIn};
ghost use Rattle.read_steps.specs.Reads.{CanRead, Reading, bytes_of, reply_of, row_of, value_of};
ghost use Rattle.read_steps.specs.declared.stage.ReadStage.{ReadStage};
ghost use Rattle.read_trials.specs.Readers.{AreAlive, AreGiven, IsLaid, IsReader, PassesBy};

use chunk_index::{Entry, Swept};
use command_set::{Reply, Row};
use external_pointer::Pointer;
use read_steps::{Held, ReadJob, ReadStep, Wanted};
use slice_fetch::{BadOffset, Span, slice_span};
use slot_page::{Tid, TidList};
use std::alloc::{AllocError, Global};
use std::process::Abort;
use std::test::Fail;
use toast_store::{Fetch, FetchFault, FetchStep, ToastStore};
use tuple_layout::{Bytes, Cell, CellList, Stored};
use xact_status::XactTable;

/// Who reads.
const SESSION: u16 = 5;

/// The first value's id; the others count on from it.
const FIRST: u32 = 16384;

/// A pointer to the value with this number.
fn pointer(number: u32, size: u32) -> Pointer {
    Pointer {
        size,
        value_id: FIRST.saturating_add(number),
        toast_rel: 8193,
    }
}

/// The bytes of the value with this number: no two of its pieces are the same, nor two values.
fn value_of(alloc: Global, number: u32, len: u32) -> Result<Bytes, AllocError>
    ensures { IfOk result (λ value. length value ≡ len) }
{
    let mut value = Bytes::new(alloc);
    for at in 0..len {
        value.push(((u64::from(at) + u64::from(number)) % 251) as u8)?;
    }
    Ok(value)
}

/// Puts a chunk of transaction 3 and adds its entry.
fn put(
    rt: &impl Abort,
    store: &mut ToastStore,
    value_id: u32,
    seq: u32,
    bytes: &[u8],
) -> Result<(), AllocError>
    ensures { OnOk result ((xacts : Xacts) → AreGiven xacts → AreAlive xacts 16385 store.old → AreAlive xacts 16385 store.new) }
{
    assert!(rt; !bytes.is_empty());
    assert!(rt; bytes.len() <= 1996);
    let pages = store.rel().pages();
    let tid = store.put_chunk(value_id, seq, 3, bytes)?;
    assert!(rt; tid.page <= pages);
    store.insert(Entry { value_id, seq, tid })?;
    Ok(())
}

/// Puts the pieces of a value of at most 5.
fn save(
    rt: &impl Abort,
    store: &mut ToastStore,
    value_id: u32,
    value: &[u8],
) -> Result<(), AllocError>
    ensures { OnOk result ((xacts : Xacts) → AreGiven xacts → AreAlive xacts 16385 store.old → AreAlive xacts 16385 store.new) }
{
    let mut rest = value;
    for seq in 0..5 {
        let (piece, later) = rest.split_at(rest.len().min(1996));
        if piece.is_empty() {
            return Ok(());
        }
        put(rt, store, value_id, seq, piece)?;
        rest = later;
    }
    Ok(())
}

/// Drops the reader's pin, if it has one.
fn unpin(store: &mut ToastStore)
    ensures free { pin_of store.new.index.pins 5 ≡ None }
    ensures same { Pins store.old store.new }
{
    store.unpin(SESSION);
}

/// Fetches a span of a value, which is there if that goes well. The reader then has nothing pinned.
fn find(alloc: Global, store: &mut ToastStore, p: Pointer, span: Span) -> Result<(), FetchFault>
    requires { IsWithin span p.size }
    ensures there { OnOk result (IsSome (bytes_of store.new (new_fetch p span 5))) }
    ensures free { OnOk result (pin_of store.new.index.pins 5 ≡ None) }
    ensures same { OnOk result (Pins store.old store.new) }
{
    unpin(store);
    let mut fetch = Fetch::new(alloc, p, span, SESSION)?;
    loop {
        match fetch.step(store)? {
            FetchStep::More => {}
            FetchStep::Done(_) => break,
        }
    }
    unpin(store);
    Ok(())
}

/// Sees that a span lies in a column's value, and that its bytes are there.
fn find_part(
    rt: &impl Abort,
    alloc: Global,
    store: &mut ToastStore,
    cell: &Cell,
    span: Span,
) -> Result<(), FetchFault>
    ensures lies { OnOk result (LiesIn span cell.now) }
    ensures can { OnOk result (CanRead store.new (record { session = 5; stage = ReadStage.Part cell.now span })) }
    ensures comes { OnOk result (IsSome (reply_of store.new (record { session = 5; stage = ReadStage.Part cell.now span }))) }
{
    assert!(rt; span.start <= span.end);
    match cell {
        Cell::Null => {}
        Cell::Inline(value) => assert!(rt; span.end as usize <= value.len()),
        Cell::Out(p) => {
            assert!(rt; span.end <= p.size);
            find(alloc, store, *p, span)?;
        }
    }
    Ok(())
}

/// Sees that a column's value is there, where it is out of line.
fn find_value(alloc: Global, store: &mut ToastStore, cell: &Cell) -> Result<(), FetchFault>
    ensures there { OnOk result (IsSome (value_of store.new 5 cell.now)) }
    ensures free { OnOk result (pin_of store.new.index.pins 5 ≡ None) }
    ensures same { OnOk result (Pins store.old store.new) }
{
    unpin(store);
    match cell {
        Cell::Null | Cell::Inline(_) => {}
        Cell::Out(p) => {
            let span = Span {
                start: 0,
                end: p.size,
            };
            find(alloc, store, *p, span)?;
        }
    }
    Ok(())
}

/// Sees that each value of a row that is out of line is there.
fn find_row(alloc: Global, store: &mut ToastStore, cells: &[Cell]) -> Result<(), FetchFault>
    ensures free { OnOk result (pin_of store.new.index.pins 5 ≡ None) }
    ensures comes { OnOk result (IsSome (row_of store.new 5 cells.now)) }
{
    unpin(store);
    for cell in cells {
        find_value(alloc, store, cell)?;
    }
    Ok(())
}

/// Takes a read to its end over a store that stays as it is between its steps: its reply, and how many steps
/// it takes. Each of them needs the store, or the only one does not.
fn finish(
    rt: &impl Abort,
    mut read: ReadJob,
    store: &mut ToastStore,
) -> Result<(Reply, u32), AllocError>
    requires can { CanRead store.old read }
    requires comes { IsSome (reply_of store.old read) }
{
    let mut steps: u32 = 0;
    let needs = read.needs_store();
    loop {
        assert!(rt; read.needs_store() == needs);
        steps = steps.saturating_add(1);
        if let ReadStep::Done(reply) = read.step(store)? {
            assert!(rt; needs == (steps > 1));
            assert!(rt; !read.needs_store());
            return Ok((reply, steps));
        }
    }
}

/// How many bytes the values out of line have, by their numbers.
const SIZES: [u32; 6] = [0, 21, 1996, 1997, 3992, 5000];

/// The value that a letter names: - is null, e is empty, s has the most bytes that stand under a short header
/// and l one more; these are in line. A digit is the number of a value out of line.
fn value(alloc: Global, letter: u8) -> Result<Option<Bytes>, AllocError> {
    match letter {
        b'e' => Ok(Some(Bytes::new(alloc))),
        b's' => Ok(Some(value_of(alloc, 7, 126)?)),
        b'l' => Ok(Some(value_of(alloc, 8, 127)?)),
        b'0'..=b'5' => {
            let number = letter - b'0';
            Ok(Some(value_of(alloc, u32::from(number), SIZES[usize::from(number)])?))
        }
        _ => Ok(None),
    }
}

/// The cell of the value that a letter names.
fn cell(alloc: Global, letter: u8) -> Result<Cell, AllocError> {
    if let b'0'..=b'5' = letter {
        let number = letter - b'0';
        return Ok(Cell::Out(pointer(u32::from(number), SIZES[usize::from(number)])));
    }
    Ok(match value(alloc, letter)? {
        None => Cell::Null,
        Some(bytes) => Cell::Inline(bytes),
    })
}

/// The cells of a row of such letters.
fn cells(alloc: Global, letters: &[u8]) -> Result<CellList, AllocError> {
    let mut cells = CellList::new(alloc);
    for letter in letters {
        cells.push(cell(alloc, *letter)?)?;
    }
    Ok(cells)
}

/// Its values.
fn values(alloc: Global, letters: &[u8]) -> Result<Row, AllocError> {
    let mut row = Row::new(alloc);
    for letter in letters {
        row.push(value(alloc, *letter)?)?;
    }
    Ok(row)
}

/// A store with each of the values out of line.
fn six_values(rt: &impl Abort, alloc: Global) -> Result<ToastStore, AllocError> {
    let mut store = ToastStore::new(alloc, 8193)?;
    for number in 0..6 {
        let value = value_of(alloc, number, SIZES[number as usize])?;
        save(rt, &mut store, FIRST + number, value.as_slice())?;
    }
    Ok(store)
}

/// Reads a row: its reply, and how many steps that takes.
fn read_row(
    rt: &impl Abort,
    alloc: Global,
    store: &mut ToastStore,
    letters: &[u8],
) -> Result<(Reply, u32), Fail> {
    let cells = cells(alloc, letters)?;
    find_row(alloc, store, cells.as_slice())?;
    let read = ReadJob::start(alloc, Stored { key: -7, cells }, Wanted::Row, SESSION);
    Ok(finish(rt, read, store)?)
}

#[test]
fn a_row_is_read_by_a_step_for_each_batch_and_each_piece(rt: HostRuntime) -> Result<(), Fail> {
    let alloc = rt.alloc();
    let mut store = six_values(&rt, alloc)?;
    let rows = [
        ("-", 1),
        ("e", 1),
        ("0", 1),
        ("sl-e0", 1),
        ("1", 2),
        ("2", 2),
        ("3", 3),
        ("4", 3),
        ("5", 4),
        ("-sl5", 4),
        ("5ls-", 4),
        ("s-5-0s", 4),
        ("1-5s3e", 9),
        ("5315", 13),
        ("e0015l0", 6),
        ("00000005", 4),
        ("12345", 14),
        ("55555555", 32),
    ];
    for (letters, steps) in rows {
        let letters = letters.as_bytes();
        let row = values(alloc, letters)?;
        let reply = Reply::Row { key: -7, row };
        assert!(rt; read_row(&rt, alloc, &mut store, letters)? == (reply, steps));
    }
    Ok(())
}

/// The span of a slice of a value; a null is taken to be empty.
fn slice_of(
    rt: &impl Abort,
    value: Option<&Bytes>,
    offset: i32,
    length: i32,
) -> Result<Span, BadOffset> {
    let size = match value {
        None => 0,
        Some(value) => value.len(),
    };
    assert!(rt; size <= 65536);
    slice_span(size as u32, offset, length)
}

/// The reply of a span's bytes.
fn bytes_reply(
    rt: &impl Abort,
    alloc: Global,
    value: &[u8],
    span: Span,
) -> Result<Reply, AllocError> {
    let (start, end) = (span.start as usize, span.end as usize);
    assert!(rt; start <= end && end <= value.len());
    Ok(Reply::Bytes(Bytes::from_slice(alloc, &value[start..end])?))
}

/// The columns of which parts are read.
const COLUMNS: &[u8] = b"-es5l031";

/// Reads a part of a row's column that a letter names: the reply, and how many steps that takes.
fn read_part(
    rt: &impl Abort,
    alloc: Global,
    store: &mut ToastStore,
    letter: u8,
    span: Span,
) -> Result<(Reply, u32), Fail> {
    let cells = cells(alloc, COLUMNS)?;
    let at = COLUMNS.iter().take_while(|other| **other != letter).count();
    assert!(rt; at < cells.len());
    find_part(rt, alloc, store, &cells.as_slice()[at], span)?;
    let column = at as u16 + 1;
    let wanted = Wanted::Part { column, span };
    let read = ReadJob::start(alloc, Stored { key: -7, cells }, wanted, SESSION);
    Ok(finish(rt, read, store)?)
}

/// Reads the same of that value as a handle keeps it, if it is not null.
fn read_held(
    rt: &impl Abort,
    alloc: Global,
    store: &mut ToastStore,
    letter: u8,
    span: Span,
) -> Result<(Reply, u32), Fail> {
    let cell = cell(alloc, letter)?;
    find_part(rt, alloc, store, &cell, span)?;
    let held = match cell {
        Cell::Null => return Ok((Reply::Null, 1)),
        Cell::Inline(value) => Held::Inline(value),
        Cell::Out(p) => Held::Out(p),
    };
    let read = ReadJob::held(alloc, &held, span, SESSION)?;
    Ok(finish(rt, read, store)?)
}

#[test]
fn a_part_is_its_span_of_the_column_or_of_the_kept_value(rt: HostRuntime) -> Result<(), Fail> {
    let alloc = rt.alloc();
    let mut store = six_values(&rt, alloc)?;
    // The column, the slice's offset and length, the bytes that this names, and the steps.
    let parts = [
        (b'-', 0, -1, 0, 0, 1),
        (b'e', 0, -1, 0, 0, 1),
        (b'e', 3, 2, 0, 0, 1),
        (b's', 0, -1, 0, 126, 1),
        (b's', 5, 10, 5, 15, 1),
        (b's', 120, 10, 120, 126, 1),
        (b's', 126, 1, 126, 126, 1),
        (b's', 7, 0, 7, 7, 1),
        (b'l', 126, 1, 126, 127, 1),
        (b'l', 200, 5, 127, 127, 1),
        (b'0', 0, -1, 0, 0, 1),
        (b'1', 20, 9, 20, 21, 2),
        (b'1', 21, 1, 21, 21, 1),
        (b'3', 0, -1, 0, 1997, 3),
        (b'3', 1996, 1, 1996, 1997, 2),
        (b'3', 1996, 0, 1996, 1996, 1),
        (b'5', 0, -1, 0, 5000, 4),
        (b'5', 1995, 2, 1995, 1997, 3),
        (b'5', 1996, 1996, 1996, 3992, 2),
        (b'5', 4999, i32::MAX, 4999, 5000, 2),
        (b'5', 6000, 1, 5000, 5000, 1),
    ];
    for (letter, offset, length, start, end, steps) in parts {
        let span = Span { start, end };
        let whole = value(alloc, letter)?;
        assert!(rt; slice_of(&rt, whole.as_ref(), offset, length) == Ok(span));
        let reply = match &whole {
            None => Reply::Null,
            Some(whole) => bytes_reply(&rt, alloc, whole.as_slice(), span)?,
        };
        let expected = (reply, steps);
        assert!(rt; read_part(&rt, alloc, &mut store, letter, span)? == expected);
        assert!(rt; read_held(&rt, alloc, &mut store, letter, span)? == expected);
    }
    Ok(())
}

/// The value that is read between others' events, in five pieces, and one on either side of it.
const LOWER: u32 = 16384;

const VALUE: u32 = 16385;

const UPPER: u32 = 16386;

/// What others do between the steps of a read: a chunk of another value is put, its entry is added, the chunk
/// is ended, and its page is pruned and its leaf swept, one of these at a time.
#[derive(Drop)]
struct Others {
    turn: u32,
    /// The chunk that was put last, and of which value.
    value_id: u32,
    tid: Tid,
    /// It has no entry yet.
    laid: Option<Tid>,
    /// How many sweeps of its leaf took entries away, and how many found the reader's pin.
    swept: u32,
    pinned: u32,
}

/// Puts a chunk of another value, on either side in turn.
fn put_other(
    rt: &impl Abort,
    store: &mut ToastStore,
    xacts: &XactTable,
    others: &mut Others,
    bytes: &[u8],
) -> Result<(), AllocError>
    requires given { AreGiven xacts.now }
    requires alive { AreAlive xacts.now 16385 store.old }
    ensures passes { OnOk result (PassesBy xacts.now 16385 store.old store.new) }
    ensures laid { OnOk result (IsLaid store.new others.new.value_id others.new.laid) }
{
    assert!(rt; !bytes.is_empty());
    assert!(rt; bytes.len() <= 1996);
    let value_id = if others.value_id == LOWER {
        UPPER
    } else {
        LOWER
    };
    let pages = store.rel().pages();
    let tid = store.put_chunk(value_id, 99, 3, bytes)?;
    assert!(rt; tid.page <= pages);
    others.value_id = value_id;
    others.tid = tid;
    others.laid = Some(tid);
    Ok(())
}

/// Adds its entry.
fn add_other(
    rt: &impl Abort,
    store: &mut ToastStore,
    xacts: &XactTable,
    others: &mut Others,
) -> Result<(), AllocError>
    requires alive { AreAlive xacts.now 16385 store.old }
    requires laid { IsLaid store.old others.old.value_id others.old.laid }
    ensures passes { OnOk result (PassesBy xacts.now 16385 store.old store.new) }
    ensures laid { OnOk result (others.new.laid ≡ None) }
{
    let value_id = others.value_id;
    assert!(rt; value_id != VALUE);
    if let Some(tid) = others.laid.take() {
        store.insert(Entry {
            value_id,
            seq: 99,
            tid,
        })?;
    }
    Ok(())
}

/// Ends it by transaction 4.
fn end_other(rt: &impl Abort, store: &mut ToastStore, xacts: &XactTable, tid: Tid)
    requires given { AreGiven xacts.now }
    requires alive { AreAlive xacts.now 16385 store.old }
    ensures { PassesBy xacts.now 16385 store.old store.new }
{
    let chunk = store.rel().chunk_at(tid).expect(rt, "it was put");
    assert!(rt; chunk.value_id != VALUE);
    store.set_ender(tid, 4);
}

/// Prunes its page, and sweeps the leaf of its entry.
fn sweep_other(
    rt: &impl Abort,
    alloc: Global,
    store: &mut ToastStore,
    xacts: &XactTable,
    value_id: u32,
    tid: Tid,
) -> Result<Swept, AllocError>
    requires alive { AreAlive xacts.now 16385 store.old }
    ensures { OnOk result (PassesBy xacts.now 16385 store.old store.new) }
{
    assert!(rt; tid.page < store.rel().pages());
    let mut dead = TidList::new(alloc);
    let _count = store.prune_page(tid.page, xacts, 5, &mut dead)?;
    let from = Entry {
        value_id,
        seq: 99,
        tid,
    };
    Ok(store.sweep_leaf(Some(from), &dead))
}

/// Counts what became of a sweep: where the reader has the leaf pinned it is to wait.
fn count(rt: &impl Abort, swept: Swept, others: &mut Others)
    ensures { others.new.laid ≡ others.old.laid }
{
    match swept {
        Swept::Pinned { holder } => {
            assert!(rt; holder == SESSION);
            others.pinned = others.pinned.saturating_add(1);
        }
        Swept::Next { removed, .. } | Swept::End { removed } => {
            assert!(rt; removed > 0);
            others.swept = others.swept.saturating_add(1);
        }
    }
}

/// Makes the next of these events.
fn disturb(
    rt: &impl Abort,
    alloc: Global,
    store: &mut ToastStore,
    xacts: &XactTable,
    others: &mut Others,
) -> Result<(), AllocError>
    requires given { AreGiven xacts.now }
    requires alive { AreAlive xacts.now 16385 store.old }
    requires laid { IsLaid store.old others.old.value_id others.old.laid }
    ensures passes { OnOk result (PassesBy xacts.now 16385 store.old store.new) }
    ensures laid { OnOk result (IsLaid store.new others.new.value_id others.new.laid) }
{
    let turn = others.turn;
    others.turn = turn.wrapping_add(1);
    match turn % 4 {
        0 => put_other(rt, store, xacts, others, &[1, 2, 3])?,
        1 => add_other(rt, store, xacts, others)?,
        2 => {
            assert!(rt; others.laid.is_none());
            end_other(rt, store, xacts, others.tid);
        }
        _ => {
            assert!(rt; others.laid.is_none());
            let swept = sweep_other(rt, alloc, store, xacts, others.value_id, others.tid)?;
            count(rt, swept, others);
        }
    }
    Ok(())
}

/// Takes a read to its end, with an event of others between any two steps: its reply, and how many steps.
fn finish_between(
    rt: &impl Abort,
    alloc: Global,
    store: &mut ToastStore,
    xacts: &XactTable,
    others: &mut Others,
    mut read: ReadJob,
) -> Result<(Reply, u32), AllocError>
    requires given { AreGiven xacts.now }
    requires alive { AreAlive xacts.now 16385 store.old }
    requires laid { IsLaid store.old others.old.value_id others.old.laid }
    requires reader { IsReader 16385 store.old read }
    ensures alive { OnOk result (AreAlive xacts.now 16385 store.new) }
    ensures laid { OnOk result (IsLaid store.new others.new.value_id others.new.laid) }
{
    for step in 1..9 {
        match read.step(store)? {
            ReadStep::More => {
                assert!(rt; read.needs_store());
                disturb(rt, alloc, store, xacts, others)?;
            }
            ReadStep::Done(reply) => {
                assert!(rt; !read.needs_store());
                return Ok((reply, step));
            }
        }
    }
    assert!(rt; false);
    Err(AllocError)
}

/// The steps of the read of a span: one for each piece, and one for each batch. The first three pieces have
/// their entries in one leaf, the other two in the next.
fn steps_of(start: u32, end: u32) -> u32 {
    if start >= end {
        return 1;
    }
    let (first, last) = (start / 1996, (end - 1) / 1996);
    let batches = if first < 3 && last >= 3 { 2 } else { 1 };
    last - first + 1 + batches
}

/// Reads the bytes of the value from one place up to another: the reply, and how many steps that takes.
fn read_between(
    rt: &impl Abort,
    alloc: Global,
    store: &mut ToastStore,
    xacts: &XactTable,
    others: &mut Others,
    span: Span,
) -> Result<(Reply, u32), FetchFault>
    requires given { AreGiven xacts.now }
    requires alive { AreAlive xacts.now 16385 store.old }
    requires laid { IsLaid store.old others.old.value_id others.old.laid }
    ensures alive { OnOk result (AreAlive xacts.now 16385 store.new) }
    ensures laid { OnOk result (IsLaid store.new others.new.value_id others.new.laid) }
{
    assert!(rt; span.start <= span.end && span.end <= 9980);
    let p = Pointer {
        size: 9980,
        value_id: VALUE,
        toast_rel: 8193,
    };
    find(alloc, store, p, span)?;
    let read = ReadJob::held(alloc, &Held::Out(p), span, SESSION)?;
    let got = finish_between(rt, alloc, store, xacts, others, read)?;
    Ok(got)
}

/// Reads the spans from the first of some places in the value, in order, up to each of them.
fn read_to_each(
    rt: &impl Abort,
    alloc: Global,
    store: &mut ToastStore,
    xacts: &XactTable,
    others: &mut Others,
    value: &[u8],
    places: &[u32],
) -> Result<(), FetchFault>
    requires given { AreGiven xacts.now }
    requires alive { AreAlive xacts.now 16385 store.old }
    requires laid { IsLaid store.old others.old.value_id others.old.laid }
    ensures alive { OnOk result (AreAlive xacts.now 16385 store.new) }
    ensures laid { OnOk result (IsLaid store.new others.new.value_id others.new.laid) }
{
    let Some(start) = places.first().copied() else {
        return Ok(());
    };
    for end in places {
        let span = Span { start, end: *end };
        let expected = (bytes_reply(rt, alloc, value, span)?, steps_of(start, *end));
        let got = read_between(rt, alloc, store, xacts, others, span)?;
        assert!(rt; got == expected);
    }
    Ok(())
}

/// Reads each span between two places in the value.
fn read_from_each(
    rt: &impl Abort,
    alloc: Global,
    store: &mut ToastStore,
    xacts: &XactTable,
    others: &mut Others,
    value: &[u8],
    places: &[u32],
) -> Result<(), FetchFault>
    requires given { AreGiven xacts.now }
    requires alive { AreAlive xacts.now 16385 store.old }
    requires laid { IsLaid store.old others.old.value_id others.old.laid }
{
    for first in 0..places.len() {
        read_to_each(rt, alloc, store, xacts, others, value, &places[first..])?;
    }
    Ok(())
}

/// A store with a value of five pieces, and on either side of it so many chunks of another that the first leaf
/// has three of its entries and the second two.
fn two_leaves(rt: &impl Abort, alloc: Global, value: &[u8]) -> Result<ToastStore, AllocError>
    ensures { IfOk result (λ store. (xacts : Xacts) → AreGiven xacts → AreAlive xacts 16385 store) }
{
    let mut store = ToastStore::new(alloc, 8193)?;
    save(rt, &mut store, VALUE, value)?;
    for seq in 0..30 {
        put(rt, &mut store, LOWER, seq, &[1])?;
        put(rt, &mut store, UPPER, seq, &[1])?;
    }
    Ok(store)
}

/// Transactions 3 and 4, which have committed.
fn two_committed(rt: &impl Abort, alloc: Global) -> Result<XactTable, AllocError>
    ensures { IfOk result AreGiven }
{
    let mut xacts = XactTable::new(alloc);
    for session in 1..3 {
        let xid = xacts.assign(session)?;
        assert!(rt; xacts.running().contains(&xid));
        let _number = xacts.commit(xid);
    }
    assert!(rt; xacts.next() == 5);
    assert!(rt; !xacts.has_aborted(3));
    Ok(xacts)
}

#[test]
fn a_read_is_not_disturbed_by_the_events_of_others(rt: HostRuntime) -> Result<(), Fail> {
    let alloc = rt.alloc();
    let xacts = two_committed(&rt, alloc)?;
    let value = value_of(alloc, 1, 9980)?;
    let value = value.as_slice();
    let mut store = two_leaves(&rt, alloc, value)?;
    let mut others = Others {
        turn: 0,
        value_id: LOWER,
        tid: Tid { page: 0, slot: 0 },
        laid: None,
        swept: 0,
        pinned: 0,
    };
    let edges: [u32; 16] = [
        0, 1, 1995, 1996, 1997, 3991, 3992, 3993, 5987, 5988, 5989, 7983, 7984, 7985, 9979, 9980,
    ];
    read_from_each(&rt, alloc, &mut store, &xacts, &mut others, value, &edges)?;
    // So there were sweeps while the reader had the leaf pinned, and while it had not.
    assert!(rt; others.swept > 30 && others.pinned > 30);
    Ok(())
}
