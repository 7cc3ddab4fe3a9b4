//! What a write works on, and what is there after each of its steps.

ghost use Rattle.std.specs.Prelude.{◌≡◌, None, IfOk, true};
ghost use Rattle.std.specs.List.{All};
ghost use Rattle.tuple_layout.specs.Tuples.{IsWithinLimits};
ghost use Rattle.slot_page.specs.Slots.{IsNormal};
ghost use Rattle.slot_page.specs.Pages.{slot_of};
ghost use Rattle.chunk_index.specs.Pinned.{pin_of};
ghost use Rattle.write_steps.specs.Writes.{parts_of};
ghost use Rattle.write_steps.specs.Standing.{IsOldThere, WriteStands};

use change_log::{Log, LogEntry};
use chunk_relation::ChunkView;
use row_versions::RowVersions;
use slot_page::Tid;
use std::alloc::{AllocError, Global};
use std::process::Abort;
use std::test::Fail;
use toast_store::ToastStore;
use tuple_layout::{Bytes, Cell, CellList, Pointer, Schema, Storage, Stored, read_tuple};
use tuple_toaster::{OutColumns, TUPLE_TARGET, plan};
use value_ids::{DrawFault, IdPool};
use write_steps::{OldRow, WriteJob, WriteStep};

/// The first id of each pool here.
pub(crate) const FIRST: u32 = 16384;

/// A column of a row.
#[derive(Clone, Copy)]
pub(crate) enum Column {
    Null,
    /// A value of so many bytes, which count up from this one.
    Value(usize, usize),
    /// The pointer of a value of this size under this id.
    Out(u32, u32),
}

/// So many bytes, which count up from a first one and begin anew after 250.
pub(crate) fn counted(alloc: Global, len: usize, first: usize) -> Result<Bytes, AllocError> {
    let mut bytes = Bytes::new(alloc);
    for at in 0..len {
        bytes.push((first.wrapping_add(at) % 251) as u8)?;
    }
    Ok(bytes)
}

/// What stands in a column.
fn cell_of(alloc: Global, column: Column) -> Result<Cell, AllocError> {
    match column {
        Column::Null => Ok(Cell::Null),
        Column::Value(len, first) => Ok(Cell::Inline(counted(alloc, len, first)?)),
        Column::Out(size, value_id) => Ok(Cell::Out(Pointer {
            size,
            value_id,
            toast_rel: 8193,
        })),
    }
}

/// What stands in the columns of a row.
pub(crate) fn cells_of(alloc: Global, columns: &[Column]) -> Result<CellList, AllocError> {
    let mut cells = CellList::new(alloc);
    for column in columns {
        cells.push(cell_of(alloc, *column)?)?;
    }
    Ok(cells)
}

/// Whether a cell is within limits.
fn is_within(cell: &Cell) -> bool
    ensures { result ≡ true → IsWithinLimits cell.now }
{
    match cell {
        Cell::Null => true,
        Cell::Inline(value) => value.len() <= 65_536,
        Cell::Out(pointer) => pointer.size <= 1_073_741_819,
    }
}

/// Whether each cell of a row is within limits.
fn are_within(cells: &[Cell]) -> bool
    ensures { result ≡ true → All IsWithinLimits cells.now }
{
    for cell in cells {
        if !is_within(cell) {
            return false;
        }
    }
    true
}

/// What a write works on: the rows of table 1, its values out of line, the ids and the log.
#[derive(Drop)]
pub(crate) struct Desk {
    pub(crate) rows: RowVersions,
    pub(crate) toast: ToastStore,
    pub(crate) ids: IdPool,
    pub(crate) log: Log,
}

impl Desk {
    /// A table of these columns with no row, and ids of which so many follow the first.
    pub(crate) fn new(alloc: Global, storages: &[Storage], more: u8) -> Result<Desk, Fail> {
        Ok(Desk {
            rows: RowVersions::new(alloc, Schema::new(alloc, storages)?),
            toast: ToastStore::new(alloc, 8193)?,
            ids: IdPool::new(alloc, FIRST, FIRST + u32::from(more)),
            log: Log::new(alloc),
        })
    }
}

/// A write of the row at the key 1, by session 1: in which transaction, the version that it ends, if any,
/// and the new row, if any.
#[derive(Clone, Copy)]
pub(crate) struct Write<'a> {
    pub(crate) xid: u64,
    pub(crate) old: Option<Tid>,
    pub(crate) new: Option<&'a [Column]>,
}

/// The version at a tid, if one is given, as a write ends it.
fn old_row(
    rt: &impl Abort,
    alloc: Global,
    rows: &RowVersions,
    tid: Option<Tid>,
) -> Result<Option<OldRow>, Fail>
    ensures { IfOk result (IsOldThere rows.now) }
{
    let Some(tid) = tid else {
        return Ok(None);
    };
    let Some(version) = rows.version_at(tid) else {
        panic!(rt; "no version to end")
    };
    let stored = read_tuple(alloc, rows.schema(), version.tuple.as_slice())?;
    Ok(Some(OldRow { tid, stored }))
}

/// The write of a new row, by the columns that the toaster chooses.
fn putting(
    rt: &impl Abort,
    alloc: Global,
    desk: &Desk,
    xid: u64,
    old: Option<OldRow>,
    columns: &[Column],
) -> Result<WriteJob, Fail>
    requires there { IsOldThere desk.now.rows old }
    requires free { pin_of desk.now.toast.index.pins 1 ≡ None }
    ensures { IfOk result (WriteStands (parts_of desk.now.rows desk.now.toast desk.now.ids desk.now.log)) }
{
    let cells = cells_of(alloc, columns)?;
    assert!(rt; cells.len() == desk.rows.schema().storages().len());
    assert!(rt; are_within(cells.as_slice()));
    let plan = plan(desk.rows.schema(), cells.as_slice(), TUPLE_TARGET)?;
    let new = Stored { key: 1, cells };
    Ok(WriteJob::start(alloc, 1, 1, xid, old, Some(new), plan))
}

/// The write that takes a row away.
fn removing(alloc: Global, desk: &Desk, xid: u64, old: OldRow) -> WriteJob
    requires there { IsNormal (slot_of desk.now.rows.pages old.tid) }
    requires free { pin_of desk.now.toast.index.pins 1 ≡ None }
    ensures { WriteStands (parts_of desk.now.rows desk.now.toast desk.now.ids desk.now.log) result }
{
    WriteJob::start(alloc, 1, 1, xid, Some(old), None, OutColumns::new())
}

/// The session gives up the ids that it has in hand, and its pin, as at the end of a statement.
fn give_up(desk: &mut Desk)
    ensures { pin_of desk.new.toast.index.pins 1 ≡ None }
{
    desk.ids.release(1);
    desk.toast.unpin(1);
}

/// A write before its first step.
pub(crate) fn begin(
    rt: &impl Abort,
    alloc: Global,
    desk: &mut Desk,
    write: &Write<'_>,
) -> Result<WriteJob, Fail>
    ensures { IfOk result (WriteStands (parts_of desk.new.rows desk.new.toast desk.new.ids desk.new.log)) }
{
    give_up(desk);
    match (old_row(rt, alloc, &desk.rows, write.old)?, write.new) {
        (old, Some(columns)) => putting(rt, alloc, desk, write.xid, old, columns),
        (Some(old), None) => Ok(removing(alloc, desk, write.xid, old)),
        (None, None) => Err(Fail::new("a write of no row")),
    }
}

/// Makes a step of a write; answers whether steps are left, and why it was refused, if it was.
pub(crate) fn step(desk: &mut Desk, job: &mut WriteJob) -> (bool, Option<DrawFault>)
    requires { WriteStands (parts_of desk.old.rows desk.old.toast desk.old.ids desk.old.log) job.old }
    ensures { result.0 ≡ true → WriteStands (parts_of desk.new.rows desk.new.toast desk.new.ids desk.new.log) job.new }
{
    let answer = job.step(
        &mut desk.rows,
        &mut desk.toast,
        &mut desk.ids,
        &mut desk.log,
    );
    match answer {
        Ok(WriteStep::More) => (true, None),
        Ok(WriteStep::Done) => (false, None),
        Err(fault) => (true, Some(fault)),
    }
}

/// How much there is of each kind.
#[derive(Clone, Copy, PartialEq, Eq)]
pub(crate) struct Counts {
    pub(crate) chunks: u32,
    /// Of the chunks, those that the index names, and those that have an ender.
    pub(crate) named: u32,
    pub(crate) ended: u32,
    pub(crate) versions: u32,
    /// Of the versions, those that have an ender.
    pub(crate) passed: u32,
    pub(crate) logged: usize,
}

/// One more, where a thing is so.
pub(crate) fn more(count: u32, so: bool) -> u32 {
    count.saturating_add(u32::from(so))
}

/// One of the places where a test's chunks and versions stand.
fn place(n: u64) -> Tid {
    Tid {
        page: n / 16,
        slot: (n % 16) as u16,
    }
}

/// Whether the index names the chunk of an id with a number at a tid.
fn is_named_at(toast: &ToastStore, value_id: u32, seq: u32, tid: Tid) -> bool {
    match toast.index().nth_of(value_id, seq as usize) {
        Some(entry) => entry.seq == seq && entry.tid == tid,
        None => false,
    }
}

/// Counts what stands at a place, too.
fn count_at(desk: &Desk, tid: Tid, counts: &mut Counts) {
    if let Some(chunk) = desk.toast.rel().chunk_at(tid) {
        let named = is_named_at(&desk.toast, chunk.value_id, chunk.seq, tid);
        counts.chunks = more(counts.chunks, true);
        counts.named = more(counts.named, named);
        counts.ended = more(counts.ended, chunk.ender.is_some());
    }
    if let Some(version) = desk.rows.version_at(tid) {
        counts.versions = more(counts.versions, true);
        counts.passed = more(counts.passed, version.ender.is_some());
    }
}

/// How much there is.
pub(crate) fn count(desk: &Desk) -> Counts {
    let mut counts = Counts {
        chunks: 0,
        named: 0,
        ended: 0,
        versions: 0,
        passed: 0,
        logged: desk.log.len(),
    };
    for n in 0..160 {
        count_at(desk, place(n), &mut counts);
    }
    counts
}

/// The chunk of an id with a number, if it is there.
pub(crate) fn chunk_of(toast: &ToastStore, value_id: u32, seq: u32) -> Option<ChunkView<'_>> {
    for n in 0..160 {
        match toast.rel().chunk_at(place(n)) {
            Some(chunk) if chunk.value_id == value_id && chunk.seq == seq => return Some(chunk),
            _ => {}
        }
    }
    None
}

/// Whether the index names a chunk of an id with a number.
pub(crate) fn is_named(toast: &ToastStore, value_id: u32, seq: u32) -> bool {
    let Some(entry) = toast.index().nth_of(value_id, seq as usize) else {
        return false;
    };
    match toast.rel().chunk_at(entry.tid) {
        Some(chunk) => entry.seq == seq && chunk.value_id == value_id && chunk.seq == seq,
        None => false,
    }
}

/// Whether the log ends in an entry.
pub(crate) fn has_logged(log: &Log, entry: &LogEntry) -> bool {
    log.at(log.len().saturating_sub(1)) == Some(entry)
}
