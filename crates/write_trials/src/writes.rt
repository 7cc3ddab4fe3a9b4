//! Tests of writes, step by step: what each step changes, and that it changes nothing else.

ghost use Rattle.std.specs.Prelude.{◌≡◌, true};
ghost use Rattle.write_steps.specs.Writes.{parts_of};
ghost use Rattle.write_steps.specs.Standing.{WriteStands};

use crate::written::{
    Column, Counts, Desk, FIRST, Write, begin, cells_of, chunk_of, count, counted, has_logged,
    is_named, more, step,
};
use change_log::LogEntry;
use row_versions::RowVersions;
use slot_page::Tid;
use std::alloc::{AllocError, Global};
use std::process::Abort;
use std::test::Fail;
use tuple_layout::{CellList, Storage, Stored, read_tuple};
use value_ids::DrawFault;
use write_steps::WriteJob;

/// What a step does.
#[derive(Clone, Copy)]
enum Event<'a> {
    /// It draws an id, which shows in what comes next.
    Drawn,
    /// It puts the chunk of an id with a number, and logs it: so many bytes, which count up from this one.
    Put(u32, u32, usize, usize),
    /// It names the chunk of an id with a number in the index.
    Named(u32, u32),
    /// It puts the new version in a slot of the first page, ends the old one, if there is one, and logs the row.
    Made(u16, &'a [Column]),
    /// It ends the old version, and logs that the row is taken away.
    Removed,
    /// It asks for the entries of a dropped value.
    Asked,
    /// It ends the chunk of an id with a number.
    Ended(u32, u32),
    /// It is refused: each of so many ids is in use.
    Refused(u64),
}

/// A slot of the first page.
fn at(slot: u16) -> Tid {
    Tid { page: 0, slot }
}

/// How much there is after a step, by how much there was.
fn after(before: Counts, write: &Write<'_>, event: &Event<'_>) -> Counts {
    let mut counts = before;
    match event {
        Event::Drawn | Event::Asked | Event::Refused(_) => {}
        Event::Put(..) => {
            counts.chunks = more(before.chunks, true);
            counts.logged = before.logged.saturating_add(1);
        }
        Event::Named(..) => counts.named = more(before.named, true),
        Event::Made(..) => {
            counts.versions = more(before.versions, true);
            counts.passed = more(before.passed, write.old.is_some());
            counts.logged = before.logged.saturating_add(1);
        }
        Event::Removed => {
            counts.passed = more(before.passed, true);
            counts.logged = before.logged.saturating_add(1);
        }
        Event::Ended(..) => counts.ended = more(before.ended, true),
    }
    counts
}

/// Whether a chunk is there as a transaction has put it, and the log ends in it.
fn is_put(
    alloc: Global,
    desk: &Desk,
    xid: u64,
    (value_id, seq): (u32, u32),
    (len, first): (usize, usize),
) -> Result<bool, AllocError> {
    let Some(chunk) = chunk_of(&desk.toast, value_id, seq) else {
        return Ok(false);
    };
    let bytes = counted(alloc, len, first)?;
    let put = chunk.inserter == xid && chunk.ender.is_none() && chunk.bytes == bytes.as_slice();
    let entry = LogEntry::Chunk {
        xid,
        table: 1,
        value_id,
        seq,
        bytes,
    };
    Ok(put && has_logged(&desk.log, &entry))
}

/// Whether the chunk of an id with a number is ended by a transaction.
fn is_ended(desk: &Desk, xid: u64, value_id: u32, seq: u32) -> bool {
    match chunk_of(&desk.toast, value_id, seq) {
        Some(chunk) => chunk.ender == Some(xid),
        None => false,
    }
}

/// Whether the old version, if there is one, is ended by the write's transaction.
fn is_passed(desk: &Desk, write: &Write<'_>) -> bool {
    let Some(tid) = write.old else {
        return true;
    };
    match desk.rows.version_at(tid) {
        Some(version) => version.ender == Some(write.xid),
        None => false,
    }
}

/// Whether the version at a tid is the row as a transaction has put it.
fn is_version(
    alloc: Global,
    rows: &RowVersions,
    xid: u64,
    tid: Tid,
    row: &Stored,
) -> Result<bool, Fail> {
    let Some(version) = rows.version_at(tid) else {
        return Ok(false);
    };
    let stored = read_tuple(alloc, rows.schema(), version.tuple.as_slice())?;
    Ok(version.key == 1 && version.inserter == xid && version.ender.is_none() && stored == *row)
}

/// The log entry of a row that is put, or of one that is taken away.
fn entry_of(write: &Write<'_>, row: Option<CellList>) -> LogEntry {
    let (xid, table, key) = (write.xid, 1, 1);
    match (write.old, row) {
        (Some(_), Some(cells)) => LogEntry::Update {
            xid,
            table,
            from: key,
            to: key,
            cells,
        },
        (None, Some(cells)) => LogEntry::Insert {
            xid,
            table,
            key,
            cells,
        },
        (_, None) => LogEntry::Delete { xid, table, key },
    }
}

/// Whether the new row is put, the old version is ended, and the log ends in the row.
fn is_made(
    alloc: Global,
    desk: &Desk,
    write: &Write<'_>,
    tid: Tid,
    columns: &[Column],
) -> Result<bool, Fail> {
    let cells = cells_of(alloc, columns)?;
    let row = Stored { key: 1, cells };
    let put = is_version(alloc, &desk.rows, write.xid, tid, &row)?;
    let entry = entry_of(write, Some(row.cells));
    Ok(put && is_passed(desk, write) && has_logged(&desk.log, &entry))
}

/// Whether what a step has changed stands there.
fn is_there(
    alloc: Global,
    desk: &Desk,
    write: &Write<'_>,
    event: &Event<'_>,
) -> Result<bool, Fail> {
    match *event {
        Event::Drawn | Event::Asked | Event::Refused(_) => Ok(true),
        Event::Put(value_id, seq, len, first) => {
            let put = is_put(alloc, desk, write.xid, (value_id, seq), (len, first))?;
            Ok(put)
        }
        Event::Named(value_id, seq) => Ok(is_named(&desk.toast, value_id, seq)),
        Event::Made(slot, columns) => is_made(alloc, desk, write, at(slot), columns),
        Event::Removed => {
            Ok(is_passed(desk, write) && has_logged(&desk.log, &entry_of(write, None)))
        }
        Event::Ended(value_id, seq) => Ok(is_ended(desk, write.xid, value_id, seq)),
    }
}

/// Why a step is refused, if it is.
fn fault_of(event: &Event<'_>) -> Option<DrawFault> {
    match event {
        Event::Refused(in_use) => Some(DrawFault::NoValueId { in_use: *in_use }),
        _ => None,
    }
}

/// Makes the steps of a write, and compares what each changes with what is expected. A write whose last step
/// is not refused is over then.
fn run(
    rt: &impl Abort,
    alloc: Global,
    desk: &mut Desk,
    job: &mut WriteJob,
    write: &Write<'_>,
    events: &[Event<'_>],
) -> Result<(), Fail>
    requires { WriteStands (parts_of desk.old.rows desk.old.toast desk.old.ids desk.old.log) job.old }
{
    let mut more = true;
    let mut refused = None;
    for (n, event) in events.iter().enumerate() {
        assert!(rt; more, "no step {n} of transaction {}", write.xid);
        let before = count(desk);
        (more, refused) = step(desk, job);
        let as_expected = refused == fault_of(event)
            && count(desk) == after(before, write, event)
            && is_there(alloc, desk, write, event)?;
        assert!(rt; as_expected, "step {n} of transaction {}", write.xid);
    }
    assert!(rt;
        more == refused.is_some(),
        "the end of transaction {}",
        write.xid
    );
    Ok(())
}

/// Makes a write of a transaction that ends the version in a slot of the first page, if any, and puts a new
/// row, if any; compares what each of its steps changes with what is expected.
fn write(
    rt: &impl Abort,
    alloc: Global,
    desk: &mut Desk,
    xid: u64,
    old: Option<u16>,
    new: Option<&[Column]>,
    events: &[Event<'_>],
) -> Result<(), Fail> {
    let old = match old {
        Some(slot) => Some(at(slot)),
        None => None,
    };
    let write = Write { xid, old, new };
    let mut job = begin(rt, alloc, desk, &write)?;
    run(rt, alloc, desk, &mut job, &write, events)
}

/// A value of 2,500 bytes beside an inline one goes out.
const ONE_OUT: [Event<'static>; 6] = [
    Event::Drawn,
    Event::Put(FIRST, 0, 1996, 7),
    Event::Named(FIRST, 0),
    Event::Put(FIRST, 1, 504, 2003),
    Event::Named(FIRST, 1),
    Event::Made(0, &[Column::Out(2500, FIRST), Column::Value(1, 1)]),
];

/// The same bytes again are another value, and the old one is dropped.
const ONE_AGAIN: [Event<'static>; 9] = [
    Event::Drawn,
    Event::Put(FIRST + 1, 0, 1996, 7),
    Event::Named(FIRST + 1, 0),
    Event::Put(FIRST + 1, 1, 504, 2003),
    Event::Named(FIRST + 1, 1),
    Event::Made(2, &[Column::Out(2500, FIRST + 1), Column::Value(1, 2)]),
    Event::Asked,
    Event::Ended(FIRST, 0),
    Event::Ended(FIRST, 1),
];

#[test]
fn a_kept_pointer_is_not_saved_again(rt: HostRuntime) -> Result<(), Fail> {
    let alloc = rt.alloc();
    let mut desk = Desk::new(alloc, &[Storage::External, Storage::Plain], 9)?;
    let row = [Column::Value(2500, 7), Column::Value(1, 1)];
    write(&rt, alloc, &mut desk, 3, None, Some(&row), &ONE_OUT)?;
    let kept = [Column::Out(2500, FIRST), Column::Value(1, 2)];
    let made = [Event::Made(1, &kept)];
    write(&rt, alloc, &mut desk, 4, Some(0), Some(&kept), &made)?;
    let row = [Column::Value(2500, 7), Column::Value(1, 2)];
    write(&rt, alloc, &mut desk, 5, Some(1), Some(&row), &ONE_AGAIN)
}

/// Of values of 1,500 and 1,600 bytes the larger goes out.
const LARGER_OUT: [Event<'static>; 4] = [
    Event::Drawn,
    Event::Put(FIRST, 0, 1600, 0),
    Event::Named(FIRST, 0),
    Event::Made(0, &[Column::Value(1500, 0), Column::Out(1600, FIRST)]),
];

#[test]
fn what_fits_stays_where_it_is(rt: HostRuntime) -> Result<(), Fail> {
    let alloc = rt.alloc();
    let mut desk = Desk::new(alloc, &[Storage::External; 2], 9)?;
    let row = [Column::Value(1500, 0), Column::Value(1600, 0)];
    write(&rt, alloc, &mut desk, 3, None, Some(&row), &LARGER_OUT)?;
    let kept = [Column::Null, Column::Out(1600, FIRST)];
    let made = [Event::Made(1, &kept)];
    write(&rt, alloc, &mut desk, 4, Some(0), Some(&kept), &made)?;
    // The row as a rewrite leaves it, which takes the value in.
    let mut desk = Desk::new(alloc, &[Storage::External; 2], 9)?;
    let inline = [Column::Null, Column::Value(1600, 0)];
    let made = [Event::Made(0, &inline)];
    write(&rt, alloc, &mut desk, 5, None, Some(&inline), &made)?;
    let both = [Column::Value(1, 1), Column::Value(1600, 0)];
    let made = [Event::Made(1, &both)];
    write(&rt, alloc, &mut desk, 6, Some(0), Some(&both), &made)?;
    write(&rt, alloc, &mut desk, 7, Some(1), None, &[Event::Removed])
}

/// The first and the third value of a row go out, the larger first.
const TWO_OUT: [Event<'static>; 11] = [
    Event::Drawn,
    Event::Put(FIRST, 0, 1996, 0),
    Event::Named(FIRST, 0),
    Event::Put(FIRST, 1, 504, 1996),
    Event::Named(FIRST, 1),
    Event::Drawn,
    Event::Put(FIRST + 1, 0, 1996, 9),
    Event::Named(FIRST + 1, 0),
    Event::Put(FIRST + 1, 1, 104, 2005),
    Event::Named(FIRST + 1, 1),
    Event::Made(
        0,
        &[
            Column::Out(2500, FIRST),
            Column::Null,
            Column::Out(2100, FIRST + 1),
        ],
    ),
];

/// Of two new values of that row the second is the larger; of its two old ones the second is kept.
const TWO_OUT_ONE_DROPPED: [Event<'static>; 16] = [
    Event::Drawn,
    Event::Put(FIRST + 2, 0, 1996, 2),
    Event::Named(FIRST + 2, 0),
    Event::Put(FIRST + 2, 1, 1996, 1998),
    Event::Named(FIRST + 2, 1),
    Event::Put(FIRST + 2, 2, 8, 3994),
    Event::Named(FIRST + 2, 2),
    Event::Drawn,
    Event::Put(FIRST + 3, 0, 1996, 1),
    Event::Named(FIRST + 3, 0),
    Event::Put(FIRST + 3, 1, 4, 1997),
    Event::Named(FIRST + 3, 1),
    Event::Made(
        1,
        &[
            Column::Out(2000, FIRST + 3),
            Column::Out(4000, FIRST + 2),
            Column::Out(2100, FIRST + 1),
        ],
    ),
    Event::Asked,
    Event::Ended(FIRST, 0),
    Event::Ended(FIRST, 1),
];

#[test]
fn the_larger_value_goes_out_first(rt: HostRuntime) -> Result<(), Fail> {
    let alloc = rt.alloc();
    let mut desk = Desk::new(alloc, &[Storage::External; 3], 9)?;
    let row = [Column::Value(2500, 0), Column::Null, Column::Value(2100, 9)];
    write(&rt, alloc, &mut desk, 3, None, Some(&row), &TWO_OUT)?;
    let row = [
        Column::Value(2000, 1),
        Column::Value(4000, 2),
        Column::Out(2100, FIRST + 1),
    ];
    write(
        &rt,
        alloc,
        &mut desk,
        4,
        Some(0),
        Some(&row),
        &TWO_OUT_ONE_DROPPED,
    )
}

/// The first value takes the one id.
const ONE_ID: [Event<'static>; 7] = [
    Event::Drawn,
    Event::Put(FIRST, 0, 1996, 0),
    Event::Named(FIRST, 0),
    Event::Put(FIRST, 1, 504, 1996),
    Event::Named(FIRST, 1),
    Event::Refused(1),
    Event::Refused(1),
];

#[test]
fn a_refused_draw_leaves_all_as_before(rt: HostRuntime) -> Result<(), Fail> {
    let alloc = rt.alloc();
    let row = [Column::Value(2500, 0), Column::Value(2500, 1)];
    // The one id is in hand for another session.
    let mut desk = Desk::new(alloc, &[Storage::External; 2], 0)?;
    assert!(rt; desk.ids.draw(1, 2, &desk.toast)? == FIRST);
    let refused = [Event::Refused(1), Event::Refused(1)];
    write(&rt, alloc, &mut desk, 3, None, Some(&row), &refused)?;
    let mut desk = Desk::new(alloc, &[Storage::External; 2], 0)?;
    write(&rt, alloc, &mut desk, 3, None, Some(&row), &ONE_ID)
}

/// Both values of a row go out, the second first.
const BOTH_OUT: [Event<'static>; 13] = [
    Event::Drawn,
    Event::Put(FIRST, 0, 1996, 1),
    Event::Named(FIRST, 0),
    Event::Put(FIRST, 1, 1996, 1997),
    Event::Named(FIRST, 1),
    Event::Put(FIRST, 2, 8, 3993),
    Event::Named(FIRST, 2),
    Event::Drawn,
    Event::Put(FIRST + 1, 0, 1996, 0),
    Event::Named(FIRST + 1, 0),
    Event::Put(FIRST + 1, 1, 504, 1996),
    Event::Named(FIRST + 1, 1),
    Event::Made(0, &[Column::Out(2500, FIRST + 1), Column::Out(4000, FIRST)]),
];

/// They are dropped in the order of columns.
const BOTH_DROPPED: [Event<'static>; 8] = [
    Event::Removed,
    Event::Asked,
    Event::Ended(FIRST + 1, 0),
    Event::Ended(FIRST + 1, 1),
    Event::Asked,
    Event::Ended(FIRST, 0),
    Event::Ended(FIRST, 1),
    Event::Ended(FIRST, 2),
];

#[test]
fn a_delete_ends_every_chunk_of_its_row(rt: HostRuntime) -> Result<(), Fail> {
    let alloc = rt.alloc();
    let mut desk = Desk::new(alloc, &[Storage::External; 2], 9)?;
    let row = [Column::Value(2500, 0), Column::Value(4000, 1)];
    write(&rt, alloc, &mut desk, 3, None, Some(&row), &BOTH_OUT)?;
    write(&rt, alloc, &mut desk, 4, Some(0), None, &BOTH_DROPPED)
}
