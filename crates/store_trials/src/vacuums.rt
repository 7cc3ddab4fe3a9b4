//! Tests of vacuums: after an insert that stopped half-way, beside readers in every order of their steps,
//! and of rows.

ghost use Rattle.std.specs.Prelude.{◌≡◌, ◌≢◌, [], IfOk, IfSome, OnOk};
ghost use Rattle.xact_status.specs.Xacts.{Xacts, next_xid};
ghost use Rattle.chunk_relation.specs.Relations.{AreAssigned};
ghost use Rattle.row_versions.specs.Relations as rows;
ghost use Rattle.toast_store.specs.Walks.{CanStep, Walking};
ghost use Rattle.toast_vacuum.specs.Vacuums.{Vacuuming};
ghost use Rattle.toast_vacuum.specs.Holds.{IsHorizon, RowVacuumHolds, VacuumHolds};

use crate::saves::value_of;
use chunk_index::Entry;
use external_pointer::Pointer;
use row_versions::RowVersions;
use slice_fetch::Span;
use slot_page::{Tid, TidList};
use std::alloc::{AllocError, Global};
use std::process::Abort;
use std::test::Fail;
use toast_store::{Fetch, FetchFault, FetchStep, ToastStore};
use toast_vacuum::{Vacuum, VacuumStep};
use tuple_layout::{Bytes, Schema, Storage};
use xact_status::XactTable;

/// A value in the first of three leaves, one whose entries lie in all of them, and one in the last.
const NEAR: u32 = 16384;

const BETWEEN: u32 = 16385;

const FAR: u32 = 16386;

const NEAR_BYTES: [u8; 3] = [1, 2, 3];

const FAR_BYTES: [u8; 2] = [4, 5];

/// Transactions 3, which has aborted, and 4, which has committed.
fn two_over(rt: &impl Abort, alloc: Global) -> Result<XactTable, AllocError>
    ensures { IfOk result (λ xacts. next_xid xacts ≡ 5) }
{
    let mut xacts = XactTable::new(alloc);
    let aborted = xacts.assign(1)?;
    let committed = xacts.assign(2)?;
    assert!(rt; xacts.running().contains(&aborted));
    xacts.abort(aborted);
    assert!(rt; xacts.running().contains(&committed));
    let _number = xacts.commit(committed);
    assert_eq!(rt; xacts.next(), 5);
    Ok(xacts)
}

/// The xid that is given next, as the horizon of a vacuum that begins while no transaction runs.
fn horizon(rt: &impl Abort, xacts: &XactTable) -> u64
    ensures { IsHorizon xacts.now result }
{
    assert!(rt; xacts.running().is_empty());
    xacts.next()
}

/// Puts a chunk of a transaction and adds its entry.
fn put(
    rt: &impl Abort,
    store: &mut ToastStore,
    xacts: &XactTable,
    entry: (u32, u32),
    xid: u64,
    bytes: &[u8],
) -> Result<(), AllocError>
    requires { AreAssigned xacts.now store.old.rel.pages }
    ensures assigned { AreAssigned xacts.now store.new.rel.pages }
    ensures pins { store.new.index.pins ≡ store.old.index.pins }
{
    assert!(rt; !bytes.is_empty());
    assert!(rt; bytes.len() <= 1996);
    assert!(rt; 3 <= xid);
    assert!(rt; xid < xacts.next());
    let pages = store.rel().pages();
    let (value_id, seq) = entry;
    let tid = store.put_chunk(value_id, seq, xid, bytes)?;
    assert!(rt; tid.page <= pages);
    store.insert(Entry { value_id, seq, tid })
}

/// Puts the pieces of a value of at most 5.
fn save(
    rt: &impl Abort,
    store: &mut ToastStore,
    xacts: &XactTable,
    value_id: u32,
    xid: u64,
    value: &[u8],
) -> Result<(), AllocError>
    requires { AreAssigned xacts.now store.old.rel.pages }
    ensures assigned { AreAssigned xacts.now store.new.rel.pages }
    ensures pins { store.new.index.pins ≡ store.old.index.pins }
{
    let mut rest = value;
    for seq in 0..5 {
        let (piece, later) = rest.split_at(rest.len().min(1996));
        if piece.is_empty() {
            return Ok(());
        }
        put(rt, store, xacts, (value_id, seq), xid, piece)?;
        rest = later;
    }
    Ok(())
}

/// Prunes the one page of a store: how many slots that makes dead, and how many then are.
fn pruned(
    rt: &impl Abort,
    alloc: Global,
    store: &mut ToastStore,
    xacts: &XactTable,
) -> Result<(u32, usize), AllocError>
    requires { AreAssigned xacts.now store.old.rel.pages }
    ensures assigned { AreAssigned xacts.now store.new.rel.pages }
    ensures pins { store.new.index.pins ≡ store.old.index.pins }
{
    assert!(rt; store.rel().pages() == 1);
    let mut dead = TidList::new(alloc);
    let count = store.prune_page(0, xacts, xacts.next(), &mut dead)?;
    Ok((count, dead.len()))
}

/// A vacuum of a store before its first step.
fn begin(rt: &impl Abort, alloc: Global, store: &ToastStore, xacts: &XactTable) -> Vacuum
    ensures { VacuumHolds xacts.now store.now result }
{
    Vacuum::begin(alloc, store, horizon(rt, xacts))
}

/// Makes a step of a vacuum of a store.
fn step(
    rt: &impl Abort,
    store: &mut ToastStore,
    vacuum: &mut Vacuum,
    xacts: &XactTable,
) -> Result<VacuumStep, AllocError>
    requires assigned { AreAssigned xacts.now store.old.rel.pages }
    requires holds { VacuumHolds xacts.now store.old vacuum.old }
    ensures assigned { AreAssigned xacts.now store.new.rel.pages }
    ensures holds { VacuumHolds xacts.now store.new vacuum.new }
    ensures pins { store.new.index.pins ≡ store.old.index.pins }
{
    let pages = store.rel().pages();
    let answer = vacuum.step(store, xacts)?;
    assert!(rt; store.rel().pages() == pages);
    Ok(answer)
}

/// Makes at most so many steps of a vacuum of a store: how many it was that ended it, and how many slots it
/// had made dead, if it has ended.
fn run(
    rt: &impl Abort,
    store: &mut ToastStore,
    vacuum: &mut Vacuum,
    xacts: &XactTable,
    most: usize,
) -> Result<Option<(usize, u64)>, AllocError>
    requires assigned { AreAssigned xacts.now store.old.rel.pages }
    requires holds { VacuumHolds xacts.now store.old vacuum.old }
    ensures assigned { AreAssigned xacts.now store.new.rel.pages }
{
    for made in 0..most {
        match step(rt, store, vacuum, xacts)? {
            VacuumStep::More => {}
            VacuumStep::Pinned { .. } => return Ok(None),
            VacuumStep::Done { removed } => return Ok(Some((made + 1, removed))),
        }
    }
    Ok(None)
}

/// Vacuums a store that nobody reads.
fn vacuumed(
    rt: &impl Abort,
    alloc: Global,
    store: &mut ToastStore,
    xacts: &XactTable,
) -> Result<Option<(usize, u64)>, AllocError>
    requires { AreAssigned xacts.now store.old.rel.pages }
    ensures { AreAssigned xacts.now store.new.rel.pages }
{
    let mut vacuum = begin(rt, alloc, store, xacts);
    run(rt, store, &mut vacuum, xacts, 100)
}

/// The store of an insert that stopped half-way: one value has its chunks, and then there was no id for the
/// next one, so that transaction 3 aborted.
fn stopped(
    rt: &impl Abort,
    alloc: Global,
    xacts: &XactTable,
    value: &[u8],
) -> Result<ToastStore, AllocError>
    ensures { IfOk result (λ store. AreAssigned xacts.now store.rel.pages) }
{
    let mut store = ToastStore::new(alloc, 8193)?;
    save(rt, &mut store, xacts, NEAR, 3, value)?;
    Ok(store)
}

/// The bytes of the chunk at a slot of the first page, if there is one.
fn chunk(store: &ToastStore, slot: u16) -> Option<&[u8]> {
    let chunk = store.rel().chunk_at(Tid { page: 0, slot })?;
    Some(chunk.bytes)
}

#[test]
fn a_second_vacuum_ends_what_a_dropped_one_began(rt: HostRuntime) -> Result<(), Fail> {
    let alloc = rt.alloc();
    let xacts = two_over(&rt, alloc)?;
    let value = value_of(alloc, 2500)?;
    let value = value.as_slice();
    // After how many steps the first is dropped; the steps of the second, and the slots it makes dead.
    for (dropped, steps, removed) in [(0, 4, 2), (1, 4, 0), (2, 4, 0), (3, 2, 0), (4, 2, 0)] {
        let mut store = stopped(&rt, alloc, &xacts, value)?;
        let mut first = begin(&rt, alloc, &store, &xacts);
        let _ = run(&rt, &mut store, &mut first, &xacts, dropped)?;
        let second = vacuumed(&rt, alloc, &mut store, &xacts)?;
        assert!(rt; second == Some((steps, removed)));
        assert!(rt; pruned(&rt, alloc, &mut store, &xacts)? == (0, 0));
        assert!(rt; chunk(&store, 0).is_none() && chunk(&store, 1).is_none());
        assert!(rt; store.index().nth_of(NEAR, 0).is_none());
        // The id and the slots are there for the next insert.
        save(&rt, &mut store, &xacts, NEAR, 4, value)?;
        assert!(rt; chunk(&store, 0) == value.get(..1996));
        assert!(rt; chunk(&store, 1) == value.get(1996..));
    }
    Ok(())
}

/// A store of three leaves on one page. The first leaf has an entry of the near value that names a dead slot,
/// and one that names its chunk; the last has that of the far value's chunk; of the others each second one
/// names a chunk that was put by transaction 3.
fn three_leaves(rt: &impl Abort, alloc: Global, xacts: &XactTable) -> Result<ToastStore, AllocError>
    ensures assigned { IfOk result (λ store. AreAssigned xacts.now store.rel.pages) }
    ensures pins { IfOk result (λ store. store.index.pins ≡ []) }
{
    let mut store = ToastStore::new(alloc, 8193)?;
    save(rt, &mut store, xacts, NEAR, 3, &[9, 9])?;
    assert!(rt; pruned(rt, alloc, &mut store, xacts)? == (1, 1));
    save(rt, &mut store, xacts, NEAR, 4, &NEAR_BYTES)?;
    save(rt, &mut store, xacts, FAR, 4, &FAR_BYTES)?;
    for seq in 0..95u32 {
        put(
            rt,
            &mut store,
            xacts,
            (BETWEEN, seq),
            3 + u64::from(seq % 2),
            &[7],
        )?;
    }
    Ok(store)
}

/// The fetching of a whole value of a store that nobody reads yet.
fn reader(
    alloc: Global,
    store: &ToastStore,
    value_id: u32,
    size: u32,
    session: u16,
) -> Result<Fetch, AllocError>
    requires { store.now.index.pins ≡ [] }
    ensures { IfOk result (λ fetch. (fetch.walk.session ≡ session) × CanStep store.now.index fetch.walk) }
{
    let pointer = Pointer {
        size,
        value_id,
        toast_rel: store.rel().rel_id(),
    };
    let span = Span {
        start: 0,
        end: size,
    };
    Fetch::new(alloc, pointer, span, session)
}

/// A reader's turn: the next step of its fetch, if it has not ended yet, which it does with these bytes.
fn read(
    rt: &impl Abort,
    store: &mut ToastStore,
    reader: Option<Fetch>,
    session: u16,
    expected: &[u8],
) -> Result<Option<Fetch>, FetchFault>
    requires { IfSome reader (λ fetch. (fetch.walk.session ≡ session) × CanStep store.old.index fetch.walk) }
    ensures ready { IfOk result (λ left. IfSome left (λ fetch. (fetch.walk.session ≡ session) × CanStep store.new.index fetch.walk)) }
    ensures rel { OnOk result (store.new.rel ≡ store.old.rel) }
    ensures others { OnOk result ((walk : Walking) → walk.session ≢ session → CanStep store.old.index walk → CanStep store.new.index walk) }
    ensures holds { OnOk result ((xacts : Xacts) (v : Vacuuming) → VacuumHolds xacts store.old v → VacuumHolds xacts store.new v) }
{
    let Some(mut fetch) = reader else {
        return Ok(None);
    };
    match fetch.step(store)? {
        FetchStep::More => Ok(Some(fetch)),
        FetchStep::Done(bytes) => {
            assert!(rt; bytes.as_slice() == expected);
            Ok(None)
        }
    }
}

/// Whether an answer names no session, or one that is still reading.
fn names_a_reader(answer: VacuumStep, near: &Option<Fetch>, far: &Option<Fetch>) -> bool {
    match answer {
        VacuumStep::More | VacuumStep::Done { .. } => true,
        VacuumStep::Pinned { session } => {
            (session == 1 && near.is_some()) || (session == 2 && far.is_some())
        }
    }
}

/// Has a vacuum and two readers make their steps in an order of turns, and then the vacuum those that it has
/// left. A turn is the vacuum's, the near reader's or the far one's by 0, 1 and 2.
fn race(
    rt: &impl Abort,
    alloc: Global,
    xacts: &XactTable,
    turns: &[u32],
) -> Result<ToastStore, Fail>
    ensures { IfOk result (λ store. AreAssigned xacts.now store.rel.pages) }
{
    let mut store = three_leaves(rt, alloc, xacts)?;
    let mut vacuum = begin(rt, alloc, &store, xacts);
    let mut near = Some(reader(alloc, &store, NEAR, 3, 1)?);
    let mut far = Some(reader(alloc, &store, FAR, 2, 2)?);
    for turn in turns {
        match *turn {
            0 => {
                let answer = step(rt, &mut store, &mut vacuum, xacts)?;
                assert!(rt; names_a_reader(answer, &near, &far));
            }
            1 => near = read(rt, &mut store, near, 1, &NEAR_BYTES)?,
            _ => far = read(rt, &mut store, far, 2, &FAR_BYTES)?,
        }
    }
    assert!(rt; near.is_none() && far.is_none());
    let ended = run(rt, &mut store, &mut vacuum, xacts, 6)?;
    assert!(rt; ended.is_some_and(|(_, removed)| removed == 48));
    Ok(store)
}

/// Whose each of ten turns is, by the digits of a number to the base 3.
fn digits(number: u32) -> [u32; 10] {
    let mut rest = number;
    let mut turns = [0; 10];
    for turn in &mut turns {
        *turn = rest % 3;
        rest /= 3;
    }
    turns
}

/// Whether three of ten turns are the near reader's and two the far one's, which are the steps that they
/// have; the vacuum has five that change the store.
fn is_order(turns: &[u32]) -> bool {
    let count = |whose: u32| turns.iter().filter(|turn| **turn == whose).count();
    count(1) == 3 && count(2) == 2
}

/// Whether a value has so many entries, of which there is at least one.
fn has_entries(store: &ToastStore, value_id: u32, count: usize) -> bool {
    let last = store.index().nth_of(value_id, count.saturating_sub(1));
    last.is_some() && store.index().nth_of(value_id, count).is_none()
}

/// Whatever the order of the steps, each reader gets its value, and nothing that was dead is left.
#[test]
fn readers_and_a_vacuum_take_their_turns_in_every_order(rt: HostRuntime) -> Result<(), Fail> {
    let alloc = rt.alloc();
    let xacts = two_over(&rt, alloc)?;
    let mut orders: u32 = 0;
    for number in 0..59_049 {
        let turns = digits(number);
        if !is_order(&turns) {
            continue;
        }
        orders = orders.saturating_add(1);
        let mut store = race(&rt, alloc, &xacts, &turns)?;
        assert!(rt; pruned(&rt, alloc, &mut store, &xacts)? == (0, 0));
        assert!(rt; has_entries(&store, NEAR, 1) && has_entries(&store, FAR, 1));
        assert!(rt; has_entries(&store, BETWEEN, 47));
    }
    assert!(rt; orders == 2_520);
    Ok(())
}

/// A vacuum of rows before its first step.
fn begin_rows(rt: &impl Abort, alloc: Global, rel: &RowVersions, xacts: &XactTable) -> Vacuum
    ensures { RowVacuumHolds xacts.now rel.now result }
{
    Vacuum::begin(alloc, rel, horizon(rt, xacts))
}

/// Makes a step of a vacuum of rows.
fn step_rows(
    rel: &mut RowVersions,
    vacuum: &mut Vacuum,
    xacts: &XactTable,
) -> Result<VacuumStep, AllocError>
    requires assigned { rows.AreAssigned xacts.now rel.old.pages }
    requires holds { RowVacuumHolds xacts.now rel.old vacuum.old }
    ensures assigned { rows.AreAssigned xacts.now rel.new.pages }
    ensures holds { RowVacuumHolds xacts.now rel.new vacuum.new }
{
    let answer = vacuum.step(rel, xacts)?;
    Ok(answer)
}

/// A relation with two versions of a row: one of transaction 3, and one of transaction 4.
fn two_versions(alloc: Global, schema: Schema, xacts: &XactTable) -> Result<RowVersions, AllocError>
    requires { next_xid xacts.now ≡ 5 }
    ensures { IfOk result (λ rel. rows.AreAssigned xacts.now rel.pages) }
{
    let mut rel = RowVersions::new(alloc, schema);
    for xid in 3..5 {
        let tuple = vec![in alloc; 7; 24]?;
        let _ = rel.put_version(7, xid, Bytes::from_vec(tuple))?;
    }
    Ok(rel)
}

#[test]
fn the_version_of_an_aborted_transaction_goes(rt: HostRuntime) -> Result<(), Fail> {
    let alloc = rt.alloc();
    let xacts = two_over(&rt, alloc)?;
    let schema = Schema::new(alloc, &[Storage::Plain])?;
    let mut rel = two_versions(alloc, schema, &xacts)?;
    let old = rel.version_of(7, 0);
    let committed = rel.version_of(7, 1);
    assert!(rt; old.is_some() && committed.is_some());
    let mut vacuum = begin_rows(&rt, alloc, &rel, &xacts);
    // A page, the key map, and the page again.
    assert!(rt; step_rows(&mut rel, &mut vacuum, &xacts)? == VacuumStep::More);
    assert!(rt; step_rows(&mut rel, &mut vacuum, &xacts)? == VacuumStep::More);
    assert!(rt; step_rows(&mut rel, &mut vacuum, &xacts)? == VacuumStep::More);
    assert!(rt; step_rows(&mut rel, &mut vacuum, &xacts)? == VacuumStep::Done { removed: 1 });
    assert!(rt; rel.version_of(7, 0) == committed && rel.version_of(7, 1).is_none());
    let kept = committed.and_then(|tid| rel.version_at(tid));
    assert!(rt; kept.is_some_and(|version| version.inserter == 4));
    assert!(rt; old.is_some_and(|tid| rel.version_at(tid).is_none()));
    Ok(())
}
