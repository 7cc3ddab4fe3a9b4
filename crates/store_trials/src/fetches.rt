//! Tests of fetches and marks.

ghost use Rattle.std.specs.Prelude.{◌≡◌, ◌≤◌, IfErr, IfOk, if◌then◌else◌, is_some};
ghost use Rattle.std.specs.List.Sorted.{IsSorted};
ghost use Rattle.slot_page.specs.Tids.{tid_cmp};
ghost use Rattle.xact_status.specs.Xacts.{IsAssigned, Xacts, next_xid};
ghost use Rattle.slot_page.specs.Pages.{item_in};
ghost use Rattle.chunk_relation.specs.Relations.{AreAssigned, with_ended};
ghost use Rattle.toast_store.specs.Stores.{IsStore};
ghost use Rattle.toast_store.specs.Walks.{CanStep};
ghost use Rattle.toast_store.specs.Fetches.{IsFetchCause, outcome};

use crate::saves::value_of;
use chunk_index::{Entry, Swept};
use external_pointer::Pointer;
use slice_fetch::Span;
use slot_page::{Tid, TidList};
use std::alloc::{AllocError, Global};
use std::process::Abort;
use std::test::Fail;
use toast_store::{Fetch, FetchFault, FetchStep, Mark, MarkStep, ToastStore};
use tuple_layout::Bytes;
use xact_status::XactTable;

/// The value that is fetched and marked, and one beside it.
pub(crate) const VALUE: u32 = 16384;

const OTHER: u32 = 16385;

/// Who fetches and marks.
const SESSION: u16 = 5;

/// The transaction that marks.
pub(crate) const MARKER: u64 = 9;

/// A pointer to a value of this many bytes.
fn pointer(value_id: u32, size: u32) -> Pointer {
    Pointer {
        size,
        value_id,
        toast_rel: 8193,
    }
}

/// Puts a chunk of transaction 3 and adds its entry; answers its tid.
fn put(
    rt: &impl Abort,
    store: &mut ToastStore,
    value_id: u32,
    seq: u32,
    bytes: &[u8],
) -> Result<Tid, AllocError>
    ensures pins { store.new.index.pins ≡ store.old.index.pins }
    ensures assigned { (xacts : Xacts) → IsAssigned xacts 3 → AreAssigned xacts store.old.rel.pages → AreAssigned xacts store.new.rel.pages }
{
    assert!(rt; !bytes.is_empty());
    assert!(rt; bytes.len() <= 1996);
    let pages = store.rel().pages();
    let tid = store.put_chunk(value_id, seq, 3, bytes)?;
    assert!(rt; tid.page <= pages);
    store.insert(Entry { value_id, seq, tid })?;
    Ok(tid)
}

/// Puts the pieces of a value of at most 5.
fn save(
    rt: &impl Abort,
    store: &mut ToastStore,
    value_id: u32,
    value: &[u8],
) -> Result<(), AllocError>
    ensures { (xacts : Xacts) → IsAssigned xacts 3 → AreAssigned xacts store.old.rel.pages → AreAssigned xacts store.new.rel.pages }
{
    let mut rest = value;
    for seq in 0..5 {
        let (piece, later) = rest.split_at(rest.len().min(1996));
        if piece.is_empty() {
            return Ok(());
        }
        let _ = put(rt, store, value_id, seq, piece)?;
        rest = later;
    }
    Ok(())
}

/// Takes a fetch to its end over a store that stays as it is between its steps, and counts these.
fn finish(mut fetch: Fetch, store: &mut ToastStore, steps: &mut usize) -> Result<Bytes, FetchFault>
    requires { CanStep store.old.index fetch.walk }
    ensures bytes { IfOk result (λ bytes. outcome store.old fetch ≡ Ok bytes) }
    ensures fault { IfErr result (IsFetchCause (outcome store.old fetch)) }
{
    loop {
        *steps = steps.saturating_add(1);
        match fetch.step(store)? {
            FetchStep::More => {}
            FetchStep::Done(bytes) => return Ok(bytes),
        }
    }
}

/// A fetch of the bytes of a value from one place up to another, by a session that gives up what it had pinned.
fn begin(
    rt: &impl Abort,
    alloc: Global,
    store: &mut ToastStore,
    p: Pointer,
    start: u32,
    end: u32,
) -> Result<Fetch, AllocError>
    ensures ready { IfOk result (λ fetch. CanStep store.new.index fetch.walk) }
    ensures rel { store.new.rel ≡ store.old.rel }
{
    assert!(rt; start <= end);
    assert!(rt; end <= p.size);
    store.unpin(SESSION);
    let fetch = Fetch::new(alloc, p, Span { start, end }, SESSION)?;
    Ok(fetch)
}

/// The bytes of a value from one place up to another, or what its chunks lack of them.
pub(crate) fn fetched(
    rt: &impl Abort,
    alloc: Global,
    store: &mut ToastStore,
    p: Pointer,
    start: u32,
    end: u32,
) -> Result<Bytes, FetchFault> {
    let fetch = begin(rt, alloc, store, p, start, end)?;
    finish(fetch, store, &mut 0)
}

/// Fetches what lies between the first of some places in a value, in order, and each of them.
fn fetch_to_each(
    rt: &impl Abort,
    alloc: Global,
    store: &mut ToastStore,
    value: &[u8],
    places: &[u32],
) -> Result<(), FetchFault> {
    let Some(start) = places.first().copied() else {
        return Ok(());
    };
    for end in places {
        let bytes = fetched(rt, alloc, store, pointer(VALUE, 8001), start, *end)?;
        assert!(rt; Some(bytes.as_slice()) == value.get(start as usize..*end as usize));
    }
    Ok(())
}

#[test]
fn a_span_between_any_edges_of_five_pieces_is_fetched(rt: HostRuntime) -> Result<(), Fail> {
    let alloc = rt.alloc();
    let mut store = ToastStore::new(alloc, 8193)?;
    let value = value_of(alloc, 8001)?;
    save(&rt, &mut store, VALUE, value.as_slice())?;
    let edges: [u32; 16] = [
        0, 1, 1995, 1996, 1997, 3991, 3992, 3993, 5987, 5988, 5989, 7983, 7984, 7985, 8000, 8001,
    ];
    for first in 0..edges.len() {
        fetch_to_each(&rt, alloc, &mut store, value.as_slice(), &edges[first..])?;
    }
    Ok(())
}

/// What becomes of fetching a span of a value of so many bytes that has these chunks, each a number and so
/// many bytes, and after how many steps.
fn fault_of(
    rt: &impl Abort,
    alloc: Global,
    size: u32,
    chunks: &[(u32, usize)],
    start: u32,
    end: u32,
) -> Result<(usize, Option<FetchFault>), AllocError> {
    let mut store = ToastStore::new(alloc, 8193)?;
    for (seq, len) in chunks {
        let bytes = value_of(alloc, *len)?;
        let _ = put(rt, &mut store, VALUE, *seq, bytes.as_slice())?;
    }
    let mut steps = 0;
    let fetch = begin(rt, alloc, &mut store, pointer(VALUE, size), start, end)?;
    let fault = finish(fetch, &mut store, &mut steps).err();
    let swept = store.sweep_leaf(None, &one(alloc, Tid { page: 9, slot: 9 })?);
    assert!(rt; swept == Swept::End { removed: 0 });
    Ok((steps, fault))
}

/// A list of one tid.
fn one(alloc: Global, tid: Tid) -> Result<TidList, AllocError>
    ensures { IfOk result (IsSorted tid_cmp) }
{
    TidList::from_slice(alloc, &[tid])
}

#[test]
fn the_first_fault_is_told_in_its_step_and_the_pin_dropped(rt: HostRuntime) -> Result<(), Fail> {
    let alloc = rt.alloc();
    let missing = |seq| Some(FetchFault::MissingChunk { seq });
    let unexpected = |got, wanted| Some(FetchFault::UnexpectedChunk { got, wanted });
    let size = |got, wanted| Some(FetchFault::ChunkSize { got, wanted });
    let all: &[(u32, usize)] = &[(0, 1996), (1, 1996), (2, 1008)];
    let three: &[(u32, usize)] = &[(0, 10), (1, 1996), (2, 1008)];
    let twice: &[(u32, usize)] = &[(0, 1996), (0, 1996), (1, 1996)];
    let over: &[(u32, usize)] = &[(0, 1996), (1, 1996), (1, 1996)];
    let short: &[(u32, usize)] = &[(0, 1996), (1, 1996), (2, 1007)];
    // The size of the value, its chunks, the span, and the step that tells the fault or is the last.
    let cases: [(u32, &[(u32, usize)], u32, u32, usize, Option<FetchFault>); 14] = [
        (2500, &[(0, 1996)], 0, 2500, 2, missing(1)),
        (2500, &[(1, 1996)], 0, 2500, 2, unexpected(1, 0)),
        (2500, &[(0, 10)], 0, 2500, 2, size(10, 1996)),
        (5000, all, 0, 5000, 4, None),
        (5000, three, 0, 5000, 2, size(10, 1996)),
        (5000, &[], 0, 1, 1, missing(0)),
        (5000, &[], 7, 7, 1, None),
        (0, &[], 0, 0, 1, None),
        (5000, &all[..2], 0, 3992, 3, None),
        (5000, &all[..2], 0, 3993, 3, missing(2)),
        (5000, short, 3991, 3993, 3, size(1007, 1008)),
        (5000, &three[..2], 1996, 3992, 2, None),
        (5000, twice, 0, 3992, 3, unexpected(0, 1)),
        (5000, over, 0, 3992, 4, unexpected(1, 2)),
    ];
    for (len, chunks, start, end, steps, expected) in cases {
        assert!(rt; fault_of(&rt, alloc, len, chunks, start, end)? == (steps, expected));
    }
    Ok(())
}

/// Transactions 3 and 4, which have committed.
pub(crate) fn two_committed(rt: &impl Abort, alloc: Global) -> Result<XactTable, AllocError>
    ensures { IfOk result (λ xacts. 5 ≤ next_xid xacts) }
{
    let mut xacts = XactTable::new(alloc);
    for session in 1..3 {
        let xid = xacts.assign(session)?;
        assert!(rt; xacts.running().contains(&xid));
        xacts.commit(xid);
    }
    assert!(rt; xacts.next() == 5);
    Ok(xacts)
}

/// Ends the chunk at a tid, if there is one.
fn end_chunk(store: &mut ToastStore, tid: Tid, xid: u64)
    ensures ended { store.new ≡ record store.old { rel = record store.old.rel { pages = (if is_some (item_in store.old.rel.pages tid) then with_ended xid store.old.rel.pages tid else store.old.rel.pages) } } }
    ensures sound { IsStore store.new }
{
    if store.rel().chunk_at(tid).is_some() {
        store.set_ender(tid, xid);
    }
}

/// Adds a chunk of the value beside it, which transaction 4 ends at once, makes its slot dead, and tries to
/// sweep the entries of all dead slots of its page.
fn disturb(
    rt: &impl Abort,
    alloc: Global,
    store: &mut ToastStore,
    xacts: &XactTable,
    seq: u32,
) -> Result<Swept, AllocError>
    requires next { 5 ≤ next_xid xacts.now }
    requires assigned { AreAssigned xacts.now store.old.rel.pages }
    ensures pins { store.new.index.pins ≡ store.old.index.pins }
    ensures assigned { AreAssigned xacts.now store.new.rel.pages }
{
    let tid = put(rt, store, OTHER, seq, &[1, 2, 3])?;
    end_chunk(store, tid, 4);
    assert!(rt; tid.page < store.rel().pages());
    let mut dead = TidList::new(alloc);
    let _ = store.prune_page(tid.page, xacts, 5, &mut dead)?;
    Ok(store.sweep_leaf(None, &dead))
}

/// Makes the steps of a fetch, with a disturbance after each: whether there are four, and these bytes come.
fn is_undisturbed(
    rt: &impl Abort,
    alloc: Global,
    store: &mut ToastStore,
    xacts: &XactTable,
    mut fetch: Fetch,
    expected: &[u8],
) -> Result<bool, Fail>
    requires ready { CanStep store.old.index fetch.walk }
    requires next { 5 ≤ next_xid xacts.now }
    requires assigned { AreAssigned xacts.now store.old.rel.pages }
{
    for seq in 1..9 {
        match fetch.step(store)? {
            FetchStep::More => {
                // The index has one leaf, so each sweep between the batch and its last entry waits.
                let swept = disturb(rt, alloc, store, xacts, seq)?;
                assert!(rt; swept == Swept::Pinned { holder: SESSION });
            }
            FetchStep::Done(bytes) => {
                // What came meanwhile goes with what comes now.
                let swept = disturb(rt, alloc, store, xacts, seq)?;
                assert!(rt; swept == Swept::End { removed: 4 });
                return Ok(seq == 4 && bytes.as_slice() == expected);
            }
        }
    }
    Ok(false)
}

#[test]
fn a_fetch_is_not_disturbed_by_another_value(rt: HostRuntime) -> Result<(), Fail> {
    let alloc = rt.alloc();
    let xacts = two_committed(&rt, alloc)?;
    let mut store = ToastStore::new(alloc, 8193)?;
    let value = value_of(alloc, 5000)?;
    let value = value.as_slice();
    save(&rt, &mut store, VALUE, value)?;
    let fetch = begin(&rt, alloc, &mut store, pointer(VALUE, 5000), 1, 4999)?;
    let swept = disturb(&rt, alloc, &mut store, &xacts, 0)?;
    assert!(rt; swept == Swept::End { removed: 1 });
    assert!(rt; is_undisturbed(&rt, alloc, &mut store, &xacts, fetch, &value[1..4999])?);
    Ok(())
}

/// Marks a value as ended by a transaction.
pub(crate) fn mark(
    rt: &impl Abort,
    store: &mut ToastStore,
    p: Pointer,
    xid: u64,
) -> Result<(), AllocError>
    ensures { (xacts : Xacts) → IsAssigned xacts xid → AreAssigned xacts store.old.rel.pages → AreAssigned xacts store.new.rel.pages }
{
    store.unpin(SESSION);
    let mut mark = Mark::new(p, xid, SESSION);
    for _ in 0..9 {
        match mark.step(store)? {
            MarkStep::More => {}
            MarkStep::Done => return Ok(()),
        }
    }
    assert!(rt; false);
    Ok(())
}

/// Who ended the chunk of the n-th entry of a value, if there is one.
pub(crate) fn ender(store: &ToastStore, value_id: u32, n: usize) -> Option<Option<u64>> {
    let entry = store.index().nth_of(value_id, n)?;
    let chunk = store.rel().chunk_at(entry.tid)?;
    Some(chunk.ender)
}

#[test]
fn a_mark_ends_the_pieces_of_its_value_alone(rt: HostRuntime) -> Result<(), Fail> {
    let alloc = rt.alloc();
    let mut store = ToastStore::new(alloc, 8193)?;
    let value = value_of(alloc, 5000)?;
    save(&rt, &mut store, VALUE, value.as_slice())?;
    save(&rt, &mut store, OTHER, value.as_slice())?;
    mark(&rt, &mut store, pointer(OTHER, 0), MARKER)?;
    mark(&rt, &mut store, pointer(VALUE, 3992), MARKER)?;
    let ended = [
        (VALUE, 0, Some(Some(MARKER))),
        (VALUE, 1, Some(Some(MARKER))),
        (VALUE, 2, Some(None)),
        (VALUE, 3, None),
        (OTHER, 0, Some(None)),
        (OTHER, 1, Some(None)),
        (OTHER, 2, Some(None)),
    ];
    for (value_id, n, expected) in ended {
        assert!(rt; ender(&store, value_id, n) == expected);
    }
    let bytes = fetched(&rt, alloc, &mut store, pointer(VALUE, 5000), 0, 5000)?;
    assert!(rt; bytes.as_slice() == value.as_slice());
    Ok(())
}
