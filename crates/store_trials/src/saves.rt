ghost use Rattle.std.specs.Prelude.{◌≡◌, ◌≤◌, [], ◌∷◌, Some, IfOk, length};
ghost use Rattle.slot_page.specs.Pages.{item_in};
ghost use Rattle.xact_status.specs.Xacts.{IsAssigned, Xacts, next_xid};
ghost use Rattle.chunk_relation.specs.Chunks.{new_chunk};
ghost use Rattle.chunk_relation.specs.Relations.{AreAssigned};
ghost use Rattle.toast_store.specs.Saves.{IsUnderWay, SaveStands};

use change_log::{Log, LogEntry};
use chunk_index::{Entry, Swept};
use external_pointer::{Pointer, write_pointer};
use slot_page::Tid;
use std::alloc::{AllocError, Global};
use std::process::Abort;
use toast_store::{Save, SaveStep, TidList, ToastStore};
use tuple_layout::Bytes;
use value_ids::{DrawFault, IdPool, IdTest};
use xact_status::XactTable;

/// A value of so many bytes, no two of whose pieces are the same.
pub(crate) fn value_of(alloc: Global, len: usize) -> Result<Bytes, AllocError>
    ensures { IfOk result (λ value. length value ≡ len) }
{
    let mut value = Bytes::new(alloc);
    for at in 0..len {
        value.push((at % 251) as u8)?;
    }
    Ok(value)
}

/// Makes the steps of a save until it is done.
pub(crate) fn finish(
    save: &mut Save,
    store: &mut ToastStore,
    ids: &mut IdPool,
    log: &mut Log,
) -> Result<Pointer, DrawFault>
    requires under_way { IsUnderWay save.old.stage }
    requires stands { SaveStands store.old ids.old save.old }
    ensures { (xacts : Xacts) → IsAssigned xacts save.old.xid → AreAssigned xacts store.old.rel.pages → AreAssigned xacts store.new.rel.pages }
{
    for _ in 0..100 {
        match save.step(store, ids, log)? {
            SaveStep::More => {}
            SaveStep::Done(pointer) => return Ok(pointer),
        }
    }
    Err(DrawFault::Memory)
}

/// Saves a value of so many bytes in table 1, by session 1 in transaction 3.
pub(crate) fn saved(
    alloc: Global,
    store: &mut ToastStore,
    ids: &mut IdPool,
    log: &mut Log,
    len: usize,
) -> Result<Pointer, DrawFault>
    requires least { 21 ≤ len }
    requires most { len ≤ 65536 }
    ensures { (xacts : Xacts) → IsAssigned xacts 3 → AreAssigned xacts store.old.rel.pages → AreAssigned xacts store.new.rel.pages }
{
    let value = value_of(alloc, len)?;
    let mut save = Save::new(alloc, 1, 1, 3, value);
    finish(&mut save, store, ids, log)
}

/// The bytes of a value's piece.
fn piece(value: &[u8], seq: usize) -> &[u8] {
    let from = seq.saturating_mul(1996).min(value.len());
    let rest = &value[from..];
    &rest[..rest.len().min(1996)]
}

/// Whether an entry names a chunk with this number and these bytes.
fn names(store: &ToastStore, entry: Entry, seq: usize, bytes: &[u8]) -> bool {
    match store.rel().chunk_at(entry.tid) {
        Some(chunk) => {
            entry.seq as usize == seq
                && chunk.seq == entry.seq
                && chunk.inserter == 3
                && chunk.ender.is_none()
                && chunk.bytes == bytes
        }
        None => false,
    }
}

/// Whether a log's entry is that of a piece with these bytes.
fn logs(entry: Option<&LogEntry>, id: u32, number: usize, piece: &[u8]) -> bool {
    match entry {
        Some(
            LogEntry::Chunk {
                xid,
                table,
                value_id,
                seq,
                bytes,
            },
        ) => {
            *xid == 3
                && *table == 1
                && *value_id == id
                && *seq as usize == number
                && bytes.as_slice() == piece
        }
        _ => false,
    }
}

/// Whether the chunks under an id, and the entries of a log, are the pieces of a value.
fn has_pieces(store: &ToastStore, log: &Log, id: u32, value: &[u8]) -> bool {
    for seq in 0..34usize {
        let bytes = piece(value, seq);
        let chunk = store.index().nth_of(id, seq);
        if bytes.is_empty() {
            return chunk.is_none() && log.len() == seq;
        }
        if !chunk.is_some_and(|entry| names(store, entry, seq, bytes))
            || !logs(log.at(seq), id, seq, bytes)
        {
            return false;
        }
    }
    false
}

/// Whether a value of so many bytes is saved in its pieces.
fn is_saved(alloc: Global, len: usize) -> Result<bool, DrawFault>
    requires least { 21 ≤ len }
    requires most { len ≤ 65536 }
{
    let mut store = ToastStore::new(alloc, 8193)?;
    let mut ids = IdPool::new(alloc, 16384, 4294967295);
    let mut log = Log::new(alloc);
    let pointer = saved(alloc, &mut store, &mut ids, &mut log, len)?;
    let value = value_of(alloc, len)?;
    Ok(
        pointer.size as usize == len
            && pointer.value_id == 16384
            && pointer.toast_rel == 8193
            && has_pieces(&store, &log, 16384, value.as_slice()),
    )
}

#[test]
fn a_value_is_saved_in_pieces(rt: HostRuntime) -> Result<(), DrawFault> {
    for len in [21, 1995, 1996, 1997, 3991, 3992, 3993, 65535, 65536] {
        assert!(rt; is_saved(rt.alloc(), len)?);
    }
    Ok(())
}

#[test]
fn the_first_pointer_of_a_table(rt: HostRuntime) -> Result<(), DrawFault> {
    let alloc = rt.alloc();
    let mut store = ToastStore::new(alloc, 8193)?;
    let mut ids = IdPool::new(alloc, 16384, 4294967295);
    let mut log = Log::new(alloc);
    let pointer = saved(alloc, &mut store, &mut ids, &mut log, 1997)?;
    assert!(rt; pointer.size == 1997);
    let mut bytes = [0; 18];
    write_pointer(&pointer, &mut bytes);
    assert!(rt; bytes == [1, 18, 209, 7, 0, 0, 205, 7, 0, 0, 0, 64, 0, 0, 1, 32, 0, 0]);
    for (n, len) in [(0, 1996), (1, 1)] {
        let tid = store.index().nth_of(16384, n).map(|entry| entry.tid);
        let chunk = tid.and_then(|tid| store.rel().chunk_at(tid));
        assert!(rt; chunk.is_some_and(|chunk| chunk.bytes.len() == len));
    }
    assert!(rt; store.index().nth_of(16384, 2).is_none());
    Ok(())
}

#[test]
fn an_id_with_chunks_is_passed_over(rt: HostRuntime) -> Result<(), DrawFault> {
    let alloc = rt.alloc();
    let mut store = ToastStore::new(alloc, 8193)?;
    let mut ids = IdPool::new(alloc, 16384, 16385);
    let mut log = Log::new(alloc);
    assert!(rt; ids.draw(1, 1, &store)? == 16384 && ids.draw(1, 1, &store)? == 16385);
    assert!(rt; ids.draw(1, 1, &store) == Err(DrawFault::NoValueId { in_use: 2 }));
    ids.release(1);
    let pointer = saved(alloc, &mut store, &mut ids, &mut log, 2500)?;
    assert!(rt; pointer.value_id == 16384 && store.used(16384) && !store.used(16385));
    ids.release(1);
    // The counter goes from the second id to the first, which has chunks, and on to the second.
    assert!(rt; ids.draw(1, 1, &store)? == 16385);
    ids.release(1);
    assert!(rt; ids.draw(1, 1, &store)? == 16385);
    let full = saved(alloc, &mut store, &mut ids, &mut log, 30);
    assert!(rt; full == Err(DrawFault::NoValueId { in_use: 2 }));
    Ok(())
}

/// A store with one chunk, of id 16384 and number 0, that transaction 3 has put, and no entry.
fn with_chunk(alloc: Global) -> Result<(ToastStore, Tid), AllocError>
    ensures entries { IfOk result (λ made. made.0.index.entries ≡ []) }
    ensures pins { IfOk result (λ made. made.0.index.pins ≡ []) }
    ensures chunk { IfOk result (λ made. item_in made.0.rel.pages made.1 ≡ Some (new_chunk 16384 0 3 (1 ∷ 2 ∷ 3 ∷ []))) }
    ensures assigned { IfOk result (λ made. (xacts : Xacts) → 4 ≤ next_xid xacts → AreAssigned xacts made.0.rel.pages) }
{
    let mut store = ToastStore::new(alloc, 8193)?;
    let tid = store.put_chunk(16384, 0, 3, &[1, 2, 3])?;
    Ok((store, tid))
}

#[test]
fn a_pinned_leaf_is_swept_once_it_is_unpinned(rt: HostRuntime) -> Result<(), AllocError> {
    let alloc = rt.alloc();
    let (mut store, tid) = with_chunk(alloc)?;
    let entry = Entry {
        value_id: 16384,
        seq: 0,
        tid,
    };
    assert!(rt; !store.used(16384));
    store.insert(entry)?;
    store.set_ender(tid, 4);
    // An ended chunk still uses its id.
    assert!(rt; store.used(16384));
    let batch = store.batch(16384, 0, 0, None, 1)?;
    assert!(rt; batch.entries.as_slice() == &[entry][..] && !batch.more);
    let dead = TidList::from_slice(alloc, &[tid])?;
    assert!(rt; store.sweep_leaf(None, &dead) == Swept::Pinned { holder: 1 });
    store.unpin(1);
    assert!(rt; store.sweep_leaf(None, &dead) == Swept::End { removed: 1 });
    assert!(rt; !store.used(16384));
    Ok(())
}

/// Prunes the first page of a store with one chunk and no entry, and frees its slot.
fn prune_and_reap(
    rt: &impl Abort,
    alloc: Global,
    store: &mut ToastStore,
    xacts: &XactTable,
) -> Result<u32, AllocError>
    requires entries { store.old.index.entries ≡ [] }
    requires assigned { 4 ≤ next_xid xacts.now → AreAssigned xacts.now store.old.rel.pages }
{
    assert!(rt; xacts.next() > 3 && store.rel().pages() > 0);
    let mut dead = TidList::new(alloc);
    let count = store.prune_page(0, xacts, 4, &mut dead)?;
    if let Some(tid) = dead.get(0) {
        store.reap(*tid);
    }
    Ok(count)
}

#[test]
fn a_chunk_of_an_aborted_transaction_goes(rt: HostRuntime) -> Result<(), AllocError> {
    let alloc = rt.alloc();
    let mut xacts = XactTable::new(alloc);
    let xid = xacts.assign(1)?;
    assert!(rt; xacts.running().contains(&xid));
    xacts.abort(xid);
    let (mut store, tid) = with_chunk(alloc)?;
    assert!(rt; prune_and_reap(&rt, alloc, &mut store, &xacts)? == 1);
    assert!(rt; store.rel().chunk_at(tid).is_none());
    assert!(rt; store.put_chunk(16385, 0, 4, &[4])? == tid);
    Ok(())
}
