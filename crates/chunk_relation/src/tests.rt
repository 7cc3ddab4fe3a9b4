ghost use Rattle.std.specs.Prelude.{◌≡◌, [], IfOk, length};
ghost use Rattle.xact_status.specs.Xacts.{next_xid};
ghost use Rattle.chunk_relation.specs.Relations.{AreAssigned};

use crate::{ChunkRel, TidList};
use slot_page::Tid;
use std::alloc::{AllocError, Global};
use std::process::Abort;
use xact_status::XactTable;

/// A table with three transactions: 3 has aborted, 4 has committed, and 5 runs.
fn three_xacts(rt: &impl Abort, alloc: Global) -> Result<XactTable, AllocError>
    ensures { IfOk result (λ xacts. next_xid xacts ≡ 6) }
{
    let mut xacts = XactTable::new(alloc);
    let aborted = xacts.assign(1)?;
    let committed = xacts.assign(2)?;
    let _running = xacts.assign(3)?;
    assert!(rt; xacts.running().contains(&aborted));
    xacts.abort(aborted);
    assert!(rt; xacts.running().contains(&committed));
    let _number = xacts.commit(committed);
    assert_eq!(rt; xacts.next(), 6);
    Ok(xacts)
}

/// Bytes of a chunk.
fn data(alloc: Global, len: usize) -> Result<Vec<u8>, AllocError>
    ensures { IfOk result (λ bytes. length bytes.items ≡ len) }
{
    vec![in alloc; 7; len]
}

/// Puts a chunk of this many bytes by a transaction.
fn put(
    rt: &impl Abort,
    alloc: Global,
    rel: &mut ChunkRel,
    xacts: &XactTable,
    xid: u64,
    len: usize,
) -> Result<Tid, AllocError>
    requires { AreAssigned xacts.now rel.old.pages }
    ensures { AreAssigned xacts.now rel.new.pages }
{
    assert!(rt; 1 <= len);
    assert!(rt; len <= 1996);
    assert!(rt; 3 <= xid);
    assert!(rt; xid < xacts.next());
    let bytes = data(alloc, len)?;
    let tid = rel.put_chunk(16384, 0, xid, &bytes)?;
    Ok(tid)
}

/// Puts chunks, each by a transaction and of a number of bytes, and looks where they lie.
fn put_each(
    rt: &impl Abort,
    alloc: Global,
    rel: &mut ChunkRel,
    xacts: &XactTable,
    puts: &[(u64, usize, Tid)],
) -> Result<(), AllocError>
    requires { AreAssigned xacts.now rel.old.pages }
    ensures { AreAssigned xacts.now rel.new.pages }
{
    for (xid, len, tid) in puts {
        assert_eq!(rt; put(rt, alloc, rel, xacts, *xid, *len)?, *tid);
    }
    Ok(())
}

/// Prunes the first page and frees the first of its dead slots; answers how many are new.
fn prune_and_reap(
    rt: &impl Abort,
    alloc: Global,
    rel: &mut ChunkRel,
    xacts: &XactTable,
    horizon: u64,
) -> Result<u32, AllocError>
    requires { AreAssigned xacts.now rel.old.pages }
    ensures { AreAssigned xacts.now rel.new.pages }
{
    let mut dead = TidList::new(alloc);
    assert!(rt; rel.pages() > 0);
    let count = rel.prune_page(0, xacts, horizon, &mut dead)?;
    match dead.get(0) {
        Some(tid) => {
            rel.reap(*tid);
            Ok(count)
        }
        None => Ok(count),
    }
}

fn at(page: u64, slot: u16) -> Tid {
    Tid { page, slot }
}

#[test]
fn four_full_chunks_fill_a_page(rt: HostRuntime) -> Result<(), AllocError> {
    let alloc = rt.alloc();
    let xacts = three_xacts(&rt, alloc)?;
    let mut rel = ChunkRel::new(alloc, 8193);
    assert!(rt; rel.rel_id() == 8193 && rel.pages() == 0);
    // The 24 bytes that four full chunks leave hold no chunk.
    let puts = [
        (4, 1996, at(0, 0)),
        (4, 1996, at(0, 1)),
        (4, 1996, at(0, 2)),
        (4, 1996, at(0, 3)),
        (4, 1996, at(1, 0)),
        (4, 1, at(1, 1)),
    ];
    put_each(&rt, alloc, &mut rel, &xacts, &puts)?;
    assert!(rt; rel.pages() == 2);
    assert!(rt; rel.slots(0) == 4 && rel.slots(1) == 2);
    Ok(())
}

#[test]
fn a_chunk_goes_on_the_lowest_page_with_room(rt: HostRuntime) -> Result<(), AllocError> {
    let alloc = rt.alloc();
    let xacts = three_xacts(&rt, alloc)?;
    let mut rel = ChunkRel::new(alloc, 8193);
    let puts = [
        (4, 1996, at(0, 0)),
        (4, 1996, at(0, 1)),
        (4, 1996, at(0, 2)),
        (4, 600, at(0, 3)),
        (4, 1996, at(1, 0)),
        (4, 1000, at(0, 4)),
        (4, 1000, at(1, 1)),
        (4, 300, at(0, 5)),
    ];
    put_each(&rt, alloc, &mut rel, &xacts, &puts)
}

#[test]
fn a_slot_is_used_again_once_it_is_reaped(rt: HostRuntime) -> Result<(), AllocError> {
    let alloc = rt.alloc();
    let xacts = three_xacts(&rt, alloc)?;
    let mut rel = ChunkRel::new(alloc, 8193);
    let puts = [
        (4, 1996, at(0, 0)),
        (3, 1996, at(0, 1)),
        (4, 1996, at(0, 2)),
        (3, 1996, at(0, 3)),
        (4, 1996, at(1, 0)),
    ];
    put_each(&rt, alloc, &mut rel, &xacts, &puts)?;
    assert!(rt; prune_and_reap(&rt, alloc, &mut rel, &xacts, 6)? == 2);
    assert!(rt; prune_and_reap(&rt, alloc, &mut rel, &xacts, 6)? == 0);
    assert!(rt; rel.chunk_at(at(0, 1)).is_none() && rel.chunk_at(at(0, 2)).is_some());
    let puts = [
        (4, 1996, at(0, 1)),
        (4, 1996, at(0, 3)),
        (4, 1996, at(1, 1)),
    ];
    put_each(&rt, alloc, &mut rel, &xacts, &puts)
}

#[test]
fn a_chunk_is_shown_as_it_was_put(rt: HostRuntime) -> Result<(), AllocError> {
    let mut rel = ChunkRel::new(rt.alloc(), 8193);
    let tid = rel.put_chunk(16385, 2, 7, &[1, 2, 3])?;
    assert!(rt;
        rel.chunk_at(tid).is_some_and(|chunk| {
            chunk.value_id == 16385
                && chunk.seq == 2
                && chunk.inserter == 7
                && chunk.ender.is_none()
                && chunk.bytes == &[1u8, 2, 3][..]
        })
    );
    rel.set_ender(tid, 9);
    assert!(rt;
        rel.chunk_at(tid)
            .is_some_and(|chunk| chunk.ender == Some(9))
    );
    Ok(())
}
