ghost use Rattle.std.specs.Prelude.{IfOk};
ghost use Rattle.std.specs.List.Sorted.{IsSorted};
ghost use Rattle.slot_page.specs.Tids.{tid_cmp};

use chunk_index::{Batch, ChunkIndex, Entry, EntryList, Swept, TidList};
use slot_page::Tid;
use std::alloc::{AllocError, Global};

fn at(page: u64, slot: u16) -> Tid {
    Tid { page, slot }
}

fn entry(value_id: u32, seq: u32, tid: Tid) -> Entry {
    Entry { value_id, seq, tid }
}

/// The entries of a value, beyond one if that is given, asked for by a session that gives up what it had
/// pinned.
fn ask_on(
    index: &mut ChunkIndex,
    value_id: u32,
    after: Option<Entry>,
    session: u16,
) -> Result<Batch, AllocError> {
    index.unpin(session);
    index.batch(value_id, 0, u32::MAX, after, session)
}

/// The same from the first entry on.
fn ask(index: &mut ChunkIndex, value_id: u32, session: u16) -> Result<Batch, AllocError> {
    ask_on(index, value_id, None, session)
}

/// Adds an entry, if there is none of its value and number yet.
fn add(index: &mut ChunkIndex, entry: Entry) -> Result<(), AllocError> {
    index.unpin(0);
    let batch = index.batch(entry.value_id, entry.seq, entry.seq, None, 0)?;
    if !batch.entries.is_empty() || batch.more {
        return Ok(());
    }
    index.insert(entry)?;
    Ok(())
}

/// The tids of two slots of the first page, in order.
fn two_tids(alloc: Global) -> Result<TidList, AllocError>
    ensures { IfOk result (IsSorted tid_cmp) }
{
    TidList::from_slice(alloc, &[Tid { page: 0, slot: 1 }, Tid { page: 0, slot: 2 }])
}

fn index_of(alloc: Global, entries: &[Entry]) -> Result<ChunkIndex, AllocError> {
    let mut index = ChunkIndex::new(alloc)?;
    for entry in entries {
        add(&mut index, *entry)?;
    }
    Ok(index)
}

#[test]
fn a_sweep_waits_for_each_session_that_has_pinned(rt: HostRuntime) -> Result<(), AllocError> {
    let entries = [
        entry(16384, 0, at(0, 1)),
        entry(16384, 1, at(0, 2)),
        entry(16384, 2, at(0, 3)),
        entry(16385, 0, at(0, 4)),
    ];
    let mut index = index_of(rt.alloc(), &entries)?;
    let dead = two_tids(rt.alloc())?;
    let first = ask(&mut index, 16384, 2)?;
    assert!(rt; first.entries.as_slice() == &entries[..3] && !first.more);
    let second = ask(&mut index, 16385, 1)?;
    assert!(rt; second.entries.as_slice() == &entries[3..] && !second.more);
    assert!(rt; ask(&mut index, 16386, 3)?.entries.is_empty());
    assert!(rt; index.sweep_leaf(None, &dead) == Swept::Pinned { holder: 1 });
    index.unpin(1);
    assert!(rt; index.sweep_leaf(Some(entries[3]), &dead) == Swept::Pinned { holder: 2 });
    index.unpin(2);
    assert!(rt; index.sweep_leaf(None, &dead) == Swept::End { removed: 2 });
    assert!(rt; index.sweep_leaf(None, &dead) == Swept::End { removed: 0 });
    assert!(rt; index.nth_of(16384, 0) == Some(entries[2]));
    assert!(rt; index.nth_of(16384, 1).is_none() && index.nth_of(16385, 0) == Some(entries[3]));
    Ok(())
}

/// The entries are ordered by value id, then by number, then by tid, however they come.
#[test]
fn entries_are_in_order(rt: HostRuntime) -> Result<(), AllocError> {
    let a = entry(16384, 0, at(7, 7));
    let b = entry(16384, 1, at(3, 3));
    let c = entry(16385, 0, at(0, 0));
    for entries in [
        [a, b, c],
        [a, c, b],
        [b, a, c],
        [b, c, a],
        [c, a, b],
        [c, b, a],
    ] {
        let index = index_of(rt.alloc(), &entries)?;
        assert!(rt; index.nth_of(16384, 0) == Some(a) && index.nth_of(16384, 1) == Some(b));
        assert!(rt; index.nth_of(16384, 2).is_none() && index.nth_of(16385, 0) == Some(c));
    }
    assert!(rt; a < b && b < c && a < entry(16384, 0, at(7, 8)) && entry(16384, 0, at(7, 8)) < b);
    Ok(())
}

#[test]
fn a_batch_goes_on_after_an_entry(rt: HostRuntime) -> Result<(), AllocError> {
    let entries = [
        entry(16384, 0, at(0, 1)),
        entry(16384, 1, at(0, 2)),
        entry(16384, 2, at(0, 3)),
        entry(16384, 3, at(0, 4)),
    ];
    let mut index = index_of(rt.alloc(), &entries)?;
    index.unpin(5);
    let batch = index.batch(16384, 1, 2, Some(entries[1]), 5)?;
    assert!(rt; batch.entries.as_slice() == &entries[2..3] && !batch.more);
    Ok(())
}

/// So many entries of a value, numbered from 0, each with a slot of its own.
fn rising(alloc: Global, count: u32) -> Result<Vec<Entry>, AllocError> {
    let mut entries = Vec::new(alloc);
    for seq in 0..count {
        entries.push(entry(16384, seq, at((seq / 64) as u64, (seq % 64) as u16 + 1)))?;
    }
    Ok(entries)
}

/// The tids of entries, in order.
fn tids_of(alloc: Global, entries: &[Entry]) -> Result<TidList, AllocError>
    ensures { IfOk result (IsSorted tid_cmp) }
{
    let mut tids = Vec::new(alloc);
    for entry in entries {
        tids.push(entry.tid)?;
    }
    tids.sort_unstable();
    Ok(TidList::from_vec(tids))
}

/// Some of the entries, side by side; none where there are not so many.
fn part(entries: &[Entry], from: usize, to: usize) -> &[Entry] {
    if from > to || to > entries.len() {
        return &[];
    }
    &entries[from..to]
}

/// All entries of the value, batch by batch.
fn walked(index: &mut ChunkIndex, alloc: Global) -> Result<EntryList, AllocError> {
    let mut all = EntryList::new(alloc);
    let mut after = None;
    for _ in 0..1_000 {
        let batch = ask_on(index, 16384, after, 1)?;
        after = batch.entries.as_slice().last().copied();
        all.extend_from_slice(batch.entries.as_slice())?;
        if !batch.more {
            break;
        }
    }
    Ok(all)
}

/// A leaf that gets a 65th entry is split; a pin of it stays with the lower part.
#[test]
fn a_leaf_is_split_at_65_entries(rt: HostRuntime) -> Result<(), AllocError> {
    let entries = rising(rt.alloc(), 65)?;
    assert!(rt; entries.len() == 65);
    let lower = part(&entries, 0, 33);
    let bound = entries[33];
    let least = entries[0];
    let mut index = index_of(rt.alloc(), &entries)?;
    let dead = tids_of(rt.alloc(), &entries)?;
    let batch = ask(&mut index, 16384, 1)?;
    assert!(rt; batch.entries.len() == 33 && batch.more);
    assert!(rt; batch.entries.as_slice() == lower);
    assert!(rt; index.sweep_leaf(None, &dead) == Swept::Pinned { holder: 1 });
    index.unpin(1);
    let first = index.sweep_leaf(None, &dead);
    assert!(rt;
        first
            == Swept::Next {
                from: bound,
                removed: 33
            }
    );
    assert!(rt; index.sweep_leaf(Some(bound), &dead) == Swept::End { removed: 32 });
    add(&mut index, least)?;
    assert!(rt; index.nth_of(16384, 0) == Some(least) && index.nth_of(16384, 1).is_none());
    Ok(())
}

/// What was taken of a leaf before it was split waits for the sweep of the lower part alone.
#[test]
fn a_pinned_leaf_is_split(rt: HostRuntime) -> Result<(), AllocError> {
    let entries = rising(rt.alloc(), 65)?;
    assert!(rt; entries.len() == 65);
    let mut index = index_of(rt.alloc(), &entries[1..])?;
    let dead = tids_of(rt.alloc(), &entries)?;
    let batch = ask(&mut index, 16384, 7)?;
    assert!(rt; batch.entries.as_slice() == &entries[1..] && !batch.more);
    add(&mut index, entries[0])?;
    assert!(rt; index.sweep_leaf(None, &dead) == Swept::Pinned { holder: 7 });
    assert!(rt; index.sweep_leaf(Some(entries[40]), &dead) == Swept::End { removed: 32 });
    assert!(rt; index.sweep_leaf(Some(entries[40]), &dead) == Swept::Pinned { holder: 7 });
    index.unpin(7);
    assert!(rt; index.sweep_leaf(Some(entries[64]), &dead) == Swept::End { removed: 33 });
    Ok(())
}

/// Two hundred entries in rising order lie in leaves of 33, and the last of 35.
#[test]
fn empty_leaves_are_gone(rt: HostRuntime) -> Result<(), AllocError> {
    let entries = rising(rt.alloc(), 200)?;
    assert!(rt; entries.len() == 200);
    let (second, third, next, end) = (entries[33], entries[66], entries[99], entries[165]);
    let first = tids_of(rt.alloc(), part(&entries, 0, 33))?;
    let middle = tids_of(rt.alloc(), part(&entries, 66, 99))?;
    let last = tids_of(rt.alloc(), part(&entries, 165, 200))?;
    let mut index = index_of(rt.alloc(), &entries)?;
    let swept = index.sweep_leaf(Some(third), &middle);
    assert!(rt;
        swept
            == Swept::Next {
                from: next,
                removed: 33
            }
    );
    let again = index.sweep_leaf(Some(third), &middle);
    assert!(rt;
        again
            == Swept::Next {
                from: next,
                removed: 0
            }
    );
    assert!(rt; index.nth_of(16384, 66) == Some(next));
    assert!(rt; index.sweep_leaf(Some(end), &last) == Swept::End { removed: 35 });
    assert!(rt; index.sweep_leaf(Some(end), &last) == Swept::End { removed: 0 });
    assert!(rt; index.nth_of(16384, 132).is_none());
    let emptied = index.sweep_leaf(None, &first);
    assert!(rt;
        emptied
            == Swept::Next {
                from: second,
                removed: 33
            }
    );
    let stays = index.sweep_leaf(None, &first);
    assert!(rt;
        stays
            == Swept::Next {
                from: second,
                removed: 0
            }
    );
    Ok(())
}

/// Entries are found in order also where they came in falling order, and ten thousand of them mixed.
#[test]
fn many_entries_are_in_order(rt: HostRuntime) -> Result<(), AllocError> {
    let entries = rising(rt.alloc(), 10_000)?;
    assert!(rt; entries.len() == 10_000);
    let (few, last) = (part(&entries, 0, 500), entries[9_999]);
    let mut falling = ChunkIndex::new(rt.alloc())?;
    for entry in few.iter().rev() {
        add(&mut falling, *entry)?;
    }
    assert!(rt; walked(&mut falling, rt.alloc())?.as_slice() == few);
    let mut mixed = ChunkIndex::new(rt.alloc())?;
    for n in 0..10_000usize {
        add(&mut mixed, entries[n * 7919 % 10_000])?;
    }
    assert!(rt; walked(&mut mixed, rt.alloc())?.as_slice() == entries.as_slice());
    assert!(rt; mixed.nth_of(16384, 9_999) == Some(last));
    assert!(rt; mixed.nth_of(16384, 10_000).is_none());
    Ok(())
}
