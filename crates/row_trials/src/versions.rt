ghost use Rattle.std.specs.Prelude.{◌≡◌, IfOk, length};
ghost use Rattle.xact_status.specs.Xacts.{next_xid};
ghost use Rattle.row_versions.specs.Relations.{AreAssigned};

use crate::shots::Shot;
use row_versions::{RowVersions, TidList};
use slot_page::Tid;
use std::alloc::{AllocError, Global};
use std::process::Abort;
use std::test::Fail;
use tuple_layout::{Bytes, LARGEST_TUPLE, Schema, Storage};
use xact_status::{Stamp, XactTable};

/// A table with three transactions: 3 has aborted, 4 has committed, and 5 runs.
fn three_xacts(rt: &impl Abort, alloc: Global) -> Result<XactTable, AllocError>
    ensures { IfOk result (λ xacts. next_xid xacts ≡ 6) }
{
    let mut xacts = XactTable::new(alloc);
    let aborted = xacts.assign(1)?;
    let committed = xacts.assign(2)?;
    let _running = xacts.assign(3)?;
    assert!(rt; xacts.running().contains(&aborted));
    xacts.abort(aborted);
    assert!(rt; xacts.running().contains(&committed));
    let _number = xacts.commit(committed);
    assert_eq!(rt; xacts.next(), 6);
    Ok(xacts)
}

/// The bytes of a tuple.
fn data(alloc: Global, len: usize) -> Result<Bytes, AllocError>
    ensures { IfOk result (λ bytes. length bytes ≡ len) }
{
    let bytes = vec![in alloc; 7; len]?;
    Ok(Bytes::from_vec(bytes))
}

/// Puts a version of a key by a transaction, with a tuple of this many bytes.
fn put(
    rt: &impl Abort,
    alloc: Global,
    rel: &mut RowVersions,
    xacts: &XactTable,
    key: &i64,
    xid: u64,
    len: usize,
) -> Result<Tid, AllocError>
    requires { AreAssigned xacts.now rel.old.pages }
    ensures { AreAssigned xacts.now rel.new.pages }
{
    assert!(rt; 24 <= len);
    assert!(rt; len <= LARGEST_TUPLE);
    assert!(rt; 3 <= xid);
    assert!(rt; xid < xacts.next());
    let tuple = data(alloc, len)?;
    let tid = rel.put_version(*key, xid, tuple)?;
    Ok(tid)
}

/// Puts versions, each of a key, by a transaction and of a number of bytes, and looks where they lie.
fn put_each(
    rt: &impl Abort,
    alloc: Global,
    rel: &mut RowVersions,
    xacts: &XactTable,
    puts: &[(i64, u64, usize, Tid)],
) -> Result<(), AllocError>
    requires { AreAssigned xacts.now rel.old.pages }
    ensures { AreAssigned xacts.now rel.new.pages }
{
    for (key, xid, len, tid) in puts {
        assert_eq!(rt; put(rt, alloc, rel, xacts, key, *xid, *len)?, *tid);
    }
    Ok(())
}

/// Ends the version at a tid.
fn end(rt: &impl Abort, rel: &mut RowVersions, xacts: &XactTable, tid: Tid, xid: u64)
    requires { AreAssigned xacts.now rel.old.pages }
    ensures { AreAssigned xacts.now rel.new.pages }
{
    assert!(rt; 3 <= xid);
    assert!(rt; xid < xacts.next());
    assert!(rt; rel.version_at(tid).is_some());
    rel.set_ender(tid, xid);
}

/// Prunes the first page, takes the entries of its dead slots away and frees the first of them; answers
/// how many slots are newly dead and how many entries went.
fn vacuum(
    rt: &impl Abort,
    alloc: Global,
    rel: &mut RowVersions,
    xacts: &XactTable,
    horizon: u64,
) -> Result<(u32, u64), AllocError>
    requires { AreAssigned xacts.now rel.old.pages }
    ensures { AreAssigned xacts.now rel.new.pages }
{
    let mut dead = TidList::new(alloc);
    assert!(rt; rel.pages() > 0);
    let count = rel.prune_page(0, xacts, horizon, &mut dead)?;
    let removed = rel.unindex(&dead);
    match dead.get(0) {
        Some(tid) => {
            rel.reap(*tid);
            Ok((count, removed))
        }
        None => Ok((count, removed)),
    }
}

/// The version of a key that a reader sees.
fn seen(
    rel: &RowVersions,
    xacts: &XactTable,
    shot: &Shot,
    key: i64,
    own: Option<u64>,
) -> Option<Tid>
    requires { AreAssigned xacts.now rel.now.pages }
{
    rel.seen_row(key, shot.id, &shot.registry, xacts, own)
}

fn at(page: u64, slot: u16) -> Tid {
    Tid { page, slot }
}

#[test]
fn what_an_aborted_transaction_put_is_vacuumed(rt: HostRuntime) -> Result<(), Fail> {
    let alloc = rt.alloc();
    let xacts = three_xacts(&rt, alloc)?;
    let mut rel = RowVersions::new(alloc, Schema::new(alloc, &[Storage::Plain])?);
    assert!(rt; rel.schema().storages().len() == 1 && rel.pages() == 0);
    let puts = [(7, 3, 24, at(0, 0)), (7, 4, 24, at(0, 1))];
    put_each(&rt, alloc, &mut rel, &xacts, &puts)?;
    assert!(rt; rel.version_of(7, 1) == Some(at(0, 1)));
    assert!(rt; vacuum(&rt, alloc, &mut rel, &xacts, 6)? == (1, 1));
    assert!(rt; rel.version_of(7, 0) == Some(at(0, 1)) && rel.version_of(7, 1).is_none());
    assert!(rt; rel.version_at(at(0, 0)).is_none());
    assert!(rt;
        rel.version_at(at(0, 1))
            .is_some_and(|version| version.inserter == 4 && version.ender.is_none())
    );
    assert!(rt; vacuum(&rt, alloc, &mut rel, &xacts, 6)? == (0, 0));
    put_each(&rt, alloc, &mut rel, &xacts, &[(8, 4, 24, at(0, 0))])?;
    Ok(())
}

#[test]
fn three_versions_of_a_key_lie_on_two_pages(rt: HostRuntime) -> Result<(), Fail> {
    let alloc = rt.alloc();
    let xacts = three_xacts(&rt, alloc)?;
    let mut rel = RowVersions::new(alloc, Schema::new(alloc, &[Storage::Plain])?);
    let puts = [
        (5, 4, 4000, at(0, 0)),
        (5, 4, 4000, at(0, 1)),
        (4, 4, 4000, at(1, 0)),
        (5, 4, 4000, at(1, 1)),
        (6, 4, 24, at(0, 2)),
    ];
    put_each(&rt, alloc, &mut rel, &xacts, &puts)?;
    assert!(rt; rel.pages() == 2);
    for (n, tid) in [at(0, 0), at(0, 1), at(1, 1)].iter().enumerate() {
        assert!(rt; rel.version_of(5, n) == Some(*tid));
    }
    assert!(rt; rel.version_of(5, 3).is_none() && rel.version_of(4, 1).is_none());
    Ok(())
}

#[test]
fn keys_at_both_ends(rt: HostRuntime) -> Result<(), Fail> {
    let alloc = rt.alloc();
    let xacts = three_xacts(&rt, alloc)?;
    let mut rel = RowVersions::new(alloc, Schema::new(alloc, &[Storage::Plain])?);
    let puts = [
        (i64::MAX, 4, 24, at(0, 0)),
        (-1, 4, 24, at(0, 1)),
        (i64::MIN, 4, 24, at(0, 2)),
        (0, 4, 24, at(0, 3)),
    ];
    put_each(&rt, alloc, &mut rel, &xacts, &puts)?;
    for (key, _, _, tid) in &puts {
        assert!(rt; rel.version_of(*key, 0) == Some(*tid) && rel.version_of(*key, 1).is_none());
        assert!(rt;
            rel.version_at(*tid)
                .is_some_and(|version| version.key == *key)
        );
    }
    assert!(rt; rel.version_of(i64::MIN + 1, 0).is_none());
    Ok(())
}

#[test]
fn a_reader_sees_what_was_committed_and_its_own(rt: HostRuntime) -> Result<(), Fail> {
    let alloc = rt.alloc();
    let xacts = three_xacts(&rt, alloc)?;
    let shot = Shot::take(alloc, &xacts)?;
    let mut rel = RowVersions::new(alloc, Schema::new(alloc, &[Storage::Plain])?);
    let puts = [
        (7, 3, 24, at(0, 0)),
        (7, 4, 24, at(0, 1)),
        (7, 5, 24, at(0, 2)),
    ];
    put_each(&rt, alloc, &mut rel, &xacts, &puts)?;
    assert!(rt; seen(&rel, &xacts, &shot, 7, None) == Some(at(0, 1)));
    // An ender that has aborted counts as none.
    end(&rt, &mut rel, &xacts, at(0, 1), 3);
    assert!(rt; seen(&rel, &xacts, &shot, 7, None) == Some(at(0, 1)));
    end(&rt, &mut rel, &xacts, at(0, 1), 5);
    assert!(rt; seen(&rel, &xacts, &shot, 7, None) == Some(at(0, 1)));
    assert!(rt; seen(&rel, &xacts, &shot, 7, Some(5)) == Some(at(0, 2)));
    assert!(rt; seen(&rel, &xacts, &shot, 8, Some(5)).is_none());
    // The same without a snapshot.
    assert!(rt; rel.current_row(7, &xacts, None) == Some(at(0, 1)));
    assert!(rt; rel.current_row(7, &xacts, Some(5)) == Some(at(0, 2)));
    assert!(rt; rel.current_row(8, &xacts, Some(5)).is_none());
    Ok(())
}

#[test]
fn copies_are_walked_with_their_stamps(rt: HostRuntime) -> Result<(), Fail> {
    let alloc = rt.alloc();
    let mut rel = RowVersions::new(alloc, Schema::new(alloc, &[Storage::Plain])?);
    let stamp = Stamp {
        inserter: 4,
        ender: Some(3),
    };
    for len in [LARGEST_TUPLE, 24, 24] {
        let _tid = rel.put_copy(7, stamp, data(alloc, len)?)?;
    }
    assert!(rt; rel.pages() == 2);
    assert!(rt; rel.slots(0) == 1 && rel.slots(1) == 2);
    assert!(rt;
        rel.version_at(at(1, 1)).is_some_and(|version| version.inserter == 4
            && version.ender == Some(3))
    );
    assert!(rt;
        rel.next_version(at(0, 1)) == Some(at(1, 0)) && rel.next_version(at(1, 2)).is_none()
    );
    Ok(())
}
