ghost use Rattle.std.specs.Prelude.{◌≡◌, true};
ghost use Rattle.snapshot_registry.specs.Snapshots.{is_registered};

use crate::{SnapId, SnapRegistry};
use std::alloc::{AllocError, Global};
use std::process::Abort;
use xact_status::XactTable;

// A snapshot in a registry of its own, so that it can be looked through at any later time.
#[derive(Drop)]
struct Shot {
    registry: SnapRegistry,
    id: SnapId,
    ghost registered: { is_registered registry id ≡ true },
}

impl Shot {
    fn take(alloc: Global, table: &XactTable) -> Result<Shot, AllocError> {
        let mut registry = SnapRegistry::new(alloc);
        let id = registry.take(table)?;
        Ok(Shot { registry, id })
    }

    // Whether a reader sees the row that 3 has inserted, 4 and 5 likewise, and last the row that 3
    // has inserted and 4 has deleted.
    fn rows(&self, rt: &impl Abort, table: &XactTable, own: Option<u64>) -> [bool; 4] {
        assert_eq!(rt; table.next(), 6);
        let a = self.registry.sees(self.id, table, 3, None, own);
        let b = self.registry.sees(self.id, table, 4, None, own);
        let c = self.registry.sees(self.id, table, 5, None, own);
        let deleted = self.registry.sees(self.id, table, 3, Some(4), own);
        [a, b, c, deleted]
    }
}

fn commit(rt: &impl Abort, table: &mut XactTable, xid: u64) {
    assert!(rt; table.running().contains(&xid));
    table.commit(xid);
}

// Three transactions in every order. Their beginnings are left out, since a transaction is unknown
// here until it writes. A small letter is the first write of one, with which it gets its
// xid, a capital its commit. Transactions are named in the order of their first writes, so a has the
// xid 3, b 4 and c 5. Beside each order stands, for a snapshot taken before the first step and after
// each, which of their changes a reader with that snapshot sees: those that were committed before it
// was taken ("Transaction Isolation, Read Committed Isolation Level").
const ORDERS: [(&[u8; 6], [&str; 7]); 15] = [
    (b"abcABC", ["", "", "", "", "a", "ab", "abc"]),
    (b"abcACB", ["", "", "", "", "a", "ac", "abc"]),
    (b"abcBAC", ["", "", "", "", "b", "ab", "abc"]),
    (b"abcBCA", ["", "", "", "", "b", "bc", "abc"]),
    (b"abcCAB", ["", "", "", "", "c", "ac", "abc"]),
    (b"abcCBA", ["", "", "", "", "c", "bc", "abc"]),
    (b"abAcBC", ["", "", "", "a", "a", "ab", "abc"]),
    (b"abAcCB", ["", "", "", "a", "a", "ac", "abc"]),
    (b"abBcAC", ["", "", "", "b", "b", "ab", "abc"]),
    (b"abBcCA", ["", "", "", "b", "b", "bc", "abc"]),
    (b"abABcC", ["", "", "", "a", "ab", "ab", "abc"]),
    (b"abBAcC", ["", "", "", "b", "ab", "ab", "abc"]),
    (b"aAbcBC", ["", "", "a", "a", "a", "ab", "abc"]),
    (b"aAbcCB", ["", "", "a", "a", "a", "ac", "abc"]),
    (b"aAbBcC", ["", "", "a", "a", "ab", "ab", "abc"]),
];

// Makes the steps of one order, and takes a snapshot before the first and after each.
fn shots_along(
    rt: &impl Abort,
    alloc: Global,
    table: &mut XactTable,
    steps: &[u8],
) -> Result<Vec<Shot>, AllocError> {
    let mut shots = vec![in alloc; Shot::take(alloc, table)?]?;
    for step in steps {
        match *step {
            b'A' => commit(rt, table, 3),
            b'B' => commit(rt, table, 4),
            b'C' => commit(rt, table, 5),
            _ => {
                let _xid = table.assign(1)?;
            }
        }
        shots.push(Shot::take(alloc, table)?)?;
    }
    Ok(shots)
}

// Looks through the snapshots of one order after its last step.
fn check_order(
    rt: &impl Abort,
    alloc: Global,
    steps: &[u8],
    seen: &[&str],
) -> Result<(), AllocError> {
    let mut table = XactTable::new(alloc);
    let shots = shots_along(rt, alloc, &mut table, steps)?;
    assert_eq!(rt; shots.len(), seen.len());
    for (shot, seen) in shots.iter().zip(seen) {
        let (a, b, c) = (seen.contains('a'), seen.contains('b'), seen.contains('c'));
        // A reader sees its own changes as well, committed or not, so the row it deleted is gone.
        assert_eq!(rt; shot.rows(rt, &table, None), [a, b, c, a && !b], "{seen}");
        assert_eq!(rt;
            shot.rows(rt, &table, Some(4)),
            [a, true, c, false],
            "{seen}"
        );
    }
    Ok(())
}

#[test]
fn a_snapshot_shows_what_was_committed_before_it(rt: HostRuntime) -> Result<(), AllocError> {
    for (steps, seen) in &ORDERS {
        check_order(&rt, rt.alloc(), steps.as_slice(), seen.as_slice())?;
    }
    Ok(())
}

#[test]
fn the_horizon_waits_for_holders(rt: HostRuntime) -> Result<(), AllocError> {
    let mut table = XactTable::new(rt.alloc());
    let mut registry = SnapRegistry::new(rt.alloc());
    let old = table.assign(1)?;
    let first = registry.take(&table)?;
    let _number = table.commit(old);
    let second = registry.take(&table)?;
    // The row that xid 3 has inserted is seen by the second snapshot alone.
    assert!(rt; registry.seen_by_any(&table, old, None));
    assert_eq!(rt; registry.horizon(&table), 3);
    registry.share(first);
    registry.release(first);
    assert_eq!(rt; registry.horizon(&table), 3);
    registry.release(first);
    assert_eq!(rt; registry.horizon(&table), 4);
    let again = registry.take(&table)?;
    assert_eq!(rt; again, first);
    registry.release(second);
    registry.release(again);
    assert!(rt; !registry.seen_by_any(&table, old, None));
    Ok(())
}
