ghost use Rattle.std.specs.Prelude.{◌≡◌, IfOk};
ghost use Rattle.xact_status.specs.Xacts.{next_xid};
ghost use Rattle.heap_prune.specs.Prunes.{AreAssigned};

use crate::{Stamped, prune_page};
use slot_page::{PageList, Tid, TidList};
use std::alloc::{AllocError, Global};
use std::process::Abort;
use xact_status::{Stamp, XactTable};

/// An item that is its stamp alone.
#[derive(Debug, Drop)]
struct Mark {
    stamp: Stamp,
}

impl Stamped for Mark {
    ghost stamp_of = { λ mark. mark.stamp };

    fn stamp(&self) -> Stamp {
        self.stamp
    }
}

/// A table with three transactions: 3 has aborted, 4 has committed, and 5 runs.
fn three_xacts(rt: &impl Abort, alloc: Global) -> Result<XactTable, AllocError>
    ensures { IfOk result (λ xacts. next_xid xacts ≡ 6) }
{
    let mut xacts = XactTable::new(alloc);
    let aborted = xacts.assign(1)?;
    let committed = xacts.assign(2)?;
    let _running = xacts.assign(3)?;
    assert!(rt; xacts.running().contains(&aborted));
    xacts.abort(aborted);
    assert!(rt; xacts.running().contains(&committed));
    let _number = xacts.commit(committed);
    assert_eq!(rt; xacts.next(), 6);
    Ok(xacts)
}

/// Puts an item that one transaction has put and another has ended.
fn put(
    rt: &impl Abort,
    pages: &mut PageList<Mark>,
    xacts: &XactTable,
    inserter: u64,
    ender: u64,
) -> Result<(), AllocError>
    requires { AreAssigned ⟦<Mark as Stamped>⟧.stamp_of xacts.now pages.old }
    ensures { AreAssigned ⟦<Mark as Stamped>⟧.stamp_of xacts.now pages.new }
{
    assert!(rt; 3 <= inserter);
    assert!(rt; inserter < xacts.next());
    assert!(rt; 3 <= ender);
    assert!(rt; ender < xacts.next());
    let stamp = Stamp {
        inserter,
        ender: Some(ender),
    };
    let _tid = pages.put(24, Mark { stamp })?;
    Ok(())
}

/// The dead slots of a page of four items after a prune. In slot 0 the inserter has aborted; in the
/// others it has committed, and the ender has aborted, has committed, and runs.
fn dead_slots(
    rt: &impl Abort,
    alloc: Global,
    xacts: &XactTable,
    horizon: u64,
) -> Result<(u32, TidList), AllocError> {
    let mut pages = PageList::new(alloc);
    for (inserter, ender) in [(3, 4), (4, 3), (4, 4), (4, 5)] {
        put(rt, &mut pages, xacts, inserter, ender)?;
    }
    assert!(rt; pages.len() > 0);
    let mut dead = TidList::new(alloc);
    let count = prune_page(&mut pages, 0, xacts, horizon, &mut dead)?;
    Ok((count, dead))
}

fn at(slot: u16) -> Tid {
    Tid { page: 0, slot }
}

#[test]
fn a_prune_takes_what_no_reader_can_see(rt: HostRuntime) -> Result<(), AllocError> {
    let alloc = rt.alloc();
    let xacts = three_xacts(&rt, alloc)?;
    let (count, dead) = dead_slots(&rt, alloc, &xacts, 5)?;
    assert!(rt; count == 2 && dead.as_slice() == [at(0), at(2)].as_slice());
    // An ender at the horizon may still be unseen by a reader.
    let (count, dead) = dead_slots(&rt, alloc, &xacts, 4)?;
    assert!(rt; count == 1 && dead.as_slice() == [at(0)].as_slice());
    Ok(())
}
