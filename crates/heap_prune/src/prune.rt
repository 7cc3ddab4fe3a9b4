//! The prune of one page of a relation.

ghost use Rattle.std.specs.Prelude.{◌≡◌, ◌<◌, ◌++◌, length, IfOk, OnOk, OnErr};
ghost use Rattle.heap_prune.specs.Prunes.{AreAssigned, dead_on, newly_dead_on, with_pruned};

use crate::page::{add_dead, prune};
use crate::stamped::Stamped;
use slot_page::{PageList, TidList};
use std::alloc::AllocError;
use xact_status::XactTable;

/// Makes the slots of a page dead whose items no reader can see under a horizon, adds the tids of all the
/// page's dead slots to a list, in order, and answers how many are new. Where there is no memory, the
/// pages and the list stay.
pub fn prune_page<T: Stamped>(
    pages: &mut PageList<T>,
    page: u64,
    xacts: &XactTable,
    horizon: u64,
    dead: &mut TidList,
) -> Result<u32, AllocError>
    requires there { page < length pages.old }
    requires assigned { AreAssigned T.stamp_of xacts.now pages.old }

    // What Ok answers, and what is then pruned and gathered.
    ensures count { IfOk result (λ count. count ≡ newly_dead_on T.stamp_of xacts.now horizon pages.old page) }
    ensures pruned { OnOk result (pages.new ≡ with_pruned T.stamp_of xacts.now horizon pages.old page) }
    ensures gathered { OnOk result (dead.new ≡ dead.old ++ dead_on pages.new page) }

    // Where there is no memory, all is as before.
    ensures unchanged { OnErr result (pages.new ≡ pages.old) }
    ensures list { OnErr result (dead.new ≡ dead.old) }
{
    let before = dead.len();
    add_dead(pages.page(page), page, xacts, horizon, dead)?;
    if dead.len() == before {
        return Ok(0);
    }
    Ok(prune(pages.page_mut(page), xacts, horizon))
}
