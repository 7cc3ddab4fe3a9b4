//! What a vacuum works on.

ghost use Rattle.std.specs.Prelude.{◌≡◌, ◌<◌, ◌++◌, Contains, IfOk, OnErr, OnOk};
ghost use Rattle.std.specs.List.Sorted.{IsSorted};
ghost use Rattle.slot_page.specs.Tids.{tid_cmp};
ghost use Rattle.slot_page.specs.declared.line.Tid.{Tid};
ghost use Rattle.toast_vacuum.specs.Ops.{AreLawful, Ops};

use chunk_index::{Entry, Swept};
use slot_page::{Tid, TidList};
use std::alloc::AllocError;
use xact_status::XactTable;

/// A relation with what names its slots.
pub trait Sweepable {
    /// What each method makes of the relation and answers.
    ghost ops: { Ops Self };

    /// The number of pages.
    fn pages(&self) -> u64
        ensures { result ≡ Ops.pages ops self.now };

    /// Makes the slots of a page dead whose items no reader can see under a horizon, adds the tids of all
    /// the page's dead slots to a list, in order, and answers how many are new. Where there is no memory,
    /// the relation and the list stay.
    fn prune_page(
        &mut self,
        page: u64,
        xacts: &XactTable,
        horizon: u64,
        dead: &mut TidList,
    ) -> Result<u32, AllocError>
        requires there { page < Ops.pages ops self.old }
        requires ready { Ops.IsReady ops xacts.now self.old }
        ensures count { IfOk result (λ count. count ≡ Ops.newly ops xacts.now horizon self.old page) }
        ensures pruned { OnOk result (self.new ≡ Ops.pruned ops xacts.now horizon self.old page) }
        ensures gathered { OnOk result (dead.new ≡ dead.old ++ Ops.dead_on ops self.new page) }
        ensures unchanged { OnErr result (self.new ≡ self.old) }
        ensures list { OnErr result (dead.new ≡ dead.old) };

    /// Takes away what names the listed slots, which are dead, in the leaf that `from` lies in, or in the
    /// first one. The tids are in order. A leaf that is pinned stays as it is.
    fn sweep(&mut self, from: Option<Entry>, dead: &TidList) -> Swept
        requires sorted { IsSorted tid_cmp dead.now }
        requires dead { (tid : Tid) → Contains dead.now tid → Ops.IsDeadAt ops self.old tid }
        ensures answer { result ≡ Ops.answer ops self.old from dead.now }
        ensures swept { self.new ≡ Ops.swept ops self.old from dead.now };

    /// Frees a dead slot, which nothing names, for another item.
    fn reap(&mut self, tid: Tid)
        requires dead { Ops.IsDeadAt ops self.old tid }
        requires unnamed { Ops.IsFree ops self.old tid }
        ensures freed { self.new ≡ Ops.reaped ops self.old tid };

    ghost laws: { AreLawful ops };
}
