//! The machine.

ghost use Rattle.std.specs.Prelude.{◌≡◌, ◌+◌, ◌<◌, Contains, drop, length, IfOk, OnErr, OnOk};
ghost use Rattle.std.specs.List.Sorted.{IsSorted};
ghost use Rattle.slot_page.specs.Tids.{tid_cmp};
ghost use Rattle.slot_page.specs.declared.line.Tid.{Tid};
ghost use Rattle.toast_vacuum.specs.Ops.{Ops};
ghost use Rattle.toast_vacuum.specs.Machines.{AnswerMeans, AreReapable, CanStep, after_leaf, after_page, after_pages, after_reap, answer_at, begun, killed_at, on_page, reaped_all, target_at, told_by, vacuum_at};

use crate::stage::{Stage, VacuumStep};
use crate::sweepable::Sweepable;
use chunk_index::{Entry, Swept};
use slot_page::TidList;
use std::alloc::{AllocError, Global};
use std::marker::Model;
use xact_status::XactTable;

/// A vacuum under way.
///
/// It goes through the pages that its target had when it began, and removes what no reader could see
/// then. It goes on from step to step over whatever others have made of the target.
#[derive(Debug, Drop)]
pub struct Vacuum {
    horizon: u64,
    pages: u64,
    stage: Stage,
    gathered: TidList,
    removed: u64,
}

impl Model for Vacuum {
    ghost use Rattle.std.specs.Prelude.{◌≤◌, length};
    ghost use Rattle.toast_vacuum.specs.Vacuums.{Vacuuming};

    ghost Value = { Vacuuming };

    ghost view = { λ vacuum. record { horizon = vacuum.horizon; pages = vacuum.pages; stage = vacuum.stage; gathered = vacuum.gathered; removed = vacuum.removed } };

    ghost invariant = { λ vacuum. vacuum.removed ≤ length vacuum.gathered };
}

/// Where a vacuum goes on that has made all pages of its first round.
fn after_pages(gathered: usize) -> Stage
    ensures { result ≡ after_pages gathered }
{
    if gathered == 0 {
        Stage::Ended
    } else {
        Stage::Sweeping { from: None }
    }
}

/// Where it goes on after a page of the first round, with so many slots gathered.
fn after_page(page: u64, pages: u64, gathered: usize) -> Stage
    requires { page < pages }
    ensures { result ≡ after_page page pages gathered }
{
    if page + 1 < pages {
        Stage::Pruning { page: page + 1 }
    } else {
        after_pages(gathered)
    }
}

/// Where it goes on after a page of the last round, with the next page's slots from a place on.
fn after_reap(page: u64, at: usize, pages: u64) -> Stage
    requires { page < pages }
    ensures { result ≡ after_reap page at pages }
{
    if page + 1 < pages {
        Stage::Reaping { page: page + 1, at }
    } else {
        Stage::Ended
    }
}

/// Frees the slots of a page, which stand in a list from a place on, and answers where those of the
/// pages after it begin.
fn reap_page<T: Sweepable>(target: &mut T, page: u64, from: usize, gathered: &TidList) -> usize
    requires { AreReapable T.ops (on_page page (drop from gathered.now)) target.old }
    ensures at { result ≡ from + length (on_page page (drop from gathered.now)) }
    ensures reaped { target.new ≡ reaped_all T.ops (on_page page (drop from gathered.now)) target.old }
{
    let tids = gathered.as_slice();
    let mut at = from;
    while let Some(tid) = tids.get(at) {
        if tid.page != page {
            return at;
        }
        target.reap(*tid);
        at += 1;
    }
    at
}

impl Vacuum {
    /// A vacuum of a target before its first step. It removes what no reader can see under the horizon.
    pub fn begin<T: Sweepable>(alloc: Global, target: &T, horizon: u64) -> Vacuum
        ensures { result ≡ begun horizon (Ops.pages T.ops target.now) }
    {
        let pages = target.pages();
        let stage = if pages == 0 {
            Stage::Ended
        } else {
            Stage::Pruning { page: 0 }
        };
        Vacuum {
            horizon,
            pages,
            stage,
            gathered: TidList::new(alloc),
            removed: 0,
        }
    }

    /// Makes a page of the first round.
    fn prune<T: Sweepable>(
        &mut self,
        page: u64,
        target: &mut T,
        xacts: &XactTable,
    ) -> Result<(), AllocError>
        requires { CanStep T.ops xacts.now self.old target.old (Stage.Pruning page) }
        ensures target { OnOk result (target.new ≡ target_at T.ops xacts.now self.old target.old (Stage.Pruning page)) }
        ensures vacuum { OnOk result (self.new ≡ vacuum_at T.ops xacts.now self.old target.old (Stage.Pruning page)) }
        ensures unchanged { OnErr result (target.new ≡ target.old) }
        ensures stays { OnErr result (self.new ≡ self.old) }
    {
        let count = target.prune_page(page, xacts, self.horizon, &mut self.gathered)?;
        let gathered = self.gathered.len();
        self.removed += u64::from(count);
        self.stage = after_page(page, self.pages, gathered);
        Ok(())
    }

    /// Sweeps a leaf, where it is not pinned.
    fn sweep<T: Sweepable>(&mut self, from: Option<Entry>, target: &mut T) -> VacuumStep
        requires sorted { IsSorted tid_cmp self.old.gathered }
        requires dead { (t : Tid) → Contains self.old.gathered t → Ops.IsDeadAt T.ops target.old t }
        requires stands { self.old.stage ≡ Stage.Sweeping from }
        ensures target { target.new ≡ Ops.swept T.ops target.old from self.old.gathered }
        ensures vacuum { self.new ≡ record self.old { stage = after_leaf from (Ops.answer T.ops target.old from self.old.gathered) } }
        ensures answer { result ≡ told_by (Ops.answer T.ops target.old from self.old.gathered) }
    {
        match target.sweep(from, &self.gathered) {
            Swept::Next { from, .. } => {
                self.stage = Stage::Sweeping { from: Some(from) };
                VacuumStep::More
            }
            Swept::End { .. } => {
                self.stage = Stage::Reaping { page: 0, at: 0 };
                VacuumStep::More
            }
            Swept::Pinned { holder } => VacuumStep::Pinned { session: holder },
        }
    }

    /// Frees the gathered slots of a page, which begin at a place of the list.
    fn reap<T: Sweepable>(&mut self, page: u64, at: usize, target: &mut T)
        requires within { page < self.old.pages }
        requires reapable { AreReapable T.ops (on_page page (drop at self.old.gathered)) target.old }
        ensures target { target.new ≡ reaped_all T.ops (on_page page (drop at self.old.gathered)) target.old }
        ensures vacuum { self.new ≡ record self.old { stage = after_reap page (at + length (on_page page (drop at self.old.gathered))) self.old.pages } }
    {
        let next = reap_page(target, page, at, &self.gathered);
        self.stage = after_reap(page, next, self.pages);
    }

    /// Makes the next page or leaf.
    ///
    /// What it makes of the target and of the vacuum, and what it answers, follow from both as they were
    /// before. `Pinned` comes exactly where the leaf to be swept is pinned. Where there is no memory, all is
    /// as before.
    pub fn step<T: Sweepable>(
        &mut self,
        target: &mut T,
        xacts: &XactTable,
    ) -> Result<VacuumStep, AllocError>
        requires { CanStep T.ops xacts.now self.old target.old self.old.stage }

        // What a step answers, and what it then has made.
        ensures answer { IfOk result (λ step. step ≡ answer_at T.ops self.old target.old self.old.stage) }
        ensures target { OnOk result (target.new ≡ target_at T.ops xacts.now self.old target.old self.old.stage) }
        ensures vacuum { OnOk result (self.new ≡ vacuum_at T.ops xacts.now self.old target.old self.old.stage) }

        // What the answer tells by itself, and how many slots the step has made dead.
        ensures told { IfOk result (AnswerMeans target.old target.new self.old self.new) }
        ensures removed { OnOk result (self.new.removed ≡ self.old.removed + killed_at T.ops xacts.now self.old target.old self.old.stage) }

        // Where there is no memory, all is as before.
        ensures unchanged { OnErr result (target.new ≡ target.old) }
        ensures stays { OnErr result (self.new ≡ self.old) }
    {
        match self.stage {
            Stage::Pruning { page } => {
                self.prune(page, target, xacts)?;
                Ok(VacuumStep::More)
            }
            Stage::Sweeping { from } => Ok(self.sweep(from, target)),
            Stage::Reaping { page, at } => {
                self.reap(page, at, target);
                Ok(VacuumStep::More)
            }
            Stage::Ended => Ok(VacuumStep::Done {
                removed: self.removed,
            }),
        }
    }
}
