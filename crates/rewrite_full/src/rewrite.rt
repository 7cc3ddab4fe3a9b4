//! The machine.

ghost use Rattle.std.specs.Prelude.{◌≡◌, ◌≤◌, ◌<◌, ◌-◌, ◌+◌, ℕ, Some, None, true, is_some, IfErr, IfOk, OnErr, OnOk, length, slice_get};
ghost use Rattle.std.specs.List.{All};
ghost use Rattle.std.specs.Int.{w64};
ghost use Rattle.std.specs.Int.RustNames.{FitsSigned};
ghost use Rattle.slot_page.specs.Pages.{item_in};
ghost use Rattle.tuple_layout.specs.Schemas.{HasColumns};
ghost use Rattle.tuple_layout.specs.Sizes.{largest_tuple};
ghost use Rattle.tuple_layout.specs.Tuples.{IsWithinLimits, row_size, tuple};
ghost use Rattle.value_ids.specs.declared.fault.DrawFault.TheVariants.{Memory};
ghost use Rattle.row_versions.specs.Versions.{stamped_version};
ghost use Rattle.toast_store.specs.PieceJobs.{IsLaying, PiecesStand};
ghost use Rattle.xact_status.specs.Xacts.{Xacts};
ghost use Rattle.snapshot_registry.specs.Snapshots.{Snaps};
ghost use Rattle.row_versions.specs.Relations.{AreAssigned, IsRelation, with_version};
ghost use Rattle.toast_store.specs.Stores.{IsStore, Store};
ghost use Rattle.rewrite_facts.specs.Copies.{next_place, with_cells};
ghost use Rattle.rewrite_facts.specs.Holds.{RewriteHolds, StandsAt};
ghost use Rattle.rewrite_facts.specs.Left.{IsProgress, left};
ghost use Rattle.rewrite_facts.specs.Rewrites.{answer_at, at_stage, column_at, new_rewrite, table_of};
ghost use Rattle.rewrite_facts.specs.declared.stage.RewriteStage.TheVariants.{Placing, Ready, Visiting};
ghost use Rattle.rewrite_full.specs.Moves.{CanCopy, Falls, FitsPage, HasFewer, HasInline, HasNoMore, HoldsAt, IsAtOrPast, IsFilled, IsNextStop, IsUnshared, IsVisited, TakesUp, with_copy};
ghost use Rattle.rewrite_full.specs.Stages.{DrawsOn, IsBegun, IsDrawing, LaysOn};
ghost use Rattle.rewrite_full.specs.Steps.{IsDrawCause, IsEvent, KeepsRead};

use crate::columns::{Both, column_at, id_at, next_shared, pointer_of, taken, with_pointer};
use crate::copies::{copy_of, next_of};
use crate::reads::{read, with_value};
use crate::visits::{next_chosen, next_place};
use rewrite_facts::{RewriteStage, RewriteStep, RowCopy};
use row_versions::RowVersions;
use slot_page::Tid;
use snapshot_registry::SnapRegistry;
use std::alloc::{AllocError, Global};
use std::marker::Model;
use std::mem;
use toast_store::{PieceJob, ToastStore};
use tuple_layout::{Stored, form_tuple};
use tuple_toaster::OutColumns;
use value_ids::{DrawFault, IdPool};
use xact_status::XactTable;

/// What a rewrite reads of: the old relations, and how transactions and snapshots stand.
#[derive(Clone, Copy)]
struct Olds<'a> {
    rows: &'a RowVersions,
    toast: &'a ToastStore,
    xacts: &'a XactTable,
    snaps: &'a SnapRegistry,
}

/// A rewrite of a table under way: new relations, into which it copies each version that is live, or that a
/// registered snapshot sees, in the order of the old ones.
///
/// Contracts see whose it is, the new relations, and how far it is.
#[derive(Debug, Drop)]
pub struct Rewrite {
    alloc: Global,
    table: u16,
    session: u16,
    xid: u64,
    rows: RowVersions,
    toast: ToastStore,
    place: Tid,
    stage: RewriteStage,
}

impl Model for Rewrite {
    ghost use Rattle.rewrite_facts.specs.Rewrites.{Rewriting};

    ghost Value = { Rewriting };

    ghost view = { λ r. record { table = r.table; session = r.session; xid = r.xid; rows = r.rows; toast = r.toast; place = r.place; stage = r.stage } };
}

impl Rewrite {
    /// The rewrite of a table by a session, in the transaction with this xid, with new relations in which there is
    /// nothing yet. The session has no pin in the old store. The error is for want of memory.
    pub fn begin(
        alloc: Global,
        table: u16,
        session: u16,
        xid: u64,
        rows: &RowVersions,
        toast: &ToastStore,
    ) -> Result<Self, AllocError>
        ensures { IfOk result (λ r. r ≡ new_rewrite table session xid (table_of rows.now toast.now)) }
    {
        let schema = rows.schema().copy(alloc)?;
        let new = ToastStore::new(alloc, toast.rel().rel_id())?;
        Ok(Rewrite {
            alloc,
            table,
            session,
            xid,
            rows: RowVersions::new(alloc, schema),
            toast: new,
            place: Tid { page: 0, slot: 0 },
            stage: RewriteStage::Visiting,
        })
    }

    /// The stage that follows a visit, where one is next: at the next version that is copied, or at the end.
    fn visited(&mut self, old: &Olds<'_>, stage: RewriteStage) -> Result<RewriteStage, AllocError>
        requires assigned { AreAssigned old.now.xacts.now old.now.rows.now.pages }
        requires can { CanCopy old.now.xacts.now old.now.snaps.now (table_of old.now.rows.now old.now.toast.now) }
        requires holds { HoldsAt old.now.xacts.now old.now.snaps.now old.now.rows.now old.now.toast.now self.old stage }
        ensures holds { IfOk result (HoldsAt old.now.xacts.now old.now.snaps.now old.now.rows.now old.now.toast.now self.new) }
        ensures visited { IfOk result IsVisited }
        ensures reads { IfOk result (KeepsRead self.old.session stage) }
        ensures chosen { stage ≡ Visiting → IfOk result (λ next. IsNextStop old.now.xacts.now old.now.snaps.now old.now.rows.now.pages self.old.place self.new.place) }
        ensures left { IfOk result (HasNoMore (table_of old.now.rows.now old.now.toast.now) self.old stage self.new) }
        ensures rest { self.new ≡ record self.old { place = self.new.place } }
    {
        match stage {
            RewriteStage::Visiting => {
                let place = next_chosen(old.rows, old.xacts, old.snaps, self.place);
                self.place = place;
                let Some(version) = old.rows.version_at(place) else {
                    return Ok(RewriteStage::Ready);
                };
                let copy = copy_of(self.alloc, old.rows.schema(), version)?;
                Ok(RewriteStage::Filling { copy })
            }
            other => Ok(other),
        }
    }

    /// The stage that follows where a copy has all its values so far: at its next read, or at the columns that go out.
    fn filled(&self, old: &Olds<'_>, stage: RewriteStage) -> Result<RewriteStage, AllocError>
        requires sound { IsStore old.now.toast.now }
        requires visited { IsVisited stage }
        requires holds { HoldsAt old.now.xacts.now old.now.snaps.now old.now.rows.now old.now.toast.now self.now stage }
        ensures holds { IfOk result (HoldsAt old.now.xacts.now old.now.snaps.now old.now.rows.now old.now.toast.now self.now) }
        ensures filled { IfOk result IsFilled }
        ensures reads { IfOk result (KeepsRead self.now.session stage) }
        ensures left { IfOk result (HasNoMore (table_of old.now.rows.now old.now.toast.now) self.now stage self.now) }
    {
        match stage {
            RewriteStage::Filling { copy } => {
                next_of(self.alloc, self.session, old.rows.schema(), copy)
            }
            other => Ok(other),
        }
    }

    /// A copy past its next columns whose values the new relation has, and the place of the one after them.
    fn pass_shared(
        &self,
        old: &Olds<'_>,
        toast_rel: u32,
        copy: RowCopy,
        columns: &OutColumns,
        at: usize,
    ) -> (RowCopy, usize)
        requires own { toast_rel ≡ self.now.toast.rel.rel_id }
        requires holds { HoldsAt old.now.xacts.now old.now.snaps.now old.now.rows.now old.now.toast.now self.now (Placing copy columns.now at) }
        ensures holds { HoldsAt old.now.xacts.now old.now.snaps.now old.now.rows.now old.now.toast.now self.now (Placing result.0 columns.now result.1) }
        ensures unshared { IsUnshared self.now.toast result.0 columns.now result.1 }
        ensures left { HasNoMore (table_of old.now.rows.now old.now.toast.now) self.now (Placing copy columns.now at) self.now (Placing result.0 columns.now result.1) }
    {
        let count = columns.as_slice().len();
        let mut copy = copy;
        let mut at = at;
        while at < count {
            let Some((column, id)) = next_shared(&self.toast, &copy, columns, at) else {
                return (copy, at);
            };
            let pointer = pointer_of(&copy, column, id, toast_rel);
            copy = with_pointer(copy, column, pointer);
            at += 1;
        }
        (copy, at)
    }

    /// The stage at which the value of a column, taken out of the copy, comes on its way under an id.
    fn begun(
        &self,
        copy: RowCopy,
        columns: OutColumns,
        at: usize,
        column: u16,
        id: u32,
    ) -> RewriteStage
        requires { HasInline copy column }
        ensures { IsBegun self.now.xid copy columns at column id result }
    {
        let (copy, value) = taken(copy, column);
        let pieces = PieceJob::new(self.xid, id, value);
        RewriteStage::Laying {
            copy,
            columns,
            at,
            pieces,
        }
    }

    /// The stage that follows where columns go out: past those whose values the new relation has; a value that was
    /// out of line comes on its way under its id.
    fn passed(&self, old: &Olds<'_>, toast_rel: u32, stage: RewriteStage) -> RewriteStage
        requires own { toast_rel ≡ self.now.toast.rel.rel_id }
        requires filled { IsFilled stage }
        requires holds { HoldsAt old.now.xacts.now old.now.snaps.now old.now.rows.now old.now.toast.now self.now stage }
        ensures holds { HoldsAt old.now.xacts.now old.now.snaps.now old.now.rows.now old.now.toast.now self.now result }
        ensures drawing { IsDrawing result }
        ensures reads { KeepsRead self.now.session stage result }
        ensures left { HasNoMore (table_of old.now.rows.now old.now.toast.now) self.now stage self.now result }
    {
        let RewriteStage::Placing { copy, columns, at } = stage else {
            return stage;
        };
        let (copy, at) = self.pass_shared(old, toast_rel, copy, &columns, at);
        let Some(column) = column_at(&columns, at) else {
            return RewriteStage::Placing { copy, columns, at };
        };
        let Some(id) = id_at(&copy, column) else {
            return RewriteStage::Placing { copy, columns, at };
        };
        self.begun(copy, columns, at, column, id)
    }

    /// The stage of a step's event: past what takes no step.
    fn settled(
        &mut self,
        rows: &RowVersions,
        toast: &ToastStore,
        xacts: &XactTable,
        snaps: &SnapRegistry,
        stage: RewriteStage,
    ) -> Result<RewriteStage, AllocError>
        requires assigned { AreAssigned xacts.now rows.now.pages }
        requires can { CanCopy xacts.now snaps.now (table_of rows.now toast.now) }
        requires holds { HoldsAt xacts.now snaps.now rows.now toast.now self.old stage }
        ensures holds { IfOk result (HoldsAt xacts.now snaps.now rows.now toast.now self.new) }
        ensures drawing { IfOk result IsDrawing }
        ensures reads { IfOk result (KeepsRead self.old.session stage) }
        ensures chosen { stage ≡ Visiting → IfOk result (λ next. IsNextStop xacts.now snaps.now rows.now.pages self.old.place self.new.place) }
        ensures left { IfOk result (HasNoMore (table_of rows.now toast.now) self.old stage self.new) }
        ensures sound { IsStore toast.now }
        ensures rest { self.new ≡ record self.old { place = self.new.place } }
    {
        let toast_rel = toast.rel().rel_id();
        let old = Olds {
            rows,
            toast,
            xacts,
            snaps,
        };
        let stage = self.visited(&old, stage)?;
        let stage = self.filled(&old, stage)?;
        Ok(self.passed(&old, toast_rel, stage))
    }

    /// Draws an id for the value of a column, which is then on its way. After an error the pool is as before.
    fn draw(
        &self,
        toast: &ToastStore,
        ids: &mut IdPool,
        copy: RowCopy,
        columns: OutColumns,
        at: usize,
        column: u16,
    ) -> Result<RewriteStage, DrawFault>
        requires value { HasInline copy column }
        ensures ok { IfOk result (DrawsOn toast.now ids.old self.now copy columns at column ids.new) }
        ensures cause { IfErr result (IsDrawCause toast.now ids.old self.now) }
        ensures stays { OnErr result (ids.new ≡ ids.old) }
    {
        let both = Both {
            old: toast,
            new: &self.toast,
        };
        let id = ids.draw(self.table, self.session, &both)?;
        Ok(self.begun(copy, columns, at, column, id))
    }

    /// Puts the new version of a copy all of whose columns are out that go out. After an error the new rows are as
    /// before.
    fn put(&mut self, rows: &RowVersions, copy: RowCopy) -> Result<RewriteStage, DrawFault>
        requires key { FitsSigned w64 copy.key }
        requires one_each { length copy.cells ≡ length rows.now.schema.storages }
        requires limits { All IsWithinLimits copy.cells }
        requires size { FitsPage rows.now copy }
        requires there { is_some (item_in rows.now.pages self.old.place) ≡ true }
        ensures stage { IfOk result (λ next. next ≡ Visiting) }
        ensures put { OnOk result (self.new ≡ with_copy rows.now.schema.storages self.old copy) }
        ensures cause { IfErr result (λ fault. fault ≡ Memory) }
    {
        if copy.cells.len() > rows.schema().storages().len() {
            unreachable!()
        }
        let stored = Stored {
            key: copy.key,
            cells: copy.cells,
        };
        let tuple = form_tuple(self.alloc, rows.schema(), &stored)?;
        let _tid = self.rows.put_copy(stored.key, copy.stamp, tuple)?;
        self.place = next_place(rows, self.place);
        Ok(RewriteStage::Visiting)
    }

    /// Makes a step of the pieces of a value. After an error the new values are as before.
    fn lay(
        &mut self,
        copy: RowCopy,
        columns: OutColumns,
        at: usize,
        pieces: PieceJob,
    ) -> Result<RewriteStage, DrawFault>
        requires laying { IsLaying pieces.stage }
        requires stands { PiecesStand self.old.toast pieces }
        requires here { slice_get columns at ≡ Some (column_at columns at) }
        requires from { 1 ≤ column_at columns at }
        requires there { column_at columns at - 1 < length copy.cells }
        ensures ok { IfOk result (LaysOn self.old.toast copy columns at pieces self.old.toast.rel.rel_id self.new.toast) }
        ensures rest { self.new ≡ record self.old { toast = self.new.toast } }
        ensures cause { IfErr result (λ fault. fault ≡ Memory) }
        ensures sound { IsStore self.old.toast }
    {
        let toast_rel = self.toast.rel().rel_id();
        let mut pieces = pieces;
        pieces.step(&mut self.toast)?;
        if !pieces.is_over() {
            return Ok(RewriteStage::Laying {
                copy,
                columns,
                at,
                pieces,
            });
        }
        let column = columns.as_slice()[at];
        let pointer = pieces.pointer(toast_rel);
        Ok(RewriteStage::Placing {
            copy: with_pointer(copy, column, pointer),
            columns,
            at: at + 1,
        })
    }

    /// Makes the event of a stage, and answers the stage after it.
    fn act(
        &mut self,
        rows: &RowVersions,
        toast: &mut ToastStore,
        ids: &mut IdPool,
        stage: RewriteStage,
    ) -> Result<RewriteStage, DrawFault>
        requires sound { IsStore toast.old }
        requires drawing { IsDrawing stage }
        requires stands { StandsAt (table_of rows.now toast.old) (at_stage self.old stage) stage }
        ensures holds { (xacts : Xacts) (snaps : Snaps) → HoldsAt xacts snaps rows.now toast.old self.old stage → IfOk result (HoldsAt xacts snaps rows.now toast.new self.new) }
        ensures event { IfOk result (λ next. IsEvent toast.old ids.old (at_stage self.old stage) toast.new ids.new (at_stage self.new next)) }
        ensures place { OnOk result (IsAtOrPast self.old.place self.new.place) }
        ensures falls { IfOk result (HasFewer (table_of rows.now toast.old) self.old stage (table_of rows.now toast.new) self.new) }
        ensures cause { IfErr result (IsDrawCause toast.old ids.old self.old) }
        ensures toast_stays { OnErr result (toast.new ≡ toast.old) }
        ensures ids_stay { OnErr result (ids.new ≡ ids.old) }
    {
        match stage {
            RewriteStage::Reading {
                copy,
                at,
                mut fetch,
            } => match read(toast, &mut fetch)? {
                None => Ok(RewriteStage::Reading { copy, at, fetch }),
                Some(value) => Ok(RewriteStage::Filling {
                    copy: with_value(copy, at, value),
                }),
            },
            RewriteStage::Placing { copy, columns, at } => match column_at(&columns, at) {
                Some(column) => self.draw(toast, ids, copy, columns, at, column),
                None => self.put(rows, copy),
            },
            RewriteStage::Laying {
                copy,
                columns,
                at,
                pieces,
            } => self.lay(copy, columns, at, pieces),
            RewriteStage::Ready => Ok(RewriteStage::Ready),
            RewriteStage::Visiting | RewriteStage::Filling { .. } => unreachable!(),
        }
    }

    /// Makes one step: goes on to the next version that is copied, where one is due, and makes one event of its copy.
    /// It asks for a batch of entries of an old value or reads a chunk of it; or draws an id, puts a piece or adds
    /// its entry, for a value that goes out; or puts the new version, with who put and ended the old one. With no
    /// version left it does nothing, and answers `Ready`.
    ///
    /// A value that was out of line keeps its id, and where the new relation has that id already no piece is put. Any
    /// other value gets an id that is used in neither relation.
    ///
    /// # Errors
    /// `NoValueId` comes at a draw alone, exactly where every id is in use. After each error the old relations and
    /// the pool are as before, and the rewrite is to be dropped.
    pub fn step(
        &mut self,
        rows: &RowVersions,
        toast: &mut ToastStore,
        xacts: &XactTable,
        snaps: &SnapRegistry,
        ids: &mut IdPool,
    ) -> Result<RewriteStep, DrawFault>
        requires assigned { AreAssigned xacts.now rows.now.pages }
        requires can { CanCopy xacts.now snaps.now (table_of rows.now toast.old) }
        requires holds { RewriteHolds xacts.now snaps.now (table_of rows.now toast.old) self.old }

        // What the step answers, what holds after it, and what it has done.
        ensures answer { IfOk result (λ step. step ≡ answer_at self.new.stage) }
        ensures holds { OnOk result (RewriteHolds xacts.now snaps.now (table_of rows.now toast.new) self.new) }
        ensures chosen { self.old.stage ≡ Visiting → OnOk result (TakesUp xacts.now snaps.now rows.now.pages self.old.place self.new.place) }
        ensures event { OnOk result (IsEvent toast.old ids.old self.old toast.new ids.new self.new) }
        ensures falls { IfOk result (Falls (table_of rows.now toast.old) self.old (table_of rows.now toast.new) self.new) }

        // Why it is refused, and what stays then.
        ensures cause { IfErr result (IsDrawCause toast.old ids.old self.old) }
        ensures toast_stays { OnErr result (toast.new ≡ toast.old) }
        ensures ids_stay { OnErr result (ids.new ≡ ids.old) }
    {
        let stage = mem::replace(&mut self.stage, RewriteStage::Visiting);
        let stage = self.settled(rows, toast, xacts, snaps, stage)?;
        let stage = self.act(rows, toast, ids, stage)?;
        self.stage = stage;
        Ok(answer_at(&self.stage))
    }

    /// Takes the place of the old relations, once `Ready` was answered.
    pub fn swap(self, rows: &mut RowVersions, toast: &mut ToastStore)
        requires { self.stage ≡ Ready }
        ensures rows { rows.new ≡ self.rows }
        ensures toast { toast.new ≡ self.toast }
    {
        let Rewrite {
            rows: new_rows,
            toast: new_toast,
            ..
        } = self;
        *rows = new_rows;
        *toast = new_toast;
    }
}

/// What a step answers, by where the rewrite stands then.
fn answer_at(stage: &RewriteStage) -> RewriteStep
    ensures { result ≡ answer_at stage.now }
{
    match stage {
        RewriteStage::Ready => RewriteStep::Ready,
        RewriteStage::Visiting
        | RewriteStage::Filling { .. }
        | RewriteStage::Reading { .. }
        | RewriteStage::Placing { .. }
        | RewriteStage::Laying { .. } => RewriteStep::More,
    }
}
