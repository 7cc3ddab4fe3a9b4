//! The write of a row.

ghost use Rattle.std.specs.Prelude.{◌≡◌, ◌+◌, Some, IfErr, IfOk, slice_get};
ghost use Rattle.tuple_layout.specs.declared.cell.Cell.TheVariants.{Out};
ghost use Rattle.write_steps.specs.Writes.{column_at, new_write, parts_of, saving_from, with_cell};
ghost use Rattle.write_steps.specs.Standing.{CanBegin, CanPush, IsColumn, IsWriteStage, WriteStands};
ghost use Rattle.write_steps.specs.Steps.{WriteFails, WriteSteps};

use crate::next::{answer_at, marking_from, saving_from, taken, with_cell};
use crate::stage::{OldRow, Owner, PointerList, WriteStage, WriteStep};
use crate::version::{put, remove};
use change_log::Log;
use row_versions::RowVersions;
use std::alloc::Global;
use std::marker::Model;
use std::mem;
use toast_store::{MarkStep, SaveStep, ToastStore};
use tuple_layout::{Cell, Pointer, Stored};
use tuple_toaster::OutColumns;
use value_ids::{DrawFault, IdPool};

/// The write of a new row, of a changed one, or of one that is taken away.
///
/// Contracts see whose it is and how far it is.
#[derive(Debug, Drop)]
pub struct WriteJob {
    alloc: Global,
    owner: Owner,
    stage: WriteStage,
}

impl Model for WriteJob {
    ghost use Rattle.write_steps.specs.Writes.{Writing};
    ghost use Rattle.write_steps.specs.Standing.{IsWriteStage};

    ghost Value = { Writing };

    ghost view = { λ job. record { owner = job.owner; stage = job.stage } };

    ghost invariant = { λ job. IsWriteStage job.owner job.stage };
}

impl WriteJob {
    /// The write of a row of a table, by a session in the transaction with this xid: the old row, unless the
    /// row is new; the new one, unless it is taken away; and the columns of that which go out of line, in
    /// the order in which they are saved. Nothing is done yet.
    pub fn start(
        alloc: Global,
        table: u16,
        session: u16,
        xid: u64,
        old: Option<OldRow>,
        new: Option<Stored>,
        plan: OutColumns,
    ) -> Self
        requires { CanBegin old new plan }
        ensures { result ≡ new_write table session xid old new plan }
    {
        let owner = Owner {
            table,
            session,
            xid,
        };
        let stage = match (old, new) {
            (old, Some(new)) => saving_from(alloc, owner, old, new, plan, 0),
            (Some(old), None) => WriteStage::Remove { old },
            (None, None) => unreachable!(),
        };
        WriteJob {
            alloc,
            owner,
            stage,
        }
    }

    /// Makes one step: draws an id, puts a piece with its log entry, or adds its entry to the index, for the
    /// value that is being saved; or makes the version step, which puts the new version, ends the old one
    /// and logs the change; or asks for a batch of entries of a dropped pointer, or ends the chunk that an
    /// entry names.
    ///
    /// # Errors
    /// `NoValueId` comes at a draw alone, exactly where every id is in use. After each error all is as before.
    pub fn step(
        &mut self,
        rows: &mut RowVersions,
        toast: &mut ToastStore,
        ids: &mut IdPool,
        log: &mut Log,
    ) -> Result<WriteStep, DrawFault>
        requires stands { WriteStands (parts_of rows.old toast.old ids.old log.old) self.old }

        // What a step does, and why one is refused, with all as before.
        ensures ok { IfOk result (WriteSteps (parts_of rows.old toast.old ids.old log.old) self.old
            (parts_of rows.new toast.new ids.new log.new) self.new) }
        ensures err { IfErr result (WriteFails (parts_of rows.old toast.old ids.old log.old) self.old
            (parts_of rows.new toast.new ids.new log.new) self.new) }
    {
        match &mut self.stage {
            WriteStage::Saving {
                old,
                new,
                plan,
                at,
                save,
            } => {
                let SaveStep::Done(pointer) = save.step(toast, ids, log)? else {
                    return Ok(WriteStep::More);
                };
                let plan = mem::replace(plan, OutColumns::new());
                let stage = pass_on(self.alloc, self.owner, old.take(), new, plan, *at, pointer);
                self.stage = stage;
                Ok(WriteStep::More)
            }
            WriteStage::Put { old, new, plan: _ } => {
                let dropped = put(self.alloc, self.owner, old, new, rows, log)?;
                self.stage = marking_from(self.owner, dropped, 0);
                Ok(answer_at(&self.stage))
            }
            WriteStage::Remove { old } => {
                let dropped = remove(self.alloc, self.owner, old, rows, log)?;
                self.stage = marking_from(self.owner, dropped, 0);
                Ok(answer_at(&self.stage))
            }
            WriteStage::Marking { dropped, at, mark } => {
                let MarkStep::Done = mark.step(toast)? else {
                    return Ok(WriteStep::More);
                };
                let dropped = mem::replace(dropped, PointerList::new(self.alloc));
                self.stage = marking_from(self.owner, dropped, *at + 1);
                Ok(answer_at(&self.stage))
            }
            WriteStage::Over => unreachable!(),
        }
    }
}

/// Where a write stands once the value of a column is saved: its pointer stands in the row, and the next
/// column follows.
fn pass_on(
    alloc: Global,
    owner: Owner,
    old: Option<OldRow>,
    new: &mut Stored,
    plan: OutColumns,
    at: usize,
    pointer: Pointer,
) -> WriteStage
    requires here { slice_get plan at ≡ Some (column_at plan at) }
    requires there { IsColumn new.old (column_at plan at) }
    requires later { CanPush new.old plan (at + 1) }
    ensures stage { result ≡ saving_from owner old (with_cell new.old (column_at plan at) (Out pointer)) plan (at + 1) }
    ensures own { IsWriteStage owner result }
{
    let column = plan.as_slice()[at];
    let (new, _) = with_cell(taken(alloc, new), column, Cell::Out(pointer));
    saving_from(alloc, owner, old, new, plan, at + 1)
}
