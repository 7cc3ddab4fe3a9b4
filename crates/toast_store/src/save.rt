//! Saving a value.

ghost use Rattle.std.specs.Prelude.{◌≡◌, ◌≤◌, IfErr, IfOk, OnErr, OnOk, length};
ghost use Rattle.toast_store.specs.Stores.{IsStore};
ghost use Rattle.toast_store.specs.PieceJobs.{IsLaying, IsPieceJob, PiecesStand, PiecesStep};
ghost use Rattle.toast_store.specs.Saves.{IsSave, IsUnderWay, SaveFails, SaveStands, SaveSteps, logged_by, new_save, parts_of};

use crate::piece_job::PieceJob;
use crate::store::ToastStore;
use change_log::{Log, LogEntry};
use external_pointer::Pointer;
use std::alloc::{AllocError, Global};
use std::marker::Model;
use std::mem;
use tuple_layout::Bytes;
use value_ids::{DrawFault, IdPool};

/// The toast relation of table N has N more than this as its id.
pub const FIRST_TOAST_REL: u32 = 8192;

/// Where the value of a save is.
#[derive(Debug, Drop)]
enum SaveStage {
    /// With the save, for the transaction with this xid: its id is to be drawn.
    Drawing { xid: u64, value: Bytes },
    /// With the job of its pieces, under the id that was drawn.
    Laying(PieceJob),
}

/// What a step of a save answers.
#[derive(Clone, Copy, Debug, PartialEq, Eq)]
pub enum SaveStep {
    /// Steps are left.
    More,
    /// The value is saved, and this is its pointer.
    Done(Pointer),
}

/// The saving of a value: its id is drawn; then each piece is put and logged, and then indexed.
#[derive(Debug, Drop)]
pub struct Save {
    /// From here the log's copies of the pieces come.
    alloc: Global,
    table: u16,
    session: u16,
    stage: SaveStage,
}

impl Model for Save {
    ghost use Rattle.toast_store.specs.Saves.{IsSave, Saving, saving_of};

    ghost Value = { Saving };

    ghost view = { λ save. saving_of save.table save.session save.stage };

    ghost invariant = { λ save. IsSave (saving_of save.table save.session save.stage) };
}

impl Save {
    /// The saving of a value, of 21 to 65,536 bytes, by a session in the transaction with this xid.
    pub fn new(alloc: Global, table: u16, session: u16, xid: u64, value: Bytes) -> Self
        requires least { 21 ≤ length value }
        requires most { length value ≤ 65536 }
        ensures save { result ≡ new_save table session xid value }
        ensures own { IsSave result }
    {
        Save {
            alloc,
            table,
            session,
            stage: SaveStage::Drawing { xid, value },
        }
    }

    /// Makes one step: draws the id; or puts a piece with its entry in the log; or adds a piece's entry to
    /// the index. The step after which nothing is left answers the pointer.
    ///
    /// From the draw on the id is in hand, the chunks under it are those of the pieces indexed so far, as
    /// they were put, and a chunk that is put and not yet indexed is in its slot, which no entry names.
    ///
    /// # Errors
    /// `NoValueId` comes exactly where every id is in use at the draw. After each error all is as before.
    pub fn step(
        &mut self,
        store: &mut ToastStore,
        ids: &mut IdPool,
        log: &mut Log,
    ) -> Result<SaveStep, DrawFault>
        requires under_way { IsUnderWay self.old.stage }
        requires stands { SaveStands store.old ids.old self.old }

        // What a step does, and why one is refused, with all as before.
        ensures ok { IfOk result (SaveSteps (parts_of store.old ids.old log.old) self.old
            (parts_of store.new ids.new log.new) self.new) }
        ensures err { IfErr result (SaveFails (parts_of store.old ids.old log.old) self.old
            (parts_of store.new ids.new log.new) self.new) }

        // What is true of each save and of each store.
        ensures own { IsSave self.new }
        ensures was_sound { IsStore store.old }
        ensures sound { IsStore store.new }
    {
        store.facts();
        match &mut self.stage {
            SaveStage::Drawing { xid, value } => {
                let value_id = ids.draw(self.table, self.session, &*store)?;
                let value = mem::replace(value, Bytes::new(self.alloc));
                self.stage = SaveStage::Laying(PieceJob::new(*xid, value_id, value));
                Ok(SaveStep::More)
            }
            SaveStage::Laying(job) => {
                lay(self.alloc, self.table, job, store, log)?;
                if job.is_over() {
                    let toast_rel = FIRST_TOAST_REL + u32::from(self.table);
                    return Ok(SaveStep::Done(job.pointer(toast_rel)));
                }
                Ok(SaveStep::More)
            }
        }
    }
}

/// Makes a step of the pieces of a table's value; a put comes with its entry in the log. Where there is no
/// memory, all stay: a piece that is to be put is copied and room in the log kept first.
fn lay(
    alloc: Global,
    table: u16,
    job: &mut PieceJob,
    store: &mut ToastStore,
    log: &mut Log,
) -> Result<(), AllocError>
    requires laying { IsLaying job.old.stage }
    requires stands { PiecesStand store.old job.old }
    ensures step { OnOk result (PiecesStep store.old job.old store.new job.new) }
    ensures log { OnOk result (log.new ≡ logged_by log.old table job.old) }
    ensures job_stays { OnErr result (job.new ≡ job.old) }
    ensures store_stays { OnErr result (store.new ≡ store.old) }
    ensures log_stays { OnErr result (log.new ≡ log.old) }
    ensures own { OnOk result (IsPieceJob job.new) }
    ensures sound { OnOk result (IsStore store.new) }
{
    let Some(seq) = job.seq_to_put() else {
        return job.step(store);
    };
    let bytes = Bytes::from_slice(alloc, job.piece(seq))?;
    log.reserve_end()?;
    if let Err(fault) = job.step(store) {
        log.give_up_end();
        return Err(fault);
    }
    log.append_end(LogEntry::Chunk {
        xid: job.xid(),
        table,
        value_id: job.value_id(),
        seq,
        bytes,
    });
    Ok(())
}
