//! What each event keeps of a table: laws over the model of [`crate::Table`], with a field for each
//! event.

ghost use Rattle.table_state.specs.Found.{TablesTell};
ghost use Rattle.table_state.specs.Laws.{ChunkStepsKeep, MomentsKeep, VacuumKeeps, VersionStepsKeep};
ghost use Rattle.table_state.specs.Stays.{EndedStays, UnheldStays, ValuesStay};

/// A version step keeps the facts of its table, and each value that it drops has then ended for its
/// transaction.
pub fn version_steps_keep()
    ensures { VersionStepsKeep }
{}

/// So do the steps of a save, of a mark and of a read.
pub fn chunk_steps_keep()
    ensures { ChunkStepsKeep }
{}

/// So does a vacuum.
pub fn vacuum_keeps()
    ensures { VacuumKeeps }
{}

/// So does each start, commit and abort of a transaction, and each snapshot that is taken, shared or
/// released.
pub fn moments_keep()
    ensures { MomentsKeep }
{}

/// What the facts of a table tell a reader: what a look-up finds is the row of its world, and each of
/// its pointers has its value. A table without a row has these facts.
pub fn tables_tell()
    ensures { TablesTell }
{}

/// A change of the values out of line leaves the bytes of each value that it isn't about, and the rows
/// whose values it leaves.
pub fn values_stay()
    ensures { ValuesStay }
{}

/// What others do leaves an id in hand without a protected version that has it.
pub fn unheld_stays()
    ensures { UnheldStays }
{}

/// The version steps of others leave a dropped value one that each protected version with it has ended
/// for the transaction that dropped it.
pub fn ended_stays()
    ensures { EndedStays }
{}
