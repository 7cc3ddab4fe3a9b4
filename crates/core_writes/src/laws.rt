//! What the granted moment of a write keeps of a core, and what it does in terms of the plain store.

ghost use Rattle.core_writes.specs.Laws.{RowsCanBeWritten, WritesFall, WritesKeep, WritesRun};

/// A core is sound after the granted moment of an insert, an update, a delete and a rekey.
pub fn writes_keep()
    ensures { WritesKeep }
{}

/// It stands for the plain store's state after the command, and the reply is the plain store's.
pub fn writes_run()
    ensures { WritesRun }
{}

/// The command goes on past its moment, and what is left of it falls.
pub fn writes_fall()
    ensures { WritesFall }
{}

/// The new row of an insert, an update and a rekey can be written, unless its tuple is too large.
pub fn rows_can_be_written()
    ensures { RowsCanBeWritten }
{}
