//! The moments of reads of rows.

ghost use Rattle.std.specs.Prelude.{◌≡◌, IfOk, OnErr};
ghost use Rattle.command_set.specs.declared.Command.TheVariants as commands;
ghost use Rattle.read_steps.specs.Reads.{CanWant};
ghost use Rattle.core_state.specs.Begun.{row_read};
ghost use Rattle.core_state.specs.Commands.{IsFitting};
ghost use Rattle.core_state.specs.State.{schemas_of};
ghost use Rattle.core_parts.specs.Found.{as_old};
ghost use Rattle.core_parts.specs.Moments.{IsCutShort, IsMade};
ghost use Rattle.core_sights.specs.Ready.{IsReady};
ghost use Rattle.core_reading.specs.Reads.{HasFound, IsInside, MakesPart};

use crate::moments::{begin_read, first_refusal, looked};
use crate::spans::{size_at, span_of};
use command_set::Reply;
use core_parts::CoreParts;
use core_sights::row_seen;
use core_state::advance::Advance;
use read_steps::{ReadJob, Wanted};
use std::alloc::AllocError;
use table_state::FoundRow;

/// The read of a row that was found, or of a part of one of its columns.
fn read_of(core: &CoreParts, session: u16, row: FoundRow, wanted: Wanted) -> ReadJob
    requires { CanWant row.stored wanted }
    ensures { result ≡ row_read session wanted (as_old row) }
{
    ReadJob::start(core.alloc, row.stored, wanted, session)
}

/// Gets the row at a key in an open transaction.
fn get_inside(
    core: &mut CoreParts,
    session: u16,
    table: u16,
    key: &i64,
) -> Result<Advance, AllocError>
    requires { IsInside core.old session table }
    ensures ok { IfOk result (IsMade core.old session (commands.Get table key.now) core.new) }
    ensures err { OnErr result (IsCutShort core.old session core.new) }
{
    match row_seen(core, session, table, key)? {
        None => {
            let advance = looked(core, session, table, Reply::Absent)?;
            Ok(advance)
        }
        Some(row) => {
            let read = read_of(core, session, row, Wanted::Row);
            let advance = begin_read(core, session, table, read)?;
            Ok(advance)
        }
    }
}

/// Gets the row at a key. The error is for want of memory.
pub fn get(core: &mut CoreParts, session: u16, table: u16, key: &i64) -> Result<Advance, AllocError>
    requires ready { IsReady core.old session }
    requires fits { IsFitting (schemas_of core.old.tables) (commands.Get table key.now) }
    ensures ok { IfOk result (IsMade core.old session (commands.Get table key.now) core.new) }
    ensures err { OnErr result (IsCutShort core.old session core.new) }
{
    match first_refusal(core.state(session)) {
        Some(refusal) => Ok(Advance::Done(refusal)),
        None => {
            let advance = get_inside(core, session, table, key)?;
            Ok(advance)
        }
    }
}

/// Gets a part of a column of a row that was found.
fn part_of_row(
    core: &mut CoreParts,
    session: u16,
    table: u16,
    row: FoundRow,
    column: u16,
    offset: &i32,
    length: &i32,
) -> Result<Advance, AllocError>
    requires { HasFound core.old session table (as_old row) column }
    ensures ok { IfOk result (MakesPart core.old session table (as_old row) column offset.now length.now core.new) }
    ensures err { OnErr result (IsCutShort core.old session core.new) }
{
    let Some(size) = size_at(&row.stored, column) else {
        let advance = looked(core, session, table, Reply::Null)?;
        return Ok(advance);
    };
    let Some(span) = span_of(size, offset, length) else {
        return Ok(core.refuse(session, Reply::BadOffset));
    };
    let read = read_of(core, session, row, Wanted::Part { column, span });
    let advance = begin_read(core, session, table, read)?;
    Ok(advance)
}

/// Gets a part of a column of the row at a key in an open transaction.
fn part_inside(
    core: &mut CoreParts,
    session: u16,
    table: u16,
    key: &i64,
    column: u16,
    offset: &i32,
    length: &i32,
) -> Result<Advance, AllocError>
    requires inside { IsInside core.old session table }
    requires fits { IsFitting (schemas_of core.old.tables) (commands.Part table key.now column offset.now length.now) }
    ensures ok { IfOk result (IsMade core.old session (commands.Part table key.now column offset.now length.now) core.new) }
    ensures err { OnErr result (IsCutShort core.old session core.new) }
{
    match row_seen(core, session, table, key)? {
        None => {
            let advance = looked(core, session, table, Reply::Absent)?;
            Ok(advance)
        }
        Some(row) => {
            let advance = part_of_row(core, session, table, row, column, offset, length)?;
            Ok(advance)
        }
    }
}

/// Gets a part of a column of the row at a key. The error is for want of memory.
pub fn part(
    core: &mut CoreParts,
    session: u16,
    table: u16,
    key: &i64,
    column: u16,
    offset: &i32,
    length: &i32,
) -> Result<Advance, AllocError>
    requires ready { IsReady core.old session }
    requires fits { IsFitting (schemas_of core.old.tables) (commands.Part table key.now column offset.now length.now) }
    ensures ok { IfOk result (IsMade core.old session (commands.Part table key.now column offset.now length.now) core.new) }
    ensures err { OnErr result (IsCutShort core.old session core.new) }
{
    match first_refusal(core.state(session)) {
        Some(refusal) => Ok(Advance::Done(refusal)),
        None => {
            let advance = part_inside(core, session, table, key, column, offset, length)?;
            Ok(advance)
        }
    }
}
