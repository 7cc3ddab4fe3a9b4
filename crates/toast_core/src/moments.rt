//! The moment of a command, which hands it to the code of its kind.

ghost use Rattle.std.specs.Prelude.{◌≡◌, false, IfOk, OnErr};
ghost use Rattle.command_set.specs.Journals.{takes_no_memory};
ghost use Rattle.core_parts.specs.Moments.{IsCutShort, IsMade};
ghost use Rattle.core_sights.specs.Ready.{IsReady};
ghost use Rattle.core_state.specs.Commands.{IsFitting};
ghost use Rattle.core_state.specs.State.{schemas_of};

use command_set::Command;
use core_parts::CoreParts;
use core_reading::{close, fetch, get, open, part};
use core_state::advance::Advance;
use core_writing::{delete, insert, rekey, update};
use std::alloc::AllocError;

/// Makes the moment of a command that has been taken out of its session's job.
///
/// # Errors
/// For want of memory: locks may have been asked for, and the transaction's copy taken. Begin, commit and
/// rollback take none.
pub(crate) fn moment(
    core: &mut CoreParts,
    session: u16,
    command: Command,
) -> Result<Advance, AllocError>
    requires ready { IsReady core.old session }
    requires fits { IsFitting (schemas_of core.old.tables) command }
    ensures ok { IfOk result (IsMade core.old session command core.new) }
    ensures err { OnErr result (IsCutShort core.old session core.new) }
    ensures wanted { OnErr result (takes_no_memory command ≡ false) }
{
    match command {
        Command::Begin { level } => Ok(core.begin(session, level)),
        Command::Commit => Ok(core.commit(session)),
        Command::Rollback => Ok(core.rollback(session)),
        Command::Get { table, key } => get(core, session, table, &key),
        Command::Part {
            table,
            key,
            column,
            offset,
            length,
        } => part(core, session, table, &key, column, &offset, &length),
        Command::Open {
            handle,
            table,
            key,
            column,
        } => open(core, session, handle, table, &key, column),
        Command::Fetch {
            handle,
            offset,
            length,
        } => fetch(core, session, handle, &offset, &length),
        Command::Close { handle } => Ok(close(core, session, handle)),
        Command::Insert { table, key, row } => insert(core, session, table, &key, row),
        Command::Update { table, key, sets } => update(core, session, table, &key, &sets),
        Command::Delete { table, key } => delete(core, session, table, &key),
        Command::Rekey {
            table,
            from,
            to,
            sets,
        } => rekey(core, session, table, &from, &to, &sets),
        Command::VacuumMain { .. } | Command::VacuumToast { .. } | Command::Rewrite { .. } => {
            unreachable!()
        }
    }
}
