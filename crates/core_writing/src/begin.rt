//! The begin of a write that is granted, and the answer.

ghost use Rattle.std.specs.Prelude.{◌≡◌, ◌⊎◌, IfErr, IfOk, IsErrOf, None, OnErr, OnOk, Some, length};
ghost use Rattle.tuple_layout.specs.Schemas.{HasColumns};
ghost use Rattle.command_set.specs.declared.Reply.{Reply};
ghost use Rattle.write_steps.specs.Standing.{CanBegin};
ghost use Rattle.core_state.specs.Begun.{plan_of};
ghost use Rattle.core_state.specs.State.{IsSession, IsTableOf};
ghost use Rattle.core_looks.specs.Due.{too_big_due};
ghost use Rattle.core_writes.specs.Laws.{CanWrite, columns_of};
ghost use Rattle.core_parts.specs.Ends.{CanEnd};
ghost use Rattle.core_parts.specs.Found.{as_old};
ghost use Rattle.core_parts.specs.Takes.{with_copy};
ghost use Rattle.core_writing.specs.Begins.{once_begun, once_given, own_xid, too_big_for};
ghost use Rattle.core_writing.specs.Stops.{IsAnswered, IsStopBy};

use crate::stop::Stop;
use command_set::Reply;
use core_parts::CoreParts;
use core_parts::takes::{take_copy, take_xid};
use core_state::advance::Advance;
use core_state::seat::Job;
use std::alloc::AllocError;
use table_state::FoundRow;
use tuple_layout::{Schema, Stored};
use tuple_toaster::{OutColumns, TUPLE_TARGET, plan};
use write_steps::{OldRow, WriteJob};

/// A row that a look-up has found, as the one that a write ends.
pub(crate) fn old_row(found: FoundRow) -> OldRow
    ensures { result ≡ as_old found }
{
    OldRow {
        tid: found.tid,
        stored: found.stored,
    }
}

/// The columns of a new row that go out of line, unless its tuple is too large whatever goes out.
fn plan_of_row(schema: &Schema, new: &Stored) -> Result<OutColumns, Stop>
    requires columns { HasColumns (length schema.now.storages) }
    requires can { CanWrite schema.now.storages new.now }
    ensures plan { IfOk result (λ columns. columns ≡ plan_of schema.now.storages (Some new.now)) }
    ensures fits { OnOk result (too_big_for schema.now.storages new.now ≡ None) }
    ensures err { IfErr result (IsStopBy (too_big_for schema.now.storages new.now)) }
{
    match plan(schema, new.cells.as_slice(), TUPLE_TARGET) {
        Ok(columns) => Ok(columns),
        Err(fault) => Err(Stop::Refused(Reply::TooBig {
            size: fault.size as u32,
        })),
    }
}

/// The columns of a table's new row that go out of line, unless its tuple is too large whatever goes out.
pub(crate) fn planned(core: &CoreParts, table: u16, new: &Stored) -> Result<OutColumns, Stop>
    requires of_table { IsTableOf core.now.tables table }
    requires columns { HasColumns (length (columns_of core.now table)) }
    requires can { CanWrite (columns_of core.now table) new.now }
    ensures plan { IfOk result (λ columns. columns ≡ plan_of (columns_of core.now table) (Some new.now)) }
    ensures fits { OnOk result (too_big_due core.now table new.now ≡ None) }
    ensures err { IfErr result (IsStopBy (too_big_due core.now table new.now)) }
{
    plan_of_row(core.tables[usize::from(table) - 1].rows.schema(), new)
}

/// The xid of a session's transaction, which takes its copy and is given an xid if it has none. The error
/// is for want of memory.
fn give_xid(core: &mut CoreParts, session: u16) -> Result<u64, AllocError>
    requires { IsSession core.old.seats session }
    ensures xid { IfOk result (λ xid. xid ≡ own_xid (with_copy core.old session) session) }
    ensures ok { OnOk result (core.new ≡ once_given core.old session) }
    ensures err { OnErr result ((core.new ≡ core.old) ⊎ (core.new ≡ with_copy core.old session)) }
{
    let seat = &mut core.seats[usize::from(session - 1)];
    take_copy(&mut seat.state, &mut core.snaps, &core.xacts)?;
    let xid = take_xid(&mut seat.state, &mut core.xacts, &mut core.log, session)?;
    Ok(xid)
}

/// Goes on with a write whose table is used and whose keys are claimed. The error is for want of memory.
pub(crate) fn begin_write(
    core: &mut CoreParts,
    session: u16,
    table: u16,
    old: Option<OldRow>,
    new: Option<Stored>,
    plan: OutColumns,
) -> Result<(), AllocError>
    requires session { IsSession core.old.seats session }
    requires can { CanBegin old new plan }
    ensures ok { OnOk result (core.new ≡ once_begun core.old session table old new plan) }
    ensures err { OnErr result ((core.new ≡ core.old) ⊎ (core.new ≡ with_copy core.old session)) }
{
    let xid = give_xid(core, session)?;
    let write = WriteJob::start(core.alloc, table, session, xid, old, new, plan);
    core.set_job(session, Job::Writing { table, write });
    Ok(())
}

/// Answers a command by how its write has begun: one that is refused fails its transaction. The error is
/// for want of memory.
pub(crate) fn answer(
    core: &mut CoreParts,
    session: u16,
    begun: Result<(), Stop>,
) -> Result<Advance, AllocError>
    requires { (reply : Reply) → IsErrOf begun (Stop.Refused reply) → CanEnd core.old session }
    ensures { IsAnswered core.old session begun core.new result }
{
    match begun {
        Ok(()) => Ok(Advance::More),
        Err(Stop::Refused(reply)) => Ok(core.refuse(session, reply)),
        Err(Stop::Memory) => Err(AllocError),
    }
}
