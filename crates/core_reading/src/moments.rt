//! What the moments of reads and of handles share: refusals, and a read that begins.

ghost use Rattle.std.specs.Prelude.{◌≡◌, false, Some, IfOk, OnErr, OnOk};
ghost use Rattle.read_steps.specs.Reads.{needs_store, reply_of};
ghost use Rattle.core_state.specs.Lines.{after_looking};
ghost use Rattle.core_state.specs.State.{IsSession, IsTableOf, table_at};
ghost use Rattle.core_parts.specs.Moments.{HasAsked};
ghost use Rattle.core_parts.specs.Takes.{read_begun};
ghost use Rattle.core_sights.specs.Ready.{IsReady};
ghost use Rattle.core_reading.specs.Reads.{BeginsRead, CanBegin, first_refusal as refused_first};

use command_set::Reply;
use core_parts::CoreParts;
use core_parts::takes::take_for_read;
use core_state::advance::Advance;
use core_state::seat::{Job, State};
use read_steps::{ReadJob, ReadStep};
use std::alloc::AllocError;

/// The refusal of a data command whose session has no open transaction.
pub(crate) fn first_refusal(state: State) -> Option<Reply>
    ensures { result ≡ refused_first state }
{
    match state {
        State::Outside => Some(Reply::Outside),
        State::Failed => Some(Reply::Failed),
        State::Open { .. } => None,
    }
}

/// Uses a table, and ends the command by a reply that fails nothing. After want of memory only locks may
/// have been asked for.
pub(crate) fn looked(
    core: &mut CoreParts,
    session: u16,
    table: u16,
    reply: Reply,
) -> Result<Advance, AllocError>
    requires { IsReady core.old session }
    ensures after { OnOk result (core.new ≡ after_looking core.old session table) }
    ensures told { IfOk result (λ advance. advance ≡ Advance.Done reply) }
    ensures err { OnErr result (HasAsked core.old session core.new) }
{
    core.use_table(session, table)?;
    let advance = core.look(session, reply)?;
    Ok(advance)
}

/// The reply of a read that needs nothing of the store.
pub(crate) fn reply_now(
    core: &mut CoreParts,
    table: u16,
    mut read: ReadJob,
) -> Result<Reply, AllocError>
    requires of_table { IsTableOf core.old.tables table }
    requires can { CanBegin (table_at core.old.tables table).toast read }
    requires in_hand { needs_store read ≡ false }
    ensures reply { IfOk result (λ reply. reply_of (table_at core.old.tables table).toast read ≡ Some reply) }
    ensures stays { core.new ≡ core.old }
{
    match read.step(&mut core.tables[usize::from(table) - 1].toast)? {
        ReadStep::Done(reply) => Ok(reply),
        ReadStep::More => unreachable!(),
    }
}

/// Goes on with a read past its moment. Under read committed it takes a snapshot for itself.
fn read_on(
    core: &mut CoreParts,
    session: u16,
    table: u16,
    read: ReadJob,
) -> Result<Advance, AllocError>
    requires { IsSession core.old.seats session }
    ensures after { OnOk result (core.new ≡ read_begun core.old session table read) }
    ensures told { IfOk result (λ advance. advance ≡ Advance.More) }
    ensures err { OnErr result (core.new ≡ core.old) }
{
    let seat = &mut core.seats[usize::from(session - 1)];
    let snapshot = take_for_read(&mut seat.state, &mut core.snaps, &core.xacts)?;
    let job = Job::Reading {
        table,
        snapshot,
        read,
    };
    core.set_job(session, job);
    Ok(Advance::More)
}

/// Begins a read of a table, or answers it where it needs nothing of the store. After want of memory only
/// locks may have been asked for.
pub(crate) fn begin_read(
    core: &mut CoreParts,
    session: u16,
    table: u16,
    read: ReadJob,
) -> Result<Advance, AllocError>
    requires ready { IsReady core.old session }
    requires of_table { IsTableOf core.old.tables table }
    requires can { CanBegin (table_at core.old.tables table).toast read }
    ensures ok { IfOk result (BeginsRead core.old session table read core.new) }
    ensures err { OnErr result (HasAsked core.old session core.new) }
{
    if read.needs_store() {
        core.use_table(session, table)?;
        let advance = read_on(core, session, table, read)?;
        return Ok(advance);
    }
    let reply = reply_now(core, table, read)?;
    let advance = looked(core, session, table, reply)?;
    Ok(advance)
}
