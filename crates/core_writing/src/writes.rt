//! The moments of writes: what refuses a write comes before anything of it is begun.

ghost use Rattle.std.specs.Prelude.{◌≡◌, IfErr, IfOk, OnErr, OnOk, Some, true};
ghost use Rattle.command_set.specs.declared.Command.TheVariants as commands;
ghost use Rattle.core_state.specs.Commands.{IsFitting};
ghost use Rattle.core_state.specs.State.{is_open, schemas_of, seat_of};
ghost use Rattle.core_state.specs.Views.{row_seen as seen_row};
ghost use Rattle.core_parts.specs.Found.{as_old};
ghost use Rattle.core_parts.specs.Moments.{IsCutShort, IsMade};
ghost use Rattle.core_sights.specs.Ready.{IsReady};
ghost use Rattle.core_writing.specs.Begins.{HasBegun};
ghost use Rattle.core_writing.specs.Stops.{IsStopped};

use crate::begin::{answer, begin_write, old_row, planned};
use crate::claims::{absent, claim, claim_first};
use crate::stop::{Stop, refuse_if};
use command_set::{Reply, Row, SetList};
use core_parts::CoreParts;
use core_parts::rows::{inserted_row, updated_row};
use core_sights::{has_changed, is_taken, row_seen};
use core_state::advance::Advance;
use core_state::seat::State;
use std::alloc::AllocError;
use table_state::FoundRow;
use tuple_toaster::OutColumns;

/// Inserts a row at a key. The error is for want of memory.
pub fn insert(
    core: &mut CoreParts,
    session: u16,
    table: u16,
    key: &i64,
    row: Row,
) -> Result<Advance, AllocError>
    requires ready { IsReady core.old session }
    requires fits { IsFitting (schemas_of core.old.tables) (commands.Insert table key.now row) }
    ensures ok { IfOk result (IsMade core.old session (commands.Insert table key.now row) core.new) }
    ensures err { OnErr result (IsCutShort core.old session core.new) }
{
    match core.state(session) {
        State::Outside => Ok(Advance::Done(Reply::Outside)),
        State::Failed => Ok(Advance::Done(Reply::Failed)),
        State::Open { .. } => {
            let begun = begin_insert(core, session, table, key, row);
            answer(core, session, begun)
        }
    }
}

/// Begins an insert in an open transaction, unless it is refused.
fn begin_insert(
    core: &mut CoreParts,
    session: u16,
    table: u16,
    key: &i64,
    row: Row,
) -> Result<(), Stop>
    requires ready { IsReady core.old session }
    requires fits { IsFitting (schemas_of core.old.tables) (commands.Insert table key.now row) }
    requires inside { is_open (seat_of core.old session).state ≡ true }
    ensures ok { OnOk result (HasBegun core.old session (commands.Insert table key.now row) core.new) }
    ensures err { IfErr result (IsStopped core.old session (commands.Insert table key.now row) core.new) }
{
    let taken = is_taken(core, session, table, key)?;
    claim_first(core, session, table, key)?;
    refuse_if(taken, Reply::Taken)?;
    let new = inserted_row(core.alloc, key, row)?;
    let plan = planned(core, table, &new)?;
    begin_write(core, session, table, None, Some(new), plan)?;
    Ok(())
}

/// Updates columns of the row at a key. The error is for want of memory.
pub fn update(
    core: &mut CoreParts,
    session: u16,
    table: u16,
    key: &i64,
    sets: &SetList,
) -> Result<Advance, AllocError>
    requires ready { IsReady core.old session }
    requires fits { IsFitting (schemas_of core.old.tables) (commands.Update table key.now sets.now) }
    ensures ok { IfOk result (IsMade core.old session (commands.Update table key.now sets.now) core.new) }
    ensures err { OnErr result (IsCutShort core.old session core.new) }
{
    match core.state(session) {
        State::Outside => Ok(Advance::Done(Reply::Outside)),
        State::Failed => Ok(Advance::Done(Reply::Failed)),
        State::Open { .. } => {
            let Some(found) = row_seen(core, session, table, key)? else {
                return absent(core, session, table);
            };
            let begun = begin_update(core, session, table, key, sets, found);
            answer(core, session, begun)
        }
    }
}

/// Begins an update of a row that was found, unless it is refused.
fn begin_update(
    core: &mut CoreParts,
    session: u16,
    table: u16,
    key: &i64,
    sets: &SetList,
    found: FoundRow,
) -> Result<(), Stop>
    requires ready { IsReady core.old session }
    requires fits { IsFitting (schemas_of core.old.tables) (commands.Update table key.now sets.now) }
    requires inside { is_open (seat_of core.old session).state ≡ true }
    requires seen { seen_row core.old session table key.now ≡ Some (as_old found) }
    ensures ok { OnOk result (HasBegun core.old session (commands.Update table key.now sets.now) core.new) }
    ensures err { IfErr result (IsStopped core.old session (commands.Update table key.now sets.now) core.new) }
{
    let changed = has_changed(core, session, table, key, &found);
    claim_first(core, session, table, key)?;
    refuse_if(changed, Reply::Changed)?;
    let new = updated_row(core.alloc, &found.stored, key, sets)?;
    let plan = planned(core, table, &new)?;
    begin_write(core, session, table, Some(old_row(found)), Some(new), plan)?;
    Ok(())
}

/// Deletes the row at a key. The error is for want of memory.
pub fn delete(
    core: &mut CoreParts,
    session: u16,
    table: u16,
    key: &i64,
) -> Result<Advance, AllocError>
    requires ready { IsReady core.old session }
    requires fits { IsFitting (schemas_of core.old.tables) (commands.Delete table key.now) }
    ensures ok { IfOk result (IsMade core.old session (commands.Delete table key.now) core.new) }
    ensures err { OnErr result (IsCutShort core.old session core.new) }
{
    match core.state(session) {
        State::Outside => Ok(Advance::Done(Reply::Outside)),
        State::Failed => Ok(Advance::Done(Reply::Failed)),
        State::Open { .. } => {
            let Some(found) = row_seen(core, session, table, key)? else {
                return absent(core, session, table);
            };
            let begun = begin_delete(core, session, table, key, found);
            answer(core, session, begun)
        }
    }
}

/// Begins a delete of a row that was found, unless it is refused.
fn begin_delete(
    core: &mut CoreParts,
    session: u16,
    table: u16,
    key: &i64,
    found: FoundRow,
) -> Result<(), Stop>
    requires ready { IsReady core.old session }
    requires fits { IsFitting (schemas_of core.old.tables) (commands.Delete table key.now) }
    requires inside { is_open (seat_of core.old session).state ≡ true }
    requires seen { seen_row core.old session table key.now ≡ Some (as_old found) }
    ensures ok { OnOk result (HasBegun core.old session (commands.Delete table key.now) core.new) }
    ensures err { IfErr result (IsStopped core.old session (commands.Delete table key.now) core.new) }
{
    let changed = has_changed(core, session, table, key, &found);
    claim_first(core, session, table, key)?;
    refuse_if(changed, Reply::Changed)?;
    begin_write(
        core,
        session,
        table,
        Some(old_row(found)),
        None,
        OutColumns::new(),
    )?;
    Ok(())
}

/// Moves the row at a key to another, and updates columns of it. The error is for want of memory.
pub fn rekey(
    core: &mut CoreParts,
    session: u16,
    table: u16,
    from: &i64,
    to: &i64,
    sets: &SetList,
) -> Result<Advance, AllocError>
    requires ready { IsReady core.old session }
    requires fits { IsFitting (schemas_of core.old.tables) (commands.Rekey table from.now to.now sets.now) }
    ensures ok { IfOk result (IsMade core.old session (commands.Rekey table from.now to.now sets.now) core.new) }
    ensures err { OnErr result (IsCutShort core.old session core.new) }
{
    match core.state(session) {
        State::Outside => Ok(Advance::Done(Reply::Outside)),
        State::Failed => Ok(Advance::Done(Reply::Failed)),
        State::Open { .. } => {
            let Some(found) = row_seen(core, session, table, from)? else {
                return absent(core, session, table);
            };
            let begun = begin_rekey(core, session, table, from, to, sets, found);
            answer(core, session, begun)
        }
    }
}

/// Begins a rekey of a row that was found, unless it is refused.
fn begin_rekey(
    core: &mut CoreParts,
    session: u16,
    table: u16,
    from: &i64,
    to: &i64,
    sets: &SetList,
    found: FoundRow,
) -> Result<(), Stop>
    requires ready { IsReady core.old session }
    requires fits { IsFitting (schemas_of core.old.tables) (commands.Rekey table from.now to.now sets.now) }
    requires inside { is_open (seat_of core.old session).state ≡ true }
    requires seen { seen_row core.old session table from.now ≡ Some (as_old found) }
    ensures ok { OnOk result (HasBegun core.old session (commands.Rekey table from.now to.now sets.now) core.new) }
    ensures err { IfErr result (IsStopped core.old session (commands.Rekey table from.now to.now sets.now) core.new) }
{
    let changed = has_changed(core, session, table, from, &found);
    let taken = is_taken(core, session, table, to)?;
    claim_first(core, session, table, from)?;
    refuse_if(changed, Reply::Changed)?;
    claim(core, session, table, to)?;
    refuse_if(taken, Reply::Taken)?;
    let new = updated_row(core.alloc, &found.stored, to, sets)?;
    let plan = planned(core, table, &new)?;
    begin_write(core, session, table, Some(old_row(found)), Some(new), plan)?;
    Ok(())
}
