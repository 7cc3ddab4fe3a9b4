//! The steps of commands after their moments.

ghost use Rattle.std.specs.Prelude.{◌≡◌, IfErr, IfOk, OnErr};
ghost use Rattle.core_state.specs.Facts.{IsSound, IsTableMade};
ghost use Rattle.core_state.specs.State.{IsSession, seat_of};
ghost use Rattle.core_parts.specs.Ends.{CanEnd};
ghost use Rattle.core_parts.specs.Later.{IsStepMade};
ghost use Rattle.core_parts.specs.First.{IsUnsubmitted};
ghost use Rattle.core_parts.specs.Steps.{CanGoOn, GoesOn, StepFails, Steps, lent_of};

use crate::ends::{job_table, release};
use crate::parts::CoreParts;
use change_log::Log;
use command_set::Reply;
use core_state::advance::Advance;
use core_state::seat::{Job, Seat};
use read_steps::ReadStep;
use snapshot_registry::SnapRegistry;
use std::alloc::AllocError;
use table_state::Table;
use value_ids::{DrawFault, IdPool};
use write_steps::WriteStep;

/// What is true of each table by the types of its parts, told where a proof needs it.
pub(crate) fn table_facts(table: &Table)
    ensures { IsTableMade table.now }
{
    let _ = table.rows.schema().storages();
    let _ = table.toast.rel();
}

/// The next step of what a session has under way, past its moment. Where it is refused, all is as before.
fn go_on(
    seat: &mut Seat,
    session: u16,
    table: &mut Table,
    ids: &mut IdPool,
    snaps: &mut SnapRegistry,
    log: &mut Log,
) -> Result<Advance, DrawFault>
    requires { CanGoOn (lent_of seat.old table.old ids.old snaps.old log.old) seat.old.job }
    ensures ok { IfOk result (GoesOn (lent_of seat.old table.old ids.old snaps.old log.old) session seat.old.job
        (lent_of seat.new table.new ids.new snaps.new log.new)) }
    ensures err { IfErr result (StepFails (lent_of seat.old table.old ids.old snaps.old log.old)
        (lent_of seat.new table.new ids.new snaps.new log.new)) }
{
    match &mut seat.job {
        Job::Reading {
            table: _,
            snapshot,
            read,
        } => match read.step(&mut table.toast)? {
            ReadStep::More => Ok(Advance::More),
            ReadStep::Done(reply) => {
                release(snaps, *snapshot);
                seat.job = Job::Idle;
                Ok(Advance::Done(reply))
            }
        },
        Job::Writing { table: _, write } => {
            match write.step(&mut table.rows, &mut table.toast, ids, log)? {
                WriteStep::More => Ok(Advance::More),
                WriteStep::Done => {
                    ids.release(session);
                    seat.job = Job::Idle;
                    Ok(Advance::Done(Reply::Okay))
                }
            }
        }
        Job::Idle => unreachable!(),
        Job::Submitted(_) => unreachable!(),
    }
}

/// The same, with what the types of the table's parts tell of it then.
fn step_on(
    seat: &mut Seat,
    session: u16,
    table: &mut Table,
    ids: &mut IdPool,
    snaps: &mut SnapRegistry,
    log: &mut Log,
) -> Result<Advance, DrawFault>
    requires { CanGoOn (lent_of seat.old table.old ids.old snaps.old log.old) seat.old.job }
    ensures ok { IfOk result (Steps (lent_of seat.old table.old ids.old snaps.old log.old) session
        (lent_of seat.new table.new ids.new snaps.new log.new)) }
    ensures err { IfErr result (StepFails (lent_of seat.old table.old ids.old snaps.old log.old)
        (lent_of seat.new table.new ids.new snaps.new log.new)) }
{
    let advance = go_on(seat, session, table, ids, snaps, log)?;
    table_facts(table);
    Ok(advance)
}

impl CoreParts {
    /// The next step of what a session has under way, past its moment. A draw that finds no free id fails
    /// the transaction.
    pub fn step(&mut self, session: u16) -> Result<Advance, AllocError>
        requires session { IsSession self.old.seats session }
        requires later { IsUnsubmitted (seat_of self.old session).job }
        requires sound { IsSound self.old }
        ensures ok { IfOk result (IsStepMade self.old session self.new) }
        ensures err { OnErr result (self.new ≡ self.old) }
    {
        let at = usize::from(session - 1);
        let Some(table) = job_table(&self.seats[at].job) else {
            return Ok(Advance::Idle);
        };
        let table = &mut self.tables[usize::from(table) - 1];
        let seat = &mut self.seats[at];
        match step_on(
            seat,
            session,
            table,
            &mut self.ids,
            &mut self.snaps,
            &mut self.log,
        ) {
            Ok(advance) => Ok(advance),
            Err(DrawFault::Memory) => Err(AllocError),
            Err(DrawFault::NoValueId { .. }) => Ok(self.refuse(session, Reply::NoValueId)),
        }
    }
}
