//! One event of a session: the moment of the command that is submitted to it, or the next step of one past it.

ghost use Rattle.std.specs.Prelude.{◌≡◌, false, IfOk, OnErr, OnOk};
ghost use Rattle.command_set.specs.Journals.{takes_no_memory};
ghost use Rattle.core_events.specs.Advanced.{FailsBy, IsAdvanced};
ghost use Rattle.core_events.specs.Laws.{IsSoundAt};
ghost use Rattle.core_state.specs.Commands.{IsFitting};
ghost use Rattle.core_state.specs.Lines.{after_failing, after_submit, seated};
ghost use Rattle.core_state.specs.Moves.{wants_none};
ghost use Rattle.core_state.specs.State.{IsSession, schemas_of, seat_of};
ghost use Rattle.core_state.specs.declared.seat.Job.TheVariants as jobs;
ghost use Rattle.toast_core.specs.Cores.{IsCore};
ghost use Rattle.toast_core.specs.Taken.{IsCut, due_of, once_taken};

use crate::moments::moment;
use command_set::Command;
use core_parts::CoreParts;
use core_parts::copies::copy_of_command;
use core_state::advance::Advance;
use core_state::seat::{Job, Seat};
use std::alloc::AllocError;
use std::mem;

/// What is due of a session.
#[derive(Debug, Drop)]
enum Due {
    /// It has nothing under way.
    Nothing,
    /// The moment of the command that was submitted to it.
    Moment(Command),
    /// The next step of a command past its moment.
    Step,
}

/// What is due of a seat. A command whose moment it is, is taken out of the seat's job.
fn take_due(seat: &mut Seat) -> Due
    ensures due { result ≡ due_of seat.old.job }
    ensures taken { seat.new ≡ once_taken seat.old }
{
    match mem::replace(&mut seat.job, Job::Idle) {
        Job::Idle => Due::Nothing,
        Job::Submitted(command) => Due::Moment(command),
        job => {
            seat.job = job;
            Due::Step
        }
    }
}

/// The same of a session of a core.
fn take_due_of(core: &mut CoreParts, session: u16) -> Due
    requires { IsSession core.old.seats session }
    ensures due { result ≡ due_of (seat_of core.old session).job }
    ensures taken { core.new ≡ seated core.old session (once_taken (seat_of core.old session)) }
{
    take_due(&mut core.seats[usize::from(session - 1)])
}

/// Makes one event of a session's command, if one is under way.
///
/// # Errors
/// For want of memory: the transaction has still to be ended. Begin, commit and rollback take none.
fn event(core: &mut CoreParts, session: u16) -> Result<Advance, AllocError>
    requires { IsSoundAt core.old session }
    ensures ok { IfOk result (IsAdvanced core.old session core.new) }
    ensures err { OnErr result (IsCut core.old session core.new) }
    ensures wanted { OnErr result (wants_none (seat_of core.old session).job ≡ false) }
{
    match take_due_of(core, session) {
        Due::Nothing => Ok(Advance::Idle),
        Due::Moment(command) => moment(core, session, command),
        Due::Step => core.step(session),
    }
}

/// The same. Where memory is wanting, the command is over and the transaction has failed.
///
/// # Errors
/// For want of memory. Begin, commit and rollback take none.
pub(crate) fn advance(core: &mut CoreParts, session: u16) -> Result<Advance, AllocError>
    requires { IsSoundAt core.old session }
    ensures ok { IfOk result (IsAdvanced core.old session core.new) }
    ensures err { OnErr result (FailsBy core.old session core.new) }
    ensures wanted { OnErr result (wants_none (seat_of core.old session).job ≡ false) }
    ensures kept { IsCore core.new }
{
    match event(core, session) {
        Ok(advance) => Ok(advance),
        Err(fault) => {
            core.fail(session);
            Err(fault)
        }
    }
}

/// Submits a copy of a command to a session that has none under way. Where memory is wanting, the
/// transaction has failed.
///
/// # Errors
/// For want of memory. Begin, commit and rollback take none.
pub(crate) fn submit(
    core: &mut CoreParts,
    session: u16,
    command: &Command,
) -> Result<(), AllocError>
    requires at { IsSoundAt core.old session }
    requires idle { (seat_of core.old session).job ≡ jobs.Idle }
    requires fits { IsFitting (schemas_of core.old.tables) command.now }
    ensures ok { OnOk result (core.new ≡ after_submit core.old session command.now) }
    ensures err { OnErr result (core.new ≡ after_failing core.old session) }
    ensures wanted { OnErr result (takes_no_memory command.now ≡ false) }
    ensures kept { IsCore core.new }
{
    match copy_of_command(core.alloc, command) {
        Ok(copy) => {
            core.set_job(session, Job::Submitted(copy));
            Ok(())
        }
        Err(fault) => {
            core.fail(session);
            Err(fault)
        }
    }
}
