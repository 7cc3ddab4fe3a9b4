//! The moments of commands that look into no table. The command is taken out of its session's job, which is idle.

ghost use Rattle.std.specs.Prelude.{◌≡◌, IfOk, OnErr, OnOk};
ghost use Rattle.core_state.specs.Facts.{IsSound};
ghost use Rattle.core_state.specs.Lines.{after_failing};
ghost use Rattle.core_state.specs.State.{IsSession, seat_of};
ghost use Rattle.core_parts.specs.Ends.{CanEnd};
ghost use Rattle.core_parts.specs.Moments.{IsMade};
ghost use Rattle.core_parts.specs.Takes.{with_copy};

use crate::parts::CoreParts;
use crate::takes::take_copy;
use command_set::{Command, Level, Reply};
use core_state::advance::Advance;
use core_state::seat::{Job, State};
use std::alloc::AllocError;

impl CoreParts {
    /// Begins a transaction.
    pub fn begin(&mut self, session: u16, level: Level) -> Advance
        requires session { IsSession self.old.seats session }
        requires idle { (seat_of self.old session).job ≡ Job.Idle }
        requires sound { IsSound self.old }
        ensures { IsMade self.old session (Command.Begin level) self.new result }
    {
        match self.state(session) {
            State::Outside => {
                let state = State::Open {
                    level,
                    xid: None,
                    snapshot: None,
                };
                self.set_state(session, state);
                Advance::Done(Reply::Okay)
            }
            State::Failed => Advance::Done(Reply::Inside),
            State::Open { .. } => Advance::Done(Reply::Inside),
        }
    }

    /// Commits a transaction.
    pub fn commit(&mut self, session: u16) -> Advance
        requires session { IsSession self.old.seats session }
        requires idle { (seat_of self.old session).job ≡ Job.Idle }
        requires sound { IsSound self.old }
        ensures { IsMade self.old session Command.Commit self.new result }
    {
        match self.state(session) {
            State::Outside => Advance::Done(Reply::Outside),
            State::Failed => {
                self.set_state(session, State::Outside);
                Advance::Done(Reply::RolledBack)
            }
            State::Open { .. } => {
                self.end_committed(session);
                Advance::Done(Reply::Okay)
            }
        }
    }

    /// Rolls a transaction back.
    pub fn rollback(&mut self, session: u16) -> Advance
        requires session { IsSession self.old.seats session }
        requires idle { (seat_of self.old session).job ≡ Job.Idle }
        requires sound { IsSound self.old }
        ensures { IsMade self.old session Command.Rollback self.new result }
    {
        match self.state(session) {
            State::Outside => Advance::Done(Reply::Outside),
            State::Failed => {
                self.set_state(session, State::Outside);
                Advance::Done(Reply::Okay)
            }
            State::Open { .. } => {
                self.give_up(session, State::Outside);
                Advance::Done(Reply::Okay)
            }
        }
    }

    /// Refuses a command by a reply that fails the transaction.
    pub fn refuse(&mut self, session: u16, reply: Reply) -> Advance
        requires { CanEnd self.old session }
        ensures after { self.new ≡ after_failing self.old session }
        ensures done { result ≡ Advance.Done reply }
    {
        self.fail(session);
        Advance::Done(reply)
    }

    /// Ends a command that has used its table, by a reply that fails nothing.
    pub fn look(&mut self, session: u16, reply: Reply) -> Result<Advance, AllocError>
        requires { IsSession self.old.seats session }
        ensures ok { OnOk result (self.new ≡ with_copy self.old session) }
        ensures done { IfOk result (λ advance. advance ≡ Advance.Done reply) }
        ensures err { OnErr result (self.new ≡ self.old) }
    {
        let seat = &mut self.seats[usize::from(session - 1)];
        take_copy(&mut seat.state, &mut self.snaps, &self.xacts)?;
        Ok(Advance::Done(reply))
    }
}
