//! A store and its sessions.

ghost use Rattle.std.specs.Prelude.{◌≡◌, ◌≢◌, ◌<◌, ◌≤◌, None, IfOk, OnErr, OnOk, false, length, replicate};
ghost use Rattle.command_set.specs.Journals.{takes_no_memory};
ghost use Rattle.command_set.specs.Plain.{first_state};
ghost use Rattle.core_events.specs.Advanced.{FailsBy};
ghost use Rattle.core_parts.specs.First.{first_core};
ghost use Rattle.core_state.specs.Commands.{IsFitting};
ghost use Rattle.core_state.specs.Events.{Event, left};
ghost use Rattle.core_state.specs.Lines.{after_failing, after_submit};
ghost use Rattle.core_state.specs.Moves.{Falls, Moved, OthersStay, StandsOn, under_of, wants_none};
ghost use Rattle.core_state.specs.Stands.{Stands};
ghost use Rattle.core_state.specs.State.{IsSession, schemas_of, seat_of};
ghost use Rattle.core_state.specs.declared.seat.Job.TheVariants as jobs;
ghost use Rattle.toast_core.specs.Cores.{IsCore};

use crate::events::{advance, submit};
use change_log::Log;
use command_set::Command;
use core_parts::{CoreParts, Setup};
use core_state::advance::{Advance, Under};
use std::alloc::{AllocError, Global};
use std::marker::Model;

/// A store and its sessions.
#[derive(Debug, Drop)]
pub struct Core {
    parts: CoreParts,
}

impl Model for Core {
    ghost use Rattle.core_state.specs.State.{CoreState};
    ghost use Rattle.toast_core.specs.Cores.{IsCore};

    ghost Value = { CoreState };

    ghost view = { λ core. core.parts };

    ghost invariant = { λ core. IsCore core.parts };
}

impl Core {
    /// An empty store, whose sessions are in no transaction. The error is for want of memory.
    pub fn new(alloc: Global, setup: &Setup) -> Result<Core, AllocError>
        requires ids { (16384 ≤ setup.now.low) × (setup.now.low ≤ setup.now.high) }
        requires tables { length setup.now.schemas ≤ 16 }
        requires sessions { setup.now.sessions ≤ 64 }
        ensures core { IfOk result (λ core. core ≡ first_core setup.now.schemas setup.now.low setup.now.high setup.now.sessions) }
        ensures schemas { IfOk result (λ core. schemas_of core.tables ≡ setup.now.schemas) }
        ensures stands { IfOk result (λ core. Stands core (first_state setup.now.sessions) (replicate setup.now.sessions None)) }
        ensures kept { IfOk result (λ core. IsCore core) }
    {
        let parts = CoreParts::new(alloc, setup)?;
        Ok(Core { parts })
    }

    /// Submits a command to a session that has none under way. The command is copied.
    ///
    /// # Errors
    /// For want of memory: the session's open transaction has then failed. Begin, commit and rollback take
    /// none.
    pub fn submit(&mut self, session: u16, command: &Command) -> Result<(), AllocError>
        requires session { IsSession self.old.seats session }
        requires idle { (seat_of self.old session).job ≡ jobs.Idle }
        requires fits { IsFitting (schemas_of self.old.tables) command.now }

        // The command is under way, for the same states of the plain store.
        ensures ok { OnOk result (self.new ≡ after_submit self.old session command.now) }
        ensures stands { OnOk result (StandsOn self.old self.new) }

        // After want of memory.
        ensures err { OnErr result (self.new ≡ after_failing self.old session) }
        ensures falls { OnErr result (Falls self.old session self.new) }
        ensures wanted { OnErr result (takes_no_memory command.now ≡ false) }

        ensures others { OthersStay self.old session self.new }
        ensures kept { IsCore self.new }
    {
        submit(&mut self.parts, session, command)?;
        Ok(())
    }

    /// Makes one event of a session's command, if one is under way.
    ///
    /// # Errors
    /// For want of memory: the command is then over, and the session's open transaction has failed. Begin,
    /// commit and rollback take none.
    pub fn advance(&mut self, session: u16) -> Result<Advance, AllocError>
        requires session { IsSession self.old.seats session }

        // What is true of every core.
        ensures sound { IsCore self.old }

        // The line that is due, what it is to the plain store, and that less is left.
        ensures event { IfOk result (Event self.old session self.new) }
        ensures moved { IfOk result (Moved self.old session self.new) }
        ensures left { OnOk result ((seat_of self.old session).job ≢ jobs.Idle → left self.new session < left self.old session) }

        // After want of memory.
        ensures err { OnErr result (FailsBy self.old session self.new) }
        ensures falls { OnErr result (Falls self.old session self.new) }
        ensures wanted { OnErr result (wants_none (seat_of self.old session).job ≡ false) }

        ensures others { OthersStay self.old session self.new }
        ensures kept { IsCore self.new }
    {
        let advance = advance(&mut self.parts, session)?;
        Ok(advance)
    }

    /// What a session has under way.
    pub fn busy_with(&self, session: u16) -> Under
        requires { IsSession self.now.seats session }
        ensures { result ≡ under_of (seat_of self.now session).job }
    {
        self.parts.busy_with(session)
    }

    /// The log.
    pub fn log(&self) -> &Log
        ensures { result.now ≡ self.now.log }
    {
        self.parts.log()
    }
}
