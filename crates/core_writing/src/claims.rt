//! What a write asks of the other sessions: the use of its table, and its keys.

ghost use Rattle.std.specs.Prelude.{◌≡◌, [], ◌∷◌, IfErr, IfOk, None, OnErr, OnOk};
ghost use Rattle.core_looks.specs.Due.{busy_due};
ghost use Rattle.core_parts.specs.Moments.{HasAsked, IsCutShort};
ghost use Rattle.core_parts.specs.Takes.{once_asked};
ghost use Rattle.core_sights.specs.Ready.{IsReady};
ghost use Rattle.core_state.specs.Lines.{after_looking};
ghost use Rattle.core_writing.specs.Begins.{keys_locked};
ghost use Rattle.core_writing.specs.Stops.{IsStopBy};
ghost use Rattle.core_state.specs.declared.advance.Advance.TheVariants as advances;
ghost use Rattle.command_set.specs.declared.Reply.TheVariants as replies;

use crate::stop::Stop;
use command_set::Reply;
use core_parts::CoreParts;
use core_state::advance::Advance;
use std::alloc::AllocError;

/// Claims a key of a table, unless another session has.
pub(crate) fn claim(core: &mut CoreParts, session: u16, table: u16, key: &i64) -> Result<(), Stop>
    ensures free { OnOk result (busy_due core.old session table key.now ≡ None) }
    ensures ok { OnOk result (core.new ≡ once_asked core.old session table key.now None) }
    ensures err { IfErr result (IsStopBy (busy_due core.old session table key.now)) }
    ensures same { OnErr result (core.new ≡ core.old) }
{
    match core.claim(session, table, key)? {
        None => Ok(()),
        Some(session) => Err(Stop::Refused(Reply::Busy { session })),
    }
}

/// Uses a table and claims the first of a write's keys, unless another session has.
pub(crate) fn claim_first(
    core: &mut CoreParts,
    session: u16,
    table: u16,
    key: &i64,
) -> Result<(), Stop>
    requires { IsReady core.old session }
    ensures free { OnOk result (busy_due core.old session table key.now ≡ None) }
    ensures ok { OnOk result (core.new ≡ keys_locked core.old session table (key.now ∷ [])) }
    ensures err { IfErr result (IsStopBy (busy_due core.old session table key.now)) }
    ensures asked { OnErr result (HasAsked core.old session core.new) }
{
    core.use_table(session, table)?;
    claim(core, session, table, key)
}

/// Ends a command that has found no row at its key. The error is for want of memory.
pub(crate) fn absent(core: &mut CoreParts, session: u16, table: u16) -> Result<Advance, AllocError>
    requires { IsReady core.old session }
    ensures ok { OnOk result (core.new ≡ after_looking core.old session table) }
    ensures done { IfOk result (λ advance. advance ≡ advances.Done replies.Absent) }
    ensures err { OnErr result (IsCutShort core.old session core.new) }
{
    core.use_table(session, table)?;
    core.look(session, Reply::Absent)
}
