//! The plain store's answer to a command: its reply, and the state after it.

ghost use Rattle.command_set.specs.Answers.{answer, once_used, refused, settled, table_of};
ghost use Rattle.command_set.specs.Plain.{session_of};
ghost use Rattle.command_set.specs.Replies.{fails, is_granted};
ghost use Rattle.plain_program.specs.Words.{is_beyond, is_open};
ghost use Rattle.std.specs.Prelude.{◌≡◌, ◌<◌, ◌^◌, true, IfOk, IsErrOf, OnOk, length};

use crate::effects::{fail, take_effect, use_table};
use crate::fault::PlainFault;
use crate::obstacles::rewriter_of;
use crate::replies::reply_of;
use command_set::state::{Answered, Plain, Session};
use command_set::{Command, Reply, SchemaList};
use std::alloc::{AllocError, Global};

// The table of a data command that has one.
fn table_of(command: &Command) -> Option<u16>
    ensures { result ≡ table_of command.now }
{
    match command {
        Command::Get { table, .. }
        | Command::Part { table, .. }
        | Command::Open { table, .. }
        | Command::Insert { table, .. }
        | Command::Update { table, .. }
        | Command::Delete { table, .. }
        | Command::Rekey { table, .. } => Some(*table),
        _ => None,
    }
}

// Whether a session is in an open transaction.
fn has_open(store: &Plain, session: u16) -> bool
    ensures { result ≡ is_open (session_of store.now session) }
{
    matches!(store.session(session), Some(Session::Open(_)))
}

// Has a data command use its table, if it has one.
fn use_once(
    alloc: Global,
    store: &mut Plain,
    session: u16,
    table: Option<u16>,
) -> Result<(), AllocError>
    requires { length store.old.sessions < 2 ^ 16 }
    ensures { OnOk result (store.new ≡ once_used store.old session (session_of store.old session) table) }
{
    match table {
        None => Ok(()),
        Some(table) => {
            if !has_open(store, session) {
                return Ok(());
            }
            if rewriter_of(store, session, table).is_some() {
                return Ok(());
            }
            use_table(alloc, store, session, table)?;
            Ok(())
        }
    }
}

// Whether a reply is the granted one.
fn is_granted(reply: &Reply) -> bool
    ensures { result ≡ is_granted reply.now }
{
    matches!(
        reply,
        Reply::Okay | Reply::Row { .. } | Reply::Bytes(_) | Reply::Started
    )
}

// Whether a refusal fails an open transaction.
fn fails(reply: &Reply) -> bool
    ensures { result ≡ fails reply.now }
{
    matches!(
        reply,
        Reply::Taken
            | Reply::Busy { .. }
            | Reply::Changed
            | Reply::Locked { .. }
            | Reply::TooBig { .. }
            | Reply::BadOffset
            | Reply::NoHandle
            | Reply::HandleThere
            | Reply::NoValueId
            | Reply::Memory
    )
}

// Makes what a refusal leaves.
fn refuse(store: &mut Plain, session: u16, reply: &Reply)
    ensures { store.new ≡ refused store.old session reply.now }
{
    match reply {
        Reply::RolledBack => store.set_session(session, Session::Outside),
        reply => {
            if fails(reply) {
                fail(store, session);
            }
        }
    }
}

// Makes what a command leaves that gets this reply, once its table is used.
fn settle(
    alloc: Global,
    store: &mut Plain,
    session: u16,
    command: &Command,
    reply: &Reply,
) -> Result<(), AllocError>
    ensures { OnOk result (store.new ≡ settled store.old session command.now reply.now) }
{
    if is_granted(reply) {
        take_effect(alloc, store, session, command)?;
        return Ok(());
    }
    refuse(store, session, reply);
    Ok(())
}

/// The plain store's answer to a session: each command at one moment.
///
/// Where no answer is given, the state that was handed over is gone.
pub fn plain_answer(
    alloc: Global,
    schemas: &SchemaList,
    store: Plain,
    session: u16,
    command: &Command,
) -> Result<Answered, PlainFault>
    requires { length store.sessions < 2 ^ 16 }
    ensures ok { IfOk result (λ answered. answered ≡ answer schemas.now store session command.now) }
    ensures range { IsErrOf result PlainFault.Range → is_beyond (answer schemas.now store session command.now).reply ≡ true }
{
    let mut after = store;
    use_once(alloc, &mut after, session, table_of(command))?;
    let reply = reply_of(alloc, schemas, &after, session, command)?;
    settle(alloc, &mut after, session, command, &reply)?;
    Ok(Answered { reply, after })
}
