//! The messages that a journal sends, and the rows that are committed at its end.

ghost use Rattle.change_stream.specs.Streams.{first_stream, stream, stream_through, transactions};
ghost use Rattle.command_set.specs.Journals.{command_at, moment_of, plain_run, state_after};
ghost use Rattle.command_set.specs.Plain.{first_state};
ghost use Rattle.plain_journal.specs.Beyond.{answers_beyond, is_beyond_at};
ghost use Rattle.plain_stream.specs.States.{run_at, stream_in};
ghost use Rattle.std.specs.Option.{option_to_list};
ghost use Rattle.std.specs.Prelude.{◌≡◌, ◌<◌, ◌≤◌, ◌^◌, ◌+◌, [], true, Some, IfOk, IsErrOf, length, replicate};

use crate::commits::{Streamed, TransactionList, stream_after};
use crate::messages::{MessageList, messages_of};
use crate::moments::came_of;
use change_stream::WrittenList;
use command_set::rows::RowMap;
use command_set::state::Plain;
use command_set::{Command, JournalEntry, Script};
use list_facts::ListOf;
use plain_journal::entries::command_at;
use plain_journal::run_of;
use plain_program::PlainFault;
use std::alloc::{AllocError, Global};
use std::collections::VecDeque;

/// The plain store and what is told beside it, after some entries of a journal.
#[derive(Drop)]
struct SoFar {
    plain: Plain,
    streamed: Streamed,
}

/// Sessions without changes.
fn unchanged(alloc: Global, sessions: usize) -> Result<Vec<WrittenList>, AllocError>
    ensures { IfOk result (λ written. written.items ≡ replicate sessions []) }
{
    let mut written = Vec::new(alloc);
    for _ in 0..sessions {
        written.push(ListOf::new(alloc))?;
    }
    Ok(written)
}

/// Before the first entry.
fn first(alloc: Global, script: &Script) -> Result<SoFar, AllocError>
    ensures plain { IfOk result (λ first. first.plain ≡ first_state (length script.now.sessions)) }
    ensures stream { IfOk result (λ first. stream_in script.now.schemas first.streamed ≡ first_stream (length script.now.sessions)) }
{
    let sessions = script.sessions.len();
    let plain = Plain::first(alloc, sessions)?;
    let written = unchanged(alloc, sessions)?;
    let streamed = Streamed {
        outs: VecDeque::new(alloc),
        written,
        sent: ListOf::new(alloc),
    };
    Ok(SoFar { plain, streamed })
}

/// After an entry that names a command.
fn after_named(
    alloc: Global,
    script: &Script,
    so_far: SoFar,
    entry: &JournalEntry,
    command: &Command,
) -> Result<SoFar, PlainFault>
    requires few { length so_far.plain.sessions < 2 ^ 16 }
    requires named { command_at script.now entry.now.session entry.now.number ≡ Some command.now }
    ensures plain { IfOk result (λ next. next.plain ≡ state_after so_far.plain (moment_of script.now so_far.plain entry.now)) }
    ensures stream { IfOk result (λ next. stream_in script.now.schemas next.streamed ≡ stream_through script.now (stream_in script.now.schemas so_far.streamed) (option_to_list (moment_of script.now so_far.plain entry.now))) }
    ensures range { IsErrOf result PlainFault.Range → is_beyond_at script.now (run_at so_far.plain) entry.now ≡ true }
{
    let came = came_of(alloc, script, so_far.plain, entry, command)?;
    let streamed = stream_after(alloc, script, so_far.streamed, entry, command, &came)?;
    Ok(SoFar {
        plain: came.after,
        streamed,
    })
}

/// After one entry more.
fn after_entry(
    alloc: Global,
    script: &Script,
    so_far: SoFar,
    entry: &JournalEntry,
) -> Result<SoFar, PlainFault>
    requires { length so_far.plain.sessions < 2 ^ 16 }
    ensures plain { IfOk result (λ next. next.plain ≡ state_after so_far.plain (moment_of script.now so_far.plain entry.now)) }
    ensures stream { IfOk result (λ next. stream_in script.now.schemas next.streamed ≡ stream_through script.now (stream_in script.now.schemas so_far.streamed) (option_to_list (moment_of script.now so_far.plain entry.now))) }
    ensures range { IsErrOf result PlainFault.Range → is_beyond_at script.now (run_at so_far.plain) entry.now ≡ true }
{
    match command_at(script, entry.session, entry.number) {
        None => Ok(so_far),
        Some(command) => {
            let next = after_named(alloc, script, so_far, entry, command)?;
            Ok(next)
        }
    }
}

/// The transactions that a journal sends.
fn transactions(
    alloc: Global,
    script: &Script,
    journal: &[JournalEntry],
) -> Result<TransactionList, PlainFault>
    requires { length script.now.sessions < 2 ^ 16 }
    ensures ok { IfOk result (λ sent. sent ≡ transactions script.now journal.now) }
    ensures few { IfOk result (λ sent. length sent ≤ length journal.now) }
    ensures range { IsErrOf result PlainFault.Range → answers_beyond script.now journal.now ≡ true }
{
    let mut so_far = first(alloc, script)?;
    for entry in journal {
        so_far = after_entry(alloc, script, so_far, entry)?;
    }
    let streamed = so_far.streamed;
    Ok(streamed.sent)
}

/// The messages that a journal sends: for each commit with a change its begin, its changes and its commit.
///
/// # Errors
/// `Memory` where no memory was left. `Range` only where some moment of the journal answers that a tuple is too
/// big, with 4 GiB or more.
pub fn plain_messages(
    alloc: Global,
    script: &Script,
    journal: &[JournalEntry],
) -> Result<MessageList, PlainFault>
    requires sessions { length script.now.sessions < 2 ^ 16 }
    requires entries { length journal.now < 2 ^ 32 }
    ensures ok { IfOk result (λ messages. messages ≡ stream script.now journal.now) }
    ensures range { IsErrOf result PlainFault.Range → answers_beyond script.now journal.now ≡ true }
{
    let transactions = transactions(alloc, script, journal)?;
    let messages = messages_of(alloc, &transactions)?;
    Ok(messages)
}

/// The rows that are committed at a journal's end.
///
/// # Errors
/// As `plain_messages`.
pub fn plain_rows(
    alloc: Global,
    script: &Script,
    journal: &[JournalEntry],
) -> Result<RowMap, PlainFault>
    requires { length script.now.sessions < 2 ^ 16 }
    ensures ok { IfOk result (λ rows. rows ≡ (plain_run script.now journal.now).latest) }
    ensures range { IsErrOf result PlainFault.Range → answers_beyond script.now journal.now ≡ true }
{
    let run = run_of(alloc, script, journal)?;
    Ok(run.plain.latest)
}
