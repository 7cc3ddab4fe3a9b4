//! What a moment changes of the stream: a session's changes, the columns that are out of line, and what is sent.

ghost use Rattle.change_stream.specs.Streams.{changes_of, commits, stream_after, with_sent, written_after, written_of};
ghost use Rattle.command_set.specs.Plain.{nth};
ghost use Rattle.plain_stream.specs.States.{moment_with, next_written, stream_in, with_kind, with_put, with_puts};
ghost use Rattle.std.specs.Option.{unwrap_or};
ghost use Rattle.std.specs.Prelude.{◌≡◌, ◌-◌, ◌≤◌, ◌∷◌, [], true, IfOk, slice_set};

use crate::outs::{OutEdit, OutLog};
use crate::writing::{kept_by, next_written};
use change_stream::{ColumnList, Written, WrittenList};
use command_set::changes::place_of;
use command_set::rows::RowMap;
use command_set::state::{Answered, Change, Transaction};
use command_set::{Command, JournalEntry, Kind, Level, Script};
use list_facts::ListOf;
use plain_journal::legality::is_granted;
use std::alloc::{AllocError, Global};
use std::mem::replace;
use tuple_layout::Place;

/// Transactions, in order.
pub type TransactionList = ListOf<WrittenList>;

/// What is told beside the plain store.
#[derive(Drop)]
pub struct Streamed {
    /// Which columns of committed rows are out of line.
    pub outs: OutLog,
    /// Each session's changes, the first being session 1's.
    pub written: Vec<WrittenList>,
    /// The transactions that are sent.
    pub sent: TransactionList,
}

/// Whether what came of an entry's command is a granted commit.
fn commits(entry: &JournalEntry, command: &Command, came: &Answered) -> bool
    ensures { result ≡ commits (moment_with entry.now command.now came.now) }
{
    matches!(entry.kind, Kind::Run) && matches!(command, Command::Commit) && is_granted(&came.reply)
}

/// Takes the changes of a session, from 1, and leaves none.
fn take_written(alloc: Global, written: &mut Vec<WrittenList>, session: u16) -> WrittenList
    requires { 1 ≤ session }
    ensures taken { result ≡ unwrap_or (nth written.old.items session) [] }
    ensures after { written.new.items ≡ slice_set written.old.items (session - 1) [] }
{
    let at = usize::from(session) - 1;
    if at >= written.len() {
        return ListOf::new(alloc);
    }
    replace(&mut written[at], ListOf::new(alloc))
}

/// Puts the changes of a session, from 1, in the place of those that it had.
fn put_written(written: &mut Vec<WrittenList>, session: u16, changes: WrittenList)
    requires { 1 ≤ session }
    ensures { written.new.items ≡ slice_set written.old.items (session - 1) changes }
{
    let at = usize::from(session) - 1;
    if at < written.len() {
        written[at] = changes;
    }
}

/// The edits with one more, which puts these columns at a place.
fn with_columns(outs: OutLog, place: Place, columns: &ColumnList) -> Result<OutLog, AllocError>
    ensures { IfOk result (λ after. after.items ≡ OutEdit.Put place columns.now ∷ outs.items) }
{
    let columns = columns.clone()?;
    let mut after = outs;
    after.push_front(OutEdit::Put { place, columns })?;
    Ok(after)
}

/// The edits after a change is committed.
fn with_put(outs: OutLog, written: &Written) -> Result<OutLog, AllocError>
    ensures { IfOk result (λ after. after.items ≡ with_put written.now outs.items) }
{
    match &written.change {
        Change::Insert { table, key, .. } => {
            with_columns(outs, place_of(table, key), &written.out)
        }
        Change::Update { table, key, .. } => {
            with_columns(outs, place_of(table, key), &written.out)
        }
        Change::Move { table, to, .. } => with_columns(outs, place_of(table, to), &written.out),
        Change::Remove { .. } => Ok(outs),
    }
}

/// The edits after these changes are committed.
fn with_puts(outs: OutLog, written: &[Written]) -> Result<OutLog, AllocError>
    ensures { IfOk result (λ after. after.items ≡ with_puts written.now outs.items) }
{
    let mut after = outs;
    for change in written {
        after = with_put(after, change)?;
    }
    Ok(after)
}

/// The edits after a table is written anew, with these rows committed.
fn with_rewrite(outs: OutLog, table: u16, rows: &RowMap) -> Result<OutLog, AllocError>
    ensures { IfOk result (λ after. after.items ≡ OutEdit.Rewritten table rows.now ∷ outs.items) }
{
    let rows = rows.clone()?;
    let mut after = outs;
    after.push_front(OutEdit::Rewritten { table, rows })?;
    Ok(after)
}

/// The edits after an entry of this kind that commits nothing.
fn with_kind(
    outs: OutLog,
    kind: Kind,
    command: &Command,
    rows: &RowMap,
) -> Result<OutLog, AllocError>
    ensures { IfOk result (λ after. after.items ≡ with_kind kind command.now rows.now outs.items) }
{
    match kind {
        Kind::End => match command {
            Command::Rewrite { table } => with_rewrite(outs, *table, rows),
            _ => Ok(outs),
        },
        _ => Ok(outs),
    }
}

/// The transactions that are sent after a commit: one more, if it has a change.
fn with_sent(sent: TransactionList, written: WrittenList) -> Result<TransactionList, AllocError>
    ensures { IfOk result (λ all. all ≡ with_sent sent written) }
{
    let mut all = sent;
    if written.len() > 0 {
        all.push(written)?;
    }
    Ok(all)
}

/// A session's changes after a moment that leaves it as it is in this state.
fn written_after(
    alloc: Global,
    script: &Script,
    written: WrittenList,
    session: u16,
    came: &Answered,
    kept: &[u16],
) -> Result<WrittenList, AllocError>
    ensures { IfOk result (λ all. all ≡ next_written script.now kept.now written (changes_of came.now.after session)) }
{
    let nothing = Transaction::begin(alloc, Level::Rc);
    let transaction = came.after.transaction_or(session, &nothing);
    next_written(alloc, script, written, transaction.changes.as_slice(), kept)
}

/// What is told after a commit of a session: its changes are sent, and none are left.
fn after_commit(alloc: Global, streamed: Streamed, session: u16) -> Result<Streamed, AllocError>
    requires { 1 ≤ session }
    ensures outs { IfOk result (λ after. after.outs.items ≡ with_puts (unwrap_or (nth streamed.written.items session) []) streamed.outs.items) }
    ensures written { IfOk result (λ after. after.written.items ≡ slice_set streamed.written.items (session - 1) []) }
    ensures sent { IfOk result (λ after. after.sent ≡ with_sent streamed.sent (unwrap_or (nth streamed.written.items session) [])) }
{
    let mut lists = streamed.written;
    let changes = take_written(alloc, &mut lists, session);
    let outs = with_puts(streamed.outs, changes.as_slice())?;
    let sent = with_sent(streamed.sent, changes)?;
    Ok(Streamed {
        outs,
        written: lists,
        sent,
    })
}

/// What is told after a moment that commits nothing.
fn after_other(
    alloc: Global,
    script: &Script,
    streamed: Streamed,
    entry: &JournalEntry,
    command: &Command,
    came: &Answered,
) -> Result<Streamed, AllocError>
    requires { 1 ≤ entry.now.session }
    ensures outs { IfOk result (λ after. after.outs.items ≡ with_kind entry.now.kind command.now came.now.after.latest streamed.outs.items) }
    ensures written { IfOk result (λ after. after.written.items ≡ slice_set streamed.written.items (entry.now.session - 1) (written_after script.now (stream_in script.now.schemas streamed) (moment_with entry.now command.now came.now))) }
    ensures sent { IfOk result (λ after. after.sent ≡ streamed.sent) }
{
    let mut lists = streamed.written;
    let changes = take_written(alloc, &mut lists, entry.session);
    let kept = kept_by(
        alloc,
        &script.schemas,
        &streamed.outs,
        changes.as_slice(),
        command,
    )?;
    let kept = kept.as_slice();
    let changes = written_after(alloc, script, changes, entry.session, came, kept)?;
    put_written(&mut lists, entry.session, changes);
    let outs = with_kind(streamed.outs, entry.kind, command, &came.after.latest)?;
    Ok(Streamed {
        outs,
        written: lists,
        sent: streamed.sent,
    })
}

/// What is told after one moment more. A granted commit leaves its session without changes.
pub fn stream_after(
    alloc: Global,
    script: &Script,
    streamed: Streamed,
    entry: &JournalEntry,
    command: &Command,
    came: &Answered,
) -> Result<Streamed, AllocError>
    requires one { 1 ≤ entry.now.session }
    requires none_left { commits (moment_with entry.now command.now came.now) ≡ true → changes_of came.now.after entry.now.session ≡ [] }
    ensures { IfOk result (λ after. stream_in script.now.schemas after ≡ stream_after script.now (stream_in script.now.schemas streamed) (moment_with entry.now command.now came.now)) }
{
    if commits(entry, command, came) {
        let after = after_commit(alloc, streamed, entry.session)?;
        return Ok(after);
    }
    let after = after_other(alloc, script, streamed, entry, command, came)?;
    Ok(after)
}
