//! Which journals are legal and complete for a script.

ghost use Rattle.command_set.specs.Journals.{all_ended, has_ended, is_complete, is_legal, is_rewrite_command, is_run, is_started, is_under_way, may_come_first, may_come_second, may_follow, takes_no_memory, told_of, untold, writes_values};
ghost use Rattle.command_set.specs.Replies.{is_granted};
ghost use Rattle.plain_journal.specs.Beyond.{answers_beyond};
ghost use Rattle.plain_journal.specs.Kinds.{may_come_of};
ghost use Rattle.std.specs.Option.{option_map_or, unwrap_or};
ghost use Rattle.std.specs.Prelude.{◌≡◌, ◌<◌, ◌+◌, ◌^◌, ◌==◌, ◌&&◌, ◌||◌, not, false, true, IfOk, IsErrOf, length, slice_get};

use crate::entries::{after_entry, command_at, is_data};
use crate::runs::{first_run, run_of};
use command_set::journal::{Run, Told};
use command_set::values::nth;
use command_set::{Command, CommandList, JournalEntry, Kind, Reply, Script};
use plain_program::PlainFault;
use std::alloc::Global;

// Whether an entry tells of a command's moment.
fn is_run(kind: Kind) -> bool
    ensures { result ≡ is_run kind }
{
    matches!(kind, Kind::Run)
}

// Whether a reply says that upkeep has begun.
fn is_started(reply: &Reply) -> bool
    ensures { result ≡ is_started reply.now }
{
    matches!(reply, Reply::Started)
}

// Whether the last entry of a session is the moment of a command.
fn last_is_run(told: &Told) -> bool
    ensures { result ≡ option_map_or is_run told.now.last false }
{
    match told.last {
        Some(kind) => is_run(kind),
        None => false,
    }
}

// Whether the moment of a session's last command answered that upkeep has begun.
fn reply_is_started(told: &Told) -> bool
    ensures { result ≡ option_map_or is_started told.now.reply false }
{
    match &told.reply {
        Some(reply) => is_started(reply),
        None => false,
    }
}

// Whether a session's upkeep is under way.
fn is_under_way(told: &Told) -> bool
    ensures { result ≡ is_under_way told.now }
{
    last_is_run(told) && reply_is_started(told)
}

// Whether a command writes a row with a value.
fn writes_values(command: &Command) -> bool
    ensures { result ≡ writes_values command.now }
{
    matches!(
        command,
        Command::Insert { .. } | Command::Update { .. } | Command::Rekey { .. }
    )
}

fn is_rewrite_command(command: &Command) -> bool
    ensures { result ≡ is_rewrite_command command.now }
{
    matches!(command, Command::Rewrite { .. })
}

// Whether a command takes no memory.
fn takes_no_memory(command: &Command) -> bool
    ensures { result ≡ takes_no_memory command.now }
{
    matches!(
        command,
        Command::Begin { .. } | Command::Commit | Command::Rollback
    )
}

/// Whether a reply is the granted one.
pub fn is_granted(reply: &Reply) -> bool
    ensures { result ≡ is_granted reply.now }
{
    matches!(
        reply,
        Reply::Okay | Reply::Row { .. } | Reply::Bytes(_) | Reply::Started
    )
}

// Whether an entry of this kind may come second for a command whose moment gave this reply.
fn may_come_second(command: &Command, reply: &Reply, kind: Kind) -> bool
    ensures { result ≡ may_come_second command.now reply.now kind }
{
    match kind {
        Kind::Run => false,
        Kind::End => is_started(reply),
        Kind::NoValueId => {
            (is_started(reply) && is_rewrite_command(command))
                || (is_granted(reply) && writes_values(command))
        }
        Kind::Memory => is_started(reply) || (is_granted(reply) && is_data(command)),
    }
}

// Whether an entry of this kind may come first for a command.
fn may_come_first(command: &Command, kind: Kind) -> bool
    ensures { result ≡ may_come_first command.now kind }
{
    match kind {
        Kind::Run => true,
        Kind::Memory => !takes_no_memory(command),
        _ => false,
    }
}

// What is told of a session; of one that does not exist, that nothing has begun, which is lent.
fn told_of<'a>(run: &'a Run, session: u16, nothing: &'a Told) -> &'a Told
    requires { nothing.now ≡ untold }
    ensures { result.now ≡ told_of run.now session }
{
    match nth(run.told.as_slice(), usize::from(session)) {
        Some(told) => told,
        None => nothing,
    }
}

// Whether an entry is the first of a session's next command, and may be.
fn may_begin(told: &Told, entry: &JournalEntry, command: &Command) -> bool
    ensures { result ≡ ((entry.now.number == told.now.begun + 1) && (not (is_under_way told.now) && may_come_first command.now entry.now.kind)) }
{
    u64::from(entry.number) == u64::from(told.begun) + 1
        && !is_under_way(told)
        && may_come_first(command, entry.kind)
}

// Whether an entry of this kind may come second for a command, after what is told.
fn may_end(told: &Told, kind: Kind, command: &Command) -> bool
    ensures { result ≡ option_map_or (λ reply. may_come_second command.now reply kind) told.now.reply false }
{
    match &told.reply {
        Some(reply) => may_come_second(command, reply, kind),
        None => false,
    }
}

// Whether an entry of this command may follow what is told of its session.
fn may_come(told: &Told, entry: &JournalEntry, command: &Command) -> bool
    ensures { result ≡ may_come_of told.now entry.now command.now }
{
    may_begin(told, entry, command)
        || (entry.number == told.begun && last_is_run(told) && may_end(told, entry.kind, command))
}

/// Whether an entry names a command and may follow what a journal tells.
pub fn may_follow(script: &Script, run: &Run, entry: &JournalEntry) -> bool
    ensures { result ≡ may_follow script.now run.now entry.now }
{
    let nothing = Told {
        begun: 0,
        last: None,
        reply: None,
    };
    let told = told_of(run, entry.session, &nothing);
    match command_at(script, entry.session, entry.number) {
        Some(command) => may_come(told, entry, command),
        None => false,
    }
}

/// Whether a journal is legal for a script: each session's entries go through its commands in order.
pub fn is_legal(
    alloc: Global,
    script: &Script,
    journal: &[JournalEntry],
) -> Result<bool, PlainFault>
    requires { length script.now.sessions < 2 ^ 16 }
    ensures ok { IfOk result (λ legal. legal ≡ is_legal script.now journal.now) }
    ensures range { IsErrOf result PlainFault.Range → answers_beyond script.now journal.now ≡ true }
{
    let mut run = first_run(alloc, script)?;
    for entry in journal {
        if !may_follow(script, &run, entry) {
            return Ok(false);
        }
        run = after_entry(alloc, script, run, entry)?;
    }
    Ok(true)
}

// Whether a session has gone through so many commands.
fn has_ended(told: &Told, commands: usize) -> bool
    ensures { result ≡ has_ended told.now commands }
{
    told.begun as usize == commands && !is_under_way(told)
}

// Whether the session at a place, from 0, has gone through its commands.
fn has_ended_at(told: &[Told], at: usize, commands: usize) -> bool
    ensures { result ≡ has_ended (unwrap_or (slice_get told.now at) untold) commands }
{
    match told.get(at) {
        Some(told) => has_ended(told, commands),
        None => commands == 0,
    }
}

// Whether each session has gone through its commands.
fn all_ended(told: &[Told], sessions: &[CommandList]) -> bool
    ensures { result ≡ all_ended told.now sessions.now }
{
    for (at, commands) in sessions.iter().enumerate() {
        if !has_ended_at(told, at, commands.len()) {
            return false;
        }
    }
    true
}

/// Whether a legal journal is complete for its script: every command has its entries.
pub fn is_complete(
    alloc: Global,
    script: &Script,
    journal: &[JournalEntry],
) -> Result<bool, PlainFault>
    requires { length script.now.sessions < 2 ^ 16 }
    ensures ok { IfOk result (λ complete. complete ≡ is_complete script.now journal.now) }
    ensures range { IsErrOf result PlainFault.Range → answers_beyond script.now journal.now ≡ true }
{
    let run = run_of(alloc, script, journal)?;
    Ok(all_ended(run.told.as_slice(), script.sessions.as_slice()))
}
