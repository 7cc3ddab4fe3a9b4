//! What one entry of a journal changes.

ghost use Rattle.command_set.specs.Answers.{answer};
ghost use Rattle.command_set.specs.Journals.{after_entry, command_at, corrected, cut_short, is_data, line_of, reply_before, runs_upkeep, with_reply, without_upkeep};
ghost use Rattle.plain_journal.specs.Beyond.{is_beyond_at, is_beyond_kind};
ghost use Rattle.plain_journal.specs.Kinds.{after_cut, after_end, after_kind};
ghost use Rattle.plain_program.specs.Words.{is_beyond};
ghost use Rattle.std.specs.List.{filter};
ghost use Rattle.std.specs.Option.{option_copied};
ghost use Rattle.std.specs.Prelude.{◌≡◌, ◌<◌, ◌-◌, ◌^◌, ◌==◌, ◌∷◌, ◌++◌, [], Some, if◌then◌else◌, true, not, IfOk, IsErrOf, length, slice_set};

use command_set::journal::{Line, LineList, Run, Told, ToldList};
use command_set::state::{Plain, UpkeepList};
use command_set::values::nth;
use command_set::{Command, JournalEntry, Kind, Reply, Script};
use list_facts::ListOf;
use plain_program::{PlainFault, fail, plain_answer};
use std::alloc::{AllocError, Global};
use std::mem::replace;

/// A session's command, both counted from 1, if there is one.
pub fn command_at(script: &Script, session: u16, number: u32) -> Option<&Command>
    ensures { option_copied result ≡ command_at script.now session number }
{
    match nth(script.sessions.as_slice(), usize::from(session)) {
        Some(commands) => nth(commands.as_slice(), number as usize),
        None => None,
    }
}

/// What the moment of an entry's command answered, if it has had one.
pub fn reply_before<'a>(run: &'a Run, entry: &JournalEntry) -> Option<&'a Reply>
    ensures { option_copied result ≡ reply_before run.now entry.now }
{
    match nth(run.told.as_slice(), usize::from(entry.session)) {
        Some(told) => {
            if told.begun == entry.number {
                told.reply.as_ref()
            } else {
                None
            }
        }
        None => None,
    }
}

fn copy_of(reply: &Reply) -> Result<Reply, AllocError>
    ensures { IfOk result (λ copy. copy ≡ reply.now) }
{
    let copy = reply.clone()?;
    Ok(copy)
}

// A copy of what the moment of an entry's command answered, if it has had one.
fn copy_before(run: &Run, entry: &JournalEntry) -> Result<Option<Reply>, AllocError>
    ensures { IfOk result (λ reply. reply ≡ reply_before run.now entry.now) }
{
    match reply_before(run, entry) {
        Some(reply) => {
            let reply = copy_of(reply)?;
            Ok(Some(reply))
        }
        None => Ok(None),
    }
}

// Tells of a session that an entry has come, and what the moment of its command answered.
fn tell(told: &mut ToldList, entry: &JournalEntry, reply: Option<Reply>)
    ensures { told.new ≡ slice_set told.old (entry.now.session - 1) (record { begun = entry.now.number; last = Some entry.now.kind; reply = reply }) }
{
    let at = usize::from(entry.session.saturating_sub(1));
    if at >= told.len() {
        return;
    }
    told.set(
        at,
        Told {
            begun: entry.number,
            last: Some(entry.kind),
            reply,
        },
    );
}

// The line of an entry's command with this reply.
fn line_of(entry: &JournalEntry, reply: Reply) -> Line
    ensures { result ≡ line_of entry.now reply }
{
    Line {
        session: entry.session,
        number: entry.number,
        reply,
    }
}

// These lines, and then the line of an entry's command.
fn with_line(lines: LineList, entry: &JournalEntry, reply: Reply) -> Result<LineList, AllocError>
    ensures { IfOk result (λ all. all ≡ lines ++ line_of entry.now reply ∷ []) }
{
    let mut all = lines;
    all.push(line_of(entry, reply))?;
    Ok(all)
}

// A line with a new reply, if it is the line of an entry's command.
fn corrected(entry: &JournalEntry, reply: &Reply, line: Line) -> Result<Line, AllocError>
    ensures { IfOk result (λ new. new ≡ corrected entry.now reply.now line) }
{
    if line.session == entry.session && line.number == entry.number {
        let reply = copy_of(reply)?;
        return Ok(Line { reply, ..line });
    }
    Ok(line)
}

// The lines with a new reply in a command's line.
fn with_reply(
    alloc: Global,
    lines: LineList,
    entry: &JournalEntry,
    reply: &Reply,
) -> Result<LineList, AllocError>
    ensures { IfOk result (λ all. all ≡ with_reply lines entry.now reply.now) }
{
    let mut all = ListOf::new(alloc);
    for line in lines.into_vec() {
        let line = corrected(entry, reply, line)?;
        all.push(line)?;
    }
    Ok(all)
}

// The upkeep that is not this session's.
fn upkeep_of_others(
    alloc: Global,
    upkeep: UpkeepList,
    session: u16,
) -> Result<UpkeepList, AllocError>
    ensures { IfOk result (λ others. others ≡ filter (λ running. not (running.session == session)) upkeep) }
{
    let mut others = ListOf::new(alloc);
    let all = upkeep.as_slice();
    for running in all {
        if running.session != session {
            others.push(*running)?;
        }
    }
    Ok(others)
}

/// The state without a session's upkeep.
pub fn without_upkeep(alloc: Global, store: Plain, session: u16) -> Result<Plain, AllocError>
    ensures { IfOk result (λ after. after ≡ without_upkeep store session) }
{
    let mut after = store;
    let upkeep = replace(&mut after.upkeep, ListOf::new(alloc));
    after.upkeep = upkeep_of_others(alloc, upkeep, session)?;
    Ok(after)
}

// Whether a session runs upkeep.
fn runs_upkeep(store: &Plain, session: u16) -> bool
    ensures { result ≡ runs_upkeep store.now session }
{
    let upkeep = store.upkeep.as_slice();
    upkeep.iter().any(|running| running.session == session)
}

/// The state after a command of a session has ended early.
pub fn cut_short(alloc: Global, store: Plain, session: u16) -> Result<Plain, AllocError>
    ensures { IfOk result (λ after. after ≡ cut_short store session) }
{
    if runs_upkeep(&store, session) {
        let after = without_upkeep(alloc, store, session)?;
        return Ok(after);
    }
    let mut after = store;
    fail(&mut after, session);
    Ok(after)
}

/// Whether a command reads or writes rows.
pub fn is_data(command: &Command) -> bool
    ensures { result ≡ is_data command.now }
{
    !matches!(
        command,
        Command::Begin { .. }
            | Command::Commit
            | Command::Rollback
            | Command::VacuumMain { .. }
            | Command::VacuumToast { .. }
            | Command::Rewrite { .. }
    )
}

// The lines with a new reply in the line of an entry's command, where it has one, else with a line more.
fn lines_with(
    alloc: Global,
    has_line: bool,
    lines: LineList,
    entry: &JournalEntry,
    reply: Reply,
) -> Result<LineList, AllocError>
    ensures { IfOk result (λ all. all ≡ (if has_line then with_reply lines entry.now reply else lines ++ line_of entry.now reply ∷ [])) }
{
    if has_line {
        let all = with_reply(alloc, lines, entry, &reply)?;
        return Ok(all);
    }
    let all = with_line(lines, entry, reply)?;
    Ok(all)
}

// What is told after the moment of a command.
fn after_answer(
    alloc: Global,
    script: &Script,
    run: Run,
    entry: &JournalEntry,
    command: &Command,
) -> Result<Run, PlainFault>
    requires { length run.plain.sessions < 2 ^ 16 }
    ensures ok { IfOk result (λ after. after ≡ after_kind script.now run entry.now command.now Kind.Run) }
    ensures range { IsErrOf result PlainFault.Range → is_beyond (answer script.now.schemas run.plain entry.now.session command.now).reply ≡ true }
{
    let answered = plain_answer(alloc, &script.schemas, run.plain, entry.session, command)?;
    let reply = copy_of(&answered.reply)?;
    let lines = with_line(run.lines, entry, answered.reply)?;
    let mut told = run.told;
    tell(&mut told, entry, Some(reply));
    Ok(Run {
        plain: answered.after,
        told,
        lines,
    })
}

// What is told after the end of upkeep.
fn after_end(alloc: Global, run: Run, entry: &JournalEntry) -> Result<Run, AllocError>
    ensures { IfOk result (λ after. after ≡ after_end run entry.now) }
{
    let reply = copy_before(&run, entry)?;
    let plain = without_upkeep(alloc, run.plain, entry.session)?;
    let lines = with_line(run.lines, entry, Reply::Done)?;
    let mut told = run.told;
    tell(&mut told, entry, reply);
    Ok(Run { plain, told, lines })
}

// What is told after a command was ended early with this reply.
fn after_cut(
    alloc: Global,
    run: Run,
    entry: &JournalEntry,
    command: &Command,
    cut: Reply,
) -> Result<Run, AllocError>
    ensures { IfOk result (λ after. after ≡ after_cut run entry.now command.now cut) }
{
    let reply = copy_before(&run, entry)?;
    let has_line = reply.is_some() && is_data(command);
    let plain = cut_short(alloc, run.plain, entry.session)?;
    let lines = lines_with(alloc, has_line, run.lines, entry, cut)?;
    let mut told = run.told;
    tell(&mut told, entry, reply);
    Ok(Run { plain, told, lines })
}

// What is told after an entry that names a command.
fn after_named(
    alloc: Global,
    script: &Script,
    run: Run,
    entry: &JournalEntry,
    command: &Command,
) -> Result<Run, PlainFault>
    requires { length run.plain.sessions < 2 ^ 16 }
    ensures ok { IfOk result (λ after. after ≡ after_kind script.now run entry.now command.now entry.now.kind) }
    ensures range { IsErrOf result PlainFault.Range → is_beyond_kind script.now run entry.now command.now entry.now.kind ≡ true }
{
    match entry.kind {
        Kind::Run => {
            let after = after_answer(alloc, script, run, entry, command)?;
            Ok(after)
        }
        Kind::End => {
            let after = after_end(alloc, run, entry)?;
            Ok(after)
        }
        Kind::NoValueId => {
            let after = after_cut(alloc, run, entry, command, Reply::NoValueId)?;
            Ok(after)
        }
        Kind::Memory => {
            let after = after_cut(alloc, run, entry, command, Reply::Memory)?;
            Ok(after)
        }
    }
}

/// What the journal tells after one entry more.
pub fn after_entry(
    alloc: Global,
    script: &Script,
    run: Run,
    entry: &JournalEntry,
) -> Result<Run, PlainFault>
    requires { length run.plain.sessions < 2 ^ 16 }
    ensures ok { IfOk result (λ after. after ≡ after_entry script.now run entry.now) }
    ensures range { IsErrOf result PlainFault.Range → is_beyond_at script.now run entry.now ≡ true }
{
    match command_at(script, entry.session, entry.number) {
        None => Ok(run),
        Some(command) => {
            let after = after_named(alloc, script, run, entry, command)?;
            Ok(after)
        }
    }
}
