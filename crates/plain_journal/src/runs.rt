//! What a whole journal tells, and its printed lines.

ghost use Rattle.command_set.specs.Journals.{first_run, lines, run_of, untold};
ghost use Rattle.plain_journal.specs.Beyond.{answers_beyond};
ghost use Rattle.std.specs.Prelude.{◌≡◌, ◌<◌, ◌^◌, true, IfOk, IsErrOf, length, replicate};

use crate::entries::after_entry;
use command_set::journal::{LineList, Run, Told, ToldList};
use command_set::state::Plain;
use command_set::{JournalEntry, Script};
use list_facts::ListOf;
use plain_program::PlainFault;
use std::alloc::{AllocError, Global};

// Sessions none of whose commands has begun.
fn untold(alloc: Global, sessions: usize) -> Result<ToldList, AllocError>
    ensures { IfOk result (λ told. told ≡ replicate sessions untold) }
{
    let mut told = ListOf::new(alloc);
    for _ in 0..sessions {
        told.push(Told {
            begun: 0,
            last: None,
            reply: None,
        })?;
    }
    Ok(told)
}

/// What is told before the first entry.
pub fn first_run(alloc: Global, script: &Script) -> Result<Run, AllocError>
    ensures { IfOk result (λ run. run ≡ first_run script.now) }
{
    let sessions = script.sessions.len();
    let plain = Plain::first(alloc, sessions)?;
    let told = untold(alloc, sessions)?;
    Ok(Run {
        plain,
        told,
        lines: ListOf::new(alloc),
    })
}

/// What a whole journal tells.
pub fn run_of(alloc: Global, script: &Script, journal: &[JournalEntry]) -> Result<Run, PlainFault>
    requires { length script.now.sessions < 2 ^ 16 }
    ensures ok { IfOk result (λ run. run ≡ run_of script.now journal.now) }
    ensures range { IsErrOf result PlainFault.Range → answers_beyond script.now journal.now ≡ true }
{
    let mut run = first_run(alloc, script)?;
    for entry in journal {
        run = after_entry(alloc, script, run, entry)?;
    }
    Ok(run)
}

/// The printed lines of a journal, in the order in which they are printed.
pub fn plain_lines(
    alloc: Global,
    script: &Script,
    journal: &[JournalEntry],
) -> Result<LineList, PlainFault>
    requires { length script.now.sessions < 2 ^ 16 }
    ensures ok { IfOk result (λ told. told ≡ lines script.now journal.now) }
    ensures range { IsErrOf result PlainFault.Range → answers_beyond script.now journal.now ≡ true }
{
    let run = run_of(alloc, script, journal)?;
    Ok(run.lines)
}
