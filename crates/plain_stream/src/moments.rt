//! The moments of a journal's entries: the command, the reply, and the state after it.

ghost use Rattle.command_set.specs.Journals.{came_of, cut_short, without_upkeep};
ghost use Rattle.plain_journal.specs.Beyond.{is_beyond_kind};
ghost use Rattle.plain_stream.specs.States.{run_at};
ghost use Rattle.std.specs.Prelude.{◌≡◌, ◌<◌, ◌^◌, true, IfOk, IsErrOf, length};

use command_set::state::{Answered, Plain};
use command_set::{Command, JournalEntry, Kind, Reply, Script};
use plain_journal::entries::{cut_short, without_upkeep};
use plain_program::{PlainFault, plain_answer};
use std::alloc::{AllocError, Global};

/// What comes of a command that has ended early with this reply.
fn cut(alloc: Global, store: Plain, session: u16, reply: Reply) -> Result<Answered, AllocError>
    ensures { IfOk result (λ came. came ≡ record { reply = reply; after = cut_short store session }) }
{
    let after = cut_short(alloc, store, session)?;
    Ok(Answered { reply, after })
}

/// What comes of the end of a session's upkeep.
fn ended(alloc: Global, store: Plain, session: u16) -> Result<Answered, AllocError>
    ensures { IfOk result (λ came. came ≡ record { reply = Reply.Done; after = without_upkeep store session }) }
{
    let after = without_upkeep(alloc, store, session)?;
    Ok(Answered {
        reply: Reply::Done,
        after,
    })
}

/// What comes of a command at an entry.
pub fn came_of(
    alloc: Global,
    script: &Script,
    store: Plain,
    entry: &JournalEntry,
    command: &Command,
) -> Result<Answered, PlainFault>
    requires { length store.sessions < 2 ^ 16 }
    ensures ok { IfOk result (λ came. came ≡ came_of script.now store entry.now.session command.now entry.now.kind) }
    ensures range { IsErrOf result PlainFault.Range → is_beyond_kind script.now (run_at store) entry.now command.now entry.now.kind ≡ true }
{
    match entry.kind {
        Kind::Run => {
            let came = plain_answer(alloc, &script.schemas, store, entry.session, command)?;
            Ok(came)
        }
        Kind::End => {
            let came = ended(alloc, store, entry.session)?;
            Ok(came)
        }
        Kind::NoValueId => {
            let came = cut(alloc, store, entry.session, Reply::NoValueId)?;
            Ok(came)
        }
        Kind::Memory => {
            let came = cut(alloc, store, entry.session, Reply::Memory)?;
            Ok(came)
        }
    }
}
