use command_set::state::{Answered, Plain};
use command_set::{Command, Level, Reply, SchemaList};
use list_facts::ListOf;
use plain_program::{PlainFault, plain_answer};
use std::alloc::Global;

// The answer to a session, where there are not too many.
fn answered(
    alloc: Global,
    store: Plain,
    session: u16,
    command: &Command,
) -> Result<Option<Answered>, PlainFault> {
    if store.sessions.len() > 64 {
        return Ok(None);
    }
    let schemas: SchemaList = ListOf::new(alloc);
    let answered = plain_answer(alloc, &schemas, store, session, command)?;
    Ok(Some(answered))
}

// The state after a command that gets this reply; none where it gets another.
fn after(
    alloc: Global,
    store: Plain,
    session: u16,
    command: &Command,
    reply: &Reply,
) -> Result<Option<Plain>, PlainFault> {
    match answered(alloc, store, session, command)? {
        Some(answered) => {
            if answered.reply == *reply {
                return Ok(Some(answered.after));
            }
            Ok(None)
        }
        None => Ok(None),
    }
}

// Whether these commands get these replies, where they fall in this order.
fn plays(alloc: Global, steps: &[(u16, Command, Reply)]) -> Result<bool, PlainFault> {
    let mut store = Plain::first(alloc, 2)?;
    for (session, command, reply) in steps {
        match after(alloc, store, *session, command, reply)? {
            Some(next) => store = next,
            None => return Ok(false),
        }
    }
    Ok(true)
}

#[test]
fn a_rewrite_locks_its_table(rt: HostRuntime) -> Result<(), PlainFault> {
    let get = || Command::Get { table: 1, key: 1 };
    let rewrite = || Command::Rewrite { table: 1 };
    let steps = [
        (1, Command::Begin { level: Level::Rr }, Reply::Okay),
        (1, get(), Reply::Absent),
        (2, rewrite(), Reply::Locked { session: 1 }),
        (1, Command::Commit, Reply::Okay),
        (2, rewrite(), Reply::Started),
        (1, Command::Begin { level: Level::Rc }, Reply::Okay),
        (1, get(), Reply::Locked { session: 2 }),
        (1, get(), Reply::Failed),
        (1, Command::Rollback, Reply::Okay),
    ];
    assert!(rt; plays(rt.alloc(), &steps)?);
    Ok(())
}
