ghost use Rattle.std.specs.Prelude.{◌≡◌, ◌≤◌, length, IfOk};
ghost use Rattle.session_shell.specs.Hubs.{IsSessionOf};
ghost use Rattle.shared_store.specs.Shares.{IsPassFor};

use super::{Shared, SharedStore, run_threads};
use command_set::{Kind, Reply};
use script_text::{ScriptFault, parse_script};
use session_shell::{Bytes, Hub, Turn};
use std::alloc::{AllocError, Global};
use std::sync::Wait;
use std::sync::atomic::{AtomicU64, Ordering};
use std::test::Fail;
use std::thread;
use std::thread::Threads;
use toast_io::{Gate, OpenGate};
use transcript::print_reply;
use turn_hall::Pass;

// One session, which puts a row, reads it and commits.
const ROW: &str = "table e\nsession\nbegin rc\ninsert t1 1 x010203\nget t1 1\ncommit\n";

const ROW_REPLIES: &str = "s1.1 ok\ns1.2 ok\ns1.3 row 1 x010203\ns1.4 ok\n";

// Two sessions, whose commands take a turn each.
const TWO: &str = "session\nbegin rc\nrollback\nbegin rc\nsession\nbegin rc\nrollback\nbegin rc\n";

/// A store with this script, its first pass, and the number of the script's sessions.
fn store_of(alloc: Global, text: &str) -> Result<(SharedStore, Pass<Hub>, u16), ScriptFault>
    ensures own { IfOk result (λ r. IsPassFor r.0 r.1) }
    ensures sessions { IfOk result (λ r. r.2 ≡ length r.0.fixed.sessions) }
{
    let script = parse_script(alloc, text.as_bytes())?;
    let Ok(sessions) = u16::try_from(script.sessions.len()) else {
        return Err(ScriptFault::Memory);
    };
    let (store, pass) = SharedStore::new(alloc, script)?;
    Ok((store, pass, sessions))
}

/// The entries that a session's turns name as they end, up to the first that finds nothing left.
fn ended<R: Wait>(
    rt: &R,
    alloc: Global,
    store: &SharedStore,
    pass: &mut Pass<Hub>,
    session: u16,
) -> Result<Vec<u32>, AllocError>
    requires own { IsPassFor store.now pass.old }
    requires session { IsSessionOf store.now.fixed session }
    ensures { IsPassFor store.now pass.new }
{
    let mut entries = Vec::new(alloc);
    for _ in 0..100 {
        match store.call(rt, pass, session) {
            Turn::Nothing => return Ok(entries),
            Turn::More => {}
            Turn::Ended { entry } => entries.push(entry)?,
        }
    }
    Ok(entries)
}

/// The lines of a hub of one session.
fn lines_of(alloc: Global, hub: &Hub) -> Result<Bytes, AllocError> {
    let mut text = Bytes::new(alloc);
    for line in 0..4 {
        if let Some(reply) = hub.reply(line) {
            print_reply(alloc, 1, line + 1, reply, &mut text)?;
        }
    }
    Ok(text)
}

#[test]
fn a_store_makes_turns_until_nothing_is_left(rt: HostRuntime) -> Result<(), Fail> {
    let alloc = rt.alloc();
    let Ok((store, mut pass, sessions)) = store_of(alloc, ROW) else {
        return Err(Fail::new("no store"));
    };
    if sessions < 1 {
        return Err(Fail::new("no session"));
    }
    let mut other = store.split(&mut pass);
    let entries = ended(&rt, alloc, &store, &mut other, 1)?;
    assert!(rt; entries.iter().copied().eq(0..4));
    assert_eq!(rt;
        store.try_advance(&mut pass, 1),
        Shared::Made(Turn::Nothing)
    );
    store.join(&mut pass, other);
    let hub = store.close(&rt, pass);
    assert_eq!(rt; lines_of(alloc, &hub)?.as_slice(), ROW_REPLIES.as_bytes());
    Ok(())
}

/// The hub once each session's thread has made its turns.
fn hub_after<R: Threads + Wait + Sync, G: Gate + Sync>(
    rt: &R,
    alloc: Global,
    text: &str,
    gate: &G,
) -> Result<Hub, ScriptFault> {
    let (store, mut pass, sessions) = store_of(alloc, text)?;
    run_threads(rt, &store, &mut pass, sessions, gate);
    Ok(store.close(rt, pass))
}

/// A gate at which the threads of two sessions meet before each of their first three turns.
#[derive(Drop)]
struct Meeting {
    first: AtomicU64,
    second: AtomicU64,
    missed: AtomicU64,
}

impl Gate for Meeting {
    fn before(&self, session: u16, turn: u32) {
        if turn > 3 {
            return;
        }
        let (own, other) = if session == 1 {
            (&self.first, &self.second)
        } else {
            (&self.second, &self.first)
        };
        own.store(u64::from(turn), Ordering::SeqCst);
        for _ in 0..100_000_000 {
            if other.load(Ordering::SeqCst) >= u64::from(turn) {
                return;
            }
            thread::yield_now();
        }
        self.missed.fetch_add(1, Ordering::SeqCst);
    }
}

#[test]
fn two_sessions_run_side_by_side(rt: HostRuntime) -> Result<(), Fail> {
    let gate = Meeting {
        first: AtomicU64::new(0),
        second: AtomicU64::new(0),
        missed: AtomicU64::new(0),
    };
    let Ok(hub) = hub_after(&rt, rt.alloc(), TWO, &gate) else {
        return Err(Fail::new("no hub"));
    };
    assert_eq!(rt; gate.missed.load(Ordering::SeqCst), 0);
    assert_eq!(rt; hub.journal().len(), 6);
    Ok(())
}

/// So many sessions, each of which puts a row of two pieces under a key of its own, reads it and commits.
fn many_sessions(alloc: Global) -> Result<String, AllocError> {
    let mut script = String::from_str(alloc, "table e\n")?;
    for key in 1..65 {
        let session = format!(in alloc;
            "session\nbegin rc\ninsert t1 {key} c2500.0\nget t1 {key}\ncommit\n"
        )?;
        script.push_str(&session)?;
    }
    Ok(script)
}

#[test]
fn as_many_sessions_as_there_may_be_run(rt: HostRuntime) -> Result<(), Fail> {
    let script = many_sessions(rt.alloc())?;
    let Ok(hub) = hub_after(&rt, rt.alloc(), script.as_str(), &OpenGate) else {
        return Err(Fail::new("no hub"));
    };
    let journal = hub.journal();
    assert_eq!(rt; journal.len(), 256);
    for session in 1..65 {
        let numbers = journal
            .iter()
            .filter(|entry| entry.session == session)
            .map(|entry| entry.number);
        assert!(rt; numbers.eq(1..5), "session {session}");
    }
    for (line, entry) in (0..256).zip(journal) {
        let reply = hub.reply(line);
        if entry.number == 3 {
            assert!(rt; matches!(reply, Some(Reply::Row { .. })), "line {line}");
        } else {
            assert_eq!(rt; reply, Some(&Reply::Okay), "line {line}");
        }
    }
    Ok(())
}
