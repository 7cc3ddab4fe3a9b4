ghost use Rattle.std.specs.Prelude.{◌≤◌};

use command_set::JournalEntry;
use plain_journal::plain_lines;
use plain_program::PlainFault;
use script_text::{ScriptFault, parse_script};
use session_shell::{Bytes, BytesList, Status, toast_replay};
use std::alloc::{AllocError, Global};
use toast_io::{CallList, MemSink, MemSource};
use transcript::print_reply;

/// Want of memory, or a text that is no script of at most 64 sessions.
#[derive(Debug, Drop)]
struct Broken;

impl From<AllocError> for Broken {
    fn from(_: AllocError) -> Self {
        Broken
    }
}

impl From<PlainFault> for Broken {
    fn from(_: PlainFault) -> Self {
        Broken
    }
}

impl From<ScriptFault> for Broken {
    fn from(_: ScriptFault) -> Self {
        Broken
    }
}

// What the plain program's answers to a journal of a script print.
fn plain_text(alloc: Global, text: &str, journal: &[JournalEntry]) -> Result<Bytes, Broken> {
    let script = parse_script(alloc, text.as_bytes())?;
    if script.sessions.len() > 64 {
        return Err(Broken);
    }
    let lines = plain_lines(alloc, &script, journal)?;
    let mut printed = Bytes::new(alloc);
    for line in lines.as_slice() {
        print_reply(alloc, line.session, line.number, &line.reply, &mut printed)?;
    }
    Ok(printed)
}

// Whether a script's replay prints what the plain program's answers to its journal print.
fn agrees(alloc: Global, text: &str) -> Result<bool, Broken> {
    let mut words = BytesList::new(alloc);
    words.push(Bytes::from_slice(alloc, b"replay")?)?;
    let bytes = Bytes::from_slice(alloc, text.as_bytes())?;
    let mut source = MemSource::new(alloc, bytes, 1000, CallList::new(alloc));
    let mut sink = MemSink::new(alloc, 20_000, CallList::new(alloc))?;
    let mut kept = None;
    let status = toast_replay(alloc, &words, &mut source, &mut sink, &mut kept);
    let Some(hub) = kept else {
        return Ok(false);
    };
    let plain = plain_text(alloc, text, hub.journal())?;
    Ok(status == Status::Done && sink.written() == plain.as_slice())
}

// A script with one more line of a schedule, of so many items: the digits of `order`, from the last on, name
// their sessions, and `each` follows each.
fn with_items(
    alloc: Global,
    script: &str,
    sessions: u32,
    items: u32,
    each: &str,
    order: u32,
) -> Result<String, AllocError>
    requires { 1 ≤ sessions }
{
    let mut text = String::new(alloc);
    text.push_str(script)?;
    text.push_str("go")?;
    let mut digits = order;
    for _ in 0..items {
        text.push_str(match digits % sessions {
            0 => " 1",
            1 => " 2",
            _ => " 3",
        })?;
        text.push_str(each)?;
        digits /= sessions;
    }
    text.push_str("\n")?;
    Ok(text)
}

// The first of the orders of so many items in which a script's replay and the plain program do not agree.
fn first_other(
    alloc: Global,
    script: &str,
    sessions: u32,
    items: u32,
    each: &str,
    orders: u32,
) -> Result<Option<u32>, Broken>
    requires { 1 ≤ sessions }
{
    for order in 0..orders {
        let text = with_items(alloc, script, sessions, items, each, order)?;
        if !agrees(alloc, text.as_str())? {
            return Ok(Some(order));
        }
    }
    Ok(None)
}

/// Scripts of two sessions with short values.
const TWO_SHORT: [&str; 12] = [
    // A reader beside an insert, which is committed or rolled back.
    "table e\nsession\nbegin rc\ninsert t1 1 x01\ncommit\nsession\nbegin rc\nget t1 1\nget t1 1\ncommit\n",
    "table e\nsession\nbegin rc\ninsert t1 1 x01\nrollback\nsession\nbegin rc\nget t1 1\nget t1 1\ncommit\n",
    // Two keys in opposite orders.
    "table e\nsession\nbegin rc\ninsert t1 1 x01\ninsert t1 2 x02\ncommit\nsession\nbegin rc\ninsert t1 2 x03\ninsert t1 1 x04\ncommit\n",
    // Two tables.
    "table e\ntable p\nsession\nbegin rc\ninsert t1 1 x01\nget t2 1\ncommit\nsession\nbegin rc\ninsert t2 1 null\nget t1 1\ncommit\n",
    // Commands outside and inside a transaction, and after a failure.
    "table e\nsession\nget t1 1\nbegin rc\nbegin rc\ninsert t1 1 x01\ncommit\nsession\ncommit\nrollback\nbegin rr\nget t1 1\nget t1 1\n",
    "table e\nsession\nbegin rc\ninsert t1 1 x01\ninsert t1 1 x02\nget t1 1\ncommit\nsession\nbegin rc\ninsert t1 1 x03\nget t1 1\nrollback\n",
    // An update beside a repeatable reader.
    "table e\nsession\nbegin rc\ninsert t1 1 x01\ncommit\nbegin rc\nupdate t1 1 1=x02\ncommit\nsession\nbegin rr\nget t1 1\nget t1 1\ncommit\nget t1 1\ngo 1! 1! 1!\n",
    // Two updates of a row, one of them under repeatable read.
    "table e p\nsession\nbegin rc\ninsert t1 1 x01 x01\ncommit\nbegin rc\nupdate t1 1 1=x02\ncommit\nsession\nbegin rr\nget t1 1\nupdate t1 1 2=x03\ncommit\nbegin rc\nget t1 1\ngo 1! 1! 1!\n",
    // A row is taken away by one and changed by the other.
    "table e\nsession\nbegin rc\ninsert t1 1 x01\ncommit\nbegin rc\ndelete t1 1\ncommit\nsession\nbegin rc\nupdate t1 1 1=x02\nget t1 1\ncommit\nget t1 1\ngo 1! 1! 1!\n",
    // A row is moved to a key at which the other puts a row.
    "table e\nsession\nbegin rc\ninsert t1 1 x01\ncommit\nbegin rc\nrekey t1 1 2 1=x02\ncommit\nsession\nbegin rc\ninsert t1 2 x03\nget t1 1\ncommit\ngo 1! 1! 1!\n",
    // Two rows are moved to each other's keys.
    "table e\nsession\nbegin rc\ninsert t1 1 x01\ninsert t1 2 x02\ncommit\nbegin rc\nrekey t1 1 3\nrekey t1 3 2\nsession\nbegin rr\nget t1 1\nrekey t1 2 3\nrekey t1 3 1\ngo 1! 1! 1! 1!\n",
    // A handle under repeatable read, and the row that it was opened on changed.
    "table e\nsession\nbegin rc\ninsert t1 1 x010203\ncommit\nbegin rc\nupdate t1 1 1=null\ncommit\nsession\nbegin rr\nopen h1 t1 1 1\nfetch h1 1 1\nclose h1\nfetch h1 0 1\ngo 1! 1! 1!\n",
];

/// Scripts of two sessions with values of two pieces.
const TWO_LONG: [&str; 10] = [
    // A reader beside an insert.
    "table e\nsession\nbegin rc\ninsert t1 1 c2500.1\ncommit\nsession\nbegin rc\nget t1 1\nget t1 1\n",
    // One key, written by both.
    "table e\nsession\nbegin rc\ninsert t1 1 c2500.1\ncommit\nsession\nbegin rc\ninsert t1 1 c2100.2\ncommit\n",
    "table e\nsession\nbegin rc\ninsert t1 1 c2500.1\nrollback\nsession\nbegin rc\ninsert t1 1 x02\nget t1 1\ncommit\n",
    // A long value put in place of another, beside a reader of its end.
    "table e\nsession\nbegin rc\ninsert t1 1 c2500.1\ncommit\nbegin rc\nupdate t1 1 1=c2500.9\ncommit\nsession\nbegin rc\npart t1 1 1 1990 20\npart t1 1 1 2490 -1\ncommit\ngo 1! 1! 1!\n",
    // A long value that an update keeps, beside a repeatable reader.
    "table e p\nsession\nbegin rc\ninsert t1 1 c2500.1 x01\ncommit\nbegin rc\nupdate t1 1 2=x02\ncommit\nsession\nbegin rr\nget t1 1\nget t1 1\ncommit\ngo 1! 1! 1!\n",
    // A row with a long value is taken away, beside readers that saw it.
    "table e\nsession\nbegin rc\ninsert t1 1 c2500.1\ncommit\nbegin rc\ndelete t1 1\ncommit\nsession\nbegin rr\nget t1 1\nget t1 1\ncommit\ngo 1! 1! 1!\n",
    "table e\nsession\nbegin rc\ninsert t1 1 c2500.1\ncommit\nbegin rc\ndelete t1 1\ncommit\nsession\nbegin rc\nopen h1 t1 1 1\nfetch h1 1990 10\nfetch h1 0 3\nclose h1\ngo 1! 1! 1!\n",
    // A row with a long value is moved, and put back.
    "table e\nsession\nbegin rc\ninsert t1 1 c2500.1\ncommit\nbegin rc\nrekey t1 1 2\nrekey t1 2 1 1=c2200.3\ncommit\nsession\nbegin rc\nget t1 1\nget t1 2\ngo 1! 1! 1!\n",
    // Two long values where there is one id.
    "ids 16384 16384\ntable e\nsession\nbegin rc\ninsert t1 1 c2500.1\nrollback\nsession\nbegin rc\ninsert t1 2 c2500.2\nget t1 2\ncommit\n",
    // A session that ends within its transaction.
    "table e\nsession\nbegin rc\ninsert t1 1 c2500.3\nsession\nbegin rc\ninsert t1 1 x02\nget t1 1\n",
];

/// Scripts of three sessions.
const THREE: [&str; 6] = [
    "table e\nsession\nbegin rc\ninsert t1 1 x01\nrollback\nsession\nbegin rc\ninsert t1 1 x02\ncommit\nsession\nbegin rc\ninsert t1 1 x03\ncommit\n",
    // A repeatable reader beside an update and a delete.
    "table e\nsession\nbegin rc\ninsert t1 1 x01\ncommit\nbegin rr\nget t1 1\nget t1 1\nsession\nbegin rc\nupdate t1 1 1=x02\ncommit\nsession\nbegin rr\ndelete t1 1\ncommit\ngo 1! 1! 1!\n",
    // A row is moved, another put at its new key, and both are read.
    "table e\nsession\nbegin rc\ninsert t1 1 x01\ncommit\nbegin rc\nrekey t1 1 2\ncommit\nsession\nbegin rc\ninsert t1 2 x02\ncommit\nsession\nbegin rr\nget t1 1\nget t1 2\ngo 1! 1! 1!\n",
    // A handle, beside a delete of its row and an insert at the key.
    "table e\nsession\nbegin rc\ninsert t1 1 c2500.1\ncommit\nbegin rc\nopen h1 t1 1 1\nfetch h1 1995 2\nsession\nbegin rc\ndelete t1 1\ncommit\nsession\nbegin rc\ninsert t1 1 c2500.2\ncommit\ngo 1! 1! 1!\n",
    // Two ids for three long values.
    "ids 16384 16385\ntable e\nsession\nbegin rc\ninsert t1 1 c2500.1\ncommit\nsession\nbegin rc\ninsert t1 2 c2500.2\nrollback\nsession\nbegin rc\ninsert t1 3 c2500.3\ncommit\n",
    "table e\ntable e\nsession\nbegin rc\ninsert t2 1 c2500.1\ncommit\nsession\nbegin rc\ninsert t1 1 c2500.2\ncommit\nsession\nbegin rr\nget t2 1\nget t1 1\n",
];

#[test]
fn two_sessions_agree_in_every_order(rt: HostRuntime) -> Result<(), Broken> {
    let alloc = rt.alloc();
    for script in TWO_SHORT {
        let other = first_other(alloc, script, 2, 8, "", 256)?;
        assert!(rt; other.is_none(), "{script}");
    }
    Ok(())
}

#[test]
fn two_sessions_with_long_values_agree_in_every_order(rt: HostRuntime) -> Result<(), Broken> {
    let alloc = rt.alloc();
    for script in TWO_LONG {
        let other = first_other(alloc, script, 2, 7, "*3", 128)?;
        assert!(rt; other.is_none(), "{script}");
    }
    Ok(())
}

#[test]
fn three_sessions_agree_in_every_order(rt: HostRuntime) -> Result<(), Broken> {
    let alloc = rt.alloc();
    for script in THREE {
        let other = first_other(alloc, script, 3, 5, "*2", 243)?;
        assert!(rt; other.is_none(), "{script}");
    }
    Ok(())
}
