//! Scripts through the shell's call and through its hub, turn by turn.

ghost use Rattle.std.specs.Prelude.{IfOk, IfSome};
ghost use Rattle.session_shell.specs.Hubs.{IsSessionOf};

use command_set::{Kind, Reply};
use script_text::{ScriptFault, parse_script};
use session_shell::{Bytes, BytesList, Hub, Status, Turn, toast_replay};
use std::alloc::{AllocError, Global};
use std::test::Fail;
use toast_io::{CallList, MemSink, MemSource};

// The first session: a row is put, read and committed.
const FIRST: &str = "table e\nsession\nbegin rc\ninsert t1 1 x010203\nget t1 1\ncommit\n";

const FIRST_REPLIES: &str = "s1.1 ok\ns1.2 ok\ns1.3 row 1 x010203\ns1.4 ok\n";

// Scripts of changes, handles and value ids, with what is written.
const CHANGES: [(&str, &str); 4] = [
    // rows of two columns, changed, moved and taken away under repeatable read
    (
        "table e p\nsession\nbegin rr\ninsert t1 1 x0102 x03\nupdate t1 1 2=x04\nrekey t1 1 -5 1=null\npart t1 -5 1 0 1\npart t1 -5 2 0 -1\ndelete t1 -5\nget t1 -5\ncommit\n",
        "s1.1 ok\ns1.2 ok\ns1.3 ok\ns1.4 ok\ns1.5 null\ns1.6 bytes x04\ns1.7 ok\ns1.8 none\ns1.9 ok\n",
    ),
    // a handle keeps its value of three pieces when the row is gone, and goes with its transaction
    (
        "table e\nsession\nbegin rc\ninsert t1 1 c5000.0\nopen h1 t1 1 1\ndelete t1 1\nfetch h1 1995 2\nopen h1 t1 1 1\nclose h1\n",
        "s1.1 ok\ns1.2 ok\ns1.3 ok\ns1.4 ok\ns1.5 bytes xeeef\ns1.6 handle there\ns1.7 failed\n",
    ),
    // the second of two long values finds no id; the first one's pieces keep theirs when it is rolled back
    (
        "ids 16384 16384\ntable e e\nsession\nbegin rc\ninsert t1 1 c2500.0 c2500.1\nget t1 1\ncommit\nbegin rc\ninsert t1 1 c2500.2 x02\nrollback\n",
        "s1.1 ok\ns1.2 no value id\ns1.3 failed\ns1.4 rolled back\ns1.5 ok\ns1.6 no value id\ns1.7 ok\n",
    ),
    // an id that another session has in hand is not drawn
    (
        "ids 16384 16384\ntable e\nsession\nbegin rc\ninsert t1 1 c2500.1\nrollback\nsession\nbegin rc\ninsert t1 2 c2500.2\ncommit\ngo 1! 1*2 2! 2!\n",
        "s1.1 ok\ns1.2 ok\ns2.1 ok\ns2.2 no value id\ns1.3 ok\ns2.3 rolled back\n",
    ),
];

// One session, which puts a row of two pieces.
const TWO_PIECES: &str = "table e\nsession\nbegin rc\ninsert t1 1 c2500.0\ncommit\n";

// One session, which puts a row of two long values where there is one id.
const NO_ID: &str =
    "ids 16384 16384\ntable e e\nsession\nbegin rc\ninsert t1 1 c1996.0 c1996.1\ncommit\n";

#[test]
fn scripts_are_replayed(rt: HostRuntime) -> Result<(), Fail> {
    let alloc = rt.alloc();
    for (script, replies) in [
        (FIRST, FIRST_REPLIES),
        (
            "table e\nsession\nbegin rc\ninsert t1 1 x010203\nget t1 1\ninsert t1 1 x00\ncommit\n",
            "s1.1 ok\ns1.2 ok\ns1.3 row 1 x010203\ns1.4 taken\ns1.5 rolled back\n",
        ),
        (
            "table e\nsession\nbegin rc\nget t1 -9223372036854775808\ninsert t1 0 xaBCd\nget t1 0\n",
            "s1.1 ok\ns1.2 none\ns1.3 ok\ns1.4 row 0 xabcd\n",
        ),
        (
            "table e # one column\r\n\n\tsession\nbegin   rc\ninsert t1 1 null\nget t1 1\nrollback",
            "s1.1 ok\ns1.2 ok\ns1.3 row 1 null\ns1.4 ok\n",
        ),
        (
            "session\nbegin rc\nsession\ncommit\ngo 2\n",
            "s2.1 outside\ns1.1 ok\n",
        ),
        (
            "session\nbegin rc\ncommit\nsession\nbegin rc\ncommit\nloop 2 2*1 1\n",
            "s2.1 ok\ns1.1 ok\ns2.2 ok\ns1.2 ok\n",
        ),
        ("", ""),
        ("table e\n", ""),
        ("session\ncommit\n", "s1.1 outside\n"),
    ] {
        let (status, sink) = replayed(alloc, script)?;
        assert_eq!(rt; status, Status::Done, "{script}");
        assert_eq!(rt; sink.written(), replies.as_bytes(), "{script}");
    }
    Ok(())
}

#[test]
fn changes_handles_and_refused_draws_are_replayed(rt: HostRuntime) -> Result<(), Fail> {
    let alloc = rt.alloc();
    for (script, replies) in CHANGES {
        let (status, sink) = replayed(alloc, script)?;
        assert_eq!(rt; status, Status::Done, "{script}");
        assert_eq!(rt; sink.written(), replies.as_bytes(), "{script}");
    }
    Ok(())
}

#[test]
fn scripts_are_refused_at_their_first_bad_line(rt: HostRuntime) -> Result<(), Fail> {
    let alloc = rt.alloc();
    for (script, line) in [
        ("session\nget t1 1\n", 2),
        ("table e\nsession\nbegin rc\ninsert t1 1 x01020", 4),
        ("session\ngo 2\n", 2),
    ] {
        let (status, sink) = replayed(alloc, script)?;
        assert_eq!(rt; status, Status::BadScript { line }, "{script}");
        assert!(rt; sink.written().is_empty(), "{script}");
    }
    Ok(())
}

// What a script's replay answers, and the sink that it wrote to.
fn replayed(alloc: Global, script: &str) -> Result<(Status, MemSink), AllocError> {
    let words = words_of(alloc, &["replay"])?;
    let bytes = Bytes::from_slice(alloc, script.as_bytes())?;
    let mut source = MemSource::new(alloc, bytes, 7, CallList::new(alloc));
    let mut sink = MemSink::new(alloc, 10_000, CallList::new(alloc))?;
    let mut kept = None;
    let status = toast_replay(alloc, &words, &mut source, &mut sink, &mut kept);
    Ok((status, sink))
}

#[test]
fn words_sources_and_sinks_are_refused(rt: HostRuntime) -> Result<(), Fail> {
    let alloc = rt.alloc();
    // The words, the call that fails at the source and at the sink, the sink's room, the status, and
    // what is written.
    for (words, read_fails, write_fails, room, status, written) in [
        (
            ["replay"].as_slice(),
            9,
            9,
            100,
            Status::Done,
            FIRST_REPLIES,
        ),
        // a third write would fail, and none is made
        (&["replay"], 9, 2, 100, Status::Done, FIRST_REPLIES),
        (&[], 0, 9, 100, Status::Usage, ""),
        (&["replay", "x"], 0, 9, 100, Status::Usage, ""),
        (&["run"], 0, 9, 100, Status::Usage, ""),
        (&["replay"], 0, 9, 100, Status::ReadFault, ""),
        (&["replay"], 9, 0, 100, Status::WriteFault, ""),
        (&["replay"], 9, 9, 9, Status::WriteFault, "s1.1 ok\ns"),
    ] {
        let words = words_of(alloc, words)?;
        let (answer, sink) = first_replayed(alloc, &words, read_fails, write_fails, room)?;
        assert_eq!(rt; answer, status);
        assert_eq!(rt; sink.written(), written.as_bytes());
    }
    Ok(())
}

// The first session's replay, where a call fails at the source and one at the sink.
fn first_replayed(
    alloc: Global,
    words: &BytesList,
    read_fails: u64,
    write_fails: u64,
    room: usize,
) -> Result<(Status, MemSink), AllocError> {
    let bytes = Bytes::from_slice(alloc, FIRST.as_bytes())?;
    let read_fails = CallList::from_slice(alloc, &[read_fails])?;
    let write_fails = CallList::from_slice(alloc, &[write_fails])?;
    let mut source = MemSource::new(alloc, bytes, 50, read_fails);
    let mut sink = MemSink::new(alloc, room, write_fails)?;
    let mut kept = None;
    let status = toast_replay(alloc, words, &mut source, &mut sink, &mut kept);
    Ok((status, sink))
}

#[test]
fn the_longest_script_is_read_and_no_longer_one(rt: HostRuntime) -> Result<(), Fail> {
    let alloc = rt.alloc();
    for (count, status) in [(4_194_304, Status::Done), (4_194_305, Status::TooLong)] {
        let answer = feeds_replayed(alloc, count)?;
        assert_eq!(rt; answer, status);
    }
    Ok(())
}

// What the replay of so many line feeds answers.
fn feeds_replayed(alloc: Global, count: usize) -> Result<Status, AllocError> {
    let words = words_of(alloc, &["replay"])?;
    let bytes = Bytes::from_vec(vec![in alloc; b'\n'; count]?);
    let mut source = MemSource::new(alloc, bytes, 65_536, CallList::new(alloc));
    let mut sink = MemSink::new(alloc, 10, CallList::new(alloc))?;
    let mut kept = None;
    Ok(toast_replay(alloc, &words, &mut source, &mut sink, &mut kept))
}

#[test]
fn a_hub_answers_turn_by_turn(rt: HostRuntime) -> Result<(), Fail> {
    let Ok(Some(mut hub)) = hub_of(rt.alloc(), TWO_PIECES) else {
        return Err(Fail::new("no hub"));
    };
    assert!(rt; hub.reply(0).is_none());
    // Each turn's answer, and the number of entries and of replies after it. The insert has its
    // moment, which tells its reply, the draw, for each of two pieces a put and an entry, and then its
    // version.
    for (turn, entries, replies) in [
        (Turn::Ended { entry: 0 }, 1, 1),
        (Turn::More, 2, 2),
        (Turn::More, 2, 2),
        (Turn::More, 2, 2),
        (Turn::More, 2, 2),
        (Turn::More, 2, 2),
        (Turn::More, 2, 2),
        (Turn::Ended { entry: 1 }, 2, 2),
        (Turn::Ended { entry: 2 }, 3, 3),
        (Turn::Nothing, 3, 3),
    ] {
        assert_eq!(rt; first_turn(&mut hub), turn);
        assert_eq!(rt; hub.journal().len(), entries);
        assert!(rt; hub.reply(replies).is_none());
        assert_eq!(rt; last_reply(&hub), Some(&Reply::Okay));
    }
    Ok(())
}

#[test]
fn a_refused_draw_has_an_entry_of_its_own(rt: HostRuntime) -> Result<(), Fail> {
    let Ok(Some(mut hub)) = hub_of(rt.alloc(), NO_ID) else {
        return Err(Fail::new("no hub"));
    };
    // The insert has its moment and the draw, a put and an entry for its first value, and then the draw
    // that is refused.
    for (turn, reply) in [
        (Turn::Ended { entry: 0 }, Reply::Okay),
        (Turn::More, Reply::Okay),
        (Turn::More, Reply::Okay),
        (Turn::More, Reply::Okay),
        (Turn::More, Reply::Okay),
        (Turn::Ended { entry: 2 }, Reply::NoValueId),
        (Turn::Ended { entry: 3 }, Reply::RolledBack),
        (Turn::Nothing, Reply::RolledBack),
    ] {
        assert_eq!(rt; first_turn(&mut hub), turn);
        assert_eq!(rt; last_reply(&hub), Some(&reply));
    }
    let kinds = [Kind::Run, Kind::Run, Kind::NoValueId, Kind::Run];
    assert!(rt; hub.journal().iter().map(|entry| entry.kind).eq(kinds));
    Ok(())
}

// The reply of the last line of at most three.
fn last_reply(hub: &Hub) -> Option<&Reply> {
    hub.reply(2).or(hub.reply(1)).or(hub.reply(0))
}

// A hub with a script, if that has a session.
fn hub_of(alloc: Global, text: &str) -> Result<Option<Hub>, ScriptFault>
    ensures { IfOk result (λ answer. IfSome answer (λ hub. IsSessionOf hub.script 1)) }
{
    let script = parse_script(alloc, text.as_bytes())?;
    if script.sessions.len() < 1 {
        return Ok(None);
    }
    Ok(Some(Hub::new(alloc, script)?))
}

// A turn of the first session.
fn first_turn(hub: &mut Hub) -> Turn
    requires { IsSessionOf hub.old.script 1 }
    ensures { IsSessionOf hub.new.script 1 }
{
    hub.turn(1)
}

#[test]
fn as_many_sessions_as_there_may_be_take_turns(rt: HostRuntime) -> Result<(), Fail> {
    let script = many_sessions(rt.alloc())?;
    let (status, sink) = replayed(rt.alloc(), script.as_str())?;
    assert_eq!(rt; status, Status::Done);
    let text = sink.written();
    assert!(rt; text.starts_with(b"s64.1 ok\ns1.1 ok\ns2.1 ok\n"));
    assert!(rt; text.ends_with(b"s62.1 ok\ns63.1 ok\n"));
    Ok(())
}

fn many_sessions(alloc: Global) -> Result<String, AllocError> {
    let mut script = String::new(alloc);
    for _ in 0..64 {
        script.push_str("session\nbegin rc\n")?;
    }
    script.push_str("go 64 1\n")?;
    Ok(script)
}

fn words_of(alloc: Global, words: &[&str]) -> Result<BytesList, AllocError> {
    let mut list = BytesList::new(alloc);
    for word in words {
        list.push(Bytes::from_slice(alloc, word.as_bytes())?)?;
    }
    Ok(list)
}
