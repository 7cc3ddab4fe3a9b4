use super::*;
use std::alloc::{AllocError, Global};
use std::sync::Wait;
use std::test::Fail;
use std::thread::Threads;
use toast_io::{CallList, MemSink, MemSource, OpenGate};

// The made script for one key.
const MADE_FOR_ONE: &str = "table e p
session
begin rc
insert t1 1 c2001.1 x010203
commit
begin rc
update t1 1 1=c3001.1
commit
begin rr
get t1 1
commit
session
session
session
session
session
session
session
session
vacuum t1 toast
vacuum t1 toast
session
vacuum t1 main
vacuum t1 main
session
rewrite t1
loop 4 1 2 3 4 5 6 7 8 9 10
";

// A row that is put and read.
const ROW: &str = "table e
session
begin rc
insert t1 1 x010203
get t1 1
commit
go 1*4
";

const ROW_REPLIES: &str = "s1.1 ok\ns1.2 ok\ns1.3 row 1 x010203\ns1.4 ok\n";

#[test]
fn a_made_script_is_written_whole_or_up_to_a_failure(rt: HostRuntime) -> Result<(), AllocError> {
    let alloc = rt.alloc();
    // The sink's room, the call of it that fails, the status, and how many bytes are written.
    for (room, fails_at, status, count) in [
        (10_000, 9, Status::Done, MADE_FOR_ONE.len()),
        (100, 9, Status::WriteFault, 100),
        (10_000, 0, Status::WriteFault, 0),
    ] {
        let fails = CallList::from_slice(alloc, &[fails_at])?;
        let mut sink = MemSink::new(alloc, room, fails)?;
        assert_eq!(rt; toast_make(alloc, 1, &mut sink), status);
        assert_eq!(rt; sink.written(), &MADE_FOR_ONE.as_bytes()[..count]);
    }
    Ok(())
}

#[test]
fn words_and_what_they_do(rt: HostRuntime) -> Result<(), Fail> {
    // The words, the call that fails at the source and at the sink, the status, and what is written.
    for (words, read_fails, write_fails, status, written) in [
        (["replay"].as_slice(), 9, 9, Status::Done, ROW_REPLIES),
        (&["run"], 9, 9, Status::Done, ROW_REPLIES),
        (&["run"], 0, 9, Status::ReadFault, ""),
        (&["run"], 9, 0, Status::WriteFault, ""),
        (&["make", "1"], 0, 9, Status::Done, MADE_FOR_ONE),
        (&["make", "1"], 0, 0, Status::WriteFault, ""),
        (&["make", "0"], 0, 0, Status::Usage, ""),
        (&["make", "01"], 0, 0, Status::Usage, ""),
        (&["make", "1001"], 0, 0, Status::Usage, ""),
        (&["make"], 0, 0, Status::Usage, ""),
        (&["bench", "x"], 0, 0, Status::Usage, ""),
        (&["-h"], 0, 0, Status::Usage, ""),
        (&["run", "1"], 0, 0, Status::Usage, ""),
    ] {
        let (answer, sink) = done(&rt, rt.alloc(), words, ROW, read_fails, write_fails)?;
        assert_eq!(rt; answer, status);
        assert_eq!(rt; sink.written(), written.as_bytes());
    }
    Ok(())
}

#[test]
fn a_run_looks_at_no_schedule(rt: HostRuntime) -> Result<(), Fail> {
    // The line that is no command is found before anything runs.
    let (answer, sink) = done(&rt, rt.alloc(), &["run"], "session\nbegin rc\ngo 2\n", 9, 9)?;
    assert_eq!(rt; answer, Status::BadScript { line: 3 });
    assert!(rt; sink.written().is_empty());
    // Three sessions, each of a command: the lines come in whatever order the turns had.
    let script = "session\nbegin rc\nsession\nbegin rc\nsession\nbegin rc\ngo 1\n";
    let (answer, sink) = done(&rt, rt.alloc(), &["run"], script, 9, 9)?;
    assert_eq!(rt; answer, Status::Done);
    assert_eq!(rt; sink.written().len(), 24);
    for session in ["s1.1 ok\n", "s2.1 ok\n", "s3.1 ok\n"] {
        let mut is_there = false;
        for line in sink.written().chunks(8) {
            if line == session.as_bytes() {
                is_there = true;
            }
        }
        assert!(rt; is_there);
    }
    Ok(())
}

// What the words do with a script, where a call fails at the source and one at the sink.
fn done<R: Threads + Wait + Sync>(
    rt: &R,
    alloc: Global,
    words: &[&str],
    script: &str,
    read_fails: u64,
    write_fails: u64,
) -> Result<(Status, MemSink), AllocError> {
    let mut list = BytesList::new(alloc);
    for word in words {
        list.push(Bytes::from_slice(alloc, word.as_bytes())?)?;
    }
    let bytes = Bytes::from_slice(alloc, script.as_bytes())?;
    let read_fails = CallList::from_slice(alloc, &[read_fails])?;
    let write_fails = CallList::from_slice(alloc, &[write_fails])?;
    let mut source = MemSource::new(alloc, bytes, 50, read_fails);
    let mut sink = MemSink::new(alloc, 10_000, write_fails)?;
    let mut kept = None;
    let status = toast_main(
        rt,
        alloc,
        &list,
        &mut source,
        &mut sink,
        &OpenGate,
        &mut kept,
    );
    Ok((status, sink))
}
