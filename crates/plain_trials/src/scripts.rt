// What no clause says: worked scripts, and that a parse succeeds.
use command_set::{Command, Item, Level};
use script_text::LineFault::{
    BadName, BadNumber, BadValue, OutOfPlace, TooMany, UnknownWord, WordCount,
};
use script_text::{LineFault, Script, ScriptFault, parse_script};
use std::alloc::{AllocError, Global};

// The line that is bad, and why; line 0 where the script is read, and no cause where there is no memory.
fn verdict(alloc: Global, text: &[u8]) -> (u32, Option<LineFault>) {
    match parse_script(alloc, text) {
        Ok(_) => (0, None),
        Err(ScriptFault::BadScript { line, cause }) => (line, Some(cause)),
        Err(ScriptFault::Memory) => (1, None),
    }
}

#[test]
fn each_cause_names_the_first_bad_line(rt: HostRuntime) {
    let alloc = rt.alloc();
    let cases: [(&[u8], u32, LineFault); 17] = [
        (b"foo", 1, UnknownWord),
        (b"ids 16384 4294967295\nids 16384 4294967295", 2, OutOfPlace),
        (b"table e\nids 16384 16384", 2, OutOfPlace),
        (b"ids 16384", 1, WordCount),
        (b"ids 16383 20000", 1, BadNumber),
        (b"ids 20000 19999", 1, BadNumber),
        (b"ids 16384 4294967296", 1, BadNumber),
        (b"session\ntable e\nfoo", 2, OutOfPlace),
        (b"get t1", 1, OutOfPlace),
        (b"table", 1, WordCount),
        (b"table e e e e e e e e e", 1, WordCount),
        (b"table m", 1, BadName),
        (b"session\nbegin rx", 2, BadName),
        (b"go 1", 1, BadName),
        (b"session\ngo", 2, WordCount),
        (b"session\nloop 0 1", 2, BadNumber),
        (b"session\nloop 1 1!*2", 2, BadName),
    ];
    for (text, line, cause) in cases {
        assert!(rt; verdict(alloc, text) == (line, Some(cause)));
    }
}

#[test]
fn a_line_is_judged_by_its_words_from_the_left(rt: HostRuntime) {
    let alloc = rt.alloc();
    let cases: [(&[u8], u32, LineFault); 12] = [
        (b"table e\nsession\ninsert t1 1 x0", 3, BadValue),
        (b"table e\nsession\ninsert t2 1 x00", 3, BadName),
        (b"table e\nsession\ninsert t2 01", 3, BadName),
        (b"table e\nsession\ninsert", 3, WordCount),
        (b"table e\nsession\ninsert t1 01", 3, WordCount),
        (b"table e\nsession\nget t2 01", 3, BadName),
        (b"table e\nsession\nget t1 -0", 3, BadNumber),
        (b"table e\nsession\nget t1 +1", 3, BadNumber),
        (
            b"table e\nsession\nget t1 9223372036854775808",
            3,
            BadNumber,
        ),
        (b"table e\nsession\ninsert t1 0 c65537.0", 3, BadValue),
        (b"table e\nsession\ninsert t1 0 c1.251", 3, BadValue),
        (b"table e\nsession\nloop 100000 1*100000", 3, TooMany),
    ];
    for (text, line, cause) in cases {
        assert!(rt; verdict(alloc, text) == (line, Some(cause)));
    }
}

#[test]
fn scripts_of_every_layout_are_read(rt: HostRuntime) {
    let alloc = rt.alloc();
    let cases: [&[u8]; 9] = [
        b"",
        b"ids 20000 20000\ntable e",
        b"\n\n \t\n",
        b"# only a comment",
        b"\t table\t e # one\r\nsession\r\n commit\r",
        b"session\nrollback\nsession\ncommit\ngo 1 2*3 1!\nloop 2 2",
        b"table e\nsession\nget t1 -9223372036854775808\nget t1 9223372036854775807",
        b"table e\nsession\ninsert t1 0 null\ninsert t1 1 xaBCdef\ninsert t1 2 x",
        b"table e\nsession\ninsert t1 0 c0.0\ninsert t1 1 c65536.250",
    ];
    for text in cases {
        assert!(rt; verdict(alloc, text) == (0, None));
    }
}

// The first command of the first session inserts one value, whose length and last byte are these.
fn inserts(script: &Script, length: usize, last: u8) -> bool {
    match script.sessions.get(0).and_then(|commands| commands.get(0)) {
        Some(Command::Insert { row, .. }) => match row.get(0) {
            Some(Some(value)) => value.len() == length && value.as_slice().last() == Some(&last),
            _ => false,
        },
        _ => false,
    }
}

#[test]
fn a_script_has_its_parts(rt: HostRuntime) -> Result<(), ScriptFault> {
    let text =
        b"ids 16400 16500\ntable e\ntable e\nsession\ninsert t2 7 c300.5\nsession\ngo 2\nloop 9 1*4 2!\n";
    let script = parse_script(rt.alloc(), text)?;
    assert!(rt; script.low == 16_400 && script.high == 16_500);
    assert!(rt; script.schemas.len() == 2 && script.sessions.len() == 2);
    assert!(rt; inserts(&script, 300, 53));
    let passage = script.schedule.get(1);
    assert!(rt; passage.is_some_and(|passage| passage.count == 9 && passage.items.len() == 2));
    let first = passage.and_then(|passage| passage.items.get(0)).copied();
    assert!(rt;
        first
            == Some(Item::Times {
                session: 1,
                count: 4
            })
    );
    Ok(())
}

// This many lines behind a first one.
fn repeated(alloc: Global, first: &[u8], line: &[u8], count: usize) -> Result<Vec<u8>, AllocError> {
    let mut text = Vec::from_slice(alloc, first)?;
    for _ in 0..count {
        text.extend_from_slice(line)?;
    }
    Ok(text)
}

// What is wrong with each line behind two tables, the first of three columns, and a session.
fn are_judged(alloc: Global, cases: &[(&[u8], Option<LineFault>)]) -> Result<bool, AllocError> {
    for (line, cause) in cases {
        let text = repeated(alloc, b"table e p e\ntable e\nsession\n", line, 1)?;
        let (_, found) = verdict(alloc, &text[..]);
        if found != *cause {
            return Ok(false);
        }
    }
    Ok(true)
}

#[test]
fn tables_and_transactions_are_judged(rt: HostRuntime) -> Result<(), AllocError> {
    let alloc = rt.alloc();
    assert!(rt; verdict(alloc, b"table p\ntable e p e p e p e p") == (0, None));
    assert!(rt; verdict(alloc, b"table e\ntable p e m") == (2, Some(BadName)));
    let cases: [(&[u8], Option<LineFault>); 6] = [
        (b"begin rc", None),
        (b"begin rr", None),
        (b"begin", Some(WordCount)),
        (b"begin rr rc", Some(WordCount)),
        (b"rollback to p1", Some(WordCount)),
        (b"vacuum t1 main", Some(UnknownWord)),
    ];
    assert!(rt; are_judged(alloc, cases.as_slice())?);
    Ok(())
}

#[test]
fn reads_are_judged(rt: HostRuntime) -> Result<(), AllocError> {
    let alloc = rt.alloc();
    let cases: [(&[u8], Option<LineFault>); 19] = [
        (b"part t1 -4 3 -2147483648 2147483647", None),
        (b"part t1 4 4 0 1", Some(BadName)),
        (b"part t2 4 2 0 1", Some(BadName)),
        (b"part t1 4 01 0 1", Some(BadName)),
        (b"part t1 4 1 2147483648 x", Some(BadNumber)),
        (b"part t1 4 1 0", Some(WordCount)),
        (b"open h64 t2 0 1", None),
        (b"open h65 t3 0 1", Some(BadName)),
        (b"open h1 t3 x 1", Some(BadName)),
        (b"open h1 t1 x 9", Some(BadNumber)),
        (b"open h1 t1 0 0", Some(BadName)),
        (b"open h1 t1 0", Some(WordCount)),
        (b"fetch h1 0 -1", None),
        (b"fetch 1 0 1", Some(BadName)),
        (b"fetch h1 -0 1", Some(BadNumber)),
        (b"fetch h1 0 1 2", Some(WordCount)),
        (b"close h2", None),
        (b"close h0", Some(BadName)),
        (b"close", Some(WordCount)),
    ];
    assert!(rt; are_judged(alloc, cases.as_slice())?);
    Ok(())
}

#[test]
fn writes_are_judged(rt: HostRuntime) -> Result<(), AllocError> {
    let alloc = rt.alloc();
    let cases: [(&[u8], Option<LineFault>); 23] = [
        (b"insert t1 1 null x00 c3.9", None),
        (b"insert t1 1 null x00", Some(WordCount)),
        (b"insert t2 1 null x00", Some(WordCount)),
        (b"insert t1 1 null y x", Some(BadValue)),
        (b"update t1 1 2=x00", None),
        (b"update t1 1 3=null 1=c5.0 2=x", None),
        (b"update t1 1", Some(WordCount)),
        (b"update t3 x 1=x", Some(BadName)),
        (b"update t1 x 4=x", Some(BadNumber)),
        (b"update t1 1 4=x0", Some(BadName)),
        (b"update t1 1 1=x0 4=x", Some(BadValue)),
        (b"update t1 1 1=x 2=x 1=y", Some(BadName)),
        (b"update t1 1 1", Some(BadName)),
        (b"update t1 1 1==x", Some(BadValue)),
        (b"delete t2 -7", None),
        (b"delete t2 7 7", Some(WordCount)),
        (b"delete t2 1.0", Some(BadNumber)),
        (b"rekey t1 1 2 1=null", None),
        (b"rekey t1 1 1", None),
        (b"rekey t1 1", Some(WordCount)),
        (b"rekey t1 1 9223372036854775808 4=x", Some(BadNumber)),
        (b"rekey t1 1 2=x", Some(BadNumber)),
        (b"rekey t1 1 2 1=x 1=x", Some(BadName)),
    ];
    assert!(rt; are_judged(alloc, cases.as_slice())?);
    Ok(())
}

// A command of the first session, by its place from 0.
fn command_at(script: &Script, at: usize) -> Option<&Command> {
    script.sessions.get(0).and_then(|commands| commands.get(at))
}

#[test]
fn commands_have_their_parts(rt: HostRuntime) -> Result<(), ScriptFault> {
    let text = b"table e p\nsession\nbegin rr\npart t1 -5 2 3 -4\nopen h7 t1 6 1\nfetch h7 8 9\n";
    let script = parse_script(rt.alloc(), text)?;
    assert!(rt; command_at(&script, 0) == Some(&Command::Begin { level: Level::Rr }));
    let part = Command::Part {
        table: 1,
        key: -5,
        column: 2,
        offset: 3,
        length: -4,
    };
    assert!(rt; command_at(&script, 1) == Some(&part));
    let open = Command::Open {
        handle: 7,
        table: 1,
        key: 6,
        column: 1,
    };
    assert!(rt; command_at(&script, 2) == Some(&open));
    let fetch = Command::Fetch {
        handle: 7,
        offset: 8,
        length: 9,
    };
    assert!(rt; command_at(&script, 3) == Some(&fetch));
    Ok(())
}

#[test]
fn a_rekey_has_its_sets(rt: HostRuntime) -> Result<(), ScriptFault> {
    let text = b"table e p\nsession\nrekey t1 -1 2 2=x05 1=null\n";
    let script = parse_script(rt.alloc(), text)?;
    let sets = match command_at(&script, 0) {
        Some(
            Command::Rekey {
                table: 1,
                from: -1,
                to: 2,
                sets,
            },
        ) => sets.as_slice(),
        _ => &[],
    };
    assert!(rt; sets.len() == 2 && sets[0].column == 2 && sets[1].value.is_none());
    Ok(())
}

#[test]
fn limits_name_the_line_that_passes_them(rt: HostRuntime) -> Result<(), AllocError> {
    let alloc = rt.alloc();
    let commands = repeated(alloc, b"session\n", b"commit\n", 10_001)?;
    assert!(rt; verdict(alloc, &commands[..]) == (10_002, Some(TooMany)));
    let sessions = repeated(alloc, b"", b"session\n", 65)?;
    assert!(rt; verdict(alloc, &sessions[..]) == (65, Some(TooMany)));
    let tables = repeated(alloc, b"", b"table e\n", 17)?;
    assert!(rt; verdict(alloc, &tables[..]) == (17, Some(TooMany)));
    let fewer = repeated(alloc, b"", b"session\n", 64)?;
    assert!(rt; verdict(alloc, &fewer[..]) == (0, None));
    let values = repeated(
        alloc,
        b"table e\nsession\n",
        b"insert t1 1 c65536.0\n",
        1_025,
    )?;
    assert!(rt; verdict(alloc, &values[..]) == (1_027, Some(TooMany)));
    Ok(())
}
