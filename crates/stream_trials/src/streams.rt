ghost use Rattle.std.specs.Prelude.{IsTrue};
ghost use Rattle.stream_wire.specs.Spelling.{AreColumns, IsInRange, IsShort, IsTable};

use command_set::state::Upkeep;
use command_set::{Command, CommandList, JournalEntry, JournalList, Kind, Row, Script};
use list_facts::ListOf;
use plain_program::PlainFault;
use plain_stream::{plain_messages, plain_rows};
use replica_map::{ApplyFault, Replica};
use script_text::{ScriptFault, parse_script};
use std::alloc::{AllocError, Global};
use std::mem::replace;
use stream_wire::{Message, Sent};
use transcript::{Bytes, print_message, print_row};
use tuple_layout::Place;

/// Why a case cannot be judged.
#[derive(Debug, Drop)]
enum Broken {
    Memory,
    Plain(PlainFault),
    Script(ScriptFault),
    /// A replica refuses a message.
    Apply(ApplyFault),
    /// A message, the sessions or the entries are out of their range.
    Range,
}

impl From<AllocError> for Broken {
    fn from(_: AllocError) -> Self {
        Broken::Memory
    }
}

impl From<PlainFault> for Broken {
    fn from(fault: PlainFault) -> Self {
        Broken::Plain(fault)
    }
}

impl From<ScriptFault> for Broken {
    fn from(fault: ScriptFault) -> Self {
        Broken::Script(fault)
    }
}

impl From<ApplyFault> for Broken {
    fn from(fault: ApplyFault) -> Self {
        Broken::Apply(fault)
    }
}

/// A script, a journal of it, and the lines of its messages and of the rows at its end.
///
/// Upkeep of table 1 stands in place of what the script has as a session's command of a number, both from 1.
/// An entry of a journal is a session and what came: `r` the moment of its next command, `e` the end of its
/// upkeep, `v` a refused draw, `m` want of memory. In the lines `{cN.M}` stands for the digits of that literal.
struct Case {
    script: &'static str,
    upkeep: &'static [(usize, usize, Upkeep)],
    journal: &'static str,
    want: &'static str,
}

const CASES: [Case; 10] = [
    // One row.
    Case {
        script: "table e\nsession\nbegin rc\ninsert t1 1 x010203\nget t1 1\ncommit\n",
        upkeep: &[],
        journal: "1r1r1r1r",
        want: "msg 4200000001
msg 490001000000000000000100016200000003010203
msg 4300000001
replica t1 1 x010203
",
    },
    // A value out of line is kept by one update, and set to equal bytes by the next.
    Case {
        script: "table e p\nsession\nbegin rc\ninsert t1 1 c2500.7 x01\ncommit\nbegin rc\nupdate t1 1 2=x02\ncommit\nbegin rc\nupdate t1 1 1=c2500.7\ncommit\n",
        upkeep: &[],
        journal: "1r1r1r1r1r1r1r1r1r",
        want: "msg 4200000001
msg 4900010000000000000001000262000009c4{c2500.7}620000000101
msg 4300000001
msg 4200000002
msg 5500010000000000000001000275620000000102
msg 4300000002
msg 4200000003
msg 5500010000000000000001000262000009c4{c2500.7}620000000102
msg 4300000003
replica t1 1 x{c2500.7} x02
",
    },
    // A rewrite of a table with a kept value, beside a reader; transactions without a change.
    Case {
        script: "table e p\ntable p\nsession\nbegin rr\nget t2 1\nget t1 1\ncommit\nsession\nbegin rc\ninsert t1 1 c2500.9 x01\ncommit\nbegin rc\nupdate t1 1 2=x02\ncommit\nrollback\nbegin rc\nget t1 1\ncommit\n",
        upkeep: &[(2, 7, Upkeep::Rewrite)],
        journal: "2r2r2r1r1r2r2r2r2r2e1r1r2r2r2r",
        want: "msg 4200000001
msg 4900010000000000000001000262000009c4{c2500.9}620000000101
msg 4300000001
msg 4200000002
msg 5500010000000000000001000275620000000102
msg 4300000002
replica t1 1 x{c2500.9} x02
",
    },
    // Commits in another order than that of the first changes.
    Case {
        script: "table e p\ntable p\nsession\nbegin rc\ninsert t2 1 x01\nupdate t1 1 1=null\ncommit\nsession\nbegin rc\ninsert t2 2 x02\ncommit\nsession\nbegin rc\nupdate t1 1 2=x02\ncommit\nsession\nbegin rc\ninsert t1 1 c2500.0 x01\ncommit\nrollback\nrollback\nbegin rc\nget t1 1\ncommit\n",
        upkeep: &[(4, 4, Upkeep::Toast), (4, 5, Upkeep::Rewrite)],
        journal: "4r4r4r1r1r2r2r3r3r3r1r1r4r4e4r4e4r4r4r2r",
        want: "msg 4200000001
msg 4900010000000000000001000262000009c4{c2500.0}620000000101
msg 4300000001
msg 4200000002
msg 5500010000000000000001000275620000000102
msg 4300000002
msg 4200000003
msg 49000200000000000000010001620000000101
msg 550001000000000000000100026e620000000102
msg 4300000003
msg 4200000004
msg 49000200000000000000020001620000000102
msg 4300000004
replica t1 1 null x02
replica t2 1 x01
replica t2 2 x02
",
    },
    // An insert that is refused an id sends nothing.
    Case {
        script: "ids 16384 16384\ntable e e\nsession\nbegin rc\ninsert t1 1 c2500.0 c2500.1\nget t1 1\ncommit\nrollback\nrollback\nbegin rc\ninsert t1 1 c2500.2 null\ncommit\n",
        upkeep: &[(1, 5, Upkeep::Toast), (1, 6, Upkeep::Main)],
        journal: "1r1r1v1r1r1r1e1r1e1r1r1r",
        want: "msg 4200000001
msg 4900010000000000000001000262000009c4{c2500.2}6e
msg 4300000001
replica t1 1 x{c2500.2} null
",
    },
    // A row that is taken away by the transaction that put it there.
    Case {
        script: "table e\nsession\nbegin rc\ninsert t1 1 c5000.0\nopen h1 t1 1 1\ndelete t1 1\nfetch h1 1995 2\ncommit\nbegin rc\nfetch h1 0 1\ncommit\n",
        upkeep: &[],
        journal: "1r1r1r1r1r1r1r1r1r",
        want: "msg 4200000001
msg 490001000000000000000100016200001388{c5000.0}
msg 4400010000000000000001
msg 4300000001
",
    },
    // A rewrite takes a value back in.
    Case {
        script: "table e e\nsession\nbegin rc\ninsert t1 1 c1500.0 c1600.0\ncommit\nbegin rc\nupdate t1 1 1=null\ncommit\nrollback\nbegin rc\nupdate t1 1 1=x01\ncommit\n",
        upkeep: &[(1, 7, Upkeep::Rewrite)],
        journal: "1r1r1r1r1r1r1r1e1r1r1r",
        want: "msg 4200000001
msg 4900010000000000000001000262000005dc{c1500.0}6200000640{c1600.0}
msg 4300000001
msg 4200000002
msg 550001000000000000000100026e75
msg 4300000002
msg 4200000003
msg 550001000000000000000100026200000001016200000640{c1600.0}
msg 4300000003
replica t1 1 x01 x{c1600.0}
",
    },
    // The same rewrite, ended by want of memory, takes nothing in.
    Case {
        script: "table e e\nsession\nbegin rc\ninsert t1 1 c1500.0 c1600.0\ncommit\nbegin rc\nupdate t1 1 1=null\ncommit\nrollback\nbegin rc\nupdate t1 1 1=x01\ncommit\n",
        upkeep: &[(1, 7, Upkeep::Rewrite)],
        journal: "1r1r1r1r1r1r1r1m1r1r1r",
        want: "msg 4200000001
msg 4900010000000000000001000262000005dc{c1500.0}6200000640{c1600.0}
msg 4300000001
msg 4200000002
msg 550001000000000000000100026e75
msg 4300000002
msg 4200000003
msg 5500010000000000000001000262000000010175
msg 4300000003
replica t1 1 x01 x{c1600.0}
",
    },
    // Keys: a row is moved, moved back by no one, and moved to the last key.
    Case {
        script: "table e\nsession\nbegin rc\ninsert t1 1 c2500.0\ncommit\nbegin rc\nrekey t1 1 -5\nrekey t1 -5 -5\nrollback\nbegin rc\nrekey t1 1 9223372036854775807\ncommit\n",
        upkeep: &[],
        journal: "1r1r1r1r1r1r1r1r1r1r",
        want: "msg 4200000001
msg 4900010000000000000001000162000009c4{c2500.0}
msg 4300000001
msg 4200000002
msg 4b000100000000000000017fffffffffffffff000175
msg 4300000002
replica t1 9223372036854775807 x{c2500.0}
",
    },
    // Changes of a row that the transaction has itself put there and moved.
    Case {
        script: "table e p\nsession\nbegin rc\ninsert t1 1 c2500.1 x01\nupdate t1 1 2=x02\nrekey t1 1 2\ncommit\nbegin rc\nupdate t1 2 2=null\nupdate t1 2 1=x09\nupdate t1 2 2=x03\ncommit\n",
        upkeep: &[],
        journal: "1r1r1r1r1r1r1r1r1r1r",
        want: "msg 4200000001
msg 4900010000000000000001000262000009c4{c2500.1}620000000101
msg 5500010000000000000001000275620000000102
msg 4b000100000000000000010000000000000002000275620000000102
msg 4300000001
msg 4200000002
msg 55000100000000000000020002756e
msg 550001000000000000000200026200000001096e
msg 55000100000000000000020002620000000109620000000103
msg 4300000002
replica t1 2 x09 x03
",
    },
];

/// A command that runs upkeep of table 1.
fn upkeep_of(kind: Upkeep) -> Command {
    match kind {
        Upkeep::Main => Command::VacuumMain { table: 1 },
        Upkeep::Toast => Command::VacuumToast { table: 1 },
        Upkeep::Rewrite => Command::Rewrite { table: 1 },
    }
}

/// A session's commands with upkeep in place of the command at a place, from 0.
fn put_upkeep(commands: &mut CommandList, at: usize, kind: Upkeep) {
    if at < commands.len() {
        commands.set(at, upkeep_of(kind));
    }
}

/// A case's script.
fn script_of(alloc: Global, case: &Case) -> Result<Script, Broken> {
    let mut script = parse_script(alloc, case.script.as_bytes())?;
    let mut sessions = replace(&mut script.sessions, ListOf::new(alloc)).into_vec();
    for (session, number, kind) in case.upkeep {
        if let Some(commands) = sessions.get_mut(session.wrapping_sub(1)) {
            put_upkeep(commands, number.wrapping_sub(1), *kind);
        }
    }
    script.sessions = ListOf::from_vec(sessions);
    Ok(script)
}

/// The entries that a text spells.
fn journal_of(alloc: Global, text: &str) -> Result<JournalList, AllocError> {
    let mut journal = ListOf::new(alloc);
    let mut begun = vec![in alloc; 0u32; 10]?;
    let mut session: u16 = 0;
    for byte in text.as_bytes() {
        let kind = match byte {
            b'r' => Kind::Run,
            b'e' => Kind::End,
            b'v' => Kind::NoValueId,
            b'm' => Kind::Memory,
            digit => {
                session = u16::from(digit.wrapping_sub(b'0'));
                continue;
            }
        };
        if let Some(number) = begun.get_mut(usize::from(session)) {
            if kind == Kind::Run {
                *number = number.wrapping_add(1);
            }
            journal.push(JournalEntry {
                session,
                number: *number,
                kind,
            })?;
        }
    }
    Ok(journal)
}

/// Appends the digits of a literal of so many bytes, which count up, modulo 251, from the second number.
fn put_literal(out: &mut Bytes, count: u32, first: u32) -> Result<(), AllocError> {
    let digits = b"0123456789abcdef";
    for at in 0..count {
        let byte = (u64::from(first) + u64::from(at)) % 251;
        out.push(digits[byte as usize / 16])?;
        out.push(digits[byte as usize % 16])?;
    }
    Ok(())
}

/// A text with the digits of its literals in their place.
fn expanded(alloc: Global, text: &str) -> Result<Bytes, AllocError> {
    let mut out = Bytes::new(alloc);
    let mut is_inside = false;
    let mut count: u32 = 0;
    let mut number: u32 = 0;
    for byte in text.as_bytes() {
        match byte {
            b'{' => is_inside = true,
            b'}' => {
                put_literal(&mut out, count, number)?;
                is_inside = false;
            }
            other if !is_inside => out.push(*other)?,
            b'c' => number = 0,
            b'.' => {
                count = number;
                number = 0;
            }
            digit => {
                number = number
                    .wrapping_mul(10)
                    .wrapping_add(u32::from(digit.wrapping_sub(b'0')));
            }
        }
    }
    Ok(out)
}

fn is_short(column: &Sent) -> bool
    ensures { IsTrue result → IsShort column.now }
{
    match column {
        Sent::Value(value) => value.len() <= 65_536,
        _ => true,
    }
}

fn are_columns(columns: &[Sent]) -> bool
    ensures { IsTrue result → AreColumns columns.now }
{
    if columns.len() < 1 || columns.len() > 8 {
        return false;
    }
    for column in columns {
        if !is_short(column) {
            return false;
        }
    }
    true
}

fn is_table(table: u16) -> bool
    ensures { IsTrue result → IsTable table }
{
    table >= 1 && table <= 16
}

fn is_in_range(message: &Message) -> bool
    ensures { IsTrue result → IsInRange message.now }
{
    match message {
        Message::Begin { number } => *number >= 1,
        Message::Insert { table, columns, .. } => {
            is_table(*table) && are_columns(columns.as_slice())
        }
        Message::Update { table, columns, .. } => {
            is_table(*table) && are_columns(columns.as_slice())
        }
        Message::Move { table, columns, .. } => {
            is_table(*table) && are_columns(columns.as_slice())
        }
        Message::Delete { table, .. } => is_table(*table),
        Message::Commit { number } => *number >= 1,
    }
}

/// The lines of messages, and then those of the rows of a replica that takes them.
fn printed(alloc: Global, messages: &[Message]) -> Result<(Bytes, Replica), Broken> {
    let mut out = Bytes::new(alloc);
    let mut replica = Replica::new(alloc);
    for message in messages {
        if !is_in_range(message) {
            return Err(Broken::Range);
        }
        print_message(alloc, message, &mut out)?;
        replica.apply(message)?;
    }
    for n in 0..replica.len() {
        if let Some((table, key, row)) = replica.nth(n) {
            print_row(alloc, table, key, row, &mut out)?;
        }
    }
    Ok((out, replica))
}

fn same_row(row: &Row, other: Option<&Row>) -> bool {
    other.is_some_and(|other| row == other)
}

/// Whether a case's messages and rows have its lines, and each row of the replica is the plain store's.
fn holds(alloc: Global, case: &Case) -> Result<bool, Broken> {
    let script = script_of(alloc, case)?;
    let journal = journal_of(alloc, case.journal)?;
    let journal = journal.as_slice();
    if script.sessions.len() > 64 || journal.len() > 1000 {
        return Err(Broken::Range);
    }
    let messages = plain_messages(alloc, &script, journal)?;
    let rows = plain_rows(alloc, &script, journal)?;
    let (lines, replica) = printed(alloc, messages.as_slice())?;
    let want = expanded(alloc, case.want)?;
    for n in 0..replica.len() {
        if let Some((table, key, row)) = replica.nth(n) {
            if !same_row(row, rows.get(&Place { table, key })) {
                return Ok(false);
            }
        }
    }
    Ok(lines == want)
}

#[test]
fn journals_send_their_messages(rt: HostRuntime) -> Result<(), Broken> {
    for case in &CASES {
        assert!(rt; holds(rt.alloc(), case)?, "{}", case.script);
    }
    Ok(())
}
