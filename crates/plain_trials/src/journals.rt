use command_set::journal::Line;
use command_set::{
    Bytes, Command, CommandList, JournalEntry, JournalList, Kind, Level, Reply, Row, SchemaList,
    Script, SessionList, Set, SetList,
};
use list_facts::ListOf;
use plain_journal::{is_complete, is_legal, plain_lines};
use plain_program::PlainFault;
use std::alloc::{AllocError, Global};
use tuple_layout::{Schema, SchemaFault, Storage};

/// A column's value.
#[derive(Clone, Copy)]
enum Value {
    Null,
    /// One byte.
    Byte(u8),
    /// So many bytes that count up, modulo 251, from the second number.
    Count(u16, u8),
}

/// What happens next: a command of a session, or a further entry of its last command.
#[derive(Clone, Copy)]
enum Step {
    Begin(Level),
    Commit,
    Rollback,
    Get(u16, i64),
    Part(i32, i32),
    Open,
    Fetch(i32, i32),
    Close,
    Insert(u16, i64, Value),
    InsertTwo(i64, Value, Value),
    Update(u16, Value),
    Delete,
    Rekey(i64, i64),
    VacuumMain,
    VacuumToast,
    Rewrite,
    Also(Kind),
}

/// What a line says. A row is that of key 1 where no key is named.
#[derive(Clone, Copy)]
enum Said {
    Okay,
    RolledBack,
    Row(Value),
    RowAt(i64, Value),
    RowOfTwo(Value, Value),
    Bytes(Value),
    Absent,
    Taken,
    Busy(u16),
    Changed,
    Locked(u16),
    Failed,
    TooBig(u32),
    BadOffset,
    NoHandle,
    HandleThere,
    NoValueId,
    Started,
    Done,
    Outside,
    Memory,
    /// Want of memory is the command's first entry.
    Wanted,
    /// There is no line: the command's own has changed.
    Nothing,
}

/// A session, what happens to it, and what the line says.
type Moment = (u16, Step, Said);

fn bytes_of(alloc: Global, value: Value) -> Result<Bytes, AllocError> {
    let (count, first) = match value {
        Value::Null => (0, 0),
        Value::Byte(byte) => (1, byte),
        Value::Count(count, first) => (count, first),
    };
    let mut bytes = ListOf::new(alloc);
    for at in 0..count {
        bytes.push(((u32::from(first) + u32::from(at)) % 251) as u8)?;
    }
    Ok(bytes)
}

fn value_of(alloc: Global, value: Value) -> Result<Option<Bytes>, AllocError> {
    if matches!(value, Value::Null) {
        return Ok(None);
    }
    let bytes = bytes_of(alloc, value)?;
    Ok(Some(bytes))
}

fn row_of(alloc: Global, values: &[Value]) -> Result<Row, AllocError> {
    let mut row = ListOf::new(alloc);
    for value in values {
        row.push(value_of(alloc, *value)?)?;
    }
    Ok(row)
}

fn set_of(alloc: Global, column: u16, value: Value) -> Result<SetList, AllocError> {
    let mut sets = ListOf::new(alloc);
    let value = value_of(alloc, value)?;
    sets.push(Set { column, value })?;
    Ok(sets)
}

// A command that needs no memory; none where it needs some, and where the step is no command.
fn small_command(step: Step) -> Option<Command> {
    match step {
        Step::Begin(level) => Some(Command::Begin { level }),
        Step::Commit => Some(Command::Commit),
        Step::Rollback => Some(Command::Rollback),
        Step::Get(table, key) => Some(Command::Get { table, key }),
        Step::Part(offset, length) => Some(Command::Part {
            table: 1,
            key: 1,
            column: 1,
            offset,
            length,
        }),
        Step::Open => Some(Command::Open {
            handle: 1,
            table: 1,
            key: 1,
            column: 1,
        }),
        Step::Fetch(offset, length) => Some(Command::Fetch {
            handle: 1,
            offset,
            length,
        }),
        Step::Close => Some(Command::Close { handle: 1 }),
        Step::Delete => Some(Command::Delete { table: 1, key: 1 }),
        Step::VacuumMain => Some(Command::VacuumMain { table: 1 }),
        Step::VacuumToast => Some(Command::VacuumToast { table: 1 }),
        Step::Rewrite => Some(Command::Rewrite { table: 1 }),
        _ => None,
    }
}

// The command of a step, if it is one.
fn command_of(alloc: Global, step: Step) -> Result<Option<Command>, AllocError> {
    match step {
        Step::Insert(table, key, value) => {
            let row = row_of(alloc, &[value])?;
            Ok(Some(Command::Insert { table, key, row }))
        }
        Step::InsertTwo(key, first, second) => {
            let row = row_of(alloc, &[first, second])?;
            Ok(Some(Command::Insert { table: 1, key, row }))
        }
        Step::Update(column, value) => {
            let sets = set_of(alloc, column, value)?;
            Ok(Some(Command::Update {
                table: 1,
                key: 1,
                sets,
            }))
        }
        Step::Rekey(from, to) => Ok(Some(Command::Rekey {
            table: 1,
            from,
            to,
            sets: ListOf::new(alloc),
        })),
        step => Ok(small_command(step)),
    }
}

// The commands of a session, in order.
fn commands_of(alloc: Global, moments: &[Moment], session: u16) -> Result<CommandList, AllocError> {
    let mut commands = ListOf::new(alloc);
    for (other, step, _) in moments {
        if *other == session {
            if let Some(command) = command_of(alloc, *step)? {
                commands.push(command)?;
            }
        }
    }
    Ok(commands)
}

// The commands of sessions 1 to 4.
fn sessions_of(alloc: Global, moments: &[Moment]) -> Result<SessionList, AllocError> {
    let mut sessions = ListOf::new(alloc);
    for session in 1..5 {
        sessions.push(commands_of(alloc, moments, session)?)?;
    }
    Ok(sessions)
}

// How many of these steps are commands of a session.
fn begun(moments: &[Moment], session: u16) -> u32 {
    let mut begun: u32 = 0;
    for (other, step, _) in moments {
        if *other == session && !matches!(step, Step::Also(_)) {
            begun = begun.saturating_add(1);
        }
    }
    begun
}

fn kind_of(step: &Step, said: &Said) -> Kind {
    match (step, said) {
        (Step::Also(kind), _) => *kind,
        (_, Said::Wanted) => Kind::Memory,
        _ => Kind::Run,
    }
}

// The entries of the steps, in order.
fn journal_of(alloc: Global, moments: &[Moment]) -> Result<JournalList, AllocError> {
    let mut journal = ListOf::new(alloc);
    for (at, (session, step, said)) in moments.iter().enumerate() {
        journal.push(JournalEntry {
            session: *session,
            number: begun(&moments[..at + 1], *session),
            kind: kind_of(step, said),
        })?;
    }
    Ok(journal)
}

/// Want of memory, or a fault of the schemas or the plain store.
#[derive(Debug, Drop)]
struct Broken;

impl From<AllocError> for Broken {
    fn from(_: AllocError) -> Self {
        Broken
    }
}

impl From<PlainFault> for Broken {
    fn from(_: PlainFault) -> Self {
        Broken
    }
}

impl From<SchemaFault> for Broken {
    fn from(_: SchemaFault) -> Self {
        Broken
    }
}

fn schemas_of(alloc: Global, tables: &[&[Storage]]) -> Result<SchemaList, Broken> {
    let mut schemas = ListOf::new(alloc);
    for storages in tables {
        schemas.push(Schema::new(alloc, storages)?)?;
    }
    Ok(schemas)
}

fn script_of(alloc: Global, tables: &[&[Storage]], moments: &[Moment]) -> Result<Script, Broken> {
    let schemas = schemas_of(alloc, tables)?;
    let sessions = sessions_of(alloc, moments)?;
    Ok(Script {
        low: 16384,
        high: 4_294_967_295,
        schemas,
        sessions,
        schedule: ListOf::new(alloc),
    })
}

fn row_reply(alloc: Global, key: i64, values: &[Value]) -> Result<Reply, AllocError> {
    let row = row_of(alloc, values)?;
    Ok(Reply::Row { key, row })
}

fn reply_of(alloc: Global, said: Said) -> Result<Reply, AllocError> {
    match said {
        Said::Row(value) => row_reply(alloc, 1, &[value]),
        Said::RowAt(key, value) => row_reply(alloc, key, &[value]),
        Said::RowOfTwo(first, second) => row_reply(alloc, 1, &[first, second]),
        Said::Bytes(value) => Ok(Reply::Bytes(bytes_of(alloc, value)?)),
        said => Ok(small_reply(said)),
    }
}

fn small_reply(said: Said) -> Reply {
    match said {
        Said::Okay => Reply::Okay,
        Said::RolledBack => Reply::RolledBack,
        Said::Absent => Reply::Absent,
        Said::Taken => Reply::Taken,
        Said::Busy(session) => Reply::Busy { session },
        Said::Changed => Reply::Changed,
        Said::Locked(session) => Reply::Locked { session },
        Said::Failed => Reply::Failed,
        Said::TooBig(size) => Reply::TooBig { size },
        Said::BadOffset => Reply::BadOffset,
        Said::NoHandle => Reply::NoHandle,
        Said::HandleThere => Reply::HandleThere,
        Said::NoValueId => Reply::NoValueId,
        Said::Started => Reply::Started,
        Said::Outside => Reply::Outside,
        Said::Memory | Said::Wanted => Reply::Memory,
        _ => Reply::Done,
    }
}

// Whether a line is that of a session's command, with what is said.
fn is_line(
    alloc: Global,
    line: Option<&Line>,
    session: u16,
    number: u32,
    said: Said,
) -> Result<bool, AllocError> {
    let reply = reply_of(alloc, said)?;
    Ok(
        matches!(line, Some(line) if line.session == session && line.number == number && line.reply == reply),
    )
}

// Whether these are the printed lines.
fn are_lines(alloc: Global, lines: &[Line], moments: &[Moment]) -> Result<bool, AllocError> {
    let mut printed = lines.iter();
    for (at, (session, _, said)) in moments.iter().enumerate() {
        if matches!(said, Said::Nothing) {
            continue;
        }
        let number = begun(&moments[..at + 1], *session);
        if !is_line(alloc, printed.next(), *session, number, *said)? {
            return Ok(false);
        }
    }
    Ok(printed.next().is_none())
}

// Whether the moments make a legal and complete journal that prints the lines.
fn prints(alloc: Global, tables: &[&[Storage]], moments: &[Moment]) -> Result<bool, Broken> {
    let script = script_of(alloc, tables, moments)?;
    if script.sessions.len() > 64 {
        return Ok(false);
    }
    let journal = journal_of(alloc, moments)?;
    let entries = journal.as_slice();
    let lines = plain_lines(alloc, &script, entries)?;
    let same = are_lines(alloc, lines.as_slice(), moments)?;
    let legal = is_legal(alloc, &script, entries)?;
    let complete = is_complete(alloc, &script, entries)?;
    Ok(same && legal && complete)
}

const RC: Step = Step::Begin(Level::Rc);

const RR: Step = Step::Begin(Level::Rr);

const END: Step = Step::Also(Kind::End);

const NO_VALUE_ID: Step = Step::Also(Kind::NoValueId);

const NO_MEMORY: Step = Step::Also(Kind::Memory);

const E: &[Storage] = &[Storage::External];

const P: &[Storage] = &[Storage::Plain];

const EE: &[Storage] = &[Storage::External, Storage::External];

const EP: &[Storage] = &[Storage::External, Storage::Plain];

#[test]
fn a_row_is_read_back(rt: HostRuntime) -> Result<(), Broken> {
    let moments = [
        (1, RC, Said::Okay),
        (1, Step::Insert(1, 1, Value::Count(3, 1)), Said::Okay),
        (1, Step::Get(1, 1), Said::Row(Value::Count(3, 1))),
        (1, Step::Commit, Said::Okay),
    ];
    assert!(rt; prints(rt.alloc(), &[E], &moments)?);
    Ok(())
}

#[test]
fn a_tuple_has_at_most_8160_bytes(rt: HostRuntime) -> Result<(), Broken> {
    let moments = [
        (1, RC, Said::Okay),
        (1, Step::Insert(1, 1, Value::Count(8124, 0)), Said::Okay),
        (
            1,
            Step::Insert(1, 2, Value::Count(8125, 0)),
            Said::TooBig(8161),
        ),
        (1, Step::Get(1, 1), Said::Failed),
        (1, Step::Commit, Said::RolledBack),
    ];
    assert!(rt; prints(rt.alloc(), &[P], &moments)?);
    Ok(())
}

#[test]
fn slices(rt: HostRuntime) -> Result<(), Broken> {
    let moments = [
        (1, RC, Said::Okay),
        (1, Step::Insert(1, 1, Value::Count(5000, 0)), Said::Okay),
        (1, Step::Part(1990, 20), Said::Bytes(Value::Count(20, 233))),
        (1, Step::Part(5000, 1), Said::Bytes(Value::Count(0, 0))),
        (1, Step::Part(0, 0), Said::Bytes(Value::Count(0, 0))),
        (1, Step::Part(4990, -1), Said::Bytes(Value::Count(10, 221))),
        (
            1,
            Step::Part(4998, 2147483647),
            Said::Bytes(Value::Count(2, 229)),
        ),
        (1, Step::Part(-1, 1), Said::BadOffset),
        (1, Step::Get(1, 1), Said::Failed),
        (1, Step::Rollback, Said::Okay),
    ];
    assert!(rt; prints(rt.alloc(), &[E], &moments)?);
    Ok(())
}

#[test]
fn a_value_that_is_set_again(rt: HostRuntime) -> Result<(), Broken> {
    let moments = [
        (1, RC, Said::Okay),
        (
            1,
            Step::InsertTwo(1, Value::Count(2500, 7), Value::Byte(1)),
            Said::Okay,
        ),
        (1, Step::Commit, Said::Okay),
        (1, RC, Said::Okay),
        (1, Step::Update(2, Value::Byte(2)), Said::Okay),
        (1, Step::Commit, Said::Okay),
        (1, RC, Said::Okay),
        (1, Step::Update(1, Value::Count(2500, 7)), Said::Okay),
        (1, Step::Commit, Said::Okay),
    ];
    assert!(rt; prints(rt.alloc(), &[EP], &moments)?);
    Ok(())
}

#[test]
fn ids_that_wrap(rt: HostRuntime) -> Result<(), Broken> {
    let moments = [
        (1, RC, Said::Okay),
        (
            1,
            Step::InsertTwo(1, Value::Count(2500, 0), Value::Null),
            Said::Okay,
        ),
        (1, Step::Commit, Said::Okay),
        (1, RC, Said::Okay),
        (1, Step::Delete, Said::Okay),
        (1, Step::Commit, Said::Okay),
        (1, RC, Said::Okay),
        (
            1,
            Step::InsertTwo(2, Value::Count(2500, 0), Value::Count(2500, 1)),
            Said::Okay,
        ),
        (1, Step::Commit, Said::Okay),
        (1, RC, Said::Okay),
        (
            1,
            Step::InsertTwo(3, Value::Count(2500, 2), Value::Null),
            Said::NoValueId,
        ),
        (1, NO_VALUE_ID, Said::Nothing),
        (1, Step::Rollback, Said::Okay),
        (1, Step::VacuumToast, Said::Started),
        (1, END, Said::Done),
        (1, RC, Said::Okay),
        (
            1,
            Step::InsertTwo(3, Value::Count(2500, 2), Value::Null),
            Said::Okay,
        ),
        (1, Step::Commit, Said::Okay),
    ];
    assert!(rt; prints(rt.alloc(), &[EE], &moments)?);
    Ok(())
}

#[test]
fn an_id_in_hand(rt: HostRuntime) -> Result<(), Broken> {
    let moments = [
        (1, RC, Said::Okay),
        (1, Step::Insert(1, 1, Value::Count(2500, 1)), Said::Okay),
        (2, RC, Said::Okay),
        (2, Step::Insert(1, 2, Value::Count(2500, 2)), Said::Okay),
        (3, RC, Said::Okay),
        (
            3,
            Step::Insert(1, 3, Value::Count(2500, 3)),
            Said::NoValueId,
        ),
        (3, NO_VALUE_ID, Said::Nothing),
        (1, Step::Commit, Said::Okay),
        (2, Step::Commit, Said::Okay),
        (3, Step::Commit, Said::RolledBack),
    ];
    assert!(rt; prints(rt.alloc(), &[E], &moments)?);
    Ok(())
}

#[test]
fn a_reader_and_a_vacuum(rt: HostRuntime) -> Result<(), Broken> {
    let moments = [
        (2, RC, Said::Okay),
        (2, Step::Insert(1, 1, Value::Count(5000, 3)), Said::Okay),
        (2, Step::Commit, Said::Okay),
        (1, RR, Said::Okay),
        (1, Step::Get(1, 1), Said::Row(Value::Count(5000, 3))),
        (2, RC, Said::Okay),
        (2, Step::Delete, Said::Okay),
        (2, Step::Commit, Said::Okay),
        (3, Step::VacuumToast, Said::Started),
        (3, END, Said::Done),
        (1, Step::Commit, Said::Okay),
    ];
    assert!(rt; prints(rt.alloc(), &[E], &moments)?);
    Ok(())
}

#[test]
fn a_vacuum_beside_a_new_row(rt: HostRuntime) -> Result<(), Broken> {
    let moments = [
        (1, RC, Said::Okay),
        (1, Step::Insert(1, 1, Value::Count(2500, 0)), Said::Okay),
        (1, Step::Commit, Said::Okay),
        (1, RC, Said::Okay),
        (1, Step::Delete, Said::Okay),
        (1, Step::Commit, Said::Okay),
        (2, Step::VacuumToast, Said::Started),
        (1, RC, Said::Okay),
        (1, Step::Insert(1, 2, Value::Count(2500, 1)), Said::Okay),
        (1, Step::Commit, Said::Okay),
        (3, RC, Said::Okay),
        (3, Step::Get(1, 2), Said::RowAt(2, Value::Count(2500, 1))),
        (4, RC, Said::Okay),
        (2, END, Said::Done),
        (3, Step::Commit, Said::Okay),
        (4, Step::Rollback, Said::Okay),
    ];
    assert!(rt; prints(rt.alloc(), &[E], &moments)?);
    Ok(())
}

#[test]
fn a_rewrite_beside_a_copy(rt: HostRuntime) -> Result<(), Broken> {
    let moments = [
        (2, RC, Said::Okay),
        (
            2,
            Step::InsertTwo(1, Value::Count(2500, 9), Value::Byte(1)),
            Said::Okay,
        ),
        (2, Step::Commit, Said::Okay),
        (1, RR, Said::Okay),
        (1, Step::Get(2, 1), Said::Absent),
        (2, RC, Said::Okay),
        (2, Step::Update(2, Value::Byte(2)), Said::Okay),
        (2, Step::Commit, Said::Okay),
        (2, Step::Rewrite, Said::Started),
        (2, END, Said::Done),
        (
            1,
            Step::Get(1, 1),
            Said::RowOfTwo(Value::Count(2500, 9), Value::Byte(1)),
        ),
        (1, Step::Commit, Said::Okay),
        (2, RC, Said::Okay),
        (
            2,
            Step::Get(1, 1),
            Said::RowOfTwo(Value::Count(2500, 9), Value::Byte(2)),
        ),
        (2, Step::Commit, Said::Okay),
    ];
    assert!(rt; prints(rt.alloc(), &[EP, P], &moments)?);
    Ok(())
}

#[test]
fn commits_in_another_order(rt: HostRuntime) -> Result<(), Broken> {
    let moments = [
        (4, RC, Said::Okay),
        (
            4,
            Step::InsertTwo(1, Value::Count(2500, 0), Value::Byte(1)),
            Said::Okay,
        ),
        (4, Step::Commit, Said::Okay),
        (1, RC, Said::Okay),
        (1, Step::Insert(2, 1, Value::Byte(1)), Said::Okay),
        (2, RC, Said::Okay),
        (2, Step::Insert(2, 2, Value::Byte(2)), Said::Okay),
        (3, RC, Said::Okay),
        (3, Step::Update(2, Value::Byte(2)), Said::Okay),
        (3, Step::Commit, Said::Okay),
        (1, Step::Update(1, Value::Null), Said::Okay),
        (1, Step::Commit, Said::Okay),
        (4, Step::VacuumToast, Said::Started),
        (4, END, Said::Done),
        (4, Step::Rewrite, Said::Started),
        (4, END, Said::Done),
        (4, RC, Said::Okay),
        (
            4,
            Step::Get(1, 1),
            Said::RowOfTwo(Value::Null, Value::Byte(2)),
        ),
        (4, Step::Commit, Said::Okay),
        (2, Step::Commit, Said::Okay),
    ];
    assert!(rt; prints(rt.alloc(), &[EP, P], &moments)?);
    Ok(())
}

#[test]
fn locks(rt: HostRuntime) -> Result<(), Broken> {
    let moments = [
        (1, RC, Said::Okay),
        (1, Step::Get(1, 1), Said::Absent),
        (2, Step::Rewrite, Said::Locked(1)),
        (1, Step::Commit, Said::Okay),
        (2, Step::Rewrite, Said::Started),
        (3, Step::VacuumToast, Said::Locked(2)),
        (3, RC, Said::Okay),
        (3, Step::Get(1, 1), Said::Locked(2)),
        (2, END, Said::Done),
        (3, Step::Rollback, Said::Okay),
    ];
    assert!(rt; prints(rt.alloc(), &[E], &moments)?);
    Ok(())
}

#[test]
fn an_insert_that_stops_half_way(rt: HostRuntime) -> Result<(), Broken> {
    let moments = [
        (1, RC, Said::Okay),
        (
            1,
            Step::InsertTwo(1, Value::Count(2500, 0), Value::Count(2500, 1)),
            Said::NoValueId,
        ),
        (1, NO_VALUE_ID, Said::Nothing),
        (1, Step::Get(1, 1), Said::Failed),
        (1, Step::Commit, Said::RolledBack),
        (1, Step::VacuumToast, Said::Started),
        (1, END, Said::Done),
        (1, Step::VacuumMain, Said::Started),
        (1, END, Said::Done),
        (1, RC, Said::Okay),
        (
            1,
            Step::InsertTwo(1, Value::Count(2500, 2), Value::Null),
            Said::Okay,
        ),
        (1, Step::Commit, Said::Okay),
    ];
    assert!(rt; prints(rt.alloc(), &[EE], &moments)?);
    Ok(())
}

#[test]
fn handles(rt: HostRuntime) -> Result<(), Broken> {
    let moments = [
        (1, RC, Said::Okay),
        (1, Step::Insert(1, 1, Value::Count(5000, 0)), Said::Okay),
        (1, Step::Open, Said::Okay),
        (1, Step::Delete, Said::Okay),
        (1, Step::Fetch(1995, 2), Said::Bytes(Value::Count(2, 238))),
        (1, Step::Commit, Said::Okay),
        (1, RC, Said::Okay),
        (1, Step::Fetch(0, 1), Said::NoHandle),
        (1, Step::Commit, Said::RolledBack),
    ];
    assert!(rt; prints(rt.alloc(), &[E], &moments)?);
    Ok(())
}

#[test]
fn a_handle_outlives_its_row(rt: HostRuntime) -> Result<(), Broken> {
    let moments = [
        (2, RC, Said::Okay),
        (2, Step::Insert(1, 1, Value::Count(2500, 5)), Said::Okay),
        (2, Step::Commit, Said::Okay),
        (1, RC, Said::Okay),
        (1, Step::Open, Said::Okay),
        (2, RC, Said::Okay),
        (2, Step::Delete, Said::Okay),
        (2, Step::Commit, Said::Okay),
        (2, Step::VacuumToast, Said::Started),
        (2, END, Said::Done),
        (1, Step::Fetch(0, 3), Said::Bytes(Value::Count(3, 5))),
        (1, Step::Open, Said::HandleThere),
        (1, Step::Close, Said::Failed),
        (1, Step::Rollback, Said::Okay),
    ];
    assert!(rt; prints(rt.alloc(), &[E], &moments)?);
    Ok(())
}

#[test]
fn claims(rt: HostRuntime) -> Result<(), Broken> {
    let moments = [
        (2, RC, Said::Okay),
        (2, Step::Insert(1, 1, Value::Byte(1)), Said::Okay),
        (2, Step::Commit, Said::Okay),
        (1, RR, Said::Okay),
        (1, Step::Get(1, 1), Said::Row(Value::Byte(1))),
        (2, RC, Said::Okay),
        (2, Step::Update(1, Value::Byte(9)), Said::Okay),
        (2, Step::Commit, Said::Okay),
        (1, Step::Update(1, Value::Byte(2)), Said::Changed),
        (2, RC, Said::Okay),
        (2, Step::Insert(1, 2, Value::Byte(34)), Said::Okay),
        (3, RC, Said::Okay),
        (3, Step::Insert(1, 2, Value::Byte(0)), Said::Busy(2)),
        (1, Step::Rollback, Said::Okay),
        (2, Step::Commit, Said::Okay),
        (3, Step::Rollback, Said::Okay),
        (3, RC, Said::Okay),
        (3, Step::Insert(1, 1, Value::Byte(0)), Said::Taken),
        (3, Step::Rollback, Said::Okay),
    ];
    assert!(rt; prints(rt.alloc(), &[P], &moments)?);
    Ok(())
}

#[test]
fn a_rewrite_between_updates(rt: HostRuntime) -> Result<(), Broken> {
    let moments = [
        (1, RC, Said::Okay),
        (
            1,
            Step::InsertTwo(1, Value::Count(1500, 0), Value::Count(1600, 0)),
            Said::Okay,
        ),
        (1, Step::Commit, Said::Okay),
        (1, RC, Said::Okay),
        (1, Step::Update(1, Value::Null), Said::Okay),
        (1, Step::Commit, Said::Okay),
        (1, Step::Rewrite, Said::Started),
        (1, END, Said::Done),
        (1, RC, Said::Okay),
        (1, Step::Update(1, Value::Byte(1)), Said::Okay),
        (1, Step::Commit, Said::Okay),
    ];
    assert!(rt; prints(rt.alloc(), &[EE], &moments)?);
    Ok(())
}

#[test]
fn keys(rt: HostRuntime) -> Result<(), Broken> {
    let moments = [
        (1, RC, Said::Okay),
        (1, Step::Insert(1, 1, Value::Count(2500, 0)), Said::Okay),
        (1, Step::Commit, Said::Okay),
        (1, RC, Said::Okay),
        (1, Step::Rekey(1, -5), Said::Okay),
        (1, Step::Rekey(-5, -5), Said::Taken),
        (1, Step::Rollback, Said::Okay),
        (1, RC, Said::Okay),
        (1, Step::Rekey(1, 9223372036854775807), Said::Okay),
        (1, Step::Commit, Said::Okay),
    ];
    assert!(rt; prints(rt.alloc(), &[E], &moments)?);
    Ok(())
}

// Want of memory at a command's first entry and after its moment, for reads, writes and upkeep.
#[test]
fn want_of_memory_at_each_place(rt: HostRuntime) -> Result<(), Broken> {
    let moments = [
        (1, Step::Get(1, 1), Said::Wanted),
        (1, Step::Get(1, 1), Said::Outside),
        (1, Step::VacuumMain, Said::Wanted),
        (1, RC, Said::Okay),
        (1, Step::Insert(1, 1, Value::Byte(1)), Said::Wanted),
        (1, Step::Get(1, 1), Said::Failed),
        (1, Step::Rollback, Said::Okay),
        (1, RC, Said::Okay),
        (1, Step::Insert(1, 1, Value::Count(2500, 0)), Said::Memory),
        (1, NO_MEMORY, Said::Nothing),
        (1, Step::Commit, Said::RolledBack),
        (1, RC, Said::Okay),
        (1, Step::Insert(1, 1, Value::Byte(1)), Said::Okay),
        (1, Step::Get(1, 1), Said::Memory),
        (2, Step::VacuumToast, Said::Started),
        (1, NO_MEMORY, Said::Nothing),
        (3, Step::VacuumToast, Said::Locked(2)),
        (1, Step::Commit, Said::RolledBack),
        (2, NO_MEMORY, Said::Memory),
        (3, Step::VacuumToast, Said::Started),
        (3, END, Said::Done),
        (1, RC, Said::Okay),
        (1, Step::Rewrite, Said::Wanted),
        (1, Step::Get(1, 1), Said::Failed),
        (1, Step::Rollback, Said::Okay),
        (1, RC, Said::Okay),
        (1, Step::Get(1, 1), Said::Absent),
        (1, Step::Commit, Said::Okay),
    ];
    assert!(rt; prints(rt.alloc(), &[E], &moments)?);
    Ok(())
}

#[test]
fn a_rewrite_that_finds_no_id(rt: HostRuntime) -> Result<(), Broken> {
    let moments = [
        (1, RC, Said::Okay),
        (
            1,
            Step::InsertTwo(1, Value::Count(1500, 0), Value::Count(1600, 0)),
            Said::Okay,
        ),
        (1, Step::Commit, Said::Okay),
        (1, Step::Rewrite, Said::Started),
        (2, Step::Rewrite, Said::Locked(1)),
        (1, NO_VALUE_ID, Said::NoValueId),
        (2, Step::Rewrite, Said::Started),
        (2, END, Said::Done),
        (1, RC, Said::Okay),
        (
            1,
            Step::Get(1, 1),
            Said::RowOfTwo(Value::Count(1500, 0), Value::Count(1600, 0)),
        ),
        (1, Step::Commit, Said::Okay),
    ];
    assert!(rt; prints(rt.alloc(), &[EE], &moments)?);
    Ok(())
}

const RUN: Kind = Kind::Run;

/// An entry: a session, its command's number and the kind.
type Entry = (u16, u32, Kind);

// The script of the tables below: session 1 writes, reads and runs upkeep, session 2 reads in no transaction.
const TO_JUDGE: [Moment; 8] = [
    (1, RC, Said::Okay),
    (1, Step::Insert(1, 1, Value::Byte(1)), Said::Okay),
    (1, Step::Get(1, 1), Said::Row(Value::Byte(1))),
    (1, Step::Commit, Said::Okay),
    (1, Step::VacuumToast, Said::Started),
    (1, Step::Rewrite, Said::Started),
    (2, Step::Get(1, 1), Said::Outside),
    (2, RC, Said::Okay),
];

fn entries_of(alloc: Global, entries: &[Entry]) -> Result<JournalList, AllocError> {
    let mut journal = ListOf::new(alloc);
    for (session, number, kind) in entries {
        journal.push(JournalEntry {
            session: *session,
            number: *number,
            kind: *kind,
        })?;
    }
    Ok(journal)
}

// Whether a journal of that script is legal, and whether it is complete.
fn judged(alloc: Global, entries: &[Entry]) -> Result<(bool, bool), Broken> {
    let script = script_of(alloc, &[E], &TO_JUDGE)?;
    if script.sessions.len() > 64 {
        return Err(Broken);
    }
    let journal = entries_of(alloc, entries)?;
    let legal = is_legal(alloc, &script, journal.as_slice())?;
    let complete = is_complete(alloc, &script, journal.as_slice())?;
    Ok((legal, complete))
}

// Each of these journals is legal up to its last entry, which may not come.
const ILLEGAL: [&[Entry]; 18] = [
    &[(0, 1, RUN)],
    &[(3, 1, RUN)],
    &[(5, 1, RUN)],
    &[(1, 0, RUN)],
    &[(1, 2, RUN)],
    &[(1, 1, Kind::Memory)],
    &[(1, 1, RUN), (1, 1, RUN)],
    &[(1, 1, RUN), (1, 1, Kind::Memory)],
    &[(1, 1, RUN), (1, 2, Kind::End)],
    &[(1, 1, RUN), (1, 2, Kind::NoValueId)],
    &[(1, 1, RUN), (1, 2, RUN), (1, 2, Kind::End)],
    &[(1, 1, RUN), (1, 2, RUN), (1, 3, RUN), (1, 2, Kind::Memory)],
    &[
        (1, 1, RUN),
        (1, 2, RUN),
        (1, 3, RUN),
        (1, 3, Kind::NoValueId),
    ],
    &[(1, 1, RUN), (1, 2, Kind::Memory), (1, 2, Kind::Memory)],
    &[(2, 1, RUN), (2, 1, Kind::Memory)],
    &[(2, 1, Kind::Memory), (2, 1, RUN)],
    &[(2, 1, RUN), (2, 2, RUN), (2, 3, RUN)],
    &[(2, 2, RUN)],
];

// What may not come after the first five commands of session 1, the last of which began a vacuum.
const ILLEGAL_IN_UPKEEP: [&[Entry]; 4] = [
    &[(1, 6, RUN)],
    &[(1, 5, RUN)],
    &[(1, 5, Kind::NoValueId)],
    &[(1, 5, Kind::End), (1, 5, Kind::End)],
];

const UP_TO_VACUUM: [Entry; 5] = [
    (1, 1, RUN),
    (1, 2, RUN),
    (1, 3, RUN),
    (1, 4, RUN),
    (1, 5, RUN),
];

fn appended(alloc: Global, front: &[Entry], more: &[Entry]) -> Result<ListOf<Entry>, AllocError> {
    let mut all = ListOf::from_slice(alloc, front)?;
    all.extend_from_slice(more)?;
    Ok(all)
}

// Whether a journal is legal up to its last entry, and not with it.
fn last_is_refused(alloc: Global, entries: &[Entry]) -> Result<bool, Broken> {
    let (whole, _) = judged(alloc, entries)?;
    let (front, _) = judged(alloc, &entries[..entries.len().saturating_sub(1)])?;
    Ok(front && !whole)
}

#[test]
fn illegal_journals(rt: HostRuntime) -> Result<(), Broken> {
    for entries in ILLEGAL {
        assert!(rt; last_is_refused(rt.alloc(), entries)?);
    }
    for more in ILLEGAL_IN_UPKEEP {
        let entries = appended(rt.alloc(), &UP_TO_VACUUM, more)?;
        assert!(rt; last_is_refused(rt.alloc(), entries.as_slice())?);
    }
    Ok(())
}

// What comes after these five commands, and whether the journal is then complete; it is legal each time.
const COMPLETE: [(&[Entry], bool); 6] = [
    (&[], false),
    (&[(1, 5, Kind::End), (1, 6, RUN), (1, 6, Kind::End)], false),
    (
        &[(1, 5, Kind::End), (1, 6, RUN), (2, 1, RUN), (2, 2, RUN)],
        false,
    ),
    (&[(2, 1, RUN), (2, 2, RUN), (1, 5, Kind::End)], false),
    (
        &[
            (1, 5, Kind::End),
            (1, 6, RUN),
            (2, 1, RUN),
            (1, 6, Kind::NoValueId),
            (2, 2, RUN),
        ],
        true,
    ),
    (
        &[
            (2, 1, Kind::Memory),
            (1, 5, Kind::Memory),
            (1, 6, Kind::Memory),
            (2, 2, RUN),
        ],
        true,
    ),
];

#[test]
fn incomplete_journals(rt: HostRuntime) -> Result<(), Broken> {
    for (more, complete) in COMPLETE {
        let entries = appended(rt.alloc(), &UP_TO_VACUUM, more)?;
        assert_eq!(rt; judged(rt.alloc(), entries.as_slice())?, (true, complete));
    }
    Ok(())
}
