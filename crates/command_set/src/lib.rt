//! Commands, replies, scripts and journals, and the plain store: what each command answers in a store that
//! copies whole maps of rows and executes each command at one moment.
#![tactic(auto)]

pub mod changes;
pub mod journal;
pub mod laws;
pub mod rows;
pub mod state;
pub mod values;

use list_facts::ListOf;
pub use tuple_layout::{Bytes, Row, SchemaList};

/// How a transaction reads (PostgreSQL, "Transaction Isolation").
#[derive(Clone, Copy, Debug, PartialEq, Eq)]
pub enum Level {
    /// Read committed.
    Rc,
    /// Repeatable read.
    Rr,
}

/// A column, from 1, and the value that an update gives it.
#[derive(Debug, Drop, PartialEq)]
pub struct Set {
    pub column: u16,
    pub value: Option<Bytes>,
}

/// The columns that an update sets.
pub type SetList = ListOf<Set>;

/// A session's command. Tables and columns count from 1, handles are named by 1 to 64, and an offset and a
/// length are in bytes.
#[derive(Debug, Drop, PartialEq)]
pub enum Command {
    Begin {
        level: Level,
    },
    Commit,
    Rollback,
    Get {
        table: u16,
        key: i64,
    },
    Part {
        table: u16,
        key: i64,
        column: u16,
        offset: i32,
        length: i32,
    },
    Open {
        handle: u16,
        table: u16,
        key: i64,
        column: u16,
    },
    Fetch {
        handle: u16,
        offset: i32,
        length: i32,
    },
    Close {
        handle: u16,
    },
    Insert {
        table: u16,
        key: i64,
        row: Row,
    },
    Update {
        table: u16,
        key: i64,
        sets: SetList,
    },
    Delete {
        table: u16,
        key: i64,
    },
    Rekey {
        table: u16,
        from: i64,
        to: i64,
        sets: SetList,
    },
    VacuumMain {
        table: u16,
    },
    VacuumToast {
        table: u16,
    },
    Rewrite {
        table: u16,
    },
}

/// What a command answers.
#[derive(Clone, Debug, Drop, PartialEq)]
pub enum Reply {
    /// Done as asked.
    Okay,
    /// The transaction that ends had failed.
    RolledBack,
    /// The row of a key.
    Row { key: i64, row: Row },
    /// Bytes of a value.
    Bytes(Bytes),
    /// The column is null.
    Null,
    /// There is no such key.
    Absent,
    /// The key is there already.
    Taken,
    /// Another session has an uncommitted change of the key.
    Busy { session: u16 },
    /// Another session has committed a change of the key since the snapshot.
    Changed,
    /// Another session holds what is in the way.
    Locked { session: u16 },
    /// The transaction has failed.
    Failed,
    /// The session is in no transaction.
    Outside,
    /// The session is in a transaction.
    Inside,
    /// The row's tuple would have this size, in bytes, with every column out of line that may be.
    TooBig { size: u32 },
    /// The offset is negative.
    BadOffset,
    /// No handle of this name is open.
    NoHandle,
    /// A handle of this name is open.
    HandleThere,
    /// Every value id of the range is in use.
    NoValueId,
    /// Upkeep has begun.
    Started,
    /// Upkeep has ended.
    Done,
    /// No memory was left.
    Memory,
}

/// The commands of one session, in order.
pub type CommandList = ListOf<Command>;

/// The commands of each session, the first being session 1's.
pub type SessionList = ListOf<CommandList>;

/// One part of a passage of the schedule: a session's turns.
#[derive(Clone, Copy, Debug, PartialEq, Eq)]
pub enum Item {
    /// One turn.
    Once { session: u16 },
    /// So many turns, from 1 to 100,000.
    Times { session: u16, count: u32 },
    /// Turns until a command has ended, or the session cannot go on.
    Whole { session: u16 },
}

/// Items, in order.
pub type ItemList = ListOf<Item>;

/// Items that are gone through so many times, from 1 to 100,000.
#[derive(Debug, Drop, PartialEq)]
pub struct Passage {
    pub count: u32,
    pub items: ItemList,
}

/// The passages of a schedule, in order.
pub type PassageList = ListOf<Passage>;

/// A script: the range of value ids, the tables, each session's commands, and the schedule.
#[derive(Debug, Drop)]
pub struct Script {
    /// The least value id, from 16,384 on.
    pub low: u32,
    /// The greatest value id, from `low` on.
    pub high: u32,
    pub schemas: SchemaList,
    pub sessions: SessionList,
    pub schedule: PassageList,
}

/// What a journal's entry tells of a command.
#[derive(Clone, Copy, Debug, PartialEq, Eq)]
pub enum Kind {
    /// The command's moment.
    Run,
    /// The end of upkeep.
    End,
    /// A draw of a value id was refused, which ended the command.
    NoValueId,
    /// Want of memory ended the command.
    Memory,
}

/// One entry of a journal: a session, the number of one of its commands, from 1, and what came of it.
#[derive(Clone, Copy, Debug, PartialEq, Eq)]
pub struct JournalEntry {
    pub session: u16,
    pub number: u32,
    pub kind: Kind,
}

/// A journal's entries, in order.
pub type JournalList = ListOf<JournalEntry>;
