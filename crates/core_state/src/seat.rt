//! A session: what it is in, its handles, and what it has under way.

use command_set::{Command, Level};
use list_facts::ListOf;
use read_steps::{Held, ReadJob};
use snapshot_registry::SnapId;
use write_steps::WriteJob;

/// What a session is in.
#[derive(Clone, Copy, Debug, PartialEq, Eq)]
pub enum State {
    /// No transaction.
    Outside,
    /// A transaction that has failed.
    Failed,
    /// An open transaction. Its xid comes with its first write that is granted, its snapshot, under
    /// repeatable read, with its first data command on a table.
    Open {
        level: Level,
        xid: Option<u64>,
        snapshot: Option<SnapId>,
    },
}

/// A value that a session keeps open, and the snapshot that keeps it.
#[derive(Debug, Drop)]
pub struct Handle {
    /// From 1.
    pub name: u16,
    pub snapshot: SnapId,
    /// From 1.
    pub table: u16,
    pub held: Held,
}

pub type HandleList = ListOf<Handle>;

/// What a session has under way. A job's table is from 1.
#[derive(Debug, Drop)]
pub enum Job {
    Idle,
    /// A command whose moment has not come.
    Submitted(Command),
    /// A read past its moment; under read committed a get or part holds a snapshot until it ends.
    Reading {
        table: u16,
        snapshot: Option<SnapId>,
        read: ReadJob,
    },
    /// A write past its moment.
    Writing {
        table: u16,
        write: WriteJob,
    },
}

/// A session: what it is in, its handles by ascending name, and what it has under way.
#[derive(Debug, Drop)]
pub struct Seat {
    pub state: State,
    pub handles: HandleList,
    pub job: Job,
}
