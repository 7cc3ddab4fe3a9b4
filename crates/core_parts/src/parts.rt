//! What a core keeps.

ghost use Rattle.std.specs.Prelude.{◌≡◌, ◌≤◌, IfOk, length, replicate};
ghost use Rattle.core_state.specs.Facts.{IsTableMade};
ghost use Rattle.table_state.specs.LookUps.{no_rows};
ghost use Rattle.core_state.specs.Lines.{seated};
ghost use Rattle.core_state.specs.Moves.{under_of};
ghost use Rattle.core_state.specs.State.{IsSession, nobody as no_seat, seat_of};
ghost use Rattle.core_parts.specs.First.{AreTablesMade, first_core, tables_of};

use crate::steps::table_facts;
use change_log::Log;
use command_set::SchemaList;
use core_state::advance::Under;
use core_state::seat::{HandleList, Job, Seat, State};
use lock_table::Locks;
use snapshot_registry::SnapRegistry;
use std::alloc::{AllocError, Global};
use std::marker::Model;
use table_state::Table;
use tuple_layout::Schema;
use value_ids::IdPool;
use xact_status::XactTable;

/// The tables, the range of value ids, and the number of sessions.
#[derive(Debug, Drop)]
pub struct Setup {
    pub schemas: SchemaList,
    pub low: u32,
    pub high: u32,
    pub sessions: u16,
}

/// The parts of a core.
#[derive(Debug, Drop)]
pub struct CoreParts {
    pub alloc: Global,
    pub ids: IdPool,
    pub xacts: XactTable,
    pub snaps: SnapRegistry,
    pub locks: Locks,
    pub log: Log,
    pub tables: Vec<Table>,
    pub seats: Vec<Seat>,
}

impl Model for CoreParts {
    ghost use Rattle.core_state.specs.State.{CoreState};

    ghost Value = { CoreState };

    ghost view = { λ parts. record { ids = parts.ids; xacts = parts.xacts; snaps = parts.snaps; locks = parts.locks; log = parts.log; tables = parts.tables.items; seats = parts.seats.items } };
}

/// A table of a schema, without a row.
fn empty_table(alloc: Global, schema: &Schema, number: u16) -> Result<Table, AllocError>
    ensures is { IfOk result (λ table. table ≡ no_rows schema.now number) }
    ensures made { IfOk result IsTableMade }
{
    let schema = schema.copy(alloc)?;
    let table = Table::new(alloc, schema, number)?;
    table_facts(&table);
    Ok(table)
}

/// The tables of these schemas, without a row.
fn empty_tables(alloc: Global, schemas: &SchemaList) -> Result<Vec<Table>, AllocError>
    requires { length schemas.now ≤ 16 }
    ensures are { IfOk result (λ tables. tables.items ≡ tables_of schemas.now) }
    ensures made { IfOk result (λ tables. AreTablesMade tables.items) }
{
    let mut tables = Vec::new(alloc);
    let mut number = 0;
    for schema in schemas.as_slice() {
        number += 1;
        tables.push(empty_table(alloc, schema, number)?)?;
    }
    Ok(tables)
}

/// A session in no transaction, with nothing under way.
fn nobody(alloc: Global) -> Seat
    ensures { result ≡ no_seat }
{
    Seat {
        state: State::Outside,
        handles: HandleList::new(alloc),
        job: Job::Idle,
    }
}

/// The seats of so many sessions, which are in no transaction.
fn empty_seats(alloc: Global, sessions: u16) -> Result<Vec<Seat>, AllocError>
    ensures { IfOk result (λ seats. seats.items ≡ replicate sessions no_seat) }
{
    let mut seats = Vec::new(alloc);
    for _ in 0..sessions {
        seats.push(nobody(alloc))?;
    }
    Ok(seats)
}

/// Gives a seat this to do.
fn put_job(seat: &mut Seat, job: Job)
    ensures { seat.new ≡ record seat.old { job = job } }
{
    seat.job = job;
}

impl CoreParts {
    /// The parts of an empty core, whose sessions are in no transaction. The error is for want of memory.
    pub fn new(alloc: Global, setup: &Setup) -> Result<CoreParts, AllocError>
        requires ids { (16384 ≤ setup.now.low) × (setup.now.low ≤ setup.now.high) }
        requires tables { length setup.now.schemas ≤ 16 }
        ensures core { IfOk result (λ core. core ≡ first_core setup.now.schemas setup.now.low setup.now.high setup.now.sessions) }
        ensures made { IfOk result (λ core. AreTablesMade core.tables) }
    {
        let locks = Locks::for_sessions(alloc, setup.sessions)?;
        let tables = empty_tables(alloc, &setup.schemas)?;
        let seats = empty_seats(alloc, setup.sessions)?;
        Ok(CoreParts {
            alloc,
            ids: IdPool::new(alloc, setup.low, setup.high),
            xacts: XactTable::new(alloc),
            snaps: SnapRegistry::new(alloc),
            locks,
            log: Log::new(alloc),
            tables,
            seats,
        })
    }

    /// What a session has under way.
    pub fn busy_with(&self, session: u16) -> Under
        requires { IsSession self.now.seats session }
        ensures { result ≡ under_of (seat_of self.now session).job }
    {
        match &self.seats[usize::from(session - 1)].job {
            Job::Idle => Under::Nothing,
            Job::Submitted(_) | Job::Reading { .. } | Job::Writing { .. } => Under::Data,
        }
    }

    /// The log.
    pub fn log(&self) -> &Log
        ensures { result.now ≡ self.now.log }
    {
        &self.log
    }

    /// Leaves a session in this state.
    pub fn set_state(&mut self, session: u16, state: State)
        requires { IsSession self.old.seats session }
        ensures { self.new ≡ seated self.old session (record (seat_of self.old session) { state = state }) }
    {
        self.seats[usize::from(session - 1)].state = state;
    }

    /// Gives a session this to do.
    pub fn set_job(&mut self, session: u16, job: Job)
        requires { IsSession self.old.seats session }
        ensures { self.new ≡ seated self.old session (record (seat_of self.old session) { job = job }) }
    {
        put_job(&mut self.seats[usize::from(session - 1)], job);
    }

    /// What a session is in.
    pub fn state(&self, session: u16) -> State
        requires { IsSession self.now.seats session }
        ensures { result ≡ (seat_of self.now session).state }
    {
        self.seats[usize::from(session - 1)].state
    }
}
