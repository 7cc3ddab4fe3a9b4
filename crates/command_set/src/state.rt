//! A state of the plain store: whole copies of the rows in place of snapshots.

ghost use Rattle.command_set.specs.Plain.{first_state, nth, now_of, session_of, view_of, with_session};
ghost use Rattle.command_set.specs.Replies.{is_failed, is_outside, new_transaction, transaction_of};
ghost use Rattle.std.specs.Option.{option_copied, unwrap_or};
ghost use Rattle.std.specs.Prelude.{◌≡◌, IfOk};

use crate::rows::{HandleMap, RowMap};
use crate::values::nth;
use crate::{Level, Reply};
use list_facts::ListOf;
use std::alloc::{AllocError, Global};
use tuple_layout::{Place, Row};

/// A change of one row, as a transaction makes it.
#[derive(Drop)]
pub enum Change {
    /// A new row at a key that was free.
    Insert {
        table: u16,
        key: i64,
        row: Row,
    },
    /// A new row in place of the key's old one.
    Update {
        table: u16,
        key: i64,
        row: Row,
    },
    /// The first key's row is taken away, and the new row is at the second key.
    Move {
        table: u16,
        from: i64,
        to: i64,
        row: Row,
    },
    /// The key's row is taken away.
    Remove {
        table: u16,
        key: i64,
    },
}

/// Changes, in the order in which they were made.
pub type ChangeList = ListOf<Change>;

/// Places of rows.
pub type PlaceList = ListOf<Place>;

/// Tables, by their numbers.
pub type TableList = ListOf<u16>;

/// An open transaction (PostgreSQL, "Transaction Isolation").
#[derive(Drop)]
pub struct Transaction {
    pub level: Level,
    /// The copy of the rows that a repeatable read transaction took at its first data command.
    pub base: Option<RowMap>,
    /// Its changes so far.
    pub changes: ChangeList,
    /// The places that others' commits have changed since the copy.
    pub since: PlaceList,
    /// The tables that it has used.
    pub used: TableList,
    /// The values that it keeps under a name.
    pub handles: HandleMap,
}

/// What a session is in.
#[derive(Drop)]
pub enum Session {
    /// In no transaction.
    Outside,
    /// In a failed transaction, which has ended inside.
    Failed,
    /// In an open transaction.
    Open(Transaction),
}

/// The kinds of upkeep of a table (PostgreSQL, "Routine Vacuuming"; VACUUM, its option FULL).
#[derive(Clone, Copy, Debug, PartialEq, Eq)]
pub enum Upkeep {
    /// Vacuum of the rows.
    Main,
    /// Vacuum of the values stored out of line.
    Toast,
    /// The table is written anew.
    Rewrite,
}

/// Upkeep that runs: whose, of which table, of which kind.
#[derive(Clone, Copy, Debug, PartialEq, Eq)]
pub struct Running {
    pub session: u16,
    pub table: u16,
    pub kind: Upkeep,
}

/// The sessions, the first being session 1.
pub type StateList = ListOf<Session>;

/// Upkeep that runs, in the order in which it began.
pub type UpkeepList = ListOf<Running>;

/// A state of the plain store.
#[derive(Drop)]
pub struct Plain {
    /// The committed rows.
    pub latest: RowMap,
    pub sessions: StateList,
    pub upkeep: UpkeepList,
}

/// A command's reply, and the state after it.
#[derive(Drop)]
pub struct Answered {
    pub reply: Reply,
    pub after: Plain,
}

impl Transaction {
    /// A transaction that has done nothing yet. It takes no memory.
    pub fn begin(alloc: Global, level: Level) -> Transaction
        ensures { result ≡ new_transaction level }
    {
        Transaction {
            level,
            base: None,
            changes: ListOf::new(alloc),
            since: ListOf::new(alloc),
            used: ListOf::new(alloc),
            handles: HandleMap::new(alloc),
        }
    }
}

impl Session {
    /// Whether it is in no transaction.
    pub fn is_outside(&self) -> bool
        ensures { result ≡ is_outside self.now }
    {
        match self {
            Session::Outside => true,
            Session::Failed => false,
            Session::Open(_) => false,
        }
    }

    /// Whether it is in a failed transaction.
    pub fn is_failed(&self) -> bool
        ensures { result ≡ is_failed self.now }
    {
        match self {
            Session::Outside => false,
            Session::Failed => true,
            Session::Open(_) => false,
        }
    }

    /// Its open transaction; where it has none, one that has done nothing, which is lent.
    pub fn transaction_or<'a>(&'a self, nothing: &'a Transaction) -> &'a Transaction
        requires { nothing.now ≡ new_transaction Level.Rc }
        ensures { result.now ≡ transaction_of self.now }
    {
        match self {
            Session::Outside => nothing,
            Session::Failed => nothing,
            Session::Open(transaction) => transaction,
        }
    }
}

impl Plain {
    /// The state before the first command, with so many sessions.
    pub fn first(alloc: Global, sessions: usize) -> Result<Plain, AllocError>
        ensures { IfOk result (λ store. store ≡ first_state sessions) }
    {
        let mut outside = ListOf::new(alloc);
        for _ in 0..sessions {
            outside.push(Session::Outside)?;
        }
        Ok(Plain {
            latest: RowMap::new(alloc),
            sessions: outside,
            upkeep: ListOf::new(alloc),
        })
    }

    /// What a session is, from 1; none if it does not exist.
    pub fn session(&self, number: u16) -> Option<&Session>
        ensures { option_copied result ≡ nth self.now.sessions number }
    {
        nth(self.sessions.as_slice(), usize::from(number))
    }

    /// Puts a session, from 1, in the place of what it was. One that does not exist is dropped.
    pub fn set_session(&mut self, number: u16, session: Session)
        ensures { self.new ≡ with_session self.old number session }
    {
        let at = usize::from(number.saturating_sub(1));
        if at < self.sessions.len() {
            self.sessions.set(at, session);
        }
    }

    /// Whether a session is in no transaction; one that does not exist is in none.
    pub fn is_outside(&self, number: u16) -> bool
        ensures { result ≡ is_outside (session_of self.now number) }
    {
        match self.session(number) {
            None => true,
            Some(session) => session.is_outside(),
        }
    }

    /// Whether a session is in a failed transaction.
    pub fn is_failed(&self, number: u16) -> bool
        ensures { result ≡ is_failed (session_of self.now number) }
    {
        match self.session(number) {
            None => false,
            Some(session) => session.is_failed(),
        }
    }

    /// A session's open transaction; where it has none, one that has done nothing, which is lent.
    pub fn transaction_or<'a>(&'a self, number: u16, nothing: &'a Transaction) -> &'a Transaction
        requires { nothing.now ≡ new_transaction Level.Rc }
        ensures { result.now ≡ transaction_of (session_of self.now number) }
    {
        match self.session(number) {
            None => nothing,
            Some(session) => session.transaction_or(nothing),
        }
    }

    // The rows on which a transaction's reads stand.
    fn base_of<'a>(&'a self, transaction: &'a Transaction) -> &'a RowMap
        ensures { result.now ≡ unwrap_or transaction.now.base self.now.latest }
    {
        match &transaction.base {
            Some(base) => base,
            None => &self.latest,
        }
    }

    /// What a transaction's reads see: its own changes on its copy, where it has one, else on the committed rows.
    pub fn view_of(&self, transaction: &Transaction) -> Result<RowMap, AllocError>
        ensures { IfOk result (λ view. view ≡ view_of self.now transaction.now) }
    {
        let base = self.base_of(transaction).clone()?;
        let view = base.with_changes(transaction.changes.as_slice())?;
        Ok(view)
    }

    /// A transaction's own changes on the committed rows.
    pub fn now_of(&self, transaction: &Transaction) -> Result<RowMap, AllocError>
        ensures { IfOk result (λ now. now ≡ now_of self.now transaction.now) }
    {
        let latest = self.latest.clone()?;
        let now = latest.with_changes(transaction.changes.as_slice())?;
        Ok(now)
    }
}
