//! The locks of all sessions.

ghost use Rattle.std.specs.Prelude.{◌≡◌, ◌+◌, ◌≤◌, ◌^◌, [], length, replicate, None, IfOk, OnErr, OnOk};
ghost use Rattle.lock_table.specs.Held.{nothing};
ghost use Rattle.lock_table.specs.Locks.{after_asking, after_end, busy_with, granted, locked_by, row_lock, table_lock, with_locks, IsFirstInWay};
ghost use Rattle.lock_table.specs.Modes.{mode_of};

use crate::fault::{ClaimFault, LockFault};
use crate::held::SessionLocks;
use crate::lock::{Lock, LockMode, RowKey, TableLock, Upkeep};
use std::alloc::{AllocError, Global};
use std::marker::Model;

/// The locks of all sessions.
///
/// Contracts see the list of what each session holds, at the place of its number.
#[derive(Debug, Drop)]
pub struct Locks {
    sessions: Vec<SessionLocks>,
}

impl Model for Locks {
    ghost use Rattle.std.specs.Prelude.{List, ◌≤◌, ◌^◌, length};
    ghost use Rattle.lock_table.specs.declared.held.SessionLocks.{SessionLocks};

    ghost Value = { List SessionLocks };

    ghost view = { λ locks. locks.sessions.items };

    ghost invariant = { λ locks. length locks.sessions.items ≤ 2 ^ 16 };
}

// A key goes by reference into a function of its own, whose proof then knows its range.
fn lock_of_row(table: u16, key: &i64) -> Lock
    ensures { result ≡ row_lock table key.now }
{
    Lock::Row(RowKey { table, key: *key })
}

fn lock_of_table(table: u16, mode: LockMode) -> Lock
    ensures { result ≡ table_lock table mode }
{
    Lock::Table(TableLock { table, mode })
}

/// The least other session that is in the way of a session's lock, if there is one.
fn first_in_way(sessions: &[SessionLocks], session: u16, lock: &Lock) -> Option<u16>
    requires { length sessions.now ≤ 2 ^ 16 }
    ensures { IsFirstInWay sessions.now session lock.now result }
{
    for (other, held) in sessions.iter().enumerate() {
        if other != session as usize && held.is_in_way(lock) {
            return Some(other as u16);
        }
    }
    None
}

/// Writes a session's locks at its place, past the end of the list; the places before it hold none.
fn put_past(
    sessions: &mut Vec<SessionLocks>,
    session: u16,
    held: SessionLocks,
) -> Result<(), AllocError>
    requires { length sessions.old.items ≤ session }
    ensures ok { OnOk result (sessions.new.items ≡ with_locks sessions.old.items session held) }
    ensures err { OnErr result (sessions.new.items ≡ sessions.old.items) }
{
    let alloc = *sessions.allocator();
    let mut more = Vec::new(alloc);
    for _place in sessions.len()..session as usize {
        more.push(SessionLocks::new(alloc))?;
    }
    more.push(held)?;
    sessions.append(&mut more)?;
    Ok(())
}

impl Locks {
    /// No session holds anything, which takes no memory.
    pub fn new(alloc: Global) -> Self
        ensures { result ≡ [] }
    {
        Locks {
            sessions: Vec::new(alloc),
        }
    }

    /// No session holds anything, and those up to this number have their places, so that none is added
    /// for a lock of theirs.
    pub fn for_sessions(alloc: Global, sessions: u16) -> Result<Self, AllocError>
        ensures { IfOk result (λ locks. locks ≡ replicate (sessions + 1) nothing) }
    {
        let mut places = Vec::new(alloc);
        for _ in 0..sessions {
            places.push(SessionLocks::new(alloc))?;
        }
        // Place 0 is nobody's.
        places.push(SessionLocks::new(alloc))?;
        Ok(Locks { sessions: places })
    }

    /// Adds a lock to those of a session.
    fn grant(&mut self, session: u16, lock: &Lock) -> Result<(), AllocError>
        ensures ok { OnOk result (self.new ≡ granted self.old session lock.now) }
        ensures err { OnErr result (self.new ≡ self.old) }
    {
        let place = session as usize;
        if place < self.sessions.len() {
            self.sessions[place].lock(lock)?;
            Ok(())
        } else {
            let mut held = SessionLocks::new(*self.sessions.allocator());
            held.lock(lock)?;
            put_past(&mut self.sessions, session, held)?;
            Ok(())
        }
    }

    /// Asks for a lock: the least other session that is in the way, or none and the lock is granted.
    fn ask(&mut self, session: u16, lock: &Lock) -> Result<Option<u16>, AllocError>
        ensures in_way { IfOk result (IsFirstInWay self.old session lock.now) }
        ensures after { IfOk result (λ other. self.new ≡ after_asking self.old session lock.now other) }
        ensures err { OnErr result (self.new ≡ self.old) }
        ensures free { OnErr result (IsFirstInWay self.old session lock.now None) }
    {
        let other = first_in_way(&self.sessions, session, lock);
        if other.is_none() {
            self.grant(session, lock)?;
        }
        Ok(other)
    }

    /// A session's transaction uses a table, to the session's end.
    ///
    /// # Errors
    /// `Locked` names the least other session that rewrites the table, exactly where there is one.
    /// After an error all is as before.
    pub fn use_table(&mut self, session: u16, table: u16) -> Result<(), LockFault>
        ensures refused { IsFirstInWay self.old session (table_lock table LockMode.Use) (locked_by result) }
        ensures ok { OnOk result (self.new ≡ granted self.old session (table_lock table LockMode.Use)) }
        ensures err { OnErr result (self.new ≡ self.old) }
    {
        match self.ask(session, &lock_of_table(table, LockMode::Use))? {
            Some(session) => Err(LockFault::Locked { session }),
            None => Ok(()),
        }
    }

    /// A session starts upkeep of a table, and runs it to the session's end.
    ///
    /// # Errors
    /// `Locked` names the least other session that runs upkeep of the table which conflicts, or, for
    /// a rewrite, uses the table, exactly where there is one. After an error all is as before.
    pub fn start(&mut self, session: u16, table: u16, kind: Upkeep) -> Result<(), LockFault>
        ensures refused { IsFirstInWay self.old session (table_lock table (mode_of kind)) (locked_by result) }
        ensures ok { OnOk result (self.new ≡ granted self.old session (table_lock table (mode_of kind))) }
        ensures err { OnErr result (self.new ≡ self.old) }
    {
        match self.ask(session, &lock_of_table(table, kind.mode()))? {
            Some(session) => Err(LockFault::Locked { session }),
            None => Ok(()),
        }
    }

    /// A session claims a row that it is to change, to the session's end.
    ///
    /// # Errors
    /// `Busy` names the other session that has claimed the row, exactly where there is one. After an
    /// error all is as before.
    pub fn claim(&mut self, session: u16, table: u16, key: i64) -> Result<(), ClaimFault>
        ensures refused { IsFirstInWay self.old session (row_lock table key) (busy_with result) }
        ensures ok { OnOk result (self.new ≡ granted self.old session (row_lock table key)) }
        ensures err { OnErr result (self.new ≡ self.old) }
    {
        match self.ask(session, &lock_of_row(table, &key))? {
            Some(session) => Err(ClaimFault::Busy { session }),
            None => Ok(()),
        }
    }

    /// A session gives up all that it holds; the others keep what they hold.
    pub fn end(&mut self, session: u16)
        ensures { self.new ≡ after_end self.old session }
    {
        let alloc = *self.sessions.allocator();
        if let Some(held) = self.sessions.get_mut(session as usize) {
            *held = SessionLocks::new(alloc);
        }
    }
}
