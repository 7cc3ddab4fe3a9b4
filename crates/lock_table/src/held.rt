//! What one session has locked.

ghost use Rattle.std.specs.Prelude.{◌≡◌, [], OnErr, OnOk};
ghost use Rattle.lock_table.specs.Held.{holds_row, holds_table, is_in_way, nothing, table_in_way, with_lock, with_row, with_table};

use crate::lock::{Lock, RowKey, TableLock};
use list_facts::ListOf;
use std::alloc::{AllocError, Global};
use std::collections::BTreeSet;
use std::marker::Model;

/// Rows, each once. Contracts see the list of them in order.
#[derive(Debug, Drop)]
pub struct RowSet {
    rows: BTreeSet<RowKey>,
}

impl Model for RowSet {
    ghost use Rattle.std.specs.Prelude.{List};
    ghost use Rattle.lock_table.specs.declared.lock.RowKey.{RowKey};

    ghost Value = { List RowKey };

    ghost view = { λ set. set.rows.keys };
}

/// The locks of one session: on tables, each once, and on rows.
#[derive(Debug, Drop)]
pub struct SessionLocks {
    pub tables: ListOf<TableLock>,
    pub rows: RowSet,
}

impl RowSet {
    fn new(alloc: Global) -> Self
        ensures { result ≡ [] }
    {
        RowSet {
            rows: BTreeSet::new(alloc),
        }
    }

    /// Whether a row is in the set. It takes time logarithmic in the number of its rows.
    fn contains(&self, row: &RowKey) -> bool
        ensures { result ≡ holds_row self.now row.now }
    {
        self.rows.contains(row)
    }

    fn insert(&mut self, row: RowKey) -> Result<(), AllocError>
        ensures ok { OnOk result (self.new ≡ with_row self.old row) }
        ensures err { OnErr result (self.new ≡ self.old) }
    {
        let _ = self.rows.insert(row)?;
        Ok(())
    }
}

impl SessionLocks {
    /// No locks, which take no memory.
    pub(crate) fn new(alloc: Global) -> Self
        ensures { result ≡ nothing }
    {
        SessionLocks {
            tables: ListOf::new(alloc),
            rows: RowSet::new(alloc),
        }
    }

    fn is_table_in_way(&self, lock: &TableLock) -> bool
        ensures { result ≡ table_in_way lock.now self.now.tables }
    {
        self.tables.as_slice().iter().any(|held| held.table == lock.table
            && lock.mode.conflicts(held.mode))
    }

    /// Whether a lock of this session is in the way of another session's.
    pub(crate) fn is_in_way(&self, lock: &Lock) -> bool
        ensures { result ≡ is_in_way lock.now self.now }
    {
        match lock {
            Lock::Table(lock) => self.is_table_in_way(lock),
            Lock::Row(row) => self.rows.contains(row),
        }
    }

    fn lock_table(&mut self, lock: TableLock) -> Result<(), AllocError>
        ensures ok { OnOk result (self.new ≡ with_lock (Lock.Table lock) self.old) }
        ensures err { OnErr result (self.new ≡ self.old) }
    {
        if !holds(self.tables.as_slice(), &lock) {
            self.tables.push(lock)?;
        }
        Ok(())
    }

    /// Adds a lock; one that is held already is held as before. Where there is no memory all stays.
    pub(crate) fn lock(&mut self, lock: &Lock) -> Result<(), AllocError>
        ensures ok { OnOk result (self.new ≡ with_lock lock.now self.old) }
        ensures err { OnErr result (self.new ≡ self.old) }
    {
        match lock {
            Lock::Table(lock) => self.lock_table(*lock),
            Lock::Row(row) => self.rows.insert(*row),
        }
    }
}

fn holds(tables: &[TableLock], lock: &TableLock) -> bool
    ensures { result ≡ holds_table tables.now lock.now }
{
    tables.contains(lock)
}
