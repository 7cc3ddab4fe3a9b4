//! The replica, and one message applied to it.

ghost use Rattle.std.specs.Prelude.{◌≡◌, ◌≤◌, length, IfErr, IfOk, slice_get};
ghost use Rattle.std.specs.Option.{option_copied, option_map};
ghost use Rattle.std.specs.FinMap as finite;
ghost use Rattle.stream_wire.specs.Spelling.{AreColumns, IsInRange};
ghost use Rattle.replica_map.specs.States.{HasWidths, place, row_of, rows_of};
ghost use Rattle.replica_map.specs.Applies.{Applies, IsRefused, IsStep, row_with};

use crate::fault::ApplyFault;
use crate::merge::{first_unchanged, merged, row_of_new};
use crate::rows::{Tree, count, is_there, nth_row, put, row_at, take_away};
use std::alloc::Global;
use std::collections::BTreeMap;
use std::marker::Model;
use stream_wire::{Message, SentList};
use tuple_layout::{Place, Row};

/// The rows that a change stream has told, by table and key, and the count of its messages.
///
/// A lookup and a change take time in the logarithm of the rows; a change copies its row.
#[derive(Drop)]
pub struct Replica {
    alloc: Global,
    rows: Tree,
    taken: u64,
}

impl Model for Replica {
    ghost use Rattle.replica_map.specs.States.{ReplicaState, state_code};

    ghost Value = { ReplicaState };

    ghost coded = { state_code };

    ghost use Rattle.replica_map.specs.States.{rows_of, HasWidths};

    ghost view = { λ replica. record { rows = rows_of replica.rows.entries; taken = replica.taken } };

    ghost invariant = { λ replica. HasWidths (rows_of replica.rows.entries) };
}

// Keys go by reference into functions of their own, whose proofs then know their range.
fn place_of(table: u16, key: &i64) -> Place
    ensures { result ≡ place table key.now }
{
    Place { table, key: *key }
}

fn no_such_key(key: &i64) -> ApplyFault
    ensures { result ≡ ApplyFault.NoSuchKey key.now }
{
    ApplyFault::NoSuchKey { key: *key }
}

fn key_there(key: &i64) -> ApplyFault
    ensures { result ≡ ApplyFault.KeyThere key.now }
{
    ApplyFault::KeyThere { key: *key }
}

/// The row at a place with what is sent of its columns.
fn row_after(alloc: Global, old: &Row, columns: &SentList) -> Result<Row, ApplyFault>
    requires width { length old.now ≤ 8 }
    requires columns { AreColumns columns.now }
    ensures ok { IfOk result (λ row. (length columns.now ≡ length old.now) × (row ≡ row_with old.now columns.now)) }
    ensures fault { IfErr result (IsRefused old.now columns.now) }
{
    let got = columns.len();
    let wanted = old.len();
    if got != wanted {
        return Err(ApplyFault::WrongColumns {
            got: got as u16,
            wanted: wanted as u16,
        });
    }
    let row = merged(alloc, old.as_slice(), columns.as_slice())?;
    Ok(row)
}

fn insert(
    alloc: Global,
    rows: &mut Tree,
    table: u16,
    key: &i64,
    columns: &SentList,
) -> Result<(), ApplyFault>
    requires { AreColumns columns.now }
    ensures { IsStep rows.old.entries (Message.Insert table key.now columns.now) rows.new.entries result }
{
    let at = place_of(table, key);
    if is_there(rows, &at) {
        return Err(key_there(key));
    }
    if let Some(n) = first_unchanged(columns.as_slice()) {
        return Err(ApplyFault::NoOldValue {
            column: n as u16 + 1,
        });
    }
    let row = row_of_new(alloc, columns.as_slice())?;
    put(rows, at, row)?;
    Ok(())
}

fn update(
    alloc: Global,
    rows: &mut Tree,
    table: u16,
    key: &i64,
    columns: &SentList,
) -> Result<(), ApplyFault>
    requires widths { HasWidths (rows_of rows.old.entries) }
    requires columns { AreColumns columns.now }
    ensures { IsStep rows.old.entries (Message.Update table key.now columns.now) rows.new.entries result }
{
    let at = place_of(table, key);
    let Some(old) = row_at(rows, &at) else {
        return Err(no_such_key(key));
    };
    let row = row_after(alloc, old, columns)?;
    put(rows, at, row)?;
    Ok(())
}

fn rekey(
    alloc: Global,
    rows: &mut Tree,
    table: u16,
    from: &i64,
    to: &i64,
    columns: &SentList,
) -> Result<(), ApplyFault>
    requires widths { HasWidths (rows_of rows.old.entries) }
    requires columns { AreColumns columns.now }
    ensures { IsStep rows.old.entries (Message.Move table from.now to.now columns.now) rows.new.entries result }
{
    let source = place_of(table, from);
    let target = place_of(table, to);
    let Some(old) = row_at(rows, &source) else {
        return Err(no_such_key(from));
    };
    if is_there(rows, &target) {
        return Err(key_there(to));
    }
    let row = row_after(alloc, old, columns)?;
    put(rows, target, row)?;
    take_away(rows, &source);
    Ok(())
}

fn delete(rows: &mut Tree, table: u16, key: &i64) -> Result<(), ApplyFault>
    ensures { IsStep rows.old.entries (Message.Delete table key.now) rows.new.entries result }
{
    let at = place_of(table, key);
    if !is_there(rows, &at) {
        return Err(no_such_key(key));
    }
    take_away(rows, &at);
    Ok(())
}

/// Applies a message to the rows.
fn apply_to(alloc: Global, rows: &mut Tree, m: &Message) -> Result<(), ApplyFault>
    requires widths { HasWidths (rows_of rows.old.entries) }
    requires range { IsInRange m.now }
    ensures { IsStep rows.old.entries m.now rows.new.entries result }
{
    match m {
        Message::Begin { number: _ } | Message::Commit { number: _ } => Ok(()),
        Message::Insert {
            table,
            key,
            columns,
        } => insert(alloc, rows, *table, key, columns),
        Message::Update {
            table,
            key,
            columns,
        } => update(alloc, rows, *table, key, columns),
        Message::Move {
            table,
            from,
            to,
            columns,
        } => rekey(alloc, rows, *table, from, to, columns),
        Message::Delete { table, key } => delete(rows, *table, key),
    }
}

impl Replica {
    /// A replica of no rows, which has taken no message. It takes no memory.
    pub fn new(alloc: Global) -> Replica
        ensures rows { result.rows ≡ finite.empty }
        ensures taken { result.taken ≡ 0 }
    {
        Replica {
            alloc,
            rows: BTreeMap::new(alloc),
            taken: 0,
        }
    }

    /// Applies one message, which is within its ranges.
    ///
    /// The first fault refuses it: an insert of a key that is there, then one of an unchanged column;
    /// an update, a move or a delete of a key that is not there, then a move to a key that is there,
    /// and then another count of columns than the row's. A refused message changes nothing, nor does
    /// one for which there is no memory.
    pub fn apply(&mut self, m: &Message) -> Result<(), ApplyFault>
        requires { IsInRange m.now }
        ensures { Applies self.old m.now self.new result }
    {
        apply_to(self.alloc, &mut self.rows, m)?;
        self.taken = self.taken.saturating_add(1);
        Ok(())
    }

    /// The row of a table's key.
    pub fn row(&self, table: u16, key: i64) -> Option<&Row>
        ensures { option_copied result ≡ finite.get self.now.rows (place table key) }
    {
        row_at(&self.rows, &place_of(table, &key))
    }

    /// The number of rows.
    pub fn len(&self) -> usize
        ensures { result ≡ finite.len self.now.rows }
    {
        count(&self.rows)
    }

    /// The row at a position, from 0, in the order of table and then key, with both; it goes through
    /// those before it.
    pub fn nth(&self, n: usize) -> Option<(u16, i64, &Row)>
        ensures { option_map row_of result ≡ slice_get (finite.entries self.now.rows) n }
    {
        nth_row(&self.rows, n)
    }

    /// How many messages were applied. At its last value it stays.
    pub fn taken(&self) -> u64
        ensures { result ≡ self.now.taken }
    {
        self.taken
    }
}
