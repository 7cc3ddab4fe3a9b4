//! A transaction that has not ended.

ghost use Rattle.std.specs.Prelude.{◌≡◌, ◌<◌, ◌++◌, ◌∷◌, [], List, true, false, IfOk, OnErr, OnOk, Some, vec_capacity, vec_len};
ghost use Rattle.std.specs.List.{All};
ghost use Rattle.stream_wire.specs.Spelling.{IsInRange};
ghost use Rattle.change_log.specs.declared.entry.LogEntry.{LogEntry};
ghost use Rattle.decode_stream.specs.Decoding.{change_of, fault_of, is_change, is_end};
ghost use Rattle.decode_stream.specs.States.{Fits, IsOpen, found_in};
ghost use Rattle.decode_stream.specs.Steps.{Tells, update_message};

use crate::fault::DecodeFault;
use crate::gathered::{ValueName, Values, gather};
use crate::row::columns_of;
use crate::transaction::MessageList;
use change_log::LogEntry;
use indexmap::IndexMap;
use list_facts::ListOf;
use std::alloc::Global;
use std::marker::Model;
use stream_wire::{Message, SentList};

/// A transaction that has not ended: its changes so far, and the values gathered since the last.
#[derive(Drop)]
pub(crate) struct Open {
    changes: Vec<Message>,
    values: Values,
}

impl Model for Open {
    ghost use Rattle.std.specs.List.{All};
    ghost use Rattle.stream_wire.specs.Spelling.{IsInRange};
    ghost use Rattle.decode_stream.specs.States.{OpenState};

    ghost Value = { OpenState };

    ghost view = { λ transaction. record { changes = transaction.changes.items; values = transaction.values.entries } };

    ghost invariant = { λ transaction. All IsInRange transaction.changes.items };
}

// Keys go by reference into functions of their own, whose proofs then know their range.
fn insert_of(table: u16, key: &i64, columns: SentList) -> Message
    ensures { result ≡ Message.Insert table key.now columns }
{
    Message::Insert {
        table,
        key: *key,
        columns,
    }
}

fn update_of(table: u16, from: &i64, to: &i64, columns: SentList) -> Message
    ensures { result ≡ update_message table from.now to.now columns }
{
    if *from == *to {
        Message::Update {
            table,
            key: *from,
            columns,
        }
    } else {
        Message::Move {
            table,
            from: *from,
            to: *to,
            columns,
        }
    }
}

fn delete_of(table: u16, key: &i64) -> Message
    ensures { result ≡ Message.Delete table key.now }
{
    Message::Delete { table, key: *key }
}

/// The change that is sent of an entry, by the values that were gathered, which it takes. Where it is
/// refused or there is no memory, they stay.
fn message_of(alloc: Global, values: &mut Values, e: &LogEntry) -> Result<Message, DecodeFault>
    requires row { is_change e.now ≡ true }
    requires fits { Fits (found_in values.old.entries) e.now }
    ensures ok { IfOk result (λ change. change_of (found_in values.old.entries) e.now ≡ Some change) }
    ensures range { IfOk result IsInRange }
    ensures fault { Tells (fault_of (found_in values.old.entries) e.now) result }
    ensures err { OnErr result (values.new.entries ≡ values.old.entries) }
{
    match e {
        LogEntry::Insert {
            xid: _,
            table,
            key,
            cells,
        } => {
            let columns = columns_of(alloc, values, *table, cells.as_slice())?;
            Ok(insert_of(*table, key, columns))
        }
        LogEntry::Update {
            xid: _,
            table,
            from,
            to,
            cells,
        } => {
            let columns = columns_of(alloc, values, *table, cells.as_slice())?;
            Ok(update_of(*table, from, to, columns))
        }
        LogEntry::Delete { xid: _, table, key } => Ok(delete_of(*table, key)),
        _ => unreachable!(),
    }
}

/// Adds a change for which there is room.
fn push_kept(changes: &mut Vec<Message>, change: Message)
    requires { vec_len changes.old < vec_capacity changes.old }
    ensures { changes.new.items ≡ changes.old.items ++ change ∷ [] }
{
    match changes.push(change) {
        Ok(()) => {}
        Err(_) => unreachable!(),
    }
}

impl Open {
    /// A transaction of which nothing is known, which takes no memory.
    pub(crate) fn new(alloc: Global) -> Open
        ensures { result ≡ record { changes = []; values = [] } }
    {
        Open {
            changes: Vec::new(alloc),
            values: IndexMap::new(alloc),
        }
    }

    /// Adds the change that an entry makes, and drops the values that were gathered for it.
    fn change(&mut self, alloc: Global, e: &LogEntry) -> Result<(), DecodeFault>
        requires row { is_change e.now ≡ true }
        requires fits { Fits (found_in self.old.values) e.now }
        ensures ok { OnOk result ((own : List LogEntry) → IsOpen self.old own → IsOpen self.new (own ++ e.now ∷ [])) }
        ensures fault { Tells (fault_of (found_in self.old.values) e.now) result }
        ensures err { OnErr result (self.new ≡ self.old) }
    {
        self.changes.reserve(1)?;
        let change = message_of(alloc, &mut self.values, e)?;
        push_kept(&mut self.changes, change);
        self.values = IndexMap::new(alloc);
        Ok(())
    }

    /// Takes in an entry of the transaction that does not end it. Where it is refused or there is no
    /// memory, all is as before.
    pub(crate) fn take_in(&mut self, alloc: Global, e: &LogEntry) -> Result<(), DecodeFault>
        requires inside { is_end e.now ≡ false }
        requires fits { Fits (found_in self.old.values) e.now }
        ensures ok { OnOk result ((own : List LogEntry) → IsOpen self.old own → IsOpen self.new (own ++ e.now ∷ [])) }
        ensures fault { Tells (fault_of (found_in self.old.values) e.now) result }
        ensures err { OnErr result (self.new ≡ self.old) }
    {
        if let LogEntry::Chunk {
            xid: _,
            table,
            value_id,
            seq,
            bytes,
        } = e
        {
            let name = ValueName {
                table: *table,
                value_id: *value_id,
            };
            gather(alloc, &mut self.values, name, *seq, bytes.as_slice())?;
            return Ok(());
        }
        self.change(alloc, e)
    }

    /// Its changes.
    pub(crate) fn into_changes(self) -> MessageList
        ensures changes { result ≡ self.changes }
        ensures range { All IsInRange result }
    {
        ListOf::from_vec(self.changes)
    }
}
