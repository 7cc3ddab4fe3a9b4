//! Transactions as messages.

ghost use Rattle.change_stream.specs.Streams.{message_by, message_of, messages_of, sent_row, sent_value, transaction};
ghost use Rattle.tuple_toaster.specs.Pushed.{is_among};
ghost use Rattle.std.specs.Prelude.{◌≡◌, ◌<◌, ◌^◌, ◌++◌, if◌then◌else◌, IfOk, length, map as mapped};

use crate::commits::TransactionList;
use crate::pushed::is_among;
use change_stream::Written;
use command_set::state::Change;
use list_facts::ListOf;
use std::alloc::{AllocError, Global};
use stream_wire::{Message, Sent, SentList};
use tuple_layout::{Bytes, Row};

/// Messages, in order.
pub type MessageList = ListOf<Message>;

/// A value as it is sent.
fn sent_value(value: &Option<Bytes>) -> Result<Sent, AllocError>
    ensures { IfOk result (λ sent. sent ≡ sent_value value.now) }
{
    match value {
        None => Ok(Sent::Null),
        Some(bytes) => {
            let bytes = bytes.clone()?;
            Ok(Sent::Value(bytes))
        }
    }
}

/// A column, from 1, as it is sent.
fn sent_column(kept: &[u16], column: usize, value: &Option<Bytes>) -> Result<Sent, AllocError>
    ensures { IfOk result (λ sent. sent ≡ (if is_among kept.now column then Sent.Unchanged else sent_value value.now)) }
{
    if is_among(kept, column) {
        return Ok(Sent::Unchanged);
    }
    sent_value(value)
}

/// A row's columns as they are sent: those that are kept out of line as unchanged, the others with their values.
fn sent_row(alloc: Global, kept: &[u16], row: &Row) -> Result<SentList, AllocError>
    ensures { IfOk result (λ columns. columns ≡ sent_row kept.now row.now) }
{
    let mut columns = ListOf::new(alloc);
    let values = row.as_slice();
    for (at, value) in values.iter().enumerate() {
        columns.push(sent_column(kept, at + 1, value)?)?;
    }
    Ok(columns)
}

// Keys go by reference into functions of their own, whose proofs then know their range.
fn insert_of(table: &u16, key: &i64, columns: SentList) -> Message
    ensures { result ≡ Message.Insert table.now key.now columns }
{
    Message::Insert {
        table: *table,
        key: *key,
        columns,
    }
}

fn update_of(table: &u16, key: &i64, columns: SentList) -> Message
    ensures { result ≡ Message.Update table.now key.now columns }
{
    Message::Update {
        table: *table,
        key: *key,
        columns,
    }
}

fn move_of(table: &u16, from: &i64, to: &i64, columns: SentList) -> Message
    ensures { result ≡ Message.Move table.now from.now to.now columns }
{
    Message::Move {
        table: *table,
        from: *from,
        to: *to,
        columns,
    }
}

fn delete_of(table: &u16, key: &i64) -> Message
    ensures { result ≡ Message.Delete table.now key.now }
{
    Message::Delete {
        table: *table,
        key: *key,
    }
}

/// A change as it is sent, which keeps these columns out of line.
fn message_by(alloc: Global, change: &Change, kept: &[u16]) -> Result<Message, AllocError>
    ensures { IfOk result (λ message. message ≡ message_by change.now kept.now) }
{
    match change {
        Change::Insert { table, key, row } => {
            let columns = sent_row(alloc, kept, row)?;
            Ok(insert_of(table, key, columns))
        }
        Change::Update { table, key, row } => {
            let columns = sent_row(alloc, kept, row)?;
            Ok(update_of(table, key, columns))
        }
        Change::Move {
            table,
            from,
            to,
            row,
        } => {
            let columns = sent_row(alloc, kept, row)?;
            Ok(move_of(table, from, to, columns))
        }
        Change::Remove { table, key } => Ok(delete_of(table, key)),
    }
}

/// These messages, and behind them those of these changes.
fn with_changes(
    alloc: Global,
    messages: MessageList,
    written: &[Written],
) -> Result<MessageList, AllocError>
    ensures { IfOk result (λ all. all ≡ messages ++ mapped message_of written.now) }
{
    let mut all = messages;
    for change in written {
        let message = message_by(alloc, &change.change, change.kept.as_slice())?;
        all.push(message)?;
    }
    Ok(all)
}

/// These messages, and behind them those of a transaction with this number.
fn with_transaction(
    alloc: Global,
    messages: MessageList,
    number: u32,
    written: &[Written],
) -> Result<MessageList, AllocError>
    ensures { IfOk result (λ all. all ≡ messages ++ transaction (number, written.now)) }
{
    let mut all = messages;
    all.push(Message::Begin { number })?;
    let mut all = with_changes(alloc, all, written)?;
    all.push(Message::Commit { number })?;
    Ok(all)
}

/// Transactions as messages, numbered from 1.
pub fn messages_of(alloc: Global, transactions: &TransactionList) -> Result<MessageList, AllocError>
    requires { length transactions.now < 2 ^ 32 }
    ensures { IfOk result (λ messages. messages ≡ messages_of transactions.now) }
{
    let mut messages = ListOf::new(alloc);
    let transactions = transactions.as_slice();
    for (at, written) in transactions.iter().enumerate() {
        messages = with_transaction(alloc, messages, at as u32 + 1, written.as_slice())?;
    }
    Ok(messages)
}
