//! A transaction of the change stream.

ghost use Rattle.std.specs.Prelude.{◌≡◌, ◌≢◌, ◌≤◌, []};
ghost use Rattle.std.specs.List.{All};
ghost use Rattle.stream_wire.specs.Spelling.{IsInRange};

use list_facts::ListOf;
use std::marker::Model;
use stream_wire::Message;

/// Messages, in order.
pub type MessageList = ListOf<Message>;

/// Transactions, in the order of their commits.
pub type TransactionList = ListOf<Transaction>;

/// A committed transaction with a change: its number in the stream, from 1, and its changes, without
/// the messages of its begin and its commit.
///
/// Only decoding makes one.
#[derive(Debug, Drop)]
pub struct Transaction {
    number: u32,
    changes: MessageList,
}

impl Model for Transaction {
    ghost use Rattle.std.specs.Prelude.{◌≡◌, ◌≢◌, ◌≤◌, []};
    ghost use Rattle.std.specs.List.{All};
    ghost use Rattle.stream_wire.specs.Spelling.{IsInRange};
    ghost use Rattle.decode_stream.specs.Decoding.{TransactionState};

    ghost Value = { TransactionState };

    ghost view = { λ sent. record { number = sent.number; changes = sent.changes } };

    ghost invariant = { λ sent. (1 ≤ sent.number) × (sent.changes ≢ []) × All IsInRange sent.changes };
}

impl Transaction {
    /// A transaction of this number with these changes.
    pub(crate) fn new(number: u32, changes: MessageList) -> Transaction
        requires number { 1 ≤ number }
        requires some { changes ≢ [] }
        requires range { All IsInRange changes }
        ensures number { result.number ≡ number }
        ensures changes { result.changes ≡ changes }
    {
        Transaction { number, changes }
    }

    /// Its number in the stream, from 1.
    pub fn number(&self) -> u32
        ensures number { result ≡ self.now.number }
        ensures range { 1 ≤ result }
    {
        self.number
    }

    /// Its changes, of which there is one at least: each within the ranges that a message has.
    pub fn changes(&self) -> &[Message]
        ensures changes { result.now ≡ self.now.changes }
        ensures some { result.now ≢ [] }
        ensures range { All IsInRange result.now }
    {
        self.changes.as_slice()
    }
}
