//! What the change stream says.

use list_facts::ListOf;
use toast_io::Bytes;

/// What is sent of a column.
#[derive(Debug, Drop, PartialEq)]
pub enum Sent {
    /// The column is null.
    Null,
    /// The column keeps the value that it had, which was stored out of line and was not fetched.
    Unchanged,
    /// The column's value, of at most 65,536 bytes.
    Value(Bytes),
}

/// What is sent of a row's columns, in order.
pub type SentList = ListOf<Sent>;

/// One message of the change stream: a transaction is its `Begin`, its changes and its `Commit`.
///
/// Transactions count from 1. Tables are 1 to 16, and a row has 1 to 8 columns beside its key.
#[derive(Debug, Drop, PartialEq)]
pub enum Message {
    /// The transaction of this number begins.
    Begin {
        number: u32,
    },
    /// A row is put at a key that is not there.
    Insert {
        table: u16,
        key: i64,
        columns: SentList,
    },
    /// The row at a key gets these columns.
    Update {
        table: u16,
        key: i64,
        columns: SentList,
    },
    /// The row at a key goes to another key, with these columns.
    Move {
        table: u16,
        from: i64,
        to: i64,
        columns: SentList,
    },
    /// The row at a key is taken away.
    Delete {
        table: u16,
        key: i64,
    },
    /// The transaction of this number ends.
    Commit {
        number: u32,
    },
}
