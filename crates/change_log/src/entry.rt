//! What the log holds.

use tuple_layout::{Bytes, CellList};

/// One entry of the log, made by the transaction with this xid.
///
/// Tables count from 1. A row's cells are one for each byte-string column, in order; where a value
/// is out of line, its chunks stand before the row's entry.
#[derive(Debug, Drop, PartialEq)]
pub enum LogEntry {
    /// A chunk of a value that is stored out of line, by the value's id and the chunk's place in it,
    /// counted from 0.
    Chunk {
        xid: u64,
        table: u16,
        value_id: u32,
        seq: u32,
        bytes: Bytes,
    },
    /// A row is put at a key that is not there.
    Insert {
        xid: u64,
        table: u16,
        key: i64,
        cells: CellList,
    },
    /// The row at a key gets these cells, and goes to another key if the two differ.
    Update {
        xid: u64,
        table: u16,
        from: i64,
        to: i64,
        cells: CellList,
    },
    /// The row at a key is taken away.
    Delete {
        xid: u64,
        table: u16,
        key: i64,
    },
    /// The transaction commits.
    Commit {
        xid: u64,
    },
    /// The transaction is rolled back.
    Abort {
        xid: u64,
    },
}
