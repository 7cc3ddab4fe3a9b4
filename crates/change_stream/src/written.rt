//! Changes as the stream sends them.

use command_set::state::Change;
use list_facts::ListOf;

/// Columns of a row, from 1.
pub type ColumnList = ListOf<u16>;

/// A change of a transaction, and what of its row is stored out of line.
#[derive(Drop)]
pub struct Written {
    pub change: Change,
    /// The columns that it leaves out of line as they were: they are sent as unchanged.
    pub kept: ColumnList,
    /// The columns that are out of line after it, those that it keeps among them.
    pub out: ColumnList,
}

/// The changes of a transaction, in order.
pub type WrittenList = ListOf<Written>;
