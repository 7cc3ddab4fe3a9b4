//! What a read is asked for.

use slice_fetch::Span;
use tuple_layout::{Bytes, Pointer};

/// What is wanted of a stored row.
#[derive(Clone, Copy, Debug, PartialEq, Eq)]
pub enum Wanted {
    /// Each column.
    Row,
    /// A part of one column, which is numbered from 1.
    Part { column: u16, span: Span },
}

/// A value that is kept beyond the row that it stood in.
#[derive(Debug, Drop, PartialEq)]
pub enum Held {
    /// The value's bytes.
    Inline(Bytes),
    /// The pointer to a value that is stored out of line.
    Out(Pointer),
}
