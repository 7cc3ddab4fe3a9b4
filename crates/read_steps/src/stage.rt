//! How far a read is, and what its steps answer.

use command_set::Reply;
use slice_fetch::Span;
use toast_store::Fetch;
use tuple_layout::{Bytes, Cell, Stored};

/// How far a read is: what its next step does.
#[derive(Debug, Drop)]
pub enum ReadStage {
    /// It begins to fetch the first value of the row that is out of line, or answers the row where there is
    /// none.
    Row {
        stored: Stored,
    },
    /// It goes on fetching the value of the column at this place, from 0.
    RowValue {
        stored: Stored,
        at: usize,
        fetch: Fetch,
    },
    /// It begins to fetch a part of a column's value, or answers that where it takes no chunk.
    Part {
        cell: Cell,
        span: Span,
    },
    /// It goes on fetching that part.
    PartValue {
        fetch: Fetch,
    },
    /// It answers these bytes.
    Ready {
        bytes: Bytes,
    },
    /// Nothing: the reply was given.
    Over,
}

/// What a step of a read answers.
#[derive(Debug, Drop)]
pub enum ReadStep {
    /// Steps are left.
    More,
    /// The read is over, and this is its reply.
    Done(Reply),
}
