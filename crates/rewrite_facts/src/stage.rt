//! How far a rewrite is, and what its steps answer.

use list_facts::ListOf;
use toast_store::{Fetch, PieceJob};
use tuple_layout::CellList;
use tuple_toaster::OutColumns;
use xact_status::Stamp;

/// For each column of a row the id of its value, if the value is out of line.
pub type IdList = ListOf<Option<u32>>;

/// A version that is being copied.
#[derive(Debug, Drop)]
pub struct RowCopy {
    pub key: i64,
    /// Who put and ended the old version, and so the new one.
    pub stamp: Stamp,
    /// The ids that the old version's values have.
    pub ids: IdList,
    /// The cells, as far as the copy is made.
    pub cells: CellList,
}

/// How far a rewrite is: what its next step does.
#[derive(Debug, Drop)]
pub enum RewriteStage {
    /// It goes on to the next version that is copied.
    Visiting,
    /// It reads the first value of the copy that is still out of line in the old relation; with none left, it chooses
    /// the columns that go out.
    Filling {
        copy: RowCopy,
    },
    /// It goes on reading the value of the column at this place.
    Reading {
        copy: RowCopy,
        at: usize,
        fetch: Fetch,
    },
    /// It puts the value of the column at this place of those that go out, unless the new relation has it; with none
    /// left, it puts the version.
    Placing {
        copy: RowCopy,
        columns: OutColumns,
        at: usize,
    },
    /// It goes on putting the pieces of the value of that column, which is taken out of the copy.
    Laying {
        copy: RowCopy,
        columns: OutColumns,
        at: usize,
        pieces: PieceJob,
    },
    /// Nothing: each version that is copied has its copy.
    Ready,
}

/// What a step of a rewrite answers.
#[derive(Clone, Copy, Debug, PartialEq, Eq)]
pub enum RewriteStep {
    /// Steps are left.
    More,
    /// The new relations may take the place of the old ones.
    Ready,
}
