//! How far a write is, and what its steps answer.

use list_facts::ListOf;
use slot_page::Tid;
use toast_store::{Mark, Save};
use tuple_layout::{Pointer, Stored};
use tuple_toaster::OutColumns;

/// The version of a row that a write ends.
#[derive(Debug, Drop)]
pub struct OldRow {
    /// Where it stands.
    pub tid: Tid,
    /// The row, as its tuple holds it.
    pub stored: Stored,
}

/// Whose a write is: of which table, for which session, in the transaction with which xid.
#[derive(Clone, Copy, Debug, PartialEq, Eq)]
pub struct Owner {
    pub table: u16,
    pub session: u16,
    pub xid: u64,
}

/// A list of pointers.
pub type PointerList = ListOf<Pointer>;

/// How far a write is: what its next step does.
#[derive(Debug, Drop)]
pub enum WriteStage {
    /// It goes on saving the value of the column at this place of the plan, which is taken out of the new row.
    Saving {
        old: Option<OldRow>,
        new: Stored,
        plan: OutColumns,
        at: usize,
        save: Save,
    },
    /// It puts the new version, ends the old one, if there is one, and logs the change.
    Put {
        old: Option<OldRow>,
        new: Stored,
        plan: OutColumns,
    },
    /// It ends the old version and logs that the row is taken away.
    Remove {
        old: OldRow,
    },
    /// It goes on marking the pointer at this place of those that the new row does not keep.
    Marking {
        dropped: PointerList,
        at: usize,
        mark: Mark,
    },
    /// Nothing: the write is over.
    Over,
}

/// What a step of a write answers.
#[derive(Clone, Copy, Debug, PartialEq, Eq)]
pub enum WriteStep {
    /// Steps are left.
    More,
    /// The change is made, and what it drops is marked.
    Done,
}
