//! Where a vacuum stands, and what its steps answer.

use chunk_index::Entry;

/// Where a vacuum stands.
#[derive(Clone, Copy, Debug, PartialEq, Eq)]
pub enum Stage {
    /// This page is the next of the first round: its dead items go, and its dead slots are gathered.
    Pruning { page: u64 },
    /// The leaf with this bound, or the first, is the next to lose the entries of gathered slots.
    Sweeping { from: Option<Entry> },
    /// This page is the next of the last round: its gathered slots, which begin at a place of the list,
    /// are freed.
    Reaping { page: u64, at: usize },
    /// There is nothing left to do.
    Ended,
}

/// What a step of a vacuum answers.
#[derive(Clone, Copy, Debug, PartialEq, Eq)]
pub enum VacuumStep {
    /// It has made a page or a leaf, and goes on.
    More,
    /// The leaf that is next is pinned, by this session and perhaps by greater ones; nothing has changed.
    Pinned { session: u16 },
    /// The vacuum has ended, and has made so many slots dead.
    Done { removed: u64 },
}
