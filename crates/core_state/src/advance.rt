//! What an advance of a session comes to.

use command_set::Reply;

/// What an advance of a session has come to.
#[derive(Debug, Drop, PartialEq)]
pub enum Advance {
    /// Nothing was under way.
    Idle,
    /// The command goes on.
    More,
    /// The command is over.
    Done(Reply),
}

/// What a session has under way.
#[derive(Clone, Copy, Debug, PartialEq, Eq)]
pub enum Under {
    Nothing,
    Data,
    Upkeep,
}
