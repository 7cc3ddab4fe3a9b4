//! The place of a block in the arena.

use crate::block::Block;

/// The place of a block: cell number 64 times the place, plus `i`, is cell `i` of the block there.
#[derive(Drop)]
pub(crate) struct Entry {
    /// The block, where there is one.
    pub(crate) block: Option<Block>,
    /// While the block has a free cell: the place of the block that is filled after it. Nothing is
    /// said of it otherwise, nor at the last such block.
    pub(crate) next: usize,
}

/// How far a sweep has come: the first block with a free cell, and how many cells are free.
#[derive(Drop)]
pub(crate) struct Swept {
    pub(crate) first: usize,
    pub(crate) spare: usize,
}
