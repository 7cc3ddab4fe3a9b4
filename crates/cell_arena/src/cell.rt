//! A cell of a block.

use std::marker::{Send, Sync};

/// The bytes that a cell has room for: the most that a chunk holds (PostgreSQL's
/// `TOAST_MAX_CHUNK_SIZE`, src/include/access/heaptoast.h).
pub const CELL_BYTES: usize = 1996;

/// The cells of a block.
pub const BLOCK_CELLS: usize = 64;

/// A cell. It is free where `len` is 0, since a chunk has a byte at least.
#[derive(Drop)]
pub(crate) struct Cell {
    /// While the cell is free: the free cell of the block that is taken after it. Past the last free
    /// cell nothing is said of it, and it is never followed.
    pub(crate) next: *mut Cell,
    /// Which cell of its block it is.
    pub(crate) number: usize,
    /// How many bytes it holds.
    pub(crate) len: usize,
    /// What it holds, at the front.
    pub(crate) bytes: [u8; CELL_BYTES],
}

// A cell owns nothing through `next`: its block owns all cells.
unsafe impl Send for Cell {}

unsafe impl Sync for Cell {}
