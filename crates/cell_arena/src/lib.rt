//! Cells for chunks: blocks of 64 cells of 1,996 bytes, whose free cells are linked through themselves.
#![tactic(auto)]

mod arena;
mod block;
mod cell;
mod entry;
pub mod laws;
mod reach;
mod table;

pub use arena::{CellArena, CellId};
pub use cell::{BLOCK_CELLS, CELL_BYTES};

#[cfg(test)]
mod tests;
