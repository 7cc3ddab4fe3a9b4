//! The relation of a table's chunks: pages of slots, each slot with one piece of a value that is
//! stored out of line.
//!
//! A chunk is in the relation from its put until its page is pruned after its transaction has aborted, or
//! after the one that ended it has committed and no reader can see it any more. Its slot is then dead
//! until nothing names it, and free after that.
//! Documentation: "TOAST, Out-of-Line, On-Disk TOAST Storage"; "Routine Vacuuming, Recovering Disk
//! Space".
#![tactic(auto)]

mod chunk;
mod relation;
#[cfg(test)]
mod tests;

pub use chunk::{Chunk, ChunkView};
pub use relation::ChunkRel;
pub use slot_page::TidList;
