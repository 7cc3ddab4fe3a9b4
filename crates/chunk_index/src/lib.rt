//! The index of a table's chunks: the entries in their order, by value id, number and tid, and the pins
//! that keep a leaf of it as it is for a reader.
//!
//! A reader takes the entries that it wants leaf by leaf, and has the leaf pinned until it has read them.
//! Vacuum sweeps leaf by leaf, and waits for a leaf that is pinned.
//! Documentation: "TOAST, Out-of-Line, On-Disk TOAST Storage"; "B-Tree Indexes"; "Index Access Method
//! Interface Definition, Index Locking Considerations".
#![tactic(auto)]

mod entry;
mod index;
mod leaves;
mod node;
mod pins;
mod wanted;

pub use entry::{Batch, Entry, EntryList, LEAF_ENTRIES, LOWER_ENTRIES, Pin, Swept};
pub use index::ChunkIndex;
pub use slot_page::TidList;
