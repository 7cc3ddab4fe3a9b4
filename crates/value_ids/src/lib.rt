//! Ids of values: which is drawn next, and which are in hand.
//!
//! An id is drawn for a table, and is then in hand until its session gives it up. While it is in hand it is
//! passed over for that table, whatever the table's index has; after that it is passed over as long as an
//! entry of it names a chunk.
//! Documentation: "TOAST, Out-of-Line, On-Disk TOAST Storage"; "Object Identifier Types".
#![tactic(auto)]

mod fault;
mod pool;
#[cfg(test)]
mod tests;

pub use fault::DrawFault;
pub use pool::{IdPool, IdTest, InHand};
