//! The prune of a page of a relation, whatever its items are: chunks, versions of rows.
//!
//! An item is dead once no reader can see it any more, by the transactions that put it and ended it, how
//! they stand, and a horizon. A prune makes the slots of a page's dead items dead, and gathers the page's
//! dead slots for the one who takes away what names them.
//! Documentation: "Routine Vacuuming, Recovering Disk Space"; PostgreSQL's `pruneheap.c`.
#![tactic(auto)]

mod page;
mod prune;
mod stamped;
#[cfg(test)]
mod tests;

pub use prune::prune_page;
pub use stamped::Stamped;
