//! The rewrite of a table by steps of one event: each version that is live, or that a registered snapshot sees, is
//! copied into new relations, with the values that go out of line chosen anew; then the new relations take the place
//! of the old ones.
//!
//! Documentation: "VACUUM" (FULL); "Routine Vacuuming, Recovering Disk Space"; "TOAST".
#![tactic(auto)]

mod columns;
mod copies;
mod reads;
mod rewrite;
mod visits;

pub use rewrite::Rewrite;
pub use rewrite_facts::RewriteStep;
