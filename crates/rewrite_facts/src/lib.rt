//! What holds of a rewrite of a table: of the new relations beside the old ones, while versions are copied one by
//! one, and once all are.
//!
//! Documentation: "VACUUM" (FULL); "Routine Vacuuming, Recovering Disk Space"; "TOAST".
#![tactic(auto)]

pub mod laws;
mod stage;

pub use stage::{IdList, RewriteStage, RewriteStep, RowCopy};
