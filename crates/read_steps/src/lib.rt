//! Reads by steps: of a row, of a part of one of its columns, or of a part of a kept value. A value that
//! is stored out of line is fetched, one batch of entries or one chunk a step; a value in hand takes no step.
//!
//! Documentation: "TOAST, Out-of-Line, On-Disk TOAST Storage".
#![tactic(auto)]

mod columns;
mod job;
mod stage;
mod wanted;

pub use job::ReadJob;
pub use stage::{ReadStage, ReadStep};
pub use wanted::{Held, Wanted};
