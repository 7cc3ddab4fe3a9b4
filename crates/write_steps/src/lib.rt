//! Writes by steps: of a new row, of a changed one, or of one that is taken away. Each value that goes out
//! of line is saved, one draw, put or entry a step; then one step makes the version and logs the change; then
//! each pointer that the row no longer has is marked, one batch or one entry a step.
//!
//! Documentation: "TOAST, Out-of-Line, On-Disk TOAST Storage"; "Concurrency Control".
#![tactic(auto)]

mod dropped;
mod job;
mod next;
mod stage;
mod version;

pub use job::WriteJob;
pub use stage::{OldRow, Owner, PointerList, WriteStage, WriteStep};
