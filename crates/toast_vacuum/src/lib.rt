//! The vacuum of a relation: it makes the slots of dead items dead, takes away what names them, and then
//! frees them, by steps of one page or one leaf each.
//!
//! The machine is the same for a table's chunks and for its rows; what differs stands behind
//! [`Sweepable`]. Between two steps others may go on: the leaves that readers have pinned are waited for.
//! Documentation: "Routine Vacuuming, Recovering Disk Space"; "Index Access Method Interface Definition,
//! Index Locking Considerations".
#![tactic(auto)]

pub mod laws;
mod stage;
mod sweepable;
mod targets;
mod vacuum;

pub use slot_page::TidList;
pub use stage::{Stage, VacuumStep};
pub use sweepable::Sweepable;
pub use vacuum::Vacuum;
