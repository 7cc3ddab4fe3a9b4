//! A table's store of values out of line: a relation of chunks and the index that names them, and the
//! jobs that save a value, fetch a part of one and mark one as ended, each by steps of one event.
//!
//! Documentation: "TOAST, Out-of-Line, On-Disk TOAST Storage".
#![tactic(auto)]

mod fault;
mod fetch;
mod mark;
mod piece_job;
mod save;
mod store;
mod walk;

pub use fault::FetchFault;
pub use fetch::{Fetch, FetchStep};
pub use mark::{Mark, MarkStep};
pub use piece_job::{PieceJob, PieceStage};
pub use save::{FIRST_TOAST_REL, Save, SaveStep};
pub use slot_page::TidList;
pub use store::ToastStore;
pub use walk::{Walk, WalkStage};
