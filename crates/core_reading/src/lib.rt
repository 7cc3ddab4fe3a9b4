//! The moments of reads and of handles.
//!
//! Documentation: "Concurrency Control, Transaction Isolation"; "TOAST".
#![tactic(auto)]

mod handles;
mod moments;
mod names;
mod reads;
mod spans;

pub use handles::{close, fetch, open};
pub use reads::{get, part};
