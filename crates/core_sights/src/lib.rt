//! What a session's look-ups find at its command's moment: they change nothing, and come before anything is taken.
//!
//! Documentation: "Concurrency Control, Transaction Isolation".
#![tactic(auto)]

mod sights;

pub use sights::{has_changed, is_taken, row_seen};
