//! What the store's core holds, the lines of its table of events, what is true of every core, and how it
//! stands for the plain store's state: definitions, and laws over them.
//!
//! Documentation: "Concurrency Control"; "Transaction Processing"; "TOAST".
#![tactic(auto)]

pub mod advance;
pub mod laws;
pub mod seat;
