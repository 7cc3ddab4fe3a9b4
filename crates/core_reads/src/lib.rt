//! What reads and handles keep of the store's core, and do in terms of the plain store: laws over the lines
//! of its table of events.
//!
//! Documentation: "Concurrency Control"; "TOAST".
#![tactic(auto)]

pub mod laws;
