//! The granted moment of a write: what it keeps of a core, and what it does in terms of the plain store.
//!
//! Documentation: "Concurrency Control"; "TOAST".
#![tactic(auto)]

pub mod laws;
