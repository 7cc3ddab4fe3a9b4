//! An advance of a session: what it keeps of a core, and what it does in terms of the plain store.
//!
//! Documentation: "Concurrency Control"; "Transaction Processing"; "TOAST".
#![tactic(auto)]

pub mod laws;
