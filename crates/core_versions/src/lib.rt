//! The version step of a write: that every core is sound after it, what it does in terms of the plain
//! store, and that fewer steps are left. Laws over the definitions of [`core_state`].
//!
//! Documentation: "Concurrency Control"; "TOAST".
#![tactic(auto)]

pub mod laws;
