//! The steps of a write but its version step: what is saved out of line, and the marks of what is dropped.
//! Laws over `core_state`'s definitions.
//!
//! Documentation: "TOAST, Out-of-Line, On-Disk TOAST Storage"; "Concurrency Control".
#![tactic(auto)]

pub mod laws;
