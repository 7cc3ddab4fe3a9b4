//! How many draws of ids a journal tells of, beside the core that made it.
//!
//! Documentation: "TOAST, Out-of-Line, On-Disk TOAST Storage".
#![tactic(auto)]

pub mod laws;
