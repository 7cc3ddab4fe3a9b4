//! Which columns of a core's rows are out of line: those that the change stream tells.
//!
//! Documentation: "TOAST, Out-of-Line, On-Disk TOAST Storage"; "Logical Decoding".
#![tactic(auto)]

pub mod laws;
