//! How many ids are in use for a table, and how many draws its writes still owe: what each event of a session
//! makes of these two numbers.
//!
//! Documentation: "TOAST, Out-of-Line, On-Disk TOAST Storage".
#![tactic(auto)]

pub mod laws;
