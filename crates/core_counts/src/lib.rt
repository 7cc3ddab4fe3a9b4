//! How many turns a granted command takes at least: laws over the events of the store's core.
//!
//! Documentation: "TOAST, Out-of-Line, On-Disk TOAST Storage".
#![tactic(auto)]

pub mod laws;
