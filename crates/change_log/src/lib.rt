//! The log of what transactions change, from which the change stream is decoded.
//!
//! Source: the PostgreSQL 17 documentation, "Logical Decoding".
#![tactic(auto)]

mod entry;
mod log;

pub use entry::LogEntry;
pub use log::Log;

#[cfg(test)]
mod tests;
