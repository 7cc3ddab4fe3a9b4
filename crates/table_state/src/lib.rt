//! A table: the versions of its rows and its values out of line, what is true of both, and what a
//! session finds in it.
//!
//! Documentation: PostgreSQL, "Database Physical Storage"; "Concurrency Control, Transaction
//! Isolation".
#![tactic(auto)]

pub mod laws;
mod table;

pub use table::{FoundRow, Table};
