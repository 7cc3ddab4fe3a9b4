//! The change stream of a journal: what each commit sends (PostgreSQL, "Logical Decoding"), and the law that
//! a replica which takes it has exactly the committed rows.
#![tactic(auto)]

pub mod laws;
mod written;

pub use written::{ColumnList, Written, WrittenList};
