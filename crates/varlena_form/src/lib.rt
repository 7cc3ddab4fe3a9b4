//! The forms of a varlena datum: how PostgreSQL stores a value of variable length, by its header.
//!
//! Source: the PostgreSQL 17 documentation, "Database Physical Storage", "TOAST".
#![tactic(auto)]

mod datum;
mod fault;
mod parse;
mod write;

pub use datum::Form;
pub use fault::FormFault;
pub use parse::parse_form;
pub use write::{write_plain, write_short};

#[cfg(test)]
mod tests;
