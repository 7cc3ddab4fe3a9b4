//! The moments of writes.
//!
//! Documentation: "Concurrency Control, Transaction Isolation"; "TOAST".
#![tactic(auto)]

mod begin;
mod claims;
mod stop;
mod writes;

pub use writes::{delete, insert, rekey, update};
