//! What the store's core keeps, and the code of its lines: each call is pinned by what it makes of all the parts,
//! whatever else is true of them.
//!
//! Documentation: "Concurrency Control"; "Transaction Processing"; "TOAST".
#![tactic(auto)]

pub mod copies;
pub mod ends;
pub mod handles;
mod moments;
mod parts;
pub mod rows;
pub mod steps;
pub mod takes;

pub use parts::{CoreParts, Setup};
