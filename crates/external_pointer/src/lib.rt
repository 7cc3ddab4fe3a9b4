//! The pointer that a row holds in place of a value stored out of line, and its 18 bytes.
//!
//! Source: the PostgreSQL 17 documentation, "Database Physical Storage", "TOAST", and the structure
//! `varatt_external`.
#![tactic(auto)]

mod external;
mod fault;
mod read;
mod write;

pub use external::Pointer;
pub use fault::PointerFault;
pub use read::read_pointer;
pub use write::write_pointer;

#[cfg(test)]
mod tests;
