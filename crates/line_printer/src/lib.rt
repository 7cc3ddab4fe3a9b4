//! Printed replies go to a sink line by line, through one buffer of 65,536 bytes.
//!
//! No line is held whole, however long it is, and after the buffer is made nothing takes memory.
#![tactic(auto)]

mod line;
mod printer;
#[cfg(test)]
mod tests;

pub use printer::Printer;
pub use toast_io::{Failed, Sink};
