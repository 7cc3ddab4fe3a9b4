//! The printed lines: the reply to a command, a message of the change stream, and a row of a replica.
//!
//! Each line is added to the end of bytes, whole or not at all, and ends in a line feed. Byte strings
//! are printed as `x` and hexadecimal digits in lower case, and null as `null`.
#![tactic(auto)]

mod print;
mod put;

pub use command_set::{Bytes, Reply, Row};
pub use print::{print_message, print_reply, print_row};
pub use stream_wire::Message;

#[cfg(test)]
mod tests;
