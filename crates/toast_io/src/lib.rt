//! Bytes in and out: traits for what gives and what takes bytes, with causes for their failures,
//! implementations in memory and over std's readers and writers, and reading and writing whole; and
//! what may hold a thread before its turn.
#![tactic(auto)]

use list_facts::ListOf;

mod fault;
mod gate;
mod mem_sink;
mod mem_source;
mod sink;
mod source;
mod std_sink;
mod std_source;
#[cfg(test)]
mod tests;
mod whole;

pub use fault::{Failed, ReadAllFault};
pub use gate::{Gate, OpenGate};
pub use mem_sink::MemSink;
pub use mem_source::MemSource;
pub use sink::Sink;
pub use source::Source;
pub use std_sink::StdSink;
pub use std_source::StdSource;
pub use whole::{read_all, write_all};

/// A list of bytes.
pub type Bytes = ListOf<u8>;

/// A list of lists of bytes, as the words of a command line.
pub type BytesList = ListOf<Bytes>;

/// A list of the numbers of calls.
pub type CallList = ListOf<u64>;
