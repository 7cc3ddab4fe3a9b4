//! The transactions that the log tells, each with its changes, in the order of their commits: values
//! that were logged as chunks are put together again.
//!
//! Source: the PostgreSQL 17 documentation, "Logical Decoding"; and reorderbuffer.c, of which
//! `ReorderBufferToastAppendChunk` asks for the next chunk, `ReorderBufferToastReplace` puts the chunks
//! together, and `ReorderBufferToastReset` drops them.
#![tactic(auto)]

mod decoder;
mod fault;
mod gathered;
pub mod laws;
mod open;
mod row;
mod split;
mod table;
mod transaction;
mod whole;
mod worker;

pub use change_log::{Log, LogEntry};
pub use decoder::Decoder;
pub use fault::DecodeFault;
pub use split::decode_all;
pub use stream_wire::Message;
pub use transaction::{MessageList, Transaction, TransactionList};
pub use whole::decode_log;
