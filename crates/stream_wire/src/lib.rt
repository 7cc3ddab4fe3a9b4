//! The messages of the change stream, as bytes: their one spelling, written and read.
//!
//! Source: the PostgreSQL 17 documentation, "Logical Replication Message Formats", whose letters the
//! messages and the columns have.
#![tactic(auto)]

mod law;
mod message;
mod read;
mod write;

pub use law::one_spelling;
pub use message::{Message, Sent, SentList};
pub use read::read_message;
pub use toast_io::Bytes;
pub use write::write_message;
