//! The replica: the rows of the tables by their keys, as the change stream tells them.
#![tactic(auto)]

mod fault;
mod merge;
mod replica;
mod rows;

pub use fault::ApplyFault;
pub use replica::Replica;
pub use stream_wire::{Message, Sent, SentList};
pub use tuple_layout::{Bytes, Row};
