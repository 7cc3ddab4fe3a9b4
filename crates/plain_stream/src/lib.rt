//! The change stream of a journal as a program: the messages that its commits send, and the rows that are
//! committed at its end. Slow and simple, as the plain program on which it stands, and equal to the definitions.
#![tactic(auto)]

mod commits;
mod messages;
mod moments;
mod outs;
mod pushed;
mod streams;
mod writing;

pub use messages::MessageList;
pub use streams::{plain_messages, plain_rows};
