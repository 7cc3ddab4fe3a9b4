//! The plain store as a program: it copies whole maps of rows and executes each command at one moment. It is
//! slow and simple, and its contracts say that it computes the definitions by which the store is measured.
#![tactic(auto)]

pub mod answers;
pub mod changes;
mod effects;
pub mod fault;
mod measures;
mod obstacles;
mod refusals;
mod replies;

pub use answers::plain_answer;
pub use effects::fail;
pub use fault::PlainFault;
