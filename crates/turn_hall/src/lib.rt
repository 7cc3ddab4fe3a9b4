//! A hall, in which one value is shared by turns among threads.
//!
//! The value has a history, a list of entries that only grows. Whoever holds the value may add
//! one entry before giving it back. A pass is what a caller knows: a beginning of the history,
//! and which entries of it are its own.
#![tactic(auto)]

mod counted;
mod hall;
mod rule;

pub use counted::Counted;
pub use hall::{Hall, Pass};

#[cfg(test)]
mod tests;
