//! The words of the program's command line, and the command that they are.
#![tactic(auto)]

pub mod laws;
mod reading;
#[cfg(test)]
mod tests;

pub use reading::read_words;
pub use toast_io::{Bytes, BytesList};

/// A command, with what its words say.
#[derive(Clone, Copy, Debug, PartialEq, Eq)]
pub enum CommandWords {
    /// `replay`: a script is run by its schedule.
    Replay,
    /// `run`: the sessions of a script take their turns in threads.
    Run,
    /// `make N`: the made script for N keys, from 1 to 1,000, is written.
    Make(u32),
}
