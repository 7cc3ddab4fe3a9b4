//! The session shell: from a script's bytes to the printed replies of its commands.
#![tactic(auto)]

mod history;
mod hub;
mod print;
mod replay;
mod steps;

pub use hub::{Hub, KeptLine, Progress, Turn};
pub use replay::{print_hub, read_script, toast_replay};
pub use toast_io::{Bytes, BytesList};

/// What came of a call.
#[derive(Clone, Copy, Debug, PartialEq, Eq)]
pub enum Status {
    /// The source was read to its end, and all output was written.
    Done,
    /// The words are no command.
    Usage,
    /// The source's bytes are no script; `line` is a line, from 1, that cannot be read.
    BadScript { line: u32 },
    /// A read failed.
    ReadFault,
    /// A write failed.
    WriteFault,
    /// The source has more than 4,194,304 bytes.
    TooLong,
    /// There was no memory.
    Memory,
}
