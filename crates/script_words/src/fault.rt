//! Why a line of a script is bad.

ghost use Rattle.std.specs.Prelude.{◌≡◌};
ghost use Rattle.script_words.specs.declared.fault.Refusal.TheVariants.{Fault, Memory};

use std::alloc::{AllocError, AllocFailed};
use thiserror::Error;

/// Why a line is bad. Where several causes apply, the first of them that stands here is told, with two
/// exceptions: of bad words the leftmost is told, whatever its cause, and the number of words of an `insert` is
/// judged after its table, so that a bad table is told before a wrong number. An `insert` with no further word
/// has a wrong number.
#[derive(Clone, Copy, Debug, PartialEq, Eq, Error)]
pub enum LineFault {
    /// The first word begins no line.
    #[error("no line begins with this word")]
    UnknownWord,
    /// A line of a later part has stood before, this is a second `ids` line, or the command
    /// stands before the first session.
    #[error("the line is out of place")]
    OutOfPlace,
    /// There are too few words, or too many.
    #[error("the number of words is wrong")]
    WordCount,
    /// A number is misspelled or out of its range.
    #[error("a number is misspelled or out of range")]
    BadNumber,
    /// A name is misspelled, or names nothing that is there, or a column that is set already.
    #[error("a name is misspelled or unknown")]
    BadName,
    /// A value is misspelled or too long.
    #[error("a value is misspelled or too long")]
    BadValue,
    /// With this line there are more than 16 tables, 64 sessions, 10,000 commands, 67,108,864 bytes of
    /// values or 10,000,000 turns.
    #[error("a limit is passed")]
    TooMany,
}

/// Why a line was not read.
#[derive(Clone, Copy, Debug, PartialEq, Eq)]
pub enum Refusal {
    /// The line is bad.
    Fault(LineFault),
    /// There is no memory.
    Memory,
}

impl From<LineFault> for Refusal {
    ghost from_gives = { λ fault refusal. refusal ≡ Fault fault };

    fn from(fault: LineFault) -> Self {
        Refusal::Fault(fault)
    }
}

impl From<AllocError> for Refusal {
    ghost from_gives = { λ _ refusal. refusal ≡ Memory };

    fn from(_: AllocError) -> Self {
        Refusal::Memory
    }
}

impl<T: Drop> From<AllocFailed<T>> for Refusal {
    ghost from_gives = { λ _ refusal. refusal ≡ Memory };

    fn from(_: AllocFailed<T>) -> Self {
        Refusal::Memory
    }
}
