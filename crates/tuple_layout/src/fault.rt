//! Why bytes are no tuple.

ghost use Rattle.std.specs.Prelude.{◌≡◌};

use std::alloc::AllocError;
use thiserror::Error;

/// The first check that fails: the header's numbers, the columns from left to right, what follows
/// the last one, and then the rest of the header.
#[derive(Clone, Copy, Debug, PartialEq, Eq, Error)]
pub enum TupleFault {
    /// The bytes end before the header does.
    #[error("the bytes end before a header of {need} bytes does")]
    Short {
        /// How many bytes the header takes, as far as the ones that are there tell.
        need: usize,
    },
    /// The header is not the one that the schema and the columns ask for.
    #[error("the header is not the one that the columns ask for")]
    BadHeader,
    /// A column holds a compressed value.
    #[error("column {column} holds a compressed value")]
    Compressed {
        /// The column, from 1.
        column: u16,
    },
    /// What stands at a column is not the one layout of a cell.
    #[error("what stands at column {column} is not the one layout of a cell")]
    BadColumn {
        /// The column, from 1; 0 is the key.
        column: u16,
    },
    /// Bytes follow the last column.
    #[error("bytes follow the last column from byte {at} on")]
    Rest {
        /// Where they begin, in bytes from the start of the tuple.
        at: usize,
    },
    /// No memory was left.
    #[error("out of memory")]
    Memory,
}

impl From<AllocError> for TupleFault {
    ghost use Rattle.tuple_layout.specs.declared.fault.TupleFault.TheVariants.{Memory};

    ghost from_gives = { λ _ fault. fault ≡ Memory };

    fn from(_: AllocError) -> Self {
        TupleFault::Memory
    }
}
