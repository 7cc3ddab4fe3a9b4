//! Why a replica refuses a message.

use std::alloc::AllocError;
use thiserror::Error;

/// The first fault of a message.
#[derive(Clone, Copy, Debug, PartialEq, Eq, Error)]
pub enum ApplyFault {
    /// There is no row at the key that is updated, moved or deleted.
    #[error("there is no row at the key {key}")]
    NoSuchKey { key: i64 },
    /// There is a row at the key that is inserted or moved to.
    #[error("there is a row at the key {key}")]
    KeyThere { key: i64 },
    /// The message has another count of columns than the row.
    #[error("the message has {got} columns and the row has {wanted}")]
    WrongColumns { got: u16, wanted: u16 },
    /// A column of a new row is sent as unchanged; columns count from 1.
    #[error("column {column} of a new row is sent as unchanged")]
    NoOldValue { column: u16 },
    /// No memory was left.
    #[error("out of memory")]
    Memory,
}

impl From<AllocError> for ApplyFault {
    ghost use Rattle.std.specs.Prelude.{◌≡◌};
    ghost use Rattle.replica_map.specs.declared.fault.ApplyFault.TheVariants.{Memory};

    ghost from_gives = { λ _ fault. fault ≡ Memory };

    fn from(_: AllocError) -> Self {
        ApplyFault::Memory
    }
}
