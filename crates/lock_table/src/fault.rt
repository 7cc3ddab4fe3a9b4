//! Why a lock is not granted.

use std::alloc::AllocError;
use thiserror::Error;

/// Why a lock on a table is not granted.
#[derive(Clone, Copy, Debug, PartialEq, Eq, Error)]
pub enum LockFault {
    /// This session is in the way, and no session with a lower number is.
    #[error("session {session} is in the way")]
    Locked { session: u16 },
    /// No memory was left.
    #[error("out of memory")]
    Memory,
}

/// Why a lock on a row is not granted.
#[derive(Clone, Copy, Debug, PartialEq, Eq, Error)]
pub enum ClaimFault {
    /// This session has claimed the row.
    #[error("session {session} has claimed the row")]
    Busy { session: u16 },
    /// No memory was left.
    #[error("out of memory")]
    Memory,
}

impl From<AllocError> for LockFault {
    ghost use Rattle.std.specs.Prelude.{◌≡◌};
    ghost use Rattle.lock_table.specs.declared.fault.LockFault.TheVariants.{Memory};

    ghost from_gives = { λ _ fault. fault ≡ Memory };

    fn from(_: AllocError) -> Self {
        LockFault::Memory
    }
}

impl From<AllocError> for ClaimFault {
    ghost use Rattle.std.specs.Prelude.{◌≡◌};
    ghost use Rattle.lock_table.specs.declared.fault.ClaimFault.TheVariants.{Memory};

    ghost from_gives = { λ _ fault. fault ≡ Memory };

    fn from(_: AllocError) -> Self {
        ClaimFault::Memory
    }
}
