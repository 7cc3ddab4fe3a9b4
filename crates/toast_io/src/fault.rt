// Why a call on a source or a sink gives up.
ghost use Rattle.std.specs.Prelude.{◌≡◌};
ghost use Rattle.toast_io.specs.declared.fault.ReadAllFault.TheVariants.{Memory};

use std::alloc::AllocError;
use thiserror::Error;

/// A call of a source or of a sink failed. Its count of faults has risen.
#[derive(Clone, Copy, Debug, PartialEq, Eq, Error)]
#[error("the read or the write failed")]
pub struct Failed;

/// Why `read_all` has no bytes to give.
#[derive(Clone, Copy, Debug, PartialEq, Eq, Error)]
pub enum ReadAllFault {
    /// A read failed.
    #[error("reading failed")]
    ReadFault,
    /// There are more bytes than the limit.
    #[error("there are more bytes than the limit")]
    TooLong,
    /// There is no memory.
    #[error("out of memory")]
    Memory,
}

impl From<AllocError> for ReadAllFault {
    ghost from_gives = { λ _ fault. fault ≡ Memory };

    fn from(_: AllocError) -> Self {
        ReadAllFault::Memory
    }
}
