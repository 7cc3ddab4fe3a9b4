//! Why a fetch ends without its bytes.

ghost use Rattle.std.specs.Prelude.{◌≡◌};
ghost use Rattle.toast_store.specs.declared.fault.FetchFault.TheVariants.{Memory};

use std::alloc::AllocError;
use thiserror::Error;

/// Why a fetch ends without its bytes: what the chunks in range lack of the value's pieces.
#[derive(Clone, Copy, Debug, PartialEq, Eq, Error)]
pub enum FetchFault {
    /// The chunks end while this piece is wanted.
    #[error("the chunks end where piece {seq} is wanted")]
    MissingChunk { seq: u32 },
    /// A chunk has another number than the piece that is wanted.
    #[error("there is chunk {got} where piece {wanted} is wanted")]
    UnexpectedChunk { got: u32, wanted: u32 },
    /// A chunk has another number of bytes than its piece.
    #[error("a chunk has {got} bytes and its piece has {wanted}")]
    ChunkSize { got: u32, wanted: u32 },
    /// There is no memory.
    #[error("out of memory")]
    Memory,
}

impl From<AllocError> for FetchFault {
    ghost from_gives = { λ _ fault. fault ≡ Memory };

    fn from(_: AllocError) -> Self {
        FetchFault::Memory
    }
}
