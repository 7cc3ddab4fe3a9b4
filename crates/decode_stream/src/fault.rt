//! Why a log is not decoded.

use std::alloc::AllocError;
use thiserror::Error;

/// The first fault of a log.
#[derive(Clone, Copy, Debug, PartialEq, Eq, Error)]
pub enum DecodeFault {
    /// A chunk is not the next one of its value: `got` is its place in the value, counted from 0, and
    /// `wanted` the number of chunks that were gathered before it.
    #[error("chunk {got} of a value comes where chunk {wanted} is the next")]
    ChunkOrder { got: u32, wanted: u32 },
    /// A value that was gathered has another length than its pointer says: `got` is the bytes that
    /// were gathered, and `wanted` the bytes that the pointer says.
    #[error("{got} bytes were gathered of a value whose pointer says {wanted}")]
    SizeOf { got: u32, wanted: u32 },
    /// No memory was left.
    #[error("out of memory")]
    Memory,
}

impl From<AllocError> for DecodeFault {
    ghost use Rattle.std.specs.Prelude.{◌≡◌};
    ghost use Rattle.decode_stream.specs.declared.fault.DecodeFault.TheVariants.{Memory};

    ghost from_gives = { λ _ fault. fault ≡ Memory };

    fn from(_: AllocError) -> Self {
        DecodeFault::Memory
    }
}
