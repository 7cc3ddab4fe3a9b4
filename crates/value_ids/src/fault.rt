//! Why no id is drawn.

ghost use Rattle.std.specs.Prelude.{◌≡◌};
ghost use Rattle.value_ids.specs.declared.fault.DrawFault.TheVariants.{Memory};

use std::alloc::AllocError;
use thiserror::Error;

/// Why no id is drawn.
#[derive(Clone, Copy, Debug, PartialEq, Eq, Error)]
pub enum DrawFault {
    /// Each of so many ids, all there are, is in use.
    #[error("each of {in_use} value ids is in use")]
    NoValueId { in_use: u64 },
    /// There is no memory.
    #[error("out of memory")]
    Memory,
}

impl From<AllocError> for DrawFault {
    ghost from_gives = { λ _ fault. fault ≡ Memory };

    fn from(_: AllocError) -> Self {
        DrawFault::Memory
    }
}
