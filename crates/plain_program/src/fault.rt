//! Why the plain store gives no answer.

ghost use Rattle.std.specs.Prelude.{◌≡◌};

use std::alloc::AllocError;
use thiserror::Error;

/// Why the plain store gives no answer.
#[derive(Clone, Copy, Debug, PartialEq, Eq, Error)]
pub enum PlainFault {
    /// No memory was left.
    #[error("out of memory")]
    Memory,
    /// The answer is that a tuple would be too big, with a size of 4 GiB or more, which a reply cannot tell.
    #[error("a tuple would take 4 GiB or more")]
    Range,
}

impl From<AllocError> for PlainFault {
    ghost use Rattle.plain_program.specs.declared.fault.PlainFault.TheVariants.{Memory};

    ghost from_gives = { λ _ fault. fault ≡ Memory };

    fn from(_: AllocError) -> Self {
        PlainFault::Memory
    }
}
