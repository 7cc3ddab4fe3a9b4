//! Why bytes are no script.

ghost use Rattle.std.specs.Prelude.{◌≡◌};
ghost use Rattle.script_text.specs.Faults.{fault_at};
ghost use Rattle.script_text.specs.declared.fault.ScriptFault.TheVariants as scripts;

use script_words::fault::{LineFault, Refusal};
use std::alloc::AllocError;
use thiserror::Error;

/// Why there is no script.
#[derive(Clone, Copy, Debug, PartialEq, Eq, Error)]
pub enum ScriptFault {
    /// The first bad line and its cause. Lines count from 1; every line from 4,294,967,295 on is named
    /// by that number.
    #[error("line {line}: {cause}")]
    BadScript { line: u32, cause: LineFault },
    /// There is no memory.
    #[error("out of memory")]
    Memory,
}

impl From<AllocError> for ScriptFault {
    ghost from_gives = { λ _ fault. fault ≡ scripts.Memory };

    fn from(_: AllocError) -> Self {
        ScriptFault::Memory
    }
}

/// Why there is no script, where this line is refused.
pub fn fault_at(line: u32, refusal: Refusal) -> ScriptFault
    ensures { result ≡ fault_at line refusal }
{
    match refusal {
        Refusal::Fault(cause) => ScriptFault::BadScript { line, cause },
        Refusal::Memory => ScriptFault::Memory,
    }
}
