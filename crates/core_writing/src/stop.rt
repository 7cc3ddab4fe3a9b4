//! Why a write does not begin.

ghost use Rattle.std.specs.Prelude.{◌≡◌, false, true, IfErr, OnOk};
ghost use Rattle.command_set.specs.Replies.{answers_if, fails};
ghost use Rattle.core_writing.specs.Stops.{IsStopBy};

use command_set::Reply;
use std::alloc::AllocError;

/// Why a write does not begin.
#[derive(Debug, Drop)]
pub(crate) enum Stop {
    /// No memory was left.
    Memory,
    /// It is refused by this reply, which fails the transaction.
    Refused(Reply),
}

impl From<AllocError> for Stop {
    ghost use Rattle.std.specs.Prelude.{◌≡◌};
    ghost use Rattle.core_writing.specs.declared.stop.Stop.TheVariants.{Memory};

    ghost from_gives = { λ _ stop. stop ≡ Memory };

    fn from(_: AllocError) -> Self {
        Stop::Memory
    }
}

/// Refuses a write where a test for it holds.
pub(crate) fn refuse_if(holds: bool, reply: Reply) -> Result<(), Stop>
    requires { fails reply ≡ true }
    ensures ok { OnOk result (holds ≡ false) }
    ensures err { IfErr result (IsStopBy (answers_if holds reply)) }
{
    if holds {
        return Err(Stop::Refused(reply));
    }
    Ok(())
}
