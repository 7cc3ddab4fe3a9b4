//! A hub's history, for a hall in which threads share the hub.
ghost use Rattle.session_shell.specs.History.{history_of};

use crate::hub::Hub;
use command_set::Script;
use turn_hall::Counted;

impl Counted for Hub {
    type Fixed = Script;

    ghost entries = { λ hub. history_of hub.journal };

    ghost fixed = { λ hub. hub.script };

    fn count(&self) -> u64 {
        self.journal.len() as u64
    }
}
