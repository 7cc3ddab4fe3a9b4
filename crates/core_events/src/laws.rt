//! What an advance of a session keeps of a core, and what it does in terms of the plain store.

ghost use Rattle.core_events.specs.Laws.{AdvancesKeep, AdvancesRun, FailuresKeep};

/// A core is sound after each advance of a session, and nothing of another session has changed.
pub fn advances_keep()
    ensures { AdvancesKeep }
{}

/// An advance is one event; it moves the plain store as its command does; less is then left of the command.
pub fn advances_run()
    ensures { AdvancesRun }
{}

/// Want of memory fails the session's transaction, here and in the plain store, and leaves all else.
pub fn failures_keep()
    ensures { FailuresKeep }
{}
