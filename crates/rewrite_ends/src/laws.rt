//! What transactions and snapshots keep of a rewrite, and what its end gives: laws over its record.

ghost use Rattle.rewrite_ends.specs.Laws.{CopiesAreTheChosen, CopiesAreWhole, EventsKeep, NothingIsSpare, TableAtEnd, ValuesHeld, WorldsSame};

/// Each start, commit and abort of a transaction, and each snapshot that is taken, shared or released, keeps the
/// facts of a rewrite.
pub fn events_keep()
    ensures { EventsKeep }
{}

/// While it runs each visited version that must be kept has its copy, with its row, and no value is missing.
pub fn copies_are_whole()
    ensures { CopiesAreWhole }
{}

/// At the end of a rewrite the new versions are copies of old ones, and each one that is chosen has its copy.
pub fn copies_are_the_chosen()
    ensures { CopiesAreTheChosen }
{}

/// Every world has the same rows in the new table as in the old one, and no two versions of a key.
pub fn worlds_same()
    ensures { WorldsSame }
{}

/// Once the rewrite's transaction has committed, each new value is held.
pub fn values_held()
    ensures { ValuesHeld }
{}

/// And so the new relations are a table.
pub fn table_at_end()
    ensures { TableAtEnd }
{}

/// In which nothing is spare.
pub fn nothing_is_spare()
    ensures { NothingIsSpare }
{}
