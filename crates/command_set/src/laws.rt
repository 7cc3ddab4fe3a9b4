//! What holds of changes and of journals: laws over the definitions of the plain store.

ghost use Rattle.command_set.specs.Laws.{OneEntryMore, RowsByOutcome};
ghost use Rattle.command_set.specs.Orders.{LegalInOrder};

/// Changes leave at each place what the last of them that names it leaves.
pub fn rows_by_outcome()
    ensures { RowsByOutcome }
{}

/// A journal with one entry more tells what the entry adds to what the journal told.
pub fn one_entry_more()
    ensures { OneEntryMore }
{}

/// In a legal journal each session's entries go through its commands in order.
pub fn legal_in_order()
    ensures { LegalInOrder }
{}
