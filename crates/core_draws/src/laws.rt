//! What the events of a core make of the ids in use for a table and of the draws that its writes still owe.

ghost use Rattle.core_draws.specs.Laws.{DrawsKeep, DrawsRefused};

/// The ids in use for a table and the draws that its writes still owe are together never more than they were,
/// but for the draws that a write which begins then is to make.
pub fn draws_keep()
    ensures { DrawsKeep }
{}

/// A draw is refused only where the ids in use for its table are as many as there are ids.
pub fn draws_refused()
    ensures { DrawsRefused }
{}
