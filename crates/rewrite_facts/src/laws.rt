//! What each step of a rewrite keeps: laws over its record, with a field for each step.

ghost use Rattle.rewrite_facts.specs.Laws.{CopiesFit, StepsKeep};

/// A rewrite that has begun has the facts of one, and each of its steps keeps them.
pub fn steps_keep()
    ensures { StepsKeep }
{}

/// No copy of a version that fits on a page is too big for one.
pub fn copies_fit()
    ensures { CopiesFit }
{}
