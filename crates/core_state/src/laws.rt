//! What each line of the table of events keeps of a core, and what it does in terms of the plain store.

ghost use Rattle.core_state.specs.Laws.{EndsKeep, EndsStand, LeftFalls, OverKeeps, OverRuns, SubmitKeeps};

/// A core is sound after a command is submitted, and stands for the same states.
pub fn submit_keeps()
    ensures { SubmitKeeps }
{}

/// A core is sound after a command is over that has changed nothing but what its session is in.
pub fn over_keeps()
    ensures { OverKeeps }
{}

/// The moment of such a command answers what the plain store answers.
pub fn over_runs()
    ensures { OverRuns }
{}

/// A core is sound after a transaction commits, is rolled back or fails.
pub fn ends_keep()
    ensures { EndsKeep }
{}

/// It then stands for the plain store's state after a rollback, or in which the transaction has failed.
pub fn ends_stand()
    ensures { EndsStand }
{}

/// What is left falls with a moment that ends its command.
pub fn left_falls()
    ensures { LeftFalls }
{}
