//! What each line of a read, and of a handle, keeps of a core, and does in terms of the plain store.

ghost use Rattle.core_reads.specs.Laws.{HandlesBegin, MadeStays, ReadStepsKeep, ReadsBegin};

/// A granted get or part begins a read, or is over where it needs nothing of the store: a core is sound
/// after it, it answers what the plain store answers, and what is left falls.
pub fn reads_begin()
    ensures { ReadsBegin }
{}

/// The same of a granted open, fetch and close of a handle.
pub fn handles_begin()
    ensures { HandlesBegin }
{}

/// A core is sound after a step of a read and stands for the same states; the last step answers the reply
/// of the read's moment; and what is left falls.
pub fn read_steps_keep()
    ensures { ReadStepsKeep }
{}

/// Where each read under way is one that its type allows, that is so after every line.
pub fn reads_stay_made()
    ensures { MadeStays }
{}
