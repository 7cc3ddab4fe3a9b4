//! What holds while a vacuum is under way, and what its steps and its end tell: laws over the models of
//! [`crate::Vacuum`] and of its targets, with a field for each event. They speak of what
//! [`crate::Vacuum::step`] makes of both and what it answers.

ghost use Rattle.toast_vacuum.specs.Laws.{BatchesStand, DoneTells, RowVacuumsStand, StartsStand, StepsTell, VacuumsStand};

/// Each event keeps what holds of a store of values out of line and a vacuum of it: what others do, each
/// start and end of a transaction, and the vacuum's own step, which it may make.
pub fn vacuums_stand()
    ensures { VacuumsStand }
{}

/// And what holds of the batch of each session that reads the store, so that no entry which a walk takes
/// names a slot that was freed or another value's chunk.
pub fn batches_stand()
    ensures { BatchesStand }
{}

/// What a step of a store's vacuum does: it takes away only chunks that are dead under its horizon, says
/// who holds a pinned leaf, and lowers the number of steps that are left.
pub fn steps_tell()
    ensures { StepsTell }
{}

/// What `Done` of a store's vacuum tells: no slot is dead, and nothing is left that its horizon let go.
pub fn done_tells()
    ensures { DoneTells }
{}

/// What was dead when a vacuum began and has been removed stays so.
pub fn starts_stand()
    ensures { StartsStand }
{}

/// The same of a relation of rows and its key map, which nobody pins.
pub fn row_vacuums_stand()
    ensures { RowVacuumsStand }
{}
