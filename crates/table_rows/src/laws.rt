//! What each event keeps of the worlds of a table: laws over the pages of
//! [`row_versions::RowVersions`], with a field for each event.

ghost use Rattle.table_rows.specs.Laws.{AreOneStays, CallsAreSteps, LookUpsFind, MomentsTell, OwnChangesStay, SinceStays, StepsTell, ViewsStay};

/// No world gets a second version of a key, whatever happens.
pub fn are_one_stays()
    ensures { AreOneStays }
{}

/// A version step changes the world of its transaction at its keys and nothing else, and a vacuum
/// changes no world.
pub fn steps_tell()
    ensures { StepsTell }
{}

/// A commit makes the world of its transaction the latest; an abort and a start change no world that
/// was there before; and the world of a snapshot never changes.
pub fn moments_tell()
    ensures { MomentsTell }
{}

/// What a look-up finds is what the reader's world has at the key.
pub fn look_ups_find()
    ensures { LookUpsFind }
{}

/// Where a transaction's own change is the last at a key, it goes on to be.
pub fn own_changes_stay()
    ensures { OwnChangesStay }
{}

/// Where a transaction sees by its snapshot and its own changes what is there for it now, it goes on to:
/// so at each key that it has changed.
pub fn views_stay()
    ensures { ViewsStay }
{}

/// Whether a key was changed since a snapshot is told, through all events, by the ender of the version
/// that the snapshot shows there.
pub fn since_stays()
    ensures { SinceStays }
{}

/// What each call of [`row_versions::RowVersions`] does to the versions of its pages.
pub fn calls_are_steps()
    ensures { CallsAreSteps }
{}
