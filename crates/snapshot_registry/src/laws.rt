//! What holds between the transactions and the snapshots taken from them, whatever happens: laws
//! over the models of [`xact_status::XactTable`] and [`crate::SnapRegistry`], with a field for each
//! event.

ghost use Rattle.snapshot_registry.specs.Laws.{DeadIsUnseen, EarlierEndsAreUnseen, HorizonNeverFalls, RegistryIsAMap, SnapshotsAreMoments, SnapshotsStay, UnprotectedStays, UnseenStaysUnseen};
ghost use Rattle.snapshot_registry.specs.Runs.{HoldsInEveryRun};

/// The registry is a map from ids: each call changes what is registered under one id and nothing else.
pub fn registry_is_a_map()
    ensures { RegistryIsAMap }
{}

/// Each registered snapshot shows the transactions as they stood after some commit, and goes on to:
/// an xid is committed in it exactly where it has committed with at most that commit's number.
pub fn snapshots_are_moments()
    ensures { SnapshotsAreMoments }
{}

/// What a registered snapshot shows as committed never changes.
pub fn snapshots_stay()
    ensures { SnapshotsStay }
{}

/// The horizon never falls.
pub fn horizon_never_falls()
    ensures { HorizonNeverFalls }
{}

/// A version that a committed transaction has ended and that no registered snapshot sees is seen by
/// no later one.
pub fn unseen_stays_unseen()
    ensures { UnseenStaysUnseen }
{}

/// A version that is dead under the horizon is seen by no registered snapshot.
pub fn dead_is_unseen()
    ensures { DeadIsUnseen }
{}

/// Where a transaction below the horizon has committed, each version that was ended by that commit or
/// by an earlier one is seen by no registered snapshot, whichever xid ended it.
pub fn earlier_ends_are_unseen()
    ensures { EarlierEndsAreUnseen }
{}

/// A version that need not be kept is never again one that must be.
pub fn unprotected_stays()
    ensures { UnprotectedStays }
{}

/// After every list of calls, from an empty table and registry on, each registered snapshot shows the
/// transactions as they stood after some commit; and from any moment on no list of calls lowers the
/// horizon, or lets a snapshot see a version that had been ended and was unseen.
pub fn hold_in_every_run()
    ensures { HoldsInEveryRun }
{}
