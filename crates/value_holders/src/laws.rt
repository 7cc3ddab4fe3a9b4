//! What every event does to the holders of a value and to its chunks, and what that is good for: laws
//! over stamps, with a field for each event. `K` are the places of the holders, such as tids.

ghost use Rattle.value_holders.specs.Laws.{AreEndedStay, EnderOrder, EventsKeepHeld, OneLiveHolder, ProtectedIsSpared, ReadersAreSafe, StepsKeepHeld, VersionStepTells};

/// What is held stays so when a transaction starts, commits or aborts, and when a snapshot is taken,
/// shared or released.
pub fn events_keep_held<K>()
    ensures { EventsKeepHeld K }
{}

/// What is held stays so when a version with the value is put or ended, when chunks are ended, and
/// when vacuum or a rewrite takes versions and chunks away.
pub fn steps_keep_held<K>()
    ensures { StepsKeepHeld K }
{}

/// Once a transaction has ended the version that was there for it, each protected version that holds
/// the value has ended for it.
pub fn version_step_tells<K>()
    ensures { VersionStepTells K }
{}

/// That goes on to be so while the transaction ends the value's chunks, whatever others do.
pub fn are_ended_stay<K>()
    ensures { AreEndedStay K }
{}

/// What a registered snapshot or a running transaction sees is protected.
pub fn readers_are_safe()
    ensures { ReadersAreSafe }
{}

/// No vacuum takes a protected version, or a chunk of a value that one holds.
pub fn protected_is_spared<K>()
    ensures { ProtectedIsSpared K }
{}

/// Of the protected versions that hold one value at most one has no end.
pub fn one_live_holder<K>()
    ensures { OneLiveHolder K }
{}

/// A chunk's ender is no earlier, in the order of commits, than the enders of the protected versions
/// that hold its value.
pub fn ender_order<K>()
    ensures { EnderOrder K }
{}
