//! What follows from the calls' clauses. A law runs nothing.
ghost use Rattle.shared_store.specs.Shares.{CompleteStays};

/// What a store gives back is complete where a pass has seen it complete: a legal journal that begins with a
/// complete one is complete.
pub fn complete_stays()
    ensures { CompleteStays }
{}
