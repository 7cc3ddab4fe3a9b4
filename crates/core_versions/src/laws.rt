//! What the version step of a write keeps of a core, and what it does in terms of the plain store.

ghost use Rattle.core_versions.specs.Laws.{VersionsFall, VersionsKeep, VersionsMove};

/// A core is sound after a write's new version is put and its old one ended.
pub fn versions_keep()
    ensures { VersionsKeep }
{}

/// It stands for the plain store's states for which it stood before.
pub fn versions_move()
    ensures { VersionsMove }
{}

/// Fewer steps of the write are left.
pub fn versions_fall()
    ensures { VersionsFall }
{}
