//! Locks on tables and on rows.

ghost use Rattle.std.specs.Prelude.{◌≡◌};
ghost use Rattle.lock_table.specs.Modes.{conflicts, mode_of};

/// Upkeep of a table, one kind of which a session runs.
#[derive(Clone, Copy, Debug, PartialEq, Eq)]
pub enum Upkeep {
    /// Vacuum of the rows.
    Main,
    /// Vacuum of the values out of line.
    Toast,
    /// Vacuum that writes rows and values anew (`VACUUM FULL`).
    Rewrite,
}

/// What a table is locked for.
#[derive(Clone, Copy, Debug, PartialEq, Eq)]
pub enum LockMode {
    /// Reads and writes of a transaction.
    Use,
    Main,
    Toast,
    Rewrite,
}

/// A lock on a table, by its number.
#[derive(Clone, Copy, Debug, PartialEq, Eq)]
pub struct TableLock {
    pub table: u16,
    pub mode: LockMode,
}

/// A row, whether it is there or not, by its table's number and its key.
#[derive(Clone, Copy, Debug, PartialEq, Eq, PartialOrd, Ord)]
pub struct RowKey {
    pub table: u16,
    pub key: i64,
}

/// A lock on a table, or the claim of a row that is to be changed.
#[derive(Clone, Copy, Debug, PartialEq, Eq)]
pub enum Lock {
    Table(TableLock),
    Row(RowKey),
}

impl Upkeep {
    /// What upkeep locks its table for.
    pub(crate) fn mode(self) -> LockMode
        ensures { result ≡ mode_of self }
    {
        match self {
            Upkeep::Main => LockMode::Main,
            Upkeep::Toast => LockMode::Toast,
            Upkeep::Rewrite => LockMode::Rewrite,
        }
    }
}

impl LockMode {
    /// Whether a table that is locked so by another session can't be locked for this.
    pub(crate) fn conflicts(self, held: LockMode) -> bool
        ensures { result ≡ conflicts self held }
    {
        match (self, held) {
            (LockMode::Rewrite, _) | (_, LockMode::Rewrite) => true,
            (LockMode::Main, LockMode::Main) | (LockMode::Toast, LockMode::Toast) => true,
            _ => false,
        }
    }
}
