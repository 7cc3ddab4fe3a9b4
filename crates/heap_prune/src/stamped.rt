//! What an item tells of the transactions that it names.

ghost use Rattle.std.specs.Prelude.{◌≡◌};
ghost use Rattle.xact_status.specs.declared.Stamp.{Stamp};

use xact_status::Stamp;

/// An item of a relation that names the transaction that put it and the one that ended it, if any.
pub trait Stamped: Drop {
    ghost stamp_of: { Self → Stamp };

    /// Both transactions.
    fn stamp(&self) -> Stamp
        ensures { result ≡ stamp_of self.now };
}
