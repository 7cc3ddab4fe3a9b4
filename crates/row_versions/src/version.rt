//! A version of a row.

ghost use Rattle.std.specs.Prelude.{◌≡◌};

use heap_prune::Stamped;
use tuple_layout::Bytes;
use xact_status::Stamp;

/// A version of the row at a key, as its slot holds it.
#[derive(Debug, Drop)]
pub struct Version {
    pub key: i64,
    /// The transaction that put it.
    pub inserter: u64,
    /// The transaction that ended it, if any: it has put another version of the row, or deleted it.
    pub ender: Option<u64>,
    /// The row, as the bytes of its tuple.
    pub tuple: Bytes,
}

impl Version {
    ghost use Rattle.row_versions.specs.Versions.{stamped_version};

    /// A version with its stamp.
    pub(crate) fn new(key: &i64, stamp: Stamp, tuple: Bytes) -> Self
        ensures { result ≡ stamped_version key.now stamp tuple }
    {
        Version {
            key: *key,
            inserter: stamp.inserter,
            ender: stamp.ender,
            tuple,
        }
    }
}

impl Stamped for Version {
    ghost use Rattle.row_versions.specs.Versions.{version_stamp};

    ghost stamp_of = { version_stamp };

    fn stamp(&self) -> Stamp {
        Stamp {
            inserter: self.inserter,
            ender: self.ender,
        }
    }
}
