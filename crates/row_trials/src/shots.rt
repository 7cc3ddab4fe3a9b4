//! Snapshots for tests.

ghost use Rattle.std.specs.Prelude.{◌≡◌, true};
ghost use Rattle.snapshot_registry.specs.Snapshots.{is_registered};

use snapshot_registry::{SnapId, SnapRegistry};
use std::alloc::{AllocError, Global};
use xact_status::XactTable;

/// A snapshot in a registry of its own.
#[derive(Drop)]
pub(crate) struct Shot {
    pub(crate) registry: SnapRegistry,
    pub(crate) id: SnapId,
    ghost registered: { is_registered registry id ≡ true },
}

impl Shot {
    /// A snapshot of what has committed so far.
    pub(crate) fn take(alloc: Global, xacts: &XactTable) -> Result<Shot, AllocError> {
        let mut registry = SnapRegistry::new(alloc);
        let id = registry.take(xacts)?;
        Ok(Shot { registry, id })
    }
}
