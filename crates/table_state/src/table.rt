//! The table and its look-ups.

ghost use Rattle.std.specs.Prelude.{◌≡◌, true, Some, IfOk, IsTrue, is_some};
ghost use Rattle.std.specs.Option.{option_map};
ghost use Rattle.slot_page.specs.Pages.{item_in};
ghost use Rattle.snapshot_registry.specs.Snapshots.{is_registered};
ghost use Rattle.row_versions.specs.Relations.{AreAssigned};
ghost use Rattle.xact_status.specs.Versions.{counts_for};
ghost use Rattle.table_state.specs.Tables.{AreStored, stored_of};
ghost use Rattle.table_state.specs.LookUps.{FindsRow, counts_seen, no_rows};

use row_versions::RowVersions;
use slot_page::Tid;
use snapshot_registry::{SnapId, SnapRegistry};
use std::alloc::{AllocError, Global};
use toast_store::ToastStore;
use tuple_layout::{Schema, Stored, TupleFault, read_tuple};
use xact_status::XactTable;

/// The id of the toast relation of a table with the number 0; the tables' follow it.
const FIRST_TOAST_REL: u32 = 8192;

/// A table: the versions of its rows, and its values out of line.
#[derive(Debug, Drop)]
pub struct Table {
    pub rows: RowVersions,
    pub toast: ToastStore,
}

/// A row that a look-up has found: where its version stands, and how that stores it.
#[derive(Debug, Drop)]
pub struct FoundRow {
    pub tid: Tid,
    pub stored: Stored,
}

impl Table {
    /// A table of this schema, with its number, that has no row. The error is for want of memory.
    pub fn new(alloc: Global, schema: Schema, number: u16) -> Result<Self, AllocError>
        ensures { IfOk result (λ table. table ≡ no_rows schema number) }
    {
        let toast = ToastStore::new(alloc, FIRST_TOAST_REL + u32::from(number))?;
        Ok(Table {
            rows: RowVersions::new(alloc, schema),
            toast,
        })
    }

    /// The row that the version at a tid stores. The error is for want of memory.
    fn stored_at(&self, alloc: Global, tid: Tid) -> Result<Stored, AllocError>
        requires there { is_some (item_in self.now.rows.pages tid) ≡ true }
        requires stored { AreStored self.now }
        ensures { IfOk result (λ stored. option_map (stored_of self.now.rows.schema.storages) (item_in self.now.rows.pages tid) ≡ Some stored) }
    {
        let Some(version) = self.rows.version_at(tid) else {
            unreachable!()
        };
        match read_tuple(alloc, self.rows.schema(), version.tuple.as_slice()) {
            Ok(stored) => Ok(stored),
            Err(fault) => match fault {
                TupleFault::Memory => Err(AllocError),
                _ => unreachable!(),
            },
        }
    }

    /// The row at a key that a reader with the snapshot `snap` and with the xid `own`, if it has one,
    /// sees. Each version's tuple is one that can be read. The error is for want of memory.
    pub fn seen_row(
        &self,
        alloc: Global,
        key: i64,
        snap: SnapId,
        snaps: &SnapRegistry,
        xacts: &XactTable,
        own: Option<u64>,
    ) -> Result<Option<FoundRow>, AllocError>
        requires registered { IsTrue (is_registered snaps.now snap) }
        requires assigned { AreAssigned xacts.now self.now.rows.pages }
        requires stored { AreStored self.now }
        ensures { IfOk result (FindsRow (counts_seen xacts.now snaps.now snap own) self.now key) }
    {
        let Some(tid) = self.rows.seen_row(key, snap, snaps, xacts, own) else {
            return Ok(None);
        };
        let stored = self.stored_at(alloc, tid)?;
        Ok(Some(FoundRow { tid, stored }))
    }

    /// The row at a key that is there now: what has committed and what the xid `own`, if there is one,
    /// has changed. Each version's tuple is one that can be read. The error is for want of memory.
    pub fn current_row(
        &self,
        alloc: Global,
        key: i64,
        xacts: &XactTable,
        own: Option<u64>,
    ) -> Result<Option<FoundRow>, AllocError>
        requires assigned { AreAssigned xacts.now self.now.rows.pages }
        requires stored { AreStored self.now }
        ensures { IfOk result (FindsRow (counts_for xacts.now own) self.now key) }
    {
        let Some(tid) = self.rows.current_row(key, xacts, own) else {
            return Ok(None);
        };
        let stored = self.stored_at(alloc, tid)?;
        Ok(Some(FoundRow { tid, stored }))
    }
}
