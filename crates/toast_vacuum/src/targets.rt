//! The two relations that are vacuumed: a table's chunks with their index, and its rows with their key
//! map.

ghost use Rattle.toast_vacuum.specs.Lawful.{rows_lawful, toast_lawful};
ghost use Rattle.toast_vacuum.specs.Targets.{row_ops, toast_ops};

use crate::sweepable::Sweepable;
use chunk_index::{Entry, Swept};
use row_versions::RowVersions;
use slot_page::{Tid, TidList};
use std::alloc::AllocError;
use toast_store::ToastStore;
use xact_status::XactTable;

impl Sweepable for ToastStore {
    ghost ops = { toast_ops };

    ghost laws = { toast_lawful };

    fn pages(&self) -> u64 {
        self.rel().pages()
    }

    fn prune_page(
        &mut self,
        page: u64,
        xacts: &XactTable,
        horizon: u64,
        dead: &mut TidList,
    ) -> Result<u32, AllocError> {
        ToastStore::prune_page(self, page, xacts, horizon, dead)
    }

    fn sweep(&mut self, from: Option<Entry>, dead: &TidList) -> Swept {
        self.sweep_leaf(from, dead)
    }

    fn reap(&mut self, tid: Tid) {
        ToastStore::reap(self, tid);
    }
}

impl Sweepable for RowVersions {
    ghost ops = { row_ops };

    ghost laws = { rows_lawful };

    fn pages(&self) -> u64 {
        RowVersions::pages(self)
    }

    fn prune_page(
        &mut self,
        page: u64,
        xacts: &XactTable,
        horizon: u64,
        dead: &mut TidList,
    ) -> Result<u32, AllocError> {
        RowVersions::prune_page(self, page, xacts, horizon, dead)
    }

    /// The key map is one leaf, which nobody pins.
    fn sweep(&mut self, _from: Option<Entry>, dead: &TidList) -> Swept {
        Swept::End {
            removed: self.unindex(dead),
        }
    }

    fn reap(&mut self, tid: Tid) {
        RowVersions::reap(self, tid);
    }
}
