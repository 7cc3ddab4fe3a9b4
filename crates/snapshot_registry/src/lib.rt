//! Registered snapshots: what each sees of the row versions, and the horizon that they hold back.
//!
//! A snapshot is what PostgreSQL's `pg_current_snapshot` shows: `xmax`, the next xid; the xids that
//! run (`xip_list`); and `xmin`, the least of both. It shows a transaction as committed exactly where
//! that had committed before the snapshot was taken.
//! Documentation: "Transaction Isolation"; "System Information Functions, Transaction ID and Snapshot
//! Information Functions"; "Snapshot Synchronization Functions"; "Routine Vacuuming".
#![tactic(auto)]

pub mod laws;

ghost use Rattle.std.specs.Prelude.{◌≡◌, ◌<◌, ◌≤◌, [], IfOk, IsTrue, OnErr, OnOk, is_some, length};
ghost use Rattle.std.specs.List.Sorted.{IsStrictlyIncreasing};
ghost use Rattle.std.specs.Option.{ForSome, option_and_then, option_map};
ghost use Rattle.xact_status.specs.Xacts.{IsAssigned, number_of_state};
ghost use Rattle.snapshot_registry.specs.Snapshots.{IsLeastFree, after_release, after_share, after_take, committed_in, holders_at, holds, horizon, is_registered, least_free, one_less, one_more, seen_by_any, sees, sees_at, snapshot_now, takes_effect, with_entry};

use list_facts::ListOf;
use std::alloc::{AllocError, Global};
use std::marker::Model;
use xact_status::{XactState, XactTable};

/// A list of xids.
pub type XidList = ListOf<u64>;

/// What a reader may see of the transactions.
#[derive(Debug, Drop)]
pub struct Snapshot {
    /// The least of `xmax` and the running xids: every xid below it had ended.
    pub xmin: u64,
    /// The xid that was next: this one and every later one had not been given.
    pub xmax: u64,
    /// The xids that ran, ascending.
    pub running: XidList,
}

/// A registered snapshot, with the number of those who hold it, at least 1.
#[derive(Debug, Drop)]
pub struct Held {
    pub snapshot: Snapshot,
    pub holders: u32,
}

/// The id of a registered snapshot. Contracts see a number.
#[derive(Clone, Copy, Debug, PartialEq, Eq)]
pub struct SnapId(u64);

impl Model for SnapId {
    ghost use Rattle.std.specs.Prelude.{ℕ};

    ghost Value = { ℕ };

    ghost view = { λ id. id.0 };

    ghost inverse = { λ id. record { 0 = id } };
}

/// The snapshots that are registered.
///
/// Contracts see, at the place of each id, what is registered under it, if anything.
#[derive(Debug, Drop)]
pub struct SnapRegistry {
    entries: Vec<Option<Held>>,
}

impl Model for SnapRegistry {
    ghost use Rattle.std.specs.Prelude.{List, Option};
    ghost use Rattle.snapshot_registry.specs.declared.Held.{Held};
    ghost use Rattle.snapshot_registry.specs.Snapshots.{IsSound};

    ghost Value = { List (Option Held) };

    ghost view = { λ registry. registry.entries.items };

    ghost invariant = { λ registry. IsSound registry.entries.items };
}

impl Snapshot {
    // The snapshot of this moment.
    fn now(alloc: Global, xacts: &XactTable) -> Result<Snapshot, AllocError>
        ensures taken { IfOk result (λ snapshot. snapshot ≡ snapshot_now xacts.now) }
        ensures ascending { IfOk result (λ snapshot. IsStrictlyIncreasing snapshot.running) }
    {
        let xmax = xacts.next();
        let running = xacts.running();
        // The running xids ascend, so the first is the least, and each is below the next xid.
        let xmin = running.first().copied().unwrap_or(xmax);
        let running = ListOf::from_slice(alloc, running)?;
        Ok(Snapshot {
            xmin,
            xmax,
            running,
        })
    }

    // Whether an xid ran when the snapshot was taken.
    fn ran(&self, xid: u64) -> bool
        requires { IsStrictlyIncreasing self.now.running }
        ensures { result ≡ holds self.now.running xid }
    {
        self.running.as_slice().binary_search(&xid).is_ok()
    }

    // Whether the snapshot shows an xid as committed.
    fn shows_committed(&self, xacts: &XactTable, xid: u64) -> bool
        requires ascending { IsStrictlyIncreasing self.now.running }
        requires assigned { IsAssigned xacts.now xid }
        ensures { result ≡ committed_in xacts.now self.now xid }
    {
        if xid >= self.xmax || self.ran(xid) {
            return false;
        }
        is_committed(xacts.status(xid))
    }

    // Whether what an xid did is there for a reader with this snapshot.
    fn shows(&self, xacts: &XactTable, own: Option<u64>, xid: u64) -> bool
        requires ascending { IsStrictlyIncreasing self.now.running }
        requires assigned { IsAssigned xacts.now xid }
        ensures { result ≡ takes_effect xacts.now self.now own xid }
    {
        own.is_some_and(|own| own == xid) || self.shows_committed(xacts, xid)
    }

    fn sees(&self, xacts: &XactTable, inserter: u64, ender: Option<u64>, own: Option<u64>) -> bool
        requires ascending { IsStrictlyIncreasing self.now.running }
        requires inserter { IsAssigned xacts.now inserter }
        requires ender { ForSome ender (IsAssigned xacts.now) }
        ensures { result ≡ sees xacts.now self.now inserter ender own }
    {
        if !self.shows(xacts, own, inserter) {
            return false;
        }
        match ender {
            Some(ender) => !self.shows(xacts, own, ender),
            None => true,
        }
    }
}

impl SnapRegistry {
    /// A registry with no snapshot, which takes no memory yet.
    pub fn new(alloc: Global) -> Self
        ensures { result ≡ [] }
    {
        SnapRegistry {
            entries: Vec::new(alloc),
        }
    }

    /// Takes the snapshot of this moment and registers it, with one holder, under the least id that
    /// is free. Where there is no memory, nothing is registered.
    pub fn take(&mut self, xacts: &XactTable) -> Result<SnapId, AllocError>
        ensures id { IfOk result (λ id. id ≡ least_free self.old) }
        ensures least { IfOk result (IsLeastFree self.old) }
        ensures ok { OnOk result (self.new ≡ after_take self.old xacts.now) }
        ensures err { OnErr result (self.new ≡ self.old) }
    {
        let alloc = *self.entries.allocator();
        let snapshot = Snapshot::now(alloc, xacts)?;
        let id = first_free(&self.entries);
        let held = Held {
            snapshot,
            holders: 1,
        };
        write_entry(&mut self.entries, id, held)?;
        Ok(SnapId(id as u64))
    }

    /// Adds a holder to a registered snapshot.
    pub fn share(&mut self, id: SnapId)
        requires registered { IsTrue (is_registered self.old id) }
        requires countable { holders_at self.old id < u32.MAX }
        ensures { self.new ≡ after_share self.old id }
    {
        add_holder(&mut self.entries[id.0 as usize]);
    }

    /// Takes a holder from a registered snapshot, which with its last holder is registered no longer.
    pub fn release(&mut self, id: SnapId)
        requires { IsTrue (is_registered self.old id) }
        ensures { self.new ≡ after_release self.old id }
    {
        drop_holder(&mut self.entries[id.0 as usize]);
    }

    /// Whether a reader with the snapshot registered under `id` and with the xid `own`, if it has one,
    /// sees a version that `inserter` has inserted and `ender`, if any, has ended. It takes time
    /// logarithmic in the number of xids that ran when the snapshot was taken.
    pub fn sees(
        &self,
        id: SnapId,
        xacts: &XactTable,
        inserter: u64,
        ender: Option<u64>,
        own: Option<u64>,
    ) -> bool
        requires registered { IsTrue (is_registered self.now id) }
        requires inserter { IsAssigned xacts.now inserter }
        requires ender { ForSome ender (IsAssigned xacts.now) }
        ensures { result ≡ sees_at xacts.now self.now id inserter ender own }
    {
        match &self.entries[id.0 as usize] {
            Some(held) => held.snapshot.sees(xacts, inserter, ender, own),
            None => unreachable!(),
        }
    }

    /// Whether some registered snapshot sees a version, for a reader without an xid.
    pub fn seen_by_any(&self, xacts: &XactTable, inserter: u64, ender: Option<u64>) -> bool
        requires inserter { IsAssigned xacts.now inserter }
        requires ender { ForSome ender (IsAssigned xacts.now) }
        ensures { result ≡ seen_by_any xacts.now self.now inserter ender }
    {
        for entry in &self.entries {
            if let Some(held) = entry {
                if held.snapshot.sees(xacts, inserter, ender, None) {
                    return true;
                }
            }
        }
        false
    }

    /// The least of the next xid, the running xids and the `xmin` of each registered snapshot: a
    /// version that a committed transaction below it has ended is seen by no snapshot, now or later.
    /// It takes time linear in the greatest number of snapshots that were registered at once.
    pub fn horizon(&self, xacts: &XactTable) -> u64
        ensures { result ≡ horizon xacts.now self.now }
    {
        let mut least = xacts.running().first().copied().unwrap_or(xacts.next());
        for entry in &self.entries {
            if let Some(held) = entry {
                least = least.min(held.snapshot.xmin);
            }
        }
        least
    }
}

fn is_committed(state: XactState) -> bool
    ensures { result ≡ is_some (number_of_state state) }
{
    matches!(state, XactState::Committed { .. })
}

// The least id that is free.
fn first_free(entries: &[Option<Held>]) -> usize
    ensures id { result ≡ least_free entries.now }
    ensures bound { result ≤ length entries.now }
{
    for (id, entry) in entries.iter().enumerate() {
        if entry.is_none() {
            return id;
        }
    }
    entries.len()
}

// Registers a snapshot under an id that is free, with none free below it.
fn write_entry(entries: &mut Vec<Option<Held>>, id: usize, held: Held) -> Result<(), AllocError>
    requires { id ≤ length entries.old.items }
    ensures ok { OnOk result (entries.new.items ≡ with_entry entries.old.items id (Some held)) }
    ensures err { OnErr result (entries.new.items ≡ entries.old.items) }
{
    if id < entries.len() {
        entries[id] = Some(held);
    } else {
        entries.push(Some(held))?;
    }
    Ok(())
}

fn add_holder(entry: &mut Option<Held>)
    requires { ForSome entry.old (λ held. held.holders < u32.MAX) }
    ensures { entry.new ≡ option_map one_more entry.old }
{
    if let Some(held) = entry {
        held.holders += 1;
    }
}

fn drop_holder(entry: &mut Option<Held>)
    ensures { entry.new ≡ option_and_then one_less entry.old }
{
    match entry {
        Some(held) if held.holders > 1 => held.holders -= 1,
        _ => *entry = None,
    }
}

#[cfg(test)]
mod tests;
