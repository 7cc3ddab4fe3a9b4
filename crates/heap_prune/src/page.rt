//! What is done on one page.

ghost use Rattle.std.specs.Prelude.{◌≡◌, ◌<◌, ◌++◌, length, map, take, All, count_by, OnOk, OnErr, slice_set};
ghost use Rattle.slot_page.specs.DeadSlots.{dead_tids, is_dead_line};
ghost use Rattle.slot_page.specs.Slots.{slot_at};
ghost use Rattle.xact_status.specs.Versions.{IsStampAssigned, is_dead};
ghost use Rattle.heap_prune.specs.Lines.{IsLineAssigned, is_newly_dead, pruned};

use crate::stamped::Stamped;
use slot_page::{Page, Slot, Tid, TidList};
use std::alloc::AllocError;
use xact_status::{Stamp, XactTable};

/// Whether no reader can see what bears a stamp, now or later, where every snapshot's least running xid is
/// at least the horizon.
fn is_dead(stamp: Stamp, xacts: &XactTable, horizon: u64) -> bool
    requires { IsStampAssigned xacts.now stamp }
    ensures { result ≡ is_dead xacts.now horizon stamp.inserter stamp.ender }
{
    if xacts.has_aborted(stamp.inserter) {
        return true;
    }
    match stamp.ender {
        Some(ender) => ender < horizon && xacts.has_committed(ender),
        None => false,
    }
}

/// Whether a slot has an item that no reader can see.
fn has_dead_item<T: Stamped>(page: &Page<T>, slot: u16, xacts: &XactTable, horizon: u64) -> bool
    requires { IsLineAssigned T.stamp_of xacts.now (slot_at page.now slot) }
    ensures { result ≡ is_newly_dead T.stamp_of xacts.now horizon (slot_at page.now slot) }
{
    match page.get(slot) {
        Some(item) => is_dead(item.stamp(), xacts, horizon),
        None => false,
    }
}

/// Whether a slot is dead or has an item that no reader can see.
fn is_dead_after<T: Stamped>(page: &Page<T>, slot: u16, xacts: &XactTable, horizon: u64) -> bool
    requires { IsLineAssigned T.stamp_of xacts.now (slot_at page.now slot) }
    ensures { result ≡ is_dead_line (pruned T.stamp_of xacts.now horizon (slot_at page.now slot)) }
{
    matches!(page.state(slot), Slot::Dead) || has_dead_item(page, slot, xacts, horizon)
}

/// Adds the tids of the slots of a page that are dead after a prune, in order, as far as there is memory.
fn gather<T: Stamped>(
    page: &Page<T>,
    number: u64,
    xacts: &XactTable,
    horizon: u64,
    dead: &mut TidList,
) -> Result<(), AllocError>
    requires { All (IsLineAssigned T.stamp_of xacts.now) page.now }
    ensures gathered { OnOk result (dead.new ≡ dead.old ++ dead_tids number (map (pruned T.stamp_of xacts.now horizon) page.now)) }
    ensures kept { take (length dead.old) dead.new ≡ dead.old }
{
    for slot in 0..page.len() {
        if is_dead_after(page, slot, xacts, horizon) {
            dead.push(Tid { page: number, slot })?;
        }
    }
    Ok(())
}

/// Adds the tids of the slots of a page that are dead after a prune, in order. Where there is no memory,
/// the list stays.
pub(crate) fn add_dead<T: Stamped>(
    page: &Page<T>,
    number: u64,
    xacts: &XactTable,
    horizon: u64,
    dead: &mut TidList,
) -> Result<(), AllocError>
    requires { All (IsLineAssigned T.stamp_of xacts.now) page.now }
    ensures gathered { OnOk result (dead.new ≡ dead.old ++ dead_tids number (map (pruned T.stamp_of xacts.now horizon) page.now)) }
    ensures unchanged { OnErr result (dead.new ≡ dead.old) }
{
    let before = dead.len();
    match gather(page, number, xacts, horizon, dead) {
        Ok(()) => Ok(()),
        Err(fault) => {
            dead.truncate(before);
            Err(fault)
        }
    }
}

/// Makes a slot dead where it has an item that no reader can see, and answers whether it has.
fn prune_slot<T: Stamped>(page: &mut Page<T>, slot: u16, xacts: &XactTable, horizon: u64) -> bool
    requires there { slot < length page.old }
    requires assigned { IsLineAssigned T.stamp_of xacts.now (slot_at page.old slot) }
    ensures newly { result ≡ is_newly_dead T.stamp_of xacts.now horizon (slot_at page.old slot) }
    ensures pruned { page.new ≡ slice_set page.old slot (pruned T.stamp_of xacts.now horizon (slot_at page.old slot)) }
{
    if !has_dead_item(page, slot, xacts, horizon) {
        return false;
    }
    let _item = page.make_dead(slot);
    true
}

/// Makes the slots dead whose items no reader can see, and answers how many they are.
pub(crate) fn prune<T: Stamped>(page: &mut Page<T>, xacts: &XactTable, horizon: u64) -> u32
    requires { All (IsLineAssigned T.stamp_of xacts.now) page.old }
    ensures count { result ≡ count_by (is_newly_dead T.stamp_of xacts.now horizon) page.old }
    ensures pruned { page.new ≡ map (pruned T.stamp_of xacts.now horizon) page.old }
{
    let mut count = 0;
    for slot in 0..page.len() {
        count += u32::from(prune_slot(page, slot, xacts, horizon));
    }
    count
}
