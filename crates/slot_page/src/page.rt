ghost use Rattle.std.specs.Prelude.{◌≡◌, ℕ, ◌≤◌, ◌<◌, [], length, slice_set, Some, IfNone, IfOk, IfErr, IfSome, OnOk, OnErr, is_ok, position, option_copied};
ghost use Rattle.std.specs.Option.{option_map};
ghost use Rattle.std.specs.Borrow.{sem};
ghost use Rattle.slot_page.specs.NextItems.{AreSlotsEmpty, IsNextSlot};
ghost use Rattle.slot_page.specs.Slots.{is_unused, rounded, IsNormal, IsDead, item_of, state_of, slot_at, first_unused, fits, with_put, largest_item, most_slots};

use crate::line::{LinePointer, Slot};
use std::alloc::{AllocError, Global};
use std::marker::Model;
use std::mem;

/// The most slots of a page.
const MOST_SLOTS: usize = 291;

/// The size of a line pointer, in bytes.
const POINTER_SIZE: u16 = 4;

/// The bytes of a page, of 8,192, that its header does not take.
const ROOM: u16 = 8192 - 24;

/// An item that does not fit on a page, handed back.
#[derive(Debug, Drop)]
pub struct NoRoom<T> {
    pub item: T,
}

/// A page: at most 291 slots and their items, which with the header of 24 bytes take at most 8,192 bytes.
///
/// Contracts see the list of the slots, each with what stands in it.
#[derive(Debug, Drop)]
pub struct Page<T> {
    slots: Vec<LinePointer<T>>,
    /// The bytes that neither the header nor the line pointers nor the items take.
    room: u16,
}

impl<T> Model for Page<T> {
    ghost use Rattle.std.specs.Prelude.{List, ◌≤◌, vec_capacity};
    ghost use Rattle.slot_page.specs.declared.line.LinePointer.{LinePointer};
    ghost use Rattle.slot_page.specs.Slots.{IsPage, most_slots};

    ghost Value = { List (LinePointer T) };

    ghost view = { λ page. page.slots.items };

    ghost invariant = { λ page. IsPage page.slots.items page.room × (most_slots ≤ vec_capacity page.slots) };
}

/// The bytes that an item of this size takes.
fn rounded(size: u16) -> u16
    requires { size ≤ 65528 }
    ensures { result ≡ rounded size }
{
    (size + 7) / 8 * 8
}

/// The lowest unused slot, if there is one.
fn unused_slot<T>(slots: &[LinePointer<T>]) -> Option<usize>
    ensures { result ≡ position is_unused slots.now }
{
    slots.iter().position(|slot| slot.is_unused())
}

impl<T: Drop> Page<T> {
    ghost use Rattle.slot_page.specs.Lends.{lends_at};

    /// A page with no slot, and memory for as many slots as a page may have: no later call takes any.
    pub fn new(alloc: Global) -> Result<Page<T>, AllocError>
        ensures { IfOk result (λ page. page ≡ []) }
    {
        Ok(Page {
            slots: Vec::with_capacity(alloc, MOST_SLOTS)?,
            room: ROOM,
        })
    }

    /// Puts an item of this many bytes in the lowest unused slot, else in a new one, and answers the slot.
    ///
    /// # Errors
    /// `NoRoom` hands the item back exactly where it does not fit. The page is then as before.
    pub fn put(&mut self, size: u16, item: T) -> Result<u16, NoRoom<T>>
        requires least { 24 ≤ size }
        requires most { size ≤ largest_item }
        ensures fits { is_ok result ≡ fits size self.old }
        ensures slot { IfOk result (λ slot. slot ≡ first_unused self.old) }
        ensures put { OnOk result (self.new ≡ with_put size item self.old) }
        ensures handed_back { IfErr result (λ none. none.item ≡ item) }
        ensures unchanged { OnErr result (self.new ≡ self.old) }
    {
        let taken = rounded(size);
        if self.room < taken {
            return Err(NoRoom { item });
        }
        match unused_slot(&self.slots) {
            Some(slot) => {
                self.slots[slot] = LinePointer::Normal { size, item };
                self.room -= taken;
                Ok(slot as u16)
            }
            None => {
                let slot = self.slots.len();
                if slot >= MOST_SLOTS || self.room < taken + POINTER_SIZE {
                    return Err(NoRoom { item });
                }
                if self.slots.push(LinePointer::Normal { size, item }).is_err() {
                    unreachable!();
                }
                self.room -= taken + POINTER_SIZE;
                Ok(slot as u16)
            }
        }
    }

    /// The item at a slot, if there is one.
    pub fn get(&self, slot: u16) -> Option<&T>
        ensures { option_copied result ≡ item_of (slot_at self.now slot) }
    {
        self.slots.get(slot as usize)?.item()
    }

    /// The item at a slot for writing, if there is one; its size stays.
    pub fn get_mut(&mut self, slot: u16) -> Option<&mut T>
        ensures* writes_back { sem 𝓛 (lends_at T.row self.entry slot result) }
        ensures item { option_map (λ item. item.now) result ≡ item_of (slot_at self.old slot) }
    {
        self.slots.get_mut(slot as usize)?.item_mut()
    }

    /// The state of a slot; one past the end is unused.
    pub fn state(&self, slot: u16) -> Slot
        ensures { result ≡ state_of (slot_at self.now slot) }
    {
        match self.slots.get(slot as usize) {
            Some(line) => line.state(),
            None => Slot::Unused,
        }
    }

    /// The first slot from one on that has an item, if there is one.
    pub(crate) fn next_item(&self, from: u16) -> Option<u16>
        ensures found { IfSome result (λ slot. IsNextSlot self.now from slot) }
        ensures none { IfNone result ((k : ℕ) → from ≤ k → item_of (slot_at self.now k) ≡ None) }
    {
        for slot in from..self.len() {
            if self.get(slot).is_some() {
                return Some(slot);
            }
        }
        None
    }

    /// The number of slots, unused ones included.
    pub fn len(&self) -> u16
        ensures count { result ≡ length self.now }
        ensures most { result ≤ most_slots }
    {
        self.slots.len() as u16
    }

    /// Takes the item out of a slot, which is then dead: its bytes are free, and no other item takes the slot.
    pub fn make_dead(&mut self, slot: u16) -> T
        requires { IsNormal (slot_at self.old slot) }
        ensures item { item_of (slot_at self.old slot) ≡ Some result }
        ensures dead { self.new ≡ slice_set self.old slot LinePointer.Dead }
    {
        let line = &mut self.slots[slot as usize];
        match mem::replace(line, LinePointer::Dead) {
            LinePointer::Normal { size, item } => {
                self.room += rounded(size);
                item
            }
            LinePointer::Dead | LinePointer::Unused => unreachable!(),
        }
    }

    /// Frees a dead slot for another item.
    pub fn make_unused(&mut self, slot: u16)
        requires { IsDead (slot_at self.old slot) }
        ensures { self.new ≡ slice_set self.old slot LinePointer.Unused }
    {
        self.slots[slot as usize] = LinePointer::Unused;
    }
}
