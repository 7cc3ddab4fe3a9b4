//! Line pointers, and the places of items.

use list_facts::ListOf;

/// The place of an item in a relation: its page and its slot there, both counted from 0
/// (PostgreSQL's tuple identifier).
#[derive(Clone, Copy, Debug, PartialEq, Eq, PartialOrd, Ord)]
pub struct Tid {
    pub page: u64,
    pub slot: u16,
}

/// A list of tids.
pub type TidList = ListOf<Tid>;

/// The state of a slot.
#[derive(Clone, Copy, Debug, PartialEq, Eq)]
pub enum Slot {
    /// It has an item.
    Normal,
    /// Its item is gone, and something may still name the slot.
    Dead,
    /// It is free for another item.
    Unused,
}

/// A slot of a page with what stands in it (PostgreSQL's line pointer and its item).
#[derive(Debug, Drop)]
pub enum LinePointer<T> {
    /// An item, and how many bytes it takes before they are rounded up.
    Normal { size: u16, item: T },
    /// No item any more; something may still name the slot.
    Dead,
    /// Free for another item.
    Unused,
}

impl<T> LinePointer<T> {
    ghost use Rattle.std.specs.Prelude.{◌≡◌, option_copied};
    ghost use Rattle.std.specs.Option.{option_map};
    ghost use Rattle.std.specs.Borrow.{sem};
    ghost use Rattle.slot_page.specs.Slots.{is_unused, item_of, state_of};
    ghost use Rattle.slot_page.specs.Lends.{lends_item};

    /// Whether another item may take the slot.
    pub(crate) fn is_unused(&self) -> bool
        ensures { result ≡ is_unused self.now }
    {
        matches!(self, LinePointer::Unused)
    }

    /// The slot's state.
    pub(crate) fn state(&self) -> Slot
        ensures { result ≡ state_of self.now }
    {
        match self {
            LinePointer::Normal { .. } => Slot::Normal,
            LinePointer::Dead => Slot::Dead,
            LinePointer::Unused => Slot::Unused,
        }
    }

    /// The item, if there is one.
    pub(crate) fn item(&self) -> Option<&T>
        ensures { option_copied result ≡ item_of self.now }
    {
        match self {
            LinePointer::Normal { item, .. } => Some(item),
            LinePointer::Dead | LinePointer::Unused => None,
        }
    }

    /// The item for writing, if there is one; its size stays.
    pub(crate) fn item_mut(&mut self) -> Option<&mut T>
        ensures* writes_back { sem 𝓛 (lends_item T.row self.entry result) }
        ensures item { option_map (λ item. item.now) result ≡ item_of self.old }
    {
        match self {
            LinePointer::Normal { item, .. } => Some(item),
            LinePointer::Dead | LinePointer::Unused => None,
        }
    }
}
