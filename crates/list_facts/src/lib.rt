//! Lists, as the crates above pass them about: an owned list whose contracts see its items alone,
//! and facts about lists that std lacks.
#![tactic(auto)]

ghost use Rattle.std.specs.Prelude.{◌≡◌, ◌<◌, ◌↔◌, ◌++◌, ◌∷◌, [], length, IfOk, IsTrue, OnErr, OnOk, slice_get, slice_set, take};
ghost use Rattle.std.specs.Option.{option_copied};

use std::alloc::{AllocError, Global};
use std::marker::Model;

/// A list that owns its items.
///
/// Contracts see the list of the items, and nothing of the room that is kept for more.
#[derive(Debug, Drop)]
pub struct ListOf<T> {
    items: Vec<T>,
}

impl<T> Model for ListOf<T> {
    ghost use Rattle.std.specs.Prelude.{List};

    ghost Value = { List T };

    ghost view = { λ list. list.items.items };
}

impl<T: Drop> ListOf<T> {
    /// An empty list, which takes no memory yet.
    pub fn new(alloc: Global) -> Self
        ensures { result ≡ [] }
    {
        ListOf {
            items: Vec::new(alloc),
        }
    }

    /// The list of a vector's items.
    pub fn from_vec(items: Vec<T>) -> Self
        ensures { result ≡ items.items }
    {
        ListOf { items }
    }

    /// The items as a vector.
    pub fn into_vec(self) -> Vec<T>
        ensures { result.items ≡ self }
    {
        self.items
    }

    /// The number of items.
    pub fn len(&self) -> usize
        ensures { result ≡ length self.now }
    {
        self.items.len()
    }

    /// Whether there is no item.
    pub fn is_empty(&self) -> bool
        ensures { IsTrue result ↔ (self.now ≡ []) }
    {
        self.items.is_empty()
    }

    /// The items in place.
    pub fn as_slice(&self) -> &[T]
        ensures { result.now ≡ self.now }
    {
        self.items.as_slice()
    }

    /// The item at a place, counted from 0, if there is one.
    pub fn get(&self, at: usize) -> Option<&T>
        ensures { option_copied result ≡ slice_get self.now at }
    {
        self.items.get(at)
    }

    /// Adds an item at the end. Where there is no memory, the item is dropped and the list stays.
    pub fn push(&mut self, item: T) -> Result<(), AllocError>
        ensures ok { OnOk result (self.new ≡ self.old ++ item ∷ []) }
        ensures err { OnErr result (self.new ≡ self.old) }
    {
        self.items.push(item)?;
        Ok(())
    }

    /// Puts an item in the place of one that is there, which is dropped.
    pub fn set(&mut self, at: usize, item: T)
        requires { at < length self.old }
        ensures { self.new ≡ slice_set self.old at item }
    {
        self.items[at] = item;
    }

    /// Drops the items from a place on. The room that they took is kept.
    pub fn truncate(&mut self, len: usize)
        ensures { self.new ≡ take len self.old }
    {
        self.items.truncate(len);
    }

    /// Keeps room for this many items more. The items stay.
    pub fn reserve(&mut self, more: usize) -> Result<(), AllocError>
        ensures { self.new ≡ self.old }
    {
        self.items.reserve(more)?;
        Ok(())
    }
}

impl<T: Copy> ListOf<T> {
    /// A list of copies of these items.
    pub fn from_slice(alloc: Global, items: &[T]) -> Result<Self, AllocError>
        ensures { IfOk result (λ list. list ≡ items.now) }
    {
        let mut list = ListOf::new(alloc);
        list.extend_from_slice(items)?;
        Ok(list)
    }

    /// Adds a copy of each item, in order. Where there is no memory, the list stays.
    pub fn extend_from_slice(&mut self, more: &[T]) -> Result<(), AllocError>
        ensures ok { OnOk result (self.new ≡ self.old ++ more.now) }
        ensures err { OnErr result (self.new ≡ self.old) }
    {
        self.items.extend_from_slice(more)?;
        Ok(())
    }
}

impl<T: PartialEq> PartialEq for ListOf<T> {
    ghost use Rattle.std.specs.Cmp.Lexicographic.{lists_per, pointwise};

    ghost eq = { pointwise T.eq };

    ghost laws = { lists_per T.laws };

    fn eq(&self, other: &Self) -> bool {
        self.items == other.items
    }
}

impl<T: Clone> Clone for ListOf<T> {
    ghost use Rattle.std.specs.List.{AllZip};

    ghost is_clone = { AllZip T.is_clone };

    fn clone(&self) -> Result<Self, AllocError> {
        let items = self.items.clone()?;
        Ok(ListOf { items })
    }
}

#[cfg(test)]
mod tests {
    use super::ListOf;
    use std::alloc::AllocError;

    #[test]
    fn a_list_of_lists_is_made_changed_and_copied(rt: HostRuntime) -> Result<(), AllocError> {
        let alloc = rt.alloc();
        let mut bytes = ListOf::from_slice(alloc, &[1u8, 2])?;
        bytes.extend_from_slice(&[3])?;
        bytes.reserve(10)?;
        let mut lists = ListOf::new(alloc);
        lists.push(bytes)?;
        lists.push(ListOf::from_vec(Vec::new(alloc)))?;
        let copy = lists.clone()?;
        assert!(rt; copy == lists);
        lists.set(1, ListOf::from_slice(alloc, &[9])?);
        assert!(rt; copy != lists);
        assert!(rt; lists.len() == 2 && !lists.is_empty());
        assert!(rt;
            lists
                .get(0)
                .is_some_and(|list| list.as_slice() == &[1u8, 2, 3][..])
        );
        assert!(rt; lists.get(2).is_none());
        lists.truncate(1);
        assert!(rt; lists.into_vec().len() == 1);
        Ok(())
    }
}
