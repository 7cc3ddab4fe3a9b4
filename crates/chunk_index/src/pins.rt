//! Which sessions have a leaf pinned.

ghost use Rattle.std.specs.Prelude.{◌≡◌, ◌≤◌, [], None, length, nat_lt, position, OnErr, OnOk};
ghost use Rattle.std.specs.List.{position_or_len};
ghost use Rattle.chunk_index.specs.Leaves.{same_leaf};

use crate::entry::{Entry, Pin};
use std::alloc::{AllocError, Global};
use std::marker::Model;

/// The pins. Contracts see them in the order of their sessions, none of which has two.
#[derive(Debug, Drop)]
pub(crate) struct Pins {
    pins: Vec<Pin>,
}

impl Model for Pins {
    ghost use Rattle.std.specs.Prelude.{List};
    ghost use Rattle.std.specs.List.Sorted.{IsStrictlySortedBy};
    ghost use Rattle.chunk_index.specs.declared.entry.Pin.{Pin};
    ghost use Rattle.chunk_index.specs.Pinned.{pin_cmp};

    ghost Value = { List Pin };

    ghost view = { λ pins. pins.pins.items };

    ghost invariant = { λ pins. IsStrictlySortedBy pin_cmp pins.pins.items };
}

/// Whether two bounds name one leaf.
fn same_leaf(leaf: &Option<Entry>, other: &Option<Entry>) -> bool
    ensures { result ≡ same_leaf leaf.now other.now }
{
    match (leaf, other) {
        (None, None) => true,
        (Some(bound), Some(other)) => bound.cmp(other).is_eq(),
        (None, Some(_)) | (Some(_), None) => false,
    }
}

impl Pins {
    ghost use Rattle.std.specs.List.Sorted.{IsStrictlySortedBy};
    ghost use Rattle.chunk_index.specs.Pinned.{holder_of, pin_cmp, pin_of, with_pin, without_pin};

    /// No pin, which takes no memory yet.
    pub(crate) fn new(alloc: Global) -> Self
        ensures { result ≡ [] }
    {
        Pins {
            pins: Vec::new(alloc),
        }
    }

    /// Pins a leaf for a session that has no pin. Where there is no memory, nothing changes.
    pub(crate) fn pin(&mut self, session: u16, leaf: Option<Entry>) -> Result<(), AllocError>
        requires { pin_of self.old session ≡ None }
        ensures pinned { OnOk result (self.new ≡ with_pin self.old session leaf) }
        ensures unchanged { OnErr result (self.new ≡ self.old) }
        ensures sorted { IsStrictlySortedBy pin_cmp self.new }
    {
        let place = place_of(&self.pins, session);
        self.pins.insert(place, Pin { session, leaf })?;
        Ok(())
    }

    /// Drops a session's pin, if it has one.
    pub(crate) fn unpin(&mut self, session: u16)
        ensures dropped { self.new ≡ without_pin self.old session }
        ensures sorted { IsStrictlySortedBy pin_cmp self.new }
    {
        self.pins.retain(|pin| pin.session != session);
    }

    /// The least session that has a leaf pinned.
    pub(crate) fn holder(&self, leaf: &Option<Entry>) -> Option<u16>
        ensures holder { result ≡ holder_of self.now leaf.now }
        ensures sorted { IsStrictlySortedBy pin_cmp self.now }
    {
        let pin = self.pins.iter().find(|pin| same_leaf(&pin.leaf, leaf))?;
        Some(pin.session)
    }
}

/// The place of the first pin of a greater session, if there is one.
fn first_beyond(pins: &[Pin], session: u16) -> Option<usize>
    ensures { result ≡ position (λ pin. nat_lt session pin.session) pins.now }
{
    pins.iter().position(|pin| session < pin.session)
}

/// The place of a session's pin: before the first of a greater session.
fn place_of(pins: &[Pin], session: u16) -> usize
    ensures place { result ≡ position_or_len (λ pin. nat_lt session pin.session) pins.now }
    ensures within { result ≤ length pins.now }
{
    first_beyond(pins, session).unwrap_or(pins.len())
}
