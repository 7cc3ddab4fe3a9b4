//! The pool of ids.

ghost use Rattle.std.specs.Prelude.{◌≡◌, ◌==◌, ℕ, Bool, ◌+◌, ◌-◌, ◌≤◌, [], ◌∷◌, ◌++◌, Some, not, if◌then◌else◌, IfErr, IfOk, OnErr, OnOk};
ghost use Rattle.value_ids.specs.Ids.{IsPool, first_free_id, first_free_of, id_after, ids_from, is_held, is_in_use, released};
ghost use Rattle.value_ids.specs.Faults.{IsCause};

use crate::fault::DrawFault;
use std::alloc::{AllocError, Global};
use std::marker::Model;

/// What knows which ids are used.
pub trait IdTest {
    /// Whether an id is used.
    ghost is_used: { Self → ℕ → Bool };

    /// Whether an id is used.
    fn used(&self, id: u32) -> bool
        ensures { result ≡ is_used self.now id };
}

/// An id that a session has drawn for a table and has not given up.
#[derive(Clone, Copy, Debug, PartialEq, Eq)]
pub struct InHand {
    pub table: u16,
    pub session: u16,
    pub id: u32,
}

/// The ids from a least to a greatest one, a counter over them, and those in hand.
///
/// Contracts see these four.
#[derive(Debug, Drop)]
pub struct IdPool {
    low: u32,
    high: u32,
    next: u32,
    in_hand: Vec<InHand>,
}

impl Model for IdPool {
    ghost use Rattle.std.specs.Prelude.{◌≤◌};
    ghost use Rattle.value_ids.specs.Ids.{Pool};

    ghost Value = { Pool };

    ghost view = { λ pool. record { low = pool.low; high = pool.high; next = pool.next; in_hand = pool.in_hand.items } };

    ghost invariant = { λ pool. (pool.low ≤ pool.next) × (pool.next ≤ pool.high) };
}

/// Whether an id is in hand for a table.
fn is_held(in_hand: &[InHand], table: u16, id: u32) -> bool
    ensures { result ≡ is_held in_hand.now table id }
{
    in_hand
        .iter()
        .any(|held| held.table == table && held.id == id)
}

/// Whether an id is neither used nor in hand for a table.
fn is_free<T: IdTest>(id: u32, in_hand: &[InHand], table: u16, test: &T) -> bool
    ensures { result ≡ not (is_in_use (T.is_used test.now) in_hand.now table id) }
{
    !test.used(id) && !is_held(in_hand, table, id)
}

/// The first of the ids from `from` on and below `end` that is neither used nor in hand for the table.
fn first_free<T: IdTest>(
    from: u64,
    end: u64,
    in_hand: &[InHand],
    table: u16,
    test: &T,
) -> Option<u32>
    requires ordered { from ≤ end }
    requires most { end ≤ 4294967296 }
    ensures { result ≡ first_free_of (T.is_used test.now) in_hand.now table (ids_from from (end - from)) }
{
    for number in from..end {
        let id = number as u32;
        if is_free(id, in_hand, table, test) {
            return Some(id);
        }
    }
    None
}

/// The id after one, `low` following `high`.
fn id_after(low: u32, high: u32, id: u32) -> u32
    requires { id ≤ high }
    ensures { result ≡ (if id == high then low else id + 1) }
{
    if id == high { low } else { id + 1 }
}

/// Adds an id to those in hand. Where there is no memory, they stay.
fn hold(in_hand: &mut Vec<InHand>, new: InHand) -> Result<(), AllocError>
    ensures ok { OnOk result (in_hand.new.items ≡ in_hand.old.items ++ new ∷ []) }
    ensures err { OnErr result (in_hand.new.items ≡ in_hand.old.items) }
{
    in_hand.push(new)?;
    Ok(())
}

impl IdPool {
    /// A pool of the ids from `low` to `high`, both included, with the counter at `low` and none in hand.
    /// `low` is 16,384 or more, and `high` not below it. It takes no memory yet.
    pub fn new(alloc: Global, low: u32, high: u32) -> Self
        requires least { 16384 ≤ low }
        requires ordered { low ≤ high }
        ensures pool { result ≡ record { low = low; high = high; next = low; in_hand = [] } }
        ensures sound { IsPool result }
    {
        IdPool {
            low,
            high,
            next: low,
            in_hand: Vec::new(alloc),
        }
    }

    /// Draws the first id from the counter on, `low` following `high`, that is neither used nor in hand
    /// for the table. It is then in hand, and the counter stands after it.
    ///
    /// # Errors
    /// `NoValueId` comes exactly where there is none; `in_use` is the number of the pool's ids, each of which
    /// is then in use for the table. `Memory` is for want of memory. After each error the pool is as before.
    pub fn draw<T: IdTest>(&mut self, table: u16, session: u16, test: &T) -> Result<u32, DrawFault>
        ensures id { IfOk result (λ id. first_free_id (T.is_used test.now) self.old table ≡ Some id) }
        ensures taken { IfOk result (λ id. self.new ≡ record self.old { next = id_after self.old id; in_hand = self.old.in_hand ++ (record { table = table; session = session; id = id }) ∷ [] }) }
        ensures cause { IfErr result (IsCause (T.is_used test.now) self.old table) }
        ensures unchanged { OnErr result (self.new ≡ self.old) }
        ensures sound { IsPool self.new }
    {
        let Some(id) = self.free_id(table, test) else {
            return Err(DrawFault::NoValueId {
                in_use: u64::from(self.high) - u64::from(self.low) + 1,
            });
        };
        hold(&mut self.in_hand, InHand { table, session, id })?;
        self.next = id_after(self.low, self.high, id);
        Ok(id)
    }

    /// The id that a draw gives.
    fn free_id<T: IdTest>(&self, table: u16, test: &T) -> Option<u32>
        ensures id { result ≡ first_free_id (T.is_used test.now) self.now table }
        ensures sound { IsPool self.now }
    {
        let next = u64::from(self.next);
        match first_free(next, u64::from(self.high) + 1, &self.in_hand, table, test) {
            Some(id) => Some(id),
            None => first_free(u64::from(self.low), next, &self.in_hand, table, test),
        }
    }

    /// Gives up the ids that a session has in hand.
    pub fn release(&mut self, session: u16)
        ensures released { self.new ≡ record self.old { in_hand = released self.old.in_hand session } }
        ensures sound { IsPool self.new }
    {
        self.in_hand.retain(|held| held.session != session);
    }
}
