//! The hall and its passes.
ghost use Rattle.std.specs.Prelude.{◌≡◌, true, false, IfOk, IfSome, IfNone};
ghost use mathlib.Core.List.{IsPrefix};
ghost use Rattle.turn_hall.specs.Passes.{Extends, ArePlaces, IsPassOf, first_pass, Missed, Won, Took, after_turn, split_off, joined_with, Continues};

use crate::counted::Counted;
use crate::rule::{InTurns, JoinPass, Release, Settle, SplitPass, Try, View};
use atomic_table::{Seat, Table};
use std::alloc::{AllocError, Global};
use std::marker::Model;
use std::snapshot::Snapshot;
use std::sync::Wait;
use std::thread;

/// Holds one value, or waits for the caller that took it to give it back.
#[derive(Drop)]
pub struct Hall<V: Counted> {
    table: Table<Option<V>, View<V::Fixed>, Snapshot<V>, InTurns, Global>,
}

impl<V: Counted> Model for Hall<V> {
    ghost use Rattle.std.specs.Prelude.{◌≡◌};
    ghost use Rattle.turn_hall.specs.Passes.{HallModel};

    ghost Value = { HallModel V.Fixed };

    ghost view = { λ h. record { table = h.table.shared.table_id; fixed = V.fixed h.table.shared.key.value } };

    ghost invariant = { λ h. (h.table.shared.table_id.words ≡ 1) × (h.table.shared.table_id.slots ≡ 1) };
}

/// A caller's token, with no bytes. It is used with the hall that gave it.
#[derive(Drop)]
pub struct Pass<V: Counted> {
    seat: Seat<Option<V>, View<V::Fixed>>,
}

impl<V: Counted> Model for Pass<V> {
    ghost use Rattle.turn_hall.specs.Passes.{PassModel};
    ghost use Rattle.turn_hall.specs.Turns.{Holds, pass_model};

    ghost Value = { PassModel V.Fixed };

    ghost view = { λ p. pass_model p.seat };

    ghost invariant = { λ p. Holds p.seat.me };
}

impl<V: Counted> Hall<V> {
    /// A hall with the value at home, and its first pass, which has seen the whole history.
    /// Where there is no memory the value is dropped.
    pub fn new(alloc: Global, value: V) -> Result<(Hall<V>, Pass<V>), AllocError>
        ensures { IfOk result (λ r. (r.0.fixed ≡ V.fixed value) × (r.1 ≡ first_pass r.0 (V.entries value))) }
    {
        let first = Snapshot::of(&value);
        let word = 2 * value.count();
        let mut slots = Vec::new(alloc);
        slots.push(Some(value))?;
        let Ok((table, seat)) = Table::new(alloc, &[word], slots, &first) else {
            return Err(AllocError);
        };
        Ok((Hall { table }, Pass { seat }))
    }

    /// The value, if it is at home at the first step on the hall's word. This waits for nobody.
    /// For a pass that holds the value there is none, and nothing changes.
    pub fn try_take(&self, pass: &mut Pass<V>) -> Option<V>
        requires { IsPassOf self.now pass.old }
        ensures none { IfNone result (Missed pass.old pass.new) }
        ensures some { IfSome result (λ v. Won pass.old (V.entries v) pass.new) }
        ensures fixed { IfSome result (λ v. V.fixed v ≡ self.now.fixed) }
        ensures own { IsPassOf self.now pass.new }
    {
        let word = self.table.shared.fetch_or::<Try>(&mut pass.seat, 0, 1);
        if word % 2 == 0 {
            self.table.shared.exchange(&mut pass.seat, 0, None)
        } else {
            None
        }
    }

    /// The value, once a try finds it at home. This may wait without end.
    pub fn take<R: Wait>(&self, rt: &R, pass: &mut Pass<V>) -> V
        requires own { IsPassOf self.now pass.old }
        requires idle { pass.old.turn ≡ false }
        ensures took { Took pass.old (V.entries result) pass.new }
        ensures fixed { V.fixed result ≡ self.now.fixed }
        ensures own { IsPassOf self.now pass.new }
    {
        for _ in rt.forever() {
            if let Some(value) = self.try_take(pass) {
                return value;
            }
            thread::yield_now();
        }
        unreachable!()
    }

    /// Gives back the value that the pass took, with its history as it was or one entry longer.
    /// The new entry is the pass's own.
    pub fn give(&self, pass: &mut Pass<V>, value: V)
        requires own { IsPassOf self.now pass.old }
        requires turn { pass.old.turn ≡ true }
        requires history { Extends pass.old.seen (V.entries value) }
        requires fixed { V.fixed value ≡ self.now.fixed }
        ensures pass { pass.new ≡ after_turn pass.old (V.entries value) }
        ensures places { ArePlaces pass.new.mine pass.new.seen }
        ensures own { IsPassOf self.now pass.new }
    {
        let word = 2 * value.count();
        drop(self.table.shared.exchange(&mut pass.seat, 0, Some(value)));
        self.table.shared.store::<Release>(&mut pass.seat, 0, word);
    }

    /// A new pass that has seen as much as this one and has no entries.
    #[tactic(auto, using(crate::proofs::Moves::splits))]
    pub fn split_pass(&self, pass: &mut Pass<V>) -> Pass<V>
        requires own { IsPassOf self.now pass.old }
        requires idle { pass.old.turn ≡ false }
        ensures same { pass.new ≡ pass.old }
        ensures new { result ≡ split_off pass.old }
        ensures own { IsPassOf self.now result }
    {
        Pass {
            seat: self.table.shared.split_seat::<SplitPass>(&mut pass.seat),
        }
    }

    /// Makes one pass of two: it has seen what either had seen, and has the entries of both.
    #[tactic(auto, using(crate::proofs::Moves::joins, crate::proofs::Moves::no_slot))]
    pub fn join_pass(&self, pass: &mut Pass<V>, other: Pass<V>)
        requires own { IsPassOf self.now pass.old × IsPassOf self.now other }
        requires idle { (pass.old.turn ≡ false) × (other.turn ≡ false) }
        ensures pass { pass.new ≡ joined_with pass.old other }
        ensures seen { IsPrefix pass.old.seen pass.new.seen × IsPrefix other.seen pass.new.seen }
        ensures places { ArePlaces pass.new.mine pass.new.seen }
        ensures own { IsPassOf self.now pass.new }
    {
        let Pass { seat } = other;
        self.table
            .shared
            .join_seat::<JoinPass>(&mut pass.seat, seat);
        self.table.shared.load::<Settle>(&mut pass.seat, 0);
    }

    /// Takes the value and ends the hall. This may wait without end.
    pub fn close<R: Wait>(self, rt: &R, mut pass: Pass<V>) -> V
        requires own { IsPassOf self pass }
        requires idle { pass.turn ≡ false }
        ensures history { Continues pass (V.entries result) }
        ensures fixed { V.fixed result ≡ self.fixed }
    {
        self.take(rt, &mut pass)
    }
}
