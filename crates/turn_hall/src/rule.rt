//! What a seat at the hall's table knows, and the kinds of atomic step.
ghost use Rattle.turn_hall.specs.Turns.{Turns, onlooker, Tries, Releases, Settles, told, joined, spent};

use crate::counted::Counted;
use atomic_table::{Join, Play, Split, TableRule};
use std::collections::LinkedList;
use std::snapshot::Snapshot;

/// What a seat knows. No value of it is made.
pub struct View<F> {
    // It holds the value.
    pub turn: bool,
    // The history that it has seen.
    pub seen: LinkedList<(u64, u64, u64)>,
    // The positions of its own entries in the history.
    pub mine: LinkedList<u64>,
    // What no turn changes, for each seat that is not spent.
    pub fixed: Option<F>,
    // What its tries found in word 0.
    pub tries: LinkedList<u64>,
    // A history that it took in by a join and has not compared yet.
    pub heard: LinkedList<(u64, u64, u64)>,
}

/// The rule, told the first value when the table is made.
pub struct InTurns;

impl<V: Counted> TableRule<Option<V>, View<V::Fixed>, Snapshot<V>> for InTurns {
    ghost holds = { λ first. Turns V.entries V.fixed first.value };

    ghost first = { λ first. onlooker (V.entries first.value) (V.fixed first.value) };
}

/// Sets the lowest bit of word 0: where it was not set, the caller has the value.
pub struct Try;

impl<V: Counted> Play<Option<V>, View<V::Fixed>> for Try {
    ghost then = { Tries V.entries V.fixed };
}

/// Stores twice the new length in word 0: the value is at home.
pub struct Release;

impl<V: Counted> Play<Option<V>, View<V::Fixed>> for Release {
    ghost then = { Releases V.entries };
}

/// Looks at word 0 after a join, when both passes were of one history.
pub struct Settle;

impl<V: Counted> Play<Option<V>, View<V::Fixed>> for Settle {
    ghost then = { Settles };
}

/// Cuts a pass in two: the new one has seen as much and has no entries.
pub struct SplitPass;

impl<F> Split<View<F>> for SplitPass {
    ghost left = { λ v. v };

    ghost right = { told };
}

/// Makes one pass of two, which has seen the longer history and has the entries of both.
pub struct JoinPass;

impl<F> Join<View<F>> for JoinPass {
    ghost both = { joined };

    ghost spent = { spent };
}
