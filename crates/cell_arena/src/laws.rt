//! What follows from the contracts of [`crate::CellArena`], and that one may cross threads.
ghost use Rattle.cell_arena.specs.Laws.{EmptyArenasAreSmall, WritesStayApart};

use crate::arena::CellArena;
use std::marker::{Send, Sync};

/// After blocks were given back, an arena that holds no bytes has no more blocks than the cells that
/// were to be kept need.
pub fn empty_arenas_are_small()
    ensures { EmptyArenasAreSmall }
{}

/// What a put or a free writes under one number is read there, and under no other.
pub fn writes_stay_apart()
    ensures { WritesStayApart }
{}

/// An arena may cross threads, moved or shared.
pub fn arenas_cross_threads(arena: CellArena) {
    cross(arena);
}

/// Takes what may cross threads, and drops it.
fn cross<T: Send + Sync + Drop>(value: T) {
    drop(value);
}
