//! A block of cells, whose free cells are linked through themselves.
ghost use Rattle.std.specs.Prelude.{◌≡◌, ◌≢◌, ◌+◌, ◌<◌, ◌≤◌, [], IfOk, length, replicate, slice_set};
ghost use Rattle.cell_arena.specs.Cells.{cell_at, used};

use crate::cell::{BLOCK_CELLS, CELL_BYTES, Cell};
use crate::reach::{at_mut, has_places, place};
use std::alloc::{AllocError, Global};
use std::marker::{Model, Send, Sync};

/// A block of 64 cells. Contracts see, at the place of each cell, the bytes that it holds: none while
/// it is free.
#[derive(Drop)]
pub(crate) struct Block {
    /// The cells, which never move: room for all is made at once.
    cells: Vec<Cell>,
    /// The free cell that is taken next, from which the others are reached. It is followed only where
    /// a cell is free.
    free: *mut Cell,
    /// How many cells hold bytes.
    used: usize,
}

impl Model for Block {
    ghost use Rattle.std.specs.Prelude.{List, map, ℕ};
    ghost use Rattle.std_alloc.specs.Vec.{vec_ptr};
    ghost use Rattle.cell_arena.specs.FreeCells.{content, IsBlock};

    ghost Value = { List (List ℕ) };

    ghost view = { λ block. map content block.cells.items };

    ghost invariant = { λ block. IsBlock (vec_ptr block.cells) block.cells.items block.free block.used };
}

impl Block {
    /// A block of free cells, linked in their order.
    ///
    /// # Errors
    /// Want of memory.
    pub(crate) fn new(alloc: Global) -> Result<Block, AllocError>
        ensures { IfOk result (λ block. block ≡ replicate 64 []) }
    {
        let mut cells = Vec::with_capacity(alloc, BLOCK_CELLS)?;
        has_places(&mut cells);
        let base = cells.as_mut_ptr();
        for number in 0..BLOCK_CELLS {
            cells.push_reserved(Cell {
                next: place(base, number + 1),
                number,
                len: 0,
                bytes: [0; CELL_BYTES],
            });
        }
        Ok(Block {
            cells,
            free: base,
            used: 0,
        })
    }

    /// How many cells hold bytes.
    pub(crate) fn used(&self) -> usize
        ensures { result ≡ used self.now }
    {
        self.used
    }

    /// Puts bytes into the free cell that is next, and answers its number.
    pub(crate) fn put(&mut self, bytes: &[u8]) -> usize
        requires room { used self.old < 64 }
        requires bytes { (0 < length bytes.now) × (length bytes.now ≤ 1996) }
        ensures free { (result < 64) × (cell_at self.old result ≡ []) }
        ensures full { self.new ≡ slice_set self.old result bytes.now }
    {
        let cell = at_mut(&mut self.cells, self.free);
        let next = cell.next;
        let number = cell.number;
        cell.len = bytes.len();
        cell.bytes[..bytes.len()].copy_from_slice(bytes);
        self.free = next;
        self.used += 1;
        number
    }

    /// What a cell holds.
    pub(crate) fn get(&self, number: usize) -> &[u8]
        requires { number < 64 }
        ensures { result.now ≡ cell_at self.now number }
    {
        let cell = &self.cells[number];
        &cell.bytes[..cell.len]
    }

    /// Empties a cell that holds bytes, which is then the next to be taken.
    pub(crate) fn free(&mut self, number: usize)
        requires { (number < 64) × (cell_at self.old number ≢ []) }
        ensures { self.new ≡ slice_set self.old number [] }
    {
        let base = self.cells.as_mut_ptr();
        let here = place(base, number);
        let cell = at_mut(&mut self.cells, here);
        cell.len = 0;
        cell.next = self.free;
        self.free = here;
        self.used -= 1;
    }
}

// A block owns its cells alone, and reaches no other memory through a pointer.
unsafe impl Send for Block {}

unsafe impl Sync for Block {}
