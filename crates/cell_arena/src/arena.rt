//! The arena: a map from cell numbers to bytes.
ghost use Rattle.std.specs.Prelude.{◌≡◌, ◌≢◌, ◌+◌, ◌*◌, ◌<◌, ◌≤◌, [], OnErr, OnOk, length, slice_set};
ghost use Rattle.cell_arena.specs.Cells.{CellMap, IsCounted, IsGivenBack, IsReserved, cell_at};

use crate::cell::BLOCK_CELLS;
use crate::entry::Entry;
use crate::table::{add_all, new_blocks, put_first, release, sweep};
use std::alloc::{AllocError, Global};
use std::marker::Model;

/// The number of a cell that holds bytes. Contracts see the number.
#[derive(Drop, Debug, PartialEq, Eq)]
pub struct CellId {
    number: usize,
}

impl Model for CellId {
    ghost use Rattle.std.specs.Prelude.{ℕ};

    ghost Value = { ℕ };

    ghost view = { λ id. id.number };

    ghost inverse = { λ id. record { number = id } };
}

/// Cells in blocks of 64, each with room for 1,996 bytes.
///
/// Contracts see what it has under each cell number, how many cells are free, and how many blocks it
/// has. It owns all its memory, which a drop gives back, and may cross threads.
#[derive(Drop)]
pub struct CellArena {
    /// The blocks by their places.
    entries: Vec<Entry>,
    /// The block that is filled next, from which the others with a free cell are reached. It is
    /// followed only where a cell is free.
    first: usize,
    /// How many cells are free.
    spare: usize,
    /// How many blocks there are.
    blocks: usize,
    /// From where on a place without a block is looked for, so that no place is passed twice between
    /// two calls that give blocks back.
    vacant: usize,
}

impl Model for CellArena {
    ghost use Rattle.cell_arena.specs.Cells.{CellMap};

    ghost Value = { CellMap };

    ghost use Rattle.cell_arena.specs.Entries.{IsArena, cells_of};

    ghost view = { λ arena. record { cells = cells_of arena.entries.items; spare = arena.spare; blocks = arena.blocks } };

    ghost invariant = { λ arena. IsArena arena.entries.items arena.first arena.spare arena.blocks };
}

impl CellArena {
    /// An arena without a block, which takes no memory yet.
    pub fn new(alloc: Global) -> CellArena
        ensures { result ≡ record { cells = []; spare = 0; blocks = 0 } }
    {
        CellArena {
            entries: Vec::new(alloc),
            first: 0,
            spare: 0,
            blocks: 0,
            vacant: 0,
        }
    }

    /// How many cells are free: so many puts can be made without memory. With those that hold bytes
    /// they are all cells of the blocks.
    pub fn spare(&self) -> usize
        ensures spare { result ≡ self.now.spare }
        ensures counted { IsCounted self.now }
    {
        self.spare
    }

    /// How many blocks there are.
    pub fn blocks(&self) -> usize
        ensures { result ≡ self.now.blocks }
    {
        self.blocks
    }

    /// Adds blocks until at least `n` cells are free, and no more than that takes. It takes time linear
    /// in the blocks that it adds, beside one pass over all places after blocks were given back.
    ///
    /// # Errors
    /// Want of memory: all is as before.
    pub fn reserve(&mut self, n: usize) -> Result<(), AllocError>
        requires { n ≤ 1000000 }
        ensures ok { OnOk result (IsReserved self.old n self.new) }
        ensures err { OnErr result (self.new ≡ self.old) }
    {
        if self.spare >= n {
            return Ok(());
        }
        let count = (n - self.spare).div_ceil(BLOCK_CELLS);
        let alloc = *self.entries.allocator();
        let fresh = new_blocks(alloc, count)?;
        self.entries.reserve(count)?;
        let (first, vacant) = add_all(&mut self.entries, fresh, self.first, self.vacant);
        self.first = first;
        self.vacant = vacant;
        self.blocks += count;
        self.spare += BLOCK_CELLS * count;
        Ok(())
    }

    /// Puts 1 to 1,996 bytes into a free cell. It takes constant time beside the copy.
    pub fn put(&mut self, bytes: &[u8]) -> CellId
        requires room { 1 ≤ self.old.spare }
        requires bytes { (0 < length bytes.now) × (length bytes.now ≤ 1996) }
        ensures id { (result < length self.old.cells) × (cell_at self.old.cells result ≡ []) }
        ensures cells { self.new.cells ≡ slice_set self.old.cells result bytes.now }
        ensures spare { self.new.spare + 1 ≡ self.old.spare }
        ensures blocks { self.new.blocks ≡ self.old.blocks }
    {
        let place = self.first;
        let (cell, first) = put_first(&mut self.entries, place, bytes);
        self.first = first;
        self.spare -= 1;
        CellId {
            number: place * BLOCK_CELLS + cell,
        }
    }

    /// The bytes under an id, in constant time.
    pub fn get(&self, id: &CellId) -> &[u8]
        requires { cell_at self.now.cells id.now ≢ [] }
        ensures { result.now ≡ cell_at self.now.cells id.now }
    {
        match &self.entries[id.number / BLOCK_CELLS].block {
            Some(block) => block.get(id.number % BLOCK_CELLS),
            None => unreachable!(),
        }
    }

    /// Empties a cell, in constant time.
    pub fn free(&mut self, id: CellId)
        requires { cell_at self.old.cells id ≢ [] }
        ensures cells { self.new.cells ≡ slice_set self.old.cells id [] }
        ensures spare { self.new.spare ≡ self.old.spare + 1 }
        ensures blocks { self.new.blocks ≡ self.old.blocks }
    {
        let place = id.number / BLOCK_CELLS;
        self.first = release(
            &mut self.entries,
            self.first,
            place,
            id.number % BLOCK_CELLS,
        );
        self.spare += 1;
    }

    /// Gives back blocks in which all cells are free, while at least `keep` free cells stay, until
    /// none can be given, and answers their number. It takes time linear in the greatest number of
    /// blocks that there were at once.
    pub fn give_back_blocks(&mut self, keep: usize) -> usize
        ensures { IsGivenBack self.old keep result self.new }
    {
        let swept = sweep(&mut self.entries, self.spare, keep);
        // Each block that is gone had 64 free cells.
        let given = (self.spare - swept.spare) / BLOCK_CELLS;
        self.first = swept.first;
        self.spare = swept.spare;
        self.blocks -= given;
        self.vacant = 0;
        given
    }
}
