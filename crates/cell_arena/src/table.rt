//! The blocks of an arena by their places.
ghost use Rattle.std.specs.Prelude.{◌≡◌, ◌≢◌, ◌⊎◌, ◌+◌, ◌*◌, ◌<◌, ◌≤◌, List, [], IfOk, length};
ghost use Rattle.std_alloc.specs.Vec.{vec_capacity, vec_len};
ghost use Rattle.cell_arena.specs.Cells.{cell_at};
ghost use Rattle.cell_arena.specs.Entries.{AreAdded, AreFree, HasBlocks, IsAdded, IsFilled, IsOpen, IsReleased, IsTable, IsVacant, cells_here, cells_of, free_here, total, with_cell};
ghost use Rattle.cell_arena.specs.Sweeps.{AreSwept};
ghost use Rattle.cell_arena.specs.declared.entry.Entry.{Entry};

use crate::block::Block;
use crate::cell::BLOCK_CELLS;
use crate::entry::{Entry, Swept};
use std::alloc::{AllocError, Global};

/// How many cells of a place are free.
pub(crate) fn free_cells(entry: &Entry) -> usize
    requires { length (cells_here entry.now.block) ≡ 64 }
    ensures { result ≡ free_here entry.now.block }
{
    match &entry.block {
        Some(block) => BLOCK_CELLS - block.used(),
        None => 0,
    }
}

/// Puts bytes into a free cell of the block at a place, and answers which.
pub(crate) fn fill(entry: &mut Entry, bytes: &[u8]) -> usize
    requires open { IsOpen entry.old.block }
    requires bytes { (0 < length bytes.now) × (length bytes.now ≤ 1996) }
    ensures free { (result < 64) × (cell_at (cells_here entry.old.block) result ≡ []) }
    ensures full { entry.new ≡ with_cell entry.old result bytes.now }
{
    match &mut entry.block {
        Some(block) => block.put(bytes),
        None => unreachable!(),
    }
}

/// Empties a cell of the block at a place.
pub(crate) fn empty(entry: &mut Entry, number: usize)
    requires { (number < 64) × (cell_at (cells_here entry.old.block) number ≢ []) }
    ensures { entry.new ≡ with_cell entry.old number [] }
{
    match &mut entry.block {
        Some(block) => block.free(number),
        None => unreachable!(),
    }
}

/// Puts bytes into a free cell of the first block that has one, and answers the cell, and which block
/// is then the first.
pub(crate) fn put_first(entries: &mut [Entry], first: usize, bytes: &[u8]) -> (usize, usize)
    requires table { IsTable entries.old first }
    requires room { (first < length entries.old) × (0 < total free_here entries.old) }
    requires bytes { (0 < length bytes.now) × (length bytes.now ≤ 1996) }
    ensures { IsFilled entries.old first bytes.now result.0 entries.new result.1 }
{
    let cell = fill(&mut entries[first], bytes);
    if free_cells(&entries[first]) > 0 {
        return (cell, first);
    }
    (cell, entries[first].next)
}

/// Empties a cell that holds bytes, and answers which block is then the first with a free cell.
pub(crate) fn release(entries: &mut [Entry], first: usize, place: usize, cell: usize) -> usize
    requires table { IsTable entries.old first }
    requires cell { (place < length entries.old) × (cell < 64) }
    requires held { cell_at (cells_of entries.old) (place * 64 + cell) ≢ [] }
    ensures { IsReleased entries.old (place * 64 + cell) entries.new result }
{
    let was_full = free_cells(&entries[place]) == 0;
    empty(&mut entries[place], cell);
    if was_full {
        entries[place].next = first;
        return place;
    }
    first
}

/// So many blocks, in which all cells are free.
///
/// # Errors
/// Want of memory.
pub(crate) fn new_blocks(alloc: Global, count: usize) -> Result<Vec<Block>, AllocError>
    ensures { IfOk result (λ blocks. (length blocks.items ≡ count) × AreFree blocks.items) }
{
    let mut blocks = Vec::with_capacity(alloc, count)?;
    for _ in 0..count {
        blocks.push_reserved(Block::new(alloc)?);
    }
    Ok(blocks)
}

/// The first place from `from` on where no block is, else the one behind the last.
fn vacant_from(entries: &[Entry], from: usize) -> usize
    ensures { (result ≡ length entries.now) ⊎ IsVacant entries.now result }
{
    for place in from..entries.len() {
        if entries[place].block.is_none() {
            return place;
        }
    }
    entries.len()
}

/// Puts an entry at the first place from `from` on where no block is, else behind the last, and
/// answers the place.
fn add(entries: &mut Vec<Entry>, from: usize, entry: Entry) -> usize
    requires { vec_len entries.old < vec_capacity entries.old }
    ensures added { IsAdded entries.old.items result entry entries.new.items }
    ensures capacity { vec_capacity entries.new ≡ vec_capacity entries.old }
{
    let place = vacant_from(entries, from);
    if place < entries.len() {
        entries[place] = entry;
    } else {
        entries.push_reserved(entry);
    }
    place
}

/// Adds blocks in which all cells are free, and answers the first block with a free cell. Places are
/// looked for from `vacant` on, which is then the place behind the last that was taken.
pub(crate) fn add_all(
    entries: &mut Vec<Entry>,
    fresh: Vec<Block>,
    first: usize,
    vacant: usize,
) -> (usize, usize)
    requires room { vec_len entries.old + vec_len fresh ≤ vec_capacity entries.old }
    requires fresh { AreFree fresh.items }
    requires table { IsTable entries.old.items first }
    ensures { AreAdded entries.old.items (vec_len fresh) entries.new.items result.0 }
{
    let mut fresh = fresh;
    let mut last = first;
    let mut from = vacant;
    while let Some(block) = fresh.pop() {
        let entry = Entry {
            block: Some(block),
            next: last,
        };
        last = add(entries, from, entry);
        from = last + 1;
    }
    (last, from)
}

/// Sweeps one place: takes its block away where all of its cells are free and `keep` free cells stay,
/// and otherwise links it where it has a free cell.
fn sweep_place(entries: &mut [Entry], swept: Swept, place: usize, keep: usize) -> Swept
    requires place { place < length entries.old }
    requires whole { HasBlocks entries.old }
    requires spare { swept.spare ≡ total free_here entries.old }
    ensures { (old : List Entry) → AreSwept old keep place swept entries.old → AreSwept old keep (place + 1) result entries.new }
{
    let free = free_cells(&entries[place]);
    if free == BLOCK_CELLS && keep <= swept.spare - BLOCK_CELLS {
        entries[place].block = None;
        return Swept {
            first: swept.first,
            spare: swept.spare - BLOCK_CELLS,
        };
    }
    if free > 0 {
        entries[place].next = swept.first;
        return Swept {
            first: place,
            spare: swept.spare,
        };
    }
    swept
}

/// Takes away blocks in which all cells are free, while `keep` free cells stay, and links the blocks
/// that are left and have a free cell.
pub(crate) fn sweep(entries: &mut [Entry], spare: usize, keep: usize) -> Swept
    requires whole { HasBlocks entries.old }
    requires spare { spare ≡ total free_here entries.old }
    ensures { AreSwept entries.old keep (length entries.old) result entries.new }
{
    let mut swept = Swept { first: 0, spare };
    for place in 0..entries.len() {
        swept = sweep_place(entries, swept, place, keep);
    }
    swept
}
