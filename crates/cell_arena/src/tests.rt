ghost use Rattle.std.specs.Prelude.{◌≡◌, ◌<◌, ◌≤◌, IfOk, OnOk, length};
ghost use Rattle.std_alloc.specs.Vec.{vec_len};
ghost use Rattle.cell_arena.specs.Held.{AreHeld};

use crate::{CellArena, CellId};
use std::alloc::{AllocError, Global};
use std::process::Abort;
use std::test::Fail;

/// Puts bytes, and keeps the id as the last.
fn put(arena: &mut CellArena, ids: &mut Vec<Option<CellId>>, bytes: &[u8]) -> Result<(), AllocError>
    requires held { AreHeld arena.old.cells ids.old.items }
    requires room { 1 ≤ arena.old.spare }
    requires bytes { (0 < length bytes.now) × (length bytes.now ≤ 1996) }
    ensures { OnOk result (AreHeld arena.new.cells ids.new.items) }
{
    let id = arena.put(bytes);
    ids.push(Some(id))?;
    Ok(())
}

/// What the k-th id has, until it is freed.
fn get<'a>(arena: &'a CellArena, ids: &[Option<CellId>], k: usize) -> Option<&'a [u8]>
    requires held { AreHeld arena.now.cells ids.now }
    requires there { k < length ids.now }
{
    match &ids[k] {
        Some(id) => Some(arena.get(id)),
        None => None,
    }
}

/// Frees the k-th id.
fn free(arena: &mut CellArena, ids: &mut [Option<CellId>], k: usize)
    requires held { AreHeld arena.old.cells ids.old }
    requires there { k < length ids.old }
    ensures held { AreHeld arena.new.cells ids.new }
    ensures len { length ids.new ≡ length ids.old }
{
    let taken = ids[k].take();
    if let Some(id) = taken {
        arena.free(id);
    }
}

/// What the k-th cell is given.
fn bytes_of(k: usize) -> [u8; 2] {
    [(k % 251) as u8, (k / 251 % 251) as u8]
}

/// An arena with so many cells in use, each with its own bytes.
fn filled(
    rt: &impl Abort,
    alloc: Global,
    count: usize,
) -> Result<(CellArena, Vec<Option<CellId>>), AllocError>
    requires { count ≤ 1000000 }
    ensures { IfOk result (λ made. AreHeld made.0.cells made.1.items) }
{
    let mut arena = CellArena::new(alloc);
    let mut ids = Vec::new(alloc);
    arena.reserve(count)?;
    for k in 0..count {
        assert!(rt; arena.spare() >= 1);
        put(&mut arena, &mut ids, &bytes_of(k))?;
    }
    Ok((arena, ids))
}

/// Reads and frees the ids from `from` up to `to`, but those at multiples of `step`.
fn free_all(
    rt: &impl Abort,
    arena: &mut CellArena,
    ids: &mut [Option<CellId>],
    from: usize,
    to: usize,
    step: usize,
)
    requires { AreHeld arena.old.cells ids.old }
    ensures { AreHeld arena.new.cells ids.new }
{
    for k in from..to {
        assert!(rt; k < ids.len() && step > 0);
        if k % step != 0 {
            assert_eq!(rt; get(arena, ids, k), Some(&bytes_of(k)[..]));
            free(arena, ids, k);
        }
    }
}

/// Reads and frees the 64 ids of a block.
fn free_block(rt: &impl Abort, arena: &mut CellArena, ids: &mut [Option<CellId>], block: usize)
    requires { AreHeld arena.old.cells ids.old }
    ensures { AreHeld arena.new.cells ids.new }
{
    assert!(rt; block < 3);
    for k in 64 * block..64 * block + 64 {
        assert!(rt; k < ids.len());
        assert_eq!(rt; get(arena, ids, k), Some(&bytes_of(k)[..]));
        free(arena, ids, k);
    }
}

#[test]
fn one_cell_in_and_out(rt: HostRuntime) -> Result<(), Fail> {
    let mut arena = CellArena::new(rt.alloc());
    let mut ids = Vec::new(rt.alloc());
    arena.reserve(1)?;
    assert!(rt; arena.spare() >= 1);
    put(&mut arena, &mut ids, &[0xaa])?;
    assert!(rt; ids.len() == 1);
    assert_eq!(rt; get(&arena, &ids, 0), Some(&[0xaa][..]));
    free(&mut arena, &mut ids, 0);
    assert_eq!(rt; arena.give_back_blocks(0), 1);
    assert_eq!(rt; (arena.spare(), arena.blocks()), (0, 0));
    Ok(())
}

#[test]
fn blocks_freed_in_every_order(rt: HostRuntime) -> Result<(), Fail> {
    for [first, second, third] in [
        [0, 1, 2],
        [0, 2, 1],
        [1, 0, 2],
        [1, 2, 0],
        [2, 0, 1],
        [2, 1, 0],
    ] {
        let (mut arena, mut ids) = filled(&rt, rt.alloc(), 192)?;
        assert_eq!(rt; (arena.spare(), arena.blocks()), (0, 3));
        free_block(&rt, &mut arena, &mut ids, first);
        assert_eq!(rt; arena.give_back_blocks(64), 0);
        assert_eq!(rt; (arena.spare(), arena.blocks()), (64, 3));
        free_block(&rt, &mut arena, &mut ids, second);
        assert_eq!(rt; arena.give_back_blocks(64), 1);
        assert_eq!(rt; (arena.spare(), arena.blocks()), (64, 2));
        free_block(&rt, &mut arena, &mut ids, third);
        assert_eq!(rt; arena.give_back_blocks(0), 2);
        assert_eq!(rt; (arena.spare(), arena.blocks()), (0, 0));
    }
    Ok(())
}

#[test]
fn a_cell_held_in_each_block(rt: HostRuntime) -> Result<(), Fail> {
    let (mut arena, mut ids) = filled(&rt, rt.alloc(), 192)?;
    free_all(&rt, &mut arena, &mut ids, 0, 192, 64);
    assert_eq!(rt; arena.give_back_blocks(0), 0);
    assert_eq!(rt; (arena.spare(), arena.blocks()), (189, 3));
    assert!(rt; ids.len() == 192);
    free(&mut arena, &mut ids, 64);
    assert_eq!(rt; arena.give_back_blocks(0), 1);
    assert_eq!(rt; (arena.spare(), arena.blocks()), (126, 2));
    Ok(())
}

#[test]
fn a_hundred_thousand_cells(rt: HostRuntime) -> Result<(), Fail> {
    let (mut arena, mut ids) = filled(&rt, rt.alloc(), 100_000)?;
    assert_eq!(rt; (arena.spare(), arena.blocks()), (32, 1563));
    free_all(&rt, &mut arena, &mut ids, 1, 100_000, 1_000_000);
    assert_eq!(rt; arena.give_back_blocks(163), 1560);
    assert_eq!(rt; (arena.spare(), arena.blocks()), (191, 3));
    Ok(())
}
