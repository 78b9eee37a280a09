//! Which block is given, on rows worked out by hand.
ghost use Rattle.free_blocks.specs.Blocks.{blocks_of, cells_of};
ghost use Rattle.std.specs.Prelude.{◌<◌};

use free_blocks::{FreeBlocks, NoMemory, Span};
use std::alloc::Global;
use std::test::Fail;

/// The block that is asked for, by its number.
fn asked(blocks: &FreeBlocks, start: u32) -> Option<u32> {
    match blocks.next_block(start) {
        Some(seen) => Some(seen.block),
        None => None,
    }
}

/// How often a block is given, asked for from its own number on, of so many times.
fn given(blocks: &FreeBlocks, block: u32, times: u32) -> u32 {
    let mut given: u32 = 0;
    for _ in 0..times {
        if asked(blocks, block) == Some(block) {
            given = given.saturating_add(1);
        }
    }
    given
}

/// Of 1,030 cells those from 600 on are free: none of block 0, 424 of block 1, 6 of block 2. When
/// block 2 has none left, block 1 is given for it.
fn opened(alloc: Global) -> Result<[Option<u32>; 5], NoMemory> {
    let blocks = FreeBlocks::open(alloc, 1030, 600)?;
    let first = asked(&blocks, 0);
    let last = asked(&blocks, 2);
    let counted = given(&blocks, 2, 5);
    let wrapped = asked(&blocks, 2);
    let rest = given(&blocks, 1, 500);
    Ok([first, last, Some(counted), wrapped, Some(rest)])
}

#[test]
fn a_block_is_given_once_for_each_free_cell(rt: HostRuntime) -> Result<(), Fail> {
    let found = opened(rt.alloc())?;
    assert_eq!(rt; found, [Some(1), Some(2), Some(5), Some(1), Some(422)]);
    Ok(())
}

#[test]
fn the_last_block_has_the_cells_that_are_left(rt: HostRuntime) -> Result<(), Fail> {
    let blocks = FreeBlocks::open(rt.alloc(), 1030, 0)?;
    let last = blocks.next_block(2);
    assert!(rt; blocks.cells() == 1030);
    assert!(rt; last.is_some());
    if let Some(seen) = last {
        let wanted = Span {
            first: 1024,
            end: 1030,
        };
        assert_eq!(rt; blocks.span(seen.block), wanted);
    }
    Ok(())
}

/// No cell is free; then one of block 1 is, which is asked for.
fn freed(alloc: Global) -> Result<[Option<u32>; 3], NoMemory> {
    let blocks = FreeBlocks::open(alloc, 1024, 1024)?;
    let none = asked(&blocks, 0);
    if 700 < blocks.cells() {
        blocks.note_free(700);
    }
    Ok([none, asked(&blocks, 0), asked(&blocks, 0)])
}

#[test]
fn a_cell_that_was_freed_is_given(rt: HostRuntime) -> Result<(), Fail> {
    assert_eq!(rt; freed(rt.alloc())?, [None, Some(1), None]);
    Ok(())
}

/// Two cells of one block are thought free. Who asked first finds none, after one more was freed
/// there or not.
fn found_none(alloc: Global, is_freed: bool) -> Result<u32, NoMemory> {
    let blocks = FreeBlocks::open(alloc, 512, 510)?;
    if let Some(seen) = blocks.next_block(0) {
        if is_freed && 3 < blocks.cells() {
            blocks.note_free(3);
        }
        blocks.found_none(seen);
    }
    Ok(given(&blocks, 0, 600))
}

#[test]
fn a_block_with_none_is_given_no_more(rt: HostRuntime) -> Result<(), Fail> {
    assert_eq!(rt; found_none(rt.alloc(), false)?, 0);
    Ok(())
}

#[test]
fn a_cell_freed_meanwhile_is_not_forgotten(rt: HostRuntime) -> Result<(), Fail> {
    assert_eq!(rt; found_none(rt.alloc(), true)?, 3);
    Ok(())
}
