//! Two threads that ask for blocks at once. What is asserted stands on every schedule.

use free_blocks::FreeBlocks;
use std::test::Fail;
use std::thread;

const ASKS: u32 = 2_000;

/// How many blocks a thread is given when it asks so often.
fn ask_each(blocks: &FreeBlocks, start: u32) -> u32 {
    let mut given: u32 = 0;
    for _ in 0..ASKS {
        if blocks.next_block(start).is_some() {
            given = given.saturating_add(1);
        }
    }
    given
}

#[test]
fn each_free_cell_is_given_to_one_thread(rt: HostRuntime) -> Result<(), Fail> {
    let blocks = FreeBlocks::open(rt.alloc(), 2048, 0)?;
    let shared = &blocks;
    let (one, other) = thread::join(
        &rt,
        move || ask_each(shared, 0),
        move || ask_each(shared, 2),
    );
    assert_eq!(rt; one.saturating_add(other), 2048);
    assert!(rt; blocks.next_block(0).is_none());
    Ok(())
}
