//! Waits for an item, on one thread.
use crate::calling::{get, put, wait};
use crate::opening::{Opened, come_in, open_mailbox};
use cell_heap::NoMemory;
use cell_mailbox::Item;
use free_cells::FreeQueue;
use std::alloc::Global;
use std::sync::Wait;
use std::test::Fail;

/// One sends. The other waits before each of two takes.
fn taken_behind_waits<R: Wait>(alloc: Global, rt: &R) -> Result<[Option<Item>; 2], NoMemory> {
    let (queue, pass) = FreeQueue::open(alloc, rt, 8, 2)?;
    let Opened {
        heap,
        first,
        second,
        ..
    } = open_mailbox(alloc, 8)?;
    let mut hints = queue.hints(pass);
    let mut first = come_in(&heap, first, 0);
    let mut second = come_in(&heap, second, 1);
    let _sent = put(rt, &mut hints, &mut first, 0, 0, 5);
    wait(&mut second, 1, 0);
    let taken = get(rt, &mut second, 1, 0);
    wait(&mut second, 1, 0);
    let none = get(rt, &mut second, 1, 0);
    Ok([taken, none])
}

#[test]
fn a_wait_takes_nothing_and_ends_where_nothing_comes(rt: HostRuntime) -> Result<(), Fail> {
    let item = Item {
        position: 1,
        sender: 1,
        value: 5,
    };
    assert_eq!(rt; taken_behind_waits(rt.alloc(), &rt)?, [Some(item), None]);
    Ok(())
}
