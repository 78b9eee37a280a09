//! Two mutators on one thread.
use crate::calling::{get, put};
use crate::opening::{Opened, come_in, open_mailbox};
use cell_heap::NoMemory;
use cell_mailbox::{HeapFull, Item};
use free_cells::FreeQueue;
use std::alloc::Global;
use std::sync::Wait;
use std::test::Fail;

/// Both send, and then both take until nothing is left.
fn both<R: Wait>(
    alloc: Global,
    rt: &R,
) -> Result<([Result<u64, HeapFull>; 3], [Option<Item>; 4]), NoMemory> {
    let (queue, pass) = FreeQueue::open(alloc, rt, 8, 2)?;
    let Opened {
        heap,
        first,
        second,
        ..
    } = open_mailbox(alloc, 8)?;
    let mut hints = queue.hints(pass);
    let mut first = come_in(&heap, first, 0);
    let mut second = come_in(&heap, second, 1);
    let one = put(rt, &mut hints, &mut first, 0, 0, 5);
    let two = put(rt, &mut hints, &mut second, 1, 0, 7);
    let early = get(rt, &mut second, 1, 1);
    let three = put(rt, &mut hints, &mut first, 0, 1, 9);
    let next = get(rt, &mut first, 0, 2);
    let last = get(rt, &mut second, 1, 1);
    let none = get(rt, &mut first, 0, 2);
    Ok(([one, two, three], [early, next, last, none]))
}

#[test]
fn items_are_taken_in_the_order_of_their_positions(rt: HostRuntime) -> Result<(), Fail> {
    let (sent, taken) = both(rt.alloc(), &rt)?;
    assert_eq!(rt; sent, [Ok(1), Ok(2), Ok(3)]);
    let first = Item {
        position: 1,
        sender: 1,
        value: 5,
    };
    let second = Item {
        position: 2,
        sender: 2,
        value: 7,
    };
    let third = Item {
        position: 3,
        sender: 1,
        value: 9,
    };
    assert_eq!(rt; taken, [Some(first), Some(second), Some(third), None]);
    Ok(())
}
