//! Stores after every event of a cycle: in async with the collector idle, tracing and sweeping, in
//! sync1, and in sync2 before and after the end of the handshake. And whether two places hold one
//! cell.

use crate::fetching::fetch_and_store;
use crate::sameness::{ask_and_leave, ask_of_anchor};
use crate::storing::store_and_leave;
use crate::unlinked::{close_one, close_over, open_one};
use cell_heap::{NoMemory, Value};
use cell_words::Field;
use std::alloc::Global;
use std::test::Fail;

/// Whether a number was stored after each event of a cycle, whether the last of them stands in the
/// anchor at the close, and how many cycles there were.
fn stored_through(alloc: Global) -> Result<(bool, bool, u32), NoMemory> {
    let (heap, mut collector, seat) = open_one(alloc)?;
    let (seat, (events, stored)) = store_and_leave(&heap, &mut collector, seat);
    let image = close_over(heap, collector, seat);
    let last = match image.field(0, 0) {
        Field::Num(number) => number < 100 && number + 1 == events,
        Field::Null | Field::Cell(_) => false,
    };
    Ok((events == stored, last, image.control().cycles))
}

#[test]
fn a_store_is_made_in_every_state_of_a_cycle(rt: HostRuntime) -> Result<(), Fail> {
    assert_eq!(rt; stored_through(rt.alloc())?, (true, true, 1));
    Ok(())
}

/// What a bare seat fetched from the anchor, and what stands there at the close.
fn fetched(alloc: Global) -> Result<(Option<Value>, Field), NoMemory> {
    let (heap, collector, mut seat) = open_one(alloc)?;
    let found = fetch_and_store(&heap, &mut seat);
    let image = close_one(heap, collector, seat);
    Ok((found, image.field(0, 0)))
}

#[test]
fn a_seat_stores_in_the_field_that_it_fetched(rt: HostRuntime) -> Result<(), Fail> {
    assert_eq!(rt; fetched(rt.alloc())?, (Some(Value::Num(0)), Field::Num(7)));
    Ok(())
}

/// Whether the anchor is itself by the bare seat, and by a mutator.
fn asked(alloc: Global) -> Result<(bool, bool), NoMemory> {
    let (heap, collector, mut seat) = open_one(alloc)?;
    let once = ask_of_anchor(&heap, &mut seat);
    let (seat, again) = ask_and_leave(&heap, seat);
    close_over(heap, collector, seat);
    Ok((once, again))
}

#[test]
fn a_cell_is_the_same_as_itself(rt: HostRuntime) -> Result<(), Fail> {
    assert_eq!(rt; asked(rt.alloc())?, (true, true));
    Ok(())
}
